// Console runs of small machines, on which the definitions compute.
ghost use Rattle.std.specs.Prelude.{◌≡◌, [], ◌∷◌};
ghost use Rattle.mw_pal.specs.RunExamples.{prints, reads, run};

/// Each of two steps reads a key: the inputs are its status and the key, and where none is left 0.
fn reads_keys()
    ensures three { reads (0x41 ∷ 0x42 ∷ 0x43 ∷ []) ≡ run 0x42 (0x43 ∷ []) [] (0x400 ∷ 0x41 ∷ 0x400 ∷ 0x42 ∷ []) }
    ensures one { reads (0x41 ∷ []) ≡ run 0 [] [] (0x400 ∷ 0x41 ∷ 0x400 ∷ 0 ∷ []) }
{}

/// Each of two steps prints the register's low eight bits, and then takes zeros into it.
fn prints_twice()
    ensures { prints 0x148 ≡ run 0 [] (0x48 ∷ 0 ∷ []) (0 ∷ 0 ∷ 0 ∷ 0 ∷ []) }
{}
