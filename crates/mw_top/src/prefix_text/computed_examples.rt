// Prefixes of decided bits on which the definitions compute.
ghost use Rattle.std.specs.Prelude.{◌≡◌, [], ◌∷◌, ◌++◌, codes, false, true};
ghost use Rattle.mw_cycle.specs.Decided.{address_bits, decided};
ghost use Rattle.mw_top.specs.PrefixText.{prefix_text};
ghost use Rattle.mw_term.specs.declared.decided.DecidedKind.TheVariants.{Branch, CounterZero, Next, Pass};

/// A piece for each cycle: pass, counter zero and the next address, and behind the last cycle the step's branch bits.
fn whole_cycles()
    ensures two { prefix_text (address_bits 1 12 ++ address_bits 0 12) ≡ codes "--001 --000" }
    ensures tested { prefix_text (decided Pass true ∷ address_bits 0xABC 12) ≡ codes "1-ABC" }
    ensures counted { prefix_text (decided CounterZero false ∷ address_bits 4 12) ≡ codes "-0004" }
    ensures both { prefix_text (decided Pass false ∷ decided CounterZero true ∷ address_bits 0xFFF 12) ≡ codes "01FFF" }
    ensures stepped { prefix_text
        (address_bits 1 12 ++ address_bits 0 12 ++ decided Branch false ∷ decided Branch true ∷ [])
        ≡ codes "--001 --000 / 01" }
{}

/// What is decided of a cycle so far; a cycle of which nothing is decided has no piece.
fn cycles_begun()
    ensures nothing { prefix_text [] ≡ codes "-" }
    ensures passed { prefix_text (decided Pass true ∷ []) ≡ codes "1-b" }
    ensures counted { prefix_text (decided Pass true ∷ decided CounterZero false ∷ []) ≡ codes "10b" }
    ensures two_bits { prefix_text (decided Pass true ∷ decided (Next 11) false ∷ decided (Next 10) true ∷ [])
        ≡ codes "1-b01" }
    ensures second { prefix_text (decided CounterZero false ∷ address_bits 4 12 ++ decided (Next 11) false ∷ [])
        ≡ codes "-0004 --b0" }
{}
