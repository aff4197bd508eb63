// Command lines on which the definitions compute.
ghost use Rattle.std.specs.Prelude.{◌≡◌, [], ◌∷◌, None, Some, codes, true};
ghost use Rattle.mw_top.specs.Request.{plainly, request_of};
ghost use Rattle.mw_top.specs.declared.request.Command.TheVariants.{Asm, Compare, Generate, Run};

/// An option may stand anywhere, its number may be joined to it and have zeros in front, and `--` ends the options.
fn requests()
    ensures one_cycle { request_of (codes "run" ∷ codes "b" ∷ codes "m" ∷ codes "e" ∷ codes "--cycles" ∷ codes "1" ∷ [])
        ≡ Some (record (plainly Run (codes "b" ∷ codes "m" ∷ codes "e" ∷ [])) { cycles = 1 }) }
    ensures seven_steps { request_of (codes "--steps=007" ∷ codes "compare" ∷ codes "b" ∷ codes "m" ∷ codes "--parts"
        ∷ codes "k" ∷ codes "r" ∷ codes "s" ∷ [])
        ≡ Some (record (plainly Compare (codes "b" ∷ codes "m" ∷ codes "k" ∷ codes "r" ∷ codes "s" ∷ []))
        { steps = 7; parts = true }) }
    ensures file_words { request_of (codes "asm" ∷ codes "--" ∷ codes "-b" ∷ codes "" ∷ [])
        ≡ Some (plainly Asm (codes "-b" ∷ [] ∷ [])) }
    ensures job_number { request_of (codes "generate" ∷ codes "65535" ∷ codes "--paths" ∷ codes "255" ∷ [])
        ≡ Some (record (plainly Generate []) { number = 65535; paths = 255 }) }
{}

/// No words, no such command, another number of files, an unknown option, one of another command, one without its
/// number or given twice, numbers that are no decimal digits, too many digits, or out of their range, and a number of a
/// job that is too great, or one too many.
fn no_requests()
    ensures no_words { request_of [] ≡ None }
    ensures no_command { request_of (codes "run2" ∷ codes "b" ∷ codes "m" ∷ codes "e" ∷ []) ≡ None }
    ensures files { request_of (codes "asm" ∷ codes "b" ∷ []) ≡ None }
    ensures unknown { request_of (codes "asm" ∷ codes "b" ∷ codes "m" ∷ codes "--help" ∷ []) ≡ None }
    ensures other { request_of (codes "asm" ∷ codes "b" ∷ codes "m" ∷ codes "--cycles" ∷ codes "2" ∷ []) ≡ None }
    ensures flag { request_of (codes "asm" ∷ codes "b" ∷ codes "m" ∷ codes "--parts" ∷ []) ≡ None }
    ensures no_number { request_of (codes "run" ∷ codes "b" ∷ codes "m" ∷ codes "e" ∷ codes "--cycles" ∷ []) ≡ None }
    ensures twice { request_of
        (codes "run" ∷ codes "b" ∷ codes "m" ∷ codes "e" ∷ codes "--parts" ∷ codes "--parts" ∷ []) ≡ None }
    ensures based { request_of (codes "run" ∷ codes "b" ∷ codes "m" ∷ codes "e" ∷ codes "--cycles" ∷ codes "0x1" ∷ [])
        ≡ None }
    ensures nine_digits { request_of
        (codes "run" ∷ codes "b" ∷ codes "m" ∷ codes "e" ∷ codes "--cycles" ∷ codes "123456789" ∷ []) ≡ None }
    ensures zero { request_of (codes "run" ∷ codes "b" ∷ codes "m" ∷ codes "e" ∷ codes "--cycles" ∷ codes "0" ∷ [])
        ≡ None }
    ensures too_great { request_of
        (codes "run" ∷ codes "b" ∷ codes "m" ∷ codes "e" ∷ codes "--cycles" ∷ codes "1000001" ∷ []) ≡ None }
    ensures job_too_great { request_of (codes "generate" ∷ codes "65536" ∷ []) ≡ None }
    ensures two_jobs { request_of (codes "generate" ∷ codes "0" ∷ codes "7" ∷ []) ≡ None }
{}
