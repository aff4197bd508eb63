// Small sources on which the definitions compute.
ghost use Rattle.std.specs.Prelude.{◌≡◌, [], ◌∷◌, codes, Ok, Err};
ghost use Rattle.mw_base.specs.declared.cause.Cause.TheVariants.{OffPage, MixedWords};
ghost use Rattle.mw_pal.specs.Examples.{line, prints, first_words};
ghost use Rattle.mw_pal.specs.Source.{memory_of};

/// A jump from page 1 to page 2 is off its page.
fn off_page()
    ensures { memory_of (line (codes "jmp 0o400")) ≡ Err (record { line = 1; column = 5; cause = OffPage }) }
{}

/// Tests of both kinds can't stand together.
fn mixed_words()
    ensures { memory_of (line (codes "sma spa")) ≡ Err (record { line = 1; column = 5; cause = MixedWords }) }
{}

/// A source that prints two letters has eight words.
fn prints_two_letters()
    ensures { first_words 8 prints
        ≡ Ok (0x286 ∷ 0xC26 ∷ 0xE80 ∷ 0x287 ∷ 0xC26 ∷ 0xF02 ∷ 0x48 ∷ 0x49 ∷ []) }
{}
