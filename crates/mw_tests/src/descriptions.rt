// Small machines on which the definitions compute.
ghost use Rattle.std.specs.Prelude.{◌≡◌, Ok, Err};
ghost use Rattle.mw_base.specs.declared.cause.Cause.TheVariants.{WidthsDiffer};
ghost use Rattle.mw_descfile.specs.Examples.{small_text, small_machine, uneven_text};
ghost use Rattle.mw_descfile.specs.Machine.{machine_of};

/// The text of a small machine is that machine.
fn small_machine()
    ensures { machine_of small_text ≡ Ok small_machine }
{}

/// Its statement adds operands of two widths: cause 41 at the sign between them.
fn uneven_machine()
    ensures { machine_of uneven_text ≡ Err (record { line = 5; column = 8; cause = WidthsDiffer }) }
{}
