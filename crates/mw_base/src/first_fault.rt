// Which fault of a text is the first.
ghost use Rattle.std.specs.Prelude.{◌≡◌};
ghost use Rattle.mw_base.specs.FirstFaults.{is_before, first_of};

use crate::refusal::TextFault;

/// Whether a fault stands before another, or at its place with a lesser number.
fn is_before(a: TextFault, b: TextFault) -> bool
    ensures { result ≡ is_before a b }
{
    a.line < b.line
        || (a.line == b.line
            && (a.column < b.column
                || (a.column == b.column && a.cause.number() < b.cause.number())))
}

/// Keeps the first of a fault and what was the first before it: by place, and at one place the one with the
/// least number.
pub fn note_fault(first: &mut Option<TextFault>, fault: TextFault)
    ensures exact { first.new ≡ first_of first.old fault }
{
    match *first {
        Some(other) if !is_before(fault, other) => {}
        _ => *first = Some(fault),
    }
}
