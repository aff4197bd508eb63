//! The shortcut on parts of joins.
ghost use Rattle.std.specs.Prelude.{◌≡◌};
ghost use Rattle.mw_term.specs.Hints.{IsRight};
ghost use Rattle.mw_term.specs.Table.{Fits};
ghost use Rattle.mw_short.specs.Shortcuts.{part_of_join_hint};

use mw_term::{Hint, Op, Terms, terms_have_widths};

/// Of the lowest bits of a join, as many as its second term has, that term. The op fits the table.
#[tactic(auto, unfolding(crate::specs::Shortcuts::part_of_join_hint, mw_term::specs::Hints::hinted))]
pub fn part_of_join(terms: &Terms, op: Op) -> Hint
    requires { Fits terms.now op }
    ensures exact { result ≡ part_of_join_hint terms.now op }
    ensures right { IsRight terms.now op result }
{
    terms_have_widths();
    match op {
        Op::Part(a, first, width) => match terms.op(a) {
            Op::Join(_, low) if first == 0 && terms.width(low) == width => Hint::Inner(0, 1),
            _ => Hint::Nothing,
        },
        _ => Hint::Nothing,
    }
}
