//! The shortcut on complements of complements.
ghost use Rattle.std.specs.Prelude.{◌≡◌};
ghost use Rattle.mw_term.specs.Hints.{IsRight};
ghost use Rattle.mw_term.specs.Table.{Fits};
ghost use Rattle.mw_short.specs.Shortcuts.{double_not_hint};

use mw_term::{Hint, Op, Terms, terms_have_widths};

/// Of the complement of a complement, what that is the complement of. The op fits the table.
#[tactic(auto, unfolding(crate::specs::Shortcuts::double_not_hint, mw_term::specs::Hints::hinted))]
pub fn double_not(terms: &Terms, op: Op) -> Hint
    requires { Fits terms.now op }
    ensures exact { result ≡ double_not_hint terms.now op }
    ensures right { IsRight terms.now op result }
{
    terms_have_widths();
    let Op::Not(a) = op else {
        return Hint::Nothing;
    };
    match terms.op(a) {
        Op::Not(_) => Hint::Inner(0, 0),
        _ => Hint::Nothing,
    }
}
