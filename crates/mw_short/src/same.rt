//! The shortcut on equal operands.
ghost use Rattle.std.specs.Prelude.{◌≡◌, ◌==◌};
ghost use Rattle.mw_term.specs.Hints.{IsRight};
ghost use Rattle.mw_term.specs.Table.{Fits};
ghost use Rattle.mw_short.specs.Shortcuts.{same_operands_hint, when};

use mw_term::{Hint, Op, Term, Terms};

/// A hint where two terms are equal, and else none.
fn where_same(a: Term, b: Term, hint: Hint) -> Hint
    ensures { result ≡ when (a == b) hint }
{
    if a == b { hint } else { Hint::Nothing }
}

/// Of what two equal terms make, one of them or a constant: `And`, `Or`, `Xor`, `Eq`, `Lt`, and `Ite` with equal
/// branches. The op fits the table.
#[tactic(auto, unfolding(crate::specs::Shortcuts::same_operands_hint, mw_term::specs::Hints::hinted))]
pub fn same_operands(_terms: &Terms, op: Op) -> Hint
    requires { Fits _terms.now op }
    ensures exact { result ≡ same_operands_hint op }
    ensures right { IsRight _terms.now op result }
{
    match op {
        Op::And(a, b) => where_same(a, b, Hint::Operand(0)),
        Op::Or(a, b) => where_same(a, b, Hint::Operand(0)),
        Op::Xor(a, b) => where_same(a, b, Hint::Constant(0)),
        Op::Eq(a, b) => where_same(a, b, Hint::Constant(1)),
        Op::Lt(a, b) => where_same(a, b, Hint::Constant(0)),
        Op::Ite(_, a, b) => where_same(a, b, Hint::Operand(1)),
        _ => Hint::Nothing,
    }
}
