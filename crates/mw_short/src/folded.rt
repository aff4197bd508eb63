//! Shortcuts on choices by a constant and on ops over constants alone.
ghost use Rattle.std.specs.Prelude.{◌≡◌};
ghost use Rattle.mw_term.specs.Assigned.{Given};
ghost use Rattle.mw_term.specs.Constants.{IsOverConstants};
ghost use Rattle.mw_term.specs.Hints.{IsRight};
ghost use Rattle.mw_term.specs.Table.{Fits};
ghost use Rattle.mw_term.specs.Values.{value_over};
ghost use Rattle.mw_term.specs.declared.hint.Hint.TheVariants.{Nothing, Constant};
ghost use Rattle.mw_short.specs.Shortcuts.{branch_of, fixed_choice_hint};

use mw_term::{
    Hint, Op, Terms, constant_number, constant_value, is_over_constants, terms_have_widths,
};

/// The branch that a condition chooses which is a constant.
fn branch_of(condition: Option<u32>) -> Hint
    ensures { result ≡ branch_of condition }
{
    match condition {
        Some(1) => Hint::Operand(1),
        Some(_) => Hint::Operand(2),
        None => Hint::Nothing,
    }
}

/// Of a choice by a constant, the branch that it chooses. The op fits the table.
#[tactic(auto, unfolding(crate::specs::Shortcuts::fixed_choice_hint, mw_term::specs::Hints::hinted))]
pub fn fixed_choice(terms: &Terms, op: Op) -> Hint
    requires { Fits terms.now op }
    ensures exact { result ≡ fixed_choice_hint terms.now op }
    ensures right { IsRight terms.now op result }
{
    terms_have_widths();
    match op {
        Op::Ite(c, _, _) => branch_of(constant_number(terms, c)),
        _ => Hint::Nothing,
    }
}

/// Of an op that has operands, all of them constants, the constant that it is. The op fits the table.
#[tactic(auto, unfolding(mw_term::specs::Hints::hinted))]
pub fn all_constant(terms: &Terms, op: Op) -> Hint
    requires { Fits terms.now op }
    ensures constant { IsOverConstants terms.now op → (given : Given)
        → result ≡ Constant (value_over terms.now given op) }
    ensures nothing { ¬ IsOverConstants terms.now op → result ≡ Nothing }
    ensures right { IsRight terms.now op result }
{
    if is_over_constants(terms, &op) {
        Hint::Constant(constant_value(terms, &op))
    } else {
        Hint::Nothing
    }
}
