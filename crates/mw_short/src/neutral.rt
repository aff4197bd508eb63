//! The shortcut on 0 and all ones.
ghost use Rattle.std.specs.Prelude.{◌≡◌, ◌<◌, ◌≤◌, length, IfSome};
ghost use Rattle.mw_base.specs.Words as words;
ghost use Rattle.mw_term.specs.Assigned.{Given};
ghost use Rattle.mw_term.specs.Constants.{constant_at};
ghost use Rattle.mw_term.specs.Hints.{IsRight};
ghost use Rattle.mw_term.specs.Table.{Fits, IsTable};
ghost use Rattle.mw_term.specs.Values.{term_value};
ghost use Rattle.mw_short.specs.Shortcuts.{hint_beside, hint_of_either, neutral_constant_hint, neutral_in_sum};

use mw_term::{Hint, Op, Term, Terms, constant_number, terms_have_widths};

/// The number of so many ones, at most 32.
fn ones(width: u8) -> u32
    requires { width ≤ 32 }
    ensures { result ≡ words.ones width }
{
    ((1u64 << width) - 1) as u32
}

/// What an operand hints that is a constant, beside another at a place: the other, where the number is neutral; the
/// number itself, where nothing changes that.
fn beside(neutral: Option<u32>, absorbing: Option<u32>, number: Option<u32>, other: u8) -> Hint
    ensures { result ≡ hint_beside neutral absorbing number other }
{
    let Some(number) = number else {
        return Hint::Nothing;
    };
    if neutral == Some(number) {
        Hint::Operand(other)
    } else if absorbing == Some(number) {
        Hint::Constant(number)
    } else {
        Hint::Nothing
    }
}

/// What two operands hint: the second is looked at first.
fn either(terms: &Terms, a: Term, b: Term, neutral: Option<u32>, absorbing: Option<u32>) -> Hint
    requires first { a < length terms.now.ops }
    requires second { b < length terms.now.ops }
    ensures exact { result ≡ hint_of_either terms.now a b neutral absorbing }
    ensures first { IfSome (constant_at terms.now a) (λ n. (given : Given) → term_value terms.now given a ≡ n) }
    ensures second { IfSome (constant_at terms.now b) (λ n. (given : Given) → term_value terms.now given b ≡ n) }
    ensures table { IsTable terms.now }
{
    let (first, second) = (constant_number(terms, a), constant_number(terms, b));
    match beside(neutral, absorbing, second, 0) {
        Hint::Nothing => beside(neutral, absorbing, first, 1),
        hint => hint,
    }
}

/// What is neutral in a sum of a width with a carry in that is a constant: 0 where that is 0, and all ones where it
/// is 1.
fn neutral_in_sum(carry: Option<u32>, width: u8) -> Option<u32>
    requires { width ≤ 32 }
    ensures { result ≡ neutral_in_sum carry width }
{
    match carry {
        Some(1) => Some(ones(width)),
        Some(_) => Some(0),
        None => None,
    }
}

/// Of `And` with all ones, `Or` and `Xor` with 0, and `Sum` with 0 and carry 0 or all ones and carry 1, the other
/// operand; of `And` with 0 and `Or` with all ones, that constant; else nothing. The op fits the table.
#[tactic(auto, unfolding(crate::specs::Shortcuts::neutral_constant_hint, mw_term::specs::Hints::hinted))]
pub fn neutral_constant(terms: &Terms, op: Op) -> Hint
    requires { Fits terms.now op }
    ensures exact { result ≡ neutral_constant_hint terms.now op }
    ensures right { IsRight terms.now op result }
{
    terms_have_widths();
    match op {
        Op::And(a, b) => either(terms, a, b, Some(ones(terms.width(a))), Some(0)),
        Op::Or(a, b) => either(terms, a, b, Some(0), Some(ones(terms.width(a)))),
        Op::Xor(a, b) => either(terms, a, b, Some(0), None),
        Op::Sum(a, b, c) => {
            let neutral = neutral_in_sum(constant_number(terms, c), terms.width(a));
            either(terms, a, b, neutral, None)
        }
        _ => Hint::Nothing,
    }
}
