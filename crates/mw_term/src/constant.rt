// Constants, and what an op makes of them.
ghost use Rattle.std.specs.Prelude.{◌≡◌, ◌<◌, ◌^◌, ◌↔◌, length, IfSome, IsSome, IsTrue};
ghost use Rattle.mw_base.specs.Words.{num};
ghost use Rattle.mw_term.specs.Assigned.{Given};
ghost use Rattle.mw_term.specs.Constants.{constant_at, IsOverConstants};
ghost use Rattle.mw_term.specs.Table.{term_width, widths_of, Fits, IsTable, IsWidth};
ghost use Rattle.mw_term.specs.Values.{term_value, value_over};

use crate::laws::terms_have_widths;
use crate::op::{Op, Term};
use crate::terms::Terms;
use crate::words::{carry_into, complement, cut, join, overflows, sum};

/// The number of a term, which is one of this table, if it is a constant.
pub fn constant_number(terms: &Terms, term: Term) -> Option<u32>
    requires { term < length terms.now.ops }
    ensures exact { result ≡ constant_at terms.now term }
    ensures value { IfSome result (λ number. (given : Given) → term_value terms.now given term ≡ number) }
    ensures below { IfSome result (λ number. number < 2 ^ term_width terms.now term) }
    ensures table { IsTable terms.now }
{
    match terms.op(term) {
        Op::Con(number, _) => Some(number),
        _ => None,
    }
}

/// Whether a term is a constant.
fn is_constant(terms: &Terms, term: Term) -> bool
    requires { term < length (widths_of terms.now.ops) }
    ensures { IsTrue result ↔ IsSome (constant_at terms.now term) }
{
    terms_have_widths();
    constant_number(terms, term).is_some()
}

/// Whether an op that fits the table has operands, each of which is a constant.
#[tactic(auto, unfolding(crate::specs::Operands::operands))]
pub fn is_over_constants(terms: &Terms, op: &Op) -> bool
    requires { Fits terms.now op.now }
    ensures { IsTrue result ↔ IsOverConstants terms.now op.now }
{
    match *op {
        Op::Con(..) | Op::Var(..) => false,
        Op::Not(a) | Op::Part(a, ..) | Op::Tab(a) => is_constant(terms, a),
        Op::And(a, b)
        | Op::Or(a, b)
        | Op::Xor(a, b)
        | Op::Eq(a, b)
        | Op::Lt(a, b)
        | Op::Join(a, b) => is_constant(terms, a) && is_constant(terms, b),
        Op::Sum(a, b, c) | Op::Cout(a, b, c) | Op::Ovf(a, b, c) | Op::Ite(a, b, c) => {
            is_constant(terms, a) && is_constant(terms, b) && is_constant(terms, c)
        }
    }
}

/// The value of a constant, which is its number.
fn value_of(terms: &Terms, term: Term) -> u32
    requires there { term < length (widths_of terms.now.ops) }
    requires constant { IsSome (constant_at terms.now term) }
    ensures value { (given : Given) → term_value terms.now given term ≡ result }
    ensures below { result < 2 ^ term_width terms.now term }
    ensures table { IsTable terms.now }
{
    terms_have_widths();
    match constant_number(terms, term) {
        Some(number) => number,
        None => unreachable!(),
    }
}

/// How many bits a term has.
fn width_of(terms: &Terms, term: Term) -> u8
    requires { term < length (widths_of terms.now.ops) }
    ensures exact { result ≡ term_width terms.now term }
    ensures range { IsWidth result }
{
    terms_have_widths();
    terms.width(term)
}

/// The sum of constants.
#[tactic(auto, unfolding(crate::specs::Values::op_value, crate::specs::Operands::operands))]
fn sum_of(terms: &Terms, a: Term, b: Term, c: Term) -> u32
    requires fits { Fits terms.now (Op.Sum a b c) }
    requires constant { IsOverConstants terms.now (Op.Sum a b c) }
    ensures { (given : Given) → result ≡ value_over terms.now given (Op.Sum a b c) }
{
    let (x, y, carry) = (value_of(terms, a), value_of(terms, b), value_of(terms, c));
    sum(x, y, carry, width_of(terms, a))
}

/// The carry out of a sum of constants.
#[tactic(auto, unfolding(crate::specs::Values::op_value, crate::specs::Operands::operands))]
fn carry_out(terms: &Terms, a: Term, b: Term, c: Term) -> bool
    requires fits { Fits terms.now (Op.Cout a b c) }
    requires constant { IsOverConstants terms.now (Op.Cout a b c) }
    ensures { (given : Given) → num result ≡ value_over terms.now given (Op.Cout a b c) }
{
    let (x, y, carry) = (value_of(terms, a), value_of(terms, b), value_of(terms, c));
    carry_into(x, y, carry, width_of(terms, a))
}

/// The overflow of a sum of constants.
#[tactic(auto, unfolding(crate::specs::Values::op_value, crate::specs::Operands::operands))]
fn overflow(terms: &Terms, a: Term, b: Term, c: Term) -> bool
    requires fits { Fits terms.now (Op.Ovf a b c) }
    requires constant { IsOverConstants terms.now (Op.Ovf a b c) }
    ensures { (given : Given) → num result ≡ value_over terms.now given (Op.Ovf a b c) }
{
    let (x, y, carry) = (value_of(terms, a), value_of(terms, b), value_of(terms, c));
    overflows(x, y, carry, width_of(terms, a))
}

/// The constant that a constant condition chooses.
#[tactic(auto, unfolding(crate::specs::Values::op_value, crate::specs::Operands::operands))]
fn choice(terms: &Terms, c: Term, a: Term, b: Term) -> u32
    requires fits { Fits terms.now (Op.Ite c a b) }
    requires constant { IsOverConstants terms.now (Op.Ite c a b) }
    ensures { (given : Given) → result ≡ value_over terms.now given (Op.Ite c a b) }
{
    if value_of(terms, c) == 1 {
        value_of(terms, a)
    } else {
        value_of(terms, b)
    }
}

/// A constant above another.
#[tactic(auto, unfolding(crate::specs::Values::op_value, crate::specs::Operands::operands))]
fn joined(terms: &Terms, high: Term, low: Term) -> u32
    requires fits { Fits terms.now (Op.Join high low) }
    requires constant { IsOverConstants terms.now (Op.Join high low) }
    ensures { (given : Given) → result ≡ value_over terms.now given (Op.Join high low) }
{
    let (high_width, low_width) = (width_of(terms, high), width_of(terms, low));
    join(
        value_of(terms, high),
        high_width,
        value_of(terms, low),
        low_width,
    )
}

/// The value of an op over constants, which is the same under every assignment. The op fits the table.
#[tactic(auto, unfolding(crate::specs::Values::op_value, crate::specs::Operands::operands))]
pub fn constant_value(terms: &Terms, op: &Op) -> u32
    requires fits { Fits terms.now op.now }
    requires constant { IsOverConstants terms.now op.now }
    ensures { (given : Given) → result ≡ value_over terms.now given op.now }
{
    match *op {
        Op::Con(number, _) => number,
        Op::Var(..) => unreachable!(),
        Op::Not(a) => complement(value_of(terms, a), width_of(terms, a)),
        Op::And(a, b) => value_of(terms, a) & value_of(terms, b),
        Op::Or(a, b) => value_of(terms, a) | value_of(terms, b),
        Op::Xor(a, b) => value_of(terms, a) ^ value_of(terms, b),
        Op::Sum(a, b, c) => sum_of(terms, a, b, c),
        Op::Cout(a, b, c) => u32::from(carry_out(terms, a, b, c)),
        Op::Ovf(a, b, c) => u32::from(overflow(terms, a, b, c)),
        Op::Eq(a, b) => u32::from(value_of(terms, a) == value_of(terms, b)),
        Op::Lt(a, b) => u32::from(value_of(terms, a) < value_of(terms, b)),
        Op::Ite(c, a, b) => choice(terms, c, a, b),
        Op::Part(a, low, width) => cut(value_of(terms, a) >> low, width),
        Op::Join(high, low) => joined(terms, high, low),
        Op::Tab(i) => u32::from(terms.map()[value_of(terms, i) as usize]),
    }
}
