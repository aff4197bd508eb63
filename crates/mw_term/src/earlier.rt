// What an op makes of the terms before it.
ghost use Rattle.std.specs.Prelude.{◌≡◌, ℕ, ◌<◌, ◌^◌, ◌↔◌, IsTrue, length, slice_index};
ghost use Rattle.mw_base.specs.Words.{num};
ghost use Rattle.mw_term.specs.Assigned.{given_by};
ghost use Rattle.mw_term.specs.Table.{op_width, ArePair, AreWidths, IsBit, OpFits, IsWidth};
ghost use Rattle.mw_term.specs.Values.{op_value, AreWords};

use crate::assignment::Assignment;
use crate::op::{Op, Term};
use crate::words::{carry_into, complement, cut, join, overflows, sum};

/// Whether a term can have so many bits: 1 to 32.
fn is_width(bits: u8) -> bool
    ensures { IsTrue result ↔ IsWidth bits }
{
    1 <= bits && bits <= 32
}

/// Whether a number has no more bits than a width that a term can have.
#[tactic(auto, using(std::proofs::lemmas::Nat::one_shl))]
fn is_number(number: u32, width: u8) -> bool
    ensures { IsTrue result ↔ (IsWidth width × (number < 2 ^ width)) }
{
    is_width(width) && u64::from(number) < 1 << width
}

/// The terms before one: how wide each is, and the map.
#[derive(Drop)]
pub(crate) struct Earlier<'a> {
    pub map: &'a [u16],
    pub widths: &'a [u8],
}

impl Earlier<'_> {
    fn width_of(&self, term: Term) -> u8
        requires { term < length self.now.widths.now }
        ensures { result ≡ slice_index self.now.widths.now term }
    {
        self.widths[term.position()]
    }

    fn is_term(&self, term: Term) -> bool
        ensures { IsTrue result ↔ (term < length self.now.widths.now) }
    {
        term.position() < self.widths.len()
    }

    fn are_pair(&self, a: Term, b: Term) -> bool
        ensures { IsTrue result ↔ ArePair self.now.widths.now a b }
    {
        self.is_term(a) && self.is_term(b) && self.width_of(a) == self.width_of(b)
    }

    fn is_bit(&self, term: Term) -> bool
        ensures { IsTrue result ↔ IsBit self.now.widths.now term }
    {
        self.is_term(term) && self.width_of(term) == 1
    }

    fn is_part(&self, term: Term, low: u8, width: u8) -> bool
        ensures { IsTrue result ↔ OpFits self.now.map.now self.now.widths.now (Op.Part term low width) }
    {
        self.is_term(term)
            && is_width(width)
            && u32::from(low) + u32::from(width) <= u32::from(self.width_of(term))
    }

    fn is_join(&self, high: Term, low: Term) -> bool
        ensures { IsTrue result ↔ OpFits self.now.map.now self.now.widths.now (Op.Join high low) }
    {
        self.is_term(high)
            && self.is_term(low)
            && u32::from(self.width_of(high)) + u32::from(self.width_of(low)) <= 32
    }

    fn is_index(&self, term: Term) -> bool
        requires { AreWidths self.now.widths.now }
        ensures { IsTrue result ↔ OpFits self.now.map.now self.now.widths.now (Op.Tab term) }
    {
        self.is_term(term) && self.map.len() as u64 == 1 << self.width_of(term)
    }

    /// Whether an op fits.
    pub(crate) fn fits(&self, op: Op) -> bool
        requires { AreWidths self.now.widths.now }
        ensures { IsTrue result ↔ OpFits self.now.map.now self.now.widths.now op }
    {
        match op {
            Op::Con(number, width) => is_number(number, width),
            Op::Var(_, width) => is_width(width),
            Op::Not(a) => self.is_term(a),
            Op::And(a, b) | Op::Or(a, b) | Op::Xor(a, b) | Op::Eq(a, b) | Op::Lt(a, b) => {
                self.are_pair(a, b)
            }
            Op::Sum(a, b, c) | Op::Cout(a, b, c) | Op::Ovf(a, b, c) => {
                self.are_pair(a, b) && self.is_bit(c)
            }
            Op::Ite(c, a, b) => self.is_bit(c) && self.are_pair(a, b),
            Op::Part(a, low, width) => self.is_part(a, low, width),
            Op::Join(high, low) => self.is_join(high, low),
            Op::Tab(i) => self.is_index(i),
        }
    }

    /// How many bits an op has.
    #[tactic(auto, unfolding(crate::specs::Table::op_width))]
    pub(crate) fn width(&self, op: Op) -> u8
        requires fits { OpFits self.now.map.now self.now.widths.now op }
        requires range { AreWidths self.now.widths.now }
        ensures exact { result ≡ op_width self.now.widths.now op }
    {
        match op {
            Op::Con(_, width) | Op::Var(_, width) | Op::Part(_, _, width) => width,
            Op::Not(a)
            | Op::And(a, _)
            | Op::Or(a, _)
            | Op::Xor(a, _)
            | Op::Sum(a, _, _)
            | Op::Ite(_, a, _) => self.width_of(a),
            Op::Cout(..) | Op::Ovf(..) | Op::Eq(..) | Op::Lt(..) => 1,
            Op::Join(high, low) => self.width_of(high) + self.width_of(low),
            Op::Tab(_) => 12,
        }
    }
}

/// The terms before one with their values, under an assignment.
#[derive(Drop)]
pub(crate) struct Valued<'a> {
    pub earlier: Earlier<'a>,
    pub values: &'a [u32],
    pub given: &'a Assignment,
}

impl Valued<'_> {
    fn value_of(&self, term: Term) -> u32
        requires { term < length self.now.values.now }
        ensures { result ≡ slice_index self.now.values.now term }
    {
        self.values[term.position()]
    }

    #[tactic(auto, unfolding(crate::specs::Values::op_value))]
    fn sum(&self, a: Term, b: Term, c: Term) -> u32
        requires fits { OpFits self.now.earlier.map.now self.now.earlier.widths.now (Op.Sum a b c) }
        requires words { AreWords self.now.earlier.widths.now self.now.values.now }
        ensures { result ≡ op_value self.now.earlier.map.now (given_by self.now.given.now)
            self.now.earlier.widths.now self.now.values.now (Op.Sum a b c) }
    {
        let width = self.earlier.width_of(a);
        sum(self.value_of(a), self.value_of(b), self.value_of(c), width)
    }

    #[tactic(auto, unfolding(crate::specs::Values::op_value))]
    fn carry_out(&self, a: Term, b: Term, c: Term) -> bool
        requires fits { OpFits self.now.earlier.map.now self.now.earlier.widths.now (Op.Cout a b c) }
        requires words { AreWords self.now.earlier.widths.now self.now.values.now }
        ensures { num result ≡ op_value self.now.earlier.map.now (given_by self.now.given.now)
            self.now.earlier.widths.now self.now.values.now (Op.Cout a b c) }
    {
        let width = self.earlier.width_of(a);
        carry_into(self.value_of(a), self.value_of(b), self.value_of(c), width)
    }

    #[tactic(auto, unfolding(crate::specs::Values::op_value))]
    fn overflow(&self, a: Term, b: Term, c: Term) -> bool
        requires fits { OpFits self.now.earlier.map.now self.now.earlier.widths.now (Op.Ovf a b c) }
        requires words { AreWords self.now.earlier.widths.now self.now.values.now }
        ensures { num result ≡ op_value self.now.earlier.map.now (given_by self.now.given.now)
            self.now.earlier.widths.now self.now.values.now (Op.Ovf a b c) }
    {
        let width = self.earlier.width_of(a);
        overflows(self.value_of(a), self.value_of(b), self.value_of(c), width)
    }

    #[tactic(auto, unfolding(crate::specs::Values::op_value))]
    fn choice(&self, c: Term, a: Term, b: Term) -> u32
        requires fits { OpFits self.now.earlier.map.now self.now.earlier.widths.now (Op.Ite c a b) }
        requires words { AreWords self.now.earlier.widths.now self.now.values.now }
        ensures { result ≡ op_value self.now.earlier.map.now (given_by self.now.given.now)
            self.now.earlier.widths.now self.now.values.now (Op.Ite c a b) }
    {
        if self.value_of(c) == 1 {
            self.value_of(a)
        } else {
            self.value_of(b)
        }
    }

    #[tactic(auto, unfolding(crate::specs::Values::op_value))]
    fn joined(&self, high: Term, low: Term) -> u32
        requires fits { OpFits self.now.earlier.map.now self.now.earlier.widths.now (Op.Join high low) }
        requires words { AreWords self.now.earlier.widths.now self.now.values.now }
        ensures { result ≡ op_value self.now.earlier.map.now (given_by self.now.given.now)
            self.now.earlier.widths.now self.now.values.now (Op.Join high low) }
    {
        let (high_width, low_width) = (self.earlier.width_of(high), self.earlier.width_of(low));
        join(
            self.value_of(high),
            high_width,
            self.value_of(low),
            low_width,
        )
    }

    /// What an op stands for.
    #[tactic(auto, unfolding(crate::specs::Values::op_value))]
    pub(crate) fn value(&self, op: Op) -> u32
        requires fits { OpFits self.now.earlier.map.now self.now.earlier.widths.now op }
        requires words { AreWords self.now.earlier.widths.now self.now.values.now }
        ensures { result ≡ op_value self.now.earlier.map.now (given_by self.now.given.now)
            self.now.earlier.widths.now self.now.values.now op }
    {
        match op {
            Op::Con(number, _) => number,
            Op::Var(word, width) => cut(self.given.number(word), width),
            Op::Not(a) => complement(self.value_of(a), self.earlier.width_of(a)),
            Op::And(a, b) => self.value_of(a) & self.value_of(b),
            Op::Or(a, b) => self.value_of(a) | self.value_of(b),
            Op::Xor(a, b) => self.value_of(a) ^ self.value_of(b),
            Op::Sum(a, b, c) => self.sum(a, b, c),
            Op::Cout(a, b, c) => u32::from(self.carry_out(a, b, c)),
            Op::Ovf(a, b, c) => u32::from(self.overflow(a, b, c)),
            Op::Eq(a, b) => u32::from(self.value_of(a) == self.value_of(b)),
            Op::Lt(a, b) => u32::from(self.value_of(a) < self.value_of(b)),
            Op::Ite(c, a, b) => self.choice(c, a, b),
            Op::Part(a, low, width) => cut(self.value_of(a) >> low, width),
            Op::Join(high, low) => self.joined(high, low),
            Op::Tab(i) => u32::from(self.earlier.map[self.value_of(i) as usize]),
        }
    }
}
