// The bits of an op, from those of its operands.
ghost use Rattle.std.specs.Prelude.{◌≡◌, ◌≤◌, ◌<◌, ◌-◌, ℕ, List, true, length, IfOk, MatchResult};
ghost use Rattle.mw_term.specs.Functions.{Function};
ghost use Rattle.mw_term.specs.Operands.{operands};
ghost use Rattle.mw_term.specs.Rows.{bit, bit_made, row, row_bits};
ghost use Rattle.mw_term.specs.Table.{IsBit, Fits, widths_of, term_width, width_over};
ghost use Rattle.mw_dd.specs.Nodes as nodes;
ghost use Rattle.mw_dd.specs.Nodes.{IsDd};
ghost use Rattle.mw_dd.specs.Diagrams.{Keeps};
ghost use Rattle.mw_blast.specs.Bits.{StandsFor, AreThere, StandEach, AreFor};
ghost use Rattle.mw_blast.specs.Kept.{is_made, AreMade, IsOf, AreReady};
ghost use Rattle.mw_blast.specs.Rows.{carried, bit_at, operations_at, IsRefusedAt};

use crate::blast::Blast;
use crate::entry::entry;
use crate::fault::RowFault;
use crate::functions::{constants, joined, part, single, variables};
use crate::rows::{Row, difference};
use crate::words::word;
use mw_dd::{Dd, Diagrams};
use mw_term::{Op, Term, Terms};
use std::alloc::Global;

/// The carry into a bit, where that into bit 0 and those out of the bits before it are known.
fn carry_into(first: Dd, carries: &[Dd], bit: u8) -> Dd
    requires { bit ≤ length carries.now }
    ensures there { (dds : List nodes.Node) → IsDd dds first → AreThere dds carries.now → IsDd dds result }
    ensures made { (dds : List nodes.Node) (A B : ℕ → Function) (K : Function) → StandsFor dds first K
        → StandEach dds carries.now (bit_at Row.Carry A B K) → StandsFor dds result (carried Row.Carry A B K bit) }
{
    if bit == 0 {
        first
    } else {
        carries[bit as usize - 1]
    }
}

impl Blast {
    /// The bit of a term of one bit, which was made.
    fn bit(&self, terms: &Terms, term: Term) -> Dd
        requires one { IsBit (widths_of terms.now.ops) term }
        requires made { is_made self.now term ≡ true }
        requires of { (dds : List nodes.Node) × IsOf terms.now dds self.now }
        ensures { (dds : List nodes.Node) → IsOf terms.now dds self.now → StandsFor dds result (bit terms.now term 0) }
    {
        self.bits_of(terms, term)[0]
    }

    /// What a row makes at each bit of two terms of one width, from the lowest.
    fn pair(
        &self,
        alloc: Global,
        terms: &Terms,
        dds: &mut Diagrams,
        row: Row,
        a: Term,
        b: Term,
        first: Dd,
        budget: u32,
    ) -> Result<Vec<Dd>, RowFault>
        requires ready { AreReady terms.now dds.old self.now a b }
        requires first { IsDd dds.old first }
        ensures count { IfOk result (λ v. length v.items ≡ term_width terms.now a) }
        ensures there { IfOk result (λ v. AreThere dds.new v.items) }
        ensures made { (K : Function) → StandsFor dds.old first K
            → MatchResult result
            (λ v. AreFor dds.new (term_width terms.now a) (bit_at row (bit terms.now a) (bit terms.now b) K) v.items)
            (IsRefusedAt (operations_at row (bit terms.now a) (bit terms.now b) K) (term_width terms.now a) budget) }
        ensures keeps { Keeps dds.old dds.new }
    {
        let a = self.bits_of(terms, a);
        let b = self.bits_of(terms, b);
        word(dds, alloc, row, a, b, first, budget)
    }

    /// What a row makes at the top bit of two terms of one width, which have one.
    fn top(
        &self,
        alloc: Global,
        terms: &Terms,
        dds: &mut Diagrams,
        row: Row,
        a: Term,
        b: Term,
        first: Dd,
        budget: u32,
    ) -> Result<Vec<Dd>, RowFault>
        requires ready { AreReady terms.now dds.old self.now a b }
        requires first { IsDd dds.old first }
        ensures made { (K : Function) → StandsFor dds.old first K
            → MatchResult result (λ v. AreFor dds.new 1
            (λ j. bit_at row (bit terms.now a) (bit terms.now b) K (term_width terms.now a - 1)) v.items)
            (IsRefusedAt (operations_at row (bit terms.now a) (bit terms.now b) K) (term_width terms.now a) budget) }
        ensures some { 1 ≤ term_width terms.now a }
        ensures keeps { Keeps dds.old dds.new }
    {
        let top = terms.width(a) - 1;
        let bits = self.pair(alloc, terms, dds, row, a, b, first, budget)?;
        Ok(single(alloc, bits[top as usize])?)
    }

    /// Whether the carry into the top bit of two terms of one width differs from that out of it.
    fn overflow(
        &self,
        alloc: Global,
        terms: &Terms,
        dds: &mut Diagrams,
        a: Term,
        b: Term,
        first: Dd,
        budget: u32,
    ) -> Result<Vec<Dd>, RowFault>
        requires ready { AreReady terms.now dds.old self.now a b }
        requires first { IsDd dds.old first }
        ensures made { (c : ℕ) → StandsFor dds.old first (bit terms.now c 0)
            → MatchResult result (λ v. AreFor dds.new 1 (bit_made terms.now (Op.Ovf a b c)) v.items)
            (IsRefusedAt (row terms.now (Op.Ovf a b c)) (term_width terms.now a) budget) }
        ensures keeps { Keeps dds.old dds.new }
    {
        let top = terms.width(a) - 1;
        let carries = self.pair(alloc, terms, dds, Row::Carry, a, b, first, budget)?;
        let (into, out) = (carry_into(first, &carries, top), carries[top as usize]);
        match difference(dds, alloc, into, out, budget) {
            Ok(bit) => Ok(single(alloc, bit)?),
            Err(fault) => Err(RowFault::at(top, fault)),
        }
    }

    /// The bits of an op, whose operands' bits were made, from the lowest.
    ///
    /// # Errors
    ///
    /// - `Over`: an operation of the op at this bit is over the budget.
    /// - `NoMemory`: memory ran out.
    pub(crate) fn op_bits(
        &self,
        alloc: Global,
        terms: &Terms,
        dds: &mut Diagrams,
        op: Op,
        budget: u32,
    ) -> Result<Vec<Dd>, RowFault>
        requires fits { Fits terms.now op }
        requires made { AreMade self.now (operands op) }
        requires of { IsOf terms.now dds.old self.now }
        ensures made { MatchResult result
            (λ v. AreFor dds.new (width_over terms.now op) (bit_made terms.now op) v.items)
            (IsRefusedAt (row terms.now op) (row_bits terms.now op) budget) }
        ensures keeps { Keeps dds.old dds.new }
    {
        let never = dds.constant(false);
        let always = dds.constant(true);
        match op {
            Op::Con(number, width) => Ok(constants(dds, alloc, number, width)?),
            Op::Var(word, width) => Ok(variables(dds, alloc, word, width)?),
            Op::Not(a) => self.pair(alloc, terms, dds, Row::Not, a, a, never, budget),
            Op::And(a, b) => self.pair(alloc, terms, dds, Row::And, a, b, never, budget),
            Op::Or(a, b) => self.pair(alloc, terms, dds, Row::Or, a, b, never, budget),
            Op::Xor(a, b) => self.pair(alloc, terms, dds, Row::Xor, a, b, never, budget),
            Op::Sum(a, b, c) => {
                let into = self.bit(terms, c);
                self.pair(alloc, terms, dds, Row::Sum, a, b, into, budget)
            }
            Op::Cout(a, b, c) => {
                let into = self.bit(terms, c);
                self.top(alloc, terms, dds, Row::Carry, a, b, into, budget)
            }
            Op::Ovf(a, b, c) => {
                let into = self.bit(terms, c);
                self.overflow(alloc, terms, dds, a, b, into, budget)
            }
            Op::Eq(a, b) => self.top(alloc, terms, dds, Row::Equal, a, b, always, budget),
            Op::Lt(a, b) => self.top(alloc, terms, dds, Row::Less, a, b, never, budget),
            Op::Ite(c, a, b) => {
                let chosen = self.bit(terms, c);
                self.pair(alloc, terms, dds, Row::Choice, a, b, chosen, budget)
            }
            Op::Part(a, low, width) => {
                let bits = self.bits_of(terms, a);
                Ok(part(alloc, bits, low, width)?)
            }
            Op::Join(high, low) => {
                let above = self.bits_of(terms, high);
                let below = self.bits_of(terms, low);
                Ok(joined(alloc, below, above)?)
            }
            Op::Tab(index) => {
                let chosen = self.bits_of(terms, index);
                entry(dds, alloc, terms.map(), chosen, budget)
            }
        }
    }
}
