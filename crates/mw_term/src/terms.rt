// The table of terms.
ghost use Rattle.std.specs.Prelude.{◌≡◌, ℕ, ◌++◌, ◌∷◌, ◌<◌, ◌^◌, ◌↔◌, [], length, slice_get, Some};
ghost use Rattle.std.specs.Prelude.{true, false, IsTrue, IfOk, OnErr};
ghost use Rattle.mw_term.specs.Assigned.{given_by};
ghost use Rattle.mw_term.specs.Hints.{operand_at, inner_at, IsByHint, IsFirstHint};
ghost use Rattle.mw_term.specs.Table.{table_of, term_width, Extends, Fits, HasOpsOnce, IsMap, IsTable, IsWidth};
ghost use Rattle.mw_term.specs.Values.{term_value, IsTermOf, Keeps};
ghost use Rattle.mw_term.specs.declared.hint.Hint as hints;

use crate::assignment::Assignment;
use crate::book::{Shortcut, ShortcutBook};
use crate::hint::Hint;
use crate::op::{Op, Term};
use crate::written::Written;
use indexmap::IndexSet;
use mw_base::NoMemory;
use std::alloc::Global;
use std::marker::Model;

/// A table in which no op stands twice, seen as the list of the ops of its terms, and the map of the board. It only
/// grows.
#[derive(Drop)]
pub struct Terms {
    written: Written,
    ops: IndexSet<Op>,
}

impl Model for Terms {
    ghost use Rattle.mw_term.specs.Table.{Table, IsIndexed};

    ghost Value = { Table };

    ghost view = { λ t. t.written };

    ghost invariant = { λ t. IsIndexed t.ops.keys t.written };
}

/// Where an op stands in an index, to which it is added where it isn't there yet, and whether it is new.
fn add(ops: &mut IndexSet<Op>, op: &Op) -> Result<(usize, bool), NoMemory>
    ensures there { IfOk result (λ r. slice_get ops.new.keys r.0 ≡ Some op.now) }
    ensures old { IfOk result (λ r. r.1 ≡ false → ops.new.keys ≡ ops.old.keys) }
    ensures new { IfOk result (λ r. r.1 ≡ true
        → (ops.new.keys ≡ ops.old.keys ++ op.now ∷ []) × (r.0 ≡ length ops.old.keys)) }
    ensures absent { IfOk result (λ r. r.1 ≡ true → (place : ℕ) → ¬ (slice_get ops.old.keys place ≡ Some op.now)) }
    ensures err { OnErr result (ops.new.keys ≡ ops.old.keys) }
{
    Ok(ops.insert_full(*op)?)
}

impl Terms {
    /// A table without terms, with a map. The map is empty, or has an entry of 12 bits for each value of an index of
    /// 1 to 8 bits.
    ///
    /// # Errors
    ///
    /// Memory ran out.
    pub fn new(alloc: Global, map: &[u16]) -> Result<Terms, NoMemory>
        requires { IsMap map.now }
        ensures exact { IfOk result (λ terms. terms ≡ table_of [] map.now) }
        ensures table { IfOk result (λ terms. IsTable terms) }
    {
        Ok(Terms {
            written: Written::new(alloc, map)?,
            ops: IndexSet::new(alloc),
        })
    }

    /// Whether an op fits the table: its operands are terms of it, as wide as the op asks for, it has 1 to 32 bits, a
    /// constant is no wider than that, a part lies within its operand, and an index has a value for each entry of the
    /// map and no more.
    pub fn fits(&self, op: &Op) -> bool
        ensures { IsTrue result ↔ Fits self.now op.now }
    {
        self.written.fits(op)
    }

    /// The term with an op, which is made where there is none yet.
    fn intern(&mut self, alloc: Global, op: &Op) -> Result<Term, NoMemory>
        requires { Fits self.old op.now }
        ensures has { IfOk result (λ term. slice_get self.new.ops term ≡ Some op.now) }
        ensures made { IfOk result (λ term. IsTermOf self.old self.new op.now term) }
        ensures extends { Extends self.old self.new }
        ensures keeps { Keeps self.old self.new }
        ensures table { IsTable self.new }
        ensures once { HasOpsOnce self.new }
        ensures err { OnErr result (self.new ≡ self.old) }
    {
        let (position, is_new) = add(&mut self.ops, op)?;
        if !is_new {
            let Ok(position) = u32::try_from(position) else {
                return Err(NoMemory);
            };
            return Ok(Term::at(position));
        }
        match self.written.write(alloc, *op) {
            Ok(term) => Ok(term),
            Err(fault) => {
                self.ops.truncate(position);
                Err(fault)
            }
        }
    }

    /// A term with an op's width and, under every assignment, its value: where a shortcut of the book hints something
    /// of it, the constant or the operand that the first such hint names, and else the term with this op. No term is
    /// made of an op that the table has. Earlier terms keep their ops. The op fits the table: its operands are terms of
    /// it, as wide as the op asks for.
    ///
    /// # Errors
    ///
    /// Memory ran out, or 2^32 terms are there, which is all that there can be. The table is as it was.
    pub fn build(&mut self, alloc: Global, op: Op, book: &ShortcutBook) -> Result<Term, NoMemory>
        requires { Fits self.old op }
        ensures made { IfOk result (λ term. IsTermOf self.old self.new op term) }
        ensures hinted { IfOk result (λ term. (hint : hints.Hint) × (seen : _) × (seen.now ≡ self.old)
            × IsFirstHint (λ rule said. Shortcut.post rule.hint seen op said) book.now.rules.items hint
            × IsByHint self.old self.new op term hint) }
        ensures extends { Extends self.old self.new }
        ensures keeps { Keeps self.old self.new }
        ensures table { IsTable self.new }
        ensures once { HasOpsOnce self.new }
        ensures err { OnErr result (self.new ≡ self.old) }
    {
        match book.ask(self, &op) {
            Hint::Nothing => {
                let term = self.intern(alloc, &op)?;
                Ok(term)
            }
            Hint::Constant(number) => {
                let width = self.written.width_over(&op);
                let term = self.intern(alloc, &Op::Con(number, width))?;
                Ok(term)
            }
            Hint::Operand(place) => match op.operand(place) {
                Some(term) => Ok(term),
                None => unreachable!(),
            },
            Hint::Inner(place, inner) => match self.inner(&op, place, inner) {
                Some(term) => Ok(term),
                None => unreachable!(),
            },
        }
    }

    /// Of the operand of an op at the first place the operand at the second, if there is one.
    fn inner(&self, op: &Op, place: u8, inner: u8) -> Option<Term>
        requires { Fits self.now op.now }
        ensures { result ≡ inner_at self.now (operand_at op.now place) inner }
    {
        let operand = op.operand(place)?;
        self.op(operand).operand(inner)
    }

    /// The op of a term, which is one of this table.
    pub fn op(&self, term: Term) -> Op
        requires { term < length self.now.ops }
        ensures exact { slice_get self.now.ops term ≡ Some result }
        ensures fits { Fits self.now result }
        ensures table { IsTable self.now }
    {
        self.written.op(term)
    }

    /// How many bits a term has, from 1 to 32. It is one of this table.
    pub fn width(&self, term: Term) -> u8
        requires { term < length self.now.ops }
        ensures exact { result ≡ term_width self.now term }
        ensures range { IsWidth result }
    {
        self.written.width(term)
    }

    /// The map that the table was made with.
    pub fn map(&self) -> &[u16]
        ensures exact { result.now ≡ self.now.map }
        ensures table { IsTable self.now }
    {
        self.written.map()
    }

    /// The value of a term under an assignment, which has no more bits than the term. The term is one of this table.
    ///
    /// # Errors
    ///
    /// Memory ran out.
    pub fn value(&self, alloc: Global, term: Term, given: &Assignment) -> Result<u32, NoMemory>
        requires { term < length self.now.ops }
        ensures exact { IfOk result (λ value. value ≡ term_value self.now (given_by given.now) term) }
        ensures below { IfOk result (λ value. value < 2 ^ term_width self.now term) }
    {
        self.written.value(alloc, term, given)
    }
}
