// Where written terms stand.
ghost use Rattle.std.specs.Prelude.{◌≡◌, ◌≢◌, ℕ, ◌+◌, ◌<◌, ◌↔◌, [], length, take, slice_get, slice_index, Some};
ghost use Rattle.std.specs.Prelude.{true, false, IsTrue, IsNone, IfOk, IfSome, OnOk};
ghost use Rattle.mw_term.specs.Operands.{operands, placed, AreBefore};
ghost use Rattle.mw_term.specs.Standing.{IsFirstAt, StandsIn};
ghost use Rattle.mw_term.specs.Table.{Extends, IsTable};
ghost use Rattle.mw_term.specs.Values.{Keeps};

use crate::book::ShortcutBook;
use crate::op::{Op, Term};
use crate::terms::Terms;
use crate::written::Written;
use mw_base::NoMemory;
use std::alloc::Global;
use std::marker::Model;

/// For each of the first written terms the term of a table at which it stands, seen as the list of these.
#[derive(Drop)]
pub struct Places {
    places: Vec<Term>,
}

impl Model for Places {
    ghost use Rattle.std.specs.Prelude.{ℕ, ◌^◌, ◌≤◌, List, length};

    ghost Value = { List ℕ };

    ghost view = { λ p. p.places.items };

    ghost invariant = { λ p. length p.places.items ≤ 2 ^ 32 };
}

/// Whether a term was written.
fn is_written(written: &Written, term: Term) -> bool
    ensures { IsTrue result ↔ (term < length written.now.ops) }
{
    written.fits(&Op::Not(term))
}

/// What was written and what it stands in are tables.
fn are_tables(written: &Written, terms: &Terms)
    ensures written { IsTable written.now }
    ensures terms { IsTable terms.now }
{
    written.map();
    terms.map();
}

impl Places {
    /// No written term has a place yet.
    pub fn new(alloc: Global) -> Places
        ensures { result ≡ [] }
    {
        Places {
            places: Vec::new(alloc),
        }
    }

    /// The same places once more.
    ///
    /// # Errors
    ///
    /// Memory ran out.
    pub fn copy(&self, alloc: Global) -> Result<Places, NoMemory>
        ensures { IfOk result (λ copy. copy ≡ self.now) }
    {
        Ok(Places {
            places: Vec::from_slice(alloc, &self.places)?,
        })
    }

    /// The term of the table at which a written term stands, which has a place.
    pub fn place_of(&self, term: Term) -> Term
        requires { term < length self.now }
        ensures { slice_get self.now term ≡ Some result }
    {
        self.places[term.position()]
    }

    /// The least written term that stands at a term of the table, if one does.
    pub fn first_at(&self, place: Term) -> Option<Term>
        ensures first { IfSome result (λ first. IsFirstAt self.now place first) }
        ensures none { IsNone result → (term : ℕ) → slice_get self.now term ≢ Some place }
    {
        for number in 0..self.places.len() {
            if self.places[number] == place {
                return Some(Term::at(number as u32));
            }
        }
        None
    }

    /// The place of an operand, which has one.
    fn at(&self, operand: Term) -> Term
        requires { operand < length self.now }
        ensures { result ≡ slice_index self.now operand }
    {
        self.place_of(operand)
    }

    /// An op with each of its operands at its place. They have places.
    #[tactic(auto, unfolding(crate::specs::Operands::operands, crate::specs::Operands::placed))]
    fn placed(&self, op: Op) -> Op
        requires { AreBefore (length self.now) (operands op) }
        ensures { result ≡ placed self.now op }
    {
        match op {
            Op::Con(..) | Op::Var(..) => op,
            Op::Not(a) => Op::Not(self.at(a)),
            Op::And(a, b) => Op::And(self.at(a), self.at(b)),
            Op::Or(a, b) => Op::Or(self.at(a), self.at(b)),
            Op::Xor(a, b) => Op::Xor(self.at(a), self.at(b)),
            Op::Sum(a, b, c) => Op::Sum(self.at(a), self.at(b), self.at(c)),
            Op::Cout(a, b, c) => Op::Cout(self.at(a), self.at(b), self.at(c)),
            Op::Ovf(a, b, c) => Op::Ovf(self.at(a), self.at(b), self.at(c)),
            Op::Eq(a, b) => Op::Eq(self.at(a), self.at(b)),
            Op::Lt(a, b) => Op::Lt(self.at(a), self.at(b)),
            Op::Ite(c, a, b) => Op::Ite(self.at(c), self.at(a), self.at(b)),
            Op::Part(a, low, width) => Op::Part(self.at(a), low, width),
            Op::Join(high, low) => Op::Join(self.at(high), self.at(low)),
            Op::Tab(index) => Op::Tab(self.at(index)),
        }
    }

    /// Places the first written term that has no place yet, if there is one: whether there was.
    fn place_next(
        &mut self,
        alloc: Global,
        written: &Written,
        terms: &mut Terms,
        book: &ShortcutBook,
    ) -> Result<bool, NoMemory>
        requires { StandsIn written.now terms.old self.old }
        ensures stands { StandsIn written.now terms.new self.new }
        ensures next { IfOk result (λ placed. placed ≡ true → length self.new ≡ length self.old + 1) }
        ensures all { IfOk result (λ placed. placed ≡ false → length self.new ≡ length written.now.ops) }
        ensures more { take (length self.old) self.new ≡ self.old }
        ensures extends { Extends terms.old terms.new }
        ensures keeps { Keeps terms.old terms.new }
        ensures written { IsTable written.now }
        ensures table { IsTable terms.new }
    {
        are_tables(written, terms);
        let Ok(position) = u32::try_from(self.places.len()) else {
            return Err(NoMemory);
        };
        let term = Term::at(position);
        if !is_written(written, term) {
            return Ok(false);
        }
        let op = self.placed(written.op(term));
        let place = terms.build(alloc, op, book)?;
        self.places.push(place)?;
        Ok(true)
    }

    /// Gives each written term a place that has none yet: a term of the table with its width and, under every
    /// assignment, its value. The table has the op of the least written term that stands at a term, with its operands
    /// at their places, unless that is a constant. Earlier places stay, and so do the terms of the table. What is
    /// placed already stands in the table.
    ///
    /// # Errors
    ///
    /// Memory ran out. What has a place then stands there.
    pub fn place_all(
        &mut self,
        alloc: Global,
        written: &Written,
        terms: &mut Terms,
        book: &ShortcutBook,
    ) -> Result<(), NoMemory>
        requires { StandsIn written.now terms.old self.old }
        ensures stands { StandsIn written.now terms.new self.new }
        ensures all { OnOk result (length self.new ≡ length written.now.ops) }
        ensures more { take (length self.old) self.new ≡ self.old }
        ensures extends { Extends terms.old terms.new }
        ensures keeps { Keeps terms.old terms.new }
        ensures written { IsTable written.now }
        ensures table { IsTable terms.new }
    {
        while self.place_next(alloc, written, terms, book)? {}
        Ok(())
    }
}
