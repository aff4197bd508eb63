// The terms that a run writes.
ghost use Rattle.std.specs.Prelude.{◌≡◌, ℕ, ◌++◌, ◌∷◌, ◌<◌, ◌^◌, ◌↔◌, [], length, slice_get, IsTrue, IfOk, OnOk, OnErr};
ghost use Rattle.mw_term.specs.Assigned.{given_by};
ghost use Rattle.mw_term.specs.Table.{table_of, term_width, widths_of, width_over, AreWidths, Extends, Fits, IsMap};
ghost use Rattle.mw_term.specs.Table.{IsTable, IsWidth};
ghost use Rattle.mw_term.specs.Values.{term_value, IsTermOf, Keeps};

use crate::assignment::Assignment;
use crate::earlier::{Earlier, Valued};
use crate::op::{Op, Term};
use mw_base::NoMemory;
use std::alloc::Global;
use std::marker::Model;

/// The terms that a run writes, one after another, seen as the list of their ops, and the map of the board. It only
/// grows, and nothing in it is shared: an op that is written twice is there twice.
#[derive(Drop)]
pub struct Written {
    ops: Vec<Op>,
    widths: Vec<u8>,
    map: Vec<u16>,
}

impl Model for Written {
    ghost use Rattle.mw_term.specs.Table.{Table, table_of, IsTableWithWidths};

    ghost Value = { Table };

    ghost view = { λ t. table_of t.ops.items t.map.items };

    ghost invariant = { λ t. IsTableWithWidths t.ops.items t.widths.items t.map.items };
}

impl Written {
    /// No terms, with a map. The map is empty, or has an entry of 12 bits for each value of an index of
    /// 1 to 8 bits.
    ///
    /// # Errors
    ///
    /// Memory ran out.
    pub fn new(alloc: Global, map: &[u16]) -> Result<Written, NoMemory>
        requires { IsMap map.now }
        ensures exact { IfOk result (λ terms. terms ≡ table_of [] map.now) }
        ensures table { IfOk result (λ terms. IsTable terms) }
    {
        Ok(Written {
            ops: Vec::new(alloc),
            widths: Vec::new(alloc),
            map: Vec::from_slice(alloc, map)?,
        })
    }

    /// The same terms once more. What is written into one of the two isn't in the other.
    ///
    /// # Errors
    ///
    /// Memory ran out.
    pub fn copy(&self, alloc: Global) -> Result<Written, NoMemory>
        ensures { IfOk result (λ copy. copy ≡ self.now) }
    {
        Ok(Written {
            ops: Vec::from_slice(alloc, &self.ops)?,
            widths: Vec::from_slice(alloc, &self.widths)?,
            map: Vec::from_slice(alloc, &self.map)?,
        })
    }

    /// All terms, as those before the next one.
    fn earlier(&self) -> Earlier<'_>
        ensures map { result.map.now ≡ self.now.map }
        ensures widths { result.widths.now ≡ widths_of self.now.ops }
        ensures range { AreWidths (widths_of self.now.ops) }
    {
        Earlier {
            map: &self.map,
            widths: &self.widths,
        }
    }

    /// Whether an op fits the table: its operands are terms of it, as wide as the op asks for, it has 1 to 32 bits, a
    /// constant is no wider than that, a part lies within its operand, and an index has a value for each entry of the
    /// map and no more.
    pub fn fits(&self, op: &Op) -> bool
        ensures { IsTrue result ↔ Fits self.now op.now }
    {
        self.earlier().fits(*op)
    }

    /// How many bits an op has over the terms of the table.
    pub(crate) fn width_over(&self, op: &Op) -> u8
        requires { Fits self.now op.now }
        ensures { result ≡ width_over self.now op.now }
    {
        self.earlier().width(*op)
    }

    /// A term with an op's width and, under every assignment, its value. Earlier terms keep their ops. The op fits
    /// the table: its operands are terms of it, as wide as the op asks for.
    ///
    /// # Errors
    ///
    /// Memory ran out, or 2^32 terms are there, which is all that there can be. What was written is as it was.
    pub fn write(&mut self, _alloc: Global, op: Op) -> Result<Term, NoMemory>
        requires { Fits self.old op }
        ensures made { IfOk result (λ term. IsTermOf self.old self.new op term) }
        ensures place { IfOk result (λ term. term ≡ length self.old.ops) }
        ensures appends { OnOk result (self.new ≡ table_of (self.old.ops ++ op ∷ []) self.old.map) }
        ensures extends { Extends self.old self.new }
        ensures keeps { Keeps self.old self.new }
        ensures table { IsTable self.new }
        ensures err { OnErr result (self.new ≡ self.old) }
    {
        let Ok(position) = u32::try_from(self.ops.len()) else {
            return Err(NoMemory);
        };
        let width = self.width_over(&op);
        self.ops.push(op)?;
        match self.widths.push(width) {
            Ok(()) => Ok(Term::at(position)),
            Err(_) => {
                self.ops.pop();
                Err(NoMemory)
            }
        }
    }

    /// The op of a term, which is one of this table.
    pub fn op(&self, term: Term) -> Op
        requires { term < length self.now.ops }
        ensures exact { slice_get self.now.ops term ≡ Some result }
        ensures fits { Fits self.now result }
        ensures table { IsTable self.now }
    {
        self.ops[term.position()]
    }

    /// How many bits a term has, from 1 to 32. It is one of this table.
    pub fn width(&self, term: Term) -> u8
        requires { term < length self.now.ops }
        ensures exact { result ≡ term_width self.now term }
        ensures range { IsWidth result }
    {
        self.widths[term.position()]
    }

    /// The map that the table was made with.
    pub fn map(&self) -> &[u16]
        ensures exact { result.now ≡ self.now.map }
        ensures table { IsTable self.now }
    {
        &self.map
    }

    /// The value of a term under an assignment, which has no more bits than the term. The term is one of this table.
    ///
    /// # Errors
    ///
    /// Memory ran out.
    pub fn value(&self, alloc: Global, term: Term, given: &Assignment) -> Result<u32, NoMemory>
        requires { term < length self.now.ops }
        ensures exact { IfOk result (λ value. value ≡ term_value self.now (given_by given.now) term) }
        ensures below { IfOk result (λ value. value < 2 ^ term_width self.now term) }
    {
        let mut values = Vec::new(alloc);
        for place in 0..term.position() + 1 {
            let valued = Valued {
                earlier: Earlier {
                    map: &self.map,
                    widths: &self.widths[..place],
                },
                values: &values,
                given,
            };
            let value = valued.value(self.ops[place]);
            values.push(value)?;
        }
        Ok(values[term.position()])
    }
}
