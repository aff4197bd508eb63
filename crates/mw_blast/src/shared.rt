// A table of terms with the bits of its terms, which several lists of written terms share.
ghost use Rattle.std.specs.Prelude.{◌≡◌, ◌<◌, ℕ, List, [], length, slice_get, Some, IfOk, IfErr, OnOk};
ghost use Rattle.mw_term.specs.Rows.{bit};
ghost use Rattle.mw_term.specs.Standing.{IsFirstAt, StandsIn};
ghost use Rattle.mw_term.specs.Table.{Table, table_of, term_width, IsMap, IsTable};
ghost use Rattle.mw_dd.specs.Nodes as nodes;
ghost use Rattle.mw_dd.specs.Nodes.{IsDd, function_of};
ghost use Rattle.mw_dd.specs.Diagrams.{Keeps};
ghost use Rattle.mw_blast.specs.Bits.{AreBits};
ghost use Rattle.mw_blast.specs.Causes.{IsCause};
ghost use Rattle.mw_blast.specs.Kept.{IsOf};
ghost use Rattle.mw_blast.specs.Shared.{GrowsInTable, IsReachedFrom, IsShared, IsWrittenCause, IsWrittenSplitCause};
ghost use Rattle.mw_blast.specs.Splits.{IsSplit};

use crate::blast::Blast;
use crate::fault::{BlastFault, RowFault};
use crate::split::{Split, divide};
use mw_base::NoMemory;
use mw_dd::{Dd, Diagrams};
use mw_term::{Places, ShortcutBook, Term, Terms, Written};
use std::alloc::Global;

/// A table of terms in which no op stands twice, and the bits of its terms that were made. Several lists of written
/// terms may stand in it, each with its own places.
#[derive(Drop)]
pub struct Shared {
    pub(crate) terms: Terms,
    pub(crate) blast: Blast,
}

/// Gives each written term a place.
fn place(
    alloc: Global,
    written: &Written,
    terms: &mut Terms,
    places: &mut Places,
    book: &ShortcutBook,
) -> Result<(), NoMemory>
    requires { StandsIn written.now terms.old places.old }
    ensures stands { StandsIn written.now terms.new places.new }
    ensures all { OnOk result (length places.new ≡ length written.now.ops) }
    ensures more { GrowsInTable terms.old terms.new places.old places.new }
    ensures written { IsTable written.now }
{
    places.place_all(alloc, written, terms, book)
}

/// The least written term that stands at a term of the table, at which one does.
fn first_of(places: &Places, place: Term) -> Term
    requires { (term : ℕ) × (slice_get places.now term ≡ Some place) }
    ensures { IsFirstAt places.now place result }
{
    match places.first_at(place) {
        Some(first) => first,
        None => unreachable!(),
    }
}

/// A fault of a term of the table, told of the least written term that stands there. The named term is reached from
/// one at which a written term stands.
fn told(written: &Written, places: &Places, fault: BlastFault) -> BlastFault
    requires written { IsTable written.now }
    requires cause { (t : Table) × StandsIn written.now t places.now × (term : ℕ) × (place : ℕ)
        × (slice_get places.now term ≡ Some place) × (budget : ℕ) × IsCause t place budget fault }
    ensures over { (t : Table) (term place budget : ℕ) → StandsIn written.now t places.now
        → slice_get places.now term ≡ Some place → IsCause t place budget fault
        → IsWrittenCause written.now places.now budget result }
    ensures reached { (t : Table) (term place budget : ℕ) → slice_get places.now term ≡ Some place
        → IsCause t place budget fault → IsReachedFrom t places.now term result }
{
    match fault {
        BlastFault::Over(named, bit) => BlastFault::Over(first_of(places, named), bit),
        BlastFault::NoMemory => BlastFault::NoMemory,
    }
}

impl Shared {
    /// A table without terms and without bits, with a map. The map is empty, or has an entry of 12 bits for each value
    /// of an index of 1 to 8 bits. It is right for all diagrams.
    ///
    /// # Errors
    ///
    /// Memory ran out.
    pub fn new(alloc: Global, map: &[u16]) -> Result<Shared, NoMemory>
        requires { IsMap map.now }
        ensures map { IfOk result (λ s. s.terms ≡ table_of [] map.now) }
        ensures of { IfOk result (λ s. (dds : List nodes.Node) → IsOf s.terms dds s.blast) }
    {
        Ok(Shared {
            terms: Terms::new(alloc, map)?,
            blast: Blast::new(alloc),
        })
    }

    /// The map that the table was made with.
    pub fn map(&self) -> &[u16]
        ensures { result.now ≡ self.now.terms.map }
    {
        self.terms.map()
    }

    /// The functions of a written term's bits, from the lowest. What was written since is placed first, with this book of
    /// shortcuts; then the bits of the term at which it stands are made, within the budget, where they weren't made. What
    /// was placed and made is kept, also after a refusal. The written term is one of the list, and the places are those
    /// of this list in this table. Earlier functions of the diagrams stay as they are.
    ///
    /// # Errors
    ///
    /// - `Over`: one of the operations of the written term that is named, at the bit that is named, has more joint
    ///   cofactors than the budget. No earlier written term stands where it does.
    /// - `NoMemory`: memory ran out.
    pub fn bits(
        &mut self,
        alloc: Global,
        written: &Written,
        places: &mut Places,
        dds: &mut Diagrams,
        term: Term,
        budget: u32,
        book: &ShortcutBook,
    ) -> Result<Vec<Dd>, BlastFault>
        requires there { term < length written.now.ops }
        requires share { IsShared written.now self.old places.old dds.old }
        ensures bits { IfOk result (λ v. AreBits written.now dds.new term v.items) }
        ensures placed { OnOk result ((place : ℕ) × (slice_get places.new term ≡ Some place)) }
        ensures over { IfErr result (IsWrittenCause written.now places.new budget) }
        ensures reached { IfErr result (IsReachedFrom self.new.terms places.new term) }
        ensures share { IsShared written.now self.new places.new dds.new }
        ensures more { GrowsInTable self.old.terms self.new.terms places.old places.new }
        ensures keeps { Keeps dds.old dds.new }
    {
        place(alloc, written, &mut self.terms, places, book)?;
        let place = places.place_of(term);
        match self.blast.bits(alloc, &self.terms, dds, place, budget) {
            Ok(bits) => Ok(bits),
            Err(fault) => Err(told(written, places, fault)),
        }
    }

    /// A path in two: where a written term of one bit is 0, and where it is 1. It is placed, and its bit made, as in
    /// `bits`. What was placed and made is kept, and earlier functions of the diagrams stay as they are.
    ///
    /// # Errors
    ///
    /// - `Over`: as in `bits`; or the term is named, with bit 0, since one of the two path operations has more joint
    ///   cofactors than the budget. Where one has, there is no other answer but these.
    /// - `NoMemory`: memory ran out.
    pub fn decide(
        &mut self,
        alloc: Global,
        written: &Written,
        places: &mut Places,
        dds: &mut Diagrams,
        path: Dd,
        term: Term,
        budget: u32,
        book: &ShortcutBook,
    ) -> Result<Split, BlastFault>
        requires there { term < length written.now.ops }
        requires one { term_width written.now term ≡ 1 }
        requires path { IsDd dds.old path }
        requires share { IsShared written.now self.old places.old dds.old }
        ensures split { IfOk result (IsSplit dds.new (function_of dds.old path) (bit written.now term 0) budget) }
        ensures over { IfErr result
            (IsWrittenSplitCause written.now places.new (function_of dds.old path) term budget) }
        ensures reached { IfErr result (IsReachedFrom self.new.terms places.new term) }
        ensures share { IsShared written.now self.new places.new dds.new }
        ensures more { GrowsInTable self.old.terms self.new.terms places.old places.new }
        ensures keeps { Keeps dds.old dds.new }
    {
        let bits = self.bits(alloc, written, places, dds, term, budget, book)?;
        match divide(dds, alloc, path, bits[0], budget) {
            Ok(split) => Ok(split),
            Err(fault) => Err(RowFault::at(0, fault).of(term)),
        }
    }
}
