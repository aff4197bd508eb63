// Which starts take a path, as a Boolean function.
ghost use Rattle.std.specs.Prelude.{◌≡◌, ◌↔◌, ◌⊎◌, ◌<◌, ℕ, true, false, None, IfOk, IfErr, IfSome, OnOk, cond, length};
ghost use Rattle.std.specs.Prelude.{slice_index};
ghost use Rattle.mw_term.specs.Assigned.{Given};
ghost use Rattle.mw_term.specs.Cofactors.{Agree, HasAtMostCofactors, HasMoreCofactors};
ghost use Rattle.mw_term.specs.Functions.{Function, always, made, never};
ghost use Rattle.mw_term.specs.PathWords.{path_zero};
ghost use Rattle.mw_term.specs.Rows.{bit};
ghost use Rattle.mw_term.specs.Table.{IsMap, Table};
ghost use Rattle.mw_symmem.specs.Memory.{IsOfWidth};
ghost use Rattle.mw_dd.specs.Nodes.{IsDd, function_of};
ghost use Rattle.mw_dd.specs.Diagrams.{IsFirst};
ghost use Rattle.mw_blast.specs.Bits.{StandsFor};
ghost use Rattle.mw_blast.specs.declared.fault.BlastFault.TheVariants as faults;
ghost use Rattle.mw_blast.specs.Shared.{IsWrittenCause, IsWrittenSplitCause};
ghost use Rattle.mw_blast.specs.Splits.{IsSplit};
ghost use Rattle.mw_path.specs.Paths.{ArePaths, AreTwo, HaveGrown};

use mw_base::NoMemory;
use mw_blast::{BlastFault, Shared, Split};
use mw_dd::{Dd, DdFault, Diagrams};
use mw_term::{Assignment, Places, ShortcutBook, Term, Written, terminal_cases_have_none};
use std::alloc::Global;

/// Which values of a bit are feasible.
#[derive(Clone, Copy)]
pub struct Feasible {
    /// Whether 0 is.
    pub zero: bool,
    /// Whether 1 is.
    pub one: bool,
}

/// The function of the starts that take the path so far, and the functions of bits.
#[derive(Drop)]
pub struct Paths {
    dds: Diagrams,
    shared: Shared,
    pub places: Places,
    pub path: Dd,
}

/// The one bit of a term of one bit.
fn only(bits: &[Dd]) -> Dd
    requires { 0 < length bits.now }
    ensures { result ≡ slice_index bits.now 0 }
{
    bits[0]
}

impl Paths {
    /// The path on which no bit is decided: each start takes it. The map is that of the board.
    pub fn new(alloc: Global, map: &[u16]) -> Result<Paths, NoMemory>
        requires { IsMap map.now }
        ensures paths { IfOk result (λ p. (w : Table) → w.map ≡ map.now
            → ArePaths w p.dds p.shared p.places p.path) }
        ensures always { IfOk result (λ p. Agree (function_of p.dds p.path) always) }
    {
        let dds = Diagrams::new(alloc)?;
        let path = dds.constant(true);
        let shared = Shared::new(alloc, map)?;
        Ok(Paths {
            dds,
            shared,
            places: Places::new(alloc),
            path,
        })
    }

    /// The path in two by a bit that is constant, where it is.
    fn fixed(&self, bit: Dd) -> Option<Split>
        requires path { IsDd self.now.dds self.now.path }
        requires bit { IsDd self.now.dds bit }
        ensures { (p b : Function) (nodes : ℕ) → StandsFor self.now.dds self.now.path p → StandsFor self.now.dds bit b
            → IfSome result (IsSplit self.now.dds p b nodes) }
    {
        // A law for the proof: an operation with a constant bit has no joint cofactor.
        terminal_cases_have_none();
        let never = self.dds.constant(false);
        if bit == never {
            return Some(Split {
                zero: self.path,
                one: never,
            });
        }
        if bit == self.dds.constant(true) {
            return Some(Split {
                zero: never,
                one: self.path,
            });
        }
        None
    }

    /// The path in two: where a term of one bit is 0, and where it is 1. A constant bit is no operation.
    pub fn split(
        &mut self,
        alloc: Global,
        written: &Written,
        term: Term,
        nodes: u32,
        book: &ShortcutBook,
    ) -> Result<Split, BlastFault>
        requires wide { IsOfWidth written.now 1 term }
        requires paths { ArePaths written.now self.old.dds self.old.shared self.old.places self.old.path }
        ensures split { IfOk result
            (IsSplit self.new.dds (function_of self.old.dds self.old.path) (bit written.now term 0) nodes) }
        ensures over { IfErr result
            (IsWrittenSplitCause written.now self.new.places (function_of self.old.dds self.old.path) term nodes) }
        ensures path { self.new.path ≡ self.old.path }
        ensures paths { ArePaths written.now self.new.dds self.new.shared self.new.places self.new.path }
        ensures grown { HaveGrown self.old self.new }
    {
        let bits = self.shared.bits(
            alloc,
            written,
            &mut self.places,
            &mut self.dds,
            term,
            nodes,
            book,
        )?;
        let bit = only(&bits);
        if let Some(split) = self.fixed(bit) {
            return Ok(split);
        }
        self.shared.decide(
            alloc,
            written,
            &mut self.places,
            &mut self.dds,
            self.path,
            term,
            nodes,
            book,
        )
    }

    /// The first assignment on the path under which a term of one bit is 0, if there is one.
    pub fn failing(
        &mut self,
        alloc: Global,
        written: &Written,
        term: Term,
        nodes: u32,
        book: &ShortcutBook,
    ) -> Result<Option<Assignment>, BlastFault>
        requires wide { IsOfWidth written.now 1 term }
        requires paths { ArePaths written.now self.old.dds self.old.shared self.old.places self.old.path }
        ensures first { IfOk result (λ o. IfSome o (λ numbers.
            IsFirst (made (path_zero (function_of self.old.dds self.old.path) (bit written.now term 0))) numbers)) }
        ensures none { IfOk result (λ o. o ≡ None
            → Agree (made (path_zero (function_of self.old.dds self.old.path) (bit written.now term 0))) never) }
        ensures within { OnOk result
            (HasAtMostCofactors (path_zero (function_of self.old.dds self.old.path) (bit written.now term 0)) nodes) }
        ensures over { IfErr result (λ e. (named j : ℕ) → e ≡ faults.Over named j
            → IsWrittenCause written.now self.new.places nodes e
            ⊎ ((named ≡ term) × (j ≡ 0) × HasMoreCofactors
            (path_zero (function_of self.old.dds self.old.path) (bit written.now term 0)) nodes)) }
        ensures path { self.new.path ≡ self.old.path }
        ensures paths { ArePaths written.now self.new.dds self.new.shared self.new.places self.new.path }
        ensures grown { HaveGrown self.old self.new }
    {
        let bits = self.shared.bits(
            alloc,
            written,
            &mut self.places,
            &mut self.dds,
            term,
            nodes,
            book,
        )?;
        let never = self.dds.constant(false);
        match self.dds.ite(alloc, only(&bits), never, self.path, nodes) {
            Ok(fails) => Ok(self.dds.some_assignment(alloc, fails)?),
            Err(DdFault::OverBudget) => Err(BlastFault::Over(term, 0)),
            Err(DdFault::NoMemory) => Err(BlastFault::NoMemory),
        }
    }

    /// The first assignment on the path, if there is one.
    pub fn first_assignment(&self, alloc: Global) -> Result<Option<Assignment>, NoMemory>
        requires { IsDd self.now.dds self.now.path }
        ensures first { IfOk result (λ o. IfSome o (IsFirst (function_of self.now.dds self.now.path))) }
        ensures none { IfOk result (λ o. o ≡ None → Agree (function_of self.now.dds self.now.path) never) }
    {
        self.dds.some_assignment(alloc, self.path)
    }

    /// Which values are feasible of the bit that splits the path.
    pub fn feasible(&self, split: &Split) -> Feasible
        requires { AreTwo self.now.dds split.now }
        ensures zero { (result.zero ≡ false) ↔ Agree (function_of self.now.dds split.now.zero) never }
        ensures one { (result.one ≡ false) ↔ Agree (function_of self.now.dds split.now.one) never }
        ensures zero_somewhere { result.zero ≡ true
            → (given : Given) × (function_of self.now.dds split.now.zero given ≡ true) }
        ensures one_somewhere { result.one ≡ true
            → (given : Given) × (function_of self.now.dds split.now.one given ≡ true) }
    {
        Feasible {
            zero: !self.dds.is_false(split.zero),
            one: !self.dds.is_false(split.one),
        }
    }

    /// Another path over what was made, and the places of what was written on it.
    pub fn over(self, places: Places, path: Dd) -> Paths
        ensures dds { result.dds ≡ self.dds }
        ensures shared { result.shared ≡ self.shared }
        ensures places { result.places ≡ places }
        ensures path { result.path ≡ path }
    {
        Paths {
            dds: self.dds,
            shared: self.shared,
            places,
            path,
        }
    }

    /// Goes on where the bit that split the path has this value.
    pub fn go(&mut self, split: &Split, value: bool)
        ensures dds { self.new.dds ≡ self.old.dds }
        ensures shared { self.new.shared ≡ self.old.shared }
        ensures places { self.new.places ≡ self.old.places }
        ensures path { self.new.path ≡ cond value split.now.one split.now.zero }
    {
        self.path = if value { split.one } else { split.zero };
    }
}
