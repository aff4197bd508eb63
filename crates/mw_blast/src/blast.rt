// The bits of terms, made when they are first asked for.
ghost use Rattle.std.specs.Prelude.{◌≡◌, ◌-◌, ◌<◌, ◌≤◌, ℕ, List, [], ◌∷◌, ◌++◌, true, not, length, find, slice_get};
ghost use Rattle.std.specs.Prelude.{slice_index, slice_set, Some, IfOk, IfErr, OnOk, OnErr};
ghost use Rattle.mw_term.specs.declared.op.Op as ops;
ghost use Rattle.mw_term.specs.Operands.{operands};
ghost use Rattle.mw_term.specs.Rows.{bit};
ghost use Rattle.mw_term.specs.Table.{Table, term_width};
ghost use Rattle.mw_dd.specs.Nodes as nodes;
ghost use Rattle.mw_dd.specs.Nodes.{IsDd, function_of};
ghost use Rattle.mw_dd.specs.Diagrams.{Keeps};
ghost use Rattle.mw_blast.specs.Bits.{AreBits};
ghost use Rattle.mw_blast.specs.Causes.{IsCause};
ghost use Rattle.mw_blast.specs.Kept.{made_of, start_of, is_made, AreMade, IsOf, IsOnTheWay, distance};
ghost use Rattle.mw_blast.specs.Splits.{IsSplit, IsSplitCause};

use crate::fault::{BlastFault, RowFault};
use crate::functions::copied;
use crate::split::{Split, divide};
use mw_base::NoMemory;
use mw_dd::{Dd, Diagrams};
use mw_term::{Op, Term, Terms};
use std::alloc::Global;
use std::marker::Model;

/// The bits of terms as functions. They are made when they are first asked for, and kept from then on. What is kept is
/// right for the table of terms and for the diagrams with which it was made, also when both have grown since.
#[derive(Drop)]
pub struct Blast {
    starts: Vec<Option<usize>>,
    bits: Vec<Dd>,
}

impl Model for Blast {
    ghost use Rattle.mw_blast.specs.Kept.{Made, made_of};

    ghost Value = { Made };

    ghost view = { λ b. made_of b.starts.items b.bits.items };
}

/// Lets a term wait behind others.
fn wait(waiting: &mut Vec<Term>, term: Term) -> Result<(), NoMemory>
    ensures { OnOk result (waiting.new.items ≡ waiting.old.items ++ term ∷ []) }
{
    waiting.push(term)?;
    Ok(())
}

/// The term that waits last, where one does.
fn last_of(waiting: &[Term]) -> Term
    requires { 0 < length waiting.now }
    ensures { result ≡ slice_index waiting.now (length waiting.now - 1) }
{
    waiting[waiting.len() - 1]
}

impl Blast {
    /// No bits. It is right for every table and for all diagrams.
    pub fn new(alloc: Global) -> Blast
        ensures { (t : Table) (dds : List nodes.Node) → IsOf t dds result }
    {
        Blast {
            starts: Vec::new(alloc),
            bits: Vec::new(alloc),
        }
    }

    /// Where the bits of a term begin, if they were made.
    fn start(&self, term: Term) -> Option<usize>
        ensures { result ≡ start_of self.now term }
    {
        self.starts.get(term.position()).copied().flatten()
    }

    /// Whether the bits of a term were made.
    fn is_made(&self, term: Term) -> bool
        ensures { result ≡ is_made self.now term }
    {
        self.start(term).is_some()
    }

    /// The bits of a term, which were made, from the lowest.
    pub(crate) fn bits_of(&self, terms: &Terms, term: Term) -> &[Dd]
        requires there { term < length terms.now.ops }
        requires made { is_made self.now term ≡ true }
        requires of { (dds : List nodes.Node) × IsOf terms.now dds self.now }
        ensures most { length result.now ≤ 32 }
        ensures are { (dds : List nodes.Node) → IsOf terms.now dds self.now → AreBits terms.now dds term result.now }
    {
        let width = terms.width(term) as usize;
        match self.start(term) {
            Some(start) => &self.bits[start..start + width],
            None => &[],
        }
    }

    /// A term, if its bits weren't made.
    fn unmade(&self, term: Term) -> Option<Term>
        ensures { result ≡ find (λ a. not (is_made self.now a)) (term ∷ []) }
    {
        if self.is_made(term) { None } else { Some(term) }
    }

    /// The first of two terms whose bits weren't made.
    fn unmade_of_two(&self, a: Term, b: Term) -> Option<Term>
        ensures { result ≡ find (λ x. not (is_made self.now x)) (a ∷ b ∷ []) }
    {
        self.unmade(a).or(self.unmade(b))
    }

    /// The first of three terms whose bits weren't made.
    fn unmade_of_three(&self, a: Term, b: Term, c: Term) -> Option<Term>
        ensures { result ≡ find (λ x. not (is_made self.now x)) (a ∷ b ∷ c ∷ []) }
    {
        self.unmade_of_two(a, b).or(self.unmade(c))
    }

    /// The first operand of an op whose bits weren't made.
    #[tactic(auto, unfolding(mw_term::specs::Operands::operands))]
    fn unmade_operand(&self, op: Op) -> Option<Term>
        ensures { result ≡ find (λ x. not (is_made self.now x)) (operands op) }
    {
        match op {
            Op::Con(..) | Op::Var(..) => None,
            Op::Not(a) | Op::Part(a, ..) | Op::Tab(a) => self.unmade(a),
            Op::And(a, b)
            | Op::Or(a, b)
            | Op::Xor(a, b)
            | Op::Eq(a, b)
            | Op::Lt(a, b)
            | Op::Join(a, b) => self.unmade_of_two(a, b),
            Op::Sum(a, b, c) | Op::Cout(a, b, c) | Op::Ovf(a, b, c) | Op::Ite(a, b, c) => {
                self.unmade_of_three(a, b, c)
            }
        }
    }

    /// Makes room for the bits of a term and of those before it.
    fn reserve(&mut self, term: Term) -> Result<(), NoMemory>
        ensures room { OnOk result (term < length self.new.starts) }
        ensures starts { (other : ℕ) → start_of self.new other ≡ start_of self.old other }
        ensures bits { self.new.bits ≡ self.old.bits }
    {
        let count = term.position() + 1;
        if self.starts.len() < count {
            self.starts.resize(count, None)?;
        }
        Ok(())
    }

    /// Keeps the bits of a term, for which there is room.
    fn keep(&mut self, term: Term, bits: &[Dd]) -> Result<(), NoMemory>
        requires { term < length self.old.starts }
        ensures ok { OnOk result (self.new ≡ made_of (slice_set self.old.starts term (Some (length self.old.bits)))
            (self.old.bits ++ bits.now)) }
        ensures err { OnErr result (self.new ≡ self.old) }
    {
        let start = self.bits.len();
        self.bits.extend_from_slice(bits)?;
        self.starts[term.position()] = Some(start);
        Ok(())
    }

    /// Makes the bits of a term, whose operands' bits were made.
    ///
    /// # Errors
    ///
    /// - `Over`: an operation of the term at this bit is over the budget.
    /// - `NoMemory`: memory ran out.
    fn make(
        &mut self,
        alloc: Global,
        terms: &Terms,
        dds: &mut Diagrams,
        term: Term,
        budget: u32,
    ) -> Result<(), BlastFault>
        requires there { term < length terms.now.ops }
        requires room { term < length self.old.starts }
        requires operands { (op : ops.Op) → slice_get terms.now.ops term ≡ Some op → AreMade self.old (operands op) }
        requires of { IsOf terms.now dds.old self.old }
        ensures made { OnOk result ((start : ℕ) × (self.new.starts ≡ slice_set self.old.starts term (Some start))) }
        ensures of { IsOf terms.now dds.new self.new }
        ensures over { IfErr result (IsCause terms.now term budget) }
        ensures keeps { Keeps dds.old dds.new }
    {
        let bits = match self.op_bits(alloc, terms, dds, terms.op(term), budget) {
            Ok(bits) => bits,
            Err(fault) => return Err(fault.of(term)),
        };
        self.keep(term, &bits)?;
        Ok(())
    }

    /// Makes the bits of the term that waits last, or lets its first operand wait whose bits weren't made.
    fn advance(
        &mut self,
        alloc: Global,
        terms: &Terms,
        dds: &mut Diagrams,
        waiting: &mut Vec<Term>,
        budget: u32,
    ) -> Result<(), BlastFault>
        requires some { 0 < length waiting.old.items }
        requires way { (whole : ℕ) × (whole < length terms.now.ops)
            × IsOnTheWay terms.now self.old whole waiting.old.items }
        requires of { IsOf terms.now dds.old self.old }
        ensures way { OnOk result ((whole : ℕ) → IsOnTheWay terms.now self.old whole waiting.old.items
            → IsOnTheWay terms.now self.new whole waiting.new.items) }
        ensures nearer { OnOk result ((whole : ℕ) → IsOnTheWay terms.now self.old whole waiting.old.items
            → distance whole self.new waiting.new.items < distance whole self.old waiting.old.items) }
        ensures of { IsOf terms.now dds.new self.new }
        ensures over { IfErr result (λ e. (whole : ℕ) → IsOnTheWay terms.now self.old whole waiting.old.items
            → IsCause terms.now whole budget e) }
        ensures keeps { Keeps dds.old dds.new }
    {
        let last = last_of(waiting);
        if let Some(operand) = self.unmade_operand(terms.op(last)) {
            wait(waiting, operand)?;
            return Ok(());
        }
        self.make(alloc, terms, dds, last, budget)?;
        waiting.pop();
        Ok(())
    }

    /// Makes the bits of a term, if they weren't made, and before them those of its operands, from the first
    /// to the last.
    fn make_all(
        &mut self,
        alloc: Global,
        terms: &Terms,
        dds: &mut Diagrams,
        term: Term,
        budget: u32,
    ) -> Result<(), BlastFault>
        requires there { term < length terms.now.ops }
        requires of { IsOf terms.now dds.old self.old }
        ensures made { OnOk result (is_made self.new term ≡ true) }
        ensures of { IsOf terms.now dds.new self.new }
        ensures over { IfErr result (IsCause terms.now term budget) }
        ensures keeps { Keeps dds.old dds.new }
    {
        self.reserve(term)?;
        if self.is_made(term) {
            return Ok(());
        }
        let mut waiting = Vec::new(alloc);
        wait(&mut waiting, term)?;
        while !waiting.is_empty() {
            self.advance(alloc, terms, dds, &mut waiting, budget)?;
        }
        Ok(())
    }

    /// The functions of a term's bits, from the lowest. They are made, within the budget, when they are first asked
    /// for: a term's bits after those of its operands, from the first to the last, and within them from bit 0 upward,
    /// by the operations of the term table in their order. What was made is kept, also after a refusal. The term is one
    /// of the table. Earlier functions of the diagrams stay as they are.
    ///
    /// # Errors
    ///
    /// - `Over`: the term that is named is this one, or is reached from it through operands, and one of its operations
    ///   at the bit that is named has more joint cofactors than the budget.
    /// - `NoMemory`: memory ran out.
    pub fn bits(
        &mut self,
        alloc: Global,
        terms: &Terms,
        dds: &mut Diagrams,
        term: Term,
        budget: u32,
    ) -> Result<Vec<Dd>, BlastFault>
        requires there { term < length terms.now.ops }
        requires of { IsOf terms.now dds.old self.old }
        ensures bits { IfOk result (λ v. AreBits terms.now dds.new term v.items) }
        ensures over { IfErr result (IsCause terms.now term budget) }
        ensures of { IsOf terms.now dds.new self.new }
        ensures keeps { Keeps dds.old dds.new }
    {
        self.make_all(alloc, terms, dds, term, budget)?;
        Ok(copied(alloc, self.bits_of(terms, term))?)
    }

    /// A path in two: where a term of one bit is 0, and where it is 1. The term is one of the table. What was made is
    /// kept, and earlier functions of the diagrams stay as they are.
    ///
    /// # Errors
    ///
    /// - `Over`: as in `bits`; or the term is named, with bit 0, since one of the two path operations has more joint
    ///   cofactors than the budget. Where one has, there is no other answer but these.
    /// - `NoMemory`: memory ran out.
    pub fn decide(
        &mut self,
        alloc: Global,
        terms: &Terms,
        dds: &mut Diagrams,
        path: Dd,
        term: Term,
        budget: u32,
    ) -> Result<Split, BlastFault>
        requires there { term < length terms.now.ops }
        requires one { term_width terms.now term ≡ 1 }
        requires path { IsDd dds.old path }
        requires of { IsOf terms.now dds.old self.old }
        ensures split { IfOk result (IsSplit dds.new (function_of dds.old path) (bit terms.now term 0) budget) }
        ensures over { IfErr result (IsSplitCause terms.now (function_of dds.old path) term budget) }
        ensures of { IsOf terms.now dds.new self.new }
        ensures keeps { Keeps dds.old dds.new }
    {
        self.make_all(alloc, terms, dds, term, budget)?;
        let bit = self.bits_of(terms, term)[0];
        match divide(dds, alloc, path, bit, budget) {
            Ok(split) => Ok(split),
            Err(fault) => Err(RowFault::at(0, fault).of(term)),
        }
    }
}
