// One step of a described machine on terms.
ghost use Rattle.std.specs.Prelude.{◌≡◌, ℕ, ◌+◌, ◌-◌, ◌<◌, ◌≤◌, ◌^◌, List, [], ◌∷◌, ◌++◌, drop, length, slice_index};
ghost use Rattle.std.specs.Prelude.{take, true, false, Bool, None, Some, IfOk, OnOk};
ghost use Rattle.mw_macro.specs.declared.counts.Counted.TheVariants.{Reads, Events};
ghost use Rattle.mw_macro.specs.Branches.{branches_of};
ghost use Rattle.mw_macro.specs.Counts.{total};
ghost use Rattle.mw_macro.specs.Described.{description_of};
ghost use Rattle.mw_macro.specs.DescribedStep.{step_of};
ghost use Rattle.mw_macro.specs.Machine.{Description};
ghost use Rattle.mw_macro.specs.State.{MachineState};
ghost use Rattle.mw_symmach.specs.declared.machine.Pending.TheVariants as pendings;
ghost use Rattle.mw_macro.specs.StepWords.{begun_words, with_zeros};
ghost use Rattle.mw_term.specs.MemoryRead.{Held};
ghost use Rattle.mw_term.specs.WordList.{list_of};
ghost use Rattle.mw_symmem.specs.Listed.{list_in};
ghost use Rattle.mw_term.specs.Assigned.{Given};
ghost use Rattle.mw_term.specs.Table.{IsTable, Table};
ghost use Rattle.mw_term.specs.declared.word.Word.{Word};
ghost use Rattle.mw_symmem.specs.Memory.{Memory};
ghost use Rattle.mw_symmem.specs.Workspace.{GoesOn};
ghost use Rattle.mw_macro.specs.Statements.{nothing};
ghost use Rattle.mw_symmem.specs.declared.turn.Turn.TheVariants.{Finished};
ghost use Rattle.mw_symmach.specs.Places.{left_of, Reaches, StopsAt};
ghost use Rattle.mw_symmach.specs.Steps.{IsOfStep, Stands, parts_of};
ghost use Rattle.mw_symmach.specs.Turns.{Scene, IsStart, Waits, IsStepping, IsTurn, IsDecided, bits_to_come, left_in};
ghost use Rattle.mw_symmach.specs.Turns.{end_of, is_asked, given_so, now_in, entered, reads_to_come, with_parts};
ghost use Rattle.mw_symmach.specs.Turns.{turn_of, come_to};
ghost use Rattle.mw_symmach.specs.Walks.{Walks, asked_by, chosen, underway_in, underway_of};
ghost use Rattle.mw_symmach.specs.Zeros.{AreWide, HaveZeros};

use crate::level::Level;
use crate::parts::{Parts, Reached};
use crate::walk::go_on;
use mw_base::NoMemory;
use mw_macro::Machine;
use mw_symmem::{SymEvent, SymMemory, Turn, Words};
use mw_term::{DecidedKind, Term, Written};
use std::alloc::Global;
use std::marker::Model;

/// What a step does with the `if` at which it stands.
#[derive(Clone, Copy)]
pub(crate) enum Pending {
    /// Nothing yet.
    Nothing,
    /// It waits for the bit of its condition.
    Asked,
    /// It goes into one of its lists: the first, where this is true.
    Answered(bool),
}

/// One step of a described machine, whose elements have terms in place of values.
#[derive(Drop)]
pub struct SymMach {
    parts: Parts,
    /// The request's term, until the temporaries have theirs too.
    request: Option<Term>,
    /// In which lists of which `if`s it stands, the outermost first.
    levels: Vec<Level>,
    /// Where it stands in the innermost of these lists.
    position: usize,
    pending: Pending,
}

impl Model for SymMach {
    ghost use Rattle.mw_symmach.specs.Turns as turns;

    ghost Value = { turns.Stepping };

    ghost view = { λ s. record {
      parts = s.parts;
      request = s.request;
      levels = s.levels.items;
      position = s.position;
      pending = s.pending;
    } };
}

impl SymMach {
    /// The same step once more. Both go on independently.
    ///
    /// # Errors
    ///
    /// Memory ran out.
    pub fn copy(&self, alloc: Global) -> Result<SymMach, NoMemory>
        ensures { IfOk result (λ copy. copy ≡ self.now) }
    {
        Ok(SymMach {
            parts: self.parts.copy(alloc)?,
            request: self.request,
            levels: Vec::from_slice(alloc, &self.levels)?,
            position: self.position,
            pending: self.pending,
        })
    }

    /// A step from these terms for the registers, by their numbers, and one for the request. It may go on where each
    /// has its register's width, and the request one bit. There is no event, and no input was taken.
    ///
    /// # Errors
    ///
    /// Memory ran out.
    pub fn new(
        alloc: Global,
        machine: &Machine,
        registers: &[Term],
        request: Term,
    ) -> Result<SymMach, NoMemory>
        requires count { length registers.now ≡ (description_of machine.now).registers }
        ensures step { IfOk result
            (λ s. (t : Table) (m : Memory) (given : Given) (x : Scene) (state : MachineState) (bit : Bool)
            → IsStart t m given registers.now request x state bit
            → (bits_to_come (description_of machine.now) t given m x s
            ≡ branches_of (description_of machine.now) state bit x.inputs 0)
            × (end_of (description_of machine.now) t given m x s
            ≡ step_of (description_of machine.now) state bit x.inputs 0)) }
        ensures left { IfOk result (λ s. left_in (description_of machine.now) s ≡ (description_of machine.now).acts) }
        ensures listed { IfOk result (λ s. (t : Table) (words : List Word) (m : Memory)
            → underway_of (description_of machine.now) t words m s
            ≡ begun_words (description_of machine.now) registers.now request m.machine (list_in t words m)) }
        ensures registers { IfOk result (λ s. s.parts.values ≡ registers.now) }
        ensures events { IfOk result (λ s. s.parts.events ≡ []) }
        ensures idle { IfOk result (λ s. is_asked s.pending ≡ false) }
        ensures reads { IfOk result
            (λ s. reads_to_come (description_of machine.now) s ≡ total Reads (description_of machine.now).acts) }
        ensures stepping { IfOk result (λ s. (t : Table) (words : List Word) (m : Memory)
            → Waits (description_of machine.now) t words m registers.now request
            → IsStepping (description_of machine.now) t words m s) }
    {
        Ok(SymMach {
            parts: Parts::new(alloc, registers, machine.shape().widths.as_slice().len())?,
            request: Some(request),
            levels: Vec::new(alloc),
            position: 0,
            pending: Pending::Nothing,
        })
    }

    /// The request's term, until the temporaries have theirs too.
    fn request(&self) -> Option<Term>
        ensures { result ≡ self.now.request }
    {
        self.request
    }

    /// The temporaries get terms of the value 0.
    fn add_temporaries(
        &mut self,
        alloc: Global,
        machine: &Machine,
        terms: &mut Written,
    ) -> Result<(), NoMemory>
        requires table { IsTable terms.old }
        requires wide { AreWide terms.old (description_of machine.now).shape.widths self.old.parts.values }
        requires count { length self.old.parts.values ≡ (description_of machine.now).registers }
        ensures zeros { OnOk result (HaveZeros terms.old terms.new (description_of machine.now).shape.widths
            self.old.parts.values self.new.parts.values
            (length (description_of machine.now).names - (description_of machine.now).registers)) }
        ensures listed { OnOk result ((words : List Word) (reads : List Held)
            → with_zeros (take (length (description_of machine.now).names - (description_of machine.now).registers)
            (drop (description_of machine.now).registers (description_of machine.now).shape.widths))
            self.old.parts.values (list_of terms.old.ops words reads)
            ≡ record { list = list_of terms.new.ops words reads; terms = self.new.parts.values }) }
        ensures same { OnOk result (self.new ≡ with_parts self.old
            (parts_of self.new.parts.values self.old.parts.events self.old.parts.taken) self.old.request) }
    {
        self.parts.push_zeros(
            alloc,
            machine.shape().widths.as_slice(),
            machine.names().len(),
            terms,
        )?;
        Ok(())
    }

    /// The request becomes the last element.
    fn add_request(&mut self, request: Term) -> Result<(), NoMemory>
        ensures { OnOk result (self.new ≡ with_parts self.old
            (parts_of (self.old.parts.values ++ request ∷ []) self.old.parts.events self.old.parts.taken) None) }
    {
        self.parts.push(request)?;
        self.request = None;
        Ok(())
    }

    /// Gives the temporaries their terms, where they have none yet.
    fn begin(
        &mut self,
        alloc: Global,
        machine: &Machine,
        terms: &mut Written,
        words: &Words,
        memory: &SymMemory,
    ) -> Result<(), NoMemory>
        requires stepping { IsStepping (description_of machine.now) terms.old words.now memory.now self.old }
        ensures begun { OnOk result (self.new.request ≡ None) }
        ensures stands { OnOk result (self.new ≡ with_parts self.old self.new.parts None) }
        ensures same { OnOk result ((given : Given) (image : List ℕ)
            → now_in (description_of machine.now) terms.new given memory.now image self.new
            ≡ now_in (description_of machine.now) terms.old given memory.now image self.old) }
        ensures listed { OnOk result (underway_in terms.new words.now memory.now self.new.parts
            ≡ underway_of (description_of machine.now) terms.old words.now memory.now self.old) }
        ensures goes { OnOk result (GoesOn IsOfStep terms.old terms.new words.now words.now memory.now memory.now) }
        ensures stepping { OnOk result
            (IsStepping (description_of machine.now) terms.new words.now memory.now self.new) }
    {
        let Some(request) = self.request() else {
            return Ok(());
        };
        self.add_temporaries(alloc, machine, terms)?;
        self.add_request(request)?;
        Ok(())
    }

    /// Goes into the list that was chosen, where one was.
    fn enter(&mut self) -> Result<(), NoMemory>
        requires { (first : Bool) → self.old.pending ≡ pendings.Answered first → self.old.position < 2 ^ 32 }
        ensures { OnOk result (self.new ≡ entered self.old) }
    {
        let Pending::Answered(first) = self.pending else {
            return Ok(());
        };
        self.levels.push(Level {
            position: self.position as u32,
            first,
        })?;
        self.position = 0;
        self.pending = Pending::Nothing;
        Ok(())
    }

    /// Goes on to the next `if` that asks for its bit, or to the end of the step. It isn't called while a bit that was
    /// asked for waits for `decide`. The memory has the machine's widths, and the numbers of base reads
    /// stay below 2^32.
    ///
    /// # Errors
    ///
    /// Memory ran out: the step, the terms, the words and the memory may only be dropped.
    pub fn sym_step(
        &mut self,
        alloc: Global,
        machine: &Machine,
        terms: &mut Written,
        words: &mut Words,
        memory: &mut SymMemory,
    ) -> Result<Turn, NoMemory>
        requires idle { is_asked self.old.pending ≡ false }
        requires few { length memory.old.reads + reads_to_come (description_of machine.now) self.old ≤ 2 ^ 32 }
        requires stepping { IsStepping (description_of machine.now) terms.old words.old memory.old self.old }
        ensures turn { IfOk result (IsTurn (description_of machine.now)
            terms.old terms.new words.new memory.old memory.new self.old self.new) }
        ensures listed { IfOk result (λ turn. Walks (description_of machine.now).shape
            (underway_of (description_of machine.now) terms.old words.old memory.old self.old)
            (underway_in terms.new words.new memory.new self.new.parts)
            (left_in (description_of machine.now) self.old) (left_in (description_of machine.now) self.new)
            (asked_by turn)) }
        ensures done { IfOk result (λ turn. turn ≡ Finished → left_in (description_of machine.now) self.new ≡ nothing) }
        ensures begun { OnOk result (self.new.request ≡ None) }
        ensures goes { OnOk result (GoesOn IsOfStep terms.old terms.new words.old words.new memory.old memory.new) }
        ensures board { OnOk result (memory.new.board ≡ memory.old.board) }
        ensures few { OnOk result (length memory.new.reads + reads_to_come (description_of machine.now) self.new
            ≤ length memory.old.reads + reads_to_come (description_of machine.now) self.old) }
        ensures stepping { OnOk result
            (IsStepping (description_of machine.now) terms.new words.new memory.new self.new) }
    {
        self.begin(alloc, machine, terms, words, memory)?;
        self.enter()?;
        let reached = self.go_on(alloc, machine, terms, words, memory)?;
        Ok(self.turn(reached))
    }

    /// Goes on in the statements.
    fn go_on(
        &mut self,
        alloc: Global,
        machine: &Machine,
        terms: &mut Written,
        words: &mut Words,
        memory: &mut SymMemory,
    ) -> Result<Reached, NoMemory>
        requires stands { Stands (description_of machine.now).shape terms.old words.old memory.old self.old.parts }
        requires few_reads { length memory.old.reads
            + total Reads (left_of (description_of machine.now).acts self.old.levels self.old.position) ≤ 2 ^ 32 }
        requires few_events { self.old.parts.taken
            + total Events (left_of (description_of machine.now).acts self.old.levels self.old.position) < 2 ^ 32 }
        ensures reaches { IfOk result (λ reached. Reaches (description_of machine.now).shape terms.old terms.new
            words.old words.new memory.old memory.new self.old.parts self.new.parts
            (left_of (description_of machine.now).acts self.old.levels self.old.position)
            (left_of (description_of machine.now).acts self.new.levels reached.position) reached.asked) }
        ensures listed { IfOk result (λ reached. Walks (description_of machine.now).shape
            (underway_in terms.old words.old memory.old self.old.parts)
            (underway_in terms.new words.new memory.new self.new.parts)
            (left_of (description_of machine.now).acts self.old.levels self.old.position)
            (left_of (description_of machine.now).acts self.new.levels reached.position) reached.asked) }
        ensures stops { IfOk result
            (λ reached. StopsAt (description_of machine.now).acts self.new.levels reached.position reached.asked) }
        ensures request { self.new.request ≡ self.old.request }
    {
        go_on(
            alloc,
            machine.shape(),
            machine.statements(),
            0,
            self.position,
            &mut self.parts,
            &mut self.levels,
            terms,
            words,
            memory,
        )
    }

    /// What it says where it has come so far.
    fn turn(&mut self, reached: Reached) -> Turn
        ensures said { result ≡ turn_of reached.asked }
        ensures new { self.new ≡ come_to self.old reached.position reached.asked }
    {
        self.position = reached.position;
        match reached.asked {
            Some(term) => {
                self.pending = Pending::Asked;
                Turn::Ask {
                    kind: DecidedKind::Branch,
                    term,
                }
            }
            None => {
                self.pending = Pending::Nothing;
                Turn::Finished
            }
        }
    }

    /// Gives the bit that was asked for last. The last turn was `Ask`.
    pub fn decide(&mut self, value: bool)
        requires asked { is_asked self.old.pending ≡ true }
        ensures new { self.new ≡ given_so self.old value }
        ensures left { (d : Description) (t : Table) (words : List Word) (m : Memory) → IsStepping d t words m self.old
            → left_in d self.new ≡ chosen value (left_in d self.old) }
        ensures decided { (d : Description) (t : Table) (words : List Word) (m : Memory)
            → IsStepping d t words m self.old → IsDecided d t words m self.old self.new value }
    {
        self.pending = Pending::Answered(value);
    }

    /// The term of an element: the registers are the first ones, by their numbers, from 0.
    pub fn register(&self, number: u32) -> Term
        requires { number < length self.now.parts.values }
        ensures { result ≡ slice_index self.now.parts.values number }
    {
        self.parts.value(number as usize)
    }

    /// The events so far, in their order.
    pub fn events(&self) -> &[SymEvent]
        ensures { result.now ≡ self.now.parts.events }
    {
        self.parts.events()
    }
}
