// A board on terms.
ghost use Rattle.std.specs.Prelude.{◌≡◌, ℕ, ◌+◌, ◌<◌, ◌≤◌, ◌^◌, List, [], ◌∷◌, ◌++◌, length, map, slice_index, true};
ghost use Rattle.std.specs.Prelude.{None, Some, IfOk, OnOk};
ghost use Rattle.mw_board.specs.declared.parts.BoardParts.{BoardParts};
ghost use Rattle.mw_board.specs.Depth.{depth_of};
ghost use Rattle.mw_board.specs.Elements.{element_count};
ghost use Rattle.mw_board.specs.Valid.{IsBoard};
ghost use Rattle.mw_cycle.specs.Elements.{element_of};
ghost use Rattle.mw_cycle.specs.Microword.{IsMicroword};
ghost use Rattle.mw_term.specs.Table.{Table};
ghost use Rattle.mw_term.specs.declared.word.Word.{Word};
ghost use Rattle.mw_symmem.specs.Memory.{Memory, IsOfWidth, writes_of};
ghost use Rattle.mw_symmem.specs.Workspace.{GoesOn, IsWorkspace, KeepsWrites, ReadsMore};
ghost use Rattle.mw_term.specs.Assigned.{Given};
ghost use Rattle.mw_symboard.specs.declared.leaving.Leaving.{Leaving};
ghost use Rattle.mw_symboard.specs.declared.reading.Reading.{Reading};
ghost use Rattle.mw_base.specs.Words.{num};
ghost use Rattle.mw_cycle.specs.Decided.{decides_counter, decides_pass};
ghost use Rattle.mw_symboard.specs.Bits.{AreBits, AreSources};
ghost use Rattle.mw_symboard.specs.Cycle.{IsEdge, bits_before, effect_by};
ghost use Rattle.mw_symboard.specs.Seen.{IsSeen, Scene, microword_of};
ghost use Rattle.mw_symboard.specs.Growth.{Grew};
ghost use Rattle.mw_symboard.specs.Kinds.{HaveWidths, IsCycleKind};
ghost use Rattle.mw_symboard.specs.Parts.{AreElements, AreParts, HasElements};
ghost use Rattle.mw_cycle.specs.BoardTerms.{term_of_part};
ghost use Rattle.mw_symboard.specs.Laws.{IsBeginning};
ghost use Rattle.mw_term.specs.declared.side.Side.TheVariants as sides;
ghost use Rattle.mw_symmem.specs.declared.turn.Turn.TheVariants.{Ask, Finished};
ghost use Rattle.mw_term.specs.declared.decided.DecidedKind.{DecidedKind};
ghost use Rattle.mw_symboard.specs.Turns.{AreNoLater, Asks, IsDone, IsSymbolic, IsTurn, cycle_left, decided_so};
ghost use Rattle.mw_symboard.specs.Turns.{other_side, reads_to_come, shown_by, written_if};
ghost use Rattle.mw_cycle.specs.EdgeWords.{edge_words};
ghost use Rattle.mw_term.specs.declared.event.SymEvent.{SymEvent};
ghost use Rattle.mw_term.specs.MemoryRead.{Held};
ghost use Rattle.mw_term.specs.WordList.{list_of};
ghost use Rattle.mw_symmem.specs.Listed.{list_in};
ghost use Rattle.mw_symboard.specs.Along.{Ends, GoesAlong, ListsTurn, StopsAt};
ghost use Rattle.mw_symboard.specs.Listed.{leaving_of, reading_of, standing_after, standing_of};

use crate::after::take_edge;
use crate::leaving::{Leaving, bits_before};
use crate::make::{constant, word};
use crate::parts::Parts;
use crate::path::Path;
use crate::progress::Progress;
use crate::reading::Reading;
use mw_base::NoMemory;
use mw_board::{Board, DFrom, Store};
use mw_cycle::{Microword, element_of};
use mw_symmem::{Side, SymEvent, SymMemory, Turn, Words};
use mw_term::{Decided, DecidedKind, Op, Term, Written};
use std::alloc::Global;
use std::marker::Model;

/// A board whose elements have terms in place of values. Its control address and its stack pointer are numbers.
#[derive(Drop)]
pub struct SymBoard {
    place: Progress,
    events: Vec<SymEvent>,
    /// What the cycle has read, once it has begun.
    reading: Option<Reading>,
    /// What is known of its end, once pass and the counter are decided.
    leaving: Option<Leaving>,
    /// The bit that it waits for.
    asked: Option<DecidedKind>,
}

impl Model for SymBoard {
    ghost use Rattle.mw_symboard.specs.Turns as turns;

    ghost Value = { turns.Symbolic };

    ghost view = { λ b. record {
      place = b.place;
      events = b.events.items;
      reading = b.reading;
      leaving = b.leaving;
      asked = b.asked;
    } };
}

/// The word at an address of a side takes a value, where it does.
fn write_memory(
    alloc: Global,
    write: bool,
    side: Side,
    address: Term,
    value: Term,
    memory: &mut SymMemory,
) -> Result<(), NoMemory>
    ensures { OnOk result (memory.new ≡ written_if write memory.old side address value) }
{
    if !write {
        return Ok(());
    }
    memory.write(alloc, side, address, value)
}

impl SymBoard {
    /// The same board once more. Both go on independently.
    ///
    /// # Errors
    ///
    /// Memory ran out.
    pub fn copy(&self, alloc: Global) -> Result<SymBoard, NoMemory>
        ensures { IfOk result (λ copy. copy ≡ self.now) }
    {
        let reading = match &self.reading {
            Some(reading) => Some(reading.copy(alloc)?),
            None => None,
        };
        Ok(SymBoard {
            place: self.place.copy(alloc)?,
            events: Vec::from_slice(alloc, &self.events)?,
            reading,
            leaving: self.leaving,
            asked: self.asked,
        })
    }

    /// A board of a side, with a term for its first line where there is one. No cycle is finished and no input taken.
    fn begun(
        alloc: Global,
        board: &Board,
        side: Side,
        address: u16,
        sp: u8,
        elements: &[Term],
        line: Option<Term>,
    ) -> Result<SymBoard, NoMemory>
        requires elements { length elements.now ≡ element_count board.now }
        ensures elements { IfOk result (λ b. HasElements board.now elements.now b.place.parts) }
        ensures begins { IfOk result (λ b. IsBeginning side address sp line b) }
        ensures symbolic { IfOk result (λ b. (store : List ℕ) (t : Table) (words : List Word) (m : Memory)
            → address < 2 ^ 12 → sp ≤ depth_of board.now → AreElements board.now t elements.now
            → ((term : ℕ) → line ≡ Some term → IsOfWidth t 1 term)
            → HaveWidths side board.now t words → AreNoLater side 0 words → IsSymbolic board.now store t words m b) }
    {
        Ok(SymBoard {
            place: Progress {
                side,
                at: address,
                sp,
                parts: Parts::new(alloc, board, elements)?,
                cycle: 0,
                taken: 0,
                line,
                decided: Path::new(),
            },
            events: Vec::new(alloc),
            reading: None,
            leaving: None,
            asked: None,
        })
    }

    /// A board at a control address, with so many words on its stack, and with these terms for its elements, by their
    /// numbers. It has the board's side of the memory, and has done nothing. It may go on where the address is below
    /// 4,096, the stack has so many words, each term has its element's width, and no word is a line or noise of its side.
    ///
    /// # Errors
    ///
    /// Memory ran out.
    pub fn new(
        alloc: Global,
        board: &Board,
        address: u16,
        sp: u8,
        elements: &[Term],
    ) -> Result<SymBoard, NoMemory>
        requires elements { length elements.now ≡ element_count board.now }
        ensures elements { IfOk result (λ b. HasElements board.now elements.now b.place.parts) }
        ensures begins { IfOk result (λ b. IsBeginning sides.Board address sp None b) }
        ensures symbolic { IfOk result (λ b. (store : List ℕ) (t : Table) (words : List Word) (m : Memory)
            → address < 2 ^ 12 → sp ≤ depth_of board.now → AreElements board.now t elements.now
            → HaveWidths sides.Board board.now t words → AreNoLater sides.Board 0 words
            → IsSymbolic board.now store t words m b) }
    {
        let begun = SymBoard::begun(alloc, board, Side::Board, address, sp, elements, None)?;
        Ok(begun)
    }

    /// A board beside another, like one that `new` makes; but it has the machine's side of the memory and the variables of
    /// a board beside another, while inputs have the other's, by their numbers. The line of its first cycle is this term
    /// of one bit: no variable stands for it. It may go on where `new` says; the other's lines and noise may be there.
    ///
    /// # Errors
    ///
    /// Memory ran out.
    pub fn beside(
        alloc: Global,
        board: &Board,
        address: u16,
        sp: u8,
        elements: &[Term],
        line: Term,
    ) -> Result<SymBoard, NoMemory>
        requires elements { length elements.now ≡ element_count board.now }
        ensures elements { IfOk result (λ b. HasElements board.now elements.now b.place.parts) }
        ensures begins { IfOk result (λ b. IsBeginning sides.Machine address sp (Some line) b) }
        ensures symbolic { IfOk result (λ b. (store : List ℕ) (t : Table) (words : List Word) (m : Memory)
            → address < 2 ^ 12 → sp ≤ depth_of board.now → AreElements board.now t elements.now
            → IsOfWidth t 1 line → HaveWidths sides.Machine board.now t words → AreNoLater sides.Machine 0 words
            → IsSymbolic board.now store t words m b) }
    {
        let line = Some(line);
        let begun = SymBoard::begun(alloc, board, Side::Machine, address, sp, elements, line)?;
        Ok(begun)
    }

    /// The microword of the cycle.
    fn microword(&self, board: &Board, store: &Store) -> Microword
        ensures exact { result ≡ microword_of board.now store.now.words self.now.place }
        ensures valid { IsMicroword board.now result }
        ensures board { IsBoard board.now }
    {
        // A call for the proof: its clause `valid` says what is so of every board.
        let _ = board.parts();
        Microword::decoded(board, store.word(board, self.place.at))
    }

    /// How many bits of the cycle are decided.
    fn known(&self) -> usize
        ensures exact { result ≡ length self.now.place.decided }
        ensures most { result ≤ 14 }
    {
        self.place.decided.count()
    }

    /// The term of the register/counter.
    fn counter(&self) -> Term
        ensures { result ≡ self.now.place.parts.r }
    {
        self.place.parts.r
    }

    /// Where it is.
    fn place(&self) -> &Progress
        ensures { result.now ≡ self.now.place }
    {
        &self.place
    }

    /// Keeps what the cycle has read.
    fn set_reading(&mut self, reading: Reading)
        ensures { self.new ≡ record self.old { reading = Some reading } }
    {
        self.reading = Some(reading);
    }

    /// Keeps what is known of the cycle's end.
    fn set_leaving(&mut self, leaving: Leaving)
        ensures { self.new ≡ record self.old { leaving = Some leaving } }
    {
        self.leaving = Some(leaving);
    }

    /// Reads what the cycle reads before its edge, where it didn't yet.
    fn begin(
        &mut self,
        alloc: Global,
        board: &Board,
        store: &Store,
        terms: &mut Written,
        words: &mut Words,
        memory: &mut SymMemory,
    ) -> Result<(), NoMemory>
        requires address { memory.old.address ≡ board.now.address }
        requires word { memory.old.word ≡ board.now.width }
        requires few { length memory.old.reads < 2 ^ 32 }
        requires workspace { IsWorkspace terms.old words.old memory.old }
        requires symbolic { IsSymbolic board.now store.now.words terms.old words.old memory.old self.old }
        ensures begun { OnOk result ((reading : Reading) × (self.new.reading ≡ Some reading)) }
        ensures place { self.new.place ≡ self.old.place }
        ensures events { self.new.events ≡ self.old.events }
        ensures asked { self.new.asked ≡ self.old.asked }
        ensures goes { OnOk result (GoesOn (IsCycleKind self.old.place.side self.old.place.cycle self.old.place.taken
            self.old.place.line) terms.old terms.new words.old words.new memory.old memory.new) }
        ensures writes { OnOk result (KeepsWrites memory.old memory.new) }
        ensures reads { OnOk result (length memory.new.reads ≤ length memory.old.reads + reads_to_come self.old) }
        ensures listed { OnOk result (GoesAlong board.now store.now.words
            (writes_of memory.old self.old.place.side) self.old self.new
            (list_in terms.old words.old memory.old) (list_in terms.new words.new memory.new)) }
        ensures symbolic { OnOk result (IsSymbolic board.now store.now.words terms.new words.new memory.new self.new) }
    {
        if self.reading.is_some() {
            return Ok(());
        }
        let microword = self.microword(board, store);
        let reading = Reading::new(alloc, board, &microword, self.place(), terms, words, memory)?;
        self.set_reading(reading);
        Ok(())
    }

    /// Asks for a bit.
    fn ask(&mut self, kind: DecidedKind, term: Term) -> Turn
        ensures turn { result ≡ Ask kind term }
        ensures new { self.new ≡ record self.old { asked = Some kind } }
    {
        self.asked = Some(kind);
        Turn::Ask { kind, term }
    }

    /// The term of the condition. The cycle has begun.
    fn condition(&self) -> Term
        requires { (reading : Reading) × (self.now.reading ≡ Some reading) }
        ensures { (reading : Reading) → self.now.reading ≡ Some reading → result ≡ reading.condition }
    {
        match &self.reading {
            Some(reading) => reading.condition,
            None => unreachable!(),
        }
    }

    /// Asks for pass. The cycle has begun, and pass is decided first.
    fn ask_pass(
        &mut self,
        board: &Board,
        store: &Store,
        terms: &Written,
        words: &Words,
        memory: &SymMemory,
    ) -> Turn
        requires board { IsBoard board.now }
        requires microword { IsMicroword board.now (microword_of board.now store.now.words self.old.place) }
        requires workspace { IsWorkspace terms.now words.now memory.now }
        requires symbolic { IsSymbolic board.now store.now.words terms.now words.now memory.now self.old }
        requires begun { (reading : Reading) × (self.old.reading ≡ Some reading) }
        requires tested { decides_pass (microword_of board.now store.now.words self.old.place) ≡ true }
        requires none { length self.old.place.decided ≡ 0 }
        ensures asks { (kind : DecidedKind) × (term : ℕ) × (result ≡ Ask kind term)
            × Asks board.now store.now.words terms.now words.now memory.now self.new kind term }
        ensures place { self.new.place ≡ self.old.place }
        ensures events { self.new.events ≡ self.old.events }
        ensures listed { (kind : DecidedKind) (term : ℕ) → result ≡ Ask kind term
            → StopsAt board.now store.now.words (writes_of memory.now self.old.place.side) self.old self.new
            (list_in terms.now words.now memory.now) (list_in terms.now words.now memory.now) kind term }
        ensures symbolic { IsSymbolic board.now store.now.words terms.now words.now memory.now self.new }
    {
        let condition = self.condition();
        self.ask(DecidedKind::Pass, condition)
    }

    /// Asks whether the counter is zero. The cycle has begun, and this is decided next.
    fn ask_counter(
        &mut self,
        alloc: Global,
        board: &Board,
        store: &Store,
        terms: &mut Written,
        words: &mut Words,
        memory: &SymMemory,
    ) -> Result<Turn, NoMemory>
        requires workspace { IsWorkspace terms.old words.old memory.now }
        requires symbolic { IsSymbolic board.now store.now.words terms.old words.old memory.now self.old }
        requires begun { (reading : Reading) × (self.old.reading ≡ Some reading) }
        requires counted { decides_counter (microword_of board.now store.now.words self.old.place) ≡ true }
        requires known { length self.old.place.decided
            ≡ num (decides_pass (microword_of board.now store.now.words self.old.place)) }
        ensures asks { IfOk result (λ turn. (kind : DecidedKind) × (term : ℕ) × (turn ≡ Ask kind term)
            × Asks board.now store.now.words terms.new words.new memory.now self.new kind term) }
        ensures place { self.new.place ≡ self.old.place }
        ensures events { self.new.events ≡ self.old.events }
        ensures grew { OnOk result (Grew terms.old terms.new words.old words.new) }
        ensures listed { IfOk result (λ turn. (kind : DecidedKind) (term : ℕ) → turn ≡ Ask kind term
            → StopsAt board.now store.now.words (writes_of memory.now self.old.place.side) self.old self.new
            (list_in terms.old words.old memory.now) (list_in terms.new words.new memory.now) kind term) }
        ensures symbolic { OnOk result (IsSymbolic board.now store.now.words terms.new words.new memory.now self.new) }
    {
        let zero = constant(alloc, 0, 12, terms)?;
        let is_zero = word(alloc, Op::Eq(self.counter(), zero), terms, words)?;
        Ok(self.ask(DecidedKind::CounterZero, is_zero))
    }

    /// Asks for pass, or else whether the counter is zero. The cycle has begun, and one of these is to be decided.
    fn ask_test(
        &mut self,
        alloc: Global,
        board: &Board,
        store: &Store,
        terms: &mut Written,
        words: &mut Words,
        memory: &SymMemory,
    ) -> Result<Turn, NoMemory>
        requires workspace { IsWorkspace terms.old words.old memory.now }
        requires symbolic { IsSymbolic board.now store.now.words terms.old words.old memory.now self.old }
        requires begun { (reading : Reading) × (self.old.reading ≡ Some reading) }
        requires few { length self.old.place.decided
            < bits_before (microword_of board.now store.now.words self.old.place) }
        ensures asks { IfOk result (λ turn. (kind : DecidedKind) × (term : ℕ) × (turn ≡ Ask kind term)
            × Asks board.now store.now.words terms.new words.new memory.now self.new kind term) }
        ensures place { self.new.place ≡ self.old.place }
        ensures events { self.new.events ≡ self.old.events }
        ensures grew { OnOk result (Grew terms.old terms.new words.old words.new) }
        ensures listed { IfOk result (λ turn. (kind : DecidedKind) (term : ℕ) → turn ≡ Ask kind term
            → StopsAt board.now store.now.words (writes_of memory.now self.old.place.side) self.old self.new
            (list_in terms.old words.old memory.now) (list_in terms.new words.new memory.now) kind term) }
        ensures symbolic { OnOk result (IsSymbolic board.now store.now.words terms.new words.new memory.now self.new) }
    {
        let microword = self.microword(board, store);
        let first = self.known() == 0;
        if microword.decides_pass() & first {
            return Ok(self.ask_pass(board, store, terms, words, memory));
        }
        self.ask_counter(alloc, board, store, terms, words, memory)
    }

    /// The noise of the cycle, which has begun.
    fn noise(&self) -> Term
        requires { (reading : Reading) × (self.now.reading ≡ Some reading) }
        ensures { (reading : Reading) → self.now.reading ≡ Some reading → result ≡ reading.sources.noise }
    {
        match &self.reading {
            Some(reading) => reading.sources.noise,
            None => unreachable!(),
        }
    }

    /// Makes what is known of the end of the cycle, where that isn't there yet. The cycle has begun, and pass and the
    /// counter are decided where they have to be.
    fn prepare(
        &mut self,
        alloc: Global,
        board: &Board,
        store: &Store,
        terms: &mut Written,
        words: &mut Words,
        memory: &SymMemory,
    ) -> Result<(), NoMemory>
        requires map { terms.old.map ≡ board.now.map_entries }
        requires workspace { IsWorkspace terms.old words.old memory.now }
        requires symbolic { IsSymbolic board.now store.now.words terms.old words.old memory.now self.old }
        requires begun { (reading : Reading) × (self.old.reading ≡ Some reading) }
        requires known { bits_before (microword_of board.now store.now.words self.old.place)
            ≤ length self.old.place.decided }
        ensures leaving { OnOk result ((leaving : Leaving) × (self.new.leaving ≡ Some leaving)) }
        ensures place { self.new.place ≡ self.old.place }
        ensures events { self.new.events ≡ self.old.events }
        ensures reading { self.new.reading ≡ self.old.reading }
        ensures asked { self.new.asked ≡ self.old.asked }
        ensures grew { OnOk result (Grew terms.old terms.new words.old words.new) }
        ensures listed { OnOk result (GoesAlong board.now store.now.words
            (writes_of memory.now self.old.place.side) self.old self.new
            (list_in terms.old words.old memory.now) (list_in terms.new words.new memory.now)) }
        ensures symbolic { OnOk result (IsSymbolic board.now store.now.words terms.new words.new memory.now self.new) }
    {
        if self.leaving.is_some() {
            return Ok(());
        }
        let microword = self.microword(board, store);
        let noise = self.noise();
        let leaving = Leaving::new(alloc, board, &microword, self.place(), noise, terms, words)?;
        self.set_leaving(leaving);
        Ok(())
    }

    /// The term of the next address, once pass and the counter are decided.
    fn next_address(&self) -> Term
        requires { (leaving : Leaving) × (self.now.leaving ≡ Some leaving) }
        ensures { (leaving : Leaving) → self.now.leaving ≡ Some leaving → result ≡ leaving.next }
    {
        match &self.leaving {
            Some(leaving) => leaving.next,
            None => unreachable!(),
        }
    }

    /// Takes what the cycle has read.
    fn take_reading(&mut self) -> Reading
        requires { (reading : Reading) × (self.old.reading ≡ Some reading) }
        ensures taken { self.old.reading ≡ Some result }
        ensures new { self.new ≡ record self.old { reading = None } }
    {
        match self.reading.take() {
            Some(reading) => reading,
            None => unreachable!(),
        }
    }

    /// Takes what is known of the cycle's end.
    fn take_leaving(&mut self) -> Leaving
        requires { (leaving : Leaving) × (self.old.leaving ≡ Some leaving) }
        ensures taken { self.old.leaving ≡ Some result }
        ensures new { self.new ≡ record self.old { leaving = None } }
    {
        match self.leaving.take() {
            Some(leaving) => leaving,
            None => unreachable!(),
        }
    }

    /// Asks for a bit of the next address: the one of this number from the highest, which is 11.
    fn ask_next(
        &mut self,
        alloc: Global,
        board: &Board,
        store: &Store,
        terms: &mut Written,
        words: &mut Words,
        memory: &SymMemory,
    ) -> Result<Turn, NoMemory>
        requires map { terms.old.map ≡ board.now.map_entries }
        requires workspace { IsWorkspace terms.old words.old memory.now }
        requires symbolic { IsSymbolic board.now store.now.words terms.old words.old memory.now self.old }
        requires begun { (reading : Reading) × (self.old.reading ≡ Some reading) }
        requires leaving { (leaving : Leaving) × (self.old.leaving ≡ Some leaving) }
        requires few { length self.old.place.decided
            < bits_before (microword_of board.now store.now.words self.old.place) + 12 }
        ensures asks { IfOk result (λ turn. (kind : DecidedKind) × (term : ℕ) × (turn ≡ Ask kind term)
            × Asks board.now store.now.words terms.new words.new memory.now self.new kind term) }
        ensures place { self.new.place ≡ self.old.place }
        ensures events { self.new.events ≡ self.old.events }
        ensures grew { OnOk result (Grew terms.old terms.new words.old words.new) }
        ensures listed { IfOk result (λ turn. (kind : DecidedKind) (term : ℕ) → turn ≡ Ask kind term
            → StopsAt board.now store.now.words (writes_of memory.now self.old.place.side) self.old self.new
            (list_in terms.old words.old memory.now) (list_in terms.new words.new memory.now) kind term) }
        ensures symbolic { OnOk result (IsSymbolic board.now store.now.words terms.new words.new memory.now self.new) }
    {
        let microword = self.microword(board, store);
        let place = (bits_before(&microword) + 11 - self.known()) as u8;
        let bit = word(alloc, Op::Part(self.next_address(), place, 1), terms, words)?;
        Ok(self.ask(DecidedKind::Next(place), bit))
    }

    /// Whose side of the memory it reads and writes.
    fn side(&self) -> Side
        ensures { result ≡ self.now.place.side }
    {
        self.place.side
    }

    /// The term of the address register.
    fn mar(&self) -> Term
        ensures { result ≡ self.now.place.parts.mar }
    {
        self.place.parts.mar
    }

    /// The edge: all parts take their new terms from those before it.
    fn edge(
        &mut self,
        alloc: Global,
        board: &Board,
        microword: &Microword,
        reading: &mut Reading,
        leaving: Leaving,
        terms: &mut Written,
        words: &mut Words,
    ) -> Result<(), NoMemory>
        requires microword { IsMicroword board.now microword.now }
        requires parts { AreParts board.now terms.old self.old.place.parts }
        requires sp { self.old.place.sp ≤ depth_of board.now }
        requires sources { AreSources board.now terms.old reading.old.sources }
        requires bits { AreBits board.now terms.old self.old.place.parts self.old.place.sp reading.old.sources
            reading.old.bits }
        requires y { IsOfWidth terms.old board.now.width reading.old.y }
        requires r { IsOfWidth terms.old 12 leaving.r }
        requires known { bits_before microword.now + 12 ≤ length self.old.place.decided }
        ensures is { OnOk result
            (IsEdge board.now microword.now terms.new self.old.place self.new.place reading.old leaving) }
        ensures parts { OnOk result (AreParts board.now terms.new self.new.place.parts) }
        ensures at { OnOk result (self.new.place.at < 2 ^ 12) }
        ensures sp { OnOk result (self.new.place.sp ≤ depth_of board.now) }
        ensures side { self.new.place.side ≡ self.old.place.side }
        ensures cycle { self.new.place.cycle ≡ self.old.place.cycle }
        ensures inputs { self.new.place.taken ≡ self.old.place.taken }
        ensures source { reading.new.source ≡ reading.old.source }
        ensures y { reading.new.y ≡ reading.old.y }
        ensures events { self.new.events ≡ self.old.events }
        ensures reading { self.new.reading ≡ self.old.reading }
        ensures leaving { self.new.leaving ≡ self.old.leaving }
        ensures asked { self.new.asked ≡ self.old.asked }
        ensures listed { OnOk result ((reads writes : List Held) (events : List SymEvent)
            → edge_words board.now microword.now (standing_of self.old.place writes events) (reading_of reading.old)
            (leaving_of leaving)
            (effect_by microword.now self.old.place.decided) self.new.place.at (list_of terms.old.ops words.old reads)
            ≡ record {
              list = list_of terms.new.ops words.new reads;
              standing =
                  standing_after microword.now self.old.place self.new.place (reading_of reading.old) writes events;
            }) }
        ensures grew { OnOk result (Grew terms.old terms.new words.old words.new) }
    {
        take_edge(
            alloc,
            board,
            microword,
            &mut self.place,
            reading,
            leaving,
            terms,
            words,
        )
    }

    /// The edge, and what the outside sees: an input that is taken hides an output. All bits of the cycle are decided.
    fn finish(
        &mut self,
        alloc: Global,
        board: &Board,
        store: &Store,
        terms: &mut Written,
        words: &mut Words,
        memory: &mut SymMemory,
    ) -> Result<(), NoMemory>
        requires idle { self.old.asked ≡ None }
        requires map { terms.old.map ≡ board.now.map_entries }
        requires address { memory.old.address ≡ board.now.address }
        requires word { memory.old.word ≡ board.now.width }
        requires cycles { self.old.place.cycle + 1 < 2 ^ 32 }
        requires inputs { self.old.place.taken + 1 < 2 ^ 32 }
        requires workspace { IsWorkspace terms.old words.old memory.old }
        requires symbolic { IsSymbolic board.now store.now.words terms.old words.old memory.old self.old }
        requires begun { (reading : Reading) × (self.old.reading ≡ Some reading) }
        requires leaving { (leaving : Leaving) × (self.old.leaving ≡ Some leaving) }
        requires all { length self.old.place.decided
            ≡ bits_before (microword_of board.now store.now.words self.old.place) + 12 }
        ensures done { OnOk result ((given : Given) (x : Scene)
            → IsSeen board.now store.now.words terms.new words.new memory.old self.old.place given x
            → IsDone board.now store.now.words terms.new words.new memory.old memory.new self.old self.new given x) }
        ensures asked { OnOk result (self.new.asked ≡ None) }
        ensures decided { OnOk result (self.new.place.decided ≡ []) }
        ensures side { OnOk result (self.new.place.side ≡ self.old.place.side) }
        ensures line { OnOk result (self.new.place.line ≡ None) }
        ensures cycle { OnOk result (self.new.place.cycle ≡ self.old.place.cycle + 1) }
        ensures inputs { OnOk result (self.new.place.taken ≤ self.old.place.taken + 1) }
        ensures reads { OnOk result (memory.new.reads ≡ memory.old.reads) }
        ensures other { OnOk result (writes_of memory.new (other_side self.old.place.side)
            ≡ writes_of memory.old (other_side self.old.place.side)) }
        ensures more { OnOk result (ReadsMore memory.old memory.new) }
        ensures grew { OnOk result (Grew terms.old terms.new words.old words.new) }
        ensures workspace { OnOk result (IsWorkspace terms.new words.new memory.new) }
        ensures listed { OnOk result (Ends board.now store.now.words memory.old memory.new self.old self.new
            (list_in terms.old words.old memory.old) (list_in terms.new words.new memory.new)) }
        ensures symbolic { OnOk result (IsSymbolic board.now store.now.words terms.new words.new memory.new self.new) }
    {
        let microword = self.microword(board, store);
        let side = self.side();
        let mut reading = self.take_reading();
        let leaving = self.take_leaving();
        let mar = self.mar();
        self.edge(
            alloc,
            board,
            &microword,
            &mut reading,
            leaving,
            terms,
            words,
        )?;
        write_memory(alloc, microword.memory_write, side, mar, reading.y, memory)?;
        self.show(&microword, reading.source, reading.y)?;
        self.leave_cycle();
        Ok(())
    }

    /// One cycle more is finished, and no bit of the next one is decided.
    fn leave_cycle(&mut self)
        requires { self.old.place.cycle + 1 < 2 ^ 32 }
        ensures { self.new ≡ cycle_left self.old }
    {
        self.place.cycle += 1;
        self.place.line = None;
        self.place.decided = Path::new();
    }

    /// What the outside sees of a cycle: an input that is taken hides an output.
    fn show(&mut self, microword: &Microword, source: Term, y: Term) -> Result<(), NoMemory>
        requires { self.old.place.taken + 1 < 2 ^ 32 }
        ensures shown { OnOk result (self.new ≡ shown_by microword.now.d.from microword.now.out source y self.old) }
    {
        if microword.d.from == DFrom::Input {
            self.events.push(SymEvent::Taken(source))?;
            self.place.taken += 1;
        } else if microword.out {
            self.events.push(SymEvent::Out(y))?;
        }
        Ok(())
    }

    /// Goes on to the next decided bit, or to the end of the cycle, with the board and the store that it had before. It
    /// isn't called while a bit that was asked for waits for `decide`. The table's map is the board's, the memory has
    /// the board's widths, and the numbers of cycles, base reads and inputs stay below 2^32.
    ///
    /// # Errors
    ///
    /// Memory ran out: the board, the terms, the words and the memory may only be dropped.
    pub fn sym_cycle(
        &mut self,
        alloc: Global,
        board: &Board,
        store: &Store,
        terms: &mut Written,
        words: &mut Words,
        memory: &mut SymMemory,
    ) -> Result<Turn, NoMemory>
        requires idle { self.old.asked ≡ None }
        requires map { terms.old.map ≡ board.now.map_entries }
        requires address { memory.old.address ≡ board.now.address }
        requires word { memory.old.word ≡ board.now.width }
        requires few { length memory.old.reads < 2 ^ 32 }
        requires cycles { self.old.place.cycle + 1 < 2 ^ 32 }
        requires inputs { self.old.place.taken + 1 < 2 ^ 32 }
        requires workspace { IsWorkspace terms.old words.old memory.old }
        requires symbolic { IsSymbolic board.now store.now.words terms.old words.old memory.old self.old }
        ensures turn { IfOk result
            (IsTurn board.now store.now.words terms.new words.new memory.old memory.new self.old self.new) }
        ensures goes { OnOk result (GoesOn (IsCycleKind self.old.place.side self.old.place.cycle self.old.place.taken
            self.old.place.line) terms.old terms.new words.old words.new memory.old memory.new) }
        ensures reads { OnOk result (length memory.new.reads ≤ length memory.old.reads + reads_to_come self.old) }
        ensures other { OnOk result (writes_of memory.new (other_side self.old.place.side)
            ≡ writes_of memory.old (other_side self.old.place.side)) }
        ensures all { IfOk result (λ turn. turn ≡ Finished
            → length self.old.place.decided
            ≡ bits_before (microword_of board.now store.now.words self.old.place) + 12) }
        ensures listed { IfOk result (ListsTurn board.now store.now.words memory.old memory.new self.old self.new
            (list_in terms.old words.old memory.old) (list_in terms.new words.new memory.new)) }
        ensures symbolic { OnOk result (IsSymbolic board.now store.now.words terms.new words.new memory.new self.new) }
    {
        self.begin(alloc, board, store, terms, words, memory)?;
        let before = bits_before(&self.microword(board, store));
        let known = self.known();
        if known < before {
            let turn = self.ask_test(alloc, board, store, terms, words, memory)?;
            return Ok(turn);
        }
        self.prepare(alloc, board, store, terms, words, memory)?;
        if known < before + 12 {
            let turn = self.ask_next(alloc, board, store, terms, words, memory)?;
            return Ok(turn);
        }
        self.finish(alloc, board, store, terms, words, memory)?;
        Ok(Turn::Finished)
    }

    /// One decided bit more.
    fn add_decided(&mut self, kind: DecidedKind, value: bool)
        requires { length self.old.place.decided < 14 }
        ensures { self.new ≡ decided_so self.old kind value }
    {
        self.place.decided.push(Decided { kind, value });
        self.asked = None;
    }

    /// Gives the bit that was asked for last. The last turn was `Ask`.
    pub fn decide(&mut self, value: bool)
        requires asked { (kind : DecidedKind) × (self.old.asked ≡ Some kind) }
        requires few { length self.old.place.decided < 14 }
        ensures new { (kind : DecidedKind) → self.old.asked ≡ Some kind → self.new ≡ decided_so self.old kind value }
        ensures symbolic { (board : BoardParts) (store : List ℕ) (t : Table) (words : List Word) (m : Memory)
            (kind : DecidedKind) (term : ℕ)
            → Asks board store t words m self.old kind term → IsSymbolic board store t words m self.old
            → IsSymbolic board store t words m self.new }
    {
        if let Some(kind) = self.asked {
            self.add_decided(kind, value);
        }
    }

    /// The term of an element of the board, by its number, from 0, in the order of the table of elements
    /// ([`Board::element_name`]).
    pub fn element(&self, board: &Board, element: u32) -> Term
        requires there { element < element_count board.now }
        requires parts { (t : Table) × AreParts board.now t self.now.place.parts }
        ensures { result ≡ term_of_part self.now.place.parts (element_of board.now element) }
    {
        self.place
            .parts
            .term(board, element_of(board, element as usize))
    }

    /// How many cycles are finished.
    pub fn cycles(&self) -> u32
        ensures { result ≡ self.now.place.cycle }
    {
        self.place.cycle
    }

    /// The control address.
    pub fn at(&self) -> u16
        ensures { result ≡ self.now.place.at }
    {
        self.place.at
    }

    /// The stack pointer.
    pub fn sp(&self) -> u8
        ensures { result ≡ self.now.place.sp }
    {
        self.place.sp
    }

    /// The events so far, in the order of their cycles.
    pub fn events(&self) -> &[SymEvent]
        ensures { result.now ≡ self.now.events }
    {
        &self.events
    }
}
