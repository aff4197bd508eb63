// A symbolic board with what it works on, and its cycles.
ghost use Rattle.std.specs.Prelude.{◌≡◌, ◌≤◌, ◌<◌, ◌+◌, ◌^◌, ℕ, List, [], None, Some, length, IfOk, OnOk, IsTrue};
ghost use Rattle.mw_board.specs.Depth.{depth_of};
ghost use Rattle.mw_board.specs.Elements.{element_count};
ghost use Rattle.mw_cycle.specs.Elements.{bits_of, element_of};
ghost use Rattle.mw_cycle.specs.State.{Fits};
ghost use Rattle.mw_term.specs.Table as tables;
ghost use Rattle.mw_term.specs.Table.{IsTable, IsWidth, Table};
ghost use Rattle.mw_term.specs.declared.word.Word.{Word};
ghost use Rattle.mw_symmem.specs.Memory.{IsMemory, IsOfWidth, Memory};
ghost use Rattle.mw_symmem.specs.Words.{AreOf};
ghost use Rattle.mw_symmem.specs.Workspace.{IsLater};
ghost use Rattle.mw_symboard.specs.Parts.{AreElements, AreParts};
ghost use Rattle.mw_symboard.specs.Turns.{Asks, IsSymbolic};
ghost use Rattle.mw_symrows.specs.Runs.{AreFree, AreSoFar, IsFreeKind, IsIdle, IsOver, IsTurned, IsUnder};

use crate::valued::{SymbolicStop, is_of_width, numbered, set, value};
use mw_board::{Board, Store};
use mw_cycle::{CycleIn, Element, State, element_of};
use mw_symboard::SymBoard;
use mw_symmem::{Side, SymMemory, Turn, Words, are_of_at_first, is_memory_at_first};
use mw_term::{Assignment, DecidedKind, Term, WordKind, Written};
use std::alloc::Global;

/// A symbolic board with what it works on.
#[derive(Drop)]
pub struct Run {
    /// The terms that were written.
    pub terms: Written,
    /// The words of the cycle.
    pub words: Words,
    /// The memory.
    pub memory: SymMemory,
    /// The board.
    pub board: SymBoard,
    /// Whose side of the memory the board reads and writes.
    pub(crate) side: Side,
}

/// Whether a board stands alone, or beside another, which has the line of its first cycle already.
#[derive(Clone, Copy)]
pub enum Stands {
    /// Alone.
    Alone,
    /// Beside another.
    Beside,
}

/// The number of the variable that stands for the line of a board's first cycle where it stands beside another: the one
/// behind those of its elements.
fn line_number(board: &Board) -> Result<u32, SymbolicStop> {
    numbered(board.element_count())
}

/// How many bits an element of a board has.
pub(crate) fn bits_of(board: &Board, element: Element) -> u8
    ensures exact { result ≡ bits_of board.now element }
    ensures range { IsWidth result }
{
    let parts = board.parts();
    match element {
        Element::Register(_) | Element::Q | Element::Ir => parts.width,
        Element::Mar => parts.address,
        Element::FlipFlop(_) => 1,
        Element::Pc | Element::R | Element::StackWord(_) => 12,
    }
}

/// A variable of a kind that isn't there yet.
pub(crate) fn variable(
    alloc: Global,
    kind: WordKind,
    width: u8,
    terms: &mut Written,
    words: &mut Words,
) -> Result<Term, SymbolicStop>
    requires kind { IsFreeKind kind }
    requires width { IsWidth width }
    requires of { AreOf terms.old words.old }
    requires free { AreFree words.old }
    ensures wide { IfOk result (IsOfWidth terms.new width) }
    ensures later { OnOk result (IsLater terms.old terms.new) }
    ensures of { OnOk result (AreOf terms.new words.new) }
    ensures free { OnOk result (AreFree words.new) }
{
    if words.find(kind).is_some() {
        return Err(SymbolicStop::Unlike);
    }
    let term = words.fresh(alloc, terms, kind, width)?;
    Ok(term)
}

/// One variable more, for the element of this number.
fn push_variable(
    alloc: Global,
    board: &Board,
    number: usize,
    terms: &mut Written,
    words: &mut Words,
    elements: &mut Vec<Term>,
) -> Result<(), SymbolicStop>
    requires there { number < element_count board.now }
    requires count { length elements.old.items ≡ number }
    requires so_far { AreSoFar board.now terms.old number elements.old.items }
    requires of { AreOf terms.old words.old }
    requires free { AreFree words.old }
    ensures count { OnOk result (length elements.new.items ≡ number + 1) }
    ensures so_far { OnOk result (AreSoFar board.now terms.new (number + 1) elements.new.items) }
    ensures later { OnOk result (IsLater terms.old terms.new) }
    ensures of { OnOk result (AreOf terms.new words.new) }
    ensures free { OnOk result (AreFree words.new) }
{
    let width = bits_of(board, element_of(board, number));
    let kind = WordKind::Element(numbered(number)?);
    let term = variable(alloc, kind, width, terms, words)?;
    elements.push(term)?;
    Ok(())
}

/// A variable for each element of a board, by their numbers.
fn make_elements(
    alloc: Global,
    board: &Board,
    terms: &mut Written,
    words: &mut Words,
) -> Result<Vec<Term>, SymbolicStop>
    requires table { IsTable terms.old }
    requires of { AreOf terms.old words.old }
    requires free { AreFree words.old }
    ensures count { IfOk result (λ v. length v.items ≡ element_count board.now) }
    ensures elements { IfOk result (λ v. AreElements board.now terms.new v.items) }
    ensures later { OnOk result (IsLater terms.old terms.new) }
    ensures of { OnOk result (AreOf terms.new words.new) }
    ensures free { OnOk result (AreFree words.new) }
{
    let mut elements = Vec::new(alloc);
    for number in 0..board.element_count() {
        push_variable(alloc, board, number, terms, words, &mut elements)?;
    }
    Ok(elements)
}

/// A variable for the line of the first cycle, where the board stands beside another.
fn make_line(
    alloc: Global,
    board: &Board,
    stands: Stands,
    terms: &mut Written,
    words: &mut Words,
) -> Result<Option<Term>, SymbolicStop>
    requires table { IsTable terms.old }
    requires of { AreOf terms.old words.old }
    requires free { AreFree words.old }
    ensures wide { IfOk result (λ line. (term : ℕ) → line ≡ Some term → IsOfWidth terms.new 1 term) }
    ensures later { OnOk result (IsLater terms.old terms.new) }
    ensures of { OnOk result (AreOf terms.new words.new) }
    ensures free { OnOk result (AreFree words.new) }
{
    match stands {
        Stands::Alone => Ok(None),
        Stands::Beside => {
            let kind = WordKind::Element(line_number(board)?);
            let line = variable(alloc, kind, 1, terms, words)?;
            Ok(Some(line))
        }
    }
}

/// A board at a control address, with so many words on its stack and these terms for its elements: alone, or beside
/// another where there is a term for the line of its first cycle.
fn standing(
    alloc: Global,
    board: &Board,
    address: u16,
    sp: u8,
    elements: &[Term],
    line: Option<Term>,
) -> Result<SymBoard, SymbolicStop>
    requires count { length elements.now ≡ element_count board.now }
    ensures cycle { IfOk result (λ b. b.place.cycle ≡ 0) }
    ensures taken { IfOk result (λ b. b.place.taken ≡ 0) }
    ensures asked { IfOk result (λ b. b.asked ≡ None) }
    ensures symbolic { IfOk result (λ b. (store : List ℕ) (t : Table) (words : List Word) (m : Memory)
        → address < 2 ^ 12 → sp ≤ depth_of board.now → AreElements board.now t elements.now
        → ((term : ℕ) → line ≡ Some term → IsOfWidth t 1 term) → AreFree words
        → IsSymbolic board.now store t words m b) }
{
    match line {
        None => {
            let made = SymBoard::new(alloc, board, address, sp, elements)?;
            Ok(made)
        }
        Some(line) => {
            let made = SymBoard::beside(alloc, board, address, sp, elements, line)?;
            Ok(made)
        }
    }
}

/// Whose side of the memory a board has that stands so.
fn side_of(stands: Stands) -> Side {
    match stands {
        Stands::Alone => Side::Board,
        Stands::Beside => Side::Machine,
    }
}

/// A table with the board's map, and without terms.
pub(crate) fn no_terms(alloc: Global, board: &Board) -> Result<Written, SymbolicStop>
    ensures exact { IfOk result (λ terms. terms ≡ tables.table_of [] board.now.map_entries) }
    ensures table { IfOk result (λ terms. IsTable terms) }
{
    let terms = Written::new(alloc, board.parts().map_entries.as_slice())?;
    Ok(terms)
}

/// What the outside has for a cycle, and the memory at the address register.
#[derive(Clone, Copy)]
pub struct Outside {
    /// Line, noise and input.
    pub given: CycleIn,
    /// The word of the memory.
    pub word: u32,
}

/// Gives the variables that a first cycle makes their values.
fn set_outside(
    alloc: Global,
    given: &mut Assignment,
    words: &Words,
    outside: Outside,
) -> Result<(), SymbolicStop> {
    let CycleIn { noise, line, input } = outside.given;
    set(alloc, given, words, WordKind::Line(0), u32::from(line))?;
    set(alloc, given, words, WordKind::Noise(0), u32::from(noise))?;
    set(
        alloc,
        given,
        words,
        WordKind::BesideNoise(0),
        u32::from(noise),
    )?;
    set(alloc, given, words, WordKind::Input(0), input)?;
    set(alloc, given, words, WordKind::Base(0), outside.word)
}

/// Gives the variable of each element the element's value.
///
/// # Errors
///
/// Want of memory.
pub fn assign(
    alloc: Global,
    board: &Board,
    state: &State,
    words: &Words,
    given: &mut Assignment,
) -> Result<(), SymbolicStop>
    requires { Fits board.now state.now }
{
    for number in 0..board.element_count() {
        let kind = WordKind::Element(numbered(number)?);
        let value = state.element(board, number);
        set(alloc, given, words, kind, value)?;
    }
    Ok(())
}

/// Gives the line of the first cycle its value, where a variable stood for it before.
///
/// # Errors
///
/// Want of memory.
pub fn assign_line(
    alloc: Global,
    board: &Board,
    line: bool,
    words: &Words,
    given: &mut Assignment,
) -> Result<(), SymbolicStop> {
    let kind = WordKind::Element(line_number(board)?);
    set(alloc, given, words, kind, u32::from(line))
}

/// A decided bit: what it says, and its value.
#[derive(Clone, Copy)]
pub struct Bit {
    /// What it says.
    pub kind: DecidedKind,
    /// Its value.
    pub value: bool,
}

impl Run {
    /// A board at a state's control address and stack pointer, with a variable for each of its elements. It has a
    /// variable for an address of the memory too, and where it stands beside another one for the line of its first cycle.
    ///
    /// # Errors
    ///
    /// Memory ran out.
    pub fn new(
        alloc: Global,
        board: &Board,
        state: &State,
        stands: Stands,
    ) -> Result<Run, SymbolicStop>
        requires { Fits board.now state.now }
        ensures under { IfOk result
            (λ run. (store : List ℕ) → IsUnder board.now store run.terms run.words run.memory run.board) }
        ensures idle { IfOk result (λ run. IsIdle run.board 0) }
    {
        are_of_at_first();
        let mut terms = no_terms(alloc, board)?;
        let mut words = Words::new(alloc);
        let address = board.parts().address;
        variable(alloc, WordKind::Probe, address, &mut terms, &mut words)?;
        let line = make_line(alloc, board, stands, &mut terms, &mut words)?;
        let elements = make_elements(alloc, board, &mut terms, &mut words)?;
        let side = side_of(stands);
        Run::over(alloc, board, state, terms, words, &elements, line, side)
    }

    /// The same over these terms for the elements, by their numbers, and for the line of the first cycle, on this
    /// side of the memory.
    ///
    /// # Errors
    ///
    /// Memory ran out.
    pub fn over(
        alloc: Global,
        board: &Board,
        state: &State,
        terms: Written,
        words: Words,
        elements: &[Term],
        line: Option<Term>,
        side: Side,
    ) -> Result<Run, SymbolicStop>
        requires fits { Fits board.now state.now }
        requires count { length elements.now ≡ element_count board.now }
        requires elements { AreElements board.now terms elements.now }
        requires line { (term : ℕ) → line ≡ Some term → IsOfWidth terms 1 term }
        requires map { terms.map ≡ board.now.map_entries }
        requires table { IsTable terms }
        requires of { AreOf terms words }
        requires free { AreFree words }
        ensures under { IfOk result
            (λ run. (store : List ℕ) → IsUnder board.now store run.terms run.words run.memory run.board) }
        ensures idle { IfOk result (λ run. IsIdle run.board 0) }
    {
        is_memory_at_first();
        let parts = board.parts();
        let symbolic = standing(alloc, board, state.at, state.seq.sp, elements, line)?;
        Ok(Run {
            terms,
            words,
            memory: SymMemory::new(alloc, parts.address, parts.width),
            board: symbolic,
            side,
        })
    }

    /// Whether at most 1,000 base words were read.
    pub(crate) fn has_few_reads(&self) -> bool
        requires { IsMemory self.now.terms self.now.words self.now.memory }
        ensures { IsTrue result → length self.now.memory.reads ≤ 1000 }
    {
        match self.words.find(WordKind::Base(1000)) {
            None => true,
            Some(_) => false,
        }
    }

    /// Goes on to the next bit of the cycle, or to its end.
    fn turn(&mut self, alloc: Global, board: &Board, store: &Store) -> Result<Turn, SymbolicStop>
        requires under { IsUnder board.now store.now.words self.old.terms self.old.words
            self.old.memory self.old.board }
        requires idle { self.old.board.asked ≡ None }
        requires few { self.old.board.place.cycle < 1000 }
        ensures { IfOk result (IsTurned board.now store.now.words self.old.board.place.cycle self.new.terms
            self.new.words self.new.memory self.new.board) }
    {
        if !self.has_few_reads() {
            return Err(SymbolicStop::Unlike);
        }
        let turn = self.board.sym_cycle(
            alloc,
            board,
            store,
            &mut self.terms,
            &mut self.words,
            &mut self.memory,
        )?;
        Ok(turn)
    }

    /// Gives the bit that was asked for.
    fn decide(
        &mut self,
        _board: &Board,
        _store: &Store,
        _kind: DecidedKind,
        _term: Term,
        value: bool,
    )
        requires turned { IsUnder _board.now _store.now.words self.old.terms self.old.words
            self.old.memory self.old.board }
        requires asks { Asks _board.now _store.now.words self.old.terms self.old.words self.old.memory
            self.old.board _kind _term }
        ensures under { IsUnder _board.now _store.now.words self.new.terms self.new.words
            self.new.memory self.new.board }
        ensures idle { IsIdle self.new.board self.old.board.place.cycle }
    {
        self.board.decide(value);
    }

    /// The value of a bit that is asked for.
    fn bit(
        &self,
        alloc: Global,
        outside: Outside,
        given: &mut Assignment,
        term: Term,
    ) -> Result<bool, SymbolicStop> {
        set_outside(alloc, given, &self.words, outside)?;
        let value = value(alloc, &self.terms, term, given)?;
        Ok(value == 1)
    }

    /// Runs a cycle. Each bit that it asks for has the value of its term.
    ///
    /// # Errors
    ///
    /// A cycle that doesn't end, and want of memory.
    pub fn cycle(
        &mut self,
        alloc: Global,
        board: &Board,
        store: &Store,
        outside: Outside,
        given: &mut Assignment,
        bits: &mut Vec<Bit>,
    ) -> Result<(), SymbolicStop>
        requires under { IsUnder board.now store.now.words self.old.terms self.old.words
            self.old.memory self.old.board }
        requires idle { self.old.board.asked ≡ None }
        requires few { self.old.board.place.cycle < 1000 }
        ensures under { OnOk result
            (IsUnder board.now store.now.words self.new.terms self.new.words self.new.memory self.new.board) }
        ensures idle { OnOk result (IsIdle self.new.board (self.old.board.place.cycle + 1)) }
        ensures over { OnOk result (IsOver board.now self.new.terms self.new.words self.new.memory self.new.board) }
    {
        for _ in 0..15 {
            let turn = self.turn(alloc, board, store)?;
            let Turn::Ask { kind, term } = turn else {
                return Ok(());
            };
            let value = self.bit(alloc, outside, given, term)?;
            bits.push(Bit { kind, value })?;
            self.decide(board, store, kind, term, value);
        }
        Err(SymbolicStop::Unlike)
    }

    /// Reads the board's memory at the variable of an address.
    ///
    /// # Errors
    ///
    /// There is no such variable, and want of memory.
    pub fn read(&mut self, alloc: Global, board: &Board) -> Result<Term, SymbolicStop>
        requires { IsOver board.now self.old.terms self.old.words self.old.memory self.old.board }
    {
        let Some(probe) = self.words.find(WordKind::Probe) else {
            return Err(SymbolicStop::Unlike);
        };
        if !self.has_few_reads() || !is_of_width(&self.terms, board.parts().address, probe) {
            return Err(SymbolicStop::Unlike);
        }
        let term = self
            .memory
            .read(alloc, self.side, probe, &mut self.terms, &mut self.words)?;
        Ok(term)
    }

    /// What the board's memory has at an address, where this word was before the cycle, by the term of a read.
    ///
    /// # Errors
    ///
    /// Want of memory.
    pub fn word(
        &self,
        alloc: Global,
        address: u32,
        word: u32,
        read: Term,
        given: &mut Assignment,
    ) -> Result<u32, SymbolicStop> {
        let last = u32::from(self.words.find(WordKind::Base(1)).is_some());
        set(alloc, given, &self.words, WordKind::Probe, address)?;
        set(alloc, given, &self.words, WordKind::Base(last), word)?;
        value(alloc, &self.terms, read, given)
    }
}

/// The value of an element of a symbolic board over these terms.
///
/// # Errors
///
/// Want of memory.
pub fn element(
    alloc: Global,
    board: &Board,
    terms: &Written,
    symbolic: &SymBoard,
    number: u32,
    given: &Assignment,
) -> Result<u32, SymbolicStop>
    requires parts { (t : Table) × AreParts board.now t symbolic.now.place.parts }
    requires there { number < element_count board.now }
{
    value(alloc, terms, symbolic.element(board, number), given)
}
