// `call symbolic noise= line= input=`: the cycle that `call cycle` makes, of a symbolic board whose elements are
// variables. The variables have the values of the state, of the outside and of the memory, and each bit that the board
// asks for has the value of its term. The state after the cycle; and the event of the cycle and its decided bits, each
// by what it says. `call cycle-words noise= line= input=`: the words that this cycle adds. Before it there are a
// variable for an address of the memory and one for each element, by their numbers. `call symbolic-beside` and `call
// cycle-words-beside` are the same of a board beside another: the line of its cycle is a variable that there is already,
// with the number behind those of its elements.
ghost use Rattle.mw_cycle.specs.State.{Fits};
ghost use Rattle.mw_term.specs.Table.{Table};
ghost use Rattle.mw_symboard.specs.Parts.{AreParts};
ghost use Rattle.mw_symrows.specs.Runs.{IsIdle, IsOver, IsUnder};

use crate::listed::push_words;
use crate::valued::{SymbolicStop, numbered, value};
use crate::workspace::{Bit, Outside, Run, Stands, assign, assign_line, element};
use mw_base::Event;
use mw_board::{Board, Store};
use mw_cycle::{CycleIn, Element, State, element_of};
use mw_rowfile::states::{board_of, given_of, state_of, store_of};
use mw_rowfile::{Fault, File, Report, texts, wrong};
use mw_symboard::SymBoard;
use mw_symmem::SymEvent;
use mw_term::{Assignment, DecidedKind, Written};
use std::alloc::Global;

/// What is printed of a cycle.
#[derive(Clone, Copy)]
enum Printed {
    /// The state after it, its event and its decided bits.
    State,
    /// The words that it adds.
    Words,
}

/// What a call asks for.
#[derive(Clone, Copy)]
struct Asked {
    given: CycleIn,
    stands: Stands,
    printed: Printed,
}

/// Whether the memory after a cycle is read at an address: where there was a word that isn't 0, at the address
/// register, and where one bit differs from it.
fn is_read(place: usize, word: u32, mar: u32) -> bool {
    match u32::try_from(place) {
        Ok(place) => word != 0 || (place ^ mar).count_ones() < 2,
        Err(_) => false,
    }
}

/// Appends the words of the memory after the cycle that aren't 0.
fn push_memory(
    alloc: Global,
    report: &mut Report,
    board: &Board,
    state: &State,
    run: &mut Run,
    given: &mut Assignment,
) -> Result<(), SymbolicStop>
    requires { IsOver board.now run.old.terms run.old.words run.old.memory run.old.board }
{
    let read = run.read(alloc, board)?;
    for (place, &word) in state.memory.iter().enumerate() {
        let after = if is_read(place, word, state.mar) {
            run.word(alloc, numbered(place)?, word, read, given)?
        } else {
            word
        };
        texts::push_memory_word(report, place, after);
    }
    Ok(())
}

/// The flip-flops so far, and the place of the next one.
#[derive(Clone, Copy)]
struct Flips {
    so_far: u32,
    next: u32,
}

impl Flips {
    /// Takes one more.
    fn take(&mut self, value: u32) {
        self.so_far = self.so_far.wrapping_add(self.next.wrapping_mul(value));
        self.next = self.next.wrapping_mul(2);
    }
}

/// Appends a register, unless it is 0.
fn push_register(report: &mut Report, number: u8, value: u32) {
    if value != 0 {
        report.push(b" r");
        report.push_decimal(u64::from(number));
        report.push_named(b"=", u64::from(value));
    }
}

/// Appends the flip-flops so far and PC, which comes behind them.
fn push_pc(report: &mut Report, flips: u32, value: u32) {
    report.push_named(b" flips=", u64::from(flips));
    report.push_named(b" pc=", u64::from(value));
}

/// Appends a word of the stack. The pointer stands before the first one.
fn push_stack_word(report: &mut Report, number: u8, value: u32, pointer: u8) {
    if number == 0 {
        report.push_named(b" sp=", u64::from(pointer));
        report.push_named(b" stack=", u64::from(value));
    } else {
        report.push_named(b",", u64::from(value));
    }
}

/// Appends an element, or puts it to the flip-flops, which are printed as one. The elements come in the order of their
/// numbers.
fn push_element(report: &mut Report, flips: &mut Flips, element: Element, value: u32, pointer: u8) {
    match element {
        Element::Register(number) => push_register(report, number, value),
        Element::Q => report.push_named(b" q=", u64::from(value)),
        Element::Mar => report.push_named(b" mar=", u64::from(value)),
        Element::Ir => report.push_named(b" ir=", u64::from(value)),
        Element::FlipFlop(_) => flips.take(value),
        Element::Pc => push_pc(report, flips.so_far, value),
        Element::R => report.push_named(b" r=", u64::from(value)),
        Element::StackWord(number) => push_stack_word(report, number, value, pointer),
    }
}

/// Appends the control address, the elements and the stack pointer of a symbolic board over these terms.
fn push_elements(
    alloc: Global,
    report: &mut Report,
    board: &Board,
    terms: &Written,
    symbolic: &SymBoard,
    given: &Assignment,
) -> Result<(), SymbolicStop>
    requires { (t : Table) × AreParts board.now t symbolic.now.place.parts }
{
    let pointer = symbolic.sp();
    report.push_named(b"at=", u64::from(symbolic.at()));
    let mut flips = Flips { so_far: 0, next: 1 };
    for number in 0..board.element_count() {
        let value = element(alloc, board, terms, symbolic, numbered(number)?, given)?;
        push_element(
            report,
            &mut flips,
            element_of(board, number),
            value,
            pointer,
        );
    }
    Ok(())
}

/// The event of the cycle.
fn event_of(alloc: Global, run: &Run, given: &Assignment) -> Result<Option<Event>, SymbolicStop> {
    match run.board.events() {
        [] => Ok(None),
        [SymEvent::Out(term)] => Ok(Some(Event::Out(value(alloc, &run.terms, *term, given)?))),
        [SymEvent::Taken(term)] => Ok(Some(Event::Taken(value(alloc, &run.terms, *term, given)?))),
        _ => Err(SymbolicStop::Unlike),
    }
}

/// Appends decided bits, each with a blank before it.
fn push_bits(report: &mut Report, bits: &[Bit]) -> Result<(), SymbolicStop> {
    for bit in bits {
        report.push(b" ");
        match bit.kind {
            DecidedKind::Pass => report.push(b"pass"),
            DecidedKind::CounterZero => report.push(b"zero"),
            DecidedKind::Next(number) => report.push_decimal(u64::from(number)),
            DecidedKind::Branch => return Err(SymbolicStop::Unlike),
        }
        report.push_named(b":", u64::from(bit.value));
    }
    Ok(())
}

/// Appends the lines of the state after a cycle, its event and its decided bits.
fn push_state(
    alloc: Global,
    report: &mut Report,
    board: &Board,
    state: &State,
    run: &mut Run,
    given: &mut Assignment,
    bits: &[Bit],
) -> Result<(), SymbolicStop>
    requires { IsOver board.now run.old.terms run.old.words run.old.memory run.old.board }
{
    let event = event_of(alloc, run, given)?;
    push_elements(alloc, report, board, &run.terms, &run.board, given)?;
    push_memory(alloc, report, board, state, run, given)?;
    report.push(b"\nevent=");
    texts::push_event(report, event);
    push_bits(report, bits)?;
    report.push(b"\n");
    Ok(())
}

/// Appends the cycle of a symbolic board, where variables have the values of a state.
fn push_cycle(
    alloc: Global,
    report: &mut Report,
    board: &Board,
    store: &Store,
    state: &State,
    asked: Asked,
    run: &mut Run,
    given: &mut Assignment,
) -> Result<(), SymbolicStop>
    requires fits { Fits board.now state.now }
    requires under { IsUnder board.now store.now.words run.old.terms run.old.words run.old.memory run.old.board }
    requires idle { IsIdle run.old.board 0 }
{
    let outside = outside_of(state, asked.given);
    let first = run.words.count();
    assign(alloc, board, state, &run.words, given)?;
    assign_line(alloc, board, asked.given.line, &run.words, given)?;
    let mut bits = Vec::new(alloc);
    run.cycle(alloc, board, store, outside, given, &mut bits)?;
    match asked.printed {
        Printed::State => push_state(alloc, report, board, state, run, given, &bits),
        Printed::Words => push_words(report, &run.terms, &run.words, first),
    }
}

/// Appends the cycle of a symbolic board that is made from a state.
fn push_run(
    alloc: Global,
    report: &mut Report,
    board: &Board,
    store: &Store,
    state: &State,
    asked: Asked,
    run: &mut Run,
) -> Result<(), SymbolicStop>
    requires fits { Fits board.now state.now }
    requires under { IsUnder board.now store.now.words run.old.terms run.old.words run.old.memory run.old.board }
    requires idle { IsIdle run.old.board 0 }
{
    let mut given = Assignment::new(alloc);
    let outcome = push_cycle(alloc, report, board, store, state, asked, run, &mut given);
    drop(given);
    outcome
}

/// What the outside has, with the word of the memory at the address register.
fn outside_of(state: &State, given: CycleIn) -> Outside {
    let word = match usize::try_from(state.mar) {
        Ok(place) => state.memory.get(place).copied().unwrap_or(0),
        Err(_) => 0,
    };
    Outside { given, word }
}

/// Makes one cycle from a state that fits the board.
fn push_fitting(
    alloc: Global,
    report: &mut Report,
    board: &Board,
    store: &Store,
    state: &State,
    asked: Asked,
) -> Result<(), SymbolicStop>
    requires { Fits board.now state.now }
{
    let mut run = Run::new(alloc, board, state, asked.stands)?;
    let outcome = push_run(alloc, report, board, store, state, asked, &mut run);
    drop(run);
    outcome
}

/// Makes one cycle from a state.
fn push_cycled(
    alloc: Global,
    report: &mut Report,
    board: &Board,
    store: &Store,
    state: &State,
    asked: Asked,
) -> Result<(), Fault> {
    if !state.fits(board) || u64::from(asked.given.input) >= 1 << board.width().bits() {
        return Err(wrong("the state or the input doesn't fit the board"));
    }
    push_fitting(alloc, report, board, store, state, asked)?;
    Ok(())
}

/// The same from the state of the file `state`.
fn push_from_state(
    alloc: Global,
    report: &mut Report,
    board: &Board,
    store: &Store,
    files: &[File],
    asked: Asked,
) -> Result<(), Fault> {
    let state = state_of(alloc, board, files)?;
    let outcome = push_cycled(alloc, report, board, store, &state, asked);
    drop(state);
    outcome
}

/// The same of this board, with the microwords of the file `store`.
fn push_on_board(
    alloc: Global,
    report: &mut Report,
    board: &Board,
    files: &[File],
    asked: Asked,
) -> Result<(), Fault> {
    let store = store_of(alloc, files)?;
    let outcome = push_from_state(alloc, report, board, &store, files, asked);
    drop(store);
    outcome
}

/// The same of the board of the file `board`.
fn push_lines(
    alloc: Global,
    report: &mut Report,
    files: &[File],
    asked: Asked,
) -> Result<(), Fault> {
    let board = board_of(alloc, files, "board")?;
    let outcome = push_on_board(alloc, report, &board, files, asked);
    drop(board);
    outcome
}

/// Appends what a call with the words `noise=`, `line=` and `input=` asks for.
fn push_asked(
    alloc: Global,
    report: &mut Report,
    given: &[String],
    files: &[File],
    stands: Stands,
    printed: Printed,
) -> Result<(), Fault> {
    let given = given_of(given)?;
    let asked = Asked {
        given,
        stands,
        printed,
    };
    push_lines(alloc, report, files, asked)
}

/// Appends the state after the cycle of the words `noise=`, `line=` and `input=`, and its event and its decided bits.
///
/// # Errors
///
/// Words or files that aren't what the call reads, a state or an input that doesn't fit the board, and want of memory.
pub fn run(
    alloc: Global,
    report: &mut Report,
    given: &[String],
    files: &[File],
) -> Result<(), Fault> {
    push_asked(alloc, report, given, files, Stands::Alone, Printed::State)
}

/// The same of a board beside another, whose first line is a variable that there is already.
///
/// # Errors
///
/// As `run`.
pub fn run_beside(
    alloc: Global,
    report: &mut Report,
    given: &[String],
    files: &[File],
) -> Result<(), Fault> {
    push_asked(alloc, report, given, files, Stands::Beside, Printed::State)
}

/// Appends the words that this cycle adds.
///
/// # Errors
///
/// As `run`.
pub fn words(
    alloc: Global,
    report: &mut Report,
    given: &[String],
    files: &[File],
) -> Result<(), Fault> {
    push_asked(alloc, report, given, files, Stands::Alone, Printed::Words)
}

/// The same of a board beside another.
///
/// # Errors
///
/// As `run`.
pub fn words_beside(
    alloc: Global,
    report: &mut Report,
    given: &[String],
    files: &[File],
) -> Result<(), Fault> {
    push_asked(alloc, report, given, files, Stands::Beside, Printed::Words)
}
