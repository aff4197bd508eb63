// `call cycle noise= line= input=`: one cycle of the board of the file `board`, whose microwords stand in the file
// `store`, from the state of the file `state`. The state after it, and its nets, a line each.
ghost use Rattle.std.specs.Prelude.{◌<◌};

use mw_board::{Board, Store};
use mw_cycle::{CycleIn, State, Whole, cycle};
use mw_rowfile::states::{board_of, given_of, state_of, store_of};
use mw_rowfile::{Fault, File, Report, texts, wrong};
use std::alloc::Global;

/// Makes one cycle, and appends the state after it and its nets.
fn push_cycled(
    report: &mut Report,
    board: &Board,
    store: &Store,
    state: &mut State,
    given: CycleIn,
) -> Result<(), Fault> {
    if !state.fits(board) || u64::from(given.input) >= 1 << board.width().bits() {
        return Err(wrong("the state or the input doesn't fit the board"));
    }
    let nets = cycle(&Whole, board, store, state, given);
    texts::push_state(report, state);
    report.push(b"\n");
    texts::push_nets(report, &nets);
    report.push(b"\n");
    Ok(())
}

/// Appends the same from the state of the file `state`, with these microwords.
fn push_from_state(
    alloc: Global,
    report: &mut Report,
    board: &Board,
    store: &Store,
    files: &[File],
    given: CycleIn,
) -> Result<(), Fault> {
    let mut state = state_of(alloc, board, files)?;
    let outcome = push_cycled(report, board, store, &mut state, given);
    drop(state);
    outcome
}

/// Appends the same of this board.
fn push_on_board(
    alloc: Global,
    report: &mut Report,
    board: &Board,
    files: &[File],
    given: CycleIn,
) -> Result<(), Fault> {
    let store = store_of(alloc, files)?;
    let outcome = push_from_state(alloc, report, board, &store, files, given);
    drop(store);
    outcome
}

/// Appends the state after the cycle of the words `noise=`, `line=` and `input=`, and its nets, a line each.
///
/// # Errors
///
/// Words or files that aren't what the call reads, a state or an input that doesn't fit the board, and want of memory.
pub fn run(
    alloc: Global,
    report: &mut Report,
    given: &[String],
    files: &[File],
) -> Result<(), Fault> {
    let given = given_of(given)?;
    let board = board_of(alloc, files, "board")?;
    let outcome = push_on_board(alloc, report, &board, files, given);
    drop(board);
    outcome
}
