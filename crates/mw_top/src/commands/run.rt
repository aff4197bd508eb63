// run: a board file, a microprogram for its board, and an environment in which the board runs.
ghost use Rattle.std.specs.Prelude.{◌≡◌, ◌+◌, ◌<◌, ◌≤◌, ◌^◌, ◌++◌, [], IfOk, OnOk, length, vec_capacity, vec_len};
ghost use Rattle.std.specs.List.{flat_map};
ghost use Rattle.mw_cycle.specs.Environment.{IsEnvironment, at_start};
ghost use Rattle.mw_cycle.specs.Run.{run_of};
ghost use Rattle.mw_cycle.specs.State.{Fits};
ghost use Rattle.mw_outside.specs.Views.{IsLater, shelf_shown};
ghost use Rattle.mw_plan.specs.Steps.{Ends};
ghost use Rattle.mw_sim.specs.Run.{run_at};
ghost use Rattle.mw_top.specs.Commands.Run.{run_plan, IsRun};
ghost use Rattle.mw_sim.specs.Texts.{event_line};
ghost use Rattle.mw_top.specs.RunText.{clocks_line, run_from, run_text};

use super::Work;
use super::prepared::{Prepared, read_prepared};
use crate::fault::Fault;
use crate::outcome::Outcome;
use crate::report::{append_count_line, append_decimal_line};
use crate::status::Status;
use mw_asm::Program;
use mw_base::{Event, NoMemory};
use mw_board::{Board, Store};
use mw_cycle::{Clock, Datapath, Env, State, Whole};
use mw_outside::Shelf;
use mw_plan::{Files, Stop};
use mw_sim::{Parts, Start, append_event, append_state, run_cycles};
use std::alloc::Global;

/// What a run leaves beside the state.
struct Ran {
    /// The events, in order.
    events: Vec<Event>,
    /// How many clocks there were.
    clocks: u64,
}

/// Runs a board from its state, over an environment, by its arithmetic part. It appends the events of its cycles, in
/// order, and answers how many clocks these had.
fn run_part<A: Datapath>(
    part: &A,
    board: &Board,
    store: &Store,
    state: &mut State,
    env: &Env,
    cycles: u32,
    events: &mut Vec<Event>,
) -> u64
    requires fits { Fits board.now state.old }
    requires env_in { IsEnvironment board.now env.now }
    requires empty { events.old.items ≡ [] }
    requires room { vec_len events.old + cycles ≤ vec_capacity events.old }
    ensures state { state.new ≡ (run_of board.now store.now.words env.now state.old cycles).state }
    ensures events { events.new.items ≡ (run_of board.now store.now.words env.now state.old cycles).events }
    ensures clocks { result ≡ (run_of board.now store.now.words env.now state.old cycles).clock.clocks }
    ensures fits { Fits board.now state.new }
{
    let start = Clock::start();
    run_cycles(part, board, store, state, env, start, cycles, events).clocks
}

/// Runs a board from its state, over an environment, as its parts or as a whole.
fn run(
    alloc: Global,
    parts: bool,
    board: &Board,
    store: &Store,
    state: &mut State,
    env: &Env,
    cycles: u32,
) -> Result<Ran, NoMemory>
    requires fits { Fits board.now state.old }
    requires env_in { IsEnvironment board.now env.now }
    ensures state { OnOk result (state.new ≡ (run_of board.now store.now.words env.now state.old cycles).state) }
    ensures events { IfOk result (λ ran.
        ran.events.items ≡ (run_of board.now store.now.words env.now state.old cycles).events) }
    ensures clocks { IfOk result (λ ran.
        ran.clocks ≡ (run_of board.now store.now.words env.now state.old cycles).clock.clocks) }
    ensures fits { OnOk result (Fits board.now state.new) }
{
    let mut events = Vec::with_capacity(alloc, cycles as usize)?;
    let clocks = if parts {
        run_part(&Parts, board, store, state, env, cycles, &mut events)
    } else {
        run_part(&Whole, board, store, state, env, cycles, &mut events)
    };
    Ok(Ran { events, clocks })
}

/// Appends events, in order.
fn append_events(alloc: Global, report: &mut Vec<u8>, events: &[Event]) -> Result<(), NoMemory>
    ensures { OnOk result (report.new.items ≡ report.old.items ++ flat_map event_line events.now) }
{
    for event in events {
        append_event(alloc, report, *event)?;
    }
    Ok(())
}

/// Appends how many clocks a run had, where some of them were waits.
fn append_clocks(
    alloc: Global,
    report: &mut Vec<u8>,
    cycles: u32,
    clocks: u64,
) -> Result<(), NoMemory>
    ensures { OnOk result (report.new.items ≡ report.old.items ++ clocks_line cycles clocks) }
{
    if clocks == u64::from(cycles) {
        return Ok(());
    }
    append_count_line(alloc, report, b"clocks ", clocks)
}

/// The text of a run.
#[tactic(auto, unfolding(crate::specs::RunText::run_text))]
fn run_from(
    alloc: Global,
    program: &Program,
    start: Start,
    cycles: u32,
    parts: bool,
) -> Result<Vec<u8>, NoMemory>
    requires fits { Fits program.now.board start.state }
    requires env_in { IsEnvironment program.now.board start.env }
    ensures { IfOk result (λ text. text.items ≡ run_from (record { program = program.now; start = start }) cycles) }
{
    let Start { mut state, env } = start;
    let Ran { events, clocks } = run(
        alloc,
        parts,
        &program.board,
        &program.made.store,
        &mut state,
        &env,
        cycles,
    )?;
    let mut text = Vec::new(alloc);
    append_decimal_line(alloc, &mut text, b"cycles ", cycles)?;
    append_clocks(alloc, &mut text, cycles, clocks)?;
    append_events(alloc, &mut text, &events)?;
    append_state(alloc, &mut text, &program.board, &state)?;
    Ok(text)
}

/// Reads the board, assembles the microprogram for it, and reads the environment.
#[tactic(auto, unfolding(crate::specs::Commands::Run::run_plan))]
pub(super) fn read<S: Shelf>(
    alloc: Global,
    shelf: &mut S,
    files: &mut Files<'_, Work, Fault>,
) -> Result<Work, Stop<Fault>>
    requires three { length files.old.names ≡ 3 }
    requires none_read { files.old.contents ≡ [] }
    ensures ends { Ends run_plan (shelf_shown S.Shelf shelf.old) (shelf_shown S.Shelf shelf.new) files.new result }
    ensures names { files.new.names ≡ files.old.names }
    ensures later { IsLater (shelf_shown S.Shelf shelf.old) (shelf_shown S.Shelf shelf.new) }
{
    let prepared = read_prepared(alloc, shelf, files)?;
    Ok(Work::Run(prepared))
}

/// Runs for so many cycles, and answers with the text of the run.
pub(super) fn report(
    alloc: Global,
    prepared: Prepared,
    cycles: u32,
    parts: bool,
) -> Result<Outcome, NoMemory>
    ensures { IfOk result (λ outcome. IsRun cycles prepared outcome.status outcome.report.items) }
{
    let Prepared { program, start } = prepared;
    let report = run_from(alloc, &program, start, cycles, parts);
    drop(program);
    Ok(Outcome {
        status: Status::Done,
        report: report?,
    })
}
