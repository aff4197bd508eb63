// `call start`: the start of a run of the board of the file `b`, with the microprogram of the file `m`, as the file
// `e` has it. `call until address= limit= slices=`: a run from there up to a control address; with `slices=1` it is
// made slice by slice. What is printed: of a run `late` where that address didn't come, how many cycles were made, and
// the events; and the state as an environment, or the line that refuses `e`.
ghost use Rattle.std.specs.Prelude.{◌<◌, ◌^◌, length};
ghost use Rattle.mw_cycle.specs.Environment.{IsEnvironment};
ghost use Rattle.mw_cycle.specs.State.{Fits};

use mw_asm::Program;
use mw_base::Event;
use mw_board::Board;
use mw_cycle::{Clock, Datapath, State, Whole};
use mw_rowfile::named::{address, bit_of, hexadecimal_of};
use mw_rowfile::{Fault, File, Report, wrong};
use mw_sim::{Late, Parts, Start, read_start, run_to_boundary};
use mw_twinrows::programmed::read_programmed;
use mw_twinrows::texts::text_of;
use std::alloc::Global;

/// The most cycles of a row.
const MOST_CYCLES: u64 = 100_000;

/// Appends a line: these bytes and a number.
fn push_line(report: &mut Report, front: &[u8], number: u32) {
    report.push(front);
    report.push_hex(u64::from(number));
    report.push(b"\n");
}

fn push_event(report: &mut Report, event: Event) {
    match event {
        Event::Out(word) => push_line(report, b"out ", word),
        Event::Taken(word) => push_line(report, b"taken ", word),
    }
}

/// Appends the line of an element, unless it is 0.
fn push_element(report: &mut Report, name: &[u8], value: u32) {
    if value != 0 {
        report.push(b"set b.");
        report.push(name);
        push_line(report, b" ", value);
    }
}

fn push_memory(report: &mut Report, memory: &[u32]) {
    for (address, word) in memory.iter().enumerate() {
        if *word != 0 {
            report.push(b"mem ");
            report.push_hex(address as u64);
            push_line(report, b" ", *word);
        }
    }
}

/// Appends a state as an environment.
fn push_state(report: &mut Report, board: &Board, state: &State)
    requires { Fits board.now state.now }
{
    push_line(report, b"at ", u32::from(state.at));
    for number in 0..board.element_count() {
        let name = board.element_name(number).unwrap_or(b"");
        push_element(report, name, state.element(board, number));
    }
    push_element(report, b"sp", u32::from(state.seq.sp));
    push_memory(report, &state.memory);
}

/// Appends how many cycles were made, the events and the state.
fn push_run(report: &mut Report, board: &Board, state: &State, clock: Clock, events: &[Event])
    requires { Fits board.now state.now }
{
    report.push(b"cycles ");
    report.push_decimal(u64::from(clock.cycle));
    report.push(b"\n");
    for event in events {
        push_event(report, *event);
    }
    push_state(report, board, state);
}

/// Where a run ends, how many cycles it has at most, and whether it is made slice by slice.
#[derive(Clone, Copy)]
struct Asked {
    address: u16,
    limit: u32,
    slices: bool,
}

/// Makes a run by this arithmetic part, and appends it.
fn push_simulated<A: Datapath>(
    alloc: Global,
    report: &mut Report,
    part: &A,
    programmed: &Program,
    start: &mut Start,
    asked: Asked,
) -> Result<(), Fault>
    requires fits { Fits programmed.now.board start.old.state }
    requires env_in { IsEnvironment programmed.now.board start.old.env }
{
    let Start { state, env } = start;
    let Program { board, made } = programmed;
    let begun = Clock::start();
    let mut events = Vec::with_capacity(alloc, asked.limit as usize)?;
    let ended = run_to_boundary(
        part,
        board,
        &made.store,
        state,
        env,
        begun,
        &[asked.address],
        asked.limit,
        &mut events,
    );
    let clock = match ended {
        Ok(clock) => clock,
        Err(Late { clock }) => {
            report.push(b"late\n");
            clock
        }
    };
    push_run(report, board, state, clock, &events);
    Ok(())
}

/// Appends what a start comes to: printed where no run is asked for, or a run.
fn push_begun(
    alloc: Global,
    report: &mut Report,
    programmed: &Program,
    start: &mut Start,
    asked: Option<Asked>,
) -> Result<(), Fault>
    requires fits { Fits programmed.now.board start.old.state }
    requires env_in { IsEnvironment programmed.now.board start.old.env }
{
    match asked {
        None => {
            push_state(report, &programmed.board, &start.state);
            Ok(())
        }
        Some(asked) if asked.slices => {
            push_simulated(alloc, report, &Parts, programmed, start, asked)
        }
        Some(asked) => push_simulated(alloc, report, &Whole, programmed, start, asked),
    }
}

/// Appends what the start of an environment comes to, or its first fault.
fn push_start(
    alloc: Global,
    report: &mut Report,
    programmed: &Program,
    text: &[u8],
    asked: Option<Asked>,
) -> Result<(), Fault>
    requires { length text.now < 2 ^ 32 }
{
    match read_start(alloc, &programmed.board, &programmed.made, text) {
        Ok(mut start) => {
            let outcome = push_begun(alloc, report, programmed, &mut start, asked);
            drop(start);
            outcome
        }
        Err(refusal) => {
            report.push_refusal(refusal);
            Ok(())
        }
    }
}

/// Appends what the start of the file `e` comes to.
fn run(
    alloc: Global,
    report: &mut Report,
    files: &[File],
    asked: Option<Asked>,
) -> Result<(), Fault> {
    let text = text_of(files, "e")?;
    let programmed = read_programmed(alloc, files)?;
    let outcome = push_start(alloc, report, &programmed, text, asked);
    drop(programmed);
    outcome
}

/// A number of cycles.
fn cycles_of(number: u64) -> Result<u32, Fault> {
    if number > MOST_CYCLES {
        return Err(wrong("too many cycles"));
    }
    Ok(number as u32)
}

/// Appends the start of a run, as an environment.
///
/// # Errors
///
/// Files that aren't what the call reads, and want of memory.
pub fn start(alloc: Global, report: &mut Report, files: &[File]) -> Result<(), Fault> {
    run(alloc, report, files, None)
}

/// Appends a run to the control address `address=`, of `limit=` cycles at most.
///
/// # Errors
///
/// Words or files that aren't what the call reads, and want of memory.
pub fn until(
    alloc: Global,
    report: &mut Report,
    given: &[String],
    files: &[File],
) -> Result<(), Fault> {
    let asked = Asked {
        address: address(hexadecimal_of(given, "address")?)?,
        limit: cycles_of(hexadecimal_of(given, "limit")?)?,
        slices: bit_of(given, "slices")?,
    };
    run(alloc, report, files, Some(asked))
}
