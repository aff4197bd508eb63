// `call twin DIFFERENCE`: a twin start on the board of the file `b`, whose old side begins as the file `old` has it and
// whose new side as the file `new`; a label there is one of the microprogram of the file `m`. It shows `late old`,
// `late new`, `event N`, `boundary`, `sp`, `element NAME` or `memory A`, in which numbers are hexadecimal. What is
// printed is its text.
ghost use Rattle.std.specs.Prelude.{IfOk};
ghost use Rattle.mw_cycle.specs.State.{Fits};

use crate::programmed::read_programmed;
use crate::texts::text_of;
use mw_asm::Program;
use mw_board::Board;
use mw_revise::{Twin, TwinDifference, print_twin};
use mw_rowfile::named::{hexadecimal, word};
use mw_rowfile::{Fault, File, Report, wrong};
use mw_sim::{Start, read_start};
use std::alloc::Global;

/// The difference that a word names.
fn plain(kind: &str) -> Result<TwinDifference, Fault> {
    match kind {
        "boundary" => Ok(TwinDifference::Boundary),
        "sp" => Ok(TwinDifference::StackPointer),
        _ => Err(wrong("no such difference")),
    }
}

/// The side whose segment is late.
fn late(side: &str) -> Result<TwinDifference, Fault> {
    match side {
        "old" => Ok(TwinDifference::LateOld),
        "new" => Ok(TwinDifference::LateNew),
        _ => Err(wrong("no such side")),
    }
}

/// The element of this name.
fn element(board: &Board, name: &str) -> Result<TwinDifference, Fault> {
    match board.element_number(name.as_bytes()) {
        Some(number) => Ok(TwinDifference::Element(word(number as u64)?)),
        None => Err(wrong("no such element")),
    }
}

/// The difference of a kind that has a word more.
fn detailed(board: &Board, kind: &str, detail: &str) -> Result<TwinDifference, Fault> {
    match kind {
        "late" => late(detail),
        "event" => Ok(TwinDifference::Event(word(hexadecimal(detail)?)?)),
        "element" => element(board, detail),
        "memory" => Ok(TwinDifference::Memory(word(hexadecimal(detail)?)?)),
        _ => Err(wrong("no such difference")),
    }
}

/// The difference that the words of a call name.
fn difference_of(board: &Board, given: &[String]) -> Result<TwinDifference, Fault> {
    match given {
        [kind] => plain(kind.as_str()),
        [kind, detail] => detailed(board, kind.as_str(), detail.as_str()),
        _ => Err(wrong("a difference is one word or two")),
    }
}

/// Where a run begins, as the file of this name has it.
fn start_in(alloc: Global, program: &Program, files: &[File], name: &str) -> Result<Start, Fault>
    ensures { IfOk result (λ start. Fits program.now.board start.state) }
{
    let text = text_of(files, name)?;
    match read_start(alloc, &program.board, &program.made, text) {
        Ok(start) => Ok(start),
        Err(_) => Err(wrong("an environment is refused")),
    }
}

/// Appends the text of a twin start.
fn push_twin(alloc: Global, report: &mut Report, board: &Board, twin: &Twin) -> Result<(), Fault>
    requires before { Fits board.now twin.now.before.state }
    requires after { Fits board.now twin.now.after.state }
{
    let text = print_twin(alloc, board, twin)?;
    report.push(&text);
    Ok(())
}

/// Appends the text of the twin start of a start and that of the file `new`.
fn push_beside(
    alloc: Global,
    report: &mut Report,
    program: &Program,
    before: Start,
    files: &[File],
    difference: TwinDifference,
) -> Result<(), Fault>
    requires { Fits program.now.board before.state }
{
    let after = match start_in(alloc, program, files, "new") {
        Ok(after) => after,
        Err(fault) => {
            drop(before);
            return Err(fault);
        }
    };
    let twin = Twin {
        boundary: 0,
        before,
        after,
        difference,
    };
    let outcome = push_twin(alloc, report, &program.board, &twin);
    drop(twin);
    outcome
}

/// Appends the same of the starts of the files `old` and `new`, which shows what these words name.
fn push_of_program(
    alloc: Global,
    report: &mut Report,
    program: &Program,
    given: &[String],
    files: &[File],
) -> Result<(), Fault> {
    let difference = difference_of(&program.board, given)?;
    let before = start_in(alloc, program, files, "old")?;
    push_beside(alloc, report, program, before, files, difference)
}

/// Appends the text of the twin start that words and files give.
///
/// # Errors
///
/// Words or files that aren't what the call reads, and want of memory.
pub fn print(
    alloc: Global,
    report: &mut Report,
    given: &[String],
    files: &[File],
) -> Result<(), Fault> {
    let program = read_programmed(alloc, files)?;
    let outcome = push_of_program(alloc, report, &program, given, files);
    drop(program);
    outcome
}
