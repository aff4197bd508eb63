// `call keep`: reads the file `k` as what stands of two programs on the board of the file `b`: of that of the file `m`,
// the old one, and of that of the file `n`, the new one. What is printed: each block with its two addresses, its bound,
// its stack pointer and its lines; or one line has the first fault.
ghost use Rattle.std.specs.Prelude.{◌<◌, ◌^◌, length};

use crate::programmed::{read_assembled, read_programmed};
use crate::texts::text_of;
use mw_asm::{Assembled, Program};
use mw_board::Board;
use mw_revise::{Block, KeepLine, read_keep};
use mw_rowfile::{Fault, File, Report};
use std::alloc::Global;

/// Appends the name of an element.
fn push_element(report: &mut Report, board: &Board, number: u32) {
    report.push(b"b.");
    report.push(board.element_name(number as usize).unwrap_or(b""));
}

/// Appends a blank and a number.
fn push_number(report: &mut Report, number: u32) {
    report.push(b" ");
    report.push_decimal(u64::from(number));
}

/// Appends a line of a block.
fn push_line(report: &mut Report, board: &Board, line: KeepLine) {
    match line {
        KeepLine::Equal(element) => {
            report.push(b"keep ");
            push_element(report, board, element);
        }
        KeepLine::Fixed(element, old, new) => {
            report.push(b"fixed ");
            push_element(report, board, element);
            push_number(report, old);
            push_number(report, new);
        }
    }
    report.push(b"\n");
}

/// Appends the lines of a block.
fn push_block(report: &mut Report, board: &Board, block: &Block) {
    report.push(b"boundary");
    push_number(report, u32::from(block.before));
    push_number(report, u32::from(block.after));
    push_number(report, block.bound);
    report.push(b"\nsp");
    push_number(report, u32::from(block.sp));
    report.push(b"\n");
    for line in block.lines.as_slice() {
        push_line(report, board, *line);
    }
    report.push(b"end\n");
}

/// Appends the lines of what a text says of an old program and a new one, or of its first fault.
fn push_between(alloc: Global, report: &mut Report, old: &Program, new: &Assembled, text: &[u8])
    requires { length text.now < 2 ^ 32 }
{
    match read_keep(alloc, &old.board, &old.made, new, text) {
        Ok(keep) => {
            for block in keep.blocks.as_slice() {
                push_block(report, &old.board, block);
            }
            drop(keep);
        }
        Err(refusal) => report.push_refusal(refusal),
    }
}

/// Appends the same of an old program and that of the file `n`.
fn push_of_old(
    alloc: Global,
    report: &mut Report,
    old: &Program,
    files: &[File],
) -> Result<(), Fault> {
    let text = text_of(files, "k")?;
    let new = read_assembled(alloc, &old.board, files, "n")?;
    push_between(alloc, report, old, &new, text);
    drop(new);
    Ok(())
}

/// Appends the lines of what a text says of two programs, or of its first fault.
///
/// # Errors
///
/// A board or a microprogram that is refused, a text of more than 1,048,576 bytes, which no file that is read has, and
/// want of memory.
pub fn read(alloc: Global, report: &mut Report, files: &[File]) -> Result<(), Fault> {
    let old = read_programmed(alloc, files)?;
    let outcome = push_of_old(alloc, report, &old, files);
    drop(old);
    outcome
}
