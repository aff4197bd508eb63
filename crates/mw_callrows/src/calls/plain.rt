// `call plain`: whether there is a job of the board of the file `b`, the machine of the file `k` and the boundaries of
// the file `text`, which no reader has looked at: `a job`, or the cause for which it is refused. A line of the text is
// a boundary: its address, its bound, its stack pointer, and words LEFT=RIGHT with elements by their numbers, where
// RIGHT is an element, a constant VALUE#WIDTH, or `memN`, the word of the memory at the address in an element. All
// numbers are hexadecimal.
ghost use Rattle.std.specs.Prelude.{◌≡◌, ◌≤◌, ◌<◌, ◌^◌, All, IfOk, IsTrue, length, true};
ghost use Rattle.mw_expr.specs.Tree.{view};
ghost use Rattle.mw_expr.specs.Widths.{is_known, depth};
ghost use Rattle.mw_macro.specs.Counts.{reads};
ghost use Rattle.mw_macro.specs.Described.{description_of};
ghost use Rattle.mw_rel.specs.Job.{AreForEachOther};
ghost use Rattle.mw_rel.specs.Lines.{reads_of};
ghost use Rattle.mw_rel.specs.Relation.{related, IsFormed, IsFormedLine, IsFormedBoundary};
ghost use Rattle.mw_rel.specs.Seen.{line_of, lines_of, boundary_of, boundaries_of};
ghost use Rattle.mw_rel.specs.Views.{relation_of};

use super::machines::machine_in;
use mw_base::{Cause, Items};
use mw_board::{Board, Store};
use mw_expr::{Expr, Shape};
use mw_macro::Machine;
use mw_rel::{Boundary, Job, Line, Relation, shape_of};
use mw_rowfile::named::{address, hexadecimal, word};
use mw_rowfile::states::board_of;
use mw_rowfile::{Fault, File, Report, text_in, wrong};
use std::alloc::Global;

/// The number of an element, or another of 32 bits.
fn number(text: &str) -> Result<u32, Fault> {
    word(hexadecimal(text)?)
}

/// A number of 8 bits.
fn small(text: &str) -> Result<u8, Fault> {
    match u8::try_from(hexadecimal(text)?) {
        Ok(number) => Ok(number),
        Err(_) => Err(wrong("a number is too great")),
    }
}

/// A constant.
fn constant(value: &str, width: &str) -> Result<Expr, Fault> {
    let value = number(value)?;
    Ok(Expr::Con(value, small(width)?))
}

/// The right side of a line.
fn right_of(alloc: Global, text: &str) -> Result<Expr, Fault> {
    if let Some(element) = text.strip_prefix("mem") {
        let element = Expr::Element(number(element)?);
        return Ok(Expr::Memory(Box::new(alloc, element)?));
    }
    match text.split_once('#') {
        Some((value, width)) => constant(value, width),
        None => Ok(Expr::Element(number(text)?)),
    }
}

/// A line of a boundary.
fn read_line(alloc: Global, text: &str) -> Result<Line, Fault> {
    match text.split_once('=') {
        Some((left, right)) => {
            let left = number(left)?;
            let right = right_of(alloc, right)?;
            Ok(Line { left, right })
        }
        None => Err(wrong("a line is LEFT=RIGHT")),
    }
}

/// Appends the lines behind the first three words.
fn push_lines(alloc: Global, lines: &mut Vec<Line>, text: &str) -> Result<(), Fault> {
    for part in text.split(' ').skip(3) {
        lines.push(read_line(alloc, part)?)?;
    }
    Ok(())
}

/// The lines behind the first three words.
fn read_lines(alloc: Global, text: &str) -> Result<Vec<Line>, Fault> {
    let mut lines = Vec::new(alloc);
    match push_lines(alloc, &mut lines, text) {
        Ok(()) => Ok(lines),
        Err(fault) => {
            drop(lines);
            Err(fault)
        }
    }
}

/// The word at a place.
fn word_at(text: &str, place: usize) -> Result<&str, Fault> {
    match text.split(' ').nth(place) {
        Some(part) => Ok(part),
        None => Err(wrong("a boundary has three numbers")),
    }
}

/// The boundary of a line of the text.
fn read_boundary(alloc: Global, text: &str) -> Result<Boundary, Fault> {
    let address = address(hexadecimal(word_at(text, 0)?)?)?;
    let bound = number(word_at(text, 1)?)?;
    let sp = small(word_at(text, 2)?)?;
    let lines = Items::from_vec(read_lines(alloc, text)?);
    Ok(Boundary {
        address,
        bound,
        sp,
        lines,
    })
}

/// Appends the boundaries of a text.
fn push_boundaries(alloc: Global, boundaries: &mut Vec<Boundary>, text: &str) -> Result<(), Fault> {
    for line in text.lines() {
        boundaries.push(read_boundary(alloc, line)?)?;
    }
    Ok(())
}

/// The boundaries of a text.
fn read_boundaries(alloc: Global, text: &str) -> Result<Vec<Boundary>, Fault> {
    let mut boundaries = Vec::new(alloc);
    match push_boundaries(alloc, &mut boundaries, text) {
        Ok(()) => Ok(boundaries),
        Err(fault) => {
            drop(boundaries);
            Err(fault)
        }
    }
}

/// Whether the right side is one of the first elements, a constant, or the memory word at the address in an element.
fn is_plain(right: &Expr, count: usize) -> bool
    ensures known { IsTrue result → is_known count (view right.now) ≡ true }
    ensures depth { IsTrue result → depth (view right.now) ≤ 64 }
    ensures few { IsTrue result → reads (view right.now) ≤ 1 }
{
    match right {
        Expr::Element(number) => (*number as usize) < count,
        Expr::Con(..) => true,
        Expr::Memory(address) => match &**address {
            Expr::Element(number) => (*number as usize) < count,
            _ => false,
        },
        _ => false,
    }
}

/// Whether a line has elements that there are, and a plain right side.
fn is_plain_line(line: &Line, shape: &Shape) -> bool
    ensures formed { IsTrue result → IsFormedLine shape.now (line_of line.now) }
    ensures few { IsTrue result → reads (view line.now.right) ≤ 1 }
{
    let count = shape.widths.as_slice().len();
    if line.left as usize >= count {
        return false;
    }
    is_plain(&line.right, count)
}

/// Whether each of some lines is such a line.
fn are_plain(lines: &[Line], shape: &Shape) -> bool
    ensures formed { IsTrue result → All (IsFormedLine shape.now) (lines_of lines.now) }
    ensures few { IsTrue result → reads_of (lines_of lines.now) ≤ length lines.now }
{
    for line in lines {
        if !is_plain_line(line, shape) {
            return false;
        }
    }
    true
}

/// Whether a boundary has few such lines, an address of 12 bits, and a stack pointer within a stack of this depth.
fn is_formed(boundary: &Boundary, depth: u8, shape: &Shape) -> bool
    ensures formed { IsTrue result → IsFormedBoundary shape.now (boundary_of boundary.now) }
    ensures pointer { IsTrue result → boundary.now.sp ≤ depth }
{
    let lines = boundary.lines.as_slice();
    if boundary.address >= 4096 || boundary.sp > depth || lines.len() > 64 {
        return false;
    }
    are_plain(lines, shape)
}

/// Whether there are few boundaries, each of which is such a one.
fn are_formed(boundaries: &[Boundary], depth: u8, shape: &Shape) -> bool
    ensures formed { IsTrue result → IsFormed (related (boundaries_of boundaries.now) shape.now) }
    ensures pointers { IsTrue result → All (λ boundary. boundary.sp ≤ depth) (boundaries_of boundaries.now) }
{
    if boundaries.len() > 64 {
        return false;
    }
    for boundary in boundaries {
        if !is_formed(boundary, depth, shape) {
            return false;
        }
    }
    true
}

/// The relation of these boundaries, or the cause for which there is none.
fn related(
    boundaries: Vec<Boundary>,
    depth: u8,
    shape: Shape,
) -> Result<Result<Relation, Cause>, Fault>
    ensures shape { IfOk result (λ made. IfOk made (λ relation. (relation_of relation).shape ≡ shape)) }
    ensures pointers { IfOk result (λ made. IfOk made
        (λ relation. All (λ boundary. boundary.sp ≤ depth) (relation_of relation).boundaries)) }
{
    if are_formed(&boundaries, depth, &shape) {
        Ok(Relation::new(boundaries, shape))
    } else {
        drop(boundaries);
        drop(shape);
        Err(wrong("boundaries that no relation has"))
    }
}

/// The relation of the boundaries of a text between a board and a machine, or the cause for which there is none.
fn relation_in(
    alloc: Global,
    board: &Board,
    machine: &Machine,
    text: &str,
) -> Result<Result<Relation, Cause>, Fault>
    ensures { IfOk result (λ made. IfOk made
        (λ relation. AreForEachOther board.now (description_of machine.now) (relation_of relation))) }
{
    let shape = shape_of(alloc, board, machine)?;
    match read_boundaries(alloc, text) {
        Ok(boundaries) => related(boundaries, board.depth(), shape),
        Err(fault) => {
            drop(shape);
            Err(fault)
        }
    }
}

/// Why there is no job of a board without a microprogram, a machine and their relation. None where there is one.
fn refusal(alloc: Global, board: Board, machine: Machine, relation: Relation) -> Option<Cause>
    requires { AreForEachOther board (description_of machine) (relation_of relation) }
{
    let store = Store {
        words: Items::from_vec(Vec::new(alloc)),
    };
    match Job::new(board, store, machine, relation) {
        Ok(job) => {
            drop(job);
            None
        }
        Err(cause) => Some(cause),
    }
}

/// Appends the line of a cause, or of none.
fn push_refusal(report: &mut Report, refusal: Option<Cause>) {
    match refusal {
        None => report.push(b"a job\n"),
        Some(cause) => {
            report.push(b"refused cause ");
            report.push_decimal(u64::from(cause.number()));
            report.push(b"\n");
        }
    }
}

/// Why there is no job of a board, a machine and the boundaries of a text.
fn refusal_in(
    alloc: Global,
    board: Board,
    machine: Machine,
    text: &str,
) -> Result<Option<Cause>, Fault> {
    match relation_in(alloc, &board, &machine, text) {
        Ok(Ok(relation)) => Ok(refusal(alloc, board, machine, relation)),
        Ok(Err(cause)) => {
            drop(board);
            drop(machine);
            Ok(Some(cause))
        }
        Err(fault) => {
            drop(board);
            drop(machine);
            Err(fault)
        }
    }
}

/// Appends whether there is a job of these files: `a job`, or its cause.
///
/// # Errors
///
/// Files that aren't what the call reads, and want of memory.
pub fn read(alloc: Global, report: &mut Report, files: &[File]) -> Result<(), Fault> {
    let text = text_in(files, "text")?;
    let board = board_of(alloc, files, "b")?;
    match machine_in(alloc, files, "k") {
        Ok(machine) => {
            let refusal = refusal_in(alloc, board, machine, text)?;
            push_refusal(report, refusal);
            Ok(())
        }
        Err(fault) => {
            drop(board);
            Err(fault)
        }
    }
}
