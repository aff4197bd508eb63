// `call relation`: reads the file `text` as a relation between the board of the file `b` with the microprogram of the
// file `m` and the machine of the file `k`. Its relation: each boundary with its address, bound and stack pointer, and
// its lines, in which expressions are trees; or one line has the first fault.
ghost use Rattle.std.specs.Prelude.{◌<◌, ◌^◌, length};

use super::machines::machine_in;
use super::trees::{push_name, push_tree};
use mw_asm::Program;
use mw_base::Name;
use mw_board::Board;
use mw_descfile::read_relation;
use mw_macro::Machine;
use mw_rel::{Boundary, Line};
use mw_rowfile::{Fault, File, Report};
use mw_twinrows::programmed::read_programmed;
use mw_twinrows::texts::text_of;
use std::alloc::Global;

/// Takes a name behind the letter of its side.
fn take_name(alloc: Global, names: &mut Vec<Name>, side: &[u8], name: &[u8]) -> Result<(), Fault> {
    let mut whole = Vec::from_slice(alloc, side)?;
    whole.extend_from_slice(name)?;
    names.push(Name::from_vec(whole))?;
    Ok(())
}

/// Takes the names of the elements of both sides.
pub(super) fn take_names(
    alloc: Global,
    names: &mut Vec<Name>,
    board: &Board,
    machine: &Machine,
) -> Result<(), Fault> {
    for number in 0..board.element_count() {
        let name = board.element_name(number).unwrap_or(b"");
        take_name(alloc, names, b"b.", name)?;
    }
    for name in machine.names().iter().take(machine.registers() as usize) {
        take_name(alloc, names, b"m.", name.as_slice())?;
    }
    Ok(())
}

/// Appends a line of a boundary.
fn push_line(report: &mut Report, names: &[Name], line: &Line) {
    push_name(report, names, line.left);
    report.push(b" = ");
    push_tree(report, names, &line.right);
    report.push(b"\n");
}

/// Appends the lines of a boundary.
fn push_boundary(report: &mut Report, names: &[Name], boundary: &Boundary) {
    report.push(b"boundary ");
    report.push_decimal(u64::from(boundary.address));
    report.push(b" ");
    report.push_decimal(u64::from(boundary.bound));
    report.push(b"\nsp ");
    report.push_decimal(u64::from(boundary.sp));
    report.push(b"\n");
    for line in boundary.lines.as_slice() {
        push_line(report, names, line);
    }
    report.push(b"end\n");
}

/// Appends the lines of some boundaries over the elements of both sides.
fn push_boundaries(
    alloc: Global,
    report: &mut Report,
    board: &Board,
    machine: &Machine,
    boundaries: &[Boundary],
) -> Result<(), Fault> {
    let mut names = Vec::new(alloc);
    let taken = take_names(alloc, &mut names, board, machine);
    for boundary in boundaries {
        push_boundary(report, &names, boundary);
    }
    drop(names);
    taken
}

/// Appends the lines of the relation of a text, or of its first fault, between a board with its microprogram and a
/// machine.
fn push_between(
    alloc: Global,
    report: &mut Report,
    micro: &Program,
    machine: &Machine,
    text: &[u8],
) -> Result<(), Fault>
    requires { length text.now < 2 ^ 32 }
{
    match read_relation(alloc, &micro.board, &micro.made, machine, text) {
        Ok(relation) => {
            let outcome = push_boundaries(
                alloc,
                report,
                &micro.board,
                machine,
                relation.boundaries(),
            );
            drop(relation);
            outcome
        }
        Err(refusal) => {
            report.push_refusal(refusal);
            Ok(())
        }
    }
}

/// Appends the same between a board with its microprogram and the machine of the file `k`.
fn push_of_micro(
    alloc: Global,
    report: &mut Report,
    micro: &Program,
    files: &[File],
) -> Result<(), Fault> {
    let text = text_of(files, "text")?;
    let machine = machine_in(alloc, files, "k")?;
    let outcome = push_between(alloc, report, micro, &machine, text);
    drop(machine);
    outcome
}

/// Appends the lines of the relation of a text, or of its first fault.
///
/// # Errors
///
/// A board, a microprogram or a machine that is refused, a text of more than 1,048,576 bytes, which no file that is
/// read has, and want of memory.
pub fn read(alloc: Global, report: &mut Report, files: &[File]) -> Result<(), Fault> {
    let micro = read_programmed(alloc, files)?;
    let outcome = push_of_micro(alloc, report, &micro, files);
    drop(micro);
    outcome
}
