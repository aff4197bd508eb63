// A board with its microprogram.
ghost use Rattle.std.specs.Prelude.{◌<◌, ◌^◌, IfOk, length};

use mw_asm::{Assembled, Program, assemble};
use mw_board::Board;
use mw_rowfile::states::board_of;
use mw_rowfile::{Fault, File, contents, wrong};
use std::alloc::Global;

/// The microprogram of a file.
fn microprogram<'a>(files: &'a [File], name: &str) -> Result<&'a [u8], Fault>
    ensures { IfOk result (λ text. length text.now < 2 ^ 20) }
{
    let text = contents(files, name)?;
    if text.len() >= 1 << 20 {
        return Err(wrong("a microprogram is too long"));
    }
    Ok(text)
}

/// What the microprogram of a file is assembled to on a board.
///
/// # Errors
///
/// There is no such file, its microprogram is too long or refused, and want of memory.
pub fn read_assembled(
    alloc: Global,
    board: &Board,
    files: &[File],
    name: &str,
) -> Result<Assembled, Fault> {
    let text = microprogram(files, name)?;
    match assemble(alloc, board, text) {
        Ok(made) => Ok(made),
        Err(_) => Err(wrong("a microprogram is refused")),
    }
}

/// The board of the file `b` with the microprogram of the file `m`.
///
/// # Errors
///
/// A board or a microprogram that is refused, and want of memory.
pub fn read_programmed(alloc: Global, files: &[File]) -> Result<Program, Fault> {
    let board = board_of(alloc, files, "b")?;
    match read_assembled(alloc, &board, files, "m") {
        Ok(made) => Ok(Program { board, made }),
        Err(fault) => {
            drop(board);
            Err(fault)
        }
    }
}
