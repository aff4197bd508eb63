// Boards as board files.
ghost use Rattle.std.specs.Prelude.{◌≡◌, IfOk, Ok};
ghost use Rattle.mw_boardfile.specs.Board.{board_of};
ghost use Rattle.mw_boardfile.specs.Printed.{IsPrinted};

mod document;
mod fields;
mod flipflops;
mod map;
mod names;
mod points;
mod select;
mod sizes;
mod texts;
mod values;

use document::document;
use mw_base::NoMemory;
use mw_board::Board;
use std::alloc::Global;
use toml::ser;

/// The text of a board file that spells the board: a TOML document of version 2, whose keys stand in byte order.
///
/// `version`, `width`, `microword`, `address`, `fill` and `stack` are always given; every other key stands only where
/// its value isn't the one that it has without its key. Reading the text gives the board back.
///
/// # Errors
///
/// Memory ran out.
pub fn print_board(alloc: Global, board: &Board) -> Result<Vec<u8>, NoMemory>
    ensures printed { IfOk result (λ text. IsPrinted board.now text.items) }
    ensures reads_back { IfOk result (λ text. board_of text.items ≡ Ok board.now) }
{
    let document = document(alloc, board.parts())?;
    let printed = toml::table_to_string(alloc, &document);
    drop(document);
    match printed {
        Ok(text) => Ok(text.into_bytes()),
        Err(error) => match error {
            ser::Error::DateInvalid => unreachable!(),
            ser::Error::OutOfMemory => Err(NoMemory),
        },
    }
}
