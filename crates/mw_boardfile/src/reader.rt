// The reader of board files.
ghost use Rattle.std.specs.Prelude.{◌≡◌, IfOk, Ok};
ghost use Rattle.toml.specs.View.{table_view};
ghost use Rattle.mw_base.specs.Reading.{Gives};
ghost use Rattle.mw_board.specs.Check.{check_of};
ghost use Rattle.mw_board.specs.Order.{AreInOrder};
ghost use Rattle.mw_boardfile.specs.Board.{parts_of, board_of};

use crate::document::read_document;
use crate::fault::BoardRefusal;
use crate::fields::fields;
use crate::flipflops::{flipflops, tables};
use crate::map::map;
use crate::paths::under;
use crate::points::points;
use crate::select::lists;
use crate::sizes::sizes;
use crate::unknown::known_only;
use crate::values::member;
use mw_board::{Board, BoardParts};
use std::alloc::Global;
use toml::Table;

/// The parts of the board that a document without unknown keys spells.
#[tactic(auto, unfolding(crate::specs::Board::parts_of))]
fn parts(alloc: Global, document: &Table) -> Result<BoardParts, BoardRefusal>
    ensures gives { Gives (λ parts. parts) result (parts_of (table_view document.now)) }
    ensures order { IfOk result (λ parts. AreInOrder parts.fields) }
    ensures kept { IfOk result (λ parts. check_of parts ≡ Ok tt) }
{
    let sizes = sizes(alloc, document)?;
    let fields = fields(alloc, sizes.microword, document)?;
    let named = fields.as_slice();
    let tables = under(alloc, b"flipflop", tables(member(document, "flipflop")))?;
    let flipflop = flipflops(alloc, sizes, named, tables)?;
    let control = points(alloc, named, document)?;
    let lists = lists(alloc, sizes.width, named, tables, control, document)?;
    let map = map(alloc, sizes.width, document)?;
    Ok(BoardParts {
        width: sizes.width,
        microword: sizes.microword,
        address: sizes.address,
        fill: sizes.fill,
        unset: sizes.unset,
        vector: sizes.vector,
        stack: sizes.stack,
        fields,
        flipflop,
        control,
        carry_in: lists.carry_in,
        condition: lists.condition,
        ram_link: lists.ram_link,
        q_link: lists.q_link,
        d: lists.d,
        map_low: map.low,
        map_bits: map.bits,
        map_entries: map.entries,
    })
}

/// The board that the bytes of a file spell.
///
/// # Errors
///
/// The file's first fault, with its cause and key: cause 20 at `-` where the bytes are no TOML document; then cause 22
/// at the least unknown key; then the first fault of the keys in the order of the format. Or want of memory.
#[tactic(auto, unfolding(crate::specs::Board::board_of))]
pub fn read_board(alloc: Global, bytes: &[u8]) -> Result<Board, BoardRefusal>
    ensures { Gives (λ board. board) result (board_of bytes.now) }
{
    let document = read_document(alloc, bytes)?;
    known_only(alloc, &document)?;
    match Board::new(parts(alloc, &document)?) {
        Ok(board) => Ok(board),
        Err(_) => unreachable!(),
    }
}
