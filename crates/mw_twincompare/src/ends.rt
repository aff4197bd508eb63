// Both boards where their segments have ended.
ghost use Rattle.std.specs.Prelude.{◌≡◌, ◌==◌, ◌&&◌};
ghost use Rattle.mw_rel.specs.ComparisonWords.{are_alike};

use mw_board::Board;
use mw_compare::alike;
use mw_revise::Block;
use mw_symboard::SymBoard;

/// Both boards where their segments have ended, each at a boundary.
#[derive(Drop)]
pub(crate) struct Ends<'a> {
    /// The board on which both programs run.
    pub board: &'a Board,
    /// The old program's board.
    pub old_board: &'a SymBoard,
    /// The new program's board.
    pub new_board: &'a SymBoard,
}

/// Whether two boards may agree at a block, which the old one has reached: the events are of the same kinds, the new
/// board is there too, and both stack pointers are the block's.
pub(crate) fn may_agree(reached: &Block, old_board: &SymBoard, new_board: &SymBoard) -> bool
    ensures { result ≡ (are_alike old_board.now.events new_board.now.events
        && ((new_board.now.place.at == reached.now.after)
        && ((old_board.now.place.sp == reached.now.sp) && (new_board.now.place.sp == reached.now.sp)))) }
{
    alike(old_board.events(), new_board.events())
        && new_board.at() == reached.after
        && old_board.sp() == reached.sp
        && new_board.sp() == reached.sp
}
