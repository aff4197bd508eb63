// A board with its microprogram.
use crate::assembled::Assembled;
use mw_board::Board;

/// A board, and what a microprogram is assembled to for it.
#[derive(Drop)]
pub struct Program {
    /// The board.
    pub board: Board,
    /// What its microprogram is assembled to.
    pub made: Assembled,
}
