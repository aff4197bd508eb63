// A revision of a microprogram.
use crate::keep::Keep;
use mw_board::{Board, Store};
use std::marker::Model;

/// An old and a new program on one board, and where and how they stand together. Each boundary is the one at its control
/// address, in both programs.
#[derive(Drop)]
pub struct Revision {
    /// The board.
    pub board: Board,
    /// The old program.
    pub before: Store,
    /// The new program.
    pub after: Store,
    /// What was read of a KEEP text for these.
    pub keep: Keep,
}

impl Model for Revision {
    ghost use Rattle.mw_revise.specs.Revision as revisions;

    ghost Value = { revisions.Revision };

    ghost view = { λ r. record {
      board = r.board;
      before = r.before.words;
      after = r.after.words;
      keep = r.keep;
    } };
}
