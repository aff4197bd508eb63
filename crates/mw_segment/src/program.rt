// A program on a board.
use mw_board::{Board, Store};
use std::marker::Model;

/// A microprogram on a board, and where its segments end.
#[derive(Drop)]
pub struct Program<'a> {
    /// The board.
    pub board: &'a Board,
    /// The microwords, from control address 0 on.
    pub store: &'a Store,
    /// The control addresses of the boundaries, in any order.
    pub addresses: &'a [u16],
}

impl<'a> Model for Program<'a> {
    ghost use Rattle.mw_segment.specs.Programs as programs;

    ghost Value = { programs.Program };

    ghost view = { λ p. record { board = p.board.now; store = p.store.now.words; addresses = p.addresses.now } };
}
