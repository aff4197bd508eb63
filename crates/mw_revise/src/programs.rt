// The two programs of which a KEEP text speaks.
ghost use Rattle.std.specs.Prelude.{◌≡◌};
ghost use Rattle.mw_revise.specs.Sites.{labels_of, address_on};

use crate::keep::Block;
use mw_asm::Label;
use mw_board::Board;
use std::marker::Model;

/// The old program or the new one.
#[derive(Clone, Copy)]
pub enum Side {
    /// The old one.
    Old,
    /// The new one.
    New,
}

/// Two programs of one board, by what a text can name of them.
#[derive(Drop)]
pub(crate) struct Programs<'a> {
    /// The board.
    pub board: &'a Board,
    /// The labels of the old program.
    pub before: &'a [Label],
    /// The labels of the new program.
    pub after: &'a [Label],
}

impl<'a> Model for Programs<'a> {
    ghost use Rattle.mw_revise.specs.Sites.{Programs as Seen};

    ghost Value = { Seen };

    ghost view = { λ p. record { board = p.board.now; before = p.before.now; after = p.after.now } };
}

impl<'a> Programs<'a> {
    /// The labels of one of them.
    pub fn labels(&self, side: Side) -> &'a [Label]
        ensures { result.now ≡ labels_of side self.now }
    {
        match side {
            Side::Old => self.before,
            Side::New => self.after,
        }
    }
}

impl Block {
    /// Its control address in one of both programs.
    pub fn address_on(&self, side: Side) -> u16
        ensures { result ≡ address_on side self.now }
    {
        match side {
            Side::Old => self.before,
            Side::New => self.after,
        }
    }
}
