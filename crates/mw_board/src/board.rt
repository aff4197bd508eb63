// A board, which keeps the rules.
ghost use Rattle.std.specs.Prelude.{◌≡◌, IfOk, IfErr, Ok, Err};
ghost use Rattle.mw_board.specs.Check.{check_of};
ghost use Rattle.mw_board.specs.Depth.{depth_of};
ghost use Rattle.mw_board.specs.Order.{AreInOrder};
ghost use Rattle.mw_board.specs.Valid.{IsBoard};
ghost use Rattle.mw_seq.specs.Sequencer.{IsDepth};

use crate::check::check_parts;
use crate::fault::PartFault;
use crate::parts::BoardParts;
use mw_base::Width;
use std::marker::Model;

/// A board whose parts keep the rules of boards, seen as its parts.
#[derive(Debug, Drop)]
pub struct Board {
    parts: BoardParts,
}

impl Model for Board {
    ghost use Rattle.std.specs.Prelude.{◌≡◌, Ok};
    ghost use Rattle.mw_board.specs.declared.parts.BoardParts.{BoardParts};
    ghost use Rattle.mw_board.specs.Check.{check_of};
    ghost use Rattle.mw_board.specs.Order.{AreInOrder};

    ghost Value = { BoardParts };

    ghost view = { λ board. board.parts };

    ghost invariant = { λ board. (check_of board.parts ≡ Ok tt) × AreInOrder board.parts.fields };
}

impl Board {
    /// The board of these parts, whose fields stand in byte order of their names, no name twice.
    ///
    /// # Errors
    ///
    /// The first rule that the parts break, in the order of a board file's keys: cause 10 to 14, 24 or 31. The parts
    /// are dropped then.
    pub fn new(parts: BoardParts) -> Result<Board, PartFault>
        requires order { AreInOrder parts.fields }
        ensures ok { IfOk result (λ board. (board ≡ parts) × (check_of parts ≡ Ok tt)) }
        ensures err { IfErr result (λ fault. check_of parts ≡ Err fault) }
    {
        check_parts(&parts)?;
        Ok(Board { parts })
    }

    /// Whether these parts, whose fields stand in byte order of their names, no name twice, are a board.
    ///
    /// # Errors
    ///
    /// As `Board::new`.
    pub fn check(parts: &BoardParts) -> Result<(), PartFault>
        requires order { AreInOrder parts.now.fields }
        ensures { result ≡ check_of parts.now }
    {
        check_parts(parts)
    }

    /// Its parts.
    pub fn parts(&self) -> &BoardParts
        ensures exact { result.now ≡ self.now }
        ensures kept { check_of self.now ≡ Ok tt }
        ensures valid { IsBoard self.now }
        ensures order { AreInOrder self.now.fields }
    {
        &self.parts
    }

    /// The width of a register and of a memory word: a multiple of 4, from 4 to 32.
    pub fn width(&self) -> Width
        ensures exact { result ≡ self.now.width }
        ensures valid { IsBoard self.now }
    {
        Width::new(self.parts().width).unwrap()
    }

    /// How many words the sequencer's stack has, 5 or 9.
    pub fn depth(&self) -> u8
        ensures exact { result ≡ depth_of self.now }
        ensures known { IsDepth result }
    {
        self.parts().depth()
    }
}
