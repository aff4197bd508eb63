// A block of a KEEP text, line by line.
ghost use Rattle.std.specs.Prelude.{◌≡◌, ◌<◌, IfOk, OnOk, false, length};
ghost use Rattle.mw_base.specs.Reading.{Gives};
ghost use Rattle.mw_board.specs.Depth.{depth_of};
ghost use Rattle.mw_revise.specs.Blocks.{begun_block, with_stack_pointer, room, with_line, with_equal, with_fixed};
ghost use Rattle.mw_revise.specs.Blocks.{closed_block};
ghost use Rattle.mw_revise.specs.Elements.{element_in, is_named};
ghost use Rattle.mw_revise.specs.Kept.{IsLine, IsBlock, IsOpen};

use crate::beginning::{Beginning, bounded};
use crate::element::{equal_line, fixed_line};
use crate::keep::{Block, KeepLine};
use crate::programs::Programs;
use crate::site::Site;
use mw_base::{
    Cause, Dotted, Items, NoMemory, Numeral, Refusal, Refused, TextFault, Token, fault_on,
};
use mw_board::Board;
use mw_sim::value_below;
use std::alloc::Global;
use std::marker::Model;

/// The most blocks.
const MOST_BLOCKS: usize = 64;

/// The most lines of a block about elements.
const MOST_LINES: usize = 256;

/// A block whose `end` hasn't come.
#[derive(Drop)]
pub(crate) struct OpenBlock {
    site: Site,
    bound: u32,
    sp: Option<u8>,
    lines: Vec<KeepLine>,
}

impl Model for OpenBlock {
    ghost use Rattle.mw_revise.specs.Blocks.{OpenBlock as Seen};

    ghost Value = { Seen };

    ghost view = { λ b. record { site = b.site; bound = b.bound; sp = b.sp; lines = b.lines.items } };
}

impl OpenBlock {
    /// boundary PLACE BOUND: cause 14 at `boundary`, those of its addresses at the PLACE, 54 at the bound.
    #[tactic(auto, using(crate::proofs::Once::none_named), unfolding(crate::specs::Blocks::begun_block))]
    pub fn begin(
        alloc: Global,
        programs: &Programs,
        text: &[u8],
        blocks: &[Block],
        said: Beginning,
    ) -> Result<OpenBlock, TextFault>
        ensures exact { result ≡ begun_block programs.now text.now blocks.now said }
        ensures kept { IfOk result (λ block. IsOpen programs.now.board block) }
        ensures room { OnOk result (length blocks.now < 64) }
    {
        if blocks.len() >= MOST_BLOCKS {
            return Err(fault_on(said.word, Cause::TooMany));
        }
        let site = Site::of(programs, text, blocks, said.place)?;
        let bound = bounded(said.bound)?;
        Ok(OpenBlock {
            site,
            bound,
            sp: None,
            lines: Vec::new(alloc),
        })
    }

    /// With sp N: cause 31 at `sp`, 33 at the number.
    #[tactic(auto, unfolding(crate::specs::Blocks::with_stack_pointer))]
    pub fn with_stack_pointer(
        self,
        board: &Board,
        word: Token,
        value: Numeral,
    ) -> Result<OpenBlock, TextFault>
        requires kept { IsOpen board.now self }
        ensures exact { result ≡ with_stack_pointer (depth_of board.now) word value self }
        ensures kept { IfOk result (λ block. IsOpen board.now block) }
    {
        if self.sp.is_some() {
            return Err(fault_on(word, Cause::Twice));
        }
        let sp = value_below(u64::from(board.depth()) + 1, value)? as u8;
        Ok(OpenBlock {
            site: self.site,
            bound: self.bound,
            sp: Some(sp),
            lines: self.lines,
        })
    }

    /// Whether a line more about an element may stand: cause 14 at its first word.
    fn check_room(&self, word: Token) -> Result<(), TextFault>
        ensures exact { result ≡ room self.now word }
        ensures few { OnOk result (length self.now.lines < 256) }
    {
        if self.lines.len() < MOST_LINES {
            Ok(())
        } else {
            Err(fault_on(word, Cause::TooMany))
        }
    }

    /// With a line more.
    #[tactic(auto, using(crate::proofs::Once::named_more))]
    fn with_line(self, board: &Board, line: KeepLine) -> Result<OpenBlock, NoMemory>
        requires kept { IsOpen board.now self }
        requires room { length self.lines < 256 }
        requires line { IsLine board.now line }
        requires new { is_named self.lines (element_in line) ≡ false }
        ensures exact { IfOk result (λ block. block ≡ with_line line self) }
        ensures kept { IfOk result (λ block. IsOpen board.now block) }
    {
        let OpenBlock {
            site,
            bound,
            sp,
            mut lines,
        } = self;
        lines.push(line)?;
        Ok(OpenBlock {
            site,
            bound,
            sp,
            lines,
        })
    }

    /// With keep ELEMENT: cause 14 at `keep`, 40 or 31 at the element.
    #[tactic(auto, unfolding(crate::specs::Blocks::with_equal))]
    pub fn with_equal(
        self,
        board: &Board,
        text: &[u8],
        word: Token,
        element: Dotted,
    ) -> Result<OpenBlock, Refusal>
        requires kept { IsOpen board.now self }
        ensures gives { Gives (λ block. block) result (with_equal board.now text.now word element self) }
        ensures kept { IfOk result (λ block. IsOpen board.now block) }
    {
        self.check_room(word).map_err(Refused::At)?;
        let line = equal_line(board, text, &self.lines, element).map_err(Refused::At)?;
        Ok(self.with_line(board, line)?)
    }

    /// With fixed ELEMENT OLD NEW: cause 14 at `fixed`, 40 or 31 at the element, 33 at each value.
    #[tactic(auto, unfolding(crate::specs::Blocks::with_fixed))]
    pub fn with_fixed(
        self,
        board: &Board,
        text: &[u8],
        word: Token,
        element: Dotted,
        old: Numeral,
        new: Numeral,
    ) -> Result<OpenBlock, Refusal>
        requires kept { IsOpen board.now self }
        ensures gives { Gives (λ block. block) result (with_fixed board.now text.now word element old new self) }
        ensures kept { IfOk result (λ block. IsOpen board.now block) }
    {
        self.check_room(word).map_err(Refused::At)?;
        let line = fixed_line(board, text, &self.lines, element, old, new).map_err(Refused::At)?;
        Ok(self.with_line(board, line)?)
    }

    /// The block where it ends: cause 52 at `end`.
    #[tactic(auto, unfolding(crate::specs::Blocks::closed_block))]
    pub fn close(self, board: &Board, word: Token) -> Result<Block, TextFault>
        requires kept { IsOpen board.now self }
        ensures exact { result ≡ closed_block self word }
        ensures kept { IfOk result (λ block. IsBlock board.now block) }
    {
        let sp = self.sp.ok_or(fault_on(word, Cause::NoStackPointer))?;
        Ok(Block {
            before: self.site.before,
            after: self.site.after,
            bound: self.bound,
            sp,
            lines: Items::from_vec(self.lines),
        })
    }
}
