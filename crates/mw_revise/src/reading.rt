// The reader of KEEP texts.
ghost use Rattle.std.specs.Prelude.{◌≡◌, ◌<◌, ◌^◌, IfOk, length};
ghost use Rattle.mw_base.specs.Reading.{Gives};
ghost use Rattle.mw_base.specs.Steps.{steps};
ghost use Rattle.mw_base.specs.TokenLines.{last_fault};
ghost use Rattle.mw_revise.specs.KeepText.{at_first, with_said, with_tokens, known_after, keep_with, finished, keep_of};
ghost use Rattle.mw_revise.specs.Kept.{IsOpen, IsKnown, IsKeep};
ghost use Rattle.mw_revise.specs.Revision.{AreApart};
ghost use Rattle.mw_revise.specs.declared.programs.Side.{Side};

use crate::beginning::beginning_of;
use crate::block::OpenBlock;
use crate::keep::{Block, Keep};
use crate::programs::Programs;
use crate::said::{Said, said_of};
use mw_asm::Assembled;
use mw_base::{Cause, Cursor, Items, Line, Refusal, Refused, TextFault, lines, text_end};
use mw_board::Board;
use std::alloc::Global;
use std::marker::Model;

/// What is known after some lines.
#[derive(Drop)]
struct Known {
    /// The blocks that have ended.
    blocks: Vec<Block>,
    /// The one that hasn't.
    block: Option<OpenBlock>,
}

impl Model for Known {
    ghost use Rattle.mw_revise.specs.KeepText.{Known as Seen};

    ghost Value = { Seen };

    ghost view = { λ k. record { blocks = k.blocks.items; block = k.block } };
}

/// What is known where this block is open behind others.
fn still_open(blocks: Vec<Block>, block: OpenBlock) -> Known
    ensures { result ≡ record { blocks = blocks.items; block = Some block } }
{
    Known {
        blocks,
        block: Some(block),
    }
}

/// What is known after what a line of the open block says: its causes but 60, by place.
#[tactic(auto, unfolding(crate::specs::KeepText::with_said))]
fn with_said(
    board: &Board,
    text: &[u8],
    mut blocks: Vec<Block>,
    block: OpenBlock,
    said: Said,
) -> Result<Known, Refusal>
    requires kept { IsKnown board.now (record { blocks = blocks.items; block = Some block }) }
    ensures gives { Gives (λ known. known) result (with_said board.now text.now blocks.items block said) }
    ensures kept { IfOk result (λ known. IsKnown board.now known) }
{
    let block = match said {
        Said::StackPointer(word, value) => block
            .with_stack_pointer(board, word, value)
            .map_err(Refused::At)?,
        Said::Equal(word, element) => block.with_equal(board, text, word, element)?,
        Said::Fixed(word, element, old, new) => {
            block.with_fixed(board, text, word, element, old, new)?
        }
        Said::End(word) => {
            blocks.push(block.close(board, word).map_err(Refused::At)?)?;
            return Ok(Known {
                blocks,
                block: None,
            });
        }
    };
    Ok(still_open(blocks, block))
}

impl Known {
    /// Before the first line.
    fn new(alloc: Global) -> Known
        ensures { result ≡ at_first }
    {
        Known {
            blocks: Vec::new(alloc),
            block: None,
        }
    }

    /// What is known after a line that isn't blank: cause 60, then its other causes by place.
    #[tactic(auto, unfolding(crate::specs::KeepText::with_tokens))]
    fn with_tokens(
        self,
        alloc: Global,
        programs: &Programs,
        text: &[u8],
        line: &Line,
    ) -> Result<Known, Refusal>
        requires kept { IsKnown programs.now.board self }
        ensures gives { Gives (λ known. known) result
            (with_tokens programs.now text.now self.blocks self.block line.now) }
        ensures kept { IfOk result (λ known. IsKnown programs.now.board known) }
    {
        let cursor = Cursor::new(text, line, Cause::BadSyntax);
        let Known { blocks, block } = self;
        match block {
            None => {
                let said = beginning_of(&cursor).map_err(Refused::At)?;
                let block = OpenBlock::begin(alloc, programs, text, &blocks, said).map_err(
                    Refused::At,
                )?;
                Ok(still_open(blocks, block))
            }
            Some(block) => {
                let said = said_of(&cursor).map_err(Refused::At)?;
                with_said(programs.board, text, blocks, block, said)
            }
        }
    }

    /// What is known after a line; a blank one says nothing.
    fn with_line(
        self,
        alloc: Global,
        programs: &Programs,
        text: &[u8],
        line: &Line,
    ) -> Result<Known, Refusal>
        requires kept { IsKnown programs.now.board self }
        ensures gives { Gives (λ known. known) result (known_after programs.now text.now self line.now) }
        ensures kept { IfOk result (λ known. IsKnown programs.now.board known) }
    {
        match line.tokens.as_slice() {
            [] => Ok(self),
            [_, ..] => self.with_tokens(alloc, programs, text, line),
        }
    }

    /// What is known after all lines of a text.
    fn of_lines(
        alloc: Global,
        programs: &Programs,
        text: &[u8],
        lines: &[Line],
    ) -> Result<Known, Refusal>
        ensures gives { Gives (λ known. known) result (steps (known_after programs.now text.now) at_first lines.now) }
        ensures kept { IfOk result (λ known. IsKnown programs.now.board known) }
    {
        let mut known = Known::new(alloc);
        for line in lines {
            known = known.with_line(alloc, programs, text, line)?;
        }
        Ok(known)
    }

    /// What it says at the end of a text: this fault where a block is open, and cause 53 where there is none.
    fn finish(self, board: &Board, fault: TextFault) -> Result<Keep, TextFault>
        requires kept { IsKnown board.now self }
        ensures exact { result ≡ finished fault self.blocks self.block }
        ensures kept { IfOk result (λ keep. IsKeep board.now keep) }
    {
        if self.block.is_some() {
            return Err(fault);
        }
        if self.blocks.is_empty() {
            return Err(TextFault {
                line: 1,
                column: 1,
                cause: Cause::NoBoundary,
            });
        }
        Ok(Keep {
            blocks: Items::from_vec(self.blocks),
        })
    }
}

/// What a text says of two programs, as `read_keep` has it.
#[tactic(auto, unfolding(crate::specs::KeepText::keep_of))]
fn keep_of(alloc: Global, programs: &Programs, text: &[u8]) -> Result<Keep, Refusal>
    requires { length text.now < 2 ^ 32 }
    ensures gives { Gives (λ keep. keep) result (keep_of programs.now text.now) }
    ensures kept { IfOk result (λ keep. IsKeep programs.now.board keep) }
{
    let lines = lines(alloc, text)?;
    let known = Known::of_lines(alloc, programs, text, &lines)?;
    let end = text_end(&lines, Cause::BadSyntax);
    known.finish(programs.board, end).map_err(Refused::At)
}

/// What a text says of two programs on one board.
///
/// A text is of blocks. A block begins with a line `boundary PLACE BOUND` and ends with a line `end`; PLACE is a label
/// of both programs, or one address for both, and BOUND is 1 to 500. Between them stand a line `sp N`, once; lines
/// `keep ELEMENT`; and lines `fixed ELEMENT OLD NEW`. Elements are those of the board, with `b.` before their names,
/// and not its stack pointer. Each boundary has an address of its own in each program. The text has fewer than 2^32
/// bytes.
///
/// # Errors
///
/// The first fault. Causes 1 to 4 of the text's bytes come first, by position. Then come the lines, one after another;
/// of a line cause 60 comes first, at the first token that can't follow those before it, or at the line's end. Then
/// come its other causes, by place, at one place the least:
///
/// - 14 at the word `boundary` of the 65th block, and at the first word of a line about an element after 256 of them;
/// - at a PLACE 30 where it is no label of one of the programs, 31 where a block stands at its address in one of them,
///   33 where its address in one of them isn't below 4,096;
/// - 54 at a bound that isn't 1 to 500;
/// - 31 at a second `sp`, 33 at a stack pointer over as many words as the board's stack has;
/// - 40 at the first token of an element that there isn't, 31 at one that a line of the block has already;
/// - 33 at a value of more bits than its element has;
/// - 52 at the `end` of a block without `sp`.
///
/// Last come 60 just past the text's last line, where a block is open there, and 53 at line 1 and column 1, where there
/// is none. Want of memory.
pub fn read_keep(
    alloc: Global,
    board: &Board,
    before: &Assembled,
    after: &Assembled,
    text: &[u8],
) -> Result<Keep, Refusal>
    requires { length text.now < 2 ^ 32 }
    ensures gives { Gives (λ keep. keep) result (keep_of
        (record { board = board.now; before = before.now.labels; after = after.now.labels }) text.now) }
    ensures kept { IfOk result (λ keep. IsKeep board.now keep) }
    ensures apart { IfOk result (λ keep. (side : Side) → AreApart side keep.blocks) }
{
    let programs = Programs {
        board,
        before: before.labels.as_slice(),
        after: after.labels.as_slice(),
    };
    keep_of(alloc, &programs, text)
}
