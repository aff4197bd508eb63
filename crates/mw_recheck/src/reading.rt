// Texts of logs.
ghost use Rattle.std.specs.Prelude.{◌≡◌, ◌<◌, ◌^◌, IfOk, length};
ghost use Rattle.std.specs.List.{All};
ghost use Rattle.mw_base.specs.Reading.{Gives};
ghost use Rattle.mw_recheck.specs.LogText.{at_first, all_lines, with_boundary, in_last, with_tokens, read_on};
ghost use Rattle.mw_recheck.specs.LogText.{all_read, finished, log_of};
ghost use Rattle.mw_recheck.specs.Rules.{KeepRules};

use crate::block::Block;
use crate::line::LogLine;
use mw_base::{
    Cause, Cursor, Items, Line, NoMemory, Refusal, Refused, Token, fault_on, lines, text_end,
};
use std::alloc::Global;
use std::marker::Model;

/// What was read of a log: the lines of the boundaries before the last one, and the last one so far.
#[derive(Drop)]
struct Reading {
    before: Vec<Items<LogLine>>,
    last: Option<Block>,
}

impl Model for Reading {
    ghost use Rattle.std.specs.List.{All};
    ghost use Rattle.mw_recheck.specs.LogText.{Reading as Seen};
    ghost use Rattle.mw_recheck.specs.Rules.{KeepRules};

    ghost Value = { Seen };

    ghost view = { λ r. record { before = r.before.items; last = r.last } };

    ghost invariant = { λ r. All KeepRules r.before.items };
}

impl Reading {
    /// Before the first line.
    fn new(alloc: Global) -> Reading
        ensures { result ≡ at_first }
    {
        Reading {
            before: Vec::new(alloc),
            last: None,
        }
    }

    /// The lines of all boundaries.
    fn into_lines(self) -> Result<Vec<Items<LogLine>>, NoMemory>
        ensures exact { IfOk result (λ all. all.items ≡ all_lines self) }
        ensures rules { IfOk result (λ all. All KeepRules all.items) }
    {
        let Reading { mut before, last } = self;
        match last {
            Some(block) => {
                before.push(block.into_lines())?;
                Ok(before)
            }
            None => Ok(before),
        }
    }

    /// Takes the line of a boundary, of so many: cause 60, then 82 where it is one too many.
    #[tactic(auto, unfolding(crate::specs::LogText::with_boundary))]
    fn add_boundary(
        self,
        alloc: Global,
        boundaries: usize,
        line: &Cursor,
        first: Token,
    ) -> Result<Reading, Refusal>
        ensures { Gives (λ reading. reading) result (with_boundary boundaries line.now first self) }
    {
        line.end(1).map_err(Refused::At)?;
        let before = self.into_lines()?;
        if before.len() >= boundaries {
            return Err(Refused::At(fault_on(first, Cause::BadCount)));
        }
        Ok(Reading {
            before,
            last: Some(Block::new(alloc)),
        })
    }

    /// Takes a line of the last boundary: cause 60 where there is none.
    fn add_to_last(self, line: &Cursor, first: Token) -> Result<Reading, Refusal>
        ensures { Gives (λ reading. reading) result (in_last line.now first self.before self.last) }
    {
        let Reading { before, last } = self;
        match last {
            Some(block) => {
                let last = Some(block.add_line(line, first)?);
                Ok(Reading { before, last })
            }
            None => Err(Refused::At(line.misplaced(first))),
        }
    }

    /// Takes a line: its causes by place.
    #[tactic(auto, unfolding(crate::specs::LogText::read_on))]
    fn add_line(
        self,
        alloc: Global,
        boundaries: usize,
        text: &[u8],
        line: &Line,
    ) -> Result<Reading, Refusal>
        ensures { Gives (λ reading. reading) result (read_on boundaries text.now self line.now) }
    {
        let cursor = Cursor::new(text, line, Cause::BadSyntax);
        match line.tokens.as_slice().first() {
            Some(first) => {
                if cursor.spelled(*first) == b"boundary".as_slice() {
                    self.add_boundary(alloc, boundaries, &cursor, *first)
                } else {
                    self.add_to_last(&cursor, *first)
                }
            }
            None => Ok(self),
        }
    }

    /// The lines of all boundaries, of so many: cause 82 where there are fewer.
    #[tactic(auto, unfolding(crate::specs::LogText::finished))]
    fn finish(self, boundaries: usize, lines: &[Line]) -> Result<Vec<Items<LogLine>>, Refusal>
        ensures gives { Gives (λ all. all.items) result (finished boundaries lines.now self) }
        ensures rules { IfOk result (λ all. All KeepRules all.items) }
    {
        let all = self.into_lines()?;
        if all.len() < boundaries {
            return Err(Refused::At(text_end(lines, Cause::BadCount)));
        }
        Ok(all)
    }
}

/// The lines of a text, one after the other.
fn read_lines(
    alloc: Global,
    boundaries: usize,
    text: &[u8],
    lines: &[Line],
) -> Result<Reading, Refusal>
    ensures { Gives (λ reading. reading) result (all_read boundaries text.now lines.now) }
{
    let mut reading = Reading::new(alloc);
    for line in lines {
        reading = reading.add_line(alloc, boundaries, text, line)?;
    }
    Ok(reading)
}

/// The lines of the boundaries of a log's text, of so many boundaries.
#[tactic(auto, unfolding(crate::specs::LogText::log_of))]
pub(crate) fn read_boundaries(
    alloc: Global,
    boundaries: usize,
    text: &[u8],
) -> Result<Vec<Items<LogLine>>, Refusal>
    requires { length text.now < 2 ^ 32 }
    ensures gives { Gives (λ all. all.items) result (log_of boundaries text.now) }
    ensures rules { IfOk result (λ all. All KeepRules all.items) }
{
    let lines = lines(alloc, text)?;
    let reading = read_lines(alloc, boundaries, text, &lines)?;
    reading.finish(boundaries, &lines)
}
