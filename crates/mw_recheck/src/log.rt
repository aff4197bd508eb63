// Logs: what a checker needs to know of a job's Boolean functions so that it searches nothing.
ghost use Rattle.std.specs.Prelude.{◌≡◌, ◌<◌, ◌^◌, IfOk, length};
ghost use Rattle.std.specs.List.{All};
ghost use Rattle.mw_base.specs.Reading.{Gives};
ghost use Rattle.mw_rel.specs.Views.{job_of};
ghost use Rattle.mw_recheck.specs.LogText.{log_of};
ghost use Rattle.mw_recheck.specs.Rules.{KeepRules};

use crate::line::LogLine;
use crate::reading::read_boundaries;
use mw_base::{Items, Refusal};
use mw_rel::Job;
use std::alloc::Global;
use std::marker::Model;

/// A log, seen as a list that has, for each boundary, the list of its lines. They keep the rules.
#[derive(Drop)]
pub struct Log {
    boundaries: Vec<Items<LogLine>>,
}

impl Model for Log {
    ghost use Rattle.std.specs.Prelude.{List};
    ghost use Rattle.std.specs.List.{All};
    ghost use Rattle.mw_recheck.specs.declared.line.LogLine.{LogLine};
    ghost use Rattle.mw_recheck.specs.Rules.{KeepRules};

    ghost Value = { List (List LogLine) };

    ghost view = { λ log. log.boundaries.items };

    ghost invariant = { λ log. All KeepRules log.boundaries.items };
}

impl Log {
    /// The lines of each boundary, in order. They keep the rules of a log.
    pub fn boundaries(&self) -> &[Items<LogLine>]
        ensures exact { result.now ≡ self.now }
        ensures rules { All KeepRules result.now }
    {
        &self.boundaries
    }
}

/// The log of so many boundaries that a text spells.
///
/// For each boundary a text has a line `boundary`, and then lines of two kinds. `n WORD BIT HIGH LOW` adds a node: that
/// of a bit of a word, which chooses one earlier node where the bit is 1 and another where it is 0; each of them is
/// constant, or of a variable that is later by bit and then by word. No two such lines of a boundary are equal.
/// `i F G H R` is a fact: node R is G where F holds, else H. It has to follow. It does at once where F is 0 and R is H,
/// and where F is 1 or G is H and R is G. Else it does where the two triples in which the first variable of F, G and H is 1
/// and is 0 have results, at once or by earlier facts, and R is the node of that variable with these two, or both are R.
///
/// The text has fewer than 2^32 bytes.
///
/// # Errors
///
/// The first fault of the text: causes 1 to 4 of its bytes; then, line by line, cause 60 of the line, 80 of a line that
/// adds a node and then 33 of its word and of its bit, 81 of a fact, and 82 of a boundary too many; then 82 at the
/// text's end, where there are too few. Want of memory.
pub fn read_log_of(alloc: Global, boundaries: usize, text: &[u8]) -> Result<Log, Refusal>
    requires { length text.now < 2 ^ 32 }
    ensures gives { Gives (λ log. log) result (log_of boundaries text.now) }
    ensures count { IfOk result (λ log. length log ≡ boundaries) }
{
    match read_boundaries(alloc, boundaries, text) {
        Ok(boundaries) => Ok(Log { boundaries }),
        Err(refusal) => Err(refusal),
    }
}

/// The log of a job that a text spells: one of as many boundaries as its relation has.
///
/// The text has fewer than 2^32 bytes.
///
/// # Errors
///
/// As those of `read_log_of`.
pub fn read_log(alloc: Global, job: &Job, text: &[u8]) -> Result<Log, Refusal>
    requires { length text.now < 2 ^ 32 }
    ensures gives { Gives (λ log. log) result
        (log_of (length (job_of job.now).relation.boundaries) text.now) }
    ensures count { IfOk result (λ log. length log ≡ length (job_of job.now).relation.boundaries) }
{
    read_log_of(alloc, job.relation.boundaries().len(), text)
}
