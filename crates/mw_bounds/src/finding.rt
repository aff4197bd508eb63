// The lengths of the segments of a job.
ghost use Rattle.std.specs.Prelude.{◌≡◌, ◌<◌, length, IfOk, IfErr};
ghost use Rattle.mw_rel.specs.Views.{job_of};
ghost use Rattle.mw_bounds.specs.Answers.{IsAnswer, IsFoundAt, IsNotFound};

use crate::extreme::Extremes;
use crate::range::{Bounds, Range};
use mw_base::{Items, NoMemory};
use mw_fork::{Budget, Fork, ForkFault};
use mw_rel::Job;
use mw_term::ShortcutBook;
use std::alloc::Global;
use std::ops::ControlFlow;

/// The range of the boundary of this number, from 0.
fn range(
    alloc: Global,
    job: &Job,
    boundary: usize,
    budget: Budget,
    book: &ShortcutBook,
) -> Result<Range, ForkFault>
    requires there { boundary < length (job_of job.now).relation.boundaries }
    ensures found { IfOk result (IsFoundAt (job_of job.now) boundary budget) }
    ensures not_found { IfErr result (IsNotFound (job_of job.now) budget) }
{
    let mut extremes = Extremes {
        least: None,
        greatest: None,
    };
    let ControlFlow::Continue(()) = Fork::walk(alloc, job, boundary, budget, &mut extremes, book)?
    else {
        // The visitor stops no walk.
        unreachable!()
    };
    // Each boundary has a case, so there are both.
    let Extremes { least, greatest } = extremes;
    let Some(least) = least else { unreachable!() };
    let Some(greatest) = greatest else {
        unreachable!()
    };
    Ok(Range {
        least: least.length,
        least_begin: least.begin,
        greatest: greatest.length,
        greatest_begin: greatest.begin,
    })
}

/// Goes through the boundaries, in the order of the relation.
fn ranges(
    alloc: Global,
    job: &Job,
    budget: Budget,
    book: &ShortcutBook,
) -> Result<Bounds, ForkFault>
    ensures found { IfOk result (IsAnswer (job_of job.now) budget) }
    ensures not_found { IfErr result (IsNotFound (job_of job.now) budget) }
{
    let mut ranges = Vec::new(alloc);
    for boundary in 0..job.relation.boundaries().len() {
        ranges.push(range(alloc, job, boundary, budget, book)?)?;
    }
    Ok(Bounds::Found(Items::from_vec(ranges)))
}

/// How long the segments from each boundary of a job last, asked within a budget. It goes through the boundaries in the
/// order of the relation, and through the cases of each in the order of their bits; nothing is compared.
///
/// - `Found`: the range of each boundary, in which waits aren't counted. Every start of it, whatever its memory,
///   inputs, interrupt line, ready line and undefined bits, has a length from the least to the greatest. The two starts
///   have these: each is the first start of the first case that has one of this length. All feasible cases of each
///   boundary are within the budget.
/// - `Unknown`: an operation at that word and bit, in the word list of that prefix of a case, has more joint cofactors
///   than the budget's nodes, and the prefix asks for one more bit, so that the operation is none of a comparison; or
///   that boundary has more feasible cases than the budget's paths. So where nothing is over the budget, the ranges are
///   found.
///
/// # Errors
///
/// Memory ran out.
pub fn bounds(
    alloc: Global,
    job: &Job,
    budget: Budget,
    book: &ShortcutBook,
) -> Result<Bounds, NoMemory>
    ensures { IfOk result (IsAnswer (job_of job.now) budget) }
{
    match ranges(alloc, job, budget, book) {
        Ok(bounds) => Ok(bounds),
        Err(ForkFault::Over(over)) => Ok(Bounds::Unknown(over)),
        Err(ForkFault::NoMemory) => Err(NoMemory),
    }
}
