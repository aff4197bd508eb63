// Whether a job is certified.
ghost use Rattle.std.specs.Prelude.{◌≡◌, ◌<◌, length, IfOk, IfErr, IsTrue, true};
ghost use Rattle.mw_rel.specs.Views.{job_of};
ghost use Rattle.mw_replay.specs.CounterPrinted.{AreShort};
ghost use Rattle.mw_check.specs.Searched.{EndsSearch, StopsSearch};
ghost use Rattle.mw_check.specs.Verdict.{IsVerdict, NoneDiffersBefore};

use crate::verdict::{Summary, Verdict};
use mw_base::{Items, NoMemory};
use mw_cycle::{Env, Series};
use mw_fork::{Budget, Case, Fork, ForkFault, Visitor};
use mw_rel::{Begin, Job};
use mw_replay::Counter;
use mw_term::ShortcutBook;
use std::alloc::Global;
use std::ops::ControlFlow;

/// How many entries each list of a counter may have in a file.
const MOST_ENTRIES: usize = 65_536;

/// What was found of the cases of a boundary so far: no start of them differs.
#[derive(Drop)]
pub(crate) struct Found {
    /// How many there are, and how many cycles the longest of their segments has.
    pub summary: Summary,
}

impl Visitor for Found {
    ghost use Rattle.mw_check.specs.Searched.{AreGoneThrough, IsFirstDiffering};

    type Stop = Begin;

    ghost has_seen = { λ before now job number budget cases. AreGoneThrough job number budget.nodes now.summary cases };

    ghost stops = { λ now job number budget bits begin. IsFirstDiffering job number bits begin };

    ghost compares = { true };

    fn visit(
        &mut self,
        alloc: Global,
        job: &Job,
        fork: &mut Fork<'_>,
        case: &Case,
        book: &ShortcutBook,
    ) -> Result<ControlFlow<Begin>, ForkFault> {
        if let Some(begin) = fork.differs(alloc, job, book)? {
            return Ok(ControlFlow::Break(begin));
        }
        self.summary.cases += 1;
        self.summary.cycles = self.summary.cycles.max(case.cycles);
        Ok(ControlFlow::Continue(()))
    }
}

/// Whether no list of an environment has more entries than a counter's may have in a file.
fn are_short(env: &Env) -> bool
    ensures { IsTrue result → AreShort env.now }
{
    Series::all()
        .iter()
        .all(|series| env.length(*series) <= MOST_ENTRIES)
}

/// The counter of a start that an assignment gives.
fn counter_at(boundary: usize, begin: Begin) -> Result<Counter, NoMemory>
    ensures is { IfOk result (λ counter. counter ≡ record { boundary = boundary; begin = begin }) }
    ensures short { IfOk result (λ counter. AreShort counter.begin.env) }
{
    if !are_short(&begin.env) {
        // There are never so many: a segment has at most 500 cycles, and a step at most 4,096 statements.
        return Err(NoMemory);
    }
    Ok(Counter { boundary, begin })
}

/// Goes through the cases of a boundary: what is found of it, or the counter of the first start that differs.
fn search(
    alloc: Global,
    job: &Job,
    boundary: usize,
    budget: Budget,
    book: &ShortcutBook,
) -> Result<ControlFlow<Counter, Summary>, ForkFault>
    requires there { boundary < length (job_of job.now).relation.boundaries }
    ensures ends { IfOk result (EndsSearch (job_of job.now) boundary budget) }
    ensures stops { IfErr result (λ fault. NoneDiffersBefore (job_of job.now) boundary
        → StopsSearch (job_of job.now) budget fault) }
{
    let mut found = Found {
        summary: Summary {
            cases: 0,
            cycles: 0,
        },
    };
    match Fork::walk(alloc, job, boundary, budget, &mut found, book)? {
        ControlFlow::Continue(()) => Ok(ControlFlow::Continue(found.summary)),
        ControlFlow::Break(begin) => Ok(ControlFlow::Break(counter_at(boundary, begin)?)),
    }
}

/// Goes through the boundaries, in the order of the relation, up to the first at which a start differs.
fn search_all(
    alloc: Global,
    job: &Job,
    budget: Budget,
    book: &ShortcutBook,
) -> Result<Verdict, ForkFault>
    ensures is { IfOk result (IsVerdict (job_of job.now) budget) }
    ensures stops { IfErr result (StopsSearch (job_of job.now) budget) }
{
    let mut summaries = Vec::new(alloc);
    for boundary in 0..job.relation.boundaries().len() {
        match search(alloc, job, boundary, budget, book)? {
            ControlFlow::Continue(summary) => summaries.push(summary)?,
            ControlFlow::Break(counter) => return Ok(Verdict::No(counter)),
        }
    }
    Ok(Verdict::Yes(Items::from_vec(summaries)))
}

/// Whether a job is certified, asked within a budget. It goes through the boundaries in the order of the relation, and
/// through the cases of each in the order of their bits, up to the first that differs or is over the budget.
///
/// - `Yes`: from every start of the job, whatever its memory, inputs, interrupt line, ready line and undefined bits,
///   each boundary of the board's run comes within the bound of the one before it, in which waits aren't counted, in
///   relation with the described machine after as many steps, with equal memory, outputs and inputs taken. Each summary
///   says how many feasible cases its boundary has, and how many cycles its longest segment; all of them are within the
///   budget.
/// - `No`: the start that this counter gives differs. It is at the first boundary, and there in the first case, that
///   has one; of these it is what the first assignment gives under which the first comparison fails that can.
/// - `Unknown`: an operation at that word and bit, in the word list of that prefix of a case, has more joint cofactors
///   than the budget's nodes; or that boundary has more feasible cases than the budget's paths. No start differs at an
///   earlier boundary, or in an earlier case of this one. So where nothing is over the budget, the answer is yes or no.
///
/// # Errors
///
/// Memory ran out.
pub fn certify(
    alloc: Global,
    job: &Job,
    budget: Budget,
    book: &ShortcutBook,
) -> Result<Verdict, NoMemory>
    ensures { IfOk result (IsVerdict (job_of job.now) budget) }
{
    match search_all(alloc, job, budget, book) {
        Ok(verdict) => Ok(verdict),
        Err(ForkFault::Over(over)) => Ok(Verdict::Unknown(over)),
        Err(ForkFault::NoMemory) => Err(NoMemory),
    }
}
