// bounds: a board file, a microprogram for its board, a described machine, and a relation between both.
ghost use Rattle.std.specs.Prelude.{◌≡◌, ◌<◌, ◌++◌, [], ℕ, IfOk, OnOk, Some, length, slice_get, slice_index_or};
ghost use Rattle.mw_bounds.specs.declared.range.Range.{Range as RangeOf};
ghost use Rattle.mw_bounds.specs.Answers.{IsAnswer, IsRange};
ghost use Rattle.mw_outside.specs.Views.{IsLater, shelf_shown};
ghost use Rattle.mw_plan.specs.Steps.{Ends};
ghost use Rattle.mw_rel.specs.Views.{job_of};
ghost use Rattle.mw_replay.specs.Counter.{IsCounter, counter_at};
ghost use Rattle.mw_top.specs.Commands.Bounds.{IsBounding, bounds_plan, bounds_report, bounds_status, length_text};
ghost use Rattle.mw_top.specs.Commands.Bounds.{no_range, range_line, range_text, range_texts, shown_text};

use super::Work;
use super::certify::{append_boundary, append_unknown};
use super::job::{FileJob, read_job};
use crate::fault::Fault;
use crate::outcome::Outcome;
use crate::status::Status;
use mw_base::{NoMemory, append_decimal};
use mw_bounds::{Bounds, Length, Range, bounds};
use mw_fork::Budget;
use mw_outside::Shelf;
use mw_plan::{Files, Stop};
use mw_rel::{Begin, Job};
use mw_replay::print_start;
use mw_sim::append_line;
use mw_term::ShortcutBook;
use std::alloc::Global;

/// Reads the job.
#[tactic(auto, unfolding(crate::specs::Commands::Bounds::bounds_plan))]
pub(super) fn read<S: Shelf>(
    alloc: Global,
    shelf: &mut S,
    files: &mut Files<'_, Work, Fault>,
) -> Result<Work, Stop<Fault>>
    requires four { length files.old.names ≡ 4 }
    requires none_read { files.old.contents ≡ [] }
    ensures ends { Ends bounds_plan (shelf_shown S.Shelf shelf.old) (shelf_shown S.Shelf shelf.new) files.new result }
    ensures names { files.new.names ≡ files.old.names }
    ensures later { IsLater (shelf_shown S.Shelf shelf.old) (shelf_shown S.Shelf shelf.new) }
{
    let labelled = read_job(alloc, shelf, files)?;
    Ok(Work::Bounds(FileJob { job: labelled.job }))
}

/// Appends a length.
fn append_length(alloc: Global, report: &mut Vec<u8>, length: Length) -> Result<(), NoMemory>
    ensures { OnOk result (report.new.items ≡ report.old.items ++ length_text length) }
{
    match length {
        Length::Cycles(cycles) => append_decimal(alloc, report, u64::from(cycles)),
        Length::Late => {
            report.extend_from_slice(b"late")?;
            Ok(())
        }
    }
}

/// Appends the line of a boundary.
#[tactic(auto, unfolding(crate::specs::Commands::Bounds::range_line))]
fn append_range_line(
    alloc: Global,
    report: &mut Vec<u8>,
    job: &Job,
    number: usize,
    range: &Range,
) -> Result<(), NoMemory>
    requires { number < length (job_of job.now).relation.boundaries }
    ensures { OnOk result (report.new.items ≡ report.old.items ++ range_line (job_of job.now) number range.now) }
{
    append_boundary(alloc, report, job, number)?;
    report.extend_from_slice(b" least ")?;
    append_length(alloc, report, range.least)?;
    report.extend_from_slice(b" greatest ")?;
    append_length(alloc, report, range.greatest)?;
    append_line(report, b"")
}

/// Appends the counter of a start, behind what it shows.
#[tactic(auto, unfolding(crate::specs::Commands::Bounds::shown_text))]
fn append_shown(
    alloc: Global,
    report: &mut Vec<u8>,
    job: &Job,
    number: usize,
    front: &[u8],
    begin: &Begin,
) -> Result<(), NoMemory>
    requires { IsCounter (job_of job.now) (counter_at number begin.now) }
    ensures { OnOk result
        (report.new.items ≡ report.old.items ++ shown_text (job_of job.now) number front.now begin.now) }
{
    append_line(report, front)?;
    let text = print_start(alloc, job, number, begin)?;
    report.extend_from_slice(&text)?;
    Ok(())
}

/// Appends what was found of a boundary.
#[tactic(auto, unfolding(crate::specs::Commands::Bounds::range_text))]
fn append_range(
    alloc: Global,
    report: &mut Vec<u8>,
    job: &Job,
    number: usize,
    range: &Range,
) -> Result<(), NoMemory>
    requires there { number < length (job_of job.now).relation.boundaries }
    requires is { IsRange (job_of job.now) number range.now }
    ensures { OnOk result (report.new.items ≡ report.old.items ++ range_text (job_of job.now) number range.now) }
{
    append_range_line(alloc, report, job, number, range)?;
    append_shown(alloc, report, job, number, b"least", &range.least_begin)?;
    append_shown(
        alloc,
        report,
        job,
        number,
        b"greatest",
        &range.greatest_begin,
    )
}

/// The range of the boundary of this number.
fn range_at(ranges: &[Range], number: usize) -> &Range
    requires { number < length ranges.now }
    ensures exact { result.now ≡ slice_index_or ranges.now number no_range }
    ensures there { slice_get ranges.now number ≡ Some result.now }
{
    &ranges[number]
}

/// Appends what was found of all boundaries.
fn append_ranges(
    alloc: Global,
    report: &mut Vec<u8>,
    job: &Job,
    ranges: &[Range],
) -> Result<(), NoMemory>
    requires count { length ranges.now ≡ length (job_of job.now).relation.boundaries }
    requires are { (number : ℕ) (range : RangeOf) → slice_get ranges.now number ≡ Some range
        → IsRange (job_of job.now) number range }
    ensures { OnOk result (report.new.items ≡ report.old.items ++ range_texts (job_of job.now) ranges.now) }
{
    for number in 0..ranges.len() {
        append_range(alloc, report, job, number, range_at(ranges, number))?;
    }
    Ok(())
}

/// Appends an answer.
fn append_bounds(
    alloc: Global,
    report: &mut Vec<u8>,
    job: &Job,
    budget: Budget,
    bounds: &Bounds,
) -> Result<(), NoMemory>
    requires { IsAnswer (job_of job.now) budget bounds.now }
    ensures { OnOk result (report.new.items ≡ report.old.items ++ bounds_report (job_of job.now) bounds.now) }
{
    match bounds {
        Bounds::Found(ranges) => append_ranges(alloc, report, job, ranges.as_slice()),
        Bounds::Unknown(over) => append_unknown(alloc, report, job, over),
    }
}

/// The status of an answer.
fn status_of(bounds: &Bounds) -> Status
    ensures { result ≡ bounds_status bounds.now }
{
    match bounds {
        Bounds::Found(_) => Status::Done,
        Bounds::Unknown(_) => Status::Unknown,
    }
}

/// Says how long the segments of a job last, within a budget.
pub(super) fn report(
    alloc: Global,
    job: &Job,
    budget: Budget,
    book: &ShortcutBook,
) -> Result<Outcome, NoMemory>
    ensures { IfOk result (λ outcome. IsBounding budget (job_of job.now) outcome.status outcome.report.items) }
{
    let answer = bounds(alloc, job, budget, book)?;
    let mut report = Vec::new(alloc);
    append_bounds(alloc, &mut report, job, budget, &answer)?;
    Ok(Outcome {
        status: status_of(&answer),
        report,
    })
}
