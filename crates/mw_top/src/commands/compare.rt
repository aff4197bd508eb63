// compare, replay: a board file, a microprogram for its board, a described machine, a relation between both, and a
// start of it.
ghost use Rattle.std.specs.Prelude.{◌≡◌, ◌++◌, [], IfOk, OnOk, length};
ghost use Rattle.mw_outside.specs.Views.{IsLater, shelf_shown};
ghost use Rattle.mw_plan.specs.Steps.{Ends};
ghost use Rattle.mw_rel.specs.Views.{job_of};
ghost use Rattle.mw_top.specs.Commands.Compare.{compare_plan, compare_status, compare_report, IsComparison};

use super::Work;
use super::job::{Labelled, read_job};
use crate::fault::Fault;
use crate::outcome::Outcome;
use crate::report::{append_decimal_line, append_difference_line};
use crate::status::Status;
use mw_base::NoMemory;
use mw_check::{Compared, compare};
use mw_outside::Shelf;
use mw_plan::{Files, Stop};
use mw_rel::Job;
use mw_replay::{Counter, read_counter};
use mw_sim::append_line;
use std::alloc::Global;
use std::marker::Model;

/// A job, and the start of it that is compared. The start is one of the job.
#[derive(Drop)]
pub(crate) struct Comparison {
    labelled: Labelled,
    counter: Counter,
}

impl Model for Comparison {
    ghost use Rattle.mw_rel.specs.Views.{job_of};
    ghost use Rattle.mw_replay.specs.Counter.{IsCounter};
    ghost use Rattle.mw_fork.specs.Codes.{coded_acts, coded_tree};
    ghost use Rattle.mw_top.specs.Work.{Comparison as ComparisonOf};
    ghost use Rattle.std.specs.Coded.{codes};

    ghost Value = { ComparisonOf };

    ghost coded = { Prim.hlevel (codes, coded_acts, coded_tree) };

    ghost view = { λ c. record { job = job_of c.labelled.job; counter = c.counter } };

    ghost invariant = { λ c. IsCounter (job_of c.labelled.job) c.counter };
}

/// Reads the job, and a start of it.
#[tactic(auto, unfolding(crate::specs::Commands::Compare::compare_plan))]
pub(super) fn read<S: Shelf>(
    alloc: Global,
    shelf: &mut S,
    files: &mut Files<'_, Work, Fault>,
) -> Result<Work, Stop<Fault>>
    requires five { length files.old.names ≡ 5 }
    requires none_read { files.old.contents ≡ [] }
    ensures ends { Ends compare_plan (shelf_shown S.Shelf shelf.old) (shelf_shown S.Shelf shelf.new) files.new result }
    ensures names { files.new.names ≡ files.old.names }
    ensures later { IsLater (shelf_shown S.Shelf shelf.old) (shelf_shown S.Shelf shelf.new) }
{
    let labelled = read_job(alloc, shelf, files)?;
    let counter = files.next(alloc, shelf, |bytes| {
        read_counter(alloc, &labelled.job, labelled.labels.as_slice(), bytes)
    });
    match counter {
        Ok(counter) => Ok(Work::Comparison(Comparison { labelled, counter })),
        Err(stop) => {
            drop(labelled);
            Err(stop)
        }
    }
}

/// The status of what a comparison shows.
pub(super) fn status_of(compared: Compared) -> Status
    ensures { result ≡ compare_status compared }
{
    match compared {
        Compared::Same => Status::Done,
        Compared::Differs { .. } => Status::Differs,
    }
}

/// Appends what a comparison of so many steps shows.
#[tactic(auto, unfolding(crate::specs::Commands::Compare::compare_report))]
pub(super) fn append_comparison(
    alloc: Global,
    report: &mut Vec<u8>,
    job: &Job,
    steps: u32,
    compared: Compared,
) -> Result<(), NoMemory>
    ensures { OnOk result (report.new.items ≡ report.old.items ++ compare_report (job_of job.now) steps compared) }
{
    match compared {
        Compared::Same => append_decimal_line(alloc, report, b"same ", steps),
        Compared::Differs { step, difference } => {
            append_decimal_line(alloc, report, b"differs step ", step)?;
            append_difference_line(alloc, report, job, difference)
        }
    }
}

/// Compares so many steps from a start.
pub(super) fn report(
    alloc: Global,
    comparison: &Comparison,
    steps: u32,
    parts: bool,
) -> Result<Outcome, NoMemory>
    ensures { IfOk result (λ outcome. IsComparison steps comparison.now outcome.status outcome.report.items) }
{
    let Comparison {
        labelled: Labelled { job, .. },
        counter,
    } = comparison;
    let compared = compare(alloc, job, counter, steps, parts)?;
    let mut report = Vec::new(alloc);
    append_comparison(alloc, &mut report, job, steps, compared)?;
    Ok(Outcome {
        status: status_of(compared),
        report,
    })
}
