// pal: a board file, a microprogram for its board, a described machine, a relation between both, the source of a PDP-8
// program, and the keys at its console.
ghost use Rattle.std.specs.Prelude.{◌≡◌, ◌<◌, ◌^◌, ◌++◌, [], IfOk, OnOk, length};
ghost use Rattle.mw_base.specs.Reading.{Gives};
ghost use Rattle.mw_outside.specs.Views.{IsLater, shelf_shown};
ghost use Rattle.mw_pal.specs.Fits.{FitsPal};
ghost use Rattle.mw_pal.specs.Source.{IsMemory};
ghost use Rattle.mw_plan.specs.Steps.{Ends};
ghost use Rattle.mw_rel.specs.Start.{Start};
ghost use Rattle.mw_rel.specs.Views.{job_of};
ghost use Rattle.mw_replay.specs.Counter.{IsCounter, IsStartOf, counter_at};
ghost use Rattle.mw_top.specs.Commands.Pal.{IsPal, IsTold, keys_of, pal_plan, pal_report, printed_lines, source_of};
ghost use Rattle.mw_top.specs.Commands.Pal.{start_text};

use super::Work;
use super::compare::{append_comparison, status_of};
use super::job::{Labelled, read_job};
use crate::fault::Fault;
use crate::outcome::Outcome;
use mw_base::{Cause, Items, NoMemory, Refusal, Refused, TextFault};
use mw_check::{Compared, compare};
use mw_outside::Shelf;
use mw_pal::{Talk, console, fits_pal, read_pal};
use mw_plan::{Files, Stop};
use mw_rel::{Begin, Job, complete};
use mw_replay::{Counter, append_environment, append_values_lines};
use mw_sim::{append_line, append_state};
use std::alloc::Global;
use std::marker::Model;

/// How lines of what the console printed begin.
const TEXT: &[u8] = b"; text";

/// A job that PDP-8 programs fit, the memory of one, and the keys at its console.
#[derive(Drop)]
pub(crate) struct Console {
    labelled: Labelled,
    memory: Items<u32>,
    keys: Items<u8>,
}

impl Model for Console {
    ghost use Rattle.mw_pal.specs.Fits.{FitsPal};
    ghost use Rattle.mw_pal.specs.Source.{IsMemory};
    ghost use Rattle.mw_rel.specs.Views.{job_of};
    ghost use Rattle.mw_fork.specs.Codes.{coded_acts, coded_tree};
    ghost use Rattle.mw_top.specs.Work.{Console as ConsoleOf};
    ghost use Rattle.std.specs.Coded.{codes};

    ghost Value = { ConsoleOf };

    ghost coded = { Prim.hlevel (codes, coded_acts, coded_tree) };

    ghost view = { λ c. record { job = job_of c.labelled.job; memory = c.memory; keys = c.keys } };

    ghost invariant = { λ c. FitsPal (job_of c.labelled.job) × IsMemory c.memory };
}

/// The memory of a source: cause 83 of a job that PDP-8 programs don't fit, before each fault of the text.
#[tactic(auto, unfolding(crate::specs::Commands::Pal::source_of))]
fn read_source(alloc: Global, job: &Job, text: &[u8]) -> Result<Items<u32>, Refusal>
    requires { length text.now < 2 ^ 32 }
    ensures gives { Gives (λ memory. memory) result (source_of (job_of job.now) text.now) }
    ensures fits { OnOk result (FitsPal (job_of job.now)) }
    ensures valid { IfOk result IsMemory }
{
    if !fits_pal(job) {
        return Err(Refused::At(TextFault {
            line: 1,
            column: 1,
            cause: Cause::NotPdp8,
        }));
    }
    let memory = read_pal(alloc, text)?;
    Ok(Items::from_vec(memory))
}

/// The keys are the bytes of their file.
fn read_keys(alloc: Global, bytes: &[u8]) -> Result<Items<u8>, Refusal>
    ensures { Gives (λ keys. keys) result (keys_of bytes.now) }
{
    let keys = Items::from_slice(alloc, bytes)?;
    Ok(keys)
}

/// Reads the job, the memory of the source, and the keys.
#[tactic(auto, unfolding(crate::specs::Commands::Pal::pal_plan))]
pub(super) fn read<S: Shelf>(
    alloc: Global,
    shelf: &mut S,
    files: &mut Files<'_, Work, Fault>,
) -> Result<Work, Stop<Fault>>
    requires six { length files.old.names ≡ 6 }
    requires none_read { files.old.contents ≡ [] }
    ensures ends { Ends pal_plan (shelf_shown S.Shelf shelf.old) (shelf_shown S.Shelf shelf.new) files.new result }
    ensures names { files.new.names ≡ files.old.names }
    ensures later { IsLater (shelf_shown S.Shelf shelf.old) (shelf_shown S.Shelf shelf.new) }
{
    let labelled = read_job(alloc, shelf, files)?;
    let memory = match files.next(
        alloc,
        shelf,
        |bytes| read_source(alloc, &labelled.job, bytes),
    ) {
        Ok(memory) => memory,
        Err(stop) => {
            drop(labelled);
            return Err(stop);
        }
    };
    let keys = files.next(alloc, shelf, |bytes| read_keys(alloc, bytes));
    match keys {
        Ok(keys) => Ok(Work::Console(Console {
            labelled,
            memory,
            keys,
        })),
        Err(stop) => {
            drop(labelled);
            Err(stop)
        }
    }
}

/// Bytes as numbers of 32 bits.
fn widened(alloc: Global, bytes: &[u8]) -> Result<Vec<u32>, NoMemory>
    ensures { IfOk result (λ numbers. numbers.items ≡ bytes.now) }
{
    let mut numbers = Vec::with_capacity(alloc, bytes.len())?;
    for byte in bytes {
        numbers.push(u32::from(*byte))?;
    }
    Ok(numbers)
}

/// Appends the lines of what the console printed.
#[tactic(auto, unfolding(crate::specs::Commands::Pal::printed_lines))]
fn append_printed(alloc: Global, report: &mut Vec<u8>, text: &[u8]) -> Result<(), NoMemory>
    ensures { OnOk result (report.new.items ≡ report.old.items ++ printed_lines text.now) }
{
    if text.is_empty() {
        return append_line(report, TEXT);
    }
    let numbers = widened(alloc, text)?;
    append_values_lines(alloc, report, TEXT, &numbers)
}

/// Appends the start at the boundary of this number, as it is chosen.
#[tactic(auto, unfolding(crate::specs::Commands::Pal::start_text))]
fn append_begin(
    alloc: Global,
    report: &mut Vec<u8>,
    job: &Job,
    boundary: usize,
    begin: &Begin,
) -> Result<(), NoMemory>
    requires { IsCounter (job_of job.now) (counter_at boundary begin.now) }
    ensures { OnOk result ((start : Start) → IsStartOf (job_of job.now) (counter_at boundary begin.now) start
        → report.new.items ≡ report.old.items ++ start_text (job_of job.now) start) }
{
    let pair = complete(alloc, job, boundary, begin)?;
    let stated = append_state(alloc, report, &job.board, &pair.board);
    drop(pair);
    stated?;
    append_environment(alloc, report, &begin.env)?;
    Ok(())
}

/// Appends the start that a counter gives.
fn append_start(
    alloc: Global,
    report: &mut Vec<u8>,
    job: &Job,
    counter: &Counter,
) -> Result<(), NoMemory>
    requires { IsCounter (job_of job.now) counter.now }
    ensures { OnOk result ((start : Start) → IsStartOf (job_of job.now) counter.now start
        → report.new.items ≡ report.old.items ++ start_text (job_of job.now) start) }
{
    let Counter { boundary, begin } = counter;
    append_begin(alloc, report, job, *boundary, begin)
}

/// Appends that none of so many steps from the start of a console run differs, what was printed, and that start.
fn append_same(
    alloc: Global,
    report: &mut Vec<u8>,
    job: &Job,
    steps: u32,
    talk: &Talk,
) -> Result<(), NoMemory>
    requires { IsCounter (job_of job.now) talk.now.counter }
    ensures { OnOk result ((start : Start) → IsStartOf (job_of job.now) talk.now.counter start
        → report.new.items
        ≡ report.old.items ++ pal_report (job_of job.now) steps talk.now.text start Compared.Same) }
{
    report.extend_from_slice(b"; ")?;
    append_comparison(alloc, report, job, steps, Compared::Same)?;
    append_printed(alloc, report, &talk.text)?;
    append_start(alloc, report, job, &talk.counter)?;
    Ok(())
}

/// Appends what so many steps from the start of a console run show.
#[tactic(auto, unfolding(crate::specs::Commands::Pal::pal_report))]
fn append_pal(
    alloc: Global,
    report: &mut Vec<u8>,
    job: &Job,
    steps: u32,
    talk: &Talk,
    compared: Compared,
) -> Result<(), NoMemory>
    requires { IsCounter (job_of job.now) talk.now.counter }
    ensures { OnOk result ((start : Start) → IsStartOf (job_of job.now) talk.now.counter start
        → report.new.items ≡ report.old.items ++ pal_report (job_of job.now) steps talk.now.text start compared) }
{
    match compared {
        Compared::Same => append_same(alloc, report, job, steps, talk),
        Compared::Differs { .. } => append_comparison(alloc, report, job, steps, compared),
    }
}

/// Compares so many steps from the start of a console run.
fn told(alloc: Global, job: &Job, steps: u32, talk: &Talk) -> Result<Outcome, NoMemory>
    requires { IsCounter (job_of job.now) talk.now.counter }
    ensures { IfOk result (λ outcome. (start : Start) → IsStartOf (job_of job.now) talk.now.counter start
        → IsTold (job_of job.now) steps talk.now.text start outcome.status outcome.report.items) }
{
    let compared = compare(alloc, job, &talk.counter, steps, false)?;
    let mut report = Vec::new(alloc);
    append_pal(alloc, &mut report, job, steps, talk, compared)?;
    Ok(Outcome {
        status: status_of(compared),
        report,
    })
}

/// Runs the program at its console for so many steps, and compares as many from the start of that run.
pub(super) fn report(alloc: Global, given: &Console, steps: u32) -> Result<Outcome, NoMemory>
    ensures { IfOk result (λ outcome. IsPal steps given.now outcome.status outcome.report.items) }
{
    let Console {
        labelled: Labelled { job, .. },
        memory,
        keys,
    } = given;
    let talk = console(alloc, job, memory.as_slice(), keys.as_slice(), steps)?;
    let outcome = told(alloc, job, steps, &talk);
    drop(talk);
    outcome
}
