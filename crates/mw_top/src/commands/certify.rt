// certify: a board file, a microprogram for its board, a described machine, and a relation between both.
ghost use Rattle.std.specs.Prelude.{◌≡◌, ◌<◌, ◌++◌, [], IfOk, OnOk, length, nat_le};
ghost use Rattle.std.specs.List.{list_any};
ghost use Rattle.mw_check.specs.Verdict.{IsNo, IsVerdict};
ghost use Rattle.mw_outside.specs.Views.{IsLater, shelf_shown};
ghost use Rattle.mw_plan.specs.Steps.{Ends};
ghost use Rattle.mw_rel.specs.Seen.{boundary_of, lines_of};
ghost use Rattle.mw_rel.specs.Views.{job_of};
ghost use Rattle.mw_replay.specs.CounterPrinted.{no_lines};
ghost use Rattle.mw_top.specs.Commands.Certify.{boundary_text, certify_plan, count_text, boundary_over_budget};
ghost use Rattle.mw_top.specs.Commands.Certify.{operation_text};
ghost use Rattle.mw_top.specs.Commands.Certify.{states_text, summary_line, summary_lines, unknown_report};
ghost use Rattle.mw_top.specs.Commands.Certify.{verdict_status, yes_report, IsCertification, IsNoReport};
ghost use Rattle.mw_top.specs.Commands.Certify.{IsVerdictReport, Shows};
ghost use Rattle.mw_top.specs.Differences.{AreOf32Bits};
ghost use Rattle.mw_top.specs.Report.{difference_text};

use super::Work;
use super::equal::append_word;
use super::job::{FileJob, read_job};
use crate::fault::Fault;
use crate::outcome::Outcome;
use crate::prefix_text::append_prefix;
use crate::report::{append_decimal_line, append_difference_line};
use crate::status::Status;
use mw_base::{NoMemory, append_decimal, append_hex};
use mw_check::{Summary, Verdict, certify};
use mw_fork::{Budget, Decided, Over};
use mw_outside::Shelf;
use mw_plan::{Files, Stop};
use mw_rel::{Boundary, Difference, Job, Line};
use mw_replay::{Counter, print_counter, replay};
use mw_sim::append_line;
use mw_term::ShortcutBook;
use std::alloc::Global;

/// Reads the job.
#[tactic(auto, unfolding(crate::specs::Commands::Certify::certify_plan))]
pub(super) fn read<S: Shelf>(
    alloc: Global,
    shelf: &mut S,
    files: &mut Files<'_, Work, Fault>,
) -> Result<Work, Stop<Fault>>
    requires four { length files.old.names ≡ 4 }
    requires none_read { files.old.contents ≡ [] }
    ensures ends { Ends certify_plan (shelf_shown S.Shelf shelf.old) (shelf_shown S.Shelf shelf.new) files.new result }
    ensures names { files.new.names ≡ files.old.names }
    ensures later { IsLater (shelf_shown S.Shelf shelf.old) (shelf_shown S.Shelf shelf.new) }
{
    let labelled = read_job(alloc, shelf, files)?;
    Ok(Work::Certification(FileJob { job: labelled.job }))
}

/// The status of a verdict.
fn status_of(verdict: &Verdict) -> Status
    ensures { result ≡ verdict_status verdict.now }
{
    match verdict {
        Verdict::Yes(_) => Status::Done,
        Verdict::No(_) => Status::Differs,
        Verdict::Unknown(_) => Status::Unknown,
    }
}

/// Appends a boundary, by its control address.
#[tactic(auto, unfolding(crate::specs::Commands::Certify::boundary_text))]
pub(super) fn append_boundary(
    alloc: Global,
    report: &mut Vec<u8>,
    job: &Job,
    number: usize,
) -> Result<(), NoMemory>
    requires { number < length (job_of job.now).relation.boundaries }
    ensures { OnOk result (report.new.items ≡ report.old.items ++ boundary_text (job_of job.now) number) }
{
    report.extend_from_slice(b"boundary ")?;
    append_hex(alloc, report, u128::from(job.boundary(number).address))
}

/// Whether an element from a number on is left of one of some lines.
fn is_left_from(lines: &[Line], number: usize) -> bool
    ensures { result ≡ list_any (λ line. nat_le number line.left) (lines_of lines.now) }
{
    for line in lines {
        if line.left as usize >= number {
            return true;
        }
    }
    false
}

/// Whether the pairs in relation at a boundary have all states of the machine, in a word.
#[tactic(auto, unfolding(crate::specs::Commands::Certify::states_text))]
fn states_of(job: &Job, boundary: &Boundary) -> &'static [u8]
    ensures { result.now ≡ states_text (job_of job.now) (boundary_of boundary.now) }
{
    // The machine's registers have the numbers behind those of the board's elements.
    if is_left_from(boundary.lines.as_slice(), job.board.element_count()) {
        b"restricted"
    } else {
        b"all"
    }
}

/// Appends a count, behind what is counted.
fn append_count(
    alloc: Global,
    report: &mut Vec<u8>,
    front: &[u8],
    count: u32,
) -> Result<(), NoMemory>
    ensures { OnOk result (report.new.items ≡ report.old.items ++ count_text front.now count) }
{
    report.extend_from_slice(front)?;
    append_decimal(alloc, report, u64::from(count))
}

/// Appends the line of a boundary's summary.
#[tactic(auto, unfolding(crate::specs::Commands::Certify::summary_line))]
fn append_summary(
    alloc: Global,
    report: &mut Vec<u8>,
    job: &Job,
    number: usize,
    summary: Summary,
) -> Result<(), NoMemory>
    requires { number < length (job_of job.now).relation.boundaries }
    ensures { OnOk result (report.new.items ≡ report.old.items ++ summary_line (job_of job.now) number summary) }
{
    append_boundary(alloc, report, job, number)?;
    append_count(alloc, report, b" cases ", summary.cases)?;
    append_count(alloc, report, b" cycles ", summary.cycles)?;
    report.extend_from_slice(b" machine-states ")?;
    append_line(report, states_of(job, job.boundary(number)))
}

/// Appends the lines of all boundaries.
fn append_summaries(
    alloc: Global,
    report: &mut Vec<u8>,
    job: &Job,
    summaries: &[Summary],
) -> Result<(), NoMemory>
    requires { length summaries.now ≡ length (job_of job.now).relation.boundaries }
    ensures { OnOk result (report.new.items ≡ report.old.items ++ summary_lines (job_of job.now) summaries.now) }
{
    for number in 0..summaries.len() {
        append_summary(alloc, report, job, number, summaries[number])?;
    }
    Ok(())
}

/// Appends that a job is certified.
#[tactic(auto, unfolding(crate::specs::Commands::Certify::yes_report))]
fn append_yes(
    alloc: Global,
    report: &mut Vec<u8>,
    job: &Job,
    summaries: &[Summary],
) -> Result<(), NoMemory>
    requires { length summaries.now ≡ length (job_of job.now).relation.boundaries }
    ensures { OnOk result (report.new.items ≡ report.old.items ++ yes_report (job_of job.now) summaries.now) }
{
    append_line(report, b"yes")?;
    append_summaries(alloc, report, job, summaries)
}

/// Appends the rest of the line of an operation: its prefix, its word and its bit.
#[tactic(auto, unfolding(crate::specs::Commands::Certify::operation_text))]
fn append_operation(
    alloc: Global,
    report: &mut Vec<u8>,
    prefix: &[Decided],
    word: u64,
    bit: u8,
) -> Result<(), NoMemory>
    ensures { OnOk result (report.new.items ≡ report.old.items ++ operation_text prefix.now word bit) }
{
    report.extend_from_slice(b" prefix ")?;
    append_prefix(alloc, report, prefix)?;
    append_word(alloc, report, word, bit)?;
    append_line(report, b"")
}

/// Appends that something is over the budget.
#[tactic(auto, unfolding(crate::specs::Commands::Certify::unknown_report))]
pub(super) fn append_unknown(
    alloc: Global,
    report: &mut Vec<u8>,
    job: &Job,
    over: &Over,
) -> Result<(), NoMemory>
    requires { boundary_over_budget over.now < length (job_of job.now).relation.boundaries }
    ensures { OnOk result (report.new.items ≡ report.old.items ++ unknown_report (job_of job.now) over.now) }
{
    match over {
        Over::Nodes {
            boundary,
            prefix,
            word,
            bit,
        } => {
            report.extend_from_slice(b"unknown nodes ")?;
            append_boundary(alloc, report, job, *boundary)?;
            append_operation(alloc, report, prefix.as_slice(), *word, *bit)
        }
        Over::Paths { boundary, limit } => {
            report.extend_from_slice(b"unknown paths ")?;
            append_boundary(alloc, report, job, *boundary)?;
            append_decimal_line(alloc, report, b" limit ", *limit)
        }
    }
}

/// The difference that the start of a counter shows, which a no has.
fn difference_shown(alloc: Global, job: &Job, counter: &Counter) -> Result<Difference, NoMemory>
    requires { IsNo (job_of job.now) counter.now }
    ensures { IfOk result (Shows (job_of job.now) counter.now) }
{
    match replay(alloc, job, counter)? {
        Some(difference) => Ok(difference),
        None => unreachable!(),
    }
}

/// Appends the lines before a counter: that a start differs, and by what difference.
fn append_no_lines(
    alloc: Global,
    report: &mut Vec<u8>,
    job: &Job,
    difference: Difference,
) -> Result<(), NoMemory>
    ensures lines { OnOk result
        (report.new.items ≡ report.old.items ++ no_lines (difference_text (job_of job.now) difference)) }
    ensures numbers { OnOk result (AreOf32Bits difference) }
{
    append_line(report, b"no")?;
    append_difference_line(alloc, report, job, difference)
}

/// Appends that a start differs: the difference, and its counter.
fn append_no(
    alloc: Global,
    report: &mut Vec<u8>,
    job: &Job,
    counter: &Counter,
) -> Result<(), NoMemory>
    requires empty { report.old.items ≡ [] }
    requires no { IsNo (job_of job.now) counter.now }
    ensures { OnOk result (IsNoReport (job_of job.now) counter.now report.new.items) }
{
    // A call for the proof: its clause `kept` says what holds of every board.
    let _ = job.board.parts();
    let difference = difference_shown(alloc, job, counter)?;
    append_no_lines(alloc, report, job, difference)?;
    let text = print_counter(alloc, job, counter)?;
    report.extend_from_slice(&text)?;
    Ok(())
}

/// Appends a verdict.
fn append_verdict(
    alloc: Global,
    report: &mut Vec<u8>,
    job: &Job,
    budget: Budget,
    verdict: &Verdict,
) -> Result<(), NoMemory>
    requires empty { report.old.items ≡ [] }
    requires is { IsVerdict (job_of job.now) budget verdict.now }
    ensures { OnOk result (IsVerdictReport (job_of job.now) verdict.now report.new.items) }
{
    match verdict {
        Verdict::Yes(summaries) => append_yes(alloc, report, job, summaries.as_slice()),
        Verdict::No(counter) => append_no(alloc, report, job, counter),
        Verdict::Unknown(over) => append_unknown(alloc, report, job, over),
    }
}

/// Certifies a job within a budget.
pub(super) fn report(
    alloc: Global,
    job: &Job,
    budget: Budget,
    book: &ShortcutBook,
) -> Result<Outcome, NoMemory>
    ensures { IfOk result (λ outcome. IsCertification budget (job_of job.now) outcome.status outcome.report.items) }
{
    let verdict = certify(alloc, job, budget, book)?;
    let mut report = Vec::new(alloc);
    append_verdict(alloc, &mut report, job, budget, &verdict)?;
    Ok(Outcome {
        status: status_of(&verdict),
        report,
    })
}
