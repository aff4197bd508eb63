// `call differs nodes=N paths=N`: the cases of each boundary of a job as `call cases` has them, over the same files and
// with the same words, and behind each one a start of it that differs: its counter, and the first difference that a
// replay of this text shows; or `same` where none of its starts differs. What is over its budget ends the list of its
// boundary with a line. `call counter`: the text of the file `s`, read as a counter of the same job and printed again,
// or its first fault. A boundary stands there by its address.
ghost use Rattle.std.specs.Prelude.{◌≡◌, ◌<◌, ◌^◌, List, length, true, IfOk};
ghost use Rattle.mw_term.specs.declared.decided.Decided.{Decided};
ghost use Rattle.mw_rel.specs.Views.{job_of};
ghost use Rattle.mw_fork.specs.Begins.{IsDiffering};
ghost use Rattle.mw_explore.specs.Cases.{At};
ghost use Rattle.mw_fork.specs.Forks.{IsForkOf};
ghost use Rattle.mw_replay.specs.Counter.{IsCounter};

use super::cases::push_case;
use super::pairs::read_job;
use super::relations::take_names;
use super::trees::push_name;
use mw_fork::{Budget, Fork};
use mw_rel::{Begin, Job};
use mw_replay::{Counter, Difference, print_counter, read_counter, replay};
use mw_rowfile::{Fault, File, Report, wrong};
use mw_term::ShortcutBook;
use mw_twinrows::budgets::{MOST_CASES, budget_of, push_fault};
use mw_twinrows::texts::text_of;
use std::alloc::Global;

/// The counter of a start that differs. It has a value for each free element and a word for each address.
fn counter_of(job: &Job, boundary: usize, begin: Begin) -> Result<Counter, Fault>
    requires there { boundary < length (job_of job.now).relation.boundaries }
    requires differs { (bits : List Decided) × IsDiffering (job_of job.now) boundary bits begin }
    ensures { IfOk result (IsCounter (job_of job.now)) }
{
    if !begin.fits(job, boundary) {
        drop(begin);
        return Err(wrong("no start"));
    }
    Ok(Counter { boundary, begin })
}

/// Appends the name of an element.
fn push_element(alloc: Global, report: &mut Report, job: &Job, element: u32) -> Result<(), Fault> {
    let mut names = Vec::new(alloc);
    let taken = take_names(alloc, &mut names, &job.board, &job.machine);
    push_name(report, &names, element);
    drop(names);
    taken
}

/// Appends a difference.
fn push_difference(
    alloc: Global,
    report: &mut Report,
    job: &Job,
    difference: Difference,
) -> Result<(), Fault> {
    match difference {
        Difference::Late => report.push(b"late"),
        Difference::Event(number) => {
            report.push(b"event ");
            report.push_decimal(u64::from(number));
        }
        Difference::StackPointer => report.push(b"stack pointer"),
        Difference::Element(element) => {
            report.push(b"element ");
            push_element(alloc, report, job, element)?;
        }
        Difference::Memory(address) => {
            report.push(b"memory ");
            report.push_hex(u64::from(address));
        }
    }
    report.push(b"\n");
    Ok(())
}

/// Appends what a replay of a counter shows.
fn push_shown(alloc: Global, report: &mut Report, job: &Job, counter: &Counter) -> Result<(), Fault>
    requires { IsCounter (job_of job.now) counter.now }
{
    match replay(alloc, job, counter)? {
        Some(difference) => push_difference(alloc, report, job, difference),
        None => {
            report.push(b"no difference\n");
            Ok(())
        }
    }
}

/// The counter that a text of another one gives.
fn read_back(alloc: Global, job: &Job, text: &[u8]) -> Result<Counter, Fault>
    ensures { IfOk result (IsCounter (job_of job.now)) }
{
    if text.len() > 1_048_576 {
        return Err(wrong("a counter that is too long"));
    }
    match read_counter(alloc, job, &[], text) {
        Ok(counter) => Ok(counter),
        Err(_) => Err(wrong("a counter isn't read back")),
    }
}

/// Appends what is shown by a replay of the counter of a text, which has to be the same when it is printed again.
fn push_again(
    alloc: Global,
    report: &mut Report,
    job: &Job,
    counter: &Counter,
    text: &[u8],
) -> Result<(), Fault>
    requires { IsCounter (job_of job.now) counter.now }
{
    let printed = print_counter(alloc, job, counter)?;
    if printed.as_slice() != text {
        report.push(b"another text\n");
    }
    push_shown(alloc, report, job, counter)
}

/// Appends a counter, and what is shown by a replay of its text, which has to be the same when it is printed again.
fn push_counter(
    alloc: Global,
    report: &mut Report,
    job: &Job,
    counter: &Counter,
) -> Result<(), Fault>
    requires { IsCounter (job_of job.now) counter.now }
{
    let text = print_counter(alloc, job, counter)?;
    report.push(&text);
    let again = read_back(alloc, job, &text)?;
    let outcome = push_again(alloc, report, job, &again, &text);
    drop(again);
    outcome
}

/// Appends a start of the case given last that differs, and answers whether more may come.
fn push_differing(
    alloc: Global,
    report: &mut Report,
    job: &Job,
    boundary: usize,
    fork: &mut Fork<'_>,
    book: &ShortcutBook,
) -> Result<bool, Fault>
    requires of { IsForkOf (job_of job.now) fork.old }
    requires there { boundary < length (job_of job.now).relation.boundaries }
    requires boundary { fork.old.boundary ≡ boundary }
    requires given { (last : List Decided) × (fork.old.at ≡ At last) }
    ensures same { IfOk result (λ more. more ≡ true → fork.new ≡ fork.old) }
{
    match fork.differs(alloc, job, book) {
        Ok(Some(begin)) => {
            let counter = counter_of(job, boundary, begin)?;
            let outcome = push_counter(alloc, report, job, &counter);
            drop(counter);
            outcome?;
            Ok(true)
        }
        Ok(None) => {
            report.push(b"same\n");
            Ok(true)
        }
        Err(fault) => push_fault(report, fault),
    }
}

/// Appends a start of the case given last that differs, and answers whether more may come. It is asked for twice: a
/// second answer that isn't the first stands behind it.
fn push_twice(
    alloc: Global,
    report: &mut Report,
    job: &Job,
    boundary: usize,
    fork: &mut Fork<'_>,
    book: &ShortcutBook,
) -> Result<bool, Fault>
    requires of { IsForkOf (job_of job.now) fork.old }
    requires there { boundary < length (job_of job.now).relation.boundaries }
    requires boundary { fork.old.boundary ≡ boundary }
    requires given { (last : List Decided) × (fork.old.at ≡ At last) }
    ensures same { IfOk result (λ more. more ≡ true → fork.new ≡ fork.old) }
{
    let mut first = Report::new(alloc);
    let more = push_differing(alloc, &mut first, job, boundary, fork, book)?;
    report.push_report(&first);
    if !more {
        return Ok(false);
    }
    let mut second = Report::new(alloc);
    let more = push_differing(alloc, &mut second, job, boundary, fork, book)?;
    if second.as_slice() != first.as_slice() {
        report.push_report(&second);
    }
    Ok(more)
}

/// Appends the next case of a fork with a start that differs, and answers whether more may come.
fn push_next(
    alloc: Global,
    report: &mut Report,
    job: &Job,
    boundary: usize,
    fork: &mut Fork<'_>,
    book: &ShortcutBook,
) -> Result<bool, Fault>
    requires of { IsForkOf (job_of job.now) fork.old }
    requires there { boundary < length (job_of job.now).relation.boundaries }
    requires boundary { fork.old.boundary ≡ boundary }
    ensures of { IfOk result (λ more. more ≡ true → IsForkOf (job_of job.now) fork.new) }
    ensures boundary { IfOk result (λ more. more ≡ true → fork.new.boundary ≡ boundary) }
{
    match fork.next_case(alloc, job, book) {
        Ok(Some(case)) => {
            push_case(report, &case);
            drop(case);
            push_twice(alloc, report, job, boundary, fork, book)
        }
        Ok(None) => Ok(false),
        Err(fault) => push_fault(report, fault),
    }
}

/// Appends the cases of a fork, each with a start that differs.
fn push_cases(
    alloc: Global,
    report: &mut Report,
    job: &Job,
    boundary: usize,
    fork: &mut Fork<'_>,
    book: &ShortcutBook,
) -> Result<(), Fault>
    requires of { IsForkOf (job_of job.now) fork.old }
    requires there { boundary < length (job_of job.now).relation.boundaries }
    requires boundary { fork.old.boundary ≡ boundary }
{
    for _ in 0..=MOST_CASES {
        if !push_next(alloc, report, job, boundary, fork, book)? {
            return Ok(());
        }
    }
    Err(wrong("more cases than are asked for"))
}

/// Appends the cases of the boundary of this number, each with a start that differs.
fn push_boundary(
    alloc: Global,
    report: &mut Report,
    job: &Job,
    boundary: usize,
    budget: Budget,
) -> Result<(), Fault>
    requires { boundary < length (job_of job.now).relation.boundaries }
{
    let address = job.boundary(boundary).address;
    report.push_named(b"boundary 0x", u64::from(address));
    report.push(b"\n");
    let Ok(mut fork) = Fork::start(alloc, job, boundary, budget) else {
        unreachable!()
    };
    let book = ShortcutBook::new(alloc);
    let outcome = push_cases(alloc, report, job, boundary, &mut fork, &book);
    drop(book);
    drop(fork);
    outcome
}

/// Appends the cases of each boundary, each with a start that differs.
fn push_boundaries(
    alloc: Global,
    report: &mut Report,
    job: &Job,
    budget: Budget,
) -> Result<(), Fault> {
    for number in 0..job.relation.boundaries().len() {
        push_boundary(alloc, report, job, number, budget)?;
    }
    Ok(())
}

/// Appends the cases of each boundary of a job, each with a start that differs.
///
/// # Errors
///
/// Words or files that aren't what the call reads, and want of memory.
pub fn list(
    alloc: Global,
    report: &mut Report,
    given: &[String],
    files: &[File],
) -> Result<(), Fault> {
    let budget = budget_of(given)?;
    let job = read_job(alloc, files, "text")?;
    let outcome = push_boundaries(alloc, report, &job, budget);
    drop(job);
    outcome
}

/// Appends a text that is read as a counter of a job and printed again, or its first fault.
fn push_printed_again(
    alloc: Global,
    report: &mut Report,
    job: &Job,
    text: &[u8],
) -> Result<(), Fault>
    requires { length text.now < 2 ^ 32 }
{
    match read_counter(alloc, job, &[], text) {
        Ok(counter) => {
            let text = print_counter(alloc, job, &counter);
            drop(counter);
            report.push(&text?);
        }
        Err(refusal) => report.push_refusal(refusal),
    }
    Ok(())
}

/// Appends the counter of a text, printed again.
///
/// # Errors
///
/// Files that aren't what the call reads, and want of memory.
pub fn read(alloc: Global, report: &mut Report, files: &[File]) -> Result<(), Fault> {
    let text = text_of(files, "s")?;
    let job = read_job(alloc, files, "text")?;
    let outcome = push_printed_again(alloc, report, &job, text);
    drop(job);
    outcome
}
