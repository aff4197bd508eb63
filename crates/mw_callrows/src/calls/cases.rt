// `call cases nodes=N paths=N`: the cases of each boundary of the job of the board of the file `b` with the
// microprogram of the file `m`, the machine of the file `k` and the relation of the file `text`, within this budget;
// nodes and paths are hexadecimal. A line for each boundary with its address, and one for each case: its cycles, each
// as pass, counter zero and next address, its branch bits behind `/`, how many cycles it has, and whether it is late.
// `call count-cases` with the same words: a line for each boundary, with how many cases it has and the cycles of the
// longest. What is over its budget ends the list with a line: the limit of paths, or the bits before an operation, its
// word and its bit.
ghost use Rattle.std.specs.Prelude.{◌≡◌, ◌<◌, length, true, false, IfOk};
ghost use Rattle.mw_rel.specs.Views.{job_of};
ghost use Rattle.mw_fork.specs.Forks.{IsForkOf};

use super::pairs::read_job;
use mw_fork::{Budget, Case, Fork};
use mw_rel::Job;
use mw_rowfile::{Fault, File, Report, wrong};
use mw_term::ShortcutBook;
use mw_twinrows::budgets::{MOST_CASES, budget_of, push_fault};
use mw_twinrows::decided::push_prefix;
use std::alloc::Global;

/// Appends the line of a case.
pub(super) fn push_case(report: &mut Report, case: &Case) {
    report.push(b"case");
    push_prefix(report, case.prefix.as_slice());
    report.push(b" cycles ");
    report.push_decimal(u64::from(case.cycles));
    report.push(b" late ");
    report.push_bit(case.late);
    report.push(b"\n");
}

/// The cases of a boundary so far.
#[derive(Drop)]
struct Cases {
    /// A line for each.
    lines: Report,
    count: u32,
    longest: u32,
    /// The line of what is over its budget, where something is.
    over: Report,
}

impl Cases {
    /// No case.
    fn new(alloc: Global) -> Cases {
        Cases {
            lines: Report::new(alloc),
            count: 0,
            longest: 0,
            over: Report::new(alloc),
        }
    }

    /// Takes one more.
    fn take(&mut self, case: &Case) {
        push_case(&mut self.lines, case);
        self.count = self.count.saturating_add(1);
        self.longest = self.longest.max(case.cycles);
    }

    /// Takes the next case of a fork, and answers whether there was one.
    fn take_next(
        &mut self,
        alloc: Global,
        job: &Job,
        fork: &mut Fork<'_>,
        book: &ShortcutBook,
    ) -> Result<bool, Fault>
        requires { IsForkOf (job_of job.now) fork.old }
        ensures { IfOk result (λ more. more ≡ true → IsForkOf (job_of job.now) fork.new) }
    {
        match fork.next_case(alloc, job, book) {
            Ok(Some(case)) => {
                self.take(&case);
                drop(case);
                Ok(true)
            }
            Ok(None) => Ok(false),
            Err(fault) => push_fault(&mut self.over, fault),
        }
    }

    /// Takes the cases of a fork.
    fn take_all(
        &mut self,
        alloc: Global,
        job: &Job,
        fork: &mut Fork<'_>,
        book: &ShortcutBook,
    ) -> Result<(), Fault>
        requires { IsForkOf (job_of job.now) fork.old }
    {
        for _ in 0..=MOST_CASES {
            if !self.take_next(alloc, job, fork, book)? {
                return Ok(());
            }
        }
        Err(wrong("more cases than are asked for"))
    }

    /// Takes the cases of the boundary of this number.
    fn take_boundary(
        &mut self,
        alloc: Global,
        job: &Job,
        boundary: usize,
        budget: Budget,
    ) -> Result<(), Fault>
        requires { boundary < length (job_of job.now).relation.boundaries }
    {
        let Ok(mut fork) = Fork::start(alloc, job, boundary, budget) else {
            unreachable!()
        };
        let book = ShortcutBook::new(alloc);
        let outcome = self.take_all(alloc, job, &mut fork, &book);
        drop(book);
        drop(fork);
        outcome
    }
}

/// What is printed of the cases of a boundary.
#[derive(Clone, Copy)]
enum Printed {
    /// A line for each.
    Lines,
    /// How many there are.
    Count,
}

/// Appends the cases of the boundary at an address.
fn push_cases(report: &mut Report, address: u16, cases: &Cases, printed: Printed) {
    report.push_named(b"boundary 0x", u64::from(address));
    match printed {
        Printed::Lines => {
            report.push(b"\n");
            report.push_report(&cases.lines);
        }
        Printed::Count => {
            report.push(b" cases ");
            report.push_decimal(u64::from(cases.count));
            report.push(b" cycles ");
            report.push_decimal(u64::from(cases.longest));
            report.push(b"\n");
        }
    }
    report.push_report(&cases.over);
}

/// Appends the cases of the boundary of this number.
fn push_boundary(
    alloc: Global,
    report: &mut Report,
    job: &Job,
    boundary: usize,
    budget: Budget,
    printed: Printed,
) -> Result<(), Fault>
    requires { boundary < length (job_of job.now).relation.boundaries }
{
    let mut cases = Cases::new(alloc);
    let outcome = cases.take_boundary(alloc, job, boundary, budget);
    push_cases(report, job.boundary(boundary).address, &cases, printed);
    drop(cases);
    outcome
}

/// Appends the cases of all boundaries of a job within a budget.
fn push_boundaries(
    alloc: Global,
    report: &mut Report,
    job: &Job,
    budget: Budget,
    printed: Printed,
) -> Result<(), Fault> {
    for number in 0..job.relation.boundaries().len() {
        push_boundary(alloc, report, job, number, budget, printed)?;
    }
    Ok(())
}

/// Appends the cases of all boundaries.
fn push_job(
    alloc: Global,
    report: &mut Report,
    given: &[String],
    files: &[File],
    printed: Printed,
) -> Result<(), Fault> {
    let budget = budget_of(given)?;
    let job = read_job(alloc, files, "text")?;
    let outcome = push_boundaries(alloc, report, &job, budget, printed);
    drop(job);
    outcome
}

/// Appends the cases of each boundary of a job.
///
/// # Errors
///
/// Words or files that aren't what the call reads, and want of memory.
pub fn list(
    alloc: Global,
    report: &mut Report,
    given: &[String],
    files: &[File],
) -> Result<(), Fault> {
    push_job(alloc, report, given, files, Printed::Lines)
}

/// Appends how many cases each boundary of a job has.
///
/// # Errors
///
/// As `list`.
pub fn count(
    alloc: Global,
    report: &mut Report,
    given: &[String],
    files: &[File],
) -> Result<(), Fault> {
    push_job(alloc, report, given, files, Printed::Count)
}
