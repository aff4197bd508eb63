// `call twin-cases nodes=N paths=N`: the cases of each block of the KEEP text of the file `k`, which speaks of the
// programs of the files `m`, the old one, and `n`, the new one, on the board of the file `b`, within this budget; nodes
// and paths are hexadecimal. A line for each block with its two control addresses, and one for each case: its bits,
// those of the old segment before those of the new one, and after how many cycles both segments are at a boundary; of
// one that is late it says so, and behind a late old segment there is no new one. What is over its budget ends the list
// of a block with a line.
ghost use Rattle.std.specs.Prelude.{◌≡◌, ◌<◌, length};
ghost use Rattle.mw_revise.specs.Kept.{IsKeep};
ghost use Rattle.mw_revise.specs.Revision.{IsRevision, addresses_of};
ghost use Rattle.mw_revise.specs.declared.programs.Side.TheVariants.{New, Old};
ghost use Rattle.mw_twinrows.specs.Revised.{IsBlockAt};

use crate::budgets::{MOST_CASES, budget_of, push_fault};
use crate::decided::push_prefix;
use crate::revised::{addresses, block_at, read_revision};
use mw_explore::Case;
use mw_fork::Budget;
use mw_revise::{Revision, Side};
use mw_rowfile::{Fault, File, Report, wrong};
use mw_term::ShortcutBook;
use mw_twin::RevisedBlock;
use mw_twinfork::{TwinEnd, TwinFork};
use std::alloc::Global;

/// Appends after how many cycles a segment is at a boundary.
fn push_cycles(report: &mut Report, side: &[u8], cycles: u32) {
    report.push(side);
    report.push_decimal(u64::from(cycles));
}

/// Appends how both segments of a case end.
fn push_end(report: &mut Report, end: TwinEnd) {
    match end {
        TwinEnd::LateOld => report.push(b" late old"),
        TwinEnd::LateNew(before) => {
            push_cycles(report, b" old ", before);
            report.push(b" late new");
        }
        TwinEnd::Reached(before, after) => {
            push_cycles(report, b" old ", before);
            push_cycles(report, b" new ", after);
        }
    }
}

/// Appends the line of a case.
fn push_case(report: &mut Report, case: &Case<TwinEnd>) {
    report.push(b"case");
    push_prefix(report, case.prefix.as_slice());
    push_end(report, case.end);
    report.push(b"\n");
}

/// Appends the next case of a fork, and answers whether there was one.
fn push_next(
    alloc: Global,
    report: &mut Report,
    fork: &mut TwinFork<'_>,
    book: &ShortcutBook,
) -> Result<bool, Fault> {
    match fork.next_case(alloc, book) {
        Ok(Some(case)) => {
            push_case(report, &case);
            drop(case);
            Ok(true)
        }
        Ok(None) => Ok(false),
        Err(fault) => push_fault(report, fault),
    }
}

/// Appends the cases of a fork.
fn push_all(
    alloc: Global,
    report: &mut Report,
    fork: &mut TwinFork<'_>,
    book: &ShortcutBook,
) -> Result<(), Fault> {
    for _ in 0..=MOST_CASES {
        if !push_next(alloc, report, fork, book)? {
            return Ok(());
        }
    }
    Err(wrong("more cases than are asked for"))
}

/// Appends the line of a block.
fn push_block(report: &mut Report, revised: &RevisedBlock) {
    report.push_named(b"boundary 0x", u64::from(revised.block.before));
    report.push_named(b" 0x", u64::from(revised.block.after));
    report.push(b"\n");
}

/// Appends the cases of a block, which has this number.
fn push_cases(
    alloc: Global,
    report: &mut Report,
    revised: RevisedBlock<'_>,
    number: usize,
    budget: Budget,
) -> Result<(), Fault>
    requires { IsBlockAt number revised }
{
    push_block(report, &revised);
    let mut fork = TwinFork::start(alloc, revised, number, budget);
    let book = ShortcutBook::new(alloc);
    let outcome = push_all(alloc, report, &mut fork, &book);
    drop(book);
    drop(fork);
    outcome
}

/// Appends the cases of the block of this number.
fn push_at(
    alloc: Global,
    report: &mut Report,
    revision: &Revision,
    before: &[u16],
    after: &[u16],
    number: usize,
    budget: Budget,
) -> Result<(), Fault>
    requires revision { IsRevision revision.now }
    requires kept { IsKeep revision.now.board revision.now.keep }
    requires before { before.now ≡ addresses_of Old revision.now }
    requires after { after.now ≡ addresses_of New revision.now }
{
    match block_at(revision, before, after, number) {
        Some(revised) => push_cases(alloc, report, revised, number, budget),
        None => Err(wrong("no such boundary")),
    }
}

/// Appends the cases of all blocks of a revision.
fn push_revision(
    alloc: Global,
    report: &mut Report,
    revision: &Revision,
    budget: Budget,
) -> Result<(), Fault>
    requires revision { IsRevision revision.now }
    requires kept { IsKeep revision.now.board revision.now.keep }
{
    let before = addresses(alloc, revision, Side::Old)?;
    let after = addresses(alloc, revision, Side::New)?;
    for number in 0..revision.keep.blocks.as_slice().len() {
        push_at(alloc, report, revision, &before, &after, number, budget)?;
    }
    Ok(())
}

/// Appends the cases of each block of the revision that files give.
///
/// # Errors
///
/// Words or files that aren't what the call reads, and want of memory.
pub fn list(
    alloc: Global,
    report: &mut Report,
    given: &[String],
    files: &[File],
) -> Result<(), Fault> {
    let budget = budget_of(given)?;
    let revision = read_revision(alloc, files)?;
    let outcome = push_revision(alloc, report, &revision, budget);
    drop(revision);
    outcome
}
