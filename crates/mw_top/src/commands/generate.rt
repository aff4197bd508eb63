// generate: a number.
ghost use Rattle.std.specs.Prelude.{◌≡◌, ◌++◌, IfOk, OnOk};
ghost use Rattle.mw_top.specs.Commands.Generate.{IsGeneration, operations_text};

use super::certify;
use crate::outcome::Outcome;
use crate::report::append_decimal_line;
use crate::status::Status;
use mw_base::NoMemory;
use mw_cases::generate;
use mw_fork::Budget;
use mw_term::ShortcutBook;
use std::alloc::Global;

/// Appends the number of operations, where the job is certified.
fn append_operations(alloc: Global, outcome: &mut Outcome, operations: u32) -> Result<(), NoMemory>
    ensures status { outcome.new.status ≡ outcome.old.status }
    ensures report { OnOk result (outcome.new.report.items
        ≡ outcome.old.report.items ++ operations_text outcome.old.status operations) }
{
    match outcome.status {
        Status::Done => append_decimal_line(alloc, &mut outcome.report, b"operations ", operations),
        _ => Ok(()),
    }
}

/// Certifies the job of a number within a budget.
pub(super) fn report(
    alloc: Global,
    number: u16,
    budget: Budget,
    book: &ShortcutBook,
) -> Result<Outcome, NoMemory>
    ensures { IfOk result (λ outcome. IsGeneration budget number outcome.status outcome.report.items) }
{
    let made = generate(alloc, number)?;
    let operations = made.operations;
    let certified = certify::report(alloc, &made.job, budget, book);
    drop(made);
    let mut outcome = certified?;
    append_operations(alloc, &mut outcome, operations)?;
    Ok(outcome)
}
