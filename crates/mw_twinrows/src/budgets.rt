// Budgets of forks, and what is over one.
ghost use Rattle.std.specs.Prelude.{◌≡◌, false, IfOk};

use crate::decided::push_prefix;
use mw_fork::{Budget, ForkFault, Over};
use mw_rowfile::named::{hexadecimal_of, word};
use mw_rowfile::{Fault, Report};

/// More cases than this are not asked for.
pub const MOST_CASES: u32 = 65_536;

/// The budget that the words `nodes=` and `paths=` of a call name.
///
/// # Errors
///
/// A word is missing, or is no hexadecimal number of 32 bits.
pub fn budget_of(given: &[String]) -> Result<Budget, Fault> {
    Ok(Budget {
        nodes: word(hexadecimal_of(given, "nodes")?)?,
        paths: word(hexadecimal_of(given, "paths")?)?,
    })
}

/// Appends what is over its budget.
fn push_over(report: &mut Report, over: &Over) {
    match over {
        Over::Nodes {
            prefix,
            word,
            bit,
            ..
        } => {
            report.push(b"over nodes prefix");
            push_prefix(report, prefix.as_slice());
            report.push(b" word ");
            report.push_decimal(*word);
            report.push(b" bit ");
            report.push_decimal(u64::from(*bit));
        }
        Over::Paths { limit, .. } => {
            report.push(b"over paths ");
            report.push_decimal(u64::from(*limit));
        }
    }
    report.push(b"\n");
}

/// Appends what is over its budget: the limit of paths, or the bits before an operation, its word and its bit. Nothing
/// comes behind it, so the answer is that no more does.
///
/// # Errors
///
/// Memory ran out.
pub fn push_fault(report: &mut Report, fault: ForkFault) -> Result<bool, Fault>
    ensures { IfOk result (λ more. more ≡ false) }
{
    match fault {
        ForkFault::Over(over) => {
            push_over(report, &over);
            drop(over);
            Ok(false)
        }
        ForkFault::NoMemory => Err(Fault::NoMemory),
    }
}
