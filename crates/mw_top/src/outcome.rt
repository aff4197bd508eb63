// What the work of a call ends with, before anything is written.
ghost use Rattle.std.specs.Prelude.{◌≡◌, IfOk};
ghost use Rattle.mw_top.specs.Report.{usage_line, fault_line, refusal_line};
ghost use Rattle.mw_top.specs.declared.status.Status.TheVariants.{Usage, ReadFault, Refused};

use crate::fault::Fault;
use crate::report::{append_fault, append_refusal, append_usage};
use crate::status::Status;
use mw_base::NoMemory;
use mw_plan::FileFault;
use std::alloc::Global;

/// A status, and the report that is to be written.
#[derive(Drop)]
pub(crate) struct Outcome {
    pub(crate) status: Status,
    pub(crate) report: Vec<u8>,
}

/// The words are no request.
pub(crate) fn usage_outcome(alloc: Global) -> Result<Outcome, NoMemory>
    ensures status { IfOk result (λ outcome. outcome.status ≡ Usage) }
    ensures report { IfOk result (λ outcome. outcome.report.items ≡ usage_line) }
{
    let mut report = Vec::new(alloc);
    append_usage(&mut report)?;
    Ok(Outcome {
        status: Status::Usage,
        report,
    })
}

/// The file can't be read.
pub(crate) fn read_fault_outcome(alloc: Global, file: &str) -> Result<Outcome, NoMemory>
    ensures status { IfOk result (λ outcome. outcome.status ≡ ReadFault) }
    ensures report { IfOk result (λ outcome. outcome.report.items ≡ fault_line file.now) }
{
    let mut report = Vec::new(alloc);
    append_fault(&mut report, file)?;
    Ok(Outcome {
        status: Status::ReadFault,
        report,
    })
}

/// The file is refused.
pub(crate) fn refusal_outcome(
    alloc: Global,
    file: &str,
    fault: &FileFault<Fault>,
) -> Result<Outcome, NoMemory>
    ensures status { IfOk result (λ outcome. outcome.status ≡ Refused) }
    ensures report { IfOk result (λ outcome. outcome.report.items ≡ refusal_line file.now fault.now) }
{
    let mut report = Vec::new(alloc);
    append_refusal(alloc, &mut report, file, fault)?;
    Ok(Outcome {
        status: Status::Refused,
        report,
    })
}
