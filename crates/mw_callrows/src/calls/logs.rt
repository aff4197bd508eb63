// `call log boundaries=N`: reads the file `text`, the text of a certificate log of so many boundaries, in hexadecimal.
// `call job-log`: reads that of the file `l`, for the job of the board of the file `b` with the microprogram of the
// file `m`, the machine of the file `k` and the relation of the file `r`. What is read is printed; or one line has the
// first fault.
use super::pairs::read_job;
use mw_base::Refusal;
use mw_recheck::{Log, print_log, read_log, read_log_of};
use mw_rowfile::named::{hexadecimal_of, word};
use mw_rowfile::{Fault, File, Report};
use mw_twinrows::texts::text_of;
use std::alloc::Global;

/// Appends the lines of a log, or of the first fault of its text.
fn push_log(alloc: Global, report: &mut Report, read: Result<Log, Refusal>) -> Result<(), Fault> {
    match read {
        Ok(log) => {
            let text = print_log(alloc, &log);
            drop(log);
            report.push(&text?);
        }
        Err(refusal) => report.push_refusal(refusal),
    }
    Ok(())
}

/// Appends the lines of a log of `boundaries=` boundaries, or of the first fault of its text.
///
/// # Errors
///
/// Words or files that aren't what the call reads, and want of memory.
pub fn read(
    alloc: Global,
    report: &mut Report,
    given: &[String],
    files: &[File],
) -> Result<(), Fault> {
    let boundaries = word(hexadecimal_of(given, "boundaries")?)?;
    let text = text_of(files, "text")?;
    push_log(alloc, report, read_log_of(alloc, boundaries as usize, text))
}

/// Appends the lines of the log of a job, or of the first fault of its text.
///
/// # Errors
///
/// Files that aren't what the call reads, and want of memory.
pub fn of_job(alloc: Global, report: &mut Report, files: &[File]) -> Result<(), Fault> {
    let text = text_of(files, "l")?;
    let job = read_job(alloc, files, "r")?;
    let read = read_log(alloc, &job, text);
    drop(job);
    push_log(alloc, report, read)
}
