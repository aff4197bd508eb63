// `call described` and `call step-words`: steps on terms of the machine of the file `text`. `call terms`: terms of the
// file `text`. `mw_symrows` has what their words say.
use super::machines::machine_in;
use mw_rowfile::{Fault, File, Report, text_in};
use mw_symrows::{described, shortcuts};
use std::alloc::Global;

/// Appends what a step comes to.
///
/// # Errors
///
/// Words or a file that aren't what the call reads, and want of memory.
pub fn run(
    alloc: Global,
    report: &mut Report,
    given: &[String],
    files: &[File],
) -> Result<(), Fault> {
    let machine = machine_in(alloc, files, "text")?;
    let outcome = described::run(alloc, report, given, &machine);
    drop(machine);
    outcome
}

/// Appends the words that a step adds.
///
/// # Errors
///
/// As `run`.
pub fn words(
    alloc: Global,
    report: &mut Report,
    given: &[String],
    files: &[File],
) -> Result<(), Fault> {
    let machine = machine_in(alloc, files, "text")?;
    let outcome = described::words(alloc, report, given, &machine);
    drop(machine);
    outcome
}

/// Appends what the lines of a text of terms give.
///
/// # Errors
///
/// As `run`.
pub fn terms(
    alloc: Global,
    report: &mut Report,
    given: &[String],
    files: &[File],
) -> Result<(), Fault> {
    shortcuts::run(alloc, report, given, text_in(files, "text")?)
}
