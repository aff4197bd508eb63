// `call number TEXT`: the number that the text spells, in decimal, or the cause for which it spells none.
use mw_base::number;
use mw_rowfile::{Fault, Report, wrong};
use std::alloc::Global;

/// Appends a line with the number that the one word spells, or with the cause for which it spells none.
///
/// # Errors
///
/// More words or none.
pub fn read(alloc: Global, report: &mut Report, given: &[String]) -> Result<(), Fault> {
    let [text] = given else {
        return Err(wrong("`number` has one word"));
    };
    match number(text.as_bytes()) {
        Ok(value) => report.push_text(format!(in alloc; "{value}\n")),
        Err(cause) => report.push_text(format!(in alloc; "cause {}\n", cause.number())),
    }
    Ok(())
}
