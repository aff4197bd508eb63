// `call tokens`: reads the file `text`. A line for each token has its line and column, the places where it begins and
// ends in the text, and what it is; or one line has the first fault.
use mw_base::{Kind, Token, tokens};
use mw_rowfile::{Fault, File, Report, contents, wrong};
use std::alloc::Global;

/// Appends a number and a blank.
fn push_number(report: &mut Report, number: u64) {
    report.push_decimal(number);
    report.push(b" ");
}

fn push_token(alloc: Global, report: &mut Report, token: &Token) {
    push_number(report, u64::from(token.line));
    push_number(report, u64::from(token.column));
    push_number(report, token.start as u64);
    push_number(report, token.end as u64);
    match token.kind {
        Kind::Name => report.push(b"name\n"),
        Kind::Sign => report.push(b"sign\n"),
        Kind::Number(value) => report.push_text(format!(in alloc; "number {value}\n")),
    }
}

/// Appends the lines of the tokens of a text, or of its first fault.
///
/// # Errors
///
/// A text of more than 1,048,576 bytes, which no file that is read has.
pub fn read(alloc: Global, report: &mut Report, files: &[File]) -> Result<(), Fault> {
    let text = contents(files, "text")?;
    if text.len() > 1_048_576 {
        return Err(wrong("a text that is too long"));
    }
    match tokens(alloc, text) {
        Ok(found) => {
            for token in &found {
                push_token(alloc, report, token);
            }
        }
        Err(refusal) => report.push_refusal(refusal),
    }
    Ok(())
}
