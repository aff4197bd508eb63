// Logs as texts.
ghost use Rattle.std.specs.Prelude.{◌≡◌, ◌++◌, length, true, Ok, IfOk, OnOk};
ghost use Rattle.std.specs.List.{flat_map, list_all};
ghost use Rattle.mw_recheck.specs.LogPrinted.{number_text, numbers_line, line_text, boundary_text, log_text};
ghost use Rattle.mw_recheck.specs.LogPrinted.{is_narrow, are_narrow};
ghost use Rattle.mw_recheck.specs.LogText.{log_of};

use crate::line::LogLine;
use crate::log::Log;
use mw_base::{Items, NoMemory, append_decimal};
use std::alloc::Global;

/// Appends a number, behind a blank.
fn append_number(alloc: Global, text: &mut Vec<u8>, value: u64) -> Result<(), NoMemory>
    ensures { OnOk result (text.new.items ≡ text.old.items ++ number_text value) }
{
    text.extend_from_slice(b" ")?;
    append_decimal(alloc, text, value)
}

/// Appends numbers, each behind a blank.
fn append_numbers(alloc: Global, text: &mut Vec<u8>, values: &[u64]) -> Result<(), NoMemory>
    ensures { OnOk result (text.new.items ≡ text.old.items ++ flat_map number_text values.now) }
{
    for value in values {
        append_number(alloc, text, *value)?;
    }
    Ok(())
}

/// Appends a line of a word and numbers.
fn append_numbers_line(
    alloc: Global,
    text: &mut Vec<u8>,
    word: &[u8],
    values: &[u64],
) -> Result<(), NoMemory>
    ensures { OnOk result (text.new.items ≡ text.old.items ++ numbers_line word.now values.now) }
{
    text.extend_from_slice(word)?;
    append_numbers(alloc, text, values)?;
    text.extend_from_slice(b"\n")?;
    Ok(())
}

/// Appends a line of a log.
#[tactic(auto, unfolding(crate::specs::LogPrinted::line_text))]
fn append_line(alloc: Global, text: &mut Vec<u8>, line: LogLine) -> Result<(), NoMemory>
    ensures exact { OnOk result (text.new.items ≡ text.old.items ++ line_text line) }
    ensures narrow { is_narrow line ≡ true }
{
    match line {
        LogLine::Node {
            word,
            bit,
            high,
            low,
        } => append_numbers_line(alloc, text, b"n", &[word, u64::from(bit), high, low]),
        LogLine::Fact { f, g, h, r } => append_numbers_line(alloc, text, b"i", &[f, g, h, r]),
    }
}

/// Appends lines of a log.
fn append_lines(alloc: Global, text: &mut Vec<u8>, lines: &[LogLine]) -> Result<(), NoMemory>
    ensures exact { OnOk result (text.new.items ≡ text.old.items ++ flat_map line_text lines.now) }
    ensures narrow { OnOk result (are_narrow lines.now ≡ true) }
{
    for line in lines {
        append_line(alloc, text, *line)?;
    }
    Ok(())
}

/// Appends the lines of a boundary, behind a line for it.
#[tactic(auto, unfolding(crate::specs::LogPrinted::boundary_text))]
fn append_boundary(
    alloc: Global,
    text: &mut Vec<u8>,
    lines: &Items<LogLine>,
) -> Result<(), NoMemory>
    ensures exact { OnOk result (text.new.items ≡ text.old.items ++ boundary_text lines.now) }
    ensures narrow { OnOk result (are_narrow lines.now ≡ true) }
{
    text.extend_from_slice(b"boundary\n")?;
    append_lines(alloc, text, lines.as_slice())
}

/// The text of a log: for each boundary a line `boundary`, then its lines `n WORD BIT HIGH LOW` and `i F G H R`.
///
/// Blanks are single, numbers decimal and without leading zeros, and each line ends with a line feed. The text spells
/// the log for `read_log_of`.
///
/// # Errors
///
/// Memory ran out.
#[tactic(auto, unfolding(crate::specs::LogPrinted::log_text))]
pub fn print_log(alloc: Global, log: &Log) -> Result<Vec<u8>, NoMemory>
    ensures exact { IfOk result (λ text. text.items ≡ log_text log.now) }
    ensures reads_back { IfOk result (λ text. log_of (length log.now) text.items ≡ Ok log.now) }
{
    let mut text = Vec::new(alloc);
    for lines in log.boundaries() {
        append_boundary(alloc, &mut text, lines)?;
    }
    Ok(text)
}
