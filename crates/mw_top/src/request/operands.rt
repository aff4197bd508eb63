// The words behind the command: the names of its files, or the number of a job.
ghost use Rattle.std.specs.Prelude.{◌≡◌, [], IfOk, IfSome, length, map, option_map, string_bytes};
ghost use Rattle.clap.specs.Words.{found_of, rows_of};
ghost use Rattle.mw_top.specs.Operands.{as_files, as_job_number, file_count, operands_data, operands_of, words_in};

use super::options::number_within;
use clap::ArgMatches;
use mw_base::NoMemory;
use std::alloc::Global;

/// What is expected behind the command.
#[derive(Clone, Copy)]
pub(crate) enum Expected {
    /// So many files.
    Files(usize),
    /// The number of a job.
    JobNumber,
}

/// What the words behind the command give.
#[derive(Drop)]
pub(crate) struct Operands {
    /// The names of files; none where a number is expected.
    pub(crate) files: Vec<String>,
    /// The number of a job; 0 where files are expected.
    pub(crate) number: u16,
}

/// Copies of texts.
fn copies(alloc: Global, texts: &[&str]) -> Result<Vec<String>, NoMemory>
    ensures { IfOk result (λ copies. map string_bytes copies.items ≡ map (λ text. text.now) texts.now) }
{
    let mut copies = Vec::new(alloc);
    for text in texts {
        copies.push(String::from_str(alloc, text)?)?;
    }
    Ok(copies)
}

/// The words as names of files, where there are so many.
fn as_files(alloc: Global, count: usize, words: &[&str]) -> Result<Option<Operands>, NoMemory>
    ensures exact { IfOk result
        (λ operands. option_map operands_data operands ≡ as_files count (map (λ word. word.now) words.now)) }
    ensures count { IfOk result (λ operands. IfSome operands (λ o. length o.files.items ≡ count)) }
{
    if words.len() != count {
        return Ok(None);
    }
    let files = copies(alloc, words)?;
    Ok(Some(Operands { files, number: 0 }))
}

/// The one word as the number of a job.
fn as_job_number(alloc: Global, words: &[&str]) -> Option<Operands>
    ensures exact { option_map operands_data result ≡ as_job_number (map (λ word. word.now) words.now) }
    ensures none { IfSome result (λ operands. operands.files.items ≡ []) }
{
    let [word] = words else {
        return None;
    };
    let number = number_within(0, u32::from(u16::MAX), word.as_bytes())?;
    Some(Operands {
        files: Vec::new(alloc),
        number: number as u16,
    })
}

/// The words as what is expected.
fn operands_of(
    alloc: Global,
    expected: Expected,
    words: &[&str],
) -> Result<Option<Operands>, NoMemory>
    ensures exact { IfOk result
        (λ operands. option_map operands_data operands ≡ operands_of expected (map (λ word. word.now) words.now)) }
    ensures count { IfOk result (λ operands. IfSome operands (λ o. length o.files.items ≡ file_count expected)) }
{
    match expected {
        Expected::Files(count) => as_files(alloc, count, words),
        Expected::JobNumber => Ok(as_job_number(alloc, words)),
    }
}

/// The words of a line behind the command, as what is expected.
///
/// # Errors
///
/// Memory ran out.
pub(crate) fn operands_in(
    alloc: Global,
    expected: Expected,
    line: &ArgMatches<'_>,
) -> Result<Option<Operands>, NoMemory>
    ensures exact { IfOk result
        (λ operands.
        option_map operands_data operands ≡ operands_of expected (words_in (rows_of (found_of line.now)))) }
    ensures count { IfOk result (λ operands. IfSome operands (λ o. length o.files.items ≡ file_count expected)) }
{
    match line.get_strs("operands") {
        Some(words) => operands_of(alloc, expected, words),
        None => operands_of(alloc, expected, &[]),
    }
}
