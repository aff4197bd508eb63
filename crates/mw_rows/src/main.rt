//! Runs rows of commands: the words of a command line over files in memory. The arguments are the names of the files.
//! docs/CONTRIBUTING.md has the form of a file of rows.
#![tactic(auto)]

mod outside;

use mw_base::NoMemory;
use mw_rowfile::{End, Fault, File, Work, Worker, run, wrong};
use mw_short::{
    all_constant, double_not, fixed_choice, neutral_constant, part_of_join, same_operands,
};
use mw_term::ShortcutBook;
use mw_top::Status;
use outside::{Outside, bench_over, steady_status};
use std::alloc::Global;
use std::env::Env;
use std::fs::Files;
use std::process::ExitCode;

/// Runs commands by the shortcuts of a book.
#[derive(Drop)]
struct Commands<'a> {
    book: &'a ShortcutBook,
}

/// How a command ends over these files, where each call moves one byte. Unless a file is missing, it has to end so, too,
/// where nothing can fail.
fn commanded(
    alloc: Global,
    words: &[String],
    files: &[File],
    book: &ShortcutBook,
) -> Result<End, Fault> {
    let end = bench_over(alloc, Outside::moving(1), words, files, book)?;
    if end.status == Status::ReadFault.number() {
        return Ok(end);
    }
    let steady = steady_status(alloc, words, files, book)?;
    if steady.number() != end.status {
        return Err(wrong("where nothing can fail it ends otherwise"));
    }
    Ok(end)
}

/// How `fetch N MOST WORDS` and `put N MOST WORDS` end: the words over an outside that moves at most so many bytes a
/// call, and whose fetch or put of this number fails.
fn failing(
    alloc: Global,
    words: &[String],
    files: &[File],
    book: &ShortcutBook,
) -> Result<End, Fault> {
    let [call, number, most, command @ ..] = words else {
        return Err(wrong("`call` has a call, its number, a number of bytes, and words"));
    };
    let (Ok(number), Ok(most)) = (number.parse::<u64>(), most.parse::<usize>()) else {
        return Err(wrong("no number"));
    };
    let mut outside = Outside::moving(most);
    match call.as_str() {
        "fetch" => outside.fetch = number,
        "put" => outside.put = number,
        _ => return Err(wrong("a call of the outside is `fetch` or `put`")),
    }
    bench_over(alloc, outside, command, files, book)
}

impl Worker for Commands<'_> {
    fn ended(&self, alloc: Global, work: &Work, files: &[File]) -> Result<End, Fault> {
        match work {
            Work::Bench(words) => commanded(alloc, words, files, self.book),
            Work::Call(words) => failing(alloc, words, files, self.book),
        }
    }
}

/// Runs the rows by the shortcuts of `mw_bench`.
fn run_rows<R: Env + Files + Print + AllocGlobal>(rt: &R) -> Result<ExitCode, NoMemory> {
    let alloc = rt.alloc();
    let mut book = ShortcutBook::new(alloc);
    book.add(alloc, Box::new(alloc, double_not)?)?;
    book.add(alloc, Box::new(alloc, same_operands)?)?;
    book.add(alloc, Box::new(alloc, neutral_constant)?)?;
    book.add(alloc, Box::new(alloc, fixed_choice)?)?;
    book.add(alloc, Box::new(alloc, all_constant)?)?;
    book.add(alloc, Box::new(alloc, part_of_join)?)?;
    Ok(run(rt, &Commands { book: &book }))
}

/// Ends with 0 where each row ends as it says, and with 1 otherwise.
fn main(rt: HostRuntime) -> ExitCode {
    match run_rows(&rt) {
        Ok(code) => code,
        Err(NoMemory) => ExitCode::FAILURE,
    }
}
