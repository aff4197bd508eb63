//! The bench as a program: its arguments are the words, the files are those of its folder, and the report goes to
//! standard output.
#![tactic(auto)]

ghost use Rattle.std.specs.Prelude.{◌≡◌};
ghost use Rattle.std.specs.Process.{exit_status};
ghost use Rattle.mw_top.specs.Status.{status_number};

use mw_base::NoMemory;
use mw_outside::{FolderShelf, ScreenSink, Shelf, Sink};
use mw_short::{
    all_constant, double_not, fixed_choice, neutral_constant, part_of_join, same_operands,
};
use mw_term::ShortcutBook;
use mw_top::{Status, bench};
use std::alloc::Global;
use std::env::{self, Env};
use std::fs::Files;
use std::io::ErrorKind;
use std::process::ExitCode;

/// The arguments without the program's name. Where they can't be had as text there are no words, which are no request.
fn words<R: Env + AllocGlobal>(rt: &R) -> Result<Vec<String>, NoMemory> {
    let mut words = Vec::new(rt.alloc());
    match env::args(rt) {
        Ok(args) => {
            for word in args.skip(1) {
                words.push(word)?;
            }
            Ok(words)
        }
        Err(e) if e.kind() == ErrorKind::OutOfMemory => Err(NoMemory),
        Err(_) => Ok(words),
    }
}

/// Calls the bench, with a book of the shortcuts in the order in which they are asked.
fn bench_by_shortcuts<S: Shelf, K: Sink>(
    alloc: Global,
    words: &[String],
    shelf: &mut S,
    out: &mut K,
) -> Result<Status, NoMemory> {
    let mut book = ShortcutBook::new(alloc);
    book.add(alloc, Box::new(alloc, double_not)?)?;
    book.add(alloc, Box::new(alloc, same_operands)?)?;
    book.add(alloc, Box::new(alloc, neutral_constant)?)?;
    book.add(alloc, Box::new(alloc, fixed_choice)?)?;
    book.add(alloc, Box::new(alloc, all_constant)?)?;
    book.add(alloc, Box::new(alloc, part_of_join)?)?;
    Ok(bench(alloc, words, shelf, out, &book))
}

/// Does what the words of the command line say, over the folder and the screen.
fn run<R: AllocGlobal + Env + Files + Print>(rt: &R) -> Result<Status, NoMemory> {
    let words = words(rt)?;
    let mut shelf = FolderShelf::new(rt);
    let mut screen = ScreenSink::new(rt);
    bench_by_shortcuts(rt.alloc(), &words, &mut shelf, &mut screen)
}

/// The code that the process ends with.
fn exit_code(status: Status) -> ExitCode
    ensures { exit_status result ≡ status_number status }
{
    ExitCode::from(status.number())
}

fn main(rt: HostRuntime) -> ExitCode {
    exit_code(match run(&rt) {
        Ok(status) => status,
        Err(NoMemory) => Status::NoMemory,
    })
}

#[cfg(test)]
mod pdp8_tests;
