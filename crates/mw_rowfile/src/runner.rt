// Runs rows.
use crate::fault::Fault;
use crate::reader::rows_of;
use crate::report::Report;
use crate::row::{Change, End, File, Row, RowFiles, Rows, Work, as_text};
use std::alloc::Global;
use std::env::{self, Env};
use std::fs::{self, Files};
use std::process::ExitCode;

/// What does the work of rows.
pub trait Worker {
    /// How a row's work ends over these files.
    ///
    /// # Errors
    ///
    /// Work that is another program's, words or files that aren't what it reads, and want of memory.
    fn ended(&self, alloc: Global, work: &Work, files: &[File]) -> Result<End, Fault>;
}

/// Whether a line stands under one of these keys.
fn is_under(keys: &[String], line: &str) -> bool {
    for key in keys {
        if let Some(rest) = line.strip_prefix(key.as_str()) {
            if rest.starts_with(' ') || rest.starts_with('.') {
                return true;
            }
        }
    }
    false
}

/// Appends the lines of a file, but for those under these keys.
fn push_lines<'a>(
    lines: &mut Vec<&'a str>,
    contents: &'a [u8],
    without: &[String],
) -> Result<(), Fault> {
    for line in as_text(contents)?.lines() {
        if !is_under(without, line) {
            lines.push(line)?;
        }
    }
    Ok(())
}

/// Lines as a text.
fn joined(alloc: Global, lines: &[&str]) -> Result<Vec<u8>, Fault> {
    let mut text = Report::new(alloc);
    for line in lines {
        text.push(line.as_bytes());
        text.push(b"\n");
    }
    text.finish()
}

/// A file's contents with a change.
fn changed(
    alloc: Global,
    contents: &[u8],
    change: &Change,
    turned: bool,
) -> Result<Vec<u8>, Fault> {
    let mut lines = Vec::new(alloc);
    push_lines(&mut lines, contents, &change.without)?;
    push_lines(&mut lines, &change.lines, &[])?;
    if turned {
        lines.reverse();
    }
    joined(alloc, &lines)
}

fn push_file(
    alloc: Global,
    files: &mut Vec<File>,
    change: &Option<Change>,
    file: &File,
    turned: bool,
) -> Result<(), Fault> {
    let contents = match change {
        Some(change) if change.file.as_str() == file.name.as_str() => {
            changed(alloc, &file.contents, change, turned)?
        }
        _ => Vec::from_slice(alloc, &file.contents)?,
    };
    let name = String::from_str(alloc, file.name.as_str())?;
    files.push(File { name, contents })?;
    Ok(())
}

/// The files of a row, with its change.
fn files_of(
    alloc: Global,
    rows: &Rows,
    given: &RowFiles,
    turned: bool,
) -> Result<Vec<File>, Fault> {
    let mut files = Vec::new(alloc);
    for &number in &given.sets {
        if let Some(set) = rows.sets.get(number) {
            for file in &set.files {
                push_file(alloc, &mut files, &given.change, file, turned)?;
            }
        }
    }
    for file in &given.own {
        push_file(alloc, &mut files, &given.change, file, turned)?;
    }
    Ok(files)
}

/// Whether an end is as the row says.
fn is_wanted(row: &Row, came: &End) -> bool {
    let wanted = &row.end;
    if row.begins {
        came.status == wanted.status && came.report.starts_with(&wanted.report)
    } else {
        came.status == wanted.status && came.report.as_slice() == wanted.report.as_slice()
    }
}

/// Prints an end.
fn print_end<R: Print + AllocGlobal>(rt: &R, which: &str, end: &End) -> Result<(), Fault> {
    println!(rt; "  {which} status {}", end.status)?;
    let report = String::from_utf8_lossy(rt.alloc(), &end.report)?;
    for line in report.lines() {
        println!(rt; "  | {line}")?;
    }
    Ok(())
}

/// Prints a row that ended otherwise: what was wanted, and what came.
fn print_row<R: Print + AllocGlobal>(
    rt: &R,
    file: &str,
    row: &Row,
    came: &End,
) -> Result<(), Fault> {
    println!(rt; "{file} line {}: {}", row.line, row.name)?;
    print_end(rt, "wanted", &row.end)?;
    print_end(rt, "came", came)
}

/// Whether an end is as the row says. The row is printed where it isn't.
fn judged<R: Print + AllocGlobal>(
    rt: &R,
    file: &str,
    row: &Row,
    came: &End,
) -> Result<bool, Fault> {
    let wanted = is_wanted(row, came);
    if !wanted {
        print_row(rt, file, row, came)?;
    }
    Ok(wanted)
}

/// Runs a row, prints it where it ends otherwise, and answers whether it ends as it says.
fn run_row<R: Print + AllocGlobal, W: Worker>(
    rt: &R,
    worker: &W,
    file: &str,
    rows: &Rows,
    row: &Row,
    turned: bool,
) -> Result<bool, Fault> {
    let files = files_of(rt.alloc(), rows, &row.files, turned)?;
    let came = worker.ended(rt.alloc(), &row.work, &files);
    drop(files);
    match came {
        Ok(came) => {
            let holds = judged(rt, file, row, &came);
            drop(came);
            holds
        }
        Err(fault) => Err(fault),
    }
}

/// Runs a row, with its change turned too where the row says so.
fn run_both<R: Print + AllocGlobal, W: Worker>(
    rt: &R,
    worker: &W,
    file: &str,
    rows: &Rows,
    row: &Row,
) -> Result<bool, Fault> {
    let holds = run_row(rt, worker, file, rows, row, false)?;
    match &row.files.change {
        Some(change) if holds && change.turned => run_row(rt, worker, file, rows, row, true),
        _ => Ok(holds),
    }
}

/// Runs the rows of a file of this name, and answers how many of them end otherwise.
fn run_rows<R: Print + AllocGlobal, W: Worker>(
    rt: &R,
    worker: &W,
    file: &str,
    rows: &Rows,
) -> Result<u64, Fault> {
    let mut otherwise = 0u64;
    for row in &rows.rows {
        match run_both(rt, worker, file, rows, row) {
            Ok(true) => {}
            Ok(false) => otherwise = otherwise.saturating_add(1),
            Err(fault) => return Err(fault.at(row.line)),
        }
    }
    Ok(otherwise)
}

/// Runs the rows of a file, and answers how many there are and how many of them end otherwise.
fn run_file<R: Files + Print + AllocGlobal, W: Worker>(
    rt: &R,
    worker: &W,
    name: &str,
) -> Result<(u64, u64), Fault> {
    let text = fs::read_to_string(rt, name)?;
    let rows = rows_of(rt.alloc(), &text)?;
    let otherwise = run_rows(rt, worker, name, &rows);
    let count = rows.rows.len() as u64;
    drop(rows);
    let otherwise = otherwise?;
    println!(rt; "{name}: {count} rows")?;
    Ok((count, otherwise))
}

/// Runs the rows of a file, and prints its fault where it isn't right.
fn run_named<R: Files + Print + AllocGlobal, W: Worker>(
    rt: &R,
    worker: &W,
    name: &str,
) -> Result<(u64, u64), Fault> {
    match run_file(rt, worker, name) {
        Ok(counts) => Ok(counts),
        Err(fault) => {
            println!(rt; "{name}: {fault}")?;
            Err(fault)
        }
    }
}

/// Runs the rows of the files that the arguments name, and answers how many of them end otherwise.
fn run_files<R: Env + Files + Print + AllocGlobal, W: Worker>(
    rt: &R,
    worker: &W,
) -> Result<u64, Fault> {
    let mut rows = 0u64;
    let mut otherwise = 0u64;
    for name in env::args(rt)?.skip(1) {
        let (all, differ) = run_named(rt, worker, &name)?;
        rows = rows.saturating_add(all);
        otherwise = otherwise.saturating_add(differ);
    }
    println!(rt; "{rows} rows, {otherwise} end otherwise")?;
    Ok(otherwise)
}

/// Runs the rows of the files that the arguments name, and prints each row that ends otherwise than it says, with what
/// was wanted and what came; then a line for each file with the number of its rows, and last the number of all. A file
/// that isn't right ends the run with its first fault, so that no row is left out unseen. Success is where each row
/// ends as it says.
pub fn run<R: Env + Files + Print + AllocGlobal, W: Worker>(rt: &R, worker: &W) -> ExitCode {
    match run_files(rt, worker) {
        Ok(0) => ExitCode::SUCCESS,
        _ => ExitCode::FAILURE,
    }
}
