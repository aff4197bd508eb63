// Calls that no command shows.
mod cases;
mod cycles;
mod diagrams;
mod differs;
mod expressions;
mod logs;
mod machines;
mod numbers;
mod pairs;
mod parts;
mod plain;
mod relations;
mod runs;
mod steps;
mod tokens;
mod trees;

use mw_rowfile::{Fault, File, Report, wrong};
use mw_symrows::symbolic;
use mw_twinrows::{keeps, twins};
use std::alloc::Global;

/// Appends what the call of a name gives.
fn push_call(
    alloc: Global,
    report: &mut Report,
    name: &str,
    given: &[String],
    files: &[File],
) -> Result<(), Fault> {
    match name {
        "tokens" => tokens::read(alloc, report, files),
        "expression" => expressions::read(alloc, report, given, files),
        "machine" => machines::read(alloc, report, files),
        "relation" => relations::read(alloc, report, files),
        "keep" => keeps::read(alloc, report, files),
        "twin" => twins::print(alloc, report, given, files),
        "twin-words" => mw_twinrows::words::list(alloc, report, given, files),
        "twin-cases" => mw_twinrows::cases::list(alloc, report, given, files),
        "pair" => pairs::read(alloc, report, given, files),
        "plain" => plain::read(alloc, report, files),
        "number" => numbers::read(alloc, report, given),
        "diagrams" => diagrams::read(alloc, report, files),
        "alu" => parts::alu_table(report, given),
        "slice" => parts::slice_table(report, given),
        "described" => steps::run(alloc, report, given, files),
        "step-words" => steps::words(alloc, report, given, files),
        "step" => parts::stepped(report, given),
        "cases" => cases::list(alloc, report, given, files),
        "count-cases" => cases::count(alloc, report, given, files),
        "differs" => differs::list(alloc, report, given, files),
        "counter" => differs::read(alloc, report, files),
        "cycle" => cycles::run(alloc, report, given, files),
        "symbolic" => symbolic::run(alloc, report, given, files),
        "cycle-words" => symbolic::words(alloc, report, given, files),
        "symbolic-beside" => symbolic::run_beside(alloc, report, given, files),
        "cycle-words-beside" => symbolic::words_beside(alloc, report, given, files),
        "terms" => steps::terms(alloc, report, given, files),
        "start" => runs::start(alloc, report, files),
        "until" => runs::until(alloc, report, given, files),
        "log" => logs::read(alloc, report, given, files),
        "job-log" => logs::of_job(alloc, report, files),
        _ => Err(wrong("no such call")),
    }
}

/// What a call gives. The first word is its name.
pub fn made(alloc: Global, words: &[String], files: &[File]) -> Result<Vec<u8>, Fault> {
    let [name, given @ ..] = words else {
        return Err(wrong("no call"));
    };
    let mut report = Report::new(alloc);
    push_call(alloc, &mut report, name.as_str(), given, files)?;
    report.finish()
}
