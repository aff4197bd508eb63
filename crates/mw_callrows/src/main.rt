//! Runs rows of calls of the parts that no command shows. The arguments are the names of the files.
//! docs/CONTRIBUTING.md has the form of a file of rows.
#![tactic(auto)]

mod calls;

use calls::made;
use mw_rowfile::{End, Fault, File, Work, Worker, run, wrong};
use std::alloc::Global;
use std::process::ExitCode;

/// Makes calls.
struct Caller;

impl Worker for Caller {
    fn ended(&self, alloc: Global, work: &Work, files: &[File]) -> Result<End, Fault> {
        match work {
            Work::Bench(_) => Err(wrong("a row of a call begins with call")),
            Work::Call(words) => Ok(End {
                status: 0,
                report: made(alloc, words, files)?,
            }),
        }
    }
}

/// Ends with 0 where each row ends as it says, and with 1 otherwise.
fn main(rt: HostRuntime) -> ExitCode {
    run(&rt, &Caller)
}
