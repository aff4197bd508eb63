// The commands: what each makes of its files, and what is answered then.
//
// What holds a job or a board is dropped by name where it isn't handed on: one call on each way out. At the end of a
// scope the drop of each of its parts would be in the proof of each way.
ghost use Rattle.std.specs.Prelude.{◌≡◌, [], IfOk, length};
ghost use Rattle.mw_outside.specs.Views.{IsLater, shelf_shown};
ghost use Rattle.mw_plan.specs.Steps.{Ends};
ghost use Rattle.mw_top.specs.Commands.Table.{budget_of, plan_of, IsAnswer};
ghost use Rattle.mw_top.specs.Operands.{file_count};
ghost use Rattle.mw_top.specs.Request.{data_of, expected_by};

mod asm;
mod bounds;
mod certify;
mod compare;
mod debug;
mod equal;
mod generate;
mod job;
mod microprogram;
mod pal;
mod prepared;
mod run;
mod upgrade;

use self::compare::Comparison;
use self::equal::Asked;
use self::job::FileJob;
use self::pal::Console;
use self::prepared::Prepared;
use crate::fault::Fault;
use crate::outcome::Outcome;
use crate::request::Request;
use mw_asm::Program;
use mw_base::{Items, NoMemory};
use mw_board::Board;
use mw_fork::Budget;
use mw_outside::Shelf;
use mw_plan::{Files, Stop};
use mw_term::ShortcutBook;
use std::alloc::Global;

/// What a command does, whatever its word and its options.
#[derive(Clone, Copy)]
pub(crate) enum Task {
    /// Compares the first steps from a start of a job.
    Comparison,
    /// Assembles a microprogram.
    Assembly,
    /// Runs a board.
    Run,
    /// Runs a script.
    Trace,
    /// Answers a question.
    Question,
    /// Certifies the job of files.
    Certification,
    /// Says how long the segments of the job of four files last.
    Bounds,
    /// Certifies the job that is generated of a number.
    Generation,
    /// Prints a board as a file of version 2.
    Upgrade,
    /// Runs a PDP-8 program at its console beside a board.
    Console,
}

/// What tasks make of their files.
#[derive(Drop)]
pub(crate) enum Work {
    /// A job, and the start of it that is compared.
    Comparison(Comparison),
    /// A board, and what a microprogram is assembled to for it.
    Assembly(Program),
    /// A board with its microprogram, and the start of its run.
    Run(Prepared),
    /// The trace of a script.
    Trace(Items<u8>),
    /// A question.
    Question(Asked),
    /// A job that is to be certified.
    Certification(FileJob),
    /// A job that is asked how long its segments last.
    Bounds(FileJob),
    /// No file: the job that is to be certified is made of the request's number.
    Generation,
    /// A board that is to be printed.
    Upgrade(Board),
    /// A job, a PDP-8 program and the keys at its console.
    Console(Console),
}

/// Reads the files of a task, and makes of them what its plan says.
pub(crate) fn read_files<S: Shelf>(
    alloc: Global,
    task: Task,
    shelf: &mut S,
    files: &mut Files<'_, Work, Fault>,
) -> Result<Work, Stop<Fault>>
    requires counted { length files.old.names ≡ file_count (expected_by task) }
    requires none_read { files.old.contents ≡ [] }
    ensures ends { Ends (plan_of task) (shelf_shown S.Shelf shelf.old)
        (shelf_shown S.Shelf shelf.new) files.new result }
    ensures names { files.new.names ≡ files.old.names }
    ensures later { IsLater (shelf_shown S.Shelf shelf.old) (shelf_shown S.Shelf shelf.new) }
{
    match task {
        Task::Comparison => compare::read(alloc, shelf, files),
        Task::Assembly => asm::read(alloc, shelf, files),
        Task::Run => run::read(alloc, shelf, files),
        Task::Trace => debug::read(alloc, shelf, files),
        Task::Question => equal::read(alloc, shelf, files),
        Task::Certification => certify::read(alloc, shelf, files),
        Task::Bounds => bounds::read(alloc, shelf, files),
        Task::Generation => Ok(Work::Generation),
        Task::Upgrade => upgrade::read(alloc, shelf, files),
        Task::Console => pal::read(alloc, shelf, files),
    }
}

/// What the answer that is asked may cost.
fn budget_of(request: &Request) -> Budget
    ensures { result ≡ budget_of (data_of request.now) }
{
    Budget {
        nodes: request.nodes,
        paths: request.paths,
    }
}

/// Answers a request with what its task made of its files.
pub(crate) fn answer_with(
    alloc: Global,
    request: &Request,
    work: Work,
    book: &ShortcutBook,
) -> Result<Outcome, NoMemory>
    ensures { IfOk result (λ outcome. IsAnswer (data_of request.now) work outcome.status outcome.report.items) }
{
    match work {
        Work::Comparison(comparison) => {
            let outcome = compare::report(alloc, &comparison, request.steps, request.parts);
            drop(comparison);
            outcome
        }
        Work::Assembly(program) => {
            let outcome = asm::report(alloc, &program);
            drop(program);
            outcome
        }
        Work::Run(prepared) => run::report(alloc, prepared, request.cycles, request.parts),
        Work::Trace(trace) => Ok(debug::report(trace)),
        Work::Question(asked) => {
            let outcome = equal::report(alloc, &asked, request.nodes, book);
            drop(asked);
            outcome
        }
        Work::Certification(given) => {
            let outcome = certify::report(alloc, &given.job, budget_of(request), book);
            drop(given);
            outcome
        }
        Work::Bounds(given) => {
            let outcome = bounds::report(alloc, &given.job, budget_of(request), book);
            drop(given);
            outcome
        }
        Work::Generation => generate::report(alloc, request.number, budget_of(request), book),
        Work::Upgrade(board) => {
            let outcome = upgrade::report(alloc, &board);
            drop(board);
            outcome
        }
        Work::Console(console) => {
            let outcome = pal::report(alloc, &console, request.steps);
            drop(console);
            outcome
        }
    }
}
