// debug: a board file, a microprogram for its board, an environment in which the board runs, and a script.
ghost use Rattle.std.specs.Prelude.{◌≡◌, ◌<◌, ◌^◌, [], length};
ghost use Rattle.mw_base.specs.Reading.{Gives};
ghost use Rattle.mw_outside.specs.Views.{IsLater, shelf_shown};
ghost use Rattle.mw_plan.specs.Steps.{Ends};
ghost use Rattle.mw_top.specs.Commands.Debug.{debug_plan, traced, IsTrace};

use super::Work;
use super::prepared::{Prepared, read_prepared};
use crate::fault::Fault;
use crate::outcome::Outcome;
use crate::status::Status;
use mw_base::{Items, Refusal};
use mw_debug::{read_script, run_script};
use mw_outside::Shelf;
use mw_plan::{Files, Stop};
use std::alloc::Global;

/// The trace of a text's script.
#[tactic(auto, unfolding(crate::specs::Commands::Debug::traced))]
fn traced(alloc: Global, prepared: &Prepared, text: &[u8]) -> Result<Items<u8>, Refusal>
    requires { length text.now < 2 ^ 32 }
    ensures { Gives (λ trace. trace) result (traced prepared.now text.now) }
{
    let program = &prepared.program;
    let script = read_script(alloc, &program.board, &program.made, text)?;
    let start = prepared.start.copied(alloc)?;
    let trace = run_script(alloc, &program.board, &program.made.store, start, &script)?;
    Ok(Items::from_vec(trace))
}

/// Reads the board, assembles the microprogram for it, reads the environment and the script, and runs the script.
#[tactic(auto, unfolding(crate::specs::Commands::Debug::debug_plan))]
pub(super) fn read<S: Shelf>(
    alloc: Global,
    shelf: &mut S,
    files: &mut Files<'_, Work, Fault>,
) -> Result<Work, Stop<Fault>>
    requires four { length files.old.names ≡ 4 }
    requires none_read { files.old.contents ≡ [] }
    ensures ends { Ends debug_plan (shelf_shown S.Shelf shelf.old) (shelf_shown S.Shelf shelf.new) files.new result }
    ensures names { files.new.names ≡ files.old.names }
    ensures later { IsLater (shelf_shown S.Shelf shelf.old) (shelf_shown S.Shelf shelf.new) }
{
    let prepared = read_prepared(alloc, shelf, files)?;
    let trace = files.next(alloc, shelf, |bytes| traced(alloc, &prepared, bytes));
    drop(prepared);
    Ok(Work::Trace(trace?))
}

/// Answers with a trace.
pub(super) fn report(trace: Items<u8>) -> Outcome
    ensures { IsTrace trace result.status result.report.items }
{
    Outcome {
        status: Status::Done,
        report: trace.into_vec(),
    }
}
