// asm: a board file, and a microprogram for its board.
ghost use Rattle.std.specs.Prelude.{◌≡◌, [], IfOk, length};
ghost use Rattle.mw_outside.specs.Views.{IsLater, shelf_shown};
ghost use Rattle.mw_plan.specs.Steps.{Ends};
ghost use Rattle.mw_top.specs.Commands.Asm.{asm_plan, IsListing};

use super::Work;
use super::microprogram::read_microprogram;
use crate::fault::Fault;
use crate::outcome::Outcome;
use crate::status::Status;
use mw_asm::{Program, listing};
use mw_base::NoMemory;
use mw_outside::Shelf;
use mw_plan::{Files, Stop};
use std::alloc::Global;

/// Reads the board, and assembles the microprogram for it.
#[tactic(auto, unfolding(crate::specs::Commands::Asm::asm_plan))]
pub(super) fn read<S: Shelf>(
    alloc: Global,
    shelf: &mut S,
    files: &mut Files<'_, Work, Fault>,
) -> Result<Work, Stop<Fault>>
    requires two { length files.old.names ≡ 2 }
    requires none_read { files.old.contents ≡ [] }
    ensures ends { Ends asm_plan (shelf_shown S.Shelf shelf.old) (shelf_shown S.Shelf shelf.new) files.new result }
    ensures names { files.new.names ≡ files.old.names }
    ensures later { IsLater (shelf_shown S.Shelf shelf.old) (shelf_shown S.Shelf shelf.new) }
{
    let program = read_microprogram(alloc, shelf, files)?;
    Ok(Work::Assembly(program))
}

/// Lists what was assembled.
pub(super) fn report(alloc: Global, program: &Program) -> Result<Outcome, NoMemory>
    ensures { IfOk result (λ outcome. IsListing program.now outcome.status outcome.report.items) }
{
    let report = listing(alloc, &program.board, &program.made)?;
    Ok(Outcome {
        status: Status::Done,
        report,
    })
}
