// upgrade: a board file.
ghost use Rattle.std.specs.Prelude.{◌≡◌, [], IfOk, length};
ghost use Rattle.mw_outside.specs.Views.{IsLater, shelf_shown};
ghost use Rattle.mw_plan.specs.Steps.{Ends};
ghost use Rattle.mw_top.specs.Commands.Upgrade.{upgrade_plan, IsUpgrade};

use super::Work;
use crate::fault::Fault;
use crate::outcome::Outcome;
use crate::status::Status;
use mw_base::NoMemory;
use mw_board::Board;
use mw_boardfile::{print_board, read_board};
use mw_outside::Shelf;
use mw_plan::{Files, Stop};
use std::alloc::Global;

/// Reads the board.
#[tactic(auto, unfolding(crate::specs::Commands::Upgrade::upgrade_plan))]
pub(super) fn read<S: Shelf>(
    alloc: Global,
    shelf: &mut S,
    files: &mut Files<'_, Work, Fault>,
) -> Result<Work, Stop<Fault>>
    requires one { length files.old.names ≡ 1 }
    requires none_read { files.old.contents ≡ [] }
    ensures ends { Ends upgrade_plan (shelf_shown S.Shelf shelf.old) (shelf_shown S.Shelf shelf.new) files.new result }
    ensures names { files.new.names ≡ files.old.names }
    ensures later { IsLater (shelf_shown S.Shelf shelf.old) (shelf_shown S.Shelf shelf.new) }
{
    let board = files.next(alloc, shelf, |bytes| read_board(alloc, bytes))?;
    Ok(Work::Upgrade(board))
}

/// Prints the board as a file of version 2.
pub(super) fn report(alloc: Global, board: &Board) -> Result<Outcome, NoMemory>
    ensures { IfOk result (λ outcome. IsUpgrade board.now outcome.status outcome.report.items) }
{
    Ok(Outcome {
        status: Status::Done,
        report: print_board(alloc, board)?,
    })
}
