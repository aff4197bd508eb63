// The first two files of each command: a board file, and a microprogram for its board.
ghost use Rattle.std.specs.Prelude.{◌≡◌, ◌+◌, ◌≤◌, OnOk, OnErr, length};
ghost use Rattle.mw_asm.specs.declared.program.Program.{Program};
ghost use Rattle.mw_asm.specs.Microprogram.{store_of};
ghost use Rattle.mw_boardfile.specs.Board.{board_of};
ghost use Rattle.mw_outside.specs.Views.{IsLater, ShelfView, shelf_shown};
ghost use Rattle.mw_plan.specs.Files.{IsLeft};
ghost use Rattle.mw_plan.specs.Plan.{Plan, first_by};
ghost use Rattle.mw_plan.specs.Steps.{Follows};
ghost use Rattle.mw_top.specs.declared.commands.Work.{Work};
ghost use Rattle.mw_top.specs.declared.fault.Fault.{Fault};
ghost use Rattle.mw_top.specs.declared.fault.Fault.TheVariants as faults;

use super::Work;
use crate::fault::Fault;
use mw_asm::{Program, assemble};
use mw_boardfile::read_board;
use mw_outside::Shelf;
use mw_plan::{Files, Stop};
use std::alloc::Global;

/// Reads the board, and assembles the microprogram for it.
pub(super) fn read_microprogram<S: Shelf>(
    alloc: Global,
    shelf: &mut S,
    files: &mut Files<'_, Work, Fault>,
) -> Result<Program, Stop<Fault>>
    requires two { length files.old.contents + 2 ≤ length files.old.names }
    ensures follows { (plan : Plan Fault Work) (rest : Program → Plan Fault Work) (first : ShelfView)
        → IsLater first (shelf_shown S.Shelf shelf.old)
        → IsLeft plan first files.old (first_by faults.Board board_of (λ board.
        first_by faults.Text (store_of board) (λ made. rest (record { board = board; made = made }))))
        → Follows rest plan first (shelf_shown S.Shelf shelf.new) files.new result }
    ensures names { files.new.names ≡ files.old.names }
    ensures two_more { OnOk result (length files.new.contents ≡ length files.old.contents + 2) }
    ensures later { IsLater (shelf_shown S.Shelf shelf.old) (shelf_shown S.Shelf shelf.new) }
{
    let board = files.next(alloc, shelf, |bytes| read_board(alloc, bytes))?;
    let made = files.next(alloc, shelf, |bytes| assemble(alloc, &board, bytes))?;
    Ok(Program { board, made })
}
