// The first three files of a command that runs a board: a board file, a microprogram for its board, and an environment.
ghost use Rattle.std.specs.Prelude.{◌≡◌, ◌+◌, ◌≤◌, OnOk, length};
ghost use Rattle.mw_outside.specs.Views.{IsLater, ShelfView, shelf_shown};
ghost use Rattle.mw_plan.specs.Files.{IsLeft};
ghost use Rattle.mw_plan.specs.Plan.{Plan};
ghost use Rattle.mw_plan.specs.Steps.{Follows};
ghost use Rattle.mw_top.specs.Commands.Prepared.{prepared_plan};
ghost use Rattle.mw_top.specs.Work.{Prepared as PreparedOf};
ghost use Rattle.mw_top.specs.declared.commands.Work.{Work};
ghost use Rattle.mw_top.specs.declared.fault.Fault.{Fault};

use super::Work;
use super::microprogram::read_microprogram;
use crate::fault::Fault;
use mw_asm::Program;
use mw_outside::Shelf;
use mw_plan::{Files, Stop};
use mw_sim::{Start, read_start};
use std::alloc::Global;
use std::marker::Model;

/// A board with its microprogram, and the start of its run. The start fits the board.
#[derive(Drop)]
pub(crate) struct Prepared {
    /// The board and the microprogram.
    pub(crate) program: Program,
    /// The start.
    pub(crate) start: Start,
}

impl Model for Prepared {
    ghost use Rattle.mw_cycle.specs.Environment.{IsEnvironment};
    ghost use Rattle.mw_cycle.specs.State.{Fits};
    ghost use Rattle.mw_top.specs.Work.{Prepared as PreparedOf};

    ghost Value = { PreparedOf };

    ghost view = { λ p. record { program = p.program; start = p.start } };

    ghost invariant = { λ p. Fits p.program.board p.start.state × IsEnvironment p.program.board p.start.env };
}

/// Reads the board, assembles the microprogram for it, and reads the environment.
pub(super) fn read_prepared<S: Shelf>(
    alloc: Global,
    shelf: &mut S,
    files: &mut Files<'_, Work, Fault>,
) -> Result<Prepared, Stop<Fault>>
    requires three { length files.old.contents + 3 ≤ length files.old.names }
    ensures follows { (plan : Plan Fault Work) (rest : PreparedOf → Plan Fault Work) (first : ShelfView)
        → IsLater first (shelf_shown S.Shelf shelf.old) → IsLeft plan first files.old (prepared_plan rest)
        → Follows rest plan first (shelf_shown S.Shelf shelf.new) files.new result }
    ensures names { files.new.names ≡ files.old.names }
    ensures three_more { OnOk result (length files.new.contents ≡ length files.old.contents + 3) }
    ensures later { IsLater (shelf_shown S.Shelf shelf.old) (shelf_shown S.Shelf shelf.new) }
{
    let program = read_microprogram(alloc, shelf, files)?;
    let start = files.next(alloc, shelf, |bytes| {
        read_start(alloc, &program.board, &program.made, bytes)
    });
    match start {
        Ok(start) => Ok(Prepared { program, start }),
        Err(stop) => {
            drop(program);
            Err(stop)
        }
    }
}
