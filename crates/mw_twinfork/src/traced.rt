// Courses through twin cases with the assignments that take their paths, as diagrams.
ghost use Rattle.std.specs.Prelude.{◌≡◌, [], IfOk};
ghost use Rattle.mw_path.specs.Paths.{ArePaths, path_in};
ghost use Rattle.mw_term.specs.Cofactors.{Agree};
ghost use Rattle.mw_term.specs.Functions.{always};
ghost use Rattle.mw_term.specs.Table.{Table};
ghost use Rattle.mw_twin.specs.Courses.{MayBeGiven};
ghost use Rattle.mw_twin.specs.RevisedBlocks.{IsRevisedBlock};
ghost use Rattle.mw_twinfork.specs.Ends.{end_in};
ghost use Rattle.mw_twinfork.specs.Traces.{IsGoing, IsOther};

use crate::twins::TwinEnd;
use mw_base::NoMemory;
use mw_dd::Dd;
use mw_decide::{Traced, Waiting};
use mw_path::Paths;
use mw_twin::{Course, RevisedBlock};
use std::alloc::Global;

/// The path on which no bit is decided.
fn whole_path(alloc: Global, revised: &RevisedBlock) -> Result<Paths, NoMemory>
    ensures paths { IfOk result (λ p. (w : Table) → w.map ≡ revised.now.revision.board.map_entries
        → ArePaths w p.dds p.shared p.places p.path) }
    ensures always { IfOk result (λ p. Agree (path_in p) always) }
{
    let revision = revised.revision;
    let paths = Paths::new(alloc, revision.board.parts().map_entries.as_slice())?;
    Ok(paths)
}

/// A course that stands at the block, and has made no cycle: each twin start takes its path.
pub(crate) fn first_course(
    alloc: Global,
    revised: &RevisedBlock,
) -> Result<Traced<Course>, NoMemory>
    requires { IsRevisedBlock revised.now }
    ensures { IfOk result (IsGoing revised.now []) }
{
    Ok(Traced {
        course: Course::new(alloc, revised)?,
        paths: whole_path(alloc, revised)?,
    })
}

/// One that waits, for which the bit that is waited for is 1. Its path is this one.
pub(crate) fn other_course(
    alloc: Global,
    traced: &Traced<Course>,
    path: Dd,
) -> Result<Waiting<Course>, NoMemory>
    requires { MayBeGiven traced.now.course.old_board traced.now.course.new_board }
    ensures { IfOk result (IsOther traced.now path) }
{
    Ok(Waiting {
        course: traced.course.other(alloc)?,
        places: traced.paths.places.copy(alloc)?,
        path,
    })
}

/// How the case of a course that has ended ends.
pub(crate) fn end_of(course: &Course) -> TwinEnd
    ensures { result ≡ end_in course.now.late course.now.old_board course.now.new_board }
{
    match &course.new_board {
        None => TwinEnd::LateOld,
        Some(_) if course.late => TwinEnd::LateNew(course.old_board.cycles()),
        Some(after) => TwinEnd::Reached(course.old_board.cycles(), after.cycles()),
    }
}
