// The segment of a case.
ghost use Rattle.std.specs.Prelude.{◌≡◌, ◌<◌, ℕ, List, None, IfOk, OnOk, length};
ghost use Rattle.mw_term.specs.declared.decided.Decided.{Decided};
ghost use Rattle.mw_symmem.specs.Workspace.{IsLater};
ghost use Rattle.mw_term.specs.Functions.{Function};
ghost use Rattle.mw_rel.specs.Free.{numbered};
ghost use Rattle.mw_rel.specs.Views.{job_of};
ghost use Rattle.mw_course.specs.Courses.{Comes, IsComeTo};
ghost use Rattle.mw_course.specs.OnWay.{IsOnRun, IsRunOf};

use crate::reached::is_boundary;
use crate::run::Run;
use mw_base::NoMemory;
use mw_rel::Job;
use mw_segment::Came;
use mw_symmem::Turn;
use std::alloc::Global;

/// Goes on through the cycles of the segment that began at the boundary of this number: to the next bit, or to the end.
/// So many cycles are finished.
pub(crate) fn segment(
    alloc: Global,
    job: &Job,
    boundary: usize,
    run: &mut Run,
    cycles: &mut u32,
) -> Result<Came, NoMemory>
    requires boundary { boundary < length (job_of job.now).relation.boundaries }
    requires under { IsRunOf (job_of job.now) run.old }
    requires idle { run.old.board.asked ≡ None }
    requires cycles { cycles.old ≡ run.old.board.place.cycle }
    requires below { cycles.old < (numbered (job_of job.now) boundary).bound }
    ensures cycles { OnOk result (cycles.new ≡ run.new.board.place.cycle) }
    ensures later { OnOk result (IsLater run.old.space.terms run.new.space.terms) }
    ensures comes { IfOk result (Comes (job_of job.now) boundary run.new) }
    ensures goes { IfOk result (λ came. (elements : List ℕ) (bits : List Decided) (path : Function)
        → IsOnRun (job_of job.now) boundary elements bits path run.old run.old.board.place.cycle
        → IsComeTo (job_of job.now) boundary elements bits path run.new came) }
{
    let bound = job.boundary(boundary).bound;
    loop {
        if let Turn::Ask { kind, term } = run.turn(alloc, job)? {
            return Ok(Came::Asks { kind, term });
        }
        *cycles += 1;
        if is_boundary(job, run.at()) {
            return Ok(Came::Reached);
        }
        if *cycles == bound {
            return Ok(Came::Late);
        }
    }
}
