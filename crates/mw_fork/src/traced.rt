// Courses with the starts that take their paths, as diagrams.
ghost use Rattle.std.specs.Prelude.{◌<◌, [], IfOk, length};
ghost use Rattle.mw_rel.specs.Views.{job_of};
ghost use Rattle.mw_course.specs.Courses.{MayBeGiven};
ghost use Rattle.mw_fork.specs.Traces.{IsGoing, IsOther};

use mw_base::NoMemory;
use mw_course::Course;
use mw_dd::Dd;
use mw_decide::{Traced, Waiting};
use mw_path::Paths;
use mw_rel::Job;
use std::alloc::Global;

/// A course that stands at the boundary of this number, and has made no cycle: each start takes its path.
pub(crate) fn first_course(
    alloc: Global,
    job: &Job,
    boundary: usize,
) -> Result<Traced<Course>, NoMemory>
    requires { boundary < length (job_of job.now).relation.boundaries }
    ensures { IfOk result (IsGoing (job_of job.now) boundary []) }
{
    Ok(Traced {
        course: Course::new(alloc, job, boundary)?,
        paths: Paths::new(alloc, job.board.parts().map_entries.as_slice())?,
    })
}

/// One that waits, for which the bit that is waited for is 1. Its path is this one.
pub(crate) fn other_course(
    alloc: Global,
    traced: &Traced<Course>,
    path: Dd,
) -> Result<Waiting<Course>, NoMemory>
    requires { MayBeGiven traced.now.course.run.board traced.now.course.step }
    ensures { IfOk result (IsOther traced.now path) }
{
    Ok(Waiting {
        course: traced.course.other(alloc)?,
        places: traced.paths.places.copy(alloc)?,
        path,
    })
}
