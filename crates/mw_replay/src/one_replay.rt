// A replay of one step.
ghost use Rattle.std.specs.Prelude.{◌≡◌, IfOk};
ghost use Rattle.mw_rel.specs.Differs.{difference_of};
ghost use Rattle.mw_rel.specs.Start.{Start};
ghost use Rattle.mw_rel.specs.Views.{job_of};
ghost use Rattle.mw_replay.specs.Counter.{IsCounter, IsStartOf};

use crate::counter::Counter;
use crate::stepping::Replay;
use mw_base::NoMemory;
use mw_cycle::Whole;
use mw_rel::{Difference, Job};
use std::alloc::Global;

/// The first difference that the start of a counter shows; None where its first segment and one described step show
/// none.
///
/// # Errors
///
/// Memory ran out.
pub fn replay(alloc: Global, job: &Job, counter: &Counter) -> Result<Option<Difference>, NoMemory>
    requires { IsCounter (job_of job.now) counter.now }
    ensures { IfOk result (λ shown. (start : Start) × IsStartOf (job_of job.now) counter.now start
        × (shown ≡ difference_of (job_of job.now) start)) }
{
    let mut replay = Replay::start(alloc, job, counter)?;
    Ok(replay.step(&Whole, job))
}
