// Comparisons of steps from a start of a job.
ghost use Rattle.std.specs.Prelude.{◌≡◌, ◌+◌, IfOk, None};
ghost use Rattle.mw_rel.specs.Differs.{difference_of};
ghost use Rattle.mw_rel.specs.Job.{IsJob};
ghost use Rattle.mw_rel.specs.Start.{Start};
ghost use Rattle.mw_rel.specs.Views.{job_of};
ghost use Rattle.mw_replay.specs.Counter.{IsCounter, IsStartOf};
ghost use Rattle.mw_replay.specs.Replay.{Follows as IsNext, IsReplay, next_start};
ghost use Rattle.mw_check.specs.Comparison.{Shows};
ghost use Rattle.mw_check.specs.Made.{HasMade};

use mw_base::NoMemory;
use mw_cycle::{Datapath, Whole};
use mw_rel::Job;
use mw_replay::{Counter, Difference, Replay};
use mw_sim::Parts;
use std::alloc::Global;

/// What steps from a start show.
#[derive(Clone, Copy, Debug, PartialEq, Eq)]
pub enum Compared {
    /// None of them shows a difference.
    Same,
    /// One of them does.
    Differs {
        /// Which it is, counted from 1.
        step: u32,
        /// The first difference that it shows.
        difference: Difference,
    },
}

/// One step of a replay, before which there were so many.
fn next_step<A: Datapath>(
    part: &A,
    job: &Job,
    replay: &mut Replay,
    steps: u32,
) -> Option<Difference>
    requires stands { IsReplay (job_of job.now) replay.old }
    requires few { HasMade steps replay.old }
    ensures shown { result ≡ difference_of (job_of job.now) (next_start (job_of job.now) replay.old) }
    ensures follows { result ≡ None → IsNext (job_of job.now) (next_start (job_of job.now) replay.old)
        (next_start (job_of job.now) replay.new) }
    ensures stands { result ≡ None → IsReplay (job_of job.now) replay.new }
    ensures few { HasMade (steps + 1) replay.new }
    ensures valid { IsJob (job_of job.now) }
{
    replay.step(part, job)
}

/// Compares so many steps of a replay that has made none.
fn compare_steps<A: Datapath>(part: &A, job: &Job, replay: &mut Replay, steps: u32) -> Compared
    requires stands { IsReplay (job_of job.now) replay.old }
    requires none { HasMade 0 replay.old }
    ensures { Shows (job_of job.now) (next_start (job_of job.now) replay.old) steps result }
{
    for made in 0..steps {
        if let Some(difference) = next_step(part, job, replay, made) {
            return Compared::Differs {
                step: made + 1,
                difference,
            };
        }
    }
    Compared::Same
}

/// The same on a board that works as its parts, or as a whole.
fn compare_by(parts: bool, job: &Job, replay: &mut Replay, steps: u32) -> Compared
    requires stands { IsReplay (job_of job.now) replay.old }
    requires none { HasMade 0 replay.old }
    ensures { Shows (job_of job.now) (next_start (job_of job.now) replay.old) steps result }
{
    if parts {
        compare_steps(&Parts, job, replay, steps)
    } else {
        compare_steps(&Whole, job, replay, steps)
    }
}

/// Compares so many steps from a start of a job: a segment of the board beside a described step, each from where the
/// last one ended, up to the first that shows a difference. With `parts` the board's arithmetic goes through its
/// slices, joined by lookahead, and not over whole words.
///
/// # Errors
///
/// Memory ran out.
pub fn compare(
    alloc: Global,
    job: &Job,
    counter: &Counter,
    steps: u32,
    parts: bool,
) -> Result<Compared, NoMemory>
    requires { IsCounter (job_of job.now) counter.now }
    ensures { IfOk result (λ compared. (start : Start) × IsStartOf (job_of job.now) counter.now start
        × Shows (job_of job.now) start steps compared) }
{
    let mut replay = Replay::start(alloc, job, counter)?;
    Ok(compare_by(parts, job, &mut replay, steps))
}
