// The boundary that a run has reached, and the first difference there.
ghost use Rattle.std.specs.Prelude.{◌≡◌, ◌<◌, ◌≤◌, ◌^◌, ℕ, IfSome, map, length};
ghost use Rattle.mw_cycle.specs.declared.environment.Clock.{Clock as ClockOf};
ghost use Rattle.mw_rel.specs.Differs.{difference_at, line_difference};
ghost use Rattle.mw_rel.specs.Free.{numbered};
ghost use Rattle.mw_rel.specs.InRelation.{BothFit};
ghost use Rattle.mw_rel.specs.Start.{addresses_of};
ghost use Rattle.mw_rel.specs.Views.{job_of};
ghost use Rattle.mw_replay.specs.CounterText.{number_at};
ghost use Rattle.mw_sim.specs.Run.{run_at};

use crate::difference::{event_difference, memory_difference, pointer_difference};
use mw_base::Event;
use mw_rel::{Difference, Job, Pair, line_difference};

/// The number of the boundary at a control address, if there is one.
pub(crate) fn number_at(job: &Job, address: u16) -> Option<usize>
    ensures exact { result ≡ number_at (job_of job.now) address }
    ensures there { IfSome result (λ n. n < length (job_of job.now).relation.boundaries) }
{
    let boundaries = job.relation.boundaries();
    for (n, boundary) in boundaries.iter().enumerate() {
        if boundary.address == address {
            return Some(n);
        }
    }
    None
}

/// Puts the control addresses of the boundaries into a list that has a place for each.
pub(crate) fn copy_addresses(job: &Job, addresses: &mut [u16])
    requires { length addresses.old ≡ length (job_of job.now).relation.boundaries }
    ensures { addresses.new ≡ addresses_of (job_of job.now) }
{
    let boundaries = job.relation.boundaries();
    for (n, boundary) in boundaries.iter().enumerate() {
        addresses[n] = boundary.address;
    }
}

/// The first difference at the boundary that a run has reached: of its events and those of the described step, and of
/// both states.
#[tactic(auto, using(crate::proofs::Shown::first_of_four), unfolding(mw_rel::specs::Differs::first_difference))]
pub(crate) fn difference_at(
    job: &Job,
    boundary: usize,
    pair: &Pair,
    events: &[Event],
    steps: &[Event],
) -> Option<Difference>
    requires there { boundary < length (job_of job.now).relation.boundaries }
    requires fit { BothFit (job_of job.now) pair.now }
    requires few { length events.now < 2 ^ 32 }
    ensures { (clock : ClockOf) (taken : ℕ) → result ≡ difference_at (job_of job.now)
        (numbered (job_of job.now) boundary) (run_at pair.now.board events.now clock)
        (record { state = pair.now.machine; events = steps.now; taken = taken }) }
{
    let at = job.boundary(boundary);
    event_difference(events, steps)
        .or(pointer_difference(at, &pair.board))
        .or(line_difference(job, boundary, pair))
        .or(memory_difference(&pair.board.memory, &pair.machine.memory))
}
