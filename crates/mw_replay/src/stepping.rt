// Replays: segment after segment from a start, each beside one described step.
ghost use Rattle.std.specs.Prelude.{◌≡◌, ◌+◌, ◌<◌, ◌≤◌, ◌^◌, [], IfOk, IfSome, Some, None, length, slice_index};
ghost use Rattle.std.specs.Prelude.{vec_capacity, vec_len};
ghost use Rattle.mw_cycle.specs.declared.environment.Clock.{Clock as ClockOf};
ghost use Rattle.mw_cycle.specs.Environment.{IsEnvironment, at_start, rest_at};
ghost use Rattle.mw_cycle.specs.Run.{BoardRun, further};
ghost use Rattle.mw_cycle.specs.State as boards;
ghost use Rattle.mw_macro.specs.Counts.{most_events};
ghost use Rattle.mw_macro.specs.DescribedStep.{AreInputs, step_of};
ghost use Rattle.mw_macro.specs.State as machines;
ghost use Rattle.mw_rel.specs.Differs.{difference_of, segment_of, shown_by};
ghost use Rattle.mw_rel.specs.Free.{numbered};
ghost use Rattle.mw_rel.specs.declared.difference.Difference.TheVariants.{Late};
ghost use Rattle.mw_rel.specs.InRelation.{BothFit, pair_of};
ghost use Rattle.mw_rel.specs.Job.{IsJob};
ghost use Rattle.mw_rel.specs.Start.{addresses_of};
ghost use Rattle.mw_rel.specs.Views.{job_of};
ghost use Rattle.mw_sim.specs.Run.{AreFew, run_at, segment_after};
ghost use Rattle.mw_replay.specs.Counter.{IsCounter, IsStartOf};
ghost use Rattle.mw_replay.specs.Views.{replay_of, HasRoom};
ghost use Rattle.mw_replay.specs.Replay.{IsReplay, Follows, next_start, step_with};
ghost use Rattle.mw_replay.specs.Segment.{Comes, IsShort};

use crate::counter::Counter;
use crate::reached::{copy_addresses, difference_at, number_at};
use crate::request::request_of;
use mw_base::{Event, NoMemory};
use mw_cycle::{Clock, Datapath, Env};
use mw_macro::step;
use mw_rel::{Difference, Job, Pair, complete};
use mw_sim::run_to_boundary;
use std::alloc::Global;
use std::marker::Model;

/// The most cycles of a segment, each of which has one event at most.
const MOST_CYCLES: usize = 500;

/// The most events of a described step.
const MOST_EVENTS: usize = 4096;

/// The most boundaries of a relation.
const MOST_BOUNDARIES: usize = 64;

/// Where a replay stands, and the room that its steps need.
#[derive(Drop)]
pub(crate) struct Stand {
    /// The number of the boundary.
    boundary: usize,
    /// The pair there.
    pair: Pair,
    /// The whole environment.
    env: Env,
    /// How far the replay has come in it.
    clock: Clock,
    /// The events of the last segment.
    events: Vec<Event>,
    /// The events of the last step.
    steps: Vec<Event>,
    /// Nothing: a step keeps nothing here.
    temps: Vec<u32>,
}

/// A replay: the start of the next segment, and all memory that its steps need. Contracts see where it stands: the
/// number of the boundary, the pair there, the whole environment, and how far it has come in it.
#[derive(Drop)]
pub struct Replay {
    stand: Stand,
}

impl Model for Replay {
    ghost use Rattle.mw_replay.specs.Replay.{Replay as ReplayOf};
    ghost use Rattle.mw_replay.specs.Views.{replay_of, HasRoom};

    ghost Value = { ReplayOf };

    ghost view = { λ r. replay_of r.stand };

    ghost invariant = { λ r. HasRoom r.stand };
}

/// Runs the board's next segment, and lists its events alone; None where it is late.
fn run_segment<A: Datapath>(
    part: &A,
    job: &Job,
    limit: u32,
    pair: &mut Pair,
    env: &Env,
    clock: Clock,
    events: &mut Vec<Event>,
) -> Option<Clock>
    requires fits { boards.Fits (job_of job.now).board pair.old.board }
    requires env_in { IsEnvironment (job_of job.now).board env.now }
    requires cycle { clock.cycle + limit < 2 ^ 64 }
    requires taken { clock.taken + limit < 2 ^ 64 }
    requires clocks { clock.clocks + limit < 2 ^ 64 }
    requires room { limit ≤ vec_capacity events.old }
    ensures reached { IfSome result (λ end. segment_after (job_of job.now).board (job_of job.now).store env.now
        (run_at pair.old.board [] clock) (addresses_of (job_of job.now)) limit
        ≡ Some (run_at pair.new.board events.new.items end)) }
    ensures late { result ≡ None → segment_after (job_of job.now).board (job_of job.now).store env.now
        (run_at pair.old.board [] clock) (addresses_of (job_of job.now)) limit ≡ None }
    ensures clocks { IfSome result (λ end. AreFew clock.clocks limit end.clocks) }
    ensures fits { boards.Fits (job_of job.now).board pair.new.board }
    ensures machine { pair.new.machine ≡ pair.old.machine }
    ensures capacity { vec_capacity events.old ≤ vec_capacity events.new }
{
    let mut addresses = [0; MOST_BOUNDARIES];
    let named = &mut addresses[..job.relation.boundaries().len()];
    copy_addresses(job, named);
    events.clear();
    let ended = run_to_boundary(
        part,
        &job.board,
        &job.store,
        &mut pair.board,
        env,
        clock,
        named,
        limit,
        events,
    );
    match ended {
        Ok(end) => Some(end),
        Err(_) => None,
    }
}

/// The described step of the next segment, and lists its events alone: its request is the line of the clock that makes
/// the segment's first cycle, and its inputs are those that were not taken yet.
fn run_step(
    job: &Job,
    pair: &mut Pair,
    env: &Env,
    clock: Clock,
    temps: &mut Vec<u32>,
    steps: &mut Vec<Event>,
)
    requires fits { machines.Fits (job_of job.now).machine pair.old.machine }
    requires inputs { AreInputs (job_of job.now).machine env.now.inputs }
    requires within { clock.taken + most_events (job_of job.now).machine < 2 ^ 64 }
    requires empty { temps.old.items ≡ [] }
    requires room { 4096 ≤ vec_capacity steps.old }
    ensures pair { pair.new ≡ pair_of pair.old.board
        (step_with (job_of job.now) pair.old (rest_at env.now clock)).state }
    ensures events { steps.new.items ≡ (step_with (job_of job.now) pair.old (rest_at env.now clock)).events }
    ensures fits { machines.Fits (job_of job.now).machine pair.new.machine }
    ensures capacity { vec_capacity steps.old ≤ vec_capacity steps.new }
    ensures empty { temps.new.items ≡ [] }
{
    let request = request_of(&job.board, &job.store, &pair.board, env, clock);
    steps.clear();
    step(
        &job.machine,
        &mut pair.machine,
        request,
        &env.inputs,
        clock.taken,
        temps,
        steps,
    );
}

/// The control address at which the board of a pair stands.
fn address_of(pair: &Pair) -> u16
    ensures { result ≡ pair.now.board.at }
{
    pair.board.at
}

/// Where a segment has come to.
#[derive(Clone, Copy)]
struct Reached {
    /// The number of the boundary.
    boundary: usize,
    /// How far the replay has come in its environment.
    clock: Clock,
}

/// Runs the next segment of the board and makes the described step beside it; None where it is late.
fn run_both<A: Datapath>(part: &A, job: &Job, stand: &mut Stand) -> Option<Reached>
    requires room { HasRoom stand.old }
    requires stands { IsReplay (job_of job.now) (replay_of stand.old) }
    requires cycles { stand.old.clock.cycle + (numbered (job_of job.now) stand.old.boundary).bound < 2 ^ 64 }
    requires taken { stand.old.clock.taken + (numbered (job_of job.now) stand.old.boundary).bound < 2 ^ 64 }
    requires clocks { stand.old.clock.clocks + (numbered (job_of job.now) stand.old.boundary).bound < 2 ^ 64 }
    requires inputs { stand.old.clock.taken + most_events (job_of job.now).machine < 2 ^ 64 }
    ensures room { HasRoom stand.new }
    ensures env { stand.new.env ≡ stand.old.env }
    ensures clock { stand.new.clock ≡ stand.old.clock }
    ensures fit { BothFit (job_of job.now) stand.new.pair }
    ensures job { IsJob (job_of job.now) }
    ensures short { IfSome result (λ r. IsShort stand.old.clock stand.new.events.items r.clock) }
    ensures reached { IfSome result (λ r. Comes (job_of job.now) (replay_of stand.old) stand.new r.boundary r.clock) }
    ensures late { result ≡ None → difference_of (job_of job.now) (next_start (job_of job.now) (replay_of stand.old))
        ≡ Some Late }
{
    let limit = job.boundary(stand.boundary).bound;
    run_step(
        job,
        &mut stand.pair,
        &stand.env,
        stand.clock,
        &mut stand.temps,
        &mut stand.steps,
    );
    let ended = run_segment(
        part,
        job,
        limit,
        &mut stand.pair,
        &stand.env,
        stand.clock,
        &mut stand.events,
    );
    let Some(clock) = ended else {
        return None;
    };
    let Some(boundary) = number_at(job, address_of(&stand.pair)) else {
        return None;
    };
    Some(Reached { boundary, clock })
}

/// One segment of the board from the next start, and one step of the described machine: the first difference.
fn advance<A: Datapath>(part: &A, job: &Job, stand: &mut Stand) -> Option<Difference>
    requires room { HasRoom stand.old }
    requires stands { IsReplay (job_of job.now) (replay_of stand.old) }
    requires cycles { stand.old.clock.cycle + (numbered (job_of job.now) stand.old.boundary).bound < 2 ^ 64 }
    requires taken { stand.old.clock.taken + (numbered (job_of job.now) stand.old.boundary).bound < 2 ^ 64 }
    requires clocks { stand.old.clock.clocks + (numbered (job_of job.now) stand.old.boundary).bound < 2 ^ 64 }
    requires inputs { stand.old.clock.taken + most_events (job_of job.now).machine < 2 ^ 64 }
    ensures room { HasRoom stand.new }
    ensures shown { result ≡ difference_of (job_of job.now) (next_start (job_of job.now) (replay_of stand.old)) }
    ensures follows { result ≡ None → Follows (job_of job.now) (next_start (job_of job.now) (replay_of stand.old))
        (next_start (job_of job.now) (replay_of stand.new)) }
    ensures place { result ≡ None → (run : BoardRun)
        × (segment_of (job_of job.now) (next_start (job_of job.now) (replay_of stand.old)) ≡ Some run)
        × (stand.new.clock ≡ further stand.old.clock run.clock) }
    ensures env { stand.new.env ≡ stand.old.env }
    ensures stands { result ≡ None → IsReplay (job_of job.now) (replay_of stand.new) }
    ensures cycle { stand.new.clock.cycle ≤ stand.old.clock.cycle + 500 }
    ensures taken { stand.new.clock.taken ≤ stand.old.clock.taken + 500 }
    ensures clocks { AreFew stand.old.clock.clocks 500 stand.new.clock.clocks }
{
    let Some(reached) = run_both(part, job, stand) else {
        return Some(Difference::Late);
    };
    stand.boundary = reached.boundary;
    stand.clock = reached.clock;
    difference_at(
        job,
        reached.boundary,
        &stand.pair,
        &stand.events,
        &stand.steps,
    )
}

impl Replay {
    /// The replay of the start that a counter gives, before its first step. It takes all memory that its steps need.
    ///
    /// # Errors
    ///
    /// Memory ran out.
    pub fn start(alloc: Global, job: &Job, counter: &Counter) -> Result<Replay, NoMemory>
        requires counts { IsCounter (job_of job.now) counter.now }
        ensures start { IfOk result
            (λ replay. IsStartOf (job_of job.now) counter.now (next_start (job_of job.now) replay)) }
        ensures clock { IfOk result (λ replay. replay.clock ≡ at_start) }
        ensures stands { IfOk result (λ replay. IsReplay (job_of job.now) replay) }
    {
        let pair = complete(alloc, job, counter.boundary, &counter.begin)?;
        Ok(Replay {
            stand: Stand {
                boundary: counter.boundary,
                pair,
                env: counter.begin.env.copied(alloc)?,
                clock: Clock::start(),
                events: Vec::with_capacity(alloc, MOST_CYCLES)?,
                steps: Vec::with_capacity(alloc, MOST_EVENTS)?,
                temps: Vec::new(alloc),
            },
        })
    }

    /// One segment of the board from the next start, and one step of the described machine. It answers the first
    /// difference in this order: late, where the bound's number of cycles passes without a boundary; the first event
    /// that differs; the stack pointer; the first line that fails at the boundary reached; the least memory address.
    /// Without a difference the next start is that of the next segment. It takes no memory.
    ///
    /// No step before differed; and the clock, and the inputs taken so far with the most that a step takes, stay
    /// within 64 bits.
    pub fn step<A: Datapath>(&mut self, part: &A, job: &Job) -> Option<Difference>
        requires stands { IsReplay (job_of job.now) self.old }
        requires cycles { self.old.clock.cycle + (numbered (job_of job.now) self.old.boundary).bound < 2 ^ 64 }
        requires taken { self.old.clock.taken + (numbered (job_of job.now) self.old.boundary).bound < 2 ^ 64 }
        requires clocks { self.old.clock.clocks + (numbered (job_of job.now) self.old.boundary).bound < 2 ^ 64 }
        requires inputs { self.old.clock.taken + most_events (job_of job.now).machine < 2 ^ 64 }
        ensures shown { result ≡ difference_of (job_of job.now) (next_start (job_of job.now) self.old) }
        ensures follows { result ≡ None → Follows (job_of job.now) (next_start (job_of job.now) self.old)
            (next_start (job_of job.now) self.new) }
        ensures place { result ≡ None → (run : BoardRun)
            × (segment_of (job_of job.now) (next_start (job_of job.now) self.old) ≡ Some run)
            × (self.new.clock ≡ further self.old.clock run.clock) }
        ensures env { self.new.env ≡ self.old.env }
        ensures stands { result ≡ None → IsReplay (job_of job.now) self.new }
        ensures cycle { self.new.clock.cycle ≤ self.old.clock.cycle + 500 }
        ensures taken { self.new.clock.taken ≤ self.old.clock.taken + 500 }
        ensures clocks { AreFew self.old.clock.clocks 500 self.new.clock.clocks }
    {
        advance(part, job, &mut self.stand)
    }
}
