// Runs of a board, for so many cycles or to a boundary.
ghost use Rattle.std.specs.Prelude.{◌≡◌, ◌+◌, ◌<◌, ◌≤◌, ◌^◌, ◌++◌, IfOk, IfErr, None, Some, true, vec_capacity};
ghost use Rattle.std.specs.Prelude.{vec_len};
ghost use Rattle.std.specs.Option.{option_to_list};
ghost use Rattle.mw_cycle.specs.Boundary.{is_named};
ghost use Rattle.mw_cycle.specs.Environment.{IsEnvironment};
ghost use Rattle.mw_cycle.specs.State.{Fits};
ghost use Rattle.mw_sim.specs.Run.{AreFew, cycles_after, run_at, segment_after};

use mw_base::Event;
use mw_board::{Board, Store};
use mw_cycle::{Clock, Datapath, Env, State, clock as one_clock};

/// A run that came to no boundary within its limit.
#[derive(Clone, Copy, Debug, PartialEq, Eq)]
pub struct Late {
    /// How far it came.
    pub clock: Clock,
}

/// Appends an event, if there is one. There is room for it.
fn note(events: &mut Vec<Event>, event: Option<Event>)
    requires room { vec_len events.old < vec_capacity events.old }
    ensures items { events.new.items ≡ events.old.items ++ option_to_list event }
    ensures few { vec_len events.new ≤ vec_len events.old + 1 }
    ensures capacity { vec_capacity events.old ≤ vec_capacity events.new }
{
    if let Some(event) = event {
        let noted = events.push(event).is_ok();
        prove!(noted);
    }
}

/// One cycle more, with the waits before it. These end, since the wait list does.
fn advance<A: Datapath>(
    part: &A,
    board: &Board,
    store: &Store,
    state: &mut State,
    env: &Env,
    clock: Clock,
    events: &mut Vec<Event>,
) -> Clock
    requires fits { Fits board.now state.old }
    requires env_in { IsEnvironment board.now env.now }
    requires cycle { clock.cycle + 1 < 2 ^ 64 }
    requires taken { clock.taken + 1 < 2 ^ 64 }
    requires clocks { clock.clocks + 1 < 2 ^ 64 }
    requires room { vec_len events.old < vec_capacity events.old }
    ensures exact { run_at state.new events.new.items result
        ≡ cycles_after board.now store.now.words env.now (run_at state.old events.old.items clock) 1 }
    ensures fits { Fits board.now state.new }
    ensures cycle { result.cycle ≡ clock.cycle + 1 }
    ensures taken { result.taken ≤ clock.taken + 1 }
    ensures clocks { AreFew clock.clocks 1 result.clocks }
    ensures few { vec_len events.new ≤ vec_len events.old + 1 }
    ensures capacity { vec_capacity events.old ≤ vec_capacity events.new }
{
    let mut reached = clock;
    'clocks: loop {
        let given = env.given(reached);
        let wait = env.waits(reached);
        match one_clock(part, board, store, state, given, wait) {
            Some(nets) => {
                note(events, nets.event);
                return reached.after(nets.event);
            }
            None => reached = reached.after_wait(),
        }
    }
}

/// Whether a board stands at one of these control addresses.
fn stands_at(state: &State, addresses: &[u16]) -> bool
    ensures { result ≡ is_named addresses.now state.now.at }
{
    addresses.contains(&state.at)
}

/// Runs a board for `count` cycles from the state and the clock that are given, with the waits before each, appends its
/// events, and answers its clock after them. No clock from 2^63 on waits, so that beside its cycles a run has few clocks.
/// It takes no memory, and the list keeps its room.
///
/// The state fits the board, the environment is one of the board, there is spare room for `count` events, and the
/// clock stays within 64 bits.
pub fn run_cycles<A: Datapath>(
    part: &A,
    board: &Board,
    store: &Store,
    state: &mut State,
    env: &Env,
    clock: Clock,
    count: u32,
    events: &mut Vec<Event>,
) -> Clock
    requires fits { Fits board.now state.old }
    requires env_in { IsEnvironment board.now env.now }
    requires cycle { clock.cycle + count < 2 ^ 64 }
    requires taken { clock.taken + count < 2 ^ 64 }
    requires clocks { clock.clocks + count < 2 ^ 64 }
    requires room { vec_len events.old + count ≤ vec_capacity events.old }
    ensures exact { run_at state.new events.new.items result
        ≡ cycles_after board.now store.now.words env.now (run_at state.old events.old.items clock) count }
    ensures clocks { AreFew clock.clocks count result.clocks }
    ensures fits { Fits board.now state.new }
    ensures capacity { vec_capacity events.old ≤ vec_capacity events.new }
{
    let mut reached = clock;
    'cycles: for _ in 0..count {
        reached = advance(part, board, store, state, env, reached, events);
    }
    reached
}

/// Runs a board from the state and the clock that are given to the next cycle start at one of these control
/// addresses: for one cycle at least, and for `limit` cycles at most, in which waits aren't counted. It appends the
/// events of these cycles, and answers the clock after them; beside the cycles there are few clocks. It takes no memory,
/// and the list keeps its room.
///
/// The state fits the board, the environment is one of the board, there is spare room for `limit` events, and the
/// clock stays within 64 bits. There may be no addresses.
///
/// # Errors
///
/// Exactly where `limit` cycles passed without one of the addresses. The state, the events and the clock are those
/// after them.
pub fn run_to_boundary<A: Datapath>(
    part: &A,
    board: &Board,
    store: &Store,
    state: &mut State,
    env: &Env,
    clock: Clock,
    boundaries: &[u16],
    limit: u32,
    events: &mut Vec<Event>,
) -> Result<Clock, Late>
    requires fits { Fits board.now state.old }
    requires env_in { IsEnvironment board.now env.now }
    requires cycle { clock.cycle + limit < 2 ^ 64 }
    requires taken { clock.taken + limit < 2 ^ 64 }
    requires clocks { clock.clocks + limit < 2 ^ 64 }
    requires room { vec_len events.old + limit ≤ vec_capacity events.old }
    ensures reached { IfOk result (λ end. segment_after board.now store.now.words env.now
        (run_at state.old events.old.items clock) boundaries.now limit
        ≡ Some (run_at state.new events.new.items end)) }
    ensures clocks { IfOk result (λ end. AreFew clock.clocks limit end.clocks) }
    ensures named { IfOk result (λ end. is_named boundaries.now state.new.at ≡ true) }
    ensures late { IfErr result (λ late. segment_after board.now store.now.words env.now
        (run_at state.old events.old.items clock) boundaries.now limit ≡ None) }
    ensures passed { IfErr result (λ late. run_at state.new events.new.items late.clock
        ≡ cycles_after board.now store.now.words env.now (run_at state.old events.old.items clock) limit) }
    ensures fits { Fits board.now state.new }
    ensures capacity { vec_capacity events.old ≤ vec_capacity events.new }
{
    let mut reached = clock;
    'cycles: for _ in 0..limit {
        reached = advance(part, board, store, state, env, reached, events);
        if stands_at(state, boundaries) {
            return Ok(reached);
        }
    }
    Err(Late { clock: reached })
}
