// The request of the next step: the line of the clock that makes the next cycle.
ghost use Rattle.std.specs.Prelude.{◌≡◌, ◌<◌, ◌^◌, true};
ghost use Rattle.mw_cycle.specs.Cycle.{waits_in};
ghost use Rattle.mw_cycle.specs.Environment.{rest_at, wait_bit};
ghost use Rattle.mw_cycle.specs.Run.{line_of_cycle};

use mw_board::{Board, Store};
use mw_cycle::{Clock, Env, State, is_wait};

/// Whether the next clock of a run that came so far is a wait.
fn waits_next(board: &Board, store: &Store, state: &State, env: &Env, clock: Clock) -> bool
    ensures exact { result ≡ waits_in board.now store.now.words state.now (wait_bit env.now clock) }
    ensures early { result ≡ true → clock.clocks < 2 ^ 63 }
{
    env.waits(clock) && is_wait(board, store, state, true)
}

/// The line of the clock that makes the next cycle of a board: the first clock from this one on that is no wait. There
/// is one, since the wait list ends.
pub(crate) fn request_of(
    board: &Board,
    store: &Store,
    state: &State,
    env: &Env,
    clock: Clock,
) -> bool
    ensures { result ≡ line_of_cycle board.now store.now.words (rest_at env.now clock) state.now 0 }
{
    let mut making = clock;
    'waits: while waits_next(board, store, state, env, making) {
        making = making.after_wait();
    }
    env.given(making).line
}
