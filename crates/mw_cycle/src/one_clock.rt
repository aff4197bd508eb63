// One clock of a board: a cycle, or a wait for memory that isn't ready.
ghost use Rattle.std.specs.Prelude.{◌≡◌, ◌↔◌, ◌<◌, ◌^◌, IfSome, None, true};
ghost use Rattle.mw_cycle.specs.Cycle.{nets_of, state_after, waits_in};
ghost use Rattle.mw_cycle.specs.State.{Fits};

use crate::datapath::Datapath;
use crate::microword::Microword;
use crate::one_cycle::cycle;
use crate::state::{CycleIn, Nets, State};
use mw_board::{Board, Store};

/// Whether a clock of a board is a wait: its wait bit is 1, and the word at the state's control address uses memory.
pub fn is_wait(board: &Board, store: &Store, state: &State, wait: bool) -> bool
    ensures { result ≡ waits_in board.now store.now.words state.now wait }
{
    wait && Microword::decoded(board, store.word(board, state.at)).uses_memory()
}

/// One clock of a board whose state fits it, with its wait bit. None where that is 1 and the word uses memory: the
/// clock is a wait, and the state stays. Otherwise a cycle. It takes no memory.
pub fn clock<A: Datapath>(
    part: &A,
    board: &Board,
    store: &Store,
    state: &mut State,
    given: CycleIn,
    wait: bool,
) -> Option<Nets>
    requires fits { Fits board.now state.old }
    requires input { given.input < 2 ^ board.now.width }
    ensures wait { result ≡ None ↔ waits_in board.now store.now.words state.old wait ≡ true }
    ensures stays { result ≡ None → state.new ≡ state.old }
    ensures nets { IfSome result (λ nets. nets ≡ nets_of board.now store.now.words state.old given) }
    ensures exact { IfSome result (λ nets. state.new ≡ state_after board.now store.now.words state.old given) }
    ensures fits { Fits board.now state.new }
{
    if is_wait(board, store, state, wait) {
        return None;
    }
    Some(cycle(part, board, store, state, given))
}
