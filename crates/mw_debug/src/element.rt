// The elements of a script: those of the board, and behind them the stack pointer.
ghost use Rattle.std.specs.Prelude.{◌≡◌, ◌+◌, ◌<◌, ◌≤◌, ◌^◌, IfSome};
ghost use Rattle.mw_board.specs.Depth.{depth_of};
ghost use Rattle.mw_cycle.specs.State.{Fits};
ghost use Rattle.mw_sim.specs.Start.{with_pointer};
ghost use Rattle.mw_debug.specs.Elements.{number_of_name, number_by_owner, name_of, bound_of, value_in, state_with};
ghost use Rattle.mw_debug.specs.Kept.{IsElement};

use mw_board::Board;
use mw_cycle::State;
use mw_sim::two_to;

/// The number of the element with a name, if there is one.
fn number_of_name(board: &Board, name: &[u8]) -> Option<usize>
    ensures exact { result ≡ number_of_name board.now name.now }
    ensures kept { IfSome result (λ number. IsElement board.now number) }
{
    if name == board.stack_pointer_name() {
        Some(board.element_count())
    } else {
        board.element_number(name)
    }
}

/// The number of OWNER.NAME, if it is an element of the board.
pub(crate) fn number_by_owner(board: &Board, owner: &[u8], name: &[u8]) -> Option<usize>
    ensures exact { result ≡ number_by_owner board.now owner.now name.now }
    ensures kept { IfSome result (λ number. IsElement board.now number) }
{
    if owner == b"b".as_slice() {
        number_of_name(board, name)
    } else {
        None
    }
}

/// The name of the element with a number.
pub(crate) fn name_of(board: &Board, number: usize) -> &[u8]
    ensures { result.now ≡ name_of board.now number }
{
    board
        .element_name(number)
        .unwrap_or(board.stack_pointer_name())
}

/// The least number that is no value of the element with a number.
pub(crate) fn bound_of(board: &Board, number: usize) -> u64
    ensures exact { result ≡ bound_of board.now number }
    ensures most { result ≤ 2 ^ 32 }
{
    // A call for the proof: its clause `valid` says that no element of a board has over 32 bits.
    let _ = board.parts();
    match board.element_width(number) {
        Some(width) => two_to(width),
        None => u64::from(board.depth()) + 1,
    }
}

/// What the element with a number has in a state.
pub(crate) fn value_in(board: &Board, state: &State, number: usize) -> u32
    requires { Fits board.now state.now }
    ensures { result ≡ value_in board.now state.now number }
{
    if number < board.element_count() {
        state.element(board, number)
    } else {
        u32::from(state.seq.sp)
    }
}

/// Gives the stack pointer a value.
#[tactic(auto, using(mw_board::proofs::Elements::words_few))]
fn set_pointer(board: &Board, state: &mut State, value: u32)
    requires fits { Fits board.now state.old }
    requires value_in { value < depth_of board.now + 1 }
    ensures exact { state.new ≡ with_pointer value state.old }
    ensures fits { Fits board.now state.new }
{
    state.seq.sp = value as u8;
}

/// Gives the element with a number a value.
pub(crate) fn set_value(board: &Board, state: &mut State, number: usize, value: u32)
    requires fits { Fits board.now state.old }
    requires there { IsElement board.now number }
    requires value_in { value < bound_of board.now number }
    ensures exact { state.new ≡ state_with board.now state.old number value }
    ensures fits { Fits board.now state.new }
{
    if number < board.element_count() {
        state.set_element(board, number, value);
    } else {
        set_pointer(board, state, value);
    }
}
