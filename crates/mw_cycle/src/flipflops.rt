// What the flip-flops take at the edge.
ghost use Rattle.std.specs.Prelude.{◌≡◌, ◌<◌, ◌^◌, length};
ghost use Rattle.mw_base.specs.Words.{bit_of};
ghost use Rattle.mw_board.specs.Valid.{IsFlipFlop, IsLoad};
ghost use Rattle.mw_cycle.specs.Cycle.{loaded, flip_of, flips_after};

use crate::bits::{bit_number, bit_value, carry_net, flip};
use crate::microword::Microword;
use crate::state::{CycleIn, State};
use mw_alu::AluOut;
use mw_board::{Board, FlipFlop, Load};

/// What a flip-flop takes, whose value was `old`.
fn loaded(
    board: &Board,
    load: Load,
    old: bool,
    answer: &AluOut,
    state: &State,
    given: CycleIn,
) -> bool
    requires { IsLoad board.now.width (length board.now.flipflop) load }
    ensures { result ≡ loaded board.now load old answer.now state.now given }
{
    match load {
        Load::Hold => old,
        Load::Invert => !old,
        Load::XorCarry => old != carry_net(answer, given),
        Load::Take(bit) => bit_value(board, bit, answer, state, given),
    }
}

/// What a flip-flop takes, which has this number.
fn flip_of(
    board: &Board,
    microword: &Microword,
    number: u8,
    flipflop: &FlipFlop,
    answer: &AluOut,
    state: &State,
    given: CycleIn,
) -> bool
    requires number_in { number < 16 }
    requires valid { IsFlipFlop board.now flipflop.now }
    ensures { result ≡ flip_of board.now microword.now number flipflop.now answer.now state.now given }
{
    let load = microword.load(board, flipflop);
    loaded(board, load, flip(state, number), answer, state, given)
}

/// All flip-flops after the edge, flip-flop n as bit n.
pub(crate) fn flips_after(
    board: &Board,
    microword: &Microword,
    answer: &AluOut,
    state: &State,
    given: CycleIn,
) -> u16
    ensures exact { result ≡ flips_after board.now microword.now answer.now state.now given }
    ensures below { result < 2 ^ length board.now.flipflop }
{
    let flipflops = board.parts().flipflop.as_slice();
    let mut flips = 0;
    for (n, flipflop) in flipflops.iter().enumerate() {
        let number = n as u8;
        let takes = flip_of(board, microword, number, flipflop, answer, state, given);
        flips += bit_number(takes) << number;
    }
    flips
}
