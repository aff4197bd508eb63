// The bits of a cycle that a carry in, a condition, a link or a flip-flop may choose.
ghost use Rattle.std.specs.Prelude.{◌≡◌, ◌<◌, length};
ghost use Rattle.mw_base.specs.Words.{bit_of, num};
ghost use Rattle.mw_board.specs.Valid.{IsBit};
ghost use Rattle.mw_cycle.specs.Cycle.{early_bit, carry_net, overflow_net, bit_value};

use crate::state::{CycleIn, State};
use mw_alu::AluOut;
use mw_base::bit;
use mw_board::{Bit, Board};

/// A bit as the number 0 or 1.
pub(crate) fn bit_number(bit: bool) -> u16
    ensures { result ≡ num bit }
{
    u16::from(bit)
}

/// The value of a flip-flop.
pub(crate) fn flip(state: &State, number: u8) -> bool
    requires { number < 16 }
    ensures { result ≡ bit_of state.now.flips number }
{
    (state.flips >> number) & 1 == 1
}

/// A bit that stands before F is made; the bits of F are false here.
#[tactic(auto, unfolding(crate::specs::Cycle::early_bit))]
pub(crate) fn early_bit(board: &Board, chosen: Bit, state: &State, given: CycleIn) -> bool
    requires { IsBit board.now.width (length board.now.flipflop) chosen }
    ensures { result ≡ early_bit board.now chosen state.now given }
{
    let top = board.width().bits() - 1;
    match chosen {
        Bit::One => true,
        Bit::QLow => bit(state.q, 0),
        Bit::QHigh => bit(state.q, top),
        Bit::Line => given.line,
        Bit::Full => state.seq.sp == board.depth(),
        Bit::Ir(number) => bit(state.ir, number),
        Bit::Flip(number) => flip(state, number),
        _ => false,
    }
}

/// The carry out, or bit 12 of the noise where it is undefined.
pub(crate) fn carry_net(answer: &AluOut, given: CycleIn) -> bool
    ensures { result ≡ carry_net answer.now given }
{
    if answer.defined {
        answer.carry
    } else {
        bit(u32::from(given.noise), 12)
    }
}

/// The overflow, or bit 13 of the noise where it is undefined.
pub(crate) fn overflow_net(answer: &AluOut, given: CycleIn) -> bool
    ensures { result ≡ overflow_net answer.now given }
{
    if answer.defined {
        answer.overflow
    } else {
        bit(u32::from(given.noise), 13)
    }
}

/// Any bit, once F is made.
#[tactic(auto, unfolding(crate::specs::Cycle::bit_value))]
pub(crate) fn bit_value(
    board: &Board,
    chosen: Bit,
    answer: &AluOut,
    state: &State,
    given: CycleIn,
) -> bool
    requires { IsBit board.now.width (length board.now.flipflop) chosen }
    ensures { result ≡ bit_value board.now chosen answer.now state.now given }
{
    match chosen {
        Bit::Carry => carry_net(answer, given),
        Bit::Overflow => overflow_net(answer, given),
        Bit::FZero => answer.zero,
        Bit::Sign => answer.sign,
        Bit::FLow => bit(answer.f, 0),
        Bit::FHigh => bit(answer.f, board.width().bits() - 1),
        _ => early_bit(board, chosen, state, given),
    }
}
