// What a microword has in its fields and at a board's control points.
ghost use Rattle.std.specs.Prelude.{◌≡◌, ℕ, ◌<◌, ◌≤◌, ◌^◌, ◌%◌, slice_get};
ghost use Rattle.mw_base.specs.Words.{part};
ghost use Rattle.mw_board.specs.Rules.{width_of};
ghost use Rattle.mw_board.specs.Valid.{IsPoint};
ghost use Rattle.mw_cycle.specs.Control.{in_field, value_at, is_on, chosen};

use mw_board::{Board, Control};

/// The low bits of a number, so many of them.
#[tactic(auto, using(std::proofs::lemmas::Nat::and_mask, std::proofs::lemmas::Nat::one_shl))]
pub(crate) fn low_bits(number: u128, bits: u8) -> u32
    requires { bits ≤ 32 }
    ensures exact { result ≡ number % 2 ^ bits }
    ensures below { result < 2 ^ bits }
{
    (number & ((1 << bits) - 1)) as u32
}

/// The run of `width` bits of a word, from bit `low` on.
pub(crate) fn run_of_bits(word: u128, low: u8, width: u8) -> u32
    requires low_in { low < 128 }
    requires width_in { width ≤ 32 }
    ensures exact { result ≡ part low width word }
    ensures below { result < 2 ^ width }
{
    low_bits(word >> low, width)
}

/// What a microword has in the field with this number, 0 where there is none.
pub(crate) fn in_field(board: &Board, number: u8, word: u128) -> u32
    ensures exact { result ≡ in_field (slice_get board.now.fields number) word }
    ensures below { result < 2 ^ width_of (slice_get board.now.fields number) }
{
    match board.parts().fields.as_slice().get(usize::from(number)) {
        Some(named) => run_of_bits(word, named.field.low, named.field.width),
        None => 0,
    }
}

/// What a control point is given.
pub(crate) fn value_at(board: &Board, word: u128, control: Control) -> u32
    ensures exact { result ≡ value_at board.now.fields word control }
    ensures below { (bits : ℕ) → IsPoint bits board.now.fields control → result < 2 ^ bits }
{
    match control {
        Control::Field(number) => in_field(board, number, word),
        Control::Fixed(value) => value,
    }
}

/// What a control point of so many bits is given.
pub(crate) fn point<const BITS: u8>(board: &Board, word: u128, control: Control) -> u16
    requires few { BITS ≤ 12 }
    requires point { IsPoint BITS board.now.fields control }
    ensures exact { result ≡ value_at board.now.fields word control }
    ensures below { result < 2 ^ BITS }
{
    value_at(board, word, control) as u16
}

/// Whether a control point of one bit is on.
pub(crate) fn is_on(board: &Board, word: u128, control: Control) -> bool
    ensures { result ≡ is_on board.now.fields word control }
{
    value_at(board, word, control) == 1
}

/// The entry with a number; past the list's end it is entry 0.
pub(crate) fn chosen<T: Copy>(none: T, entries: &[T], number: u32) -> T
    ensures { result ≡ chosen none entries.now number }
{
    entries
        .get(number as usize)
        .or(entries.first())
        .copied()
        .unwrap_or(none)
}
