// What the edge writes into B and Q.
ghost use Rattle.std.specs.Prelude.{◌≡◌, ◌<◌, ◌≤◌, ◌^◌, ◌-◌, ◌+◌, ◌*◌, ◌/◌};
ghost use Rattle.mw_base.specs.Words.{num};
ghost use Rattle.mw_alu.specs.WholeWord.{down, up, b_of, q_of, shift_of};

use crate::instruction::Destination;
use crate::size::size;
use mw_base::Width;

/// The levels at the ends of the two shifters: of the registers' (ram) and of Q's.
#[derive(Clone, Copy, Debug, PartialEq, Eq)]
pub struct Pins {
    /// What a down shift of F takes as its top bit.
    pub ram_high: bool,
    /// What an up shift of F takes as its bottom bit.
    pub ram_low: bool,
    /// What a down shift of Q takes as its top bit.
    pub q_high: bool,
    /// What an up shift of Q takes as its bottom bit.
    pub q_low: bool,
}

/// What the edge writes; what isn't written is 0.
#[derive(Clone, Copy, Debug, PartialEq, Eq)]
pub struct ShiftOut {
    /// Whether B is written.
    pub write_b: bool,
    /// What B takes.
    pub b: u32,
    /// Whether Q is written.
    pub write_q: bool,
    /// What Q takes.
    pub q: u32,
}

fn shifted_down(width: Width, word: u32, high: bool) -> u32
    requires { word < 2 ^ width }
    ensures exact { result ≡ down width word high }
    ensures below { result < 2 ^ width }
{
    word / 2 + (u32::from(high) << (width.bits() - 1))
}

#[tactic(auto, using(crate::proofs::Shifts::up_below))]
fn shifted_up(width: Width, word: u32, low: bool) -> u32
    requires { word < 2 ^ width }
    ensures exact { result ≡ up width word low }
    ensures below { result < 2 ^ width }
{
    (2 * u64::from(word) % size(width)) as u32 + u32::from(low)
}

fn taken_by_b(destination: Destination, width: Width, f: u32, pins: Pins) -> u32
    requires { f < 2 ^ width }
    ensures exact { result ≡ b_of destination width f pins }
    ensures below { result < 2 ^ width }
{
    match destination {
        Destination::Qreg | Destination::Nop => 0,
        Destination::Rama | Destination::Ramf => f,
        Destination::Ramqd | Destination::Ramd => shifted_down(width, f, pins.ram_high),
        Destination::Ramqu | Destination::Ramu => shifted_up(width, f, pins.ram_low),
    }
}

fn taken_by_q(destination: Destination, width: Width, f: u32, q: u32, pins: Pins) -> u32
    requires f_in { f < 2 ^ width }
    requires q_in { q < 2 ^ width }
    ensures exact { result ≡ q_of destination width f q pins }
    ensures below { result < 2 ^ width }
{
    match destination {
        Destination::Qreg => f,
        Destination::Ramqd => shifted_down(width, q, pins.q_high),
        Destination::Ramqu => shifted_up(width, q, pins.q_low),
        _ => 0,
    }
}

/// What one instruction writes into B and Q at the edge, from F, Q and the pins.
#[tactic(auto, unfolding(crate::specs::WholeWord::shift_of))]
pub fn shift(width: Width, ins: u16, f: u32, q: u32, pins: Pins) -> ShiftOut
    requires ins_in { ins < 512 }
    requires f_in { f < 2 ^ width }
    requires q_in { q < 2 ^ width }
    ensures exact { result ≡ shift_of width ins f q pins }
    ensures b_below { result.b < 2 ^ width }
    ensures q_below { result.q < 2 ^ width }
{
    let destination = Destination::of(ins);
    ShiftOut {
        write_b: destination.writes_b(),
        b: taken_by_b(destination, width, f, pins),
        write_q: destination.writes_q(),
        q: taken_by_q(destination, width, f, q, pins),
    }
}
