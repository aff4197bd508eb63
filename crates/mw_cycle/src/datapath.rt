// The arithmetic part as a trait: whatever answers as the whole word does may stand in a board.
ghost use Rattle.std.specs.Prelude.{◌≡◌, ◌<◌, ◌^◌, ◌%◌};
ghost use Rattle.mw_alu.specs.WholeWord.{alu_of, shift_of};

use mw_alu::{AluOut, Pins, ShiftOut, alu, shift};
use mw_base::Width;

/// An Am2901 of the board's width, however it is made.
pub trait Datapath {
    /// What it answers to a nine-bit instruction before the edge. Widths are multiples of 4, and words are below
    /// 2 to the width.
    fn answer(&self, width: Width, ins: u16, a: u32, b: u32, q: u32, d: u32, cin: bool) -> AluOut
        requires slices { width % 4 ≡ 0 }
        requires ins_in { ins < 512 }
        requires a_in { a < 2 ^ width }
        requires b_in { b < 2 ^ width }
        requires q_in { q < 2 ^ width }
        requires d_in { d < 2 ^ width }
        ensures exact { result ≡ alu_of width ins a b q d cin }
        ensures f_below { result.f < 2 ^ width }
        ensures y_below { result.y < 2 ^ width };

    /// What it writes at the edge.
    fn edge(&self, width: Width, ins: u16, f: u32, q: u32, pins: Pins) -> ShiftOut
        requires slices { width % 4 ≡ 0 }
        requires ins_in { ins < 512 }
        requires f_in { f < 2 ^ width }
        requires q_in { q < 2 ^ width }
        ensures exact { result ≡ shift_of width ins f q pins }
        ensures b_below { result.b < 2 ^ width }
        ensures q_below { result.q < 2 ^ width };
}

/// The whole word at once.
#[derive(Clone, Copy, Debug, PartialEq, Eq)]
pub struct Whole;

impl Datapath for Whole {
    fn answer(&self, width: Width, ins: u16, a: u32, b: u32, q: u32, d: u32, cin: bool) -> AluOut {
        alu(width, ins, a, b, q, d, cin)
    }

    fn edge(&self, width: Width, ins: u16, f: u32, q: u32, pins: Pins) -> ShiftOut {
        shift(width, ins, f, q, pins)
    }
}
