// The arithmetic part of a board as its parts.
ghost use Rattle.std.specs.Prelude.{◌≡◌, ◌<◌, ◌^◌, ◌%◌};
ghost use Rattle.mw_alu.specs.WholeWord.{alu_of, shift_of};

use mw_alu::{AluOut, Pins, ShiftOut};
use mw_base::Width;
use mw_cycle::Datapath;
use mw_slice::{sliced, sliced_shift};

/// The slices of the word, four bits each, joined by lookahead. They answer and write what [`mw_cycle::Whole`] does,
/// and take longer.
#[derive(Clone, Copy, Debug, PartialEq, Eq)]
pub struct Parts;

impl Datapath for Parts {
    fn answer(&self, width: Width, ins: u16, a: u32, b: u32, q: u32, d: u32, cin: bool) -> AluOut {
        sliced(width, ins, a, b, q, d, cin)
    }

    fn edge(&self, width: Width, ins: u16, f: u32, q: u32, pins: Pins) -> ShiftOut {
        sliced_shift(width, ins, f, q, pins)
    }
}
