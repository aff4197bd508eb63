//! The arithmetic part of the board as Am2901 slices of four bits, joined by Am2902s.
#![tactic(auto)]

mod am2901;
mod am2902;
mod board;
mod law;

pub use am2901::{Slice, SliceOut};
pub use am2902::{Look, lookahead};
pub use board::{sliced, sliced_shift};
pub use law::lookahead_is_addition;
