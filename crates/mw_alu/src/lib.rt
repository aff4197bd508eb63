//! The arithmetic part of the board: an Am2901 of any width, as one word.
#![tactic(auto)]

mod answer;
mod edge;
mod instruction;
mod size;

pub use answer::{AluOut, alu};
pub use edge::{Pins, ShiftOut, shift};
pub use instruction::{Destination, Function, Source};
