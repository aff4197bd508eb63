//! The sequencer of the board: an Am2910, or an Am2910A.
#![tactic(auto)]

mod instruction;
mod sequencer;

pub use instruction::{AddressFrom, CounterMove, Effect, Instruction, StackMove};
pub use sequencer::{Seq, is_depth};
