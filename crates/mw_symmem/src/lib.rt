//! Symbolic memory: the words of a case in their order, and one base image under the writes of two sides.
#![tactic(auto)]

mod held;
mod image;
mod key;
mod laws;
mod memory;
mod read;
mod turn;
mod words;

pub use laws::{
    are_of_at_first, images_are_reached, images_are_there, images_fit_before, is_memory_at_first,
    reads_stay, stays_with_words, stays_with_writes,
};
pub use memory::SymMemory;
pub use mw_term::{Decided, DecidedKind, Prefix, Side, SymEvent, WordKind};
pub use turn::Turn;
pub use words::Words;
