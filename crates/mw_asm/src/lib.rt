//! Microprograms: their text in the fields of a board, the microwords and labels that it spells, and their listing.
#![tactic(auto)]

mod assembled;
mod bits;
mod first_pass;
mod item_bits;
mod items;
mod labels;
mod listed;
mod microprogram;
mod names;
mod program;
mod second_pass;
mod statement;

pub use assembled::{Assembled, Label};
pub use labels::address_of;
pub use listed::listing;
pub use microprogram::assemble;
pub use program::Program;
