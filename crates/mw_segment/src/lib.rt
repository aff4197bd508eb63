//! The first segment of a board on terms, of either side: its cycles up to the first that ends at a boundary, no more than
//! its bound.
#![tactic(auto)]

mod cycles;
mod laws;
mod program;

pub use cycles::{Came, segment};
pub use laws::{paths_go_on, words_begin};
pub use program::Program;
