//! Comparisons of two runs on terms, on a path: whether two terms have one value, both sides put out the same words, and
//! their memories hold one word at each address; else the first assignment under which they don't. No relation between
//! the runs is known here.
#![tactic(auto)]

mod events;
mod memory;
mod terms;

pub use events::{alike, compare_events, compare_pair, out_of};
pub use memory::{compare_memory, read_at};
pub use terms::apart;
