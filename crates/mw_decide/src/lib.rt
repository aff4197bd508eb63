//! Bits that are decided on a path: the first of the values that a term of one bit has there, the path by it and the one
//! that waits, or where an operation is over the budget of nodes. Nothing is known here of what has cases.
#![tactic(auto)]

mod deciding;
mod fault;
mod traced;

pub use deciding::decide;
pub use fault::{Place, RunStop, stop_of};
pub use traced::{Traced, Waiting};
