//! How long the segments from each boundary of a job last: the least and the greatest length, each with a start that
//! shows it.
#![tactic(auto)]

mod extreme;
mod finding;
mod length;
mod range;

pub use finding::bounds;
pub use length::Length;
pub use range::{Bounds, Range};
