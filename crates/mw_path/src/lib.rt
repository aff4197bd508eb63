//! A path as a diagram, with the bits of written terms by which it is split.
#![tactic(auto)]

mod paths;

pub use paths::{Feasible, Paths};
