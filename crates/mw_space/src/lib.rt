//! What runs of a board on terms work on, and the environment that an assignment gives.
#![tactic(auto)]

mod outside;
mod space;

pub use outside::{environment_of, take};
pub use space::Space;
