//! The cases of a tree of decided bits, each once and in order. A course goes through the bits of a case; at each bit
//! of which both values lead to a case another course waits with 1, which begins the next case there.
#![tactic(auto)]

mod explorer;
mod fault;
mod stage;
mod trail;
mod tree;
mod way;

pub use explorer::{Case, Explorer, Halt};
pub use fault::Fault;
pub use tree::{CaseTree, Choice, ComparedTree};
