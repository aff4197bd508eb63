//! Calls of the symbolic parts for rows: cycles of a board, steps of a described machine, and terms that are built by
//! shortcuts.
#![tactic(auto)]

pub mod described;
mod listed;
pub mod shortcuts;
mod stepping;
pub mod symbolic;
mod valued;
mod workspace;

pub use listed::{push_operand, push_words};
pub use valued::SymbolicStop;
