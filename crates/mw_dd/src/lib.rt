//! Binary decision diagrams, ordered and reduced: equal functions have equal nodes.
#![tactic(auto)]

mod bounds;
mod dd;
mod diagrams;
mod first;
mod hash;
mod ite;
mod kept;
mod memo;
mod nodes;
mod notes;
mod operate;
mod table;
mod unique_table;
mod variable;

pub use dd::{Dd, DdFault};
pub use diagrams::Diagrams;
