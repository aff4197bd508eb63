//! The symbolic described step: expressions, and one step of a described machine, on terms.
#![tactic(auto)]

mod expression;
mod joins;
mod laws;
mod level;
mod machine;
mod nodes;
mod parts;
mod walk;
mod zeros;

pub use expression::expr_term;
pub use laws::{scenes_are_seen_before, steps_go_along, terms_are_there, turns_are_of_the_step};
pub use machine::SymMach;
