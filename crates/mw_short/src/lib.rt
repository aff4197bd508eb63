//! Shortcuts: what an op over terms is known to be before a term is made of it.
//!
//! The modules are public, since other crates take these functions as values, which are known there by their own paths.
#![tactic(auto)]

pub mod complement;
pub mod folded;
pub mod neutral;
pub mod parts;
pub mod same;

pub use complement::double_not;
pub use folded::{all_constant, fixed_choice};
pub use neutral::neutral_constant;
pub use parts::part_of_join;
pub use same::same_operands;
