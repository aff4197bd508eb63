//! The bits of terms as Boolean functions, made by the rows of the term table within a budget.
#![tactic(auto)]

mod blast;
mod entry;
mod fault;
mod functions;
mod laws;
mod op_bits;
mod rows;
mod shared;
mod split;
mod words;

pub use blast::Blast;
pub use fault::BlastFault;
pub use laws::{over_have_numbers, stays_with_diagrams, stays_with_terms};
pub use shared::Shared;
pub use split::Split;
