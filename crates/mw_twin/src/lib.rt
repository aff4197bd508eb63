//! Twin cases on terms: both programs of a revision from all twin starts of a block at once.
#![tactic(auto)]

mod course;
mod elements;
mod laws;
mod revised_block;
mod segments;
mod starts;

pub use course::Course;
pub use elements::{Elements, elements_at, width_of};
pub use laws::{courses_take_bits, twin_starts_are_there};
pub use revised_block::RevisedBlock;
pub use starts::{TwinStarts, starts_of};
