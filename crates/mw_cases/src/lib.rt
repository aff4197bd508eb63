//! Jobs that come from no file: the generator makes one for each number, and the four texts of a PDP-8 are constants.
#![tactic(auto)]

mod board;
mod described;
mod generator;
mod instructions;
mod laws;
mod layout;
mod operation;
mod pdp8_job;
mod pdp8_micro;
mod pdp8_texts;
mod related;
mod store;
mod word;

pub use generator::{Made, generate};
pub use laws::{jobs_are_one, operations_are_640, operations_are_few, steps_do_operations};
pub use operation::{Kind, Operation};
pub use pdp8_job::{Texts, pdp8, pdp8_fault};
