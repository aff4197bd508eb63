//! PDP-8 programs: their source and the memory that it spells, and their console.
#![tactic(auto)]

mod answered;
mod codes;
mod device_examples;
mod devices;
mod examples;
mod first_pass;
mod fits;
mod joins;
mod laws;
mod opcode;
mod operation;
mod run_examples;
mod running;
mod source;
mod start;
mod statement;
mod talk;

pub use fits::fits_pal;
pub use laws::{inputs_make_the_run, text_is_read};
pub use source::read_pal;
pub use talk::{Talk, console};
