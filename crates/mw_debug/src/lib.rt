//! The debugger: scripts, and what they print while a board runs.
#![tactic(auto)]

mod command;
mod element;
mod labels;
mod reading;
mod running;
mod script;
mod session;

pub use reading::read_script;
pub use running::run_script;
pub use script::{Act, Entry, Script};
