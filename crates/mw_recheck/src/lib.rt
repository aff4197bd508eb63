//! Certificate logs: the nodes and the facts by which a job's certificate is checked anew, their texts and their rules.
#![tactic(auto)]

mod block;
mod entry;
mod facts;
mod laws;
mod line;
mod log;
mod nodes;
mod print;
mod reading;

pub use laws::lines_say_true;
pub use line::LogLine;
pub use log::{Log, read_log, read_log_of};
pub use print::print_log;
