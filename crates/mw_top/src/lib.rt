//! The bench's commands over files, from the words of a command line to a report and a status.
#![tactic(auto)]

mod commands;
mod fault;
mod laws;
mod outcome;
mod prefix_text;
mod report;
mod request;
mod status;
mod top_call;

pub use laws::{differences_may_follow, parts_change_nothing, steady_calls_never_fail};
pub use request::{Command, Request, read_words};
pub use status::Status;
pub use top_call::bench;
