//! A command as a plan of files: they are fetched one after another, each is read by a reader, and their contents are
//! kept.
#![tactic(auto)]

mod fault;
mod files;
mod law;

pub use fault::{FileFault, Stop};
pub use files::Files;
pub use law::plans_end_once;
