//! Files of rows: their lines, sets and rows, how they are run, why not all of them were, and what the calls of rows
//! read and print alike.
#![tactic(auto)]

mod fault;
mod line;
pub mod named;
mod reader;
mod report;
mod row;
mod runner;
mod spelled;
pub mod states;
pub mod texts;

pub use fault::{Fault, wrong};
pub use reader::rows_of;
pub use report::Report;
pub use row::{Change, End, File, Row, RowFiles, Rows, Set, Work, contents, contents_in, text_in};
pub use runner::{Worker, run};
