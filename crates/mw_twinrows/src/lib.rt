//! Calls of revisions for rows: KEEP texts, texts of twin starts, and twin cases. Beside them stands what other calls
//! share with these: how texts and microprograms are read, and how decided bits and what is over a budget are printed.
#![tactic(auto)]

pub mod budgets;
pub mod cases;
pub mod decided;
pub mod keeps;
pub mod programmed;
mod revised;
pub mod texts;
pub mod twins;
pub mod words;
