//! The comparison of both programs in a twin case whose segments a course has gone through, on terms: whether a twin
//! start of the case differs, and by which assignment; the course and the word list are `mw_twin`'s, and a comparison of
//! two terms is `mw_compare`'s.
#![tactic(auto)]

mod compared;
mod ends;
mod failing;
mod lines;
mod values;

pub use failing::first_failing;
