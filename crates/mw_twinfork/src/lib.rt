//! The feasible cases of the twin starts at a block of a revision, exactly, each once and in order, with how both
//! segments end, and the twin start of each that differs. A course goes through both programs' segments on terms, and every bit that is decided splits its path in
//! two. The order of cases, and the courses that wait, are `mw_explore`'s; how a bit is decided is `mw_decide`'s, and
//! how a case is compared `mw_twincompare`'s.
#![tactic(auto)]

mod cases;
mod fork;
mod found;
mod traced;
mod twins;

pub use fork::TwinFork;
pub use twins::TwinEnd;
