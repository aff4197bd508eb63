//! The feasible cases of a boundary, exactly, each once and in order, and of each a start that differs, if there is
//! one. A course goes from all starts of the boundary at once, on terms, and every bit that is decided splits its path
//! in two; at its end both sides are compared. The order of cases, and the courses that wait, are `mw_explore`'s.
#![tactic(auto)]

mod budget;
mod cases;
mod comparing;
mod fault;
mod fork;
mod found;
mod starts;
mod traced;
mod walk;

pub use budget::Budget;
pub use fault::{ForkFault, Over};
pub use fork::{Case, Fork, fault_of};
pub use mw_explore::Fault;
pub use mw_term::{Decided, Prefix};
pub use walk::Visitor;
