//! The course of a case, on terms: from all starts of a boundary at once through the cycles of their segments, and
//! behind that through the described step. It says by which term a bit is decided. How that is done isn't known here:
//! which starts go along with a course is told by a Boolean function, its path. Runs here never wait: that is enough,
//! since each start has the case that it has without its waits.
#![tactic(auto)]

mod begin;
mod course;
mod elements;
mod reached;
mod registers;
mod run;
mod segment;
mod step;

pub use begin::begin_of;
pub use course::Course;
pub use elements::{Elements, elements_at};
pub use reached::{boundary_at, is_boundary};
pub use registers::Registers;
pub use run::Run;
