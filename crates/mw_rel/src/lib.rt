//! Relations between a board and a described machine, the starts that they give, and what it is that a job
//! is certified.
#![tactic(auto)]

mod begin;
mod boundary;
mod completion;
mod difference;
mod failing;
mod free_elements;
mod job;
mod laws;
mod line;
mod pair;
mod relation;
mod rules;

pub use begin::Begin;
pub use boundary::Boundary;
pub use completion::complete;
pub use difference::Difference;
pub use failing::line_difference;
pub use free_elements::free;
pub use job::{Job, shape_of};
pub use laws::{
    accepted_are_solved, before_is_an_order, boundaries_come_in_time, cases_begin_with_cycles,
    cases_have_one_end, certified_where_none_differs, differences_are_first,
    each_choice_gives_a_pair, kinds_are_fixed, no_case_goes_on, one_case_is_first, pairs_are_one,
    rights_read_free_elements, same_shows_nothing, segments_end, segments_have_cycles,
    starts_follow, starts_go_together, words_of_cases_are_numbered,
};
pub use line::Line;
pub use pair::{Pair, holds};
pub use relation::Relation;
