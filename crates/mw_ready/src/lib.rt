//! Starts of a job whose memory may not be ready, and the laws that their waits change nothing: without them a start
//! has the same case and shows the same difference, so that a job is certified over all environments exactly where it
//! is over those without waits.
#![tactic(auto)]

mod examples;
mod laws;
mod starts;

pub use examples::waits_are_worked;
pub use laws::{
    boundaries_come_in_time, cases_have_one_end, differences_are_first, kinds_are_fixed,
    no_case_goes_on, one_case_is_first, same_shows_nothing, segments_have_cycles,
};
pub use starts::{
    cases_are_alike, cases_are_thinned, certified_alike, certified_where_none_differs,
    differences_are_thinned, starts_differ_as_thinned, starts_follow,
    starts_without_waits_are_starts, steps_differ_as_thinned, thinned_are_starts,
};
