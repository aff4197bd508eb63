//! Revisions of microprograms: what a KEEP text says of an old and a new program on one board, what it is that they
//! agree, what a twin start shows and decides, and the text of one.
#![tactic(auto)]

mod beginning;
mod block;
mod difference;
mod element;
mod examples;
mod keep;
mod laws;
mod programs;
mod reading;
mod revision;
mod said;
mod site;
mod twin;
mod word_examples;

pub use difference::TwinDifference;
pub use examples::{
    agreement_is_worked, differences_come_in_order, revisions_are_worked, twin_cases_are_worked,
    twin_starts_are_worked,
};
pub use keep::{Block, Keep, KeepLine};
pub use laws::{
    agree_where_none_differs, agree_without_waits, none_differs_alike, one_twin_case_is_first,
    same_show_nothing, thinned_are_twin_starts, twin_cases_are_thinned, twin_cases_have_one_end,
    twin_differences_are_thinned,
};
pub use programs::Side;
pub use reading::read_keep;
pub use revision::Revision;
pub use twin::{Twin, print_twin};
pub use word_examples::{differing_twins_are_worked, twin_sides_are_worked, twin_words_are_worked};
