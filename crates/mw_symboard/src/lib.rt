//! One cycle of a board on terms: under every assignment it is the cycle of a state, and one cycle after another is a
//! run that never waits.
#![tactic(auto)]

mod address;
mod after;
mod bits;
mod board;
mod edge;
mod function;
mod laws;
mod leaving;
mod make;
mod outside;
mod parts;
mod path;
mod progress;
mod reading;
mod source;

pub use board::SymBoard;
pub use laws::{
    cycles_go_along, elements_have_terms, environments_are_there, nets_have_values,
    paths_are_of_the_run, runs_begin, runs_fit_before, runs_stay, turns_are_of_the_run,
    variables_are_there, words_of_cycles_are_numbered,
};
