//! Described machines: what a macro instruction means, on numbers.
#![tactic(auto)]

mod counts;
mod laws;
mod machine;
mod one_step;
mod rules;
mod state;
mod statement;

pub use counts::Counted;
pub use laws::{
    accepted_are_right, events_are_few, steps_take_from_first, taken_are_events, words_are_numbered,
};
pub use machine::Machine;
pub use one_step::step;
pub use rules::{Fault, is_reserved};
pub use state::MacState;
pub use statement::Statement;
