//! Replays: the starts that files give, and their segments, each beside one described step.
#![tactic(auto)]

mod counter;
mod difference;
mod elements;
mod laws;
mod one_replay;
mod printed;
mod reached;
mod request;
mod stepping;
mod text;

pub use counter::Counter;
pub use laws::{
    counters_give_starts, none_differs_before, nothing_is_cut, starts_are_one, starts_read_back,
    steps_differ, zeros_give_nothing, zeros_show_nothing,
};
pub use mw_rel::Difference;
pub use one_replay::replay;
pub use printed::{append_environment, append_values_lines, print_counter, print_start};
pub use stepping::Replay;
pub use text::read_counter;
