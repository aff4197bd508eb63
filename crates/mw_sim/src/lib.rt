//! Simulation: a board run from a state, over an environment, for so many cycles or to a boundary; and the lines of
//! reports that show it.
#![tactic(auto)]

mod difference_words;
mod lines;
mod parts;
mod run;
mod settings;
mod start;
mod state_text;
mod texts;

pub use difference_words::{append_element_words, append_event_words, append_memory_words};
pub use parts::Parts;
pub use run::{Late, run_cycles, run_to_boundary};
pub use settings::{Owner, Settable, Settings, given_by, two_to, value_below};
pub use start::{Start, environment_with, from_first, read_start};
pub use state_text::append_state;
pub use texts::{append_event, append_hex_line, append_line, append_memory, append_value_line};
