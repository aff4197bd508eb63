//! One clock of a board: a cycle, or a wait for memory that isn't ready. Its definitions and laws are also of runs, from
//! boundary to boundary; and of runs that never wait, as which each run goes without its waits.
#![tactic(auto)]

mod bits;
mod control;
mod datapath;
mod decided;
mod elements;
mod environment;
mod flipflops;
mod laws;
mod microword;
mod one_clock;
mod one_cycle;
mod runs;
mod series;
mod state;

pub use datapath::{Datapath, Whole};
pub use elements::{Element, element_of};
pub use environment::{Clock, Env};
pub use laws::{
    bits_go_on, boundaries_go_on, lists_are_all, rests_are_environments, rests_are_of_lists,
    segments_end_at_boundaries, shortened_are_environments,
};
pub use microword::Microword;
pub use one_clock::{clock, is_wait};
pub use one_cycle::cycle;
pub use runs::{
    clocks_are_bounded, clocks_are_cycles, clocks_are_one, clocks_go_on, cycles_come,
    nothing_is_thinned, rests_are_thinned, runs_are_thinned, runs_go_on,
};
pub use series::Series;
pub use state::{CycleIn, Nets, State};
