//! Board files: TOML documents that spell a board.
#![tactic(auto)]

mod document;
mod entries;
mod fault;
mod fields;
mod flipflops;
mod lists;
mod map;
mod paths;
mod points;
mod print;
mod reader;
mod select;
mod sizes;
mod unknown;
mod values;

pub use fault::{BoardRefusal, KeyFault};
pub use print::print_board;
pub use reader::read_board;
