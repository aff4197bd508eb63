//! What a board is: its fields, its control points, the lists that they choose from, and the rules that these
//! have to keep.
#![tactic(auto)]

mod bit;
mod board;
mod check;
mod control;
mod element;
mod fault;
mod field;
mod flipflop;
pub mod key;
mod parts;
mod point;
mod rules;
mod store;

pub use bit::{Bit, DFrom, DSource, Load};
pub use board::Board;
pub use control::{Control, Points};
pub use fault::PartFault;
pub use field::{Field, NamedField};
pub use flipflop::FlipFlop;
pub use parts::BoardParts;
pub use point::Point;
pub use rules::{
    address_rule, bit_rule, carry_in_rule, chosen_rule, control_rule, d_source_rule, driver_rule,
    field_rule, fields_rule, flipflop_name_rule, flipflops_rule, list_rule, load_rule,
    map_bits_rule, map_entries_rule, map_entry_rule, microword_rule, name_rule, point_rule,
    stack_rule, vector_rule, width_rule, word_rule,
};
pub use store::Store;
