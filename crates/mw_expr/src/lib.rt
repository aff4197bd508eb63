//! Expressions over the elements of a shape and a memory: their trees, widths and values.
#![tactic(auto)]

mod build;
mod expr;
mod faults;
mod follow;
mod laws;
mod parse;
mod placed;
mod reductions;
mod shape;
mod text;
mod values;
mod width;
mod written;

pub use expr::{Expr, Pair2};
pub use laws::{faults_end_fronts, parts_have_widths, trees_are_by_rule, widths_are_by_rule};
pub use shape::Shape;
pub use text::parse_expr;
pub use values::value;
pub use width::{DEEPEST, is_known, is_within_depth, width_by_rules, width_of};
pub use written::Written;
