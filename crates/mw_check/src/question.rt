// Questions.
use mw_base::{Items, Name};
use mw_expr::{Expr, Shape};

/// Whether two expressions over variables agree for all values of these. Contracts see the expressions as trees.
#[derive(Drop)]
pub struct Question {
    /// The names of the variables, at most 64.
    pub names: Items<Name>,
    /// The width of each variable, 1 to 32 bits. There is no memory, so the other widths are 0.
    pub shape: Shape,
    /// The expression on the left.
    pub left: Expr,
    /// The expression on the right, as wide as the left one.
    pub right: Expr,
}
