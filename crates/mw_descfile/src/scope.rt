// What expressions of a description are over.
use mw_base::{Items, Name};
use mw_expr::Shape;

/// The elements and the memory that expressions are over.
#[derive(Drop)]
pub(crate) struct Scope {
    /// The names of the elements, in their order.
    pub names: Items<Name>,
    /// The widths of the elements, and those of the memory.
    pub shape: Shape,
}
