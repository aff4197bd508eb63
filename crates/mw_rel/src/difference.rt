// What a start shows.

/// The first difference between a board's first segment from a start and one described step.
#[derive(Clone, Copy, Debug, PartialEq, Eq)]
pub enum Difference {
    /// The bound's number of cycles passes without a boundary.
    Late,
    /// The event of this number, from 0, is another, or only one side has it.
    Event(u32),
    /// The stack pointer isn't that of the boundary reached.
    StackPointer,
    /// The first line that fails at the boundary reached, by the number of the element on its left side.
    Element(u32),
    /// The least address at which the memories differ.
    Memory(u32),
}
