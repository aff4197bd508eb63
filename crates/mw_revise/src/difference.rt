// What a twin start shows.

/// The first difference between the first segments of an old program and of a new one from a twin start.
#[derive(Clone, Copy, Debug, PartialEq, Eq)]
pub enum TwinDifference {
    /// The bound's number of cycles of the old program passes without a boundary.
    LateOld,
    /// The bound's number of cycles of the new program passes without a boundary.
    LateNew,
    /// The event of this number, from 0, is another, or only one program has it.
    Event(u32),
    /// The programs reach different boundaries.
    Boundary,
    /// A stack pointer isn't that of the boundary reached.
    StackPointer,
    /// The first line that fails at the boundary reached, by the number of its element.
    Element(u32),
    /// The least address at which the memories differ.
    Memory(u32),
}
