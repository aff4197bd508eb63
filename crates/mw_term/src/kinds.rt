// The kinds of the variable words that a run makes.

/// What a variable word of a run stands for.
#[derive(Clone, Copy, Debug, PartialEq, Eq)]
pub enum WordKind {
    /// A free element of the board or of what it is compared with, by its number: the described machine's registers, or
    /// the elements of a board beside it, have the numbers behind the board's.
    Element(u32),
    /// The interrupt line in the cycle of this number.
    Line(u32),
    /// The noise word of the cycle of this number.
    Noise(u32),
    /// The interrupt line in the cycle of this number of a board beside another.
    BesideLine(u32),
    /// The noise word of the cycle of this number of a board beside another.
    BesideNoise(u32),
    /// What the memory has at the address of the base read of this number.
    Base(u32),
    /// The input of this number.
    Input(u32),
    /// The address at which two memories are compared.
    Probe,
}
