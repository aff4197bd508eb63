// What a shortcut says of an op.

/// What a shortcut says of an op: which term has its width and value. Operands are counted from 0, in the order of the
/// term table.
#[derive(Clone, Copy, Debug, PartialEq, Eq)]
pub enum Hint {
    /// It says nothing.
    Nothing,
    /// The constant of this number, as wide as the op.
    Constant(u32),
    /// The operand of the op at this place.
    Operand(u8),
    /// Of the operand at the first place, the operand at the second.
    Inner(u8, u8),
}
