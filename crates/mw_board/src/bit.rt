// What the lists of a board have to choose from.

/// A bit that a carry in, a condition, a link or a flip-flop may choose.
#[derive(Clone, Copy, Debug, PartialEq, Eq)]
pub enum Bit {
    /// 0.
    Zero,
    /// 1.
    One,
    /// The carry out of the top bit.
    Carry,
    /// The overflow.
    Overflow,
    /// F is 0.
    FZero,
    /// The sign of F.
    Sign,
    /// The bottom bit of F.
    FLow,
    /// The top bit of F.
    FHigh,
    /// The bottom bit of Q before the edge.
    QLow,
    /// The top bit of Q before the edge.
    QHigh,
    /// The interrupt line.
    Line,
    /// The sequencer's stack is full.
    Full,
    /// The bit of the instruction register with this number, from the least, which is 0.
    Ir(u8),
    /// The flip-flop with this number.
    Flip(u8),
}

/// Where the direct data D comes from.
#[derive(Clone, Copy, Debug, PartialEq, Eq)]
pub enum DFrom {
    /// 0.
    Zero,
    /// The memory word at `mar`.
    Memory,
    /// The instruction register.
    Ir,
    /// The address register.
    Mar,
    /// The offered input word, which is taken.
    Input,
    /// The microword's field with this number: its low bits of the board's width.
    Field(u8),
    /// The flip-flop with this number.
    Flip(u8),
}

/// A source of D, and the mask through which it is seen, where it has one.
#[derive(Clone, Copy, Debug, PartialEq, Eq)]
pub struct DSource {
    /// Where D comes from.
    pub from: DFrom,
    /// The bits of it that are seen.
    pub mask: Option<u32>,
}

impl DSource {
    /// D is 0.
    pub const ZERO: DSource = DSource {
        from: DFrom::Zero,
        mask: None,
    };
}

/// What a flip-flop takes at the edge.
#[derive(Clone, Copy, Debug, PartialEq, Eq)]
pub enum Load {
    /// Its own value.
    Hold,
    /// The opposite of its value.
    Invert,
    /// Its value, turned over where there is a carry.
    XorCarry,
    /// This bit.
    Take(Bit),
}
