// Expressions.

/// A sign between two operands, which are equally wide.
#[derive(Clone, Copy, Debug, PartialEq, Eq)]
pub enum Pair2 {
    /// `&`, bit by bit.
    And,
    /// `|`, bit by bit.
    Or,
    /// `^`, bit by bit.
    Xor,
    /// `+`, modulo 2^width.
    Add,
    /// `-`, modulo 2^width.
    Sub,
    /// `==`, of width 1.
    Same,
    /// `!=`, of width 1.
    Differ,
    /// `<` of unsigned words, of width 1.
    Less,
}

/// An expression. Contracts see it as a tree.
#[derive(Drop)]
pub enum Expr {
    /// The element of this number.
    Element(u32),
    /// A constant: its value and width.
    Con(u32, u8),
    /// Each bit turned over.
    Not(Box<Expr>),
    /// A sign between two operands.
    Two(Pair2, Box<Expr>, Box<Expr>),
    /// The second where the first, of one bit, is 1, else the third.
    Choose(Box<Expr>, Box<Expr>, Box<Expr>),
    /// The bits from the first number, the highest, down to the second.
    Part(Box<Expr>, u8, u8),
    /// Two or more parts beside one another, the first highest.
    Join(Vec<Expr>),
    /// The same number as a word of this width, which is no narrower.
    Widen(Box<Expr>, u8),
    /// The word of the memory at this address.
    Memory(Box<Expr>),
}
