// Tokens of a text.

/// What a token is.
#[derive(Clone, Copy, Debug, PartialEq, Eq)]
pub enum Kind {
    /// A letter or `_`, then letters, digits or `_`.
    Name,
    /// A number, of this value.
    Number(u128),
    /// One of the signs.
    Sign,
}

/// A token of a text, and where it stands. Its own text is the slice `start..end` of the text.
#[derive(Clone, Copy, Debug, PartialEq, Eq)]
pub struct Token {
    /// What it is.
    pub kind: Kind,
    /// Its line, from 1.
    pub line: u32,
    /// The column of its first byte, from 1, in bytes.
    pub column: u32,
    /// The place of its first byte in the text, from 0.
    pub start: usize,
    /// The place just past its last byte in the text.
    pub end: usize,
}
