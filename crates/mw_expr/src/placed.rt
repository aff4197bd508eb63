// Expressions as they stand in a text.
use crate::expr::Pair2;
use mw_base::{Numeral, Token};

/// An expression in a text, with the token of each operation at which its faults stand, and its parentheses.
#[derive(Drop)]
pub(crate) enum Placed {
    /// An element: its first token and its number, if there is one of that name.
    Element(Token, Option<usize>),
    /// A constant: its value, the `#` and its width.
    Con(Numeral, Token, u128),
    /// `~`
    Not(Token, Box<Placed>),
    /// A sign between two operands.
    Two(Pair2, Token, Box<Placed>, Box<Placed>),
    /// The `?`, what it asks, and what it chooses between.
    Choose(Token, Box<Placed>, Box<Placed>, Box<Placed>),
    /// The `[`, and the highest and the lowest bit.
    Part(Token, u128, u128, Box<Placed>),
    /// The `{`, and the parts.
    Join(Token, Vec<Placed>),
    /// The word `zext`, and the new width.
    Widen(Token, u128, Box<Placed>),
    /// The word `mem`.
    Memory(Token, Box<Placed>),
    /// The `(` of a pair of parentheses.
    Group(Token, Box<Placed>),
}

/// What is open before a token, the innermost first: operations that wait for their last operand, and brackets.
#[derive(Drop)]
pub(crate) enum Open {
    /// Nothing.
    Nothing,
    /// A `~`.
    Not(Token, Box<Open>),
    /// A sign and its left operand.
    Two(Pair2, Token, Box<Placed>, Box<Open>),
    /// A `?` and what it asks.
    Choose(Token, Box<Placed>, Box<Open>),
    /// A `?`, what it asks and what it chooses first, and the `:`.
    Else(Token, Box<Placed>, Box<Placed>, Box<Open>),
    /// A `(`.
    Group(Token, Box<Open>),
    /// A `{` and the parts so far, which a `,` ends.
    Join(Token, Vec<Placed>, Box<Open>),
    /// `zext (`
    Widen(Token, Box<Open>),
    /// `mem [`
    Memory(Token, Box<Open>),
}

/// What the next token can be.
#[derive(Drop)]
pub(crate) enum Awaits {
    /// The first token of an operand.
    Operand,
    /// The dot after the first name of an element.
    Dot(Token),
    /// The name after the dot.
    Member(Token),
    /// The `[` after `mem`.
    Bracket(Token),
    /// The `(` after `zext`.
    Parenthesis(Token),
    /// The `#` after a value.
    Hash(Numeral),
    /// The width after the `#`.
    Width(Numeral, Token),
    /// The number after a `[`.
    High(Token, Placed),
    /// The `:` or `]` after that number.
    Colon(Token, Placed, u128),
    /// The number after the `:`.
    Low(Token, Placed, u128),
    /// The `]` after both numbers.
    Close(Token, Placed, u128, u128),
    /// The width after the `,` of `zext`.
    NewWidth(Token, Placed),
    /// The `)` after that width.
    WidenEnd(Token, Placed, u128),
    /// What follows a whole operand: a sign, a part, or what closes a bracket.
    Sign(Placed),
}

/// What is known after some tokens of an expression.
#[derive(Drop)]
pub(crate) struct State {
    /// What the next token can be.
    pub awaits: Awaits,
    /// What is open.
    pub pending: Open,
}
