// Statements.

use mw_expr::Expr;

/// A statement of a described machine. Contracts see it as a tree.
#[derive(Drop)]
pub enum Statement {
    /// A register or a temporary gets the value of an expression.
    Assign {
        /// The element's number.
        target: u32,
        /// The expression, as wide as the element.
        value: Expr,
    },
    /// The memory gets a word at an address.
    Write {
        /// The address.
        address: Expr,
        /// The word.
        value: Expr,
    },
    /// A word is put out.
    Put(Expr),
    /// The element of this number, a register or a temporary, gets the next input word.
    Take(u32),
    /// One of two lists of statements acts.
    If {
        /// Of one bit: where it is 1 the first list acts, else the second.
        condition: Expr,
        /// The first list.
        first: Vec<Statement>,
        /// The second list.
        second: Vec<Statement>,
    },
}
