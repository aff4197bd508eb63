// What a symbolic run says of itself.
use mw_term::{DecidedKind, Term};

/// How far a symbolic run has come.
#[derive(Clone, Copy, Debug, PartialEq, Eq)]
pub enum Turn {
    /// It waits for the next decided bit.
    Ask {
        /// What the bit says.
        kind: DecidedKind,
        /// A term of one bit, which has the bit's value.
        term: Term,
    },
    /// Its cycle or step is done.
    Finished,
}
