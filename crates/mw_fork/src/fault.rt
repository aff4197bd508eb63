// Why no further case is found.
use mw_explore::Fault;
use mw_term::Prefix;

/// What is over its budget.
#[derive(Debug, Drop)]
pub enum Over {
    /// An operation of a case has more joint cofactors than the budget's nodes.
    Nodes {
        /// The number of the boundary, from 0.
        boundary: usize,
        /// The decided bits in whose word list the operation stands.
        prefix: Prefix,
        /// The number of the operation's word.
        word: u64,
        /// The bit of that word.
        bit: u8,
    },
    /// A boundary has more cases than the budget's paths.
    Paths {
        /// The number of the boundary, from 0.
        boundary: usize,
        /// The budget's paths.
        limit: u32,
    },
}

/// Why no further case is found.
pub type ForkFault = Fault<Over>;
