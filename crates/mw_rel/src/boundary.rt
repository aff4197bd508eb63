// Boundaries.

use crate::line::Line;
use mw_base::Items;

/// A boundary: where a board and a described machine are compared.
#[derive(Drop)]
pub struct Boundary {
    /// The control address at which a cycle of the board begins there, below 4,096.
    pub address: u16,
    /// How many cycles a segment that begins here may take, 1 to 500.
    pub bound: u32,
    /// The stack pointer here: how many words are on the sequencer's stack, no more than it has.
    pub sp: u8,
    /// What holds here, at most 256 lines.
    pub lines: Items<Line>,
}
