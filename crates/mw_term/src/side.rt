// Whose memory it is.

/// Whose memory is read or written. Both begin with one base image.
#[derive(Clone, Copy, Debug, PartialEq, Eq)]
pub enum Side {
    /// The board's.
    Board,
    /// The described machine's, or that of a board beside another.
    Machine,
}
