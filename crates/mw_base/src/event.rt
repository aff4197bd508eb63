// What a board or a described machine shows of itself.

/// One event: a word that was put out, or an input word that was taken.
#[derive(Clone, Copy, Debug, PartialEq, Eq)]
pub enum Event {
    /// This word was put out.
    Out(u32),
    /// This word was taken from the inputs, as it was offered, before any mask.
    Taken(u32),
}
