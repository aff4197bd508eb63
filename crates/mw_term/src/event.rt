// What a run shows on terms.
use crate::op::Term;

/// What happens at an output or an input of a run.
#[derive(Clone, Copy, Debug, PartialEq, Eq)]
pub enum SymEvent {
    /// The word of this term is put out.
    Out(Term),
    /// The word of this term is taken in.
    Taken(Term),
}
