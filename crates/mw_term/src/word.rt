// A word of a list.
ghost use Rattle.std.specs.Prelude.{◌≡◌, None, Some};
ghost use Rattle.mw_term.specs.WordList.{plain, variable};

use crate::kinds::WordKind;
use crate::op::Term;

/// A word of a list: its term, and where it is a variable what it stands for.
#[derive(Clone, Copy, Debug, PartialEq, Eq)]
pub struct Word {
    /// The term that has the word's value.
    pub term: Term,
    /// What the word stands for, where it is a variable.
    pub kind: Option<WordKind>,
}

impl Word {
    /// A word that is no variable.
    pub fn plain(term: Term) -> Word
        ensures { result ≡ plain term }
    {
        Word { term, kind: None }
    }

    /// A variable of a kind.
    pub fn variable(term: Term, kind: WordKind) -> Word
        ensures { result ≡ variable term kind }
    {
        Word {
            term,
            kind: Some(kind),
        }
    }
}
