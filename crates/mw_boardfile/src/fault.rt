// Why a file is no board.
ghost use Rattle.std.specs.Prelude.{◌≡◌, Some, None};

use mw_base::{Cause, Name, Refused};

/// The first fault of a board file.
#[derive(Debug, Drop)]
pub struct KeyFault {
    /// Why the file is refused: 2, 3, 10 to 14, 20 to 24 or 31.
    pub cause: Cause,
    /// The dotted path of the key at which it is, with the number of an entry at its end; `-` for cause 20.
    pub key: Name,
}

/// Why there is no board: the file's first fault, or want of memory.
pub type BoardRefusal = Refused<KeyFault>;

/// The first fault of the value under a key.
#[derive(Clone, Copy, Debug, PartialEq, Eq)]
pub(crate) struct Fault {
    /// Why it is refused.
    pub(crate) cause: Cause,
    /// The number of the entry that is refused; none where it is the value as a whole.
    pub(crate) entry: Option<usize>,
}

impl Fault {
    /// The fault of a value as a whole.
    pub(crate) fn whole(cause: Cause) -> Fault
        ensures { result ≡ record { cause = cause; entry = None } }
    {
        Fault { cause, entry: None }
    }

    /// The fault of an entry.
    pub(crate) fn at(entry: usize, cause: Cause) -> Fault
        ensures { result ≡ record { cause = cause; entry = Some entry } }
    {
        Fault {
            cause,
            entry: Some(entry),
        }
    }
}
