// A word at an address.
ghost use Rattle.std.specs.Prelude.{◌≡◌};
ghost use Rattle.mw_term.specs.MemoryRead.{held};

use mw_term::Term;
use std::marker::Model;

/// A word that is held at an address.
#[derive(Clone, Copy)]
pub(crate) struct Held {
    address: Term,
    word: Term,
}

impl Model for Held {
    ghost use Rattle.mw_term.specs.MemoryRead as read;

    ghost Value = { read.Held };

    ghost view = { λ h. read.held h.address h.word };

    ghost inverse = { λ h. record { address = h.address; word = h.word } };
}

impl Held {
    /// This word at this address.
    pub(crate) fn at(address: Term, word: Term) -> Held
        ensures { result ≡ held address word }
    {
        Held { address, word }
    }

    /// Its address.
    pub(crate) fn address(self) -> Term
        ensures { result ≡ self.address }
    {
        self.address
    }

    /// Its word.
    pub(crate) fn word(self) -> Term
        ensures { result ≡ self.word }
    {
        self.word
    }
}
