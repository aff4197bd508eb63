// Variables, and their order.
use crate::hash::scatter;
use crate::table::Key;
use std::marker::Model;

/// A Boolean variable: a bit of a word.
#[derive(Clone, Copy)]
pub(crate) struct Variable {
    pub bit: u8,
    pub word: u64,
}

impl Model for Variable {
    ghost use Rattle.mw_term.specs.Cofactors.{variable, Variable as Place};

    ghost Value = { Place };

    ghost view = { λ v. variable v.bit v.word };

    ghost inverse = { λ p. record { bit = p.bit; word = p.word } };
}

impl Key for Variable {
    ghost use Rattle.mw_dd.specs.Hash.{scattered};

    ghost hash_of = { λ v. scattered v.word v.bit 0 };

    fn hash(&self) -> u32 {
        scatter(self.word, u64::from(self.bit), 0)
    }

    fn is(&self, other: &Variable) -> bool {
        self.bit == other.bit && self.word == other.word
    }
}

impl Variable {
    ghost use Rattle.std.specs.Prelude.{◌≡◌};
    ghost use Rattle.mw_term.specs.Cofactors as order;

    /// Whether it comes before another: by bit, and then by word.
    pub(crate) fn is_before(self, other: Variable) -> bool
        ensures { result ≡ order.is_before self other }
    {
        (self.bit < other.bit) | ((self.bit == other.bit) & (self.word < other.word))
    }
}

/// A variable, and its index in the list of a table of nodes. That is a hint: nothing rests on it.
#[derive(Clone, Copy)]
pub(crate) struct Indexed {
    pub variable: Variable,
    pub index: u32,
}
