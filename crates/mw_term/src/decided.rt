// The bits that a run decides: what one says, one with its value, and lists of them.
ghost use Rattle.std.specs.Prelude.{◌≡◌};

use std::marker::Model;

/// What a decided bit of a run says.
#[derive(Clone, Copy, Debug, PartialEq, Eq)]
pub enum DecidedKind {
    /// Whether the test of a cycle passes.
    Pass,
    /// Whether the sequencer's counter is 0 in a cycle.
    CounterZero,
    /// A bit, from 11 to 0, of the address of a cycle's successor.
    Next(u8),
    /// Whether the condition of an `if` of a described step holds.
    Branch,
}

/// A bit that a run has to know to go on, with its value.
#[derive(Clone, Copy, Debug, PartialEq, Eq)]
pub struct Decided {
    /// What the bit says.
    pub kind: DecidedKind,
    /// Whether it is 1.
    pub value: bool,
}

/// Decided bits in their order, seen as the list of them.
#[derive(Debug, Drop)]
pub struct Prefix {
    bits: Vec<Decided>,
}

impl Model for Prefix {
    ghost use Rattle.std.specs.Prelude.{List};
    ghost use Rattle.mw_term.specs.declared.decided.Decided.{Decided};

    ghost Value = { List Decided };

    ghost view = { λ p. p.bits.items };
}

impl Prefix {
    /// The list of these bits. It takes no memory.
    pub fn from_vec(bits: Vec<Decided>) -> Prefix
        ensures { result ≡ bits.items }
    {
        Prefix { bits }
    }

    /// The vector of its bits. It takes no memory.
    pub fn into_vec(self) -> Vec<Decided>
        ensures { result.items ≡ self }
    {
        self.bits
    }

    /// Its bits.
    pub fn as_slice(&self) -> &[Decided]
        ensures { result.now ≡ self.now }
    {
        &self.bits
    }
}
