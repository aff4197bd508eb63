// The bits decided so far of a cycle.
ghost use Rattle.std.specs.Prelude.{◌≡◌, ◌++◌, ◌∷◌, ◌<◌, ◌≤◌, [], length, take, slice_get, Some};

use mw_term::{Decided, DecidedKind};
use std::marker::Model;

/// The bits decided so far of a cycle, at most fourteen: pass, counter zero, and twelve of an address.
#[derive(Drop)]
pub(crate) struct Path {
    bits: [Decided; 14],
    count: usize,
}

impl Model for Path {
    ghost use Rattle.std.specs.Prelude.{List, length, take, ◌≤◌, ◌≡◌};
    ghost use Rattle.mw_term.specs.declared.decided.Decided.{Decided};

    ghost Value = { List Decided };

    ghost view = { λ p. take p.count p.bits };

    ghost invariant = { λ p. (p.count ≤ 14) × (length p.bits ≡ 14) };
}

/// What stands where no bit was decided yet.
const NOTHING: Decided = Decided {
    kind: DecidedKind::Pass,
    value: false,
};

impl Path {
    /// No bit.
    pub(crate) fn new() -> Path
        ensures { result ≡ [] }
    {
        Path {
            bits: [NOTHING; 14],
            count: 0,
        }
    }

    /// The same bits once more.
    pub(crate) fn copy(&self) -> Path
        ensures { result ≡ self.now }
    {
        Path {
            bits: self.bits,
            count: self.count,
        }
    }

    /// One bit more.
    pub(crate) fn push(&mut self, bit: Decided)
        requires { length self.old < 14 }
        ensures { self.new ≡ self.old ++ bit ∷ [] }
    {
        self.bits[self.count] = bit;
        self.count += 1;
    }

    /// How many bits there are.
    pub(crate) fn count(&self) -> usize
        ensures exact { result ≡ length self.now }
        ensures most { result ≤ 14 }
    {
        self.count
    }

    /// The bit of a place, from 0.
    pub(crate) fn bit(&self, place: usize) -> Decided
        requires { place < length self.now }
        ensures { slice_get self.now place ≡ Some result }
    {
        let bits = &self.bits;
        bits[place]
    }
}
