// The decided bits of the case at hand, by which the next one is found.
ghost use Rattle.std.specs.Prelude.{◌≡◌, ◌-◌, ◌<◌, ◌++◌, ◌∷◌, ◌^◌, [], true, false, length, take, slice_get, slice_set};
ghost use Rattle.std.specs.Prelude.{Some, None, IfOk, OnOk, OnErr, IfSome};
ghost use Rattle.mw_explore.specs.Ways.{bits_of, kept_of, turned, turned_last};

use mw_base::NoMemory;
use mw_term::{Decided, DecidedKind, Prefix};
use std::alloc::Global;
use std::marker::Model;

/// A decided bit that is kept.
#[derive(Clone, Copy)]
pub(crate) struct Kept {
    /// The bit.
    pub bit: Decided,
    /// Whether it is 0, and may be 1 too.
    pub other: bool,
}

/// How many bits there can be.
const MOST: usize = 0xffff_ffff;

/// The bits that the course at hand has met.
#[derive(Drop)]
pub(crate) struct Way {
    kept: Vec<Kept>,
}

impl Model for Way {
    ghost use Rattle.std.specs.Prelude.{List};
    ghost use Rattle.mw_explore.specs.declared.way.Kept.{Kept};

    ghost Value = { List Kept };

    ghost view = { λ w. w.kept.items };
}

/// A bit as 1.
fn turned(kept: Kept) -> Kept
    ensures { result ≡ turned kept }
{
    Kept {
        bit: Decided {
            kind: kept.bit.kind,
            value: true,
        },
        other: false,
    }
}

/// The bits of what is kept.
fn bits_of(alloc: Global, kept: &[Kept]) -> Result<Prefix, NoMemory>
    ensures { IfOk result (λ p. p ≡ bits_of kept.now) }
{
    let mut bits = Vec::new(alloc);
    for one in kept {
        bits.push(one.bit)?;
    }
    Ok(Prefix::from_vec(bits))
}

impl Way {
    /// No bit.
    pub(crate) fn new(alloc: Global) -> Way
        ensures { result ≡ [] }
    {
        Way {
            kept: Vec::new(alloc),
        }
    }

    /// Keeps one more bit.
    ///
    /// # Errors
    ///
    /// Memory ran out, or there are as many bits as there can be (2^32 - 1).
    pub(crate) fn take(
        &mut self,
        kind: DecidedKind,
        value: bool,
        other: bool,
    ) -> Result<(), NoMemory>
        ensures new { OnOk result (self.new ≡ self.old ++ kept_of kind value other ∷ []) }
        ensures few { OnOk result (length self.old < 2 ^ 32 - 1) }
        ensures err { OnErr result (self.new ≡ self.old) }
    {
        if self.kept.len() >= MOST {
            return Err(NoMemory);
        }
        self.kept.push(Kept {
            bit: Decided { kind, value },
            other,
        })?;
        Ok(())
    }

    /// The last bit that is kept.
    fn last(&self) -> Option<Kept>
        ensures some { IfSome result (λ k. slice_get self.now (length self.now - 1) ≡ Some k) }
        ensures none { result ≡ None → self.now ≡ [] }
    {
        self.kept.last().copied()
    }

    /// Drops the last bit.
    fn drop_last(&mut self)
        requires { 0 < length self.old }
        ensures { self.new ≡ take (length self.old - 1) self.old }
    {
        let count = self.kept.len() - 1;
        self.kept.truncate(count);
    }

    /// Turns the last bit.
    fn turn_bit(&mut self, last: Kept)
        requires { 0 < length self.old }
        ensures { self.new ≡ slice_set self.old (length self.old - 1) (turned last) }
    {
        let place = self.kept.len() - 1;
        self.kept[place] = turned(last);
    }

    /// Turns the last bit that can be turned, and drops those behind it, where there is one, and says whether there is
    /// one.
    pub(crate) fn turn(&mut self) -> bool
        ensures yes { result ≡ true → (turned_last self.old ≡ Some self.new) }
        ensures no { result ≡ false → (turned_last self.old ≡ None) × (self.new ≡ []) }
    {
        while let Some(last) = self.last() {
            if last.other {
                self.turn_bit(last);
                return true;
            }
            self.drop_last();
        }
        false
    }

    /// The bits.
    pub(crate) fn prefix(&self, alloc: Global) -> Result<Prefix, NoMemory>
        ensures { IfOk result (λ p. p ≡ bits_of self.now) }
    {
        bits_of(alloc, &self.kept)
    }
}
