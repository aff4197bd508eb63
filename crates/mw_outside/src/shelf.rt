// Named files.
ghost use Rattle.std.specs.Prelude.{◌≡◌, ◌≤◌, List, ℕ, length, Option, IfOk, OnOk, OnErr, IfSome};
ghost use Rattle.mw_outside.specs.Causes.{Rose};
ghost use Rattle.mw_outside.specs.Contents.{Gives};

/// The outside failed. A count of its faults says so too.
#[derive(Clone, Copy, Debug, PartialEq, Eq)]
pub struct Failed;

/// Files by name.
///
/// For each name a shelf counts the fetches that failed. A count never falls, and one of 64 bits stays
/// at its last value. A name that is missing is a fault.
pub trait Shelf {
    /// The contents of a name, where they are told.
    ghost told: { Self → List ℕ → Option (List ℕ) };

    /// How often a fetch of the name has failed.
    ghost faults: { Self → List ℕ → ℕ };

    /// Reads bytes of the name, from a place in bytes from 0, into the front of a buffer, and answers how
    /// many. `Failed`: the count of this name rose, and the buffer may hold anything. Else the count stands.
    fn fetch(&mut self, name: &str, at: u64, into: &mut [u8]) -> Result<usize, Failed>
        ensures bound { IfOk result (λ n. n ≤ length into.old) }
        ensures bytes { IfOk result
            (λ n. IfSome (told self.old name.now) (λ bytes. Gives bytes at n into.old into.new)) }
        ensures same { (other : List ℕ) → told self.new other ≡ told self.old other }
        ensures later { (other : List ℕ) → faults self.old other ≤ faults self.new other }
        ensures stands { OnOk result (faults self.new name.now ≡ faults self.old name.now) }
        ensures cause { OnErr result (Rose (faults self.old name.now) (faults self.new name.now)) };
}
