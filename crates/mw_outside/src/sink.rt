// Where bytes go.
ghost use Rattle.std.specs.Prelude.{◌≡◌, ◌≤◌, ◌<◌, List, ℕ, length, take, Option, IfOk, OnOk, OnErr};
ghost use Rattle.mw_outside.specs.Causes.{Rose};
ghost use Rattle.mw_outside.specs.Contents.{with_more};

use crate::shelf::Failed;

/// A taker of bytes.
///
/// A sink counts the calls that failed. The count never falls, and one of 64 bits stays at its last value.
pub trait Sink {
    /// The bytes taken so far, where they are told.
    ghost taken: { Self → Option (List ℕ) };

    /// How often it has failed.
    ghost faults: { Self → ℕ };

    /// Takes bytes of the piece's front, one at least, and answers how many.
    /// `Failed`: the count rose, and nothing was taken. Else the count stands.
    fn put(&mut self, piece: &[u8]) -> Result<usize, Failed>
        requires { 0 < length piece.now }
        ensures count { IfOk result (λ n. (1 ≤ n) × (n ≤ length piece.now)) }
        ensures bytes { IfOk result (λ n. taken self.new ≡ with_more (taken self.old) (take n piece.now)) }
        ensures failed { OnErr result (taken self.new ≡ taken self.old) }
        ensures later { faults self.old ≤ faults self.new }
        ensures stands { OnOk result (faults self.new ≡ faults self.old) }
        ensures cause { OnErr result (Rose (faults self.old) (faults self.new)) };
}
