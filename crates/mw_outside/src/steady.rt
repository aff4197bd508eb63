// Files and a sink that never fail, for callers who hold all contents: no call over them ends with a fault of the
// outside, as a law of the top call says.
ghost use Rattle.std.specs.Prelude.{◌≡◌, ◌≢◌, ◌<◌, ◌≤◌, ◌-◌, [], List, ℕ, Some, None, min, take, length};
ghost use Rattle.std.specs.Prelude.{IsOk, IfOk, IfSome, OnOk, OnErr};
ghost use Rattle.mw_outside.specs.Causes.{Rose, no_faults};
ghost use Rattle.mw_outside.specs.Contents.{Gives, with_more};

use crate::files::Files;
use crate::memory::copy_from;
use crate::shelf::{Failed, Shelf};
use crate::sink::Sink;
use mw_base::NoMemory;
use std::alloc::Global;

/// Files in memory, which never fail: a name that wasn't set has no bytes. The count of every name is 0.
#[derive(Drop)]
pub struct SteadyShelf {
    files: Files,
}

impl SteadyShelf {
    ghost use Rattle.mw_outside.specs.SteadyShelf.{contents};

    /// A shelf on which no name has bytes.
    pub fn new(alloc: Global) -> SteadyShelf
        ensures { (name : List ℕ) → contents result name ≡ [] }
    {
        SteadyShelf {
            files: Files::new(alloc),
        }
    }

    /// The name's contents become the bytes. After want of memory all is as before.
    pub fn set(&mut self, alloc: Global, name: &str, bytes: &[u8]) -> Result<(), NoMemory>
        ensures ok { OnOk result (contents self.new name.now ≡ bytes.now) }
        ensures others { (other : List ℕ) → other ≢ name.now → contents self.new other ≡ contents self.old other }
        ensures err { OnErr result ((other : List ℕ) → contents self.new other ≡ contents self.old other) }
    {
        self.files.set(alloc, name, bytes)
    }
}

impl Shelf for SteadyShelf {
    ghost use Rattle.mw_outside.specs.SteadyShelf.{contents};

    ghost told = { λ shelf name. Some (contents shelf name) };

    ghost faults = { λ _ _. no_faults };

    fn fetch(&mut self, name: &str, at: u64, into: &mut [u8]) -> Result<usize, Failed>
        ensures bound { IfOk result (λ n. n ≤ length into.old) }
        ensures bytes { IfOk result (λ n. Gives (contents self.old name.now) at n into.old into.new) }
        ensures same { (other : List ℕ) → Some (contents self.new other) ≡ Some (contents self.old other) }
        ensures later { (other : List ℕ) → no_faults ≤ no_faults }
        ensures stands { OnOk result (no_faults ≡ no_faults) }
        ensures cause { OnErr result (Rose no_faults no_faults) }

        // Beyond what every shelf promises: that it never fails, and how much it gives.
        ensures never { IsOk result }
        ensures count { IfOk result (λ n. n ≡ min (length (contents self.old name.now) - at) (length into.old)) }
    {
        match self.files.get(name) {
            Some(bytes) => Ok(copy_from(bytes, at, usize::MAX, into)),
            None => Ok(0),
        }
    }
}

/// A sink that takes whatever it is given, keeps none of it, and never fails. Its count is 0.
#[derive(Drop)]
pub struct SteadySink;

impl SteadySink {
    /// A sink; it takes no memory.
    pub fn new() -> SteadySink {
        SteadySink
    }
}

impl Sink for SteadySink {
    ghost taken = { λ _. None };

    ghost faults = { λ _. no_faults };

    fn put(&mut self, piece: &[u8]) -> Result<usize, Failed>
        requires { 0 < length piece.now }
        ensures count { IfOk result (λ n. (1 ≤ n) × (n ≤ length piece.now)) }
        ensures bytes { IfOk result (λ n. None ≡ with_more None (take n piece.now)) }
        ensures failed { OnErr result (None ≡ with_more None []) }
        ensures later { no_faults ≤ no_faults }
        ensures stands { OnOk result (no_faults ≡ no_faults) }
        ensures cause { OnErr result (Rose no_faults no_faults) }

        // Beyond what every sink promises: that it never fails, and takes all.
        ensures never { IsOk result }
        ensures all { IfOk result (λ n. n ≡ length piece.now) }
    {
        Ok(piece.len())
    }
}
