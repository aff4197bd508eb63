// Files and a sink in memory, with calls that fail by their numbers.
ghost use Rattle.std.specs.Prelude.{◌≡◌, ◌≢◌, ◌<◌, ◌≤◌, ◌-◌, ◌++◌, ◌↔◌, ◌⊎◌, [], List, ℕ, Some, None, min, take};
ghost use Rattle.std.specs.Prelude.{length, IsErr, IsNone, IfOk, IfSome, OnOk, OnErr};
ghost use Rattle.mw_outside.specs.Calls.{no_calls, FailsNext, after_call, with_fault};
ghost use Rattle.mw_outside.specs.Causes.{Rose};
ghost use Rattle.mw_outside.specs.Contents.{Gives};

use crate::calls::Calls;
use crate::files::Files;
use crate::shelf::{Failed, Shelf};
use crate::sink::Sink;
use mw_base::NoMemory;
use std::alloc::Global;

/// Files in memory. Its one count of faults is the count of every name.
#[derive(Drop)]
pub struct MemoryShelf {
    files: Files,
    calls: Calls,
}

impl MemoryShelf {
    ghost use Rattle.mw_outside.specs.MemoryShelf.{contents, calls_of};

    /// A shelf without files that gives at most so many bytes a fetch. The fetches of these numbers,
    /// counted from 1, fail.
    pub fn new(alloc: Global, most: usize, fails: &[u64]) -> Result<MemoryShelf, NoMemory>
        requires { 0 < most }
        ensures empty { IfOk result (λ shelf. (name : List ℕ) → contents shelf name ≡ None) }
        ensures calls { IfOk result (λ shelf. calls_of shelf ≡ no_calls most fails.now) }
    {
        Ok(MemoryShelf {
            files: Files::new(alloc),
            calls: Calls::new(alloc, most, fails)?,
        })
    }

    /// The name's contents become the bytes. After want of memory all is as before.
    pub fn set(&mut self, alloc: Global, name: &str, bytes: &[u8]) -> Result<(), NoMemory>
        ensures ok { OnOk result (contents self.new name.now ≡ Some bytes.now) }
        ensures others { (other : List ℕ) → other ≢ name.now → contents self.new other ≡ contents self.old other }
        ensures err { OnErr result ((other : List ℕ) → contents self.new other ≡ contents self.old other) }
        ensures calls { calls_of self.new ≡ calls_of self.old }
    {
        self.files.set(alloc, name, bytes)
    }
}

impl Shelf for MemoryShelf {
    ghost use Rattle.mw_outside.specs.MemoryShelf.{contents, calls_of};

    ghost told = { contents };

    ghost faults = { λ shelf _. (calls_of shelf).faults };

    fn fetch(&mut self, name: &str, at: u64, into: &mut [u8]) -> Result<usize, Failed>
        ensures bound { IfOk result (λ n. n ≤ length into.old) }
        ensures bytes { IfOk result
            (λ n. IfSome (contents self.old name.now) (λ bytes. Gives bytes at n into.old into.new)) }
        ensures same { (other : List ℕ) → contents self.new other ≡ contents self.old other }
        ensures later { (calls_of self.old).faults ≤ (calls_of self.new).faults }
        ensures stands { OnOk result ((calls_of self.new).faults ≡ (calls_of self.old).faults) }
        ensures cause { OnErr result (Rose (calls_of self.old).faults (calls_of self.new).faults) }

        // Beyond what every shelf promises: when it fails, how much it gives, and what it counts.
        ensures failed { IsErr result ↔ (FailsNext (calls_of self.old) ⊎ IsNone (contents self.old name.now)) }
        ensures count { IfOk result (λ n. IfSome (contents self.old name.now) (λ bytes.
            n ≡ min (min (length bytes - at) (calls_of self.old).most) (length into.old))) }
        ensures ok_calls { OnOk result (calls_of self.new ≡ after_call (calls_of self.old)) }
        ensures err_calls { OnErr result (calls_of self.new ≡ with_fault (after_call (calls_of self.old))) }
    {
        if self.calls.begin() {
            self.calls.fail();
            return Err(Failed);
        }
        match self.files.get(name) {
            Some(bytes) => Ok(copy_from(bytes, at, self.calls.most(), into)),
            None => {
                self.calls.fail();
                Err(Failed)
            }
        }
    }
}

/// Copies what lies at a place into the front of a buffer, at most so many bytes.
pub(crate) fn copy_from(bytes: &[u8], at: u64, most: usize, into: &mut [u8]) -> usize
    requires { 0 < most }
    ensures given { Gives bytes.now at result into.old into.new }
    ensures count { result ≡ min (min (length bytes.now - at) most) (length into.old) }
{
    if at >= bytes.len() as u64 {
        return 0;
    }
    let rest = &bytes[at as usize..];
    let count = rest.len().min(most).min(into.len());
    into[..count].copy_from_slice(&rest[..count]);
    count
}

/// A sink in memory. A growth that it is refused is a fault.
#[derive(Drop)]
pub struct MemorySink {
    bytes: Vec<u8>,
    calls: Calls,
}

impl MemorySink {
    ghost use Rattle.mw_outside.specs.MemorySink.{bytes_of, calls_of};

    /// An empty sink that takes at most so many bytes a call. The calls of these numbers, counted from 1, fail.
    pub fn new(alloc: Global, most: usize, fails: &[u64]) -> Result<MemorySink, NoMemory>
        requires { 0 < most }
        ensures empty { IfOk result (λ sink. bytes_of sink ≡ []) }
        ensures calls { IfOk result (λ sink. calls_of sink ≡ no_calls most fails.now) }
    {
        Ok(MemorySink {
            bytes: Vec::new(alloc),
            calls: Calls::new(alloc, most, fails)?,
        })
    }

    /// The bytes taken.
    pub fn bytes(&self) -> &[u8]
        ensures { result.now ≡ bytes_of self.now }
    {
        &self.bytes
    }
}

impl Sink for MemorySink {
    ghost use Rattle.mw_outside.specs.MemorySink.{bytes_of, calls_of};

    ghost taken = { λ sink. Some (bytes_of sink) };

    ghost faults = { λ sink. (calls_of sink).faults };

    fn put(&mut self, piece: &[u8]) -> Result<usize, Failed>
        requires { 0 < length piece.now }
        ensures count { IfOk result (λ n. (1 ≤ n) × (n ≤ length piece.now)) }
        ensures bytes { IfOk result (λ n. bytes_of self.new ≡ bytes_of self.old ++ take n piece.now) }
        ensures failed { OnErr result (bytes_of self.new ≡ bytes_of self.old) }
        ensures later { (calls_of self.old).faults ≤ (calls_of self.new).faults }
        ensures stands { OnOk result ((calls_of self.new).faults ≡ (calls_of self.old).faults) }
        ensures cause { OnErr result (Rose (calls_of self.old).faults (calls_of self.new).faults) }

        // Beyond what every sink promises: when it has to fail, how much it takes, and what it counts.
        ensures fails { FailsNext (calls_of self.old) → IsErr result }
        ensures all { IfOk result (λ n. n ≡ min (length piece.now) (calls_of self.old).most) }
        ensures ok_calls { OnOk result (calls_of self.new ≡ after_call (calls_of self.old)) }
        ensures err_calls { OnErr result (calls_of self.new ≡ with_fault (after_call (calls_of self.old))) }
    {
        if self.calls.begin() {
            self.calls.fail();
            return Err(Failed);
        }
        let count = piece.len().min(self.calls.most());
        match self.bytes.extend_from_slice(&piece[..count]) {
            Ok(()) => Ok(count),
            Err(_) => {
                self.calls.fail();
                Err(Failed)
            }
        }
    }
}
