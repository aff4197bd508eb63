// The calls of an implementation in memory, some of which fail by their number.
ghost use Rattle.std.specs.Prelude.{◌≡◌, ◌<◌, ◌≤◌, ◌↔◌, IsTrue, IfOk};

use mw_base::NoMemory;
use std::alloc::Global;
use std::marker::Model;

/// An account of calls, numbered from 1.
#[derive(Drop)]
pub struct Calls {
    most: usize,
    fails: Vec<u64>,
    made: u64,
    faults: u64,
}

impl Model for Calls {
    ghost use Rattle.std.specs.Prelude.{◌<◌};
    ghost use Rattle.mw_outside.specs.Calls.{Account};

    ghost Value = { Account };

    ghost view = { λ c. record { most = c.most; fails = c.fails.items; made = c.made; faults = c.faults } };

    ghost invariant = { λ c. 0 < c.most };
}

impl Calls {
    ghost use Rattle.mw_outside.specs.Calls.{no_calls, FailsNext, after_call, with_fault};

    /// No call was made yet. One moves at most so many bytes, and those of the numbers fail.
    pub fn new(alloc: Global, most: usize, fails: &[u64]) -> Result<Calls, NoMemory>
        requires { 0 < most }
        ensures { IfOk result (λ calls. calls ≡ no_calls most fails.now) }
    {
        Ok(Calls {
            most,
            fails: Vec::from_slice(alloc, fails)?,
            made: 0,
            faults: 0,
        })
    }

    /// The most bytes that one call moves.
    pub fn most(&self) -> usize
        ensures exact { result ≡ self.now.most }
        ensures some { 0 < result }
    {
        self.most
    }

    /// Counts a call, and says whether it is one that fails.
    pub fn begin(&mut self) -> bool
        ensures fails { IsTrue result ↔ FailsNext self.old }
        ensures counted { self.new ≡ after_call self.old }
    {
        self.made = self.made.saturating_add(1);
        self.fails.contains(&self.made)
    }

    /// Counts a fault.
    pub fn fail(&mut self)
        ensures counted { self.new ≡ with_fault self.old }
        ensures later { self.old.faults ≤ self.new.faults }
    {
        self.faults = self.faults.saturating_add(1);
    }
}
