// What operations note as they go through nodes.
ghost use Rattle.std.specs.Prelude.{◌≡◌, ◌<◌, ◌≤◌, ℕ, [], ◌∷◌, ◌++◌, Option, Some, None, length, IfOk, IfSome, OnOk, IsErrOf};
ghost use Rattle.mw_dd.specs.Kept.{IsKept, AreNone, Adds};
ghost use Rattle.mw_dd.specs.Links.{IsAbsent};
ghost use Rattle.mw_dd.specs.Memos.{AreBeside, HasResult, IsBegun, IsEnded};
ghost use Rattle.mw_dd.specs.Waiting.{HasTurned, AwaitsNoLow};

use crate::dd::{Dd, DdFault};
use crate::kept::Kept;
use crate::memo::Memo;
use crate::nodes::Triple;
use crate::variable::Indexed;
use mw_base::NoMemory;
use std::alloc::Global;

/// An operation that waits for the result of one of its halves: the low one, and then the high one.
#[derive(Clone, Copy)]
pub(crate) struct Waiting {
    pub triple: Triple,
    /// Where it was met, if operations are counted.
    pub place: u32,
    /// Its top variable.
    pub top: Indexed,
    pub at_high: Triple,
    /// Whether the low half has a result.
    pub has_low: bool,
    /// That result, and anything before.
    pub low: Dd,
}

/// The operations that one call has met, the results that are kept from one call to the next, and the operations that
/// wait, of which the last is the next to go on.
#[derive(Drop)]
pub(crate) struct Notes {
    /// What this call has met, where a budget counts it.
    pub memo: Memo,
    /// Results of operations, also of earlier calls (the operation cache).
    pub results: Kept,
    /// The operations that wait, each for one of its halves.
    pub waiting: Vec<Waiting>,
}

impl Notes {
    /// Nothing noted.
    pub(crate) fn new(alloc: Global) -> Result<Notes, NoMemory>
        ensures { IfOk result (λ notes. AreNone notes.results) }
    {
        Ok(Notes {
            memo: Memo::new(alloc)?,
            results: Kept::new(alloc)?,
            waiting: Vec::new(alloc),
        })
    }

    /// The result of an operation that was met or kept: where a budget counts operations, only what this call has met.
    pub(crate) fn result(&self, t: &Triple, budget: Option<u32>) -> Option<Dd>
        requires { (b : ℕ) → budget ≡ Some b → AreBeside self.now.memo }
        ensures met { IfSome result (λ r. (b : ℕ) → budget ≡ Some b → HasResult self.now.memo t.now r) }
        ensures kept { IfSome result (λ r. budget ≡ None → IsKept self.now.results t.now r) }
        ensures absent { result ≡ None → (b : ℕ) → budget ≡ Some b → IsAbsent self.now.memo.triples t.now }
    {
        if budget.is_some() {
            return self.memo.get(t);
        }
        match self.results.get(t) {
            Some(position) => Some(Dd::at(position)),
            None => None,
        }
    }

    /// Notes that an operation is met, where a budget counts operations, and answers its place.
    ///
    /// # Errors
    ///
    /// - `OverBudget`: as many were met as the budget.
    /// - `NoMemory`: memory ran out.
    pub(crate) fn begin(
        &mut self,
        alloc: Global,
        t: Triple,
        budget: Option<u32>,
    ) -> Result<u32, DdFault>
        ensures begun { IfOk result (λ place. (b : ℕ) → budget ≡ Some b
            → IsBegun self.old.memo self.new.memo t place × (length self.new.memo.triples ≤ b)) }
        ensures over { IsErrOf result DdFault.OverBudget
            → (b : ℕ) × (budget ≡ Some b) × (b ≤ length self.old.memo.triples) }
        ensures results { self.new.results ≡ self.old.results }
        ensures waiting { self.new.waiting.items ≡ self.old.waiting.items }
    {
        let Some(budget) = budget else {
            return Ok(0);
        };
        if self.memo.triples.len() >= budget as usize {
            return Err(DdFault::OverBudget);
        }
        Ok(self.memo.begin(alloc, t)?)
    }

    /// Gives the operation that waits last the result of its low half, and answers its high half, which is next; none
    /// where it has that result, or where none waits.
    pub(crate) fn turn(&mut self, made: Dd) -> Option<Triple>
        ensures turned { IfSome result (HasTurned self.old.waiting.items self.new.waiting.items made) }
        ensures stay { result ≡ None → self.new.waiting.items ≡ self.old.waiting.items }
        ensures has_low { result ≡ None → AwaitsNoLow self.old.waiting.items }
        ensures memo { self.new.memo ≡ self.old.memo }
        ensures results { self.new.results ≡ self.old.results }
    {
        let count = self.waiting.len();
        if count == 0 {
            return None;
        }
        let last = count - 1;
        if self.waiting[last].has_low {
            return None;
        }
        let at_high = self.waiting[last].at_high;
        self.waiting[last].has_low = true;
        self.waiting[last].low = made;
        Some(at_high)
    }

    /// The operation that waits last, which waits no more.
    pub(crate) fn last(&mut self) -> Option<Waiting>
        ensures some { IfSome result (λ w. self.old.waiting.items ≡ self.new.waiting.items ++ w ∷ []) }
        ensures none { result ≡ None → self.old.waiting.items ≡ [] }
        ensures fewer { result ≡ None → self.new.waiting.items ≡ [] }
        ensures memo { self.new.memo ≡ self.old.memo }
        ensures results { self.new.results ≡ self.old.results }
    {
        self.waiting.pop()
    }

    /// Lets an operation wait.
    ///
    /// # Errors
    ///
    /// Memory ran out.
    pub(crate) fn wait(&mut self, waiting: Waiting) -> Result<(), NoMemory>
        ensures waits { OnOk result (self.new.waiting.items ≡ self.old.waiting.items ++ waiting ∷ []) }
        ensures memo { self.new.memo ≡ self.old.memo }
        ensures results { self.new.results ≡ self.old.results }
    {
        self.waiting.push(waiting)?;
        Ok(())
    }

    /// Notes the result of an operation: where a budget counts operations, for this call, and else for later ones too,
    /// in slots that grow towards so many.
    ///
    /// # Errors
    ///
    /// Memory ran out.
    pub(crate) fn end(
        &mut self,
        alloc: Global,
        ended: &Waiting,
        made: Dd,
        wanted: usize,
        budget: Option<u32>,
    ) -> Result<(), NoMemory>
        requires { (b : ℕ) → budget ≡ Some b → ended.now.place < length self.old.memo.results.items }
        ensures ended { OnOk result ((b : ℕ) → budget ≡ Some b
            → IsEnded self.old.memo self.new.memo ended.now.place made) }
        ensures results { Adds self.old.results self.new.results ended.now.triple made }
        ensures waiting { self.new.waiting.items ≡ self.old.waiting.items }
    {
        if budget.is_some() {
            self.memo.end(ended.place, made);
            return Ok(());
        }
        self.results
            .keep(alloc, ended.triple, made.position(), wanted)
    }
}
