// Walks over the cases of a boundary.
ghost use Rattle.std.specs.Prelude.{◌≡◌, ◌+◌, ◌<◌, ◌^◌, ◌∷◌, ◌++◌, [], ℕ, Bool, List, length, IfOk, IfErr, OnOk};
ghost use Rattle.std.proofs.Common.{Break, Continue};
ghost use Rattle.mw_term.specs.declared.decided.Decided.{Decided};
ghost use Rattle.mw_rel.specs.Job.{Job as JobParts};
ghost use Rattle.mw_rel.specs.Views.{job_of};
ghost use Rattle.mw_fork.specs.declared.budget.Budget.{Budget as BudgetOf};
ghost use Rattle.mw_explore.specs.Cases.{Before};
ghost use Rattle.mw_fork.specs.Forks.{IsForkOf};
ghost use Rattle.mw_fork.specs.Walks.{HasStopped, HasWalked, IsAtCase, IsNextBehind, StopsAt, StopsWalk};

use crate::budget::Budget;
use crate::fault::ForkFault;
use crate::fork::{Case, Fork};
use mw_rel::Job;
use mw_term::ShortcutBook;
use std::alloc::Global;
use std::ops::ControlFlow;

/// What goes through the cases of a boundary.
pub trait Visitor {
    /// What it stops a walk with.
    type Stop: Drop;

    /// What it says, as it was before a walk and as it is now, of the cases that were handed to it: some of the
    /// boundary of this number, in their order, within a budget.
    ghost has_seen: { (before now : Self) → JobParts → (number : ℕ) → BudgetOf → (cases : List (List Decided))
        → Type 0 };

    /// What it says by a stop at a case of that boundary, as it was before that case.
    ghost stops: { (now : Self) → JobParts → (number : ℕ) → BudgetOf → (bits : List Decided) → Self.Stop → Type 0 };

    /// Whether it compares the cases. One that doesn't never says that a case is over the budget.
    ghost compares: { Bool };

    /// Takes the case at which a fork stands, the next one behind those before. It leaves the fork there.
    ///
    /// # Errors
    ///
    /// What the fork answers of this case.
    fn visit(
        &mut self,
        alloc: Global,
        job: &Job,
        fork: &mut Fork<'_>,
        case: &Case,
        book: &ShortcutBook,
    ) -> Result<ControlFlow<Self::Stop>, ForkFault>
        requires at { IsAtCase (job_of job.now) fork.old case.now }
        requires seen { (before : Self) × (cases : List (List Decided))
            × IsNextBehind (job_of job.now) fork.old.boundary cases case.now.prefix × (length cases + 1 < 2 ^ 32)
            × has_seen before self.old (job_of job.now) fork.old.boundary fork.old.budget cases }
        ensures same { OnOk result (fork.new ≡ fork.old) }
        ensures seen { IfOk result (λ flow. flow ≡ Continue tt → (before : Self) (cases : List (List Decided))
            → IsNextBehind (job_of job.now) fork.old.boundary cases case.now.prefix
            → has_seen before self.old (job_of job.now) fork.old.boundary fork.old.budget cases
            → has_seen before self.new (job_of job.now) fork.old.boundary fork.old.budget
            (cases ++ case.now.prefix ∷ [])) }
        ensures stops { IfOk result (λ flow. (stop : Self.Stop) → flow ≡ Break stop
            → stops self.old (job_of job.now) fork.old.boundary fork.old.budget case.now.prefix stop) }
        ensures fault { IfErr result (StopsAt (job_of job.now) fork.old compares case.now.prefix) };
}

/// Goes through the cases of a fork, of which none was given.
fn walk_on<V: Visitor>(
    alloc: Global,
    job: &Job,
    fork: &mut Fork<'_>,
    visitor: &mut V,
    book: &ShortcutBook,
) -> Result<ControlFlow<V::Stop>, ForkFault>
    requires of { IsForkOf (job_of job.now) fork.old }
    requires before { fork.old.at ≡ Before }
    requires given { fork.old.given ≡ 0 }
    requires most { fork.old.budget.paths < 2 ^ 32 }
    requires none { V.has_seen visitor.old visitor.old (job_of job.now) fork.old.boundary fork.old.budget [] }
    ensures all { IfOk result (λ flow. flow ≡ Continue tt → HasWalked (job_of job.now) fork.old.boundary
        fork.old.budget.paths (V.has_seen visitor.old visitor.new (job_of job.now) fork.old.boundary fork.old.budget)) }
    ensures stop { IfOk result (λ flow. (stop : V.Stop) → flow ≡ Break stop → (last : V)
        × HasStopped (job_of job.now) fork.old.boundary
        (V.has_seen visitor.old last (job_of job.now) fork.old.boundary fork.old.budget)
        (λ bits. V.stops last (job_of job.now) fork.old.boundary fork.old.budget bits stop)) }
    ensures fault { IfErr result (StopsWalk (job_of job.now) fork.old.boundary fork.old.budget V.compares
        (λ cases. (last : V) × V.has_seen visitor.old last (job_of job.now) fork.old.boundary fork.old.budget cases)) }
{
    while let Some(case) = fork.next_case(alloc, job, book)? {
        if let ControlFlow::Break(stop) = visitor.visit(alloc, job, fork, &case, book)? {
            return Ok(ControlFlow::Break(stop));
        }
    }
    Ok(ControlFlow::Continue(()))
}

impl Fork<'_> {
    /// Goes through the cases of the boundary of this number, from 0, within a budget: each is handed to the visitor
    /// once, in the order of their bits, with the fork that stands at it.
    ///
    /// - `Continue`: all of them were.
    /// - `Break`: what the visitor stopped with at a case. Those before it were handed over.
    ///
    /// # Errors
    ///
    /// - `Over`, with `Paths`, where as many cases were handed over as the budget has paths, and there is another; with
    ///   `Nodes`, only where an operation at that word and bit, in the word list of that prefix, has more joint
    ///   cofactors than the budget has nodes; where the visitor compares no case, the prefix asks for one more bit.
    ///   Each case before the prefix was handed over.
    /// - `NoMemory`: memory ran out.
    ///
    /// After an error the visitor may only be dropped.
    pub fn walk<V: Visitor>(
        alloc: Global,
        job: &Job,
        boundary: usize,
        budget: Budget,
        visitor: &mut V,
        book: &ShortcutBook,
    ) -> Result<ControlFlow<V::Stop>, ForkFault>
        requires boundary { boundary < length (job_of job.now).relation.boundaries }
        requires none { V.has_seen visitor.old visitor.old (job_of job.now) boundary budget [] }
        ensures all { IfOk result (λ flow. flow ≡ Continue tt → HasWalked (job_of job.now) boundary
            budget.paths (V.has_seen visitor.old visitor.new (job_of job.now) boundary budget)) }
        ensures stop { IfOk result (λ flow. (stop : V.Stop) → flow ≡ Break stop → (last : V)
            × HasStopped (job_of job.now) boundary (V.has_seen visitor.old last (job_of job.now) boundary budget)
            (λ bits. V.stops last (job_of job.now) boundary budget bits stop)) }
        ensures fault { IfErr result (StopsWalk (job_of job.now) boundary budget V.compares
            (λ cases. (last : V) × V.has_seen visitor.old last (job_of job.now) boundary budget cases)) }
    {
        let mut fork = Fork::start(alloc, job, boundary, budget)?;
        let walked = walk_on(alloc, job, &mut fork, visitor, book);
        drop(fork);
        walked
    }
}
