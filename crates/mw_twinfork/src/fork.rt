// The feasible cases of the twin starts at a block.
ghost use Rattle.std.specs.Prelude.{◌≡◌, ◌≢◌, ◌+◌, ◌<◌, ℕ, List, All, IfErr, IfOk, IfSome, None, OnOk, Some, slice_get};
ghost use Rattle.mw_compare.specs.TreeComparisons.{AreComparisonsWithin};
ghost use Rattle.mw_term.specs.declared.decided.Decided.{Decided};
ghost use Rattle.mw_explore.specs.Cases.{At, Before, Behind, IsNext, IsToCome, NoneIsToCome, OneIsToCome};
ghost use Rattle.mw_explore.specs.declared.fault.Fault.TheVariants as faults;
ghost use Rattle.mw_fork.specs.declared.fault.Over.TheVariants as overs;
ghost use Rattle.mw_rel.specs.Case.{IsBefore};
ghost use Rattle.mw_revise.specs.Kept.{IsBlock};
ghost use Rattle.mw_revise.specs.Revision.{IsRevision};
ghost use Rattle.mw_revise.specs.TwinBudgets.{AreTwinNodesOver};
ghost use Rattle.mw_revise.specs.TwinWords.{twin_tree};
ghost use Rattle.mw_twincompare.specs.Failing.{NoneDiffersOf};
ghost use Rattle.mw_twinfork.specs.Ends.{EndsEach};
ghost use Rattle.mw_twinfork.specs.Found.{IsDiffering, IsLeast};
ghost use Rattle.mw_twinfork.specs.Stops.{IsDecisionOver};
ghost use Rattle.mw_twinfork.specs.TwinCases.{IsCaseOf};
ghost use Rattle.mw_twinfork.specs.Within.{AreDecidedWithin};

use crate::twins::{TwinEnd, Twins};
use mw_explore::{Case, Explorer};
use mw_fork::{Budget, ForkFault, fault_of};
use mw_term::ShortcutBook;
use mw_twin::{RevisedBlock, TwinStarts};
use std::alloc::Global;
use std::marker::Model;

/// The feasible cases of the twin starts at a block, which are given one after another. They are explored by courses,
/// which have one table of terms, with the diagrams of their bits.
#[derive(Drop)]
pub struct TwinFork<'a> {
    cases: Explorer<Twins<'a>>,
}

impl<'a> Model for TwinFork<'a> {
    ghost use Rattle.mw_twinfork.specs.TwinForks as forks;

    ghost Value = { forks.TwinFork };

    ghost view = { λ f. forks.fork_of f.cases };
}

impl<'a> TwinFork<'a> {
    /// The cases of a block, which is that of this number in the KEEP text, from 0, within a budget. None was given yet.
    pub fn start(
        alloc: Global,
        revised: RevisedBlock<'a>,
        boundary: usize,
        budget: Budget,
    ) -> TwinFork<'a>
        requires revision { IsRevision revised.revision }
        requires there { slice_get revised.revision.keep.blocks boundary ≡ Some revised.block }
        requires blocks { All (IsBlock revised.revision.board) revised.revision.keep.blocks }
        ensures revised { result.revised ≡ revised.entry }
        ensures boundary { result.boundary ≡ boundary }
        ensures budget { result.budget ≡ budget }
        ensures before { result.at ≡ Before }
        ensures given { result.given ≡ 0 }
    {
        let twins = Twins {
            revised,
            boundary,
            nodes: budget.nodes,
        };
        TwinFork {
            cases: Explorer::start(alloc, twins, budget.paths),
        }
    }

    /// The next feasible case, in the order of its bits, 0 before 1, those of the old segment before those of the new
    /// one, with how both segments of its twin starts end; nothing exactly after the last.
    ///
    /// # Errors
    ///
    /// - `Over`, with `Paths`, exactly where as many cases were given as the budget has paths, and another is to come;
    ///   with `Nodes`, only where the prefix asks for one more bit, and an operation at that word and bit, in its word
    ///   list, has more joint cofactors than the budget has nodes. No case that is still to come stands before the
    ///   prefix.
    /// - `NoMemory`: memory ran out.
    ///
    /// After an error it may only be dropped.
    pub fn next_case(
        &mut self,
        alloc: Global,
        book: &ShortcutBook,
    ) -> Result<Option<Case<TwinEnd>>, ForkFault>
        ensures revised { self.new.revised ≡ self.old.revised }
        ensures boundary { self.new.boundary ≡ self.old.boundary }
        ensures budget { self.new.budget ≡ self.old.budget }
        ensures case { IfOk result (λ o. IfSome o (λ case.
            IsNext (IsCaseOf self.old.revised) self.old.at case.prefix)) }
        ensures ends { IfOk result (λ o. IfSome o (λ case. EndsEach self.old.revised case.prefix case.end)) }
        ensures nodes { IfOk result (λ o. IfSome o (λ case.
            AreDecidedWithin self.old.revised self.old.budget.nodes case.prefix)) }
        ensures at { IfOk result (λ o. IfSome o (λ case. self.new.at ≡ At case.prefix)) }
        ensures given { IfOk result (λ o. IfSome o (λ case. self.new.given ≡ self.old.given + 1)) }
        ensures within { IfOk result (λ o. IfSome o (λ case. self.old.given < self.old.budget.paths)) }
        ensures none { IfOk result (λ o. o ≡ None → NoneIsToCome (IsCaseOf self.old.revised) self.old.at) }
        ensures behind { IfOk result (λ o. o ≡ None → self.new.at ≡ Behind) }
        ensures last { IfOk result (λ o. o ≡ None → self.new.given ≡ self.old.given) }
        ensures paths { IfErr result (λ e. (boundary limit : ℕ) → e ≡ faults.Over (overs.Paths boundary limit)
            → (boundary ≡ self.old.boundary) × (limit ≡ self.old.budget.paths) × (self.old.given ≡ limit)
            × OneIsToCome (IsCaseOf self.old.revised) self.old.at) }
        ensures over { IfErr result (λ e. (boundary : ℕ) (prefix : List Decided) (word bit : ℕ)
            → e ≡ faults.Over (overs.Nodes boundary prefix word bit)
            → (boundary ≡ self.old.boundary) × (self.old.given < self.old.budget.paths)
            × OneIsToCome (IsCaseOf self.old.revised) self.old.at) }
        ensures cause { IfErr result (λ e. (boundary : ℕ) (prefix : List Decided) (word bit : ℕ)
            → e ≡ faults.Over (overs.Nodes boundary prefix word bit)
            → IsDecisionOver self.old.revised self.old.budget.nodes prefix word bit) }
        ensures before { IfErr result (λ e. (boundary : ℕ) (prefix : List Decided) (word bit : ℕ)
            → e ≡ faults.Over (overs.Nodes boundary prefix word bit) → (other : List Decided)
            → IsCaseOf self.old.revised other → IsBefore other prefix → ¬ IsToCome self.old.at other) }
    {
        let boundary = self.cases.tree().boundary;
        let limit = self.cases.limit();
        let next = match self.cases.next_case(alloc, book) {
            Ok(next) => next,
            Err(fault) => return Err(fault_of(boundary, limit, fault)),
        };
        Ok(next)
    }

    /// A twin start of the case given last that differs: what the first assignment gives under which the first comparison
    /// fails that can; where a segment is late, the events aren't alike, the new board is at another boundary or a stack
    /// pointer isn't the boundary's, the first that takes its path. Where there is no error, nothing exactly where none
    /// of its twin starts differs. A case was given last.
    ///
    /// # Errors
    ///
    /// - `Over`, with `Nodes`, only where an operation at that word and bit, in the word list of the case, which is the
    ///   prefix, has more joint cofactors than the budget has nodes.
    /// - `NoMemory`: memory ran out.
    ///
    /// After an error it may only be dropped.
    pub fn differs(
        &mut self,
        alloc: Global,
        book: &ShortcutBook,
    ) -> Result<Option<TwinStarts>, ForkFault>
        requires { (last : List Decided) × (self.old.at ≡ At last) }
        ensures same { OnOk result (self.new ≡ self.old) }
        ensures differs { IfOk result (λ o. IfSome o (λ starts. (last : List Decided) → self.old.at ≡ At last
            → IsDiffering self.old.revised last starts)) }
        ensures least { IfOk result (λ o. IfSome o (λ starts. (last : List Decided) → self.old.at ≡ At last
            → IsLeast self.old.revised last starts)) }
        ensures none { IfOk result (λ o. o ≡ None → (last : List Decided) → self.old.at ≡ At last
            → NoneDiffersOf self.old.revised last) }
        ensures within { IfOk result (λ o. o ≡ None → (last : List Decided) → self.old.at ≡ At last
            → AreComparisonsWithin (twin_tree self.old.revised.revision self.old.revised.block) self.old.budget.nodes
            last) }
        ensures cause { IfErr result (λ e. (boundary : ℕ) (prefix : List Decided) (word bit : ℕ)
            → e ≡ faults.Over (overs.Nodes boundary prefix word bit)
            → (boundary ≡ self.old.boundary) × (self.old.at ≡ At prefix)
            × AreTwinNodesOver self.old.revised.revision self.old.revised.block self.old.budget.nodes prefix word bit) }
        ensures paths { IfErr result (λ e. (boundary limit : ℕ) → e ≢ faults.Over (overs.Paths boundary limit)) }
    {
        let boundary = self.cases.tree().boundary;
        let limit = self.cases.limit();
        let found = match self.cases.compare(alloc, book) {
            Ok(found) => found,
            Err(fault) => return Err(fault_of(boundary, limit, fault)),
        };
        Ok(found)
    }
}
