// The feasible cases of a boundary, one after another.
ghost use Rattle.std.specs.Prelude.{◌≡◌, ◌≢◌, ◌+◌, ◌<◌, ℕ, List, length, IfOk, IfErr, IfSome, IsOk, OnOk, None};
ghost use Rattle.mw_term.specs.declared.decided.Decided.{Decided};
ghost use Rattle.mw_explore.specs.Cases.{At, Before, Behind, IsToCome};
ghost use Rattle.mw_explore.specs.declared.explorer.Halt.TheVariants as halts;
ghost use Rattle.mw_explore.specs.declared.fault.Fault.TheVariants as faults;
ghost use Rattle.mw_rel.specs.Case.{IsBefore, IsCase};
ghost use Rattle.mw_rel.specs.OverBudget.{AreNodesOver};
ghost use Rattle.mw_rel.specs.Views.{job_of};
ghost use Rattle.mw_fork.specs.Begins.{IsDiffering, IsFirstOfCase, IsLeast, IsOfCase};
ghost use Rattle.mw_fork.specs.declared.fault.Over.TheVariants as overs;
ghost use Rattle.mw_decide.specs.declared.fault.Place as places;
ghost use Rattle.mw_fork.specs.Failing.{ComparisonsAreWithin, NoneDiffersOf};
ghost use Rattle.mw_course.specs.EndsEach.{EndsEach};
ghost use Rattle.mw_fork.specs.Forks.{IsForkOf, IsNextCase, NoneIsToCome, OneIsToCome};
ghost use Rattle.mw_fork.specs.Stops.{IsDecisionOver};
ghost use Rattle.mw_fork.specs.Within.{AreDecidedWithin};

use crate::budget::Budget;
use crate::fault::{ForkFault, Over};
use crate::found::first_start;
use crate::starts::Starts;
use mw_decide::Place;
use mw_explore::{Explorer, Fault, Halt};
use mw_rel::{Begin, Job};
use mw_term::{Prefix, ShortcutBook};
use std::alloc::Global;
use std::marker::Model;

/// A case of a boundary.
#[derive(Debug, Drop)]
pub struct Case {
    /// Its decided bits.
    pub prefix: Prefix,
    /// How many cycles the segments of its starts have; where these are late, the bound's number.
    pub cycles: u32,
    /// Whether they are late.
    pub late: bool,
}

/// The feasible cases of a boundary, which are given one after another. They are explored by courses, which have one
/// table of terms, with the diagrams of their bits.
#[derive(Drop)]
pub struct Fork<'a> {
    cases: Explorer<Starts<'a>>,
}

impl<'a> Model for Fork<'a> {
    ghost use Rattle.mw_fork.specs.Codes.{coded_acts, coded_tree};
    ghost use Rattle.mw_fork.specs.Forks as forks;
    ghost use Rattle.std.specs.Coded.{codes};

    ghost Value = { forks.Fork };

    ghost coded = { Prim.hlevel (codes, coded_acts, coded_tree) };

    ghost view = { λ f. forks.fork_of f.cases };
}

/// Why no case of the boundary of this number is given, within so many paths.
pub fn fault_of(boundary: usize, limit: u32, fault: Fault<Halt<Place>>) -> ForkFault
    ensures nodes { (number : ℕ) (prefix : List Decided) (word j : ℕ)
        → result ≡ faults.Over (overs.Nodes number prefix word j)
        → (number ≡ boundary)
        × (fault ≡ faults.Over (halts.At prefix (record { word = word; bit = j }))) }
    ensures paths { (number most : ℕ) → result ≡ faults.Over (overs.Paths number most)
        → (number ≡ boundary) × (most ≡ limit) × (fault ≡ faults.Over halts.Full) }
    ensures full { fault ≡ faults.Over halts.Full → result ≡ faults.Over (overs.Paths boundary limit) }
    ensures at { (prefix : List Decided) (place : places.Place) → fault ≡ faults.Over (halts.At prefix place)
        → result ≡ faults.Over (overs.Nodes boundary prefix place.word place.bit) }
{
    match fault {
        Fault::Over(Halt::At(prefix, place)) => ForkFault::Over(Over::Nodes {
            boundary,
            prefix,
            word: place.word,
            bit: place.bit,
        }),
        Fault::Over(Halt::Full) => ForkFault::Over(Over::Paths { boundary, limit }),
        Fault::NoMemory => ForkFault::NoMemory,
    }
}

impl<'a> Fork<'a> {
    /// The cases of the boundary of this number, from 0, within a budget. None was given yet.
    ///
    /// # Errors
    ///
    /// There are none.
    pub fn start(
        alloc: Global,
        job: &'a Job,
        boundary: usize,
        budget: Budget,
    ) -> Result<Fork<'a>, ForkFault>
        requires boundary { boundary < length (job_of job.now).relation.boundaries }
        ensures ok { IsOk result }
        ensures of { IfOk result (IsForkOf (job_of job.now)) }
        ensures boundary { IfOk result (λ f. f.boundary ≡ boundary) }
        ensures budget { IfOk result (λ f. f.budget ≡ budget) }
        ensures before { IfOk result (λ f. f.at ≡ Before) }
        ensures given { IfOk result (λ f. f.given ≡ 0) }
    {
        let starts = Starts {
            job,
            boundary,
            nodes: budget.nodes,
        };
        Ok(Fork {
            cases: Explorer::start(alloc, starts, budget.paths),
        })
    }

    /// The next feasible case, in the order of their bits, 0 before 1; nothing exactly after the last.
    ///
    /// # Errors
    ///
    /// - `Over`, with `Paths`, exactly where as many cases were given as the budget has paths, and another is to come;
    ///   with `Nodes`, only where the prefix asks for one more bit, and an operation at that word and bit, in its word
    ///   list, has more joint cofactors than the budget has nodes. No case that is still to come stands before the
    ///   prefix.
    /// - `NoMemory`: memory ran out.
    ///
    /// After an error it may only be dropped.
    pub fn next_case(
        &mut self,
        alloc: Global,
        job: &Job,
        book: &ShortcutBook,
    ) -> Result<Option<Case>, ForkFault>
        requires of { IsForkOf (job_of job.now) self.old }
        ensures of { OnOk result (IsForkOf (job_of job.now) self.new) }
        ensures boundary { OnOk result (self.new.boundary ≡ self.old.boundary) }
        ensures budget { OnOk result (self.new.budget ≡ self.old.budget) }
        ensures case { IfOk result (λ o. IfSome o (λ case.
            IsNextCase (job_of job.now) self.old.boundary self.old.at case.prefix)) }
        ensures ends { IfOk result (λ o. IfSome o (λ case.
            EndsEach (job_of job.now) self.old.boundary case.prefix case.cycles case.late)) }
        ensures nodes { IfOk result (λ o. IfSome o (λ case.
            AreDecidedWithin (job_of job.now) self.old.boundary self.old.budget.nodes case.prefix)) }
        ensures at { IfOk result (λ o. IfSome o (λ case. self.new.at ≡ At case.prefix)) }
        ensures given { IfOk result (λ o. IfSome o (λ case. self.new.given ≡ self.old.given + 1)) }
        ensures within { IfOk result (λ o. IfSome o (λ case. self.old.given < self.old.budget.paths)) }
        ensures none { IfOk result (λ o. o ≡ None → NoneIsToCome (job_of job.now) self.old.boundary self.old.at) }
        ensures behind { IfOk result (λ o. o ≡ None → self.new.at ≡ Behind) }
        ensures last { IfOk result (λ o. o ≡ None → self.new.given ≡ self.old.given) }
        ensures paths { IfErr result (λ e. (boundary limit : ℕ) → e ≡ faults.Over (overs.Paths boundary limit)
            → (boundary ≡ self.old.boundary) × (limit ≡ self.old.budget.paths) × (self.old.given ≡ limit)
            × OneIsToCome (job_of job.now) self.old.boundary self.old.at) }
        ensures over { IfErr result (λ e. (boundary : ℕ) (prefix : List Decided) (word bit : ℕ)
            → e ≡ faults.Over (overs.Nodes boundary prefix word bit)
            → (boundary ≡ self.old.boundary) × (self.old.given < self.old.budget.paths)
            × OneIsToCome (job_of job.now) self.old.boundary self.old.at) }
        ensures cause { IfErr result (λ e. (boundary : ℕ) (prefix : List Decided) (word bit : ℕ)
            → e ≡ faults.Over (overs.Nodes boundary prefix word bit)
            → IsDecisionOver (job_of job.now) boundary self.old.budget.nodes prefix word bit) }
        ensures before { IfErr result (λ e. (boundary : ℕ) (prefix : List Decided) (word bit : ℕ)
            → e ≡ faults.Over (overs.Nodes boundary prefix word bit) → (other : List Decided)
            → IsCase (job_of job.now) boundary other → IsBefore other prefix → ¬ IsToCome self.old.at other) }
    {
        let boundary = self.cases.tree().boundary;
        let limit = self.cases.limit();
        let next = match self.cases.next_case(alloc, book) {
            Ok(next) => next,
            Err(fault) => return Err(fault_of(boundary, limit, fault)),
        };
        let Some(case) = next else {
            return Ok(None);
        };
        Ok(Some(Case {
            prefix: case.prefix,
            cycles: case.end.cycles,
            late: case.end.late,
        }))
    }

    /// A start of the case given last that differs: what the first assignment gives under which the first comparison
    /// fails that can; of a late case, and where the events aren't alike or the stack pointer isn't the boundary's, the
    /// first that takes its path. Where there is no error, nothing exactly where none of its starts differs. A case was
    /// given last.
    ///
    /// # Errors
    ///
    /// - `Over`, with `Nodes`, only where an operation at that word and bit, in the word list of the case, which is the
    ///   prefix, has more joint cofactors than the budget has nodes.
    /// - `NoMemory`: memory ran out.
    ///
    /// After an error it may only be dropped.
    pub fn differs(
        &mut self,
        alloc: Global,
        job: &Job,
        book: &ShortcutBook,
    ) -> Result<Option<Begin>, ForkFault>
        requires of { IsForkOf (job_of job.now) self.old }
        requires given { (last : List Decided) × (self.old.at ≡ At last) }
        ensures same { OnOk result (self.new ≡ self.old) }
        ensures differs { IfOk result (λ o. IfSome o (λ begin. (last : List Decided) → self.old.at ≡ At last
            → IsDiffering (job_of job.now) self.old.boundary last begin)) }
        ensures least { IfOk result (λ o. IfSome o (λ begin. (last : List Decided) → self.old.at ≡ At last
            → IsLeast (job_of job.now) self.old.boundary last begin)) }
        ensures none { IfOk result (λ o. o ≡ None → (last : List Decided) → self.old.at ≡ At last
            → NoneDiffersOf (job_of job.now) self.old.boundary last) }
        ensures within { IfOk result (λ o. o ≡ None → (last : List Decided) → self.old.at ≡ At last
            → ComparisonsAreWithin (job_of job.now) self.old.boundary self.old.budget.nodes last) }
        ensures cause { IfErr result (λ e. (boundary : ℕ) (prefix : List Decided) (word bit : ℕ)
            → e ≡ faults.Over (overs.Nodes boundary prefix word bit)
            → (boundary ≡ self.old.boundary) × (self.old.at ≡ At prefix)
            × AreNodesOver (job_of job.now) boundary self.old.budget.nodes prefix word bit) }
        ensures paths { IfErr result (λ e. (boundary limit : ℕ) → e ≢ faults.Over (overs.Paths boundary limit)) }
    {
        let boundary = self.cases.tree().boundary;
        let limit = self.cases.limit();
        let found = match self.cases.compare(alloc, book) {
            Ok(found) => found,
            Err(fault) => return Err(fault_of(boundary, limit, fault)),
        };
        Ok(found)
    }

    /// The first start of the case given last: what the first assignment gives under which the case's path holds. A case
    /// was given last.
    ///
    /// # Errors
    ///
    /// Memory ran out. It may only be dropped then.
    pub fn begin(
        &mut self,
        alloc: Global,
        job: &Job,
        book: &ShortcutBook,
    ) -> Result<Begin, ForkFault>
        requires of { IsForkOf (job_of job.now) self.old }
        requires given { (last : List Decided) × (self.old.at ≡ At last) }
        ensures same { OnOk result (self.new ≡ self.old) }
        ensures of_case { IfOk result (λ begin. (last : List Decided) → self.old.at ≡ At last
            → IsOfCase (job_of job.now) self.old.boundary last begin) }
        ensures first { IfOk result (λ begin. (last : List Decided) → self.old.at ≡ At last
            → IsFirstOfCase (job_of job.now) self.old.boundary last begin) }
        ensures fault { IfErr result (λ e. e ≡ faults.NoMemory) }
    {
        let boundary = self.cases.tree().boundary;
        Ok(first_start(alloc, job, boundary, self.cases.course())?)
    }
}
