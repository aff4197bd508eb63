// The extreme lengths of the cases of a boundary.
ghost use Rattle.std.specs.Prelude.{◌≡◌, ◌∷◌, ◌++◌, [], List, IfErr, OnOk, false};
ghost use Rattle.mw_term.specs.declared.decided.Decided.{Decided};
ghost use Rattle.mw_rel.specs.Views.{job_of};
ghost use Rattle.mw_explore.specs.declared.fault.Fault.TheVariants as faults;
ghost use Rattle.mw_fork.specs.Walks.{IsAtCase, IsNextBehind};
ghost use Rattle.mw_bounds.specs.Extremes.{IsExtreme, goes_beyond, goes_beyond_shown};

use crate::length::Length;
use mw_fork::{Case, Fork, ForkFault, Visitor};
use mw_rel::{Begin, Job};
use mw_term::ShortcutBook;
use std::alloc::Global;
use std::ops::ControlFlow;

/// Which extreme length is sought.
#[derive(Clone, Copy)]
pub(crate) enum Side {
    /// The least.
    Least,
    /// The greatest.
    Greatest,
}

impl Side {
    /// Whether a length goes beyond another one on this side.
    fn goes_beyond(self, length: Length, other: Length) -> bool
        ensures { result ≡ goes_beyond self length other }
    {
        match self {
            Side::Least => length.is_less(other),
            Side::Greatest => other.is_less(length),
        }
    }
}

/// A length, and the choice whose start shows it.
#[derive(Drop)]
pub(crate) struct Shown {
    /// The length.
    pub length: Length,
    /// What gives a start that has it.
    pub begin: Begin,
}

/// Whether a length goes beyond the one that is shown so far, or none is.
fn goes_beyond_shown(side: Side, length: Length, shown: &Option<Shown>) -> bool
    ensures { result ≡ goes_beyond_shown side length shown.now }
{
    match shown {
        Some(shown) => side.goes_beyond(length, shown.length),
        None => true,
    }
}

/// Takes in the case at which a fork stands: where its length goes beyond the one that is shown so far, or none is, it is
/// shown from now on, with the case's first start.
fn take(
    alloc: Global,
    job: &Job,
    fork: &mut Fork<'_>,
    case: &Case,
    side: Side,
    shown: &mut Option<Shown>,
    book: &ShortcutBook,
) -> Result<(), ForkFault>
    requires at { IsAtCase (job_of job.now) fork.old case.now }
    ensures same { OnOk result (fork.new ≡ fork.old) }
    ensures taken { OnOk result ((cases : List (List Decided))
        → IsNextBehind (job_of job.now) fork.old.boundary cases case.now.prefix
        → IsExtreme (job_of job.now) fork.old.boundary side shown.old cases
        → IsExtreme (job_of job.now) fork.old.boundary side shown.new (cases ++ case.now.prefix ∷ [])) }
    ensures fault { IfErr result (λ e. e ≡ faults.NoMemory) }
{
    let length = Length::in_case(case);
    if !goes_beyond_shown(side, length, shown) {
        return Ok(());
    }
    let begin = fork.begin(alloc, job, book)?;
    *shown = Some(Shown { length, begin });
    Ok(())
}

/// The extreme lengths of the cases so far, where there are any.
#[derive(Drop)]
pub(crate) struct Extremes {
    /// The least.
    pub least: Option<Shown>,
    /// The greatest.
    pub greatest: Option<Shown>,
}

impl Visitor for Extremes {
    ghost use Rattle.mw_bounds.specs.Extremes.{AreExtremes};

    /// It goes through all cases.
    type Stop = ();

    ghost has_seen = { λ before now job number budget cases. AreExtremes job number budget.nodes now cases };

    ghost stops = { λ now job number budget bits stop. ⊥ };

    ghost compares = { false };

    fn visit(
        &mut self,
        alloc: Global,
        job: &Job,
        fork: &mut Fork<'_>,
        case: &Case,
        book: &ShortcutBook,
    ) -> Result<ControlFlow<()>, ForkFault> {
        take(alloc, job, fork, case, Side::Least, &mut self.least, book)?;
        take(
            alloc,
            job,
            fork,
            case,
            Side::Greatest,
            &mut self.greatest,
            book,
        )?;
        Ok(ControlFlow::Continue(()))
    }
}
