// The twin start of a case that differs.
ghost use Rattle.std.specs.Prelude.{◌≡◌, IfErr, IfOk, List, OnOk};
ghost use Rattle.mw_decide.specs.Traces.{over_places};
ghost use Rattle.mw_revise.specs.Kept.{IsBlock};
ghost use Rattle.mw_space.specs.Spaces.{list_of_space};
ghost use Rattle.mw_term.specs.Assigned.{given_by};
ghost use Rattle.mw_term.specs.declared.decided.Decided.{Decided};
ghost use Rattle.mw_twin.specs.Assigned.{IsTwinAssigned, twins_of};
ghost use Rattle.mw_twin.specs.Courses.{HasElementTerms, ground_of};
ghost use Rattle.mw_twin.specs.Grounds.{StandsForTwins};
ghost use Rattle.mw_twin.specs.Origins.{IsGround};
ghost use Rattle.mw_twin.specs.RevisedBlocks.{IsRevisedBlock};
ghost use Rattle.mw_twinfork.specs.Found.{ComparisonStops, IsFoundOf};
ghost use Rattle.mw_twinfork.specs.Traces.{HasGone, IsWaiting, StaysAs, Waiting};

use crate::twins::Twins;
use mw_base::NoMemory;
use mw_decide::{RunStop, Traced};
use mw_space::Space;
use mw_term::{Assignment, Places, ShortcutBook, stands_with_more};
use mw_twin::{Course, RevisedBlock, TwinStarts, starts_of};
use mw_twincompare::first_failing;
use std::alloc::Global;

/// The twin start that an assignment gives, on what a course works on.
fn starts_at(
    alloc: Global,
    revised: &RevisedBlock,
    course: &Course,
    given: &Assignment,
) -> Result<TwinStarts, NoMemory>
    requires block { IsBlock revised.now.revision.board revised.now.block }
    requires ground { IsGround revised.now.revision.board revised.now.block (ground_of course.now) }
    requires terms { HasElementTerms revised.now course.now }
    ensures stands { IfOk result (λ starts. IsRevisedBlock revised.now
        → StandsForTwins revised.now.revision revised.now.block (ground_of course.now) (given_by given.now)
        (twins_of revised.now.block starts)) }
    ensures assigned { IfOk result (IsTwinAssigned revised.now.revision.board revised.now.block
        (list_of_space course.now.space) (given_by given.now)) }
{
    let revision = revised.revision;
    let starts = starts_of(
        alloc,
        &revision.board,
        revised.block,
        &course.space,
        &course.old_elements,
        &course.new_elements,
        given,
    )?;
    Ok(starts)
}

/// The twin start of the case that differs: the first of those that are sought.
fn sought(
    alloc: Global,
    twins: &Twins,
    traced: &mut Traced<Course>,
    book: &ShortcutBook,
) -> Result<Option<TwinStarts>, RunStop>
    requires { (bits : List Decided) × HasGone twins.now.revised bits traced.old }
    ensures stays { OnOk result (StaysAs traced.old traced.new) }
    ensures found { IfOk result (λ found. (bits : List Decided) → HasGone twins.now.revised bits traced.old
        → IsFoundOf twins.now.revised twins.now.nodes bits found) }
    ensures over { IfErr result (λ stop. (bits : List Decided) → HasGone twins.now.revised bits traced.old
        → ComparisonStops twins.now.revised twins.now.nodes bits stop) }
{
    let revised = &twins.revised;
    match first_failing(
        alloc,
        revised,
        &mut traced.course,
        &mut traced.paths,
        twins.nodes,
        book,
    ) {
        Ok(None) => Ok(None),
        Ok(Some(given)) => {
            let starts = starts_at(alloc, revised, &traced.course, &given)?;
            Ok(Some(starts))
        }
        Err(stop) => Err(stop),
    }
}

/// Puts back what a course worked on, and where that stands.
fn restore(traced: &mut Traced<Course>, space: Space, places: Places)
    ensures space { traced.new.course.space ≡ space }
    ensures paths { traced.new.paths ≡ over_places traced.old.paths places }
    ensures old_elements { traced.new.course.old_elements ≡ traced.old.course.old_elements }
    ensures new_elements { traced.new.course.new_elements ≡ traced.old.course.new_elements }
    ensures old_board { traced.new.course.old_board ≡ traced.old.course.old_board }
    ensures new_board { traced.new.course.new_board ≡ traced.old.course.new_board }
    ensures late { traced.new.course.late ≡ traced.old.course.late }
{
    traced.course.space = space;
    traced.paths.places = places;
}

/// A twin start of the case that differs, if there is one. The course has gone through the case as before: what is
/// written for a comparison is no word of the case.
pub(crate) fn differing(
    alloc: Global,
    twins: &Twins,
    traced: &mut Traced<Course>,
    book: &ShortcutBook,
) -> Result<Option<TwinStarts>, RunStop>
    requires { (bits : List Decided) × HasGone twins.now.revised bits traced.old }
    ensures gone { OnOk result ((bits : List Decided) → HasGone twins.now.revised bits traced.old
        → HasGone twins.now.revised bits traced.new) }
    ensures waiting { OnOk result ((w : Waiting) (bits : List Decided)
        → IsWaiting twins.now.revised traced.old.paths bits w
        → IsWaiting twins.now.revised traced.new.paths bits w) }
    ensures found { IfOk result (λ found. (bits : List Decided) → HasGone twins.now.revised bits traced.old
        → IsFoundOf twins.now.revised twins.now.nodes bits found) }
    ensures over { IfErr result (λ stop. (bits : List Decided) → HasGone twins.now.revised bits traced.old
        → ComparisonStops twins.now.revised twins.now.nodes bits stop) }
{
    // A law for the proof: what stands in a table goes on to stand there when more is in it.
    stands_with_more();
    let space = traced.course.space.copy(alloc)?;
    let places = traced.paths.places.copy(alloc)?;
    let starts = sought(alloc, twins, traced, book)?;
    restore(traced, space, places);
    Ok(starts)
}
