// The starts of a case that a course has gone through: the first of all, and the first that differs.
ghost use Rattle.std.specs.Prelude.{◌≡◌, ℕ, List, Option, IfErr, IfOk, OnOk};
ghost use Rattle.mw_term.specs.declared.decided.Decided.{Decided};
ghost use Rattle.mw_rel.specs.Views.{job_of};
ghost use Rattle.mw_fork.specs.Begins.{IsFirstOfCase, IsOfCase};
ghost use Rattle.mw_fork.specs.Traces.{HasGone, IsWaiting, StaysAs, over_places, Waiting};
ghost use Rattle.mw_fork.specs.Failing.{ComparisonStops, IsFoundOf};

use crate::comparing::first_failing;
use mw_base::NoMemory;
use mw_course::{Course, begin_of};
use mw_decide::{RunStop, Traced};
use mw_rel::{Begin, Job};
use mw_space::Space;
use mw_term::{Places, ShortcutBook, stands_with_more};
use std::alloc::Global;

/// The first start of a case that a course has gone through: what the first assignment gives under which its path is
/// true.
pub(crate) fn first_start(
    alloc: Global,
    job: &Job,
    boundary: usize,
    traced: &Traced<Course>,
) -> Result<Begin, NoMemory>
    requires gone { (bits : List Decided) × HasGone (job_of job.now) boundary bits traced.now }
    ensures of_case { IfOk result (λ begin. (bits : List Decided)
        → HasGone (job_of job.now) boundary bits traced.now → IsOfCase (job_of job.now) boundary bits begin) }
    ensures first { IfOk result (λ begin. (bits : List Decided)
        → HasGone (job_of job.now) boundary bits traced.now → IsFirstOfCase (job_of job.now) boundary bits begin) }
{
    let Some(given) = traced.paths.first_assignment(alloc)? else {
        // The case is feasible, so an assignment takes its path.
        unreachable!()
    };
    begin_of(alloc, job, boundary, &traced.course.run.space, &given)
}

/// A start of the case that differs: the first of those that are sought.
fn sought(
    alloc: Global,
    job: &Job,
    boundary: usize,
    traced: &mut Traced<Course>,
    nodes: u32,
    book: &ShortcutBook,
) -> Result<Option<Begin>, RunStop>
    requires gone { (bits : List Decided) × HasGone (job_of job.now) boundary bits traced.old }
    ensures stays { OnOk result (StaysAs traced.old traced.new) }
    ensures found { IfOk result (λ found. (bits : List Decided) → HasGone (job_of job.now) boundary bits traced.old
        → IsFoundOf (job_of job.now) boundary nodes bits found) }
    ensures over { IfErr result (λ stop. (bits : List Decided) → HasGone (job_of job.now) boundary bits traced.old
        → ComparisonStops (job_of job.now) boundary nodes bits stop) }
{
    match first_failing(alloc, job, boundary, traced, nodes, book) {
        Ok(None) => Ok(None),
        Ok(Some(given)) => {
            let begin = begin_of(alloc, job, boundary, &traced.course.run.space, &given)?;
            Ok(Some(begin))
        }
        Err(stop) => Err(stop),
    }
}

/// Puts back what a course worked on, and where that stands.
fn restore(traced: &mut Traced<Course>, space: Space, places: Places)
    ensures space { traced.new.course.run.space ≡ space }
    ensures paths { traced.new.paths ≡ over_places traced.old.paths places }
    ensures board { traced.new.course.run.board ≡ traced.old.course.run.board }
    ensures registers { traced.new.course.run.registers ≡ traced.old.course.run.registers }
    ensures cycles { traced.new.course.cycles ≡ traced.old.course.cycles }
    ensures step { traced.new.course.step ≡ traced.old.course.step }
{
    traced.course.run.space = space;
    traced.paths.places = places;
}

/// A start of the case that differs, if there is one. The course has gone through the case as before: what is written
/// for a comparison is no word of the case.
pub(crate) fn differing(
    alloc: Global,
    job: &Job,
    boundary: usize,
    traced: &mut Traced<Course>,
    nodes: u32,
    book: &ShortcutBook,
) -> Result<Option<Begin>, RunStop>
    requires gone { (bits : List Decided) × HasGone (job_of job.now) boundary bits traced.old }
    ensures gone { OnOk result ((bits : List Decided) → HasGone (job_of job.now) boundary bits traced.old
        → HasGone (job_of job.now) boundary bits traced.new) }
    ensures waiting { OnOk result ((w : Waiting) (bits : List Decided)
        → IsWaiting (job_of job.now) boundary traced.old.paths bits w
        → IsWaiting (job_of job.now) boundary traced.new.paths bits w) }
    ensures found { IfOk result (λ found. (bits : List Decided) → HasGone (job_of job.now) boundary bits traced.old
        → IsFoundOf (job_of job.now) boundary nodes bits found) }
    ensures over { IfErr result (λ stop. (bits : List Decided) → HasGone (job_of job.now) boundary bits traced.old
        → ComparisonStops (job_of job.now) boundary nodes bits stop) }
{
    // A law for the proof: what stands in a table goes on to stand there when more is in it.
    stands_with_more();
    let space = traced.course.run.space.copy(alloc)?;
    let places = traced.paths.places.copy(alloc)?;
    let begin = sought(alloc, job, boundary, traced, nodes, book)?;
    restore(traced, space, places);
    Ok(begin)
}
