// How a course goes through a case of the twin starts at a block.
ghost use Rattle.std.specs.Prelude.{◌≡◌, IfOk, IfSome};
ghost use Rattle.std.specs.Option.{is_some};
ghost use Rattle.mw_twin.specs.Courses.{MayBeGiven};
ghost use Rattle.mw_twinfork.specs.Traces.{IsOther};
ghost use Rattle.mw_twinfork.specs.TwinCases.{Asks, HasCome, HasGoneThrough, IsCaseAt, IsComparisonOverAt, IsEndAt};
ghost use Rattle.mw_twinfork.specs.TwinCases.{IsFoundAt, IsOverAt, IsWaitingAt};

use crate::found::differing;
use crate::traced::{end_of, first_course, other_course};
use crate::twins::{TwinEnd, Twins};
use mw_base::NoMemory;
use mw_dd::Dd;
use mw_decide::{Place, RunStop, Traced, Waiting, decide};
use mw_explore::{CaseTree, Choice, ComparedTree};
use mw_revise::one_twin_case_is_first;
use mw_symmem::Turn;
use mw_term::{DecidedKind, ShortcutBook, Term, stands_with_more};
use mw_twin::{Course, TwinStarts, courses_take_bits};
use std::alloc::Global;

/// The course that waits with 1 for the bit that is waited for, where there is a path for that.
fn other_of(
    alloc: Global,
    traced: &Traced<Course>,
    other: Option<Dd>,
) -> Result<Option<Waiting<Course>>, NoMemory>
    requires { MayBeGiven traced.now.course.old_board traced.now.course.new_board }
    ensures same { IfOk result (λ waiting. is_some waiting ≡ is_some other) }
    ensures other { IfOk result (λ waiting. IfSome waiting (λ w. IfSome other (λ path. IsOther traced.now path w))) }
{
    match other {
        Some(path) => Ok(Some(other_course(alloc, traced, path)?)),
        None => Ok(None),
    }
}

impl<'a> CaseTree for Twins<'a> {
    type Course = Traced<Course>;

    type Waiting = Waiting<Course>;

    type End = TwinEnd;

    type Place = Place;

    ghost is_case = { IsCaseAt };

    ghost has_come = { HasCome };

    ghost asks = { Asks };

    ghost has_gone = { HasGoneThrough };

    ghost is_waiting = { IsWaitingAt };

    ghost ends = { IsEndAt };

    ghost is_over = { IsOverAt };

    fn are_in_order(&self) {
        // A law for the proof: of two cases one comes before the other.
        one_twin_case_is_first();
    }

    fn begin(&self, alloc: Global) -> Result<Traced<Course>, NoMemory> {
        let course = first_course(alloc, &self.revised)?;
        Ok(course)
    }

    fn turn(&self, alloc: Global, course: &mut Traced<Course>) -> Result<Turn, NoMemory> {
        let turn = course.course.turn(alloc, &self.revised)?;
        Ok(turn)
    }

    fn decide(
        &self,
        alloc: Global,
        course: &mut Traced<Course>,
        _kind: DecidedKind,
        term: Term,
        book: &ShortcutBook,
    ) -> Result<Choice<Waiting<Course>>, RunStop> {
        // Laws for the proof: what stands in a table goes on to stand there when more is in it, and a course goes on by
        // the bits that are given to it.
        stands_with_more();
        courses_take_bits();
        let decision = decide(
            alloc,
            &course.course.space,
            &mut course.paths,
            term,
            self.nodes,
            book,
        )?;
        let other = other_of(alloc, course, decision.other)?;
        course.course.decide(decision.value);
        Ok(Choice {
            value: decision.value,
            other,
        })
    }

    fn end(&self, course: &Traced<Course>) -> TwinEnd {
        end_of(&course.course)
    }

    fn go_on(&self, waiting: Waiting<Course>, made: Traced<Course>) -> Traced<Course> {
        waiting.over(made.into_paths())
    }
}

impl<'a> ComparedTree for Twins<'a> {
    type Found = TwinStarts;

    ghost is_found = { IsFoundAt };

    ghost is_comparison_over = { IsComparisonOverAt };

    fn compare(
        &self,
        alloc: Global,
        course: &mut Traced<Course>,
        book: &ShortcutBook,
    ) -> Result<Option<TwinStarts>, RunStop> {
        differing(alloc, self, course, book)
    }
}
