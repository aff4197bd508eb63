// How a course goes through a case of the starts at a boundary.
ghost use Rattle.std.specs.Prelude.{◌≡◌, IfOk, IfSome};
ghost use Rattle.std.specs.Option.{is_some};
ghost use Rattle.mw_course.specs.Courses.{MayBeGiven};
ghost use Rattle.mw_fork.specs.StartCases.{Asks, IsEndAt, HasCome, HasGoneThrough, IsCaseAt, IsComparisonOverAt};
ghost use Rattle.mw_fork.specs.StartCases.{IsFoundAt, IsOverAt, IsWaitingAt};
ghost use Rattle.mw_fork.specs.Traces.{IsOther};

use crate::found::differing;
use crate::starts::{Ended, Starts};
use crate::traced::{first_course, other_course};
use mw_base::NoMemory;
use mw_course::Course;
use mw_dd::Dd;
use mw_decide::{Place, RunStop, Traced, Waiting, decide};
use mw_explore::{CaseTree, Choice, ComparedTree};
use mw_macro::words_are_numbered;
use mw_rel::{Begin, words_of_cases_are_numbered};
use mw_symboard::words_of_cycles_are_numbered;
use mw_symmach::steps_go_along;
use mw_symmem::Turn;
use mw_term::{DecidedKind, ShortcutBook, Term, stands_with_more};
use std::alloc::Global;

/// The course that waits with 1 for the bit that is waited for, where there is a path for that.
fn other_of(
    alloc: Global,
    traced: &Traced<Course>,
    other: Option<Dd>,
) -> Result<Option<Waiting<Course>>, NoMemory>
    requires { MayBeGiven traced.now.course.run.board traced.now.course.step }
    ensures same { IfOk result (λ waiting. is_some waiting ≡ is_some other) }
    ensures other { IfOk result (λ waiting. IfSome waiting (λ w. IfSome other (λ path. IsOther traced.now path w))) }
{
    match other {
        Some(path) => Ok(Some(other_course(alloc, traced, path)?)),
        None => Ok(None),
    }
}

impl<'a> CaseTree for Starts<'a> {
    type Course = Traced<Course>;

    type Waiting = Waiting<Course>;

    type End = Ended;

    type Place = Place;

    ghost is_case = { IsCaseAt };

    ghost has_come = { HasCome };

    ghost asks = { Asks };

    ghost has_gone = { HasGoneThrough };

    ghost is_waiting = { IsWaitingAt };

    ghost ends = { IsEndAt };

    ghost is_over = { IsOverAt };

    fn are_in_order(&self) {}

    fn begin(&self, alloc: Global) -> Result<Traced<Course>, NoMemory> {
        let course = first_course(alloc, self.job, self.boundary)?;
        Ok(course)
    }

    fn turn(&self, alloc: Global, course: &mut Traced<Course>) -> Result<Turn, NoMemory> {
        let turn = course.course.turn(alloc, self.job, self.boundary)?;
        Ok(turn)
    }

    fn decide(
        &self,
        alloc: Global,
        course: &mut Traced<Course>,
        _kind: DecidedKind,
        term: Term,
        book: &ShortcutBook,
    ) -> Result<Choice<Waiting<Course>>, RunStop> {
        // Laws for the proof: what stands in a table goes on to stand there when more is in it, and a step goes along
        // the bits that are given to it; and each term of the word list that is no constant has a word.
        stands_with_more();
        steps_go_along();
        words_of_cases_are_numbered();
        words_of_cycles_are_numbered();
        words_are_numbered();
        let decision = decide(
            alloc,
            &course.course.run.space,
            &mut course.paths,
            term,
            self.nodes,
            book,
        )?;
        let other = other_of(alloc, course, decision.other)?;
        course.course.decide(decision.value);
        Ok(Choice {
            value: decision.value,
            other,
        })
    }

    fn end(&self, course: &Traced<Course>) -> Ended {
        Ended {
            cycles: course.course.cycles,
            late: course.course.step.is_none(),
        }
    }

    fn go_on(&self, waiting: Waiting<Course>, made: Traced<Course>) -> Traced<Course> {
        waiting.over(made.into_paths())
    }
}

impl<'a> ComparedTree for Starts<'a> {
    type Found = Begin;

    ghost is_found = { IsFoundAt };

    ghost is_comparison_over = { IsComparisonOverAt };

    fn compare(
        &self,
        alloc: Global,
        course: &mut Traced<Course>,
        book: &ShortcutBook,
    ) -> Result<Option<Begin>, RunStop> {
        differing(alloc, self.job, self.boundary, course, self.nodes, book)
    }
}
