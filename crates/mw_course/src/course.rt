// The course of a case: through the cycles of its segment, and behind that through the described step.
ghost use Rattle.std.specs.Prelude.{◌≡◌, ◌<◌, ℕ, List, [], Some, IfOk, OnOk, length, true};
ghost use Rattle.mw_term.specs.declared.decided.Decided.{Decided};
ghost use Rattle.mw_symmem.specs.Workspace.{IsLater};
ghost use Rattle.mw_term.specs.Cofactors.{Agree};
ghost use Rattle.mw_term.specs.Functions.{Function, always};
ghost use Rattle.mw_symmach.specs.Turns.{Stepping};
ghost use Rattle.mw_rel.specs.Views.{job_of};
ghost use Rattle.mw_course.specs.Courses.{HaveCome, IsGiven, IsGoing, IsOnCourse, IsOtherCourse, IsReady, IsTurned};
ghost use Rattle.mw_course.specs.Courses.{IsTurnedOnCourse, MayBeGiven, with_board};

use crate::registers::Registers;
use crate::run::Run;
use crate::segment::segment;
use crate::step::{begin, turn};
use mw_base::NoMemory;
use mw_rel::Job;
use mw_segment::Came;
use mw_symboard::SymBoard;
use mw_symmach::SymMach;
use mw_symmem::Turn;
use std::alloc::Global;

/// A course of a case.
#[derive(Drop)]
pub struct Course {
    /// The board's.
    pub run: Run,
    /// How many cycles of the segment are finished.
    pub cycles: u32,
    /// The described step, once the segment has ended at a boundary.
    pub step: Option<SymMach>,
}

/// Gives the bit that is waited for its value.
fn give(board: &mut SymBoard, step: &mut Option<SymMach>, value: bool)
    requires { MayBeGiven board.old step.old }
    ensures { IsGiven value board.old board.new step.old step.new }
{
    match step {
        Some(step) => step.decide(value),
        None => board.decide(value),
    }
}

/// Goes on to the next bit of the step, which is there, or to its end.
fn turn_step(
    alloc: Global,
    job: &Job,
    run: &mut Run,
    step: &mut Option<SymMach>,
) -> Result<Turn, NoMemory>
    requires ready { (number : ℕ) × (there : Stepping) × (step.old ≡ Some there)
        × IsReady (job_of job.now) number run.old (Some there) }
    ensures later { OnOk result (IsLater run.old.space.terms run.new.space.terms) }
    ensures board { OnOk result (run.new.board ≡ run.old.board) }
    ensures turned { IfOk result (λ turn. (number : ℕ) → IsTurned (job_of job.now) number run.new step.new turn) }
    ensures goes { IfOk result (λ turn. (number : ℕ) (elements : List ℕ) (bits : List Decided) (path : Function)
        → IsOnCourse (job_of job.now) number elements bits path run.old step.old
        → IsTurnedOnCourse (job_of job.now) number elements bits path run.new step.new turn) }
{
    match step {
        Some(step) => turn(alloc, job, &mut run.space, step),
        None => unreachable!(),
    }
}

/// The same step once more, if there is one.
fn copied(alloc: Global, step: &Option<SymMach>) -> Result<Option<SymMach>, NoMemory>
    ensures { IfOk result (λ copy. copy ≡ step.now) }
{
    match step {
        Some(step) => Ok(Some(step.copy(alloc)?)),
        None => Ok(None),
    }
}

impl Course {
    /// One that stands at the boundary of this number, and has made no cycle.
    ///
    /// # Errors
    ///
    /// Memory ran out.
    pub fn new(alloc: Global, job: &Job, boundary: usize) -> Result<Course, NoMemory>
        requires { boundary < length (job_of job.now).relation.boundaries }
        ensures { IfOk result (λ course. (path : Function) → Agree path always
            → IsGoing (job_of job.now) boundary [] path course) }
    {
        Ok(Course {
            run: Run::new(alloc, job, boundary)?,
            cycles: 0,
            step: None,
        })
    }

    /// Goes on to where the described step begins, if that isn't there yet: nothing where it is there then, and else
    /// what is waited for, or that the segment is late.
    fn to_step(
        &mut self,
        alloc: Global,
        job: &Job,
        boundary: usize,
    ) -> Result<Option<Turn>, NoMemory>
        requires boundary { boundary < length (job_of job.now).relation.boundaries }
        requires cycles { self.old.cycles ≡ self.old.run.board.place.cycle }
        requires ready { IsReady (job_of job.now) boundary self.old.run self.old.step }
        ensures cycles { OnOk result (self.new.cycles ≡ self.new.run.board.place.cycle) }
        ensures later { OnOk result (IsLater self.old.run.space.terms self.new.run.space.terms) }
        ensures come { IfOk result (HaveCome (job_of job.now) boundary self.old self.new) }
    {
        if self.step.is_some() {
            return Ok(None);
        }
        match segment(alloc, job, boundary, &mut self.run, &mut self.cycles)? {
            Came::Asks { kind, term } => Ok(Some(Turn::Ask { kind, term })),
            Came::Late => Ok(Some(Turn::Finished)),
            Came::Reached => {
                self.step = Some(begin(alloc, job, &self.run)?);
                Ok(None)
            }
        }
    }

    /// Goes on to the next bit of the case, or to its end.
    ///
    /// # Errors
    ///
    /// Memory ran out.
    pub fn turn(&mut self, alloc: Global, job: &Job, boundary: usize) -> Result<Turn, NoMemory>
        requires boundary { boundary < length (job_of job.now).relation.boundaries }
        requires cycles { self.old.cycles ≡ self.old.run.board.place.cycle }
        requires ready { IsReady (job_of job.now) boundary self.old.run self.old.step }
        ensures cycles { OnOk result (self.new.cycles ≡ self.new.run.board.place.cycle) }
        ensures later { OnOk result (IsLater self.old.run.space.terms self.new.run.space.terms) }
        ensures turned { IfOk result (IsTurned (job_of job.now) boundary self.new.run self.new.step) }
        ensures goes { IfOk result (λ turn. (elements : List ℕ) (bits : List Decided) (path : Function)
            → IsOnCourse (job_of job.now) boundary elements bits path self.old.run self.old.step
            → IsTurnedOnCourse (job_of job.now) boundary elements bits path self.new.run self.new.step turn) }
    {
        if let Some(turn) = self.to_step(alloc, job, boundary)? {
            return Ok(turn);
        }
        turn_step(alloc, job, &mut self.run, &mut self.step)
    }

    /// Gives the bit that is waited for its value.
    pub fn decide(&mut self, value: bool)
        requires { MayBeGiven self.old.run.board self.old.step }
        ensures given { IsGiven value self.old.run.board self.new.run.board self.old.step self.new.step }
        ensures run { self.new.run ≡ with_board self.old.run self.new.run.board }
        ensures cycles { self.new.cycles ≡ self.old.cycles }
    {
        give(&mut self.run.board, &mut self.step, value);
    }

    /// Another one over the same, for which the bit that is waited for is 1.
    ///
    /// # Errors
    ///
    /// Memory ran out.
    pub fn other(&self, alloc: Global) -> Result<Course, NoMemory>
        requires { MayBeGiven self.now.run.board self.now.step }
        ensures { IfOk result (IsOtherCourse self.now) }
    {
        let mut other = Course {
            run: Run {
                space: self.run.space.copy(alloc)?,
                board: self.run.board.copy(alloc)?,
                registers: self.run.registers.copy(alloc)?,
            },
            cycles: self.cycles,
            step: copied(alloc, &self.step)?,
        };
        give(&mut other.run.board, &mut other.step, true);
        Ok(other)
    }
}
