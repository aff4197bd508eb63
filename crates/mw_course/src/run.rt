// A run of a board from a boundary, on terms.
ghost use Rattle.std.specs.Prelude.{◌≡◌, ◌<◌, ℕ, List, IfOk, OnOk, None, drop, length, take};
ghost use Rattle.mw_board.specs.Elements.{element_count};
ghost use Rattle.mw_symmem.specs.Workspace.{IsLater};
ghost use Rattle.mw_term.specs.Cofactors.{Agree};
ghost use Rattle.mw_term.specs.Functions.{Function, always};
ghost use Rattle.mw_rel.specs.Views.{job_of};
ghost use Rattle.mw_course.specs.OnWay.{IsFirst, IsRunOf, Turns};
ghost use Rattle.mw_course.specs.Runs.{IsIdle, IsTurned};

use crate::elements::elements_at;
use crate::registers::Registers;
use mw_base::NoMemory;
use mw_rel::Job;
use mw_space::Space;
use mw_symboard::SymBoard;
use mw_symmem::Turn;
use mw_term::Term;
use std::alloc::Global;

/// A run from a boundary, on terms.
#[derive(Drop)]
pub struct Run {
    /// What it works on.
    pub space: Space,
    /// The board.
    pub board: SymBoard,
    /// The terms of the machine's registers at the start.
    pub registers: Registers,
}

/// The terms of the board's elements.
fn board_terms<'a>(job: &Job, terms: &'a [Term]) -> &'a [Term]
    requires { length terms.now ≡ length (job_of job.now).relation.shape.widths }
    ensures { result.now ≡ take (element_count (job_of job.now).board) terms.now }
{
    // A call for the proof: the board's elements are some of all.
    let _ = job.element_count();
    let count = job.board.element_count();
    &terms[..count]
}

/// The terms of the machine's registers.
fn register_terms<'a>(job: &Job, terms: &'a [Term]) -> &'a [Term]
    requires { length terms.now ≡ length (job_of job.now).relation.shape.widths }
    ensures { result.now ≡ drop (element_count (job_of job.now).board) terms.now }
{
    // A call for the proof: the board's elements are some of all.
    let _ = job.element_count();
    let count = job.board.element_count();
    &terms[count..]
}

impl Run {
    /// A run that stands at the boundary of this number, and has made no cycle.
    ///
    /// # Errors
    ///
    /// Memory ran out.
    pub fn new(alloc: Global, job: &Job, boundary: usize) -> Result<Run, NoMemory>
        requires boundary { boundary < length (job_of job.now).relation.boundaries }
        ensures under { IfOk result (IsRunOf (job_of job.now)) }
        ensures idle { IfOk result (λ r. IsIdle r.board 0) }
        ensures first { IfOk result (λ r. (elements : List ℕ)
            × ((path : Function) → Agree path always → IsFirst (job_of job.now) boundary elements path r)) }
    {
        let start = elements_at(alloc, job, boundary)?;
        let at = job.boundary(boundary);
        let board = SymBoard::new(
            alloc,
            &job.board,
            at.address,
            at.sp,
            board_terms(job, &start.terms),
        )?;
        let registers = Registers::new(alloc, register_terms(job, &start.terms))?;
        Ok(Run {
            space: start.space,
            board,
            registers,
        })
    }

    /// Goes on to the next bit of the cycle, or to its end.
    ///
    /// # Errors
    ///
    /// Memory ran out.
    pub fn turn(&mut self, alloc: Global, job: &Job) -> Result<Turn, NoMemory>
        requires under { IsRunOf (job_of job.now) self.old }
        requires idle { self.old.board.asked ≡ None }
        requires few { self.old.board.place.cycle < 500 }
        ensures turned { IfOk result (IsTurned (job_of job.now) self.old.board.place
            self.new.space.terms self.new.space.words self.new.space.memory self.new.board self.new.registers) }
        ensures goes { IfOk result (Turns (job_of job.now) self.old self.new) }
        ensures later { OnOk result (IsLater self.old.space.terms self.new.space.terms) }
    {
        let turn = self.board.sym_cycle(
            alloc,
            &job.board,
            &job.store,
            &mut self.space.terms,
            &mut self.space.words,
            &mut self.space.memory,
        )?;
        // A call for the proof: no two variables have one kind.
        let _ = self.space.words.count();
        Ok(turn)
    }

    /// The control address.
    pub fn at(&self) -> u16
        ensures { result ≡ self.now.board.place.at }
    {
        self.board.at()
    }
}
