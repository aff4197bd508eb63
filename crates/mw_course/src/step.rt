// The described step of a case, on terms.
ghost use Rattle.std.specs.Prelude.{◌≡◌, ◌<◌, ◌≤◌, ℕ, IfOk, List, OnOk, Some, false};
ghost use Rattle.mw_macro.specs.Described.{description_of};
ghost use Rattle.mw_term.specs.declared.kinds.WordKind.TheVariants.{Line};
ghost use Rattle.mw_term.specs.WordList.{term_of};
ghost use Rattle.mw_symmem.specs.Memory.{IsOfWidth};
ghost use Rattle.mw_term.specs.Functions.{Function};
ghost use Rattle.mw_symmem.specs.Workspace.{IsLater};
ghost use Rattle.mw_symboard.specs.Turns.{Symbolic};
ghost use Rattle.mw_symmach.specs.Turns.{IsSaid, is_asked};
ghost use Rattle.mw_rel.specs.Views.{job_of};
ghost use Rattle.mw_term.specs.declared.decided.Decided.{Decided};
ghost use Rattle.mw_course.specs.OnWay.{HasMetSegment, IsOnStep, IsRunOf, IsTurnedOnStep};
ghost use Rattle.mw_course.specs.Runs.{HasLine};
ghost use Rattle.mw_course.specs.Steps.{IsUnderway};

use crate::run::Run;
use mw_base::NoMemory;
use mw_rel::Job;
use mw_space::Space;
use mw_symmach::{SymMach, steps_go_along};
use mw_symmem::{Turn, Words};
use mw_term::{Term, WordKind, Written};
use std::alloc::Global;

/// The line of the first cycle, which is the request of the step. `_terms` is for the contract alone.
fn request(_terms: &Written, words: &Words) -> Term
    requires { HasLine _terms.now words.now }
    ensures line { term_of words.now (Line 0) ≡ Some result }
    ensures wide { IsOfWidth _terms.now 1 result }
{
    match words.find(WordKind::Line(0)) {
        Some(line) => line,
        None => unreachable!(),
    }
}

/// A step that is at its first statement, behind a segment of the board.
pub(crate) fn begin(alloc: Global, job: &Job, run: &Run) -> Result<SymMach, NoMemory>
    requires under { IsRunOf (job_of job.now) run.now }
    requires some { 0 < run.now.board.place.cycle }
    requires few { run.now.board.place.cycle ≤ 500 }
    ensures under { IfOk result (IsUnderway (description_of job.now.machine)
        run.now.space.terms run.now.space.words run.now.space.memory) }
    ensures idle { IfOk result (λ s. is_asked s.pending ≡ false) }
    ensures goes { IfOk result (λ s. (number cycles : ℕ) (elements : List ℕ) (bits : List Decided)
        (path : Function) → HasMetSegment (job_of job.now) number elements cycles false bits path run.now
        → IsOnStep (job_of job.now) number elements cycles
        bits run.now.board bits run.now.space path s) }
{
    // A call for the proof: no two variables have one kind.
    let _ = run.space.words.count();
    let request = request(&run.space.terms, &run.space.words);
    let step = SymMach::new(alloc, &job.machine, run.registers.as_slice(), request)?;
    Ok(step)
}

/// Goes on to the next bit of the step, or to its end.
pub(crate) fn turn(
    alloc: Global,
    job: &Job,
    space: &mut Space,
    step: &mut SymMach,
) -> Result<Turn, NoMemory>
    requires under { IsUnderway (description_of job.now.machine) space.old.terms space.old.words
        space.old.memory step.old }
    requires idle { is_asked step.old.pending ≡ false }
    ensures under { OnOk result (IsUnderway (description_of job.now.machine)
        space.new.terms space.new.words space.new.memory step.new) }
    ensures said { IfOk result
        (IsSaid (description_of job.now.machine) space.new.terms space.new.words space.new.memory step.new) }
    ensures goes { IfOk result
        (λ turn. (number cycles : ℕ) (elements : List ℕ) (segment : List Decided)
        (board : Symbolic) (bits : List Decided) (path : Function)
        → IsOnStep (job_of job.now) number elements cycles segment board bits space.old path step.old
        → IsTurnedOnStep (job_of job.now) number elements cycles segment board bits space.new path step.new turn) }
    ensures later { OnOk result (IsLater space.old.terms space.new.terms) }
{
    // A law for the proof: a step goes along the bits that are given to it.
    steps_go_along();
    let turn = step.sym_step(
        alloc,
        &job.machine,
        &mut space.terms,
        &mut space.words,
        &mut space.memory,
    )?;
    // A call for the proof: no two variables have one kind.
    let _ = space.words.count();
    Ok(turn)
}
