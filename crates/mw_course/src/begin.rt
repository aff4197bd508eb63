// The start that an assignment gives.
ghost use Rattle.std.specs.Prelude.{◌≡◌, ℕ, ◌<◌, List, [], ◌∷◌, ◌++◌, filter, length, map, IfOk, OnOk};
ghost use Rattle.mw_term.specs.declared.kinds.WordKind.TheVariants.{Element};
ghost use Rattle.mw_term.specs.Assigned.{given_by};
ghost use Rattle.mw_term.specs.WordList.{term_of};
ghost use Rattle.mw_symmem.specs.Words.{AreOf};
ghost use Rattle.mw_rel.specs.Begin.{free_elements};
ghost use Rattle.mw_rel.specs.Free.{is_free, numbered};
ghost use Rattle.mw_ready.specs.Thinned.{always_ready};
ghost use Rattle.mw_rel.specs.SteadyStart.{Start};
ghost use Rattle.mw_rel.specs.Views.{job_of};
ghost use Rattle.mw_course.specs.Begins.{IsAssigned, IsChosen, value_or_zero};
ghost use Rattle.mw_course.specs.Listed.{list_of_space};
ghost use Rattle.mw_course.specs.OnWay.{ground_in};
ghost use Rattle.mw_course.specs.Starts.{IsGround, StandsForStart};

use mw_base::NoMemory;
use mw_rel::{Begin, Job, free};
use mw_space::{Space, environment_of};
use mw_term::{Assignment, Side, WordKind};
use std::alloc::Global;

/// The value of the variable of a kind; 0 where there is none.
fn kind_value(
    alloc: Global,
    space: &Space,
    kind: WordKind,
    given: &Assignment,
) -> Result<u32, NoMemory>
    requires { AreOf space.now.terms space.now.words }
    ensures { IfOk result (λ value. value
        ≡ value_or_zero space.now.terms (given_by given.now) (term_of space.now.words kind)) }
{
    match space.words.find(kind) {
        Some(term) => space.terms.value(alloc, term, given),
        None => Ok(0),
    }
}

/// The value of an element, where it is free.
fn push_free(
    alloc: Global,
    job: &Job,
    boundary: usize,
    space: &Space,
    given: &Assignment,
    number: usize,
    values: &mut Vec<u32>,
) -> Result<(), NoMemory>
    requires there { boundary < length (job_of job.now).relation.boundaries }
    requires few { number < 174 }
    requires of { AreOf space.now.terms space.now.words }
    ensures { OnOk result (values.new.items ≡ values.old.items ++ map
        (λ e. value_or_zero space.now.terms (given_by given.now) (term_of space.now.words (Element e)))
        (filter (is_free (numbered (job_of job.now) boundary)) (number ∷ []))) }
{
    let element = number as u32;
    if !free(job, boundary, element) {
        return Ok(());
    }
    let value = kind_value(alloc, space, WordKind::Element(element), given)?;
    values.push(value)?;
    Ok(())
}

/// The values of the free elements, in the order of their numbers.
fn free_values(
    alloc: Global,
    job: &Job,
    boundary: usize,
    space: &Space,
    given: &Assignment,
) -> Result<Vec<u32>, NoMemory>
    requires there { boundary < length (job_of job.now).relation.boundaries }
    requires of { AreOf space.now.terms space.now.words }
    ensures { IfOk result (λ values. values.items ≡ map
        (λ e. value_or_zero space.now.terms (given_by given.now) (term_of space.now.words (Element e)))
        (free_elements (job_of job.now) (numbered (job_of job.now) boundary))) }
{
    let mut values = Vec::new(alloc);
    for number in 0..job.element_count() {
        push_free(alloc, job, boundary, space, given, number, &mut values)?;
    }
    Ok(values)
}

/// What an assignment gives at a boundary: the values of the free elements' variables, an image that the base reads
/// fit, and the environment with the values of its variables, without waits.
///
/// # Errors
///
/// Memory ran out.
pub fn begin_of(
    alloc: Global,
    job: &Job,
    boundary: usize,
    space: &Space,
    given: &Assignment,
) -> Result<Begin, NoMemory>
    requires stands { (elements : List ℕ) × IsGround (job_of job.now) boundary (ground_in space.now elements) }
    ensures assigned { IfOk result (λ begin.
        IsAssigned (job_of job.now) boundary (list_of_space space.now) (given_by given.now) begin) }
    ensures start { IfOk result
        (λ begin. (elements : List ℕ) → IsGround (job_of job.now) boundary (ground_in space.now elements)
        → (start : Start) × IsChosen (job_of job.now) boundary begin (always_ready start)
        × StandsForStart (job_of job.now) boundary (ground_in space.now elements) (given_by given.now) start) }
{
    let values = free_values(alloc, job, boundary, space, given)?;
    let memory = space.memory.image_of(alloc, &space.terms, given)?;
    let env = environment_of(alloc, Side::Board, space, given)?;
    Ok(Begin {
        values,
        memory,
        env,
    })
}
