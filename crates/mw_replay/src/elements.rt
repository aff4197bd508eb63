// The elements of both sides as a line of a start may set them, and the values of the free ones.
ghost use Rattle.std.specs.Prelude.{◌≡◌, ◌<◌, ◌≤◌, ◌^◌, ◌++◌, ◌∷◌, [], IfOk, OnOk, cond, length, map, slice_index};
ghost use Rattle.mw_rel.specs.Begin.{free_elements};
ghost use Rattle.mw_rel.specs.Free.{is_free, numbered};
ghost use Rattle.mw_rel.specs.Views.{job_of};
ghost use Rattle.mw_sim.specs.Settings.{AreBounded};
ghost use Rattle.mw_replay.specs.CounterText.{owner_of, name_of, settable, settables_of};

use mw_base::{Name, NoMemory};
use mw_rel::{Job, free};
use mw_sim::{Owner, Settable, two_to};
use std::alloc::Global;

/// Whose the element with a number is.
pub(crate) fn owner_of(job: &Job, number: usize) -> Owner
    ensures { result ≡ owner_of (job_of job.now) number }
{
    if number < job.board.element_count() {
        Owner::Board
    } else {
        Owner::Machine
    }
}

/// The name of the element with a number.
pub(crate) fn name_of(job: &Job, number: usize) -> &[u8]
    requires { number < length (job_of job.now).relation.shape.widths }
    ensures { result.now ≡ name_of (job_of job.now) number }
{
    // A call for the proof: its clauses say how many elements both sides have.
    let _ = job.element_count();
    let count = job.board.element_count();
    if number < count {
        // Each of these numbers has an element, so there is a name.
        job.board.element_name(number).unwrap_or(&[])
    } else {
        job.machine.names()[number - count].as_slice()
    }
}

/// The least number that is no value of the element with a number.
fn bound_of(job: &Job, number: usize) -> u64
    requires { number < length (job_of job.now).relation.shape.widths }
    ensures exact { result ≡ 2 ^ slice_index (job_of job.now).relation.shape.widths number }
    ensures some { 0 < result }
    ensures most { result ≤ 2 ^ 32 }
{
    two_to(job.shape().widths.as_slice()[number])
}

/// The element with a number as a line may set it at a boundary.
fn settable(alloc: Global, job: &Job, boundary: usize, number: usize) -> Result<Settable, NoMemory>
    requires there { boundary < length (job_of job.now).relation.boundaries }
    requires element { number < length (job_of job.now).relation.shape.widths }
    ensures exact { IfOk result (λ element.
        element ≡ settable (job_of job.now) (numbered (job_of job.now) boundary) number) }
    ensures bounded { IfOk result (λ element. (0 < element.bound) × (element.bound ≤ 2 ^ 32)) }
{
    // A call for the proof: its clause `few` says that the numbers are small.
    let _ = job.element_count();
    Ok(Settable {
        owner: owner_of(job, number),
        name: Name::new(alloc, name_of(job, number))?,
        bound: bound_of(job, number),
        is_free: free(job, boundary, number as u32),
    })
}

/// The elements of both sides as lines may set them at a boundary.
pub(crate) fn settables_of(
    alloc: Global,
    job: &Job,
    boundary: usize,
) -> Result<Vec<Settable>, NoMemory>
    requires there { boundary < length (job_of job.now).relation.boundaries }
    ensures exact { IfOk result (λ elements.
        elements.items ≡ settables_of (job_of job.now) (numbered (job_of job.now) boundary)) }
    ensures bounded { IfOk result (λ elements. AreBounded elements.items) }
{
    let mut elements = Vec::new(alloc);
    for number in 0..job.element_count() {
        elements.push(settable(alloc, job, boundary, number)?)?;
    }
    Ok(elements)
}

/// Appends the value of an element where it is free at a boundary.
fn push_free(
    chosen: &mut Vec<u32>,
    job: &Job,
    boundary: usize,
    number: usize,
    value: u32,
) -> Result<(), NoMemory>
    requires there { boundary < length (job_of job.now).relation.boundaries }
    requires few { number < 2 ^ 32 }
    ensures { OnOk result (chosen.new.items ≡ chosen.old.items
        ++ cond (is_free (numbered (job_of job.now) boundary) number) (value ∷ []) []) }
{
    if free(job, boundary, number as u32) {
        chosen.push(value)?;
    }
    Ok(())
}

/// The values of the elements that are free at a boundary, by number, of the values of all.
pub(crate) fn free_values(
    alloc: Global,
    job: &Job,
    boundary: usize,
    values: &[u32],
) -> Result<Vec<u32>, NoMemory>
    requires there { boundary < length (job_of job.now).relation.boundaries }
    requires each { length values.now ≡ length (job_of job.now).relation.shape.widths }
    ensures { IfOk result (λ chosen. chosen.items ≡ map (slice_index values.now)
        (free_elements (job_of job.now) (numbered (job_of job.now) boundary))) }
{
    let mut chosen = Vec::new(alloc);
    for number in 0..job.element_count() {
        push_free(&mut chosen, job, boundary, number, values[number])?;
    }
    Ok(chosen)
}
