// The start of a console run.
ghost use Rattle.std.specs.Prelude.{◌≡◌, ◌<◌, ◌^◌, ◌++◌, ◌∷◌, [], IfOk, OnOk, cond, length, map, slice_index};
ghost use Rattle.mw_rel.specs.Begin.{free_elements};
ghost use Rattle.mw_rel.specs.Free.{is_free, numbered};
ghost use Rattle.mw_rel.specs.Views.{job_of};
ghost use Rattle.mw_replay.specs.Counter.{counter_at};
ghost use Rattle.mw_pal.specs.Talk.{first_value, pal_counter, with_inputs};

use crate::first_pass::FIRST;
use crate::fits::is_program_counter;
use mw_base::NoMemory;
use mw_cycle::Env;
use mw_rel::{Begin, Job, free};
use mw_replay::Counter;
use std::alloc::Global;

/// The value of a free element: of the program counter the first instruction's address, and of others 0.
fn first_value(job: &Job, number: usize) -> u32
    requires { number < length (job_of job.now).relation.shape.widths }
    ensures { result ≡ first_value (job_of job.now) number }
{
    if is_program_counter(job, number) {
        u32::from(FIRST)
    } else {
        0
    }
}

/// Appends the value of an element where it is free at the first boundary.
fn push_first(values: &mut Vec<u32>, job: &Job, number: usize) -> Result<(), NoMemory>
    requires { number < length (job_of job.now).relation.shape.widths }
    ensures { OnOk result (values.new.items ≡ values.old.items
        ++ cond (is_free (numbered (job_of job.now) 0) number) (first_value (job_of job.now) number ∷ []) []) }
{
    // A call for the proof: its clause `few` says that the numbers are small.
    let _ = job.element_count();
    if free(job, 0, number as u32) {
        values.push(first_value(job, number))?;
    }
    Ok(())
}

/// The values of the elements that are free at the first boundary, by number.
fn first_values(alloc: Global, job: &Job) -> Result<Vec<u32>, NoMemory>
    ensures { IfOk result (λ values. values.items
        ≡ map (first_value (job_of job.now)) (free_elements (job_of job.now) (numbered (job_of job.now) 0))) }
{
    let mut values = Vec::new(alloc);
    for number in 0..job.element_count() {
        push_first(&mut values, job, number)?;
    }
    Ok(values)
}

/// What the start of a console run is chosen by, with this memory and no input.
pub(crate) fn first_begin(alloc: Global, job: &Job, memory: &[u32]) -> Result<Begin, NoMemory>
    ensures { IfOk result (λ begin. begin ≡ (pal_counter (job_of job.now) memory.now []).begin) }
{
    let values = first_values(alloc, job)?;
    Ok(Begin {
        values,
        memory: Vec::from_slice(alloc, memory)?,
        env: Env::nothing(alloc),
    })
}

/// The counter of a choice at the first boundary, with these inputs in place of its own.
pub(crate) fn with_inputs(mut begin: Begin, inputs: Vec<u32>) -> Counter
    ensures { result ≡ counter_at 0 (with_inputs begin inputs.items) }
{
    begin.env.inputs = inputs;
    Counter { boundary: 0, begin }
}
