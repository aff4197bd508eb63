// The text of a counter.
ghost use Rattle.std.specs.Prelude.{◌≡◌, ℕ, ◌+◌, ◌*◌, ◌<◌, ◌≤◌, ◌++◌, List, IfOk, OnOk, Ok, codes, length, true};
ghost use Rattle.std.specs.List.{flat_map};
ghost use Rattle.mw_cycle.specs.Environment.{values_of};
ghost use Rattle.mw_cycle.specs.Trimmed.{shortened, trimmed};
ghost use Rattle.mw_cycle.specs.Series.{keyword_of};
ghost use Rattle.mw_rel.specs.Begin.{free_elements};
ghost use Rattle.mw_rel.specs.Completed.{free_before, free_value};
ghost use Rattle.mw_rel.specs.Free.{is_free, numbered};
ghost use Rattle.mw_rel.specs.Views.{job_of};
ghost use Rattle.mw_sim.specs.Settings.{owner_text};
ghost use Rattle.mw_replay.specs.Counter.{IsCounter, counter_at};
ghost use Rattle.mw_replay.specs.CounterText.{counter_of, owner_of};
ghost use Rattle.mw_asm.specs.declared.assembled.Label.{Label};
ghost use Rattle.mw_replay.specs.CounterPrinted.{AreShort, MayFollow, in_short, no_lines, boundary_line};
ghost use Rattle.mw_replay.specs.CounterPrinted.{set_line, set_lines, value_text, series_line};
ghost use Rattle.mw_replay.specs.CounterPrinted.{line_count, values_at, values_lines, series_lines};
ghost use Rattle.mw_replay.specs.CounterPrinted.{environment_lines, counter_text};

use crate::counter::Counter;
use crate::elements::{name_of, owner_of};
use mw_base::{NoMemory, append_hex};
use mw_cycle::{Env, Series};
use mw_rel::{Begin, Job, free};
use mw_sim::{Owner, append_hex_line, append_line, append_memory};
use std::alloc::Global;

/// How many values a line of a list has at most.
const MOST_VALUES: usize = 16;

/// How the line begins that sets the element with a number.
fn set_front(job: &Job, number: usize) -> &'static [u8]
    ensures { result.now ≡ codes "set " ++ owner_text (owner_of (job_of job.now) number) ++ codes "." }
{
    match owner_of(job, number) {
        Owner::Board => b"set b.",
        Owner::Machine => b"set m.",
    }
}

/// Appends the line that sets the element with a number; none where its value is 0.
#[tactic(auto, unfolding(crate::specs::CounterPrinted::set_line))]
fn append_set(
    alloc: Global,
    text: &mut Vec<u8>,
    job: &Job,
    number: usize,
    value: u32,
) -> Result<(), NoMemory>
    requires element { number < length (job_of job.now).relation.shape.widths }
    ensures { OnOk result (text.new.items ≡ text.old.items ++ set_line (job_of job.now) number value) }
{
    if value != 0 {
        text.extend_from_slice(set_front(job, number))?;
        text.extend_from_slice(name_of(job, number))?;
        append_hex_line(alloc, text, b" ", value)?;
    }
    Ok(())
}

/// Appends the line of the element with a number where it is free at a boundary, and answers how many elements are
/// free up to it; so many are before it. A free element has the value at its place among the free ones.
fn append_free(
    alloc: Global,
    text: &mut Vec<u8>,
    job: &Job,
    boundary: usize,
    values: &[u32],
    number: usize,
    before: usize,
) -> Result<usize, NoMemory>
    requires there { boundary < length (job_of job.now).relation.boundaries }
    requires element { number < length (job_of job.now).relation.shape.widths }
    requires few { length (job_of job.now).relation.shape.widths ≤ 174 }
    requires before { before ≡ free_before (is_free (numbered (job_of job.now) boundary)) number }
    requires each { is_free (numbered (job_of job.now) boundary) number ≡ true → before < length values.now }
    ensures after { IfOk result
        (λ after. after ≡ free_before (is_free (numbered (job_of job.now) boundary)) (number + 1)) }
    ensures exact { OnOk result (text.new.items ≡ text.old.items ++ set_line (job_of job.now) number
        (free_value (is_free (numbered (job_of job.now) boundary)) values.now number)) }
{
    if !free(job, boundary, number as u32) {
        return Ok(before);
    }
    append_set(alloc, text, job, number, values[before])?;
    Ok(before + 1)
}

/// Appends the lines of the elements that are free at a boundary, by number: these are their values.
fn append_sets(
    alloc: Global,
    text: &mut Vec<u8>,
    job: &Job,
    boundary: usize,
    values: &[u32],
) -> Result<(), NoMemory>
    requires there { boundary < length (job_of job.now).relation.boundaries }
    requires each { length values.now ≡ length (free_elements (job_of job.now) (numbered (job_of job.now) boundary)) }
    ensures { OnOk result (text.new.items
        ≡ text.old.items ++ set_lines (job_of job.now) (numbered (job_of job.now) boundary) values.now) }
{
    let mut before = 0;
    for number in 0..job.element_count() {
        before = append_free(alloc, text, job, boundary, values, number, before)?;
    }
    Ok(())
}

/// Appends a value behind a blank.
fn append_value(alloc: Global, text: &mut Vec<u8>, value: u32) -> Result<(), NoMemory>
    ensures { OnOk result (text.new.items ≡ text.old.items ++ value_text value) }
{
    text.push(b' ')?;
    append_hex(alloc, text, u128::from(value))
}

/// Appends values, each behind a blank.
fn append_values(alloc: Global, text: &mut Vec<u8>, values: &[u32]) -> Result<(), NoMemory>
    ensures { OnOk result (text.new.items ≡ text.old.items ++ flat_map value_text values.now) }
{
    for value in values {
        append_value(alloc, text, *value)?;
    }
    Ok(())
}

/// Appends a line of a list.
fn append_series_line(
    alloc: Global,
    text: &mut Vec<u8>,
    keyword: &[u8],
    values: &[u32],
) -> Result<(), NoMemory>
    ensures { OnOk result (text.new.items ≡ text.old.items ++ series_line keyword.now values.now) }
{
    text.extend_from_slice(keyword)?;
    append_values(alloc, text, values)?;
    append_line(text, b"")
}

/// The values of the line of a list with a number, from 0.
fn values_at(values: &[u32], number: usize) -> &[u32]
    requires { 16 * number ≤ length values.now }
    ensures { result.now ≡ values_at values.now number }
{
    let rest = &values[MOST_VALUES * number..];
    &rest[..rest.len().min(MOST_VALUES)]
}

/// Appends the lines of values: each line begins with the keyword of their list, behind which stand sixteen values, and
/// those that are left on the last. Where there are no values there is no line.
///
/// # Errors
///
/// Memory ran out.
pub fn append_values_lines(
    alloc: Global,
    text: &mut Vec<u8>,
    keyword: &[u8],
    values: &[u32],
) -> Result<(), NoMemory>
    ensures { OnOk result (text.new.items ≡ text.old.items ++ values_lines keyword.now values.now) }
{
    for number in 0..values.len().div_ceil(MOST_VALUES) {
        append_series_line(alloc, text, keyword, values_at(values, number))?;
    }
    Ok(())
}

/// The values of a list of an environment, without the zeros at its end.
fn kept_values(alloc: Global, env: &Env, series: Series) -> Result<Vec<u32>, NoMemory>
    ensures { IfOk result (λ values. values.items ≡ trimmed (values_of env.now series)) }
{
    let mut values = Vec::new(alloc);
    for number in 0..env.kept(series) {
        values.push(env.value(series, number))?;
    }
    Ok(values)
}

/// Appends the lines of a list of an environment, without the zeros at its end.
fn append_series(
    alloc: Global,
    text: &mut Vec<u8>,
    env: &Env,
    series: Series,
) -> Result<(), NoMemory>
    ensures { OnOk result (text.new.items ≡ text.old.items ++ series_lines env.now series) }
{
    let values = kept_values(alloc, env, series)?;
    append_values_lines(alloc, text, series.keyword(), &values)
}

/// Appends the lines of the lists `inputs`, `line`, `noise` and `wait` of an environment, in this order, without the
/// zeros at their ends, sixteen values to a line.
///
/// # Errors
///
/// Memory ran out.
pub fn append_environment(alloc: Global, text: &mut Vec<u8>, env: &Env) -> Result<(), NoMemory>
    ensures { OnOk result (text.new.items ≡ text.old.items ++ environment_lines env.now) }
{
    let lists = Series::all();
    for series in lists {
        append_series(alloc, text, env, *series)?;
    }
    Ok(())
}

/// The text of the counter of a start at the boundary of this number, as `print_counter` gives it.
///
/// # Errors
///
/// Memory ran out.
#[tactic(auto, unfolding(crate::specs::CounterPrinted::counter_text))]
pub fn print_start(
    alloc: Global,
    job: &Job,
    boundary: usize,
    begin: &Begin,
) -> Result<Vec<u8>, NoMemory>
    requires { IsCounter (job_of job.now) (counter_at boundary begin.now) }
    ensures { IfOk result (λ text. text.items ≡ counter_text (job_of job.now) (counter_at boundary begin.now)) }
{
    let mut text = Vec::new(alloc);
    let address = job.boundary(boundary).address;
    append_hex_line(alloc, &mut text, b"boundary ", u32::from(address))?;
    append_sets(alloc, &mut text, job, boundary, &begin.values)?;
    append_memory(alloc, &mut text, &begin.memory)?;
    append_environment(alloc, &mut text, &begin.env)?;
    Ok(text)
}

/// The text of a counter of a job: the line `boundary`, with its control address; then, of what isn't 0, `set` for the
/// elements that are free there, by number, `mem` for each word of the memory, by address, and the lists `inputs`,
/// `line`, `noise` and `wait` without the zeros at their ends, sixteen values to a line. Where none of these has more
/// than 65,536 values then, it is read back, whatever the labels, as the counter without these zeros; also behind the
/// lines `no` and `difference ..`, where what stands on the second has tokens and its line at most 4,096 bytes.
///
/// # Errors
///
/// Memory ran out.
pub fn print_counter(alloc: Global, job: &Job, counter: &Counter) -> Result<Vec<u8>, NoMemory>
    requires { IsCounter (job_of job.now) counter.now }
    ensures exact { IfOk result (λ text. text.items ≡ counter_text (job_of job.now) counter.now) }
    ensures reads_back { IfOk result (λ text. (labels : List Label) → AreShort (shortened counter.now.begin.env)
        → counter_of (job_of job.now) labels text.items ≡ Ok (in_short counter.now)) }
    ensures in_report { IfOk result (λ text. (labels : List Label) (difference : List ℕ) → MayFollow difference
        → AreShort (shortened counter.now.begin.env)
        → counter_of (job_of job.now) labels (no_lines difference ++ text.items) ≡ Ok (in_short counter.now)) }
{
    // A call for the proof: its clause `kept` says what holds of every board.
    let _ = job.board.parts();
    let Counter { boundary, begin } = counter;
    let text = print_start(alloc, job, *boundary, begin)?;
    Ok(text)
}
