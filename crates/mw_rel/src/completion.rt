// The one pair in relation with given free values and a given memory.
ghost use Rattle.std.specs.Prelude.{◌≡◌, ℕ, ◌<◌, ◌≤◌, ◌^◌, ◌+◌, [], All, IfOk, drop, map, length, slice_index};
ghost use Rattle.mw_board.specs.Depth.{depth_of};
ghost use Rattle.mw_board.specs.Elements.{element_count};
ghost use Rattle.mw_cycle.specs.Elements.{element, IsValueOf};
ghost use Rattle.mw_cycle.specs.State as boards;
ghost use Rattle.mw_expr.specs.Values.{AreWords, IsImage, value};
ghost use Rattle.mw_macro.specs.DescribedStep.{kept};
ghost use Rattle.mw_macro.specs.State as machines;
ghost use Rattle.mw_rel.specs.Begin.{IsBegin, IsCompleted, free_elements};
ghost use Rattle.mw_rel.specs.Completed.{HoldsIn, free_before, free_value, value_by, standing};
ghost use Rattle.mw_rel.specs.Free.{numbered, is_free};
ghost use Rattle.mw_rel.specs.InRelation.{BothFit, StandsAt, pair_of, values_of};
ghost use Rattle.mw_rel.specs.Rules.{IsLineOf, IsSolved};
ghost use Rattle.mw_rel.specs.Seen.{line_of, lines_of, boundary_of};
ghost use Rattle.mw_rel.specs.Views.{job_of};

use crate::begin::Begin;
use crate::boundary::Boundary;
use crate::free_elements::{count_free, is_free_at};
use crate::job::Job;
use crate::line::Line;
use crate::pair::{MOST_ELEMENTS, Pair};
use mw_base::NoMemory;
use mw_board::Board;
use mw_cycle::State;
use mw_expr::value;
use mw_macro::MacState;
use std::alloc::Global;

/// The value of an element that is free, which is the given one at its place among the free ones, and 0 of others.
fn free_value(at: &Boundary, given: &[u32], number: usize, before: usize) -> u32
    requires few { number < 174 }
    requires before { before ≡ free_before (is_free (boundary_of at.now)) number }
    requires room { free_before (is_free (boundary_of at.now)) (number + 1) ≤ length given.now }
    ensures { result ≡ free_value (is_free (boundary_of at.now)) given.now number }
{
    if is_free_at(at, number) {
        return given[before];
    }
    0
}

/// Puts the values of the free elements, which are in the order of their numbers, at their places, and 0 at the others.
fn place_free(at: &Boundary, given: &[u32], places: &mut [u32])
    requires few { length places.old ≤ 174 }
    requires count { length given.now ≡ free_before (is_free (boundary_of at.now)) (length places.old) }
    ensures size { length places.new ≡ length places.old }
    ensures placed { (e : ℕ) → e < length places.old
        → slice_index places.new e ≡ free_value (is_free (boundary_of at.now)) given.now e }
{
    let mut before = 0;
    for number in 0..places.len() {
        places[number] = free_value(at, given, number, before);
        before = count_free(at, number, before);
    }
}

/// The value of the right side of a line.
fn right_value(job: &Job, line: &Line, values: &[u32], memory: &[u32]) -> u32
    requires line_of { IsLineOf (job_of job.now).relation.shape (line_of line.now) }
    requires words { AreWords (job_of job.now).relation.shape.widths values.now }
    requires image { IsImage (job_of job.now).relation.shape memory.now }
    ensures exact { result ≡ value (job_of job.now).relation.shape values.now memory.now (line_of line.now).right }
    ensures below { result < 2 ^ slice_index (job_of job.now).relation.shape.widths line.now.left }
{
    value(&line.right, job.shape(), values, memory)
}

/// The value of an element: that of the right side of its line, or where it is on no left side its own.
fn value_by(job: &Job, lines: &[Line], values: &[u32], memory: &[u32], number: u32) -> u32
    requires lines_of { All (IsLineOf (job_of job.now).relation.shape) (lines_of lines.now) }
    requires words { AreWords (job_of job.now).relation.shape.widths values.now }
    requires image { IsImage (job_of job.now).relation.shape memory.now }
    requires there { number < length values.now }
    ensures exact { result
        ≡ value_by (job_of job.now).relation.shape values.now memory.now (lines_of lines.now) number }
    ensures below { result < 2 ^ slice_index (job_of job.now).relation.shape.widths number }
{
    for line in lines {
        if line.left == number {
            return right_value(job, line, values, memory);
        }
    }
    values[number as usize]
}

/// Gives each element of a board its value.
fn set_elements(board: &Board, state: &mut State, values: &[u32])
    requires fits { boards.Fits board.now state.old }
    requires count { element_count board.now ≤ length values.now }
    requires words { (e : ℕ) → e < element_count board.now → IsValueOf board.now e (slice_index values.now e) }
    ensures fits { boards.Fits board.now state.new }
    ensures set { (e : ℕ) → e < element_count board.now → element board.now state.new e ≡ slice_index values.now e }
{
    for number in 0..board.element_count() {
        state.set_element(board, number, values[number]);
    }
}

/// Gives each element its value, from those of the free ones.
fn place_all(job: &Job, lines: &[Line], free: &[u32], memory: &[u32], values: &mut [u32])
    requires lines_of { All (IsLineOf (job_of job.now).relation.shape) (lines_of lines.now) }
    requires words { AreWords (job_of job.now).relation.shape.widths free.now }
    requires image { IsImage (job_of job.now).relation.shape memory.now }
    requires size { length values.old ≡ length free.now }
    requires few { length free.now ≤ 174 }
    ensures size { length values.new ≡ length free.now }
    ensures each { (e : ℕ) → e < length values.new
        → slice_index values.new e
        ≡ value_by (job_of job.now).relation.shape free.now memory.now (lines_of lines.now) e }
    ensures below { (e : ℕ) → e < length values.new
        → slice_index values.new e < 2 ^ slice_index (job_of job.now).relation.shape.widths e }
{
    for number in 0..values.len() {
        values[number] = value_by(job, lines, free, memory, number as u32);
    }
}

/// Puts a board at a boundary, with a stack pointer and a memory. All else stays as it was.
fn stand_at(state: &mut State, at: &Boundary, memory: &[u32])
    requires pointer { at.now.sp ≤ length state.old.seq.stack }
    requires size { length memory.now ≡ length state.old.memory }
    ensures exact { state.new ≡ standing state.old at.now.address at.now.sp memory.now }
{
    state.at = at.address;
    state.seq.sp = at.sp;
    state.memory.copy_from_slice(memory);
}

/// The state of the board in which it stands at a boundary, with these values of its elements and this memory.
fn board_of(
    alloc: Global,
    job: &Job,
    at: &Boundary,
    values: &[u32],
    memory: &[u32],
) -> Result<State, NoMemory>
    requires at { at.now.address < 2 ^ 12 }
    requires pointer { at.now.sp ≤ depth_of (job_of job.now).board }
    requires words { AreWords (job_of job.now).relation.shape.widths values.now }
    requires image { IsImage (job_of job.now).relation.shape memory.now }
    ensures fits { IfOk result (λ state. boards.Fits (job_of job.now).board state) }
    ensures stands { IfOk result (λ state. StandsAt (boundary_of at.now) (pair_of state (kept [] memory.now))) }
    ensures set { IfOk result (λ state. (e : ℕ) → e < element_count (job_of job.now).board
        → element (job_of job.now).board state e ≡ slice_index values.now e) }
{
    let mut state = State::new(alloc, &job.board)?;
    set_elements(&job.board, &mut state, values);
    stand_at(&mut state, at, memory);
    Ok(state)
}

/// Gives a machine's state these registers and this memory.
fn fill(state: &mut MacState, registers: &[u32], memory: &[u32])
    requires count { length registers.now ≡ length state.old.registers }
    requires size { length memory.now ≡ length state.old.memory }
    ensures { state.new ≡ kept registers.now memory.now }
{
    state.registers.copy_from_slice(registers);
    state.memory.copy_from_slice(memory);
}

/// The values behind so many.
fn behind(values: &[u32], count: usize) -> &[u32]
    requires { count ≤ length values.now }
    ensures { result.now ≡ drop count values.now }
{
    values.split_at(count).1
}

/// The state of the machine that has these values of its registers, behind those of the board, and this memory.
fn machine_of(
    alloc: Global,
    job: &Job,
    values: &[u32],
    memory: &[u32],
) -> Result<MacState, NoMemory>
    requires words { AreWords (job_of job.now).relation.shape.widths values.now }
    requires image { IsImage (job_of job.now).relation.shape memory.now }
    ensures exact { IfOk result
        (λ state. state ≡ kept (drop (element_count (job_of job.now).board) values.now) memory.now) }
    ensures fits { IfOk result (λ state. machines.Fits (job_of job.now).machine state) }
{
    let mut state = MacState::new(alloc, &job.machine)?;
    let registers = behind(values, job.board.element_count());
    fill(&mut state, registers, memory);
    Ok(state)
}

/// Puts the values of the free elements of a boundary at their places, and 0 at the others.
fn place_given(job: &Job, at: &Boundary, begin: &Begin, places: &mut [u32])
    requires size { length places.old ≡ length (job_of job.now).relation.shape.widths }
    requires begins { IsBegin (job_of job.now) (boundary_of at.now) begin.now }
    ensures words { AreWords (job_of job.now).relation.shape.widths places.new }
    ensures placed { (e : ℕ) → e < length places.new
        → slice_index places.new e ≡ free_value (is_free (boundary_of at.now)) begin.now.values e }
{
    place_free(at, begin.values.as_slice(), places);
}

/// Gives each element its value: that given where it is free, and else that of the right side of its line.
fn place_values(job: &Job, at: &Boundary, begin: &Begin, values: &mut [u32])
    requires solved { IsSolved (job_of job.now).relation.shape (boundary_of at.now) }
    requires size { length values.old ≡ length (job_of job.now).relation.shape.widths }
    requires few { length values.old ≤ 174 }
    requires begins { IsBegin (job_of job.now) (boundary_of at.now) begin.now }
    ensures words { AreWords (job_of job.now).relation.shape.widths values.new }
    ensures lines { All (HoldsIn (job_of job.now).relation.shape values.new begin.now.memory)
        (boundary_of at.now).lines }
    ensures chosen { map (slice_index values.new) (free_elements (job_of job.now) (boundary_of at.now))
        ≡ begin.now.values }
{
    let mut places = [0; MOST_ELEMENTS];
    let free = &mut places[..values.len()];
    place_given(job, at, begin, free);
    place_all(
        job,
        at.lines.as_slice(),
        free,
        begin.memory.as_slice(),
        values,
    );
}

/// The pair that stands at a boundary, with these values of all elements and this memory on both sides.
fn pair_at(
    alloc: Global,
    job: &Job,
    at: &Boundary,
    values: &[u32],
    memory: &[u32],
) -> Result<Pair, NoMemory>
    requires at { at.now.address < 2 ^ 12 }
    requires pointer { at.now.sp ≤ depth_of (job_of job.now).board }
    requires words { AreWords (job_of job.now).relation.shape.widths values.now }
    requires image { IsImage (job_of job.now).relation.shape memory.now }
    ensures fit { IfOk result (λ pair. BothFit (job_of job.now) pair) }
    ensures stands { IfOk result (λ pair. StandsAt (boundary_of at.now) pair) }
    ensures values { IfOk result (λ pair. values_of (job_of job.now).board pair ≡ values.now) }
    ensures memory { IfOk result (λ pair. pair.machine.memory ≡ memory.now) }
{
    let board = board_of(alloc, job, at, values, memory)?;
    let machine = machine_of(alloc, job, values, memory)?;
    Ok(Pair { board, machine })
}

/// The one pair in relation, at the boundary of this number, from 0, with these values of its free elements and this
/// memory on both sides. There is a value for each free element, in the order of their numbers and no wider than the
/// element, and a word of the memory for each address.
///
/// # Errors
///
/// Memory ran out.
pub fn complete(alloc: Global, job: &Job, boundary: usize, begin: &Begin) -> Result<Pair, NoMemory>
    requires there { boundary < length (job_of job.now).relation.boundaries }
    requires begins { IsBegin (job_of job.now) (numbered (job_of job.now) boundary) begin.now }
    ensures { IfOk result (λ pair. IsCompleted (job_of job.now) (numbered (job_of job.now) boundary) begin.now pair) }
{
    let at = job.boundary(boundary);
    let count = job.element_count();
    let mut elements = [0; MOST_ELEMENTS];
    let values = &mut elements[..count];
    place_values(job, at, begin, values);
    let pair = pair_at(alloc, job, at, values, begin.memory.as_slice())?;
    Ok(pair)
}
