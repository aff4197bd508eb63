// Pairs of states, and when they are in relation.
ghost use Rattle.std.specs.Prelude.{◌≡◌, ◌+◌, ◌<◌, ◌&&◌, ◌==◌, ◌↔◌, All, IsTrue, length, true};
ghost use Rattle.std.specs.List.{list_all};
ghost use Rattle.mw_board.specs.Elements.{element_count};
ghost use Rattle.mw_cycle.specs.State as boards;
ghost use Rattle.mw_rel.specs.Free.{numbered};
ghost use Rattle.mw_rel.specs.InRelation.{InRelation, BothFit, StandsAt, values_in, values_of, line_holds};
ghost use Rattle.mw_rel.specs.Rules.{IsLineOf};
ghost use Rattle.mw_rel.specs.Seen.{line_of, lines_of, boundary_of};
ghost use Rattle.mw_rel.specs.Views.{job_of};

use crate::boundary::Boundary;
use crate::job::Job;
use crate::line::Line;
use mw_board::Board;
use mw_cycle::State;
use mw_expr::value;
use mw_macro::MacState;
use std::marker::Model;

/// The most elements of both sides: the board's 16 registers, Q, `mar`, `ir`, 16 flip-flops, the counters and the
/// stack, and the machine's 128 registers.
pub(crate) const MOST_ELEMENTS: usize = 174;

/// A state of the board and one of the described machine.
#[derive(Debug, Drop)]
pub struct Pair {
    /// The board's.
    pub board: State,
    /// The machine's.
    pub machine: MacState,
}

impl Model for Pair {
    ghost use Rattle.mw_rel.specs.InRelation.{Pair as PairOf, pair_of};

    ghost Value = { PairOf };

    ghost view = { λ pair. pair_of pair.board pair.machine };
}

/// Puts the values of all elements into a list that has a place for each: those of a board's state, and behind them a
/// machine's registers.
pub(crate) fn copy_values(board: &Board, state: &State, registers: &[u32], values: &mut [u32])
    requires fits { boards.Fits board.now state.now }
    requires places { length values.old ≡ element_count board.now + length registers.now }
    ensures exact { values.new ≡ values_in board.now state.now registers.now }
{
    let count = board.element_count();
    for number in 0..count {
        values[number] = state.element(board, number);
    }
    for (number, register) in registers.iter().enumerate() {
        values[count + number] = *register;
    }
}

/// Whether a line holds, where the elements have these values.
pub(crate) fn line_holds(job: &Job, pair: &Pair, line: &Line, values: &[u32]) -> bool
    requires line_of { IsLineOf (job_of job.now).relation.shape (line_of line.now) }
    requires fit { BothFit (job_of job.now) pair.now }
    requires exact { values.now ≡ values_of (job_of job.now).board pair.now }
    ensures { result ≡ line_holds (job_of job.now) pair.now (line_of line.now) }
{
    let right = value(&line.right, job.shape(), values, &pair.machine.memory);
    values[line.left as usize] == right
}

/// Whether each of some lines holds.
fn lines_hold(job: &Job, pair: &Pair, lines: &[Line], values: &[u32]) -> bool
    requires lines_of { All (IsLineOf (job_of job.now).relation.shape) (lines_of lines.now) }
    requires fit { BothFit (job_of job.now) pair.now }
    requires exact { values.now ≡ values_of (job_of job.now).board pair.now }
    ensures { result ≡ list_all (line_holds (job_of job.now) pair.now) (lines_of lines.now) }
{
    for line in lines {
        if !line_holds(job, pair, line, values) {
            return false;
        }
    }
    true
}

/// Whether the lines of a boundary hold, of a pair whose states fit.
fn hold_at(job: &Job, at: &Boundary, pair: &Pair) -> bool
    requires lines_of { All (IsLineOf (job_of job.now).relation.shape) (boundary_of at.now).lines }
    requires fit { BothFit (job_of job.now) pair.now }
    ensures { result ≡ list_all (line_holds (job_of job.now) pair.now) (boundary_of at.now).lines }
{
    let mut elements = [0; MOST_ELEMENTS];
    let values = &mut elements[..job.element_count()];
    copy_values(&job.board, &pair.board, &pair.machine.registers, values);
    lines_hold(job, pair, at.lines.as_slice(), values)
}

/// Whether the board of a pair is at a boundary's address and has its stack pointer, and both memories are equal.
fn stands_at(at: &Boundary, pair: &Pair) -> bool
    ensures { IsTrue result ↔ StandsAt (boundary_of at.now) pair.now }
{
    let board = &pair.board;
    if board.at != at.address || board.seq.sp != at.sp {
        return false;
    }
    board.memory == pair.machine.memory
}

/// Whether both states fit.
fn fit(job: &Job, pair: &Pair) -> bool
    ensures { IsTrue result ↔ BothFit (job_of job.now) pair.now }
{
    pair.board.fits(&job.board) && pair.machine.fits(&job.machine)
}

/// Whether a pair of states is in relation at the boundary of this number, from 0: both states fit, the board is at
/// its address and has its stack pointer, both memories are equal, and each line's left element has the value of its
/// right side.
pub fn holds(job: &Job, boundary: usize, pair: &Pair) -> bool
    requires there { boundary < length (job_of job.now).relation.boundaries }
    ensures { IsTrue result ↔ InRelation (job_of job.now) (numbered (job_of job.now) boundary) pair.now }
{
    let at = job.boundary(boundary);
    if !fit(job, pair) {
        return false;
    }
    let lines = hold_at(job, at, pair);
    stands_at(at, pair) & lines
}
