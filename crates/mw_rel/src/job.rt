// Jobs.
ghost use Rattle.std.specs.Prelude.{◌≡◌, ◌+◌, ◌≤◌, List, map, take, length, IfOk, IfErr, IsOk, true, false};
ghost use Rattle.std.proofs.Props.{props};
ghost use Rattle.mw_board.specs.Elements.{elements_of};
ghost use Rattle.mw_base.specs.declared.cause.Cause.TheVariants.{ShapesDiffer};
ghost use Rattle.mw_macro.specs.Described.{description_of};
ghost use Rattle.mw_rel.specs.Job.{shape_of, IsJob, job_with};
ghost use Rattle.mw_rel.specs.OneProof.{board_once};
ghost use Rattle.mw_rel.specs.Relation.{related};
ghost use Rattle.mw_rel.specs.Seen.{boundaries_of};

use crate::boundary::Boundary;
use crate::relation::Relation;
use mw_base::{Cause, Items, NoMemory};
use mw_board::{Board, Store};
use mw_expr::Shape;
use mw_macro::Machine;
use std::alloc::Global;

/// The widths of a board's elements, and behind them those of a machine's registers.
#[tactic(auto, unfolding(crate::specs::Job::shape_of))]
fn widths_of(alloc: Global, board: &Board, machine: &Machine) -> Result<Vec<u8>, NoMemory>
    ensures { IfOk result (λ widths. widths.items ≡ (shape_of board.now (description_of machine.now)).widths) }
{
    let mut widths = Vec::new(alloc);
    for number in 0..board.element_count() {
        // Each of these numbers has an element, so there is a width.
        widths.push(board.element_width(number).unwrap_or(0))?;
    }
    let registers = &machine.shape().widths.as_slice()[..machine.registers() as usize];
    widths.extend_from_slice(registers)?;
    Ok(widths)
}

/// The shape of the lines of a relation between a board and a described machine: the widths of the elements, by
/// number, and those of the machine's memory. The board's elements come first, in the order of its table, and behind
/// them the machine's registers.
///
/// # Errors
///
/// Memory ran out.
#[tactic(auto, unfolding(crate::specs::Job::shape_of))]
pub fn shape_of(alloc: Global, board: &Board, machine: &Machine) -> Result<Shape, NoMemory>
    ensures { IfOk result (λ shape. shape ≡ shape_of board.now (description_of machine.now)) }
{
    Ok(Shape {
        widths: Items::from_vec(widths_of(alloc, board, machine)?),
        address: machine.shape().address,
        word: machine.shape().word,
    })
}

/// What is certified: that a board with its microprogram does what a described machine does, as a relation between
/// them says. Contracts see it as its parts; `is_job` says what holds of them: the board and the machine keep their
/// rules, the relation was made for both, and both memories have the same widths.
#[derive(Drop)]
pub struct Job {
    /// The board.
    pub board: Board,
    /// Its microprogram.
    pub store: Store,
    /// The described machine.
    pub machine: Machine,
    /// The relation between them.
    pub relation: Relation,
    pub ghost is_job: { IsJob (job_with board store.words (description_of machine)
        (related (boundaries_of relation.boundaries.items) relation.shape)) } by { Prim.hlevel (board_once board, props) },
}

impl Job {
    ghost use Rattle.std.specs.Prelude.{◌<◌, length};
    ghost use Rattle.mw_board.specs.Elements.{element_count};
    ghost use Rattle.mw_rel.specs.Free.{numbered};
    ghost use Rattle.mw_rel.specs.Job.{AreForEachOther, memories_agree};
    ghost use Rattle.mw_rel.specs.Seen.{boundary_of};
    ghost use Rattle.mw_rel.specs.Views.{relation_of, job_of};

    /// The job of these parts. The relation was made for the shape of this board and this machine, and each of its
    /// stack pointers is at most the board's number of stack words.
    ///
    /// # Errors
    ///
    /// Cause 55 where the memory of the machine has other widths than that of the board. What was handed in is
    /// dropped then.
    pub fn new(
        board: Board,
        store: Store,
        machine: Machine,
        relation: Relation,
    ) -> Result<Job, Cause>
        requires parts { AreForEachOther board (description_of machine) (relation_of relation) }
        ensures ok { IfOk result
            (λ job. job_of job ≡ job_with board store.words (description_of machine) (relation_of relation)) }
        ensures accepted { IsOk result → memories_agree board (description_of machine) ≡ true }
        ensures cause { IfErr result (λ cause. cause ≡ ShapesDiffer) }
        ensures err { IfErr result (λ cause. memories_agree board (description_of machine) ≡ false) }
    {
        let parts = board.parts();
        let shape = machine.shape();
        if shape.address == parts.address && shape.word == parts.width {
            Ok(Job {
                board,
                store,
                machine,
                relation,
            })
        } else {
            Err(Cause::ShapesDiffer)
        }
    }

    /// The shape that the lines of its relation are over: the widths of the elements of both sides, and those of the
    /// memory.
    pub fn shape(&self) -> &Shape
        ensures { result.now ≡ (job_of self.now).relation.shape }
    {
        self.relation.shape()
    }

    /// The boundary of this number, from 0.
    pub fn boundary(&self, number: usize) -> &Boundary
        requires there { number < length (job_of self.now).relation.boundaries }
        ensures { boundary_of result.now ≡ numbered (job_of self.now) number }
    {
        &self.relation.boundaries()[number]
    }

    /// How many elements both sides have: those of the board and, behind them, the machine's registers.
    pub fn element_count(&self) -> usize
        ensures exact { result ≡ length (job_of self.now).relation.shape.widths }
        ensures both { result ≡ element_count (job_of self.now).board + (job_of self.now).machine.registers }
        ensures few { result ≤ 174 }
    {
        self.shape().widths.as_slice().len()
    }
}
