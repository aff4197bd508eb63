// The course of a twin case: through the old program's segment, and behind that through the new one's.
ghost use Rattle.std.specs.Prelude.{◌≡◌, ◌<◌, ◌≤◌, ◌^◌, ℕ, List, [], Some, None, IfOk, OnOk, length, true};
ghost use Rattle.mw_board.specs.Depth.{depth_of};
ghost use Rattle.mw_board.specs.Elements.{element_count};
ghost use Rattle.mw_revise.specs.Kept.{IsBlock};
ghost use Rattle.mw_revise.specs.TwinStartWords.{twin_start_words};
ghost use Rattle.mw_space.specs.Spaces.{list_of_space};
ghost use Rattle.mw_symboard.specs.Kinds.{HaveWidths};
ghost use Rattle.mw_symboard.specs.Laws.{IsBeginning};
ghost use Rattle.mw_symboard.specs.Parts.{AreElements, HasElements};
ghost use Rattle.mw_symboard.specs.Turns.{AreNoLater, IsSymbolic, Symbolic};
ghost use Rattle.mw_symmem.specs.Memory.{Memory};
ghost use Rattle.mw_symmem.specs.Workspace.{HaveKinds, IsLater};
ghost use Rattle.mw_term.specs.Cofactors.{Agree};
ghost use Rattle.mw_term.specs.declared.side.Side.TheVariants.{Board};
ghost use Rattle.mw_term.specs.declared.word.Word.{Word};
ghost use Rattle.mw_term.specs.Functions.{Function, always};
ghost use Rattle.mw_term.specs.Table.{Table};
ghost use Rattle.mw_twin.specs.Origins.{IsElementKind, IsGround, ground_in};
ghost use Rattle.mw_twin.specs.Courses.{GoesOnCourse, HasElementTerms, HaveCome, IsGiven, IsGivenTo, IsOnCourse};
ghost use Rattle.mw_twin.specs.Courses.{IsReady, IsReadyIn, IsTurned, KeepsElements, MayBeGiven};
ghost use Rattle.mw_twin.specs.RevisedBlocks.{IsRevisedBlock};

use crate::elements::{Elements, elements_at};
use crate::revised_block::RevisedBlock;
use crate::segments::{begin_new, go_new, go_old};
use mw_base::NoMemory;
use mw_revise::Side;
use mw_segment::Came;
use mw_space::Space;
use mw_symboard::SymBoard;
use mw_symmem::Turn;
use mw_term::Term;
use std::alloc::Global;

/// A course of a twin case. The old program's board has the board's side of the memory, and the new one's the other
/// side.
#[derive(Drop)]
pub struct Course {
    /// What both boards' runs work on.
    pub space: Space,
    /// The terms of the old board's elements at the block, by their numbers, with which its segment begins.
    pub old_elements: Vec<Term>,
    /// Those of the new board's elements.
    pub new_elements: Vec<Term>,
    /// The old program's board.
    pub old_board: SymBoard,
    /// The new program's board, once the old segment has ended at a boundary; none before, and where that is late.
    pub new_board: Option<SymBoard>,
    /// Whether the segment in which the case has ended is late. Of a course that hasn't ended it says nothing.
    pub late: bool,
}

/// The old program's board at the block, with these terms for its elements.
fn board_at(alloc: Global, revised: &RevisedBlock, elements: &[Term]) -> Result<SymBoard, NoMemory>
    requires { length elements.now ≡ element_count revised.now.revision.board }
    ensures elements { IfOk result (λ b. HasElements revised.now.revision.board elements.now b.place.parts) }
    ensures begins { IfOk result (λ b. IsBeginning Board revised.now.block.before revised.now.block.sp None b) }
    ensures symbolic { IfOk result (λ b. (store : List ℕ) (t : Table) (words : List Word) (m : Memory)
        → revised.now.block.before < 2 ^ 12 → revised.now.block.sp ≤ depth_of revised.now.revision.board
        → AreElements revised.now.revision.board t elements.now
        → HaveWidths Board revised.now.revision.board t words → AreNoLater Board 0 words
        → IsSymbolic revised.now.revision.board store t words m b) }
{
    let block = revised.block;
    let revision = revised.revision;
    let address = block.address_on(Side::Old);
    let board = SymBoard::new(alloc, &revision.board, address, block.sp, elements)?;
    Ok(board)
}

/// The elements of both boards at the block.
fn elements(alloc: Global, revised: &RevisedBlock) -> Result<Elements, NoMemory>
    requires { IsBlock revised.now.revision.board revised.now.block }
    ensures stands { IfOk result (λ e. IsGround revised.now.revision.board revised.now.block
        (ground_in e.space e.before.items e.after.items)) }
    ensures counts { IfOk result (λ e. (length e.before.items ≡ element_count revised.now.revision.board)
        × (length e.after.items ≡ element_count revised.now.revision.board)) }
    ensures kinds { IfOk result (λ e. HaveKinds IsElementKind e.space.words) }
    ensures unread { IfOk result (λ e. e.space.memory.reads ≡ []) }
    ensures unwritten { IfOk result (λ e. (e.space.memory.board ≡ []) × (e.space.memory.machine ≡ [])) }
    ensures listed { IfOk result (λ e. twin_start_words revised.now.revision.board revised.now.block.lines ≡ record {
      list = list_of_space e.space;
      old_terms = e.before.items;
      new_terms = e.after.items;
    }) }
{
    // A function of its own for the proof: it says of `revised` what the call says of its parts.
    let revision = revised.revision;
    let made = elements_at(alloc, &revision.board, revised.block)?;
    Ok(made)
}

/// Gives its value to the bit for which a board waits: the new one where that is there, and else the old one.
fn give(before: &mut SymBoard, after: &mut Option<SymBoard>, value: bool)
    requires { MayBeGiven before.old after.old }
    ensures { IsGiven value before.old before.new after.old after.new }
{
    match after {
        Some(after) => after.decide(value),
        None => before.decide(value),
    }
}

/// The same board once more, if there is one.
fn copied(alloc: Global, board: &Option<SymBoard>) -> Result<Option<SymBoard>, NoMemory>
    ensures { IfOk result (λ copy. copy ≡ board.now) }
{
    match board {
        Some(board) => Ok(Some(board.copy(alloc)?)),
        None => Ok(None),
    }
}

impl Course {
    /// One that stands at the block, and has made no cycle and decided no bit, so that each twin start there is on its
    /// path.
    ///
    /// # Errors
    ///
    /// Memory ran out.
    pub fn new(alloc: Global, revised: &RevisedBlock) -> Result<Course, NoMemory>
        requires { IsRevisedBlock revised.now }
        ensures ready { IfOk result (IsReady revised.now) }
        ensures terms { IfOk result (HasElementTerms revised.now) }
        ensures first { IfOk result (λ course. (path : Function) → Agree path always
            → IsOnCourse revised.now [] path course course.new_board) }
    {
        let made = elements(alloc, revised)?;
        let board = board_at(alloc, revised, &made.before)?;
        Ok(Course {
            space: made.space,
            old_elements: made.before,
            new_elements: made.after,
            old_board: board,
            new_board: None,
            late: false,
        })
    }

    /// Goes on to where the new segment begins, if that isn't there yet: nothing where it is there then, and else what is
    /// waited for, or that the old segment is late.
    fn to_new(&mut self, alloc: Global, revised: &RevisedBlock) -> Result<Option<Turn>, NoMemory>
        requires { IsReady revised.now self.old }
        ensures later { OnOk result (IsLater self.old.space.terms self.new.space.terms) }
        ensures elements { OnOk result (KeepsElements self.old self.new) }
        ensures come { IfOk result (HaveCome revised.now self.old self.new) }
    {
        if self.new_board.is_some() {
            return Ok(None);
        }
        match go_old(
            alloc,
            revised,
            &mut self.space,
            &mut self.old_board,
            &self.new_elements,
        )? {
            Came::Asks { kind, term } => Ok(Some(Turn::Ask { kind, term })),
            Came::Late => {
                self.late = true;
                Ok(Some(Turn::Finished))
            }
            Came::Reached => {
                let after = begin_new(
                    alloc,
                    revised,
                    &self.space,
                    &self.old_board,
                    &self.new_elements,
                )?;
                self.new_board = Some(after);
                Ok(None)
            }
        }
    }

    /// Goes on to the next bit of the new segment, which has begun, or to its end.
    fn turn_new(&mut self, alloc: Global, revised: &RevisedBlock) -> Result<Turn, NoMemory>
        requires { (after : Symbolic) × (self.old.new_board ≡ Some after) × IsReadyIn revised.now self.old (Some after) }
        ensures later { OnOk result (IsLater self.old.space.terms self.new.space.terms) }
        ensures elements { OnOk result (KeepsElements self.old self.new) }
        ensures turned { IfOk result (IsTurned revised.now self.new) }
        ensures goes { IfOk result (GoesOnCourse revised.now self.old self.new) }
    {
        let Some(after) = &mut self.new_board else {
            unreachable!()
        };
        match go_new(alloc, revised, &mut self.space, &self.old_board, after)? {
            Came::Asks { kind, term } => Ok(Turn::Ask { kind, term }),
            Came::Reached => {
                self.late = false;
                Ok(Turn::Finished)
            }
            Came::Late => {
                self.late = true;
                Ok(Turn::Finished)
            }
        }
    }

    /// Goes on to the next bit of the case, or to its end, which is that of the new segment, at a boundary or late, or
    /// that of the old one where it is late. The course waits for no bit.
    ///
    /// # Errors
    ///
    /// Memory ran out.
    pub fn turn(&mut self, alloc: Global, revised: &RevisedBlock) -> Result<Turn, NoMemory>
        requires { IsReady revised.now self.old }
        ensures later { OnOk result (IsLater self.old.space.terms self.new.space.terms) }
        ensures elements { OnOk result (KeepsElements self.old self.new) }
        ensures turned { IfOk result (IsTurned revised.now self.new) }
        ensures goes { IfOk result (GoesOnCourse revised.now self.old self.new) }
    {
        if let Some(turn) = self.to_new(alloc, revised)? {
            return Ok(turn);
        }
        self.turn_new(alloc, revised)
    }

    /// Gives its value to the bit that the course waits for.
    pub fn decide(&mut self, value: bool)
        requires { MayBeGiven self.old.old_board self.old.new_board }
        ensures { IsGivenTo value self.old self.new }
    {
        give(&mut self.old_board, &mut self.new_board, value);
    }

    /// Another one, over a copy of what this one works on, for which the bit that this one waits for is 1. This one
    /// waits for it still.
    ///
    /// # Errors
    ///
    /// Memory ran out.
    pub fn other(&self, alloc: Global) -> Result<Course, NoMemory>
        requires { MayBeGiven self.now.old_board self.now.new_board }
        ensures { IfOk result (IsGivenTo true self.now) }
    {
        let mut other = Course {
            space: self.space.copy(alloc)?,
            old_elements: Vec::from_slice(alloc, &self.old_elements)?,
            new_elements: Vec::from_slice(alloc, &self.new_elements)?,
            old_board: self.old_board.copy(alloc)?,
            new_board: copied(alloc, &self.new_board)?,
            late: self.late,
        };
        give(&mut other.old_board, &mut other.new_board, true);
        Ok(other)
    }
}
