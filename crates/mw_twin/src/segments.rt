// The segments of both programs in a twin case.
ghost use Rattle.std.specs.Prelude.{◌≡◌, ◌+◌, ◌-◌, ◌<◌, ◌≤◌, ◌^◌, ℕ, Bool, List, None, Some, IfOk, OnOk, length};
ghost use Rattle.mw_board.specs.Depth.{depth_of};
ghost use Rattle.mw_board.specs.Elements.{element_count};
ghost use Rattle.mw_cycle.specs.SegmentWords.{Segment};
ghost use Rattle.mw_revise.specs.declared.programs.Side.TheVariants.{New, Old};
ghost use Rattle.mw_segment.specs.declared.cycles.Came.TheVariants.{Reached};
ghost use Rattle.mw_segment.specs.Left.{ComesAlong, IsAlongSegment};
ghost use Rattle.mw_segment.specs.Segments.{ComesOnPath, HasCome, HasFirstLine, IsOnSegment, IsRunKind, IsRunning};
ghost use Rattle.mw_symboard.specs.Kinds.{HaveWidths};
ghost use Rattle.mw_symboard.specs.Laws.{IsBeginning};
ghost use Rattle.mw_symboard.specs.Parts.{AreElements, HasElements};
ghost use Rattle.mw_symboard.specs.Paths.{Origin};
ghost use Rattle.mw_symboard.specs.Turns.{AreNoLater, IsSymbolic, other_side, reads_to_come};
ghost use Rattle.mw_symmem.specs.Memory.{IsOfWidth, Memory, writes_of};
ghost use Rattle.mw_symmem.specs.Words.{HaveOwnKinds};
ghost use Rattle.mw_symmem.specs.Workspace.{GoesOn, IsLater};
ghost use Rattle.mw_term.specs.declared.decided.Decided.{Decided};
ghost use Rattle.mw_term.specs.declared.kinds.WordKind.TheVariants.{Line};
ghost use Rattle.mw_term.specs.declared.side.Side.TheVariants.{Machine};
ghost use Rattle.mw_term.specs.declared.word.Word.{Word};
ghost use Rattle.mw_term.specs.Functions.{Function};
ghost use Rattle.mw_term.specs.Table.{Table};
ghost use Rattle.mw_term.specs.WordList.{term_of};
ghost use Rattle.mw_twin.specs.Comes.{ComesInNew, ComesInOld};
ghost use Rattle.mw_twin.specs.OnTwins.{Behind, HasMetOld, IsOnNew, IsOnOld};
ghost use Rattle.mw_twin.specs.Programs.{program_on};
ghost use Rattle.mw_twin.specs.Ready.{IsInNew, IsInOld};

use crate::revised_block::RevisedBlock;
use mw_base::NoMemory;
use mw_revise::Side;
use mw_segment::{Came, segment};
use mw_space::Space;
use mw_symboard::SymBoard;
use mw_term::{Term, WordKind};
use std::alloc::Global;

/// Goes on through the segment of one of both programs: to the next bit, or to its end.
fn go(
    alloc: Global,
    revised: &RevisedBlock,
    side: Side,
    space: &mut Space,
    board: &mut SymBoard,
) -> Result<Came, NoMemory>
    requires running { IsRunning (program_on side revised.now.revision) space.old board.old }
    requires idle { board.old.asked ≡ None }
    requires below { board.old.place.cycle < revised.now.block.bound }
    requires most { revised.now.block.bound ≤ 500 }
    requires few { length space.old.memory.reads + reads_to_come board.old + revised.now.block.bound < 2 ^ 32 }
    ensures running { OnOk result (IsRunning (program_on side revised.now.revision) space.new board.new) }
    ensures goes { OnOk result (GoesOn (IsRunKind board.old.place) space.old.terms space.new.terms space.old.words
        space.new.words space.old.memory space.new.memory) }
    ensures own { OnOk result (HaveOwnKinds space.new.words) }
    ensures side { OnOk result (board.new.place.side ≡ board.old.place.side) }
    ensures line { OnOk result (board.new.place.cycle ≡ board.old.place.cycle
        → board.new.place.line ≡ board.old.place.line) }
    ensures other { OnOk result (writes_of space.new.memory (other_side board.old.place.side)
        ≡ writes_of space.old.memory (other_side board.old.place.side)) }
    ensures later { OnOk result (board.old.place.cycle ≤ board.new.place.cycle) }
    ensures reads { OnOk result (length space.new.memory.reads + reads_to_come board.new
        ≤ length space.old.memory.reads + reads_to_come board.old + (board.new.place.cycle - board.old.place.cycle)) }
    ensures comes { IfOk result (HasCome (program_on side revised.now.revision) revised.now.block.bound space.new board.new) }
    ensures paths { IfOk result (λ came. (b : Origin) (bits : List Decided) (path : Function)
        → IsOnSegment (program_on side revised.now.revision) space.old b board.old bits path
        → ComesOnPath (program_on side revised.now.revision) revised.now.block.bound space.new b board.new bits path came) }
    ensures listed { IfOk result (λ came. (whole : List Bool → Segment) (bits : List Bool)
        → IsAlongSegment (program_on side revised.now.revision) revised.now.block.bound whole bits space.old board.old
        → ComesAlong (program_on side revised.now.revision) revised.now.block.bound whole bits space.new board.new came) }
{
    // A function of its own for the proof: it says of `revised` what the call says of its parts.
    let program = revised.program(side);
    let block = revised.block;
    let came = segment(alloc, &program, block.bound, space, board)?;
    Ok(came)
}

/// Goes on through the old program's segment: to the next bit, or to its end. The new board's elements have these
/// terms, which stay so; the contract alone speaks of them.
pub(crate) fn go_old(
    alloc: Global,
    revised: &RevisedBlock,
    space: &mut Space,
    before: &mut SymBoard,
    _elements: &[Term],
) -> Result<Came, NoMemory>
    requires in_old { IsInOld revised.now space.old before.old _elements.now }
    requires idle { before.old.asked ≡ None }
    requires below { before.old.place.cycle < revised.now.block.bound }
    ensures later { OnOk result (IsLater space.old.terms space.new.terms) }
    ensures in_old { OnOk result (IsInOld revised.now space.new before.new _elements.now) }
    ensures comes { IfOk result (HasCome (program_on Old revised.now.revision) revised.now.block.bound space.new before.new) }
    ensures goes { IfOk result (λ came. (own : List ℕ) (bits : List Decided) (path : Function)
        → IsOnOld revised.now.revision revised.now.block space.old own _elements.now before.old bits path
        → ComesInOld revised.now space.new own _elements.now before.new bits path came) }
{
    let came = go(alloc, revised, Side::Old, space, before)?;
    Ok(came)
}

/// The line of the old board's first cycle, which is that of the new one's.
fn first_line(space: &Space) -> Term
    requires { HasFirstLine space.now.terms space.now.words }
    ensures { term_of space.now.words (Line 0) ≡ Some result }
{
    match space.words.find(WordKind::Line(0)) {
        Some(line) => line,
        None => unreachable!(),
    }
}

/// The new program's board at the block, with these terms for its elements and for the line of its first cycle.
fn board_beside(
    alloc: Global,
    revised: &RevisedBlock,
    elements: &[Term],
    line: Term,
) -> Result<SymBoard, NoMemory>
    requires { length elements.now ≡ element_count revised.now.revision.board }
    ensures elements { IfOk result (λ b. HasElements revised.now.revision.board elements.now b.place.parts) }
    ensures begins { IfOk result (λ b. IsBeginning Machine revised.now.block.after revised.now.block.sp (Some line) b) }
    ensures symbolic { IfOk result (λ b. (store : List ℕ) (t : Table) (words : List Word) (m : Memory)
        → revised.now.block.after < 2 ^ 12 → revised.now.block.sp ≤ depth_of revised.now.revision.board
        → AreElements revised.now.revision.board t elements.now → IsOfWidth t 1 line
        → HaveWidths Machine revised.now.revision.board t words → AreNoLater Machine 0 words
        → IsSymbolic revised.now.revision.board store t words m b) }
{
    let block = revised.block;
    let revision = revised.revision;
    let address = block.address_on(Side::New);
    let board = SymBoard::beside(alloc, &revision.board, address, block.sp, elements, line)?;
    Ok(board)
}

/// The new program's board at the block, behind an old segment that has ended at a boundary, where the old board is
/// this one. It has made no cycle.
pub(crate) fn begin_new(
    alloc: Global,
    revised: &RevisedBlock,
    space: &Space,
    _before: &SymBoard,
    elements: &[Term],
) -> Result<SymBoard, NoMemory>
    requires in_old { IsInOld revised.now space.now _before.now elements.now }
    requires come { HasCome (program_on Old revised.now.revision) revised.now.block.bound space.now _before.now Reached }
    ensures in_new { IfOk result (IsInNew revised.now space.now _before.now) }
    ensures idle { IfOk result (λ after. after.asked ≡ None) }
    ensures below { IfOk result (λ after. after.place.cycle < revised.now.block.bound) }
    ensures goes { IfOk result (λ after. (own : List ℕ) (bits : List Decided) (path : Function)
        → HasMetOld revised.now.revision revised.now.block space.now own elements.now _before.now bits path
        → (b : Behind) × (b.board ≡ _before.now)
        × IsOnNew revised.now.revision revised.now.block space.now own elements.now b after bits path) }
{
    let line = first_line(space);
    let after = board_beside(alloc, revised, elements, line)?;
    Ok(after)
}

/// Goes on through the new program's segment: to the next bit, or to its end. The old board stands behind its own
/// segment; the contract alone speaks of it.
pub(crate) fn go_new(
    alloc: Global,
    revised: &RevisedBlock,
    space: &mut Space,
    _before: &SymBoard,
    after: &mut SymBoard,
) -> Result<Came, NoMemory>
    requires in_new { IsInNew revised.now space.old _before.now after.old }
    requires idle { after.old.asked ≡ None }
    requires below { after.old.place.cycle < revised.now.block.bound }
    ensures later { OnOk result (IsLater space.old.terms space.new.terms) }
    ensures in_new { OnOk result (IsInNew revised.now space.new _before.now after.new) }
    ensures comes { IfOk result (HasCome (program_on New revised.now.revision) revised.now.block.bound space.new after.new) }
    ensures goes { IfOk result (λ came. (own elements : List ℕ) (b : Behind) (bits : List Decided) (path : Function)
        → b.board ≡ _before.now
        → IsOnNew revised.now.revision revised.now.block space.old own elements b after.old bits path
        → ComesInNew revised.now space.new own elements b after.new bits path came) }
{
    let came = go(alloc, revised, Side::New, space, after)?;
    Ok(came)
}
