// The first assignment under which a twin start of a case differs.
ghost use Rattle.std.specs.Prelude.{◌≡◌, ◌≤◌, ◌==◌, ℕ, List, All, IfErr, IfOk, IfSome, None, OnOk, Some, find, length};
ghost use Rattle.mw_compare.specs.TreeComparisons.{AreComparisonsWithin, ComparisonStopsIn};
ghost use Rattle.mw_decide.specs.SpacePaths.{HavePaths};
ghost use Rattle.mw_path.specs.Paths.{path_in};
ghost use Rattle.mw_revise.specs.declared.keep.Block as kept;
ghost use Rattle.mw_revise.specs.declared.programs.Side.TheVariants.{Old};
ghost use Rattle.mw_revise.specs.Kept.{IsBlock};
ghost use Rattle.mw_revise.specs.Revision.{block_at};
ghost use Rattle.mw_revise.specs.TwinWords.{twin_tree};
ghost use Rattle.mw_term.specs.declared.decided.Decided.{Decided};
ghost use Rattle.mw_term.specs.declared.kinds.WordKind.TheVariants.{Probe};
ghost use Rattle.mw_term.specs.WordList.{term_of};
ghost use Rattle.mw_twin.specs.Courses.{HasMetCase, HasRun};
ghost use Rattle.mw_twincompare.specs.Ended.{HaveEnded};
ghost use Rattle.mw_twincompare.specs.Failing.{IsFound, NoneDiffersOf, PathsStay, StaysAs};

use crate::compared::compare_all;
use crate::ends::{Ends, may_agree};
use mw_blast::over_have_numbers;
use mw_decide::RunStop;
use mw_path::Paths;
use mw_revise::{Block, Revision};
use mw_space::Space;
use mw_symboard::SymBoard;
use mw_term::{Assignment, ShortcutBook};
use mw_twin::{Course, RevisedBlock};
use std::alloc::Global;

/// The block at a control address of the old program among these, if there is one.
fn found_at(blocks: &[Block], address: u16) -> Option<&Block>
    ensures some { IfSome result (λ block.
        find (λ (b : kept.Block). b.before == address) blocks.now ≡ Some block.now) }
    ensures none { result ≡ None → find (λ (b : kept.Block). b.before == address) blocks.now ≡ None }
{
    for block in blocks {
        if block.before == address {
            return Some(block);
        }
    }
    None
}

/// The block at a control address of the old program, if there is one.
fn reached_at(revision: &Revision, address: u16) -> Option<&Block>
    ensures some { IfSome result (λ block. block_at Old revision.now address ≡ Some block.now) }
    ensures none { result ≡ None → block_at Old revision.now address ≡ None }
{
    found_at(revision.keep.blocks.as_slice(), address)
}

/// Compares both programs where both segments have ended at a boundary. Where the events aren't alike, the new board is
/// at another boundary or a stack pointer is another number, each assignment on the path shows a difference.
fn compare_boards(
    alloc: Global,
    revised: &RevisedBlock,
    space: &mut Space,
    paths: &mut Paths,
    old_board: &SymBoard,
    new_board: &SymBoard,
    nodes: u32,
    book: &ShortcutBook,
) -> Result<Option<Assignment>, RunStop>
    requires kept { All (IsBlock revised.now.revision.board) revised.now.revision.keep.blocks }
    requires ended { (bits : List Decided) × (old_elements : List ℕ) × (new_elements : List ℕ)
        × HaveEnded revised.now bits (path_in paths.old) space.old old_elements new_elements old_board.now
        new_board.now }
    requires few { length space.old.memory.reads ≤ 1024 }
    requires fresh { term_of space.old.words Probe ≡ None }
    requires paths { HavePaths space.old paths.old }
    ensures paths { OnOk result (PathsStay paths.old paths.new) }
    ensures none { IfOk result (λ o. o ≡ None → (bits : List Decided) (old_elements new_elements : List ℕ)
        → HaveEnded revised.now bits (path_in paths.old) space.old old_elements new_elements old_board.now
        new_board.now → NoneDiffersOf revised.now bits) }
    ensures within { IfOk result (λ o. o ≡ None → (bits : List Decided) (old_elements new_elements : List ℕ)
        → HaveEnded revised.now bits (path_in paths.old) space.old old_elements new_elements old_board.now
        new_board.now → AreComparisonsWithin (twin_tree revised.now.revision revised.now.block) nodes bits) }
    ensures found { IfOk result (λ o. IfSome o (λ numbers. (bits : List Decided) (old_elements new_elements : List ℕ)
        → HaveEnded revised.now bits (path_in paths.old) space.old old_elements new_elements old_board.now
        new_board.now → IsFound revised.now old_elements new_elements bits space.new numbers)) }
    ensures over { IfErr result (λ stop. (bits : List Decided) (old_elements new_elements : List ℕ)
        → HaveEnded revised.now bits (path_in paths.old) space.old old_elements new_elements old_board.now
        new_board.now → ComparisonStopsIn (twin_tree revised.now.revision revised.now.block) nodes bits stop) }
{
    // A law for the proof: a term that is over a budget has a word.
    over_have_numbers();
    let revision = revised.revision;
    let Some(reached) = reached_at(revision, old_board.at()) else {
        unreachable!()
    };
    if !may_agree(reached, old_board, new_board) {
        return Ok(paths.first_assignment(alloc)?);
    }
    let ends = Ends {
        board: &revision.board,
        old_board,
        new_board,
    };
    compare_all(
        alloc,
        &ends,
        space,
        paths,
        reached.lines.as_slice(),
        nodes,
        book,
    )
}

/// The first assignment of those that are sought in a twin case that a course has gone through, if there is one: of the
/// first comparison that can fail, on its path; and where each twin start of the case differs, of those on the path. The
/// course has met all bits of a case. Where there is no error, nothing exactly where no twin start with the case differs.
///
/// # Errors
///
/// - `Over`, only where an operation at that word and bit, in the word list of the case, has more joint cofactors than
///   `nodes`.
/// - `NoMemory`: memory ran out.
///
/// What the course works on, and the paths, are then no longer right for it.
pub fn first_failing(
    alloc: Global,
    revised: &RevisedBlock,
    course: &mut Course,
    paths: &mut Paths,
    nodes: u32,
    book: &ShortcutBook,
) -> Result<Option<Assignment>, RunStop>
    requires kept { All (IsBlock revised.now.revision.board) revised.now.revision.keep.blocks }
    requires run { HasRun revised.now course.old }
    requires met { (bits : List Decided)
        × HasMetCase revised.now bits (path_in paths.old) course.old course.old.new_board }
    requires paths { HavePaths course.old.space paths.old }
    ensures stays { OnOk result (StaysAs course.old course.new) }
    ensures paths { OnOk result (PathsStay paths.old paths.new) }
    ensures none { IfOk result (λ o. o ≡ None → (bits : List Decided)
        → HasMetCase revised.now bits (path_in paths.old) course.old course.old.new_board
        → NoneDiffersOf revised.now bits) }
    ensures within { IfOk result (λ o. o ≡ None → (bits : List Decided)
        → HasMetCase revised.now bits (path_in paths.old) course.old course.old.new_board
        → AreComparisonsWithin (twin_tree revised.now.revision revised.now.block) nodes bits) }
    ensures found { IfOk result (λ o. IfSome o (λ numbers. (bits : List Decided)
        → HasMetCase revised.now bits (path_in paths.old) course.old course.old.new_board
        → IsFound revised.now course.old.old_elements.items course.old.new_elements.items bits course.new.space
        numbers)) }
    ensures over { IfErr result (λ stop. (bits : List Decided)
        → HasMetCase revised.now bits (path_in paths.old) course.old course.old.new_board
        → ComparisonStopsIn (twin_tree revised.now.revision revised.now.block) nodes bits stop) }
{
    let Some(new_board) = &course.new_board else {
        return Ok(paths.first_assignment(alloc)?);
    };
    if course.late {
        return Ok(paths.first_assignment(alloc)?);
    }
    compare_boards(
        alloc,
        revised,
        &mut course.space,
        paths,
        &course.old_board,
        new_board,
        nodes,
        book,
    )
}
