// The lines of a block, compared.
ghost use Rattle.std.specs.Prelude.{◌≡◌, ◌≢◌, ◌<◌, ℕ, All, IfOk, IfSome, None, OnOk, Some, length, slice_get};
ghost use Rattle.mw_board.specs.Elements.{element_count};
ghost use Rattle.mw_compare.specs.Comparing.{Compares, GoesComparing};
ghost use Rattle.mw_decide.specs.SpacePaths.{HavePaths};
ghost use Rattle.mw_path.specs.Paths.{StayOnPath, path_in};
ghost use Rattle.mw_revise.specs.declared.keep.KeepLine as kept;
ghost use Rattle.mw_revise.specs.declared.keep.KeepLine.TheVariants.{Fixed};
ghost use Rattle.mw_revise.specs.Elements.{element_bound};
ghost use Rattle.mw_revise.specs.Kept.{IsLine};
ghost use Rattle.mw_revise.specs.TwinComparisonWords.{with_keep_line, with_keep_lines};
ghost use Rattle.mw_symmem.specs.Workspace.{IsWorkspace};
ghost use Rattle.mw_term.specs.Assigned.{given_by};
ghost use Rattle.mw_term.specs.Cofactors.{Agree};
ghost use Rattle.mw_term.specs.declared.kinds.WordKind.TheVariants.{Probe};
ghost use Rattle.mw_term.specs.WordList.{term_of};
ghost use Rattle.mw_twincompare.specs.KeptOnTerms.{HaveTerms, HoldsAt, HoldsOn, terms_of_both};

use crate::ends::Ends;
use crate::values::compare_value;
use mw_compare::apart;
use mw_decide::RunStop;
use mw_path::Paths;
use mw_revise::KeepLine;
use mw_space::Space;
use mw_term::{Assignment, ShortcutBook};
use std::alloc::Global;

/// Compares the values of a fixed element: that on the old board with its old value, and then that on the new board with
/// its new one.
fn compare_fixed(
    alloc: Global,
    ends: &Ends,
    space: &mut Space,
    paths: &mut Paths,
    element: u32,
    old_value: u32,
    new_value: u32,
    nodes: u32,
    book: &ShortcutBook,
) -> Result<Option<Assignment>, RunStop>
    requires line { IsLine ends.now.board.now (Fixed element old_value new_value) }
    requires terms { HaveTerms ends.now.board.now space.old.terms ends.now.old_board.now ends.now.new_board.now }
    requires workspace { IsWorkspace space.old.terms space.old.words space.old.memory }
    requires paths { HavePaths space.old paths.old }
    ensures goes { OnOk result (GoesComparing space.old space.new) }
    ensures paths { OnOk result (HavePaths space.new paths.new) }
    ensures path { Agree (path_in paths.new) (path_in paths.old) }
    ensures stays { OnOk result (StayOnPath paths.old paths.new) }
    ensures memory { OnOk result (space.new.memory ≡ space.old.memory) }
    ensures probe { OnOk result (term_of space.new.words Probe ≡ term_of space.old.words Probe) }
    ensures compared { Compares nodes space.old space.new (path_in paths.old) (with_keep_line ends.now.board.now
        (terms_of_both ends.now.board.now ends.now.old_board.now ends.now.new_board.now)
        (Fixed element old_value new_value)) result }
    ensures same { IfOk result (λ o. o ≡ None → HoldsOn ends.now.board.now space.old.terms (path_in paths.old)
        ends.now.old_board.now ends.now.new_board.now (Fixed element old_value new_value)) }
    ensures apart { IfOk result (λ o. IfSome o (λ numbers. ¬ HoldsAt ends.now.board.now space.old.terms
        (given_by numbers) ends.now.old_board.now ends.now.new_board.now (Fixed element old_value new_value))) }
{
    let before = ends.old_board.element(ends.board, element);
    if let Some(found) = compare_value(
        alloc, ends.board, space, paths, element, before, old_value, nodes, book,
    )? {
        return Ok(Some(found));
    }
    let after = ends.new_board.element(ends.board, element);
    compare_value(
        alloc, ends.board, space, paths, element, after, new_value, nodes, book,
    )
}

/// Compares what both boards have in the element of a line: a kept element's two values, and each value of a fixed one
/// with what it has to be.
fn compare_line(
    alloc: Global,
    ends: &Ends,
    space: &mut Space,
    paths: &mut Paths,
    line: KeepLine,
    nodes: u32,
    book: &ShortcutBook,
) -> Result<Option<Assignment>, RunStop>
    requires line { IsLine ends.now.board.now line }
    requires terms { HaveTerms ends.now.board.now space.old.terms ends.now.old_board.now ends.now.new_board.now }
    requires workspace { IsWorkspace space.old.terms space.old.words space.old.memory }
    requires paths { HavePaths space.old paths.old }
    ensures goes { OnOk result (GoesComparing space.old space.new) }
    ensures paths { OnOk result (HavePaths space.new paths.new) }
    ensures path { Agree (path_in paths.new) (path_in paths.old) }
    ensures stays { OnOk result (StayOnPath paths.old paths.new) }
    ensures memory { OnOk result (space.new.memory ≡ space.old.memory) }
    ensures probe { OnOk result (term_of space.new.words Probe ≡ term_of space.old.words Probe) }
    ensures compared { Compares nodes space.old space.new (path_in paths.old) (with_keep_line ends.now.board.now
        (terms_of_both ends.now.board.now ends.now.old_board.now ends.now.new_board.now) line) result }
    ensures same { IfOk result (λ o. o ≡ None → HoldsOn ends.now.board.now space.old.terms (path_in paths.old)
        ends.now.old_board.now ends.now.new_board.now line) }
    ensures apart { IfOk result (λ o. IfSome o (λ numbers. ¬ HoldsAt ends.now.board.now space.old.terms
        (given_by numbers) ends.now.old_board.now ends.now.new_board.now line)) }
{
    match line {
        KeepLine::Equal(element) => apart(
            alloc,
            space,
            paths,
            ends.old_board.element(ends.board, element),
            ends.new_board.element(ends.board, element),
            nodes,
            book,
        ),
        KeepLine::Fixed(element, old_value, new_value) => compare_fixed(
            alloc, ends, space, paths, element, old_value, new_value, nodes, book,
        ),
    }
}

/// The line with this number, which is there.
fn line_at(lines: &[KeepLine], number: usize) -> KeepLine
    requires { number < length lines.now }
    ensures { slice_get lines.now number ≡ Some result }
{
    lines[number]
}

/// Compares what both boards have in the elements of lines, line after line.
///
/// # Errors
///
/// An operation is over the budget of nodes, or memory ran out.
pub(crate) fn compare_lines(
    alloc: Global,
    ends: &Ends,
    space: &mut Space,
    paths: &mut Paths,
    lines: &[KeepLine],
    nodes: u32,
    book: &ShortcutBook,
) -> Result<Option<Assignment>, RunStop>
    requires lines { All (IsLine ends.now.board.now) lines.now }
    requires terms { HaveTerms ends.now.board.now space.old.terms ends.now.old_board.now ends.now.new_board.now }
    requires workspace { IsWorkspace space.old.terms space.old.words space.old.memory }
    requires paths { HavePaths space.old paths.old }
    ensures goes { OnOk result (GoesComparing space.old space.new) }
    ensures paths { OnOk result (HavePaths space.new paths.new) }
    ensures path { Agree (path_in paths.new) (path_in paths.old) }
    ensures stays { OnOk result (StayOnPath paths.old paths.new) }
    ensures memory { OnOk result (space.new.memory ≡ space.old.memory) }
    ensures probe { OnOk result (term_of space.new.words Probe ≡ term_of space.old.words Probe) }
    ensures compared { Compares nodes space.old space.new (path_in paths.old) (with_keep_lines ends.now.board.now
        (terms_of_both ends.now.board.now ends.now.old_board.now ends.now.new_board.now) lines.now) result }
    ensures same { IfOk result (λ o. o ≡ None → (i : ℕ) (line : kept.KeepLine) → slice_get lines.now i ≡ Some line
        → HoldsOn ends.now.board.now space.old.terms (path_in paths.old) ends.now.old_board.now
        ends.now.new_board.now line) }
    ensures apart { IfOk result (λ o. IfSome o (λ numbers. (i : ℕ) × (line : kept.KeepLine)
        × (slice_get lines.now i ≡ Some line) × ¬ HoldsAt ends.now.board.now space.old.terms (given_by numbers)
        ends.now.old_board.now ends.now.new_board.now line)) }
{
    for number in 0..lines.len() {
        let line = line_at(lines, number);
        if let Some(found) = compare_line(alloc, ends, space, paths, line, nodes, book)? {
            return Ok(Some(found));
        }
    }
    Ok(None)
}
