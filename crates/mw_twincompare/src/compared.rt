// All that is compared of a twin case.
ghost use Rattle.std.specs.Prelude.{◌≡◌, ◌<◌, ◌+◌, ◌^◌, All, IfOk, IfSome, None, OnOk, length, true};
ghost use Rattle.mw_compare.specs.Comparing.{Compares, GoesComparing};
ghost use Rattle.mw_decide.specs.SpacePaths.{HavePaths};
ghost use Rattle.mw_path.specs.Paths.{AreMade, StayOnPath, path_in};
ghost use Rattle.mw_rel.specs.ComparisonWords.{are_alike};
ghost use Rattle.mw_revise.specs.Kept.{IsLine};
ghost use Rattle.mw_space.specs.Spaces.{IsSpaceOf};
ghost use Rattle.mw_symmem.specs.Words.{HaveOwnKinds};
ghost use Rattle.mw_term.specs.Assigned.{given_by};
ghost use Rattle.mw_term.specs.declared.kinds.WordKind.TheVariants.{Probe};
ghost use Rattle.mw_term.specs.declared.side.Side.TheVariants as sides;
ghost use Rattle.mw_term.specs.WordList.{term_of};
ghost use Rattle.mw_twincompare.specs.KeptOnTerms.{AreApart, AreOne, HaveTerms, compared_behind, sides_of};

use crate::ends::Ends;
use crate::lines::compare_lines;
use mw_compare::{compare_events, compare_memory};
use mw_decide::RunStop;
use mw_path::Paths;
use mw_revise::KeepLine;
use mw_space::Space;
use mw_term::{Assignment, ShortcutBook};
use std::alloc::Global;

/// Compares the events of both boards, the lines of the block that they have reached, and the memory.
///
/// # Errors
///
/// An operation is over the budget of nodes, or memory ran out.
pub(crate) fn compare_all(
    alloc: Global,
    ends: &Ends,
    space: &mut Space,
    paths: &mut Paths,
    lines: &[KeepLine],
    nodes: u32,
    book: &ShortcutBook,
) -> Result<Option<Assignment>, RunStop>
    requires alike { are_alike ends.now.old_board.now.events ends.now.new_board.now.events ≡ true }
    requires old_side { ends.now.old_board.now.place.side ≡ sides.Board }
    requires new_side { ends.now.new_board.now.place.side ≡ sides.Machine }
    requires lines { All (IsLine ends.now.board.now) lines.now }
    requires terms { HaveTerms ends.now.board.now space.old.terms ends.now.old_board.now ends.now.new_board.now }
    requires few { length space.old.memory.reads + 2 < 2 ^ 32 }
    requires space { IsSpaceOf ends.now.board.now space.old.terms space.old.words space.old.memory }
    requires fresh { term_of space.old.words Probe ≡ None }
    requires paths { HavePaths space.old paths.old }
    ensures goes { OnOk result (GoesComparing space.old space.new) }
    ensures own { OnOk result (HaveOwnKinds space.new.words) }
    ensures made { OnOk result (AreMade paths.new) }
    ensures stays { OnOk result (StayOnPath paths.old paths.new) }
    ensures compared { Compares nodes space.old space.new (path_in paths.old) (compared_behind ends.now.board.now lines.now
        (sides_of ends.now.board.now space.old ends.now.old_board.now ends.now.new_board.now)) result }
    ensures same { IfOk result (λ o. o ≡ None → AreOne ends.now.board.now space.old space.new (path_in paths.old)
        ends.now.old_board.now ends.now.new_board.now lines.now) }
    ensures apart { IfOk result (λ o. IfSome o (λ numbers. AreApart ends.now.board.now space.old space.new
        (given_by numbers) ends.now.old_board.now ends.now.new_board.now lines.now)) }
{
    let old_events = ends.old_board.events();
    let new_events = ends.new_board.events();
    if let Some(found) = compare_events(alloc, space, paths, old_events, new_events, nodes, book)? {
        // A call for the proof: no two variables have one kind.
        let _ = space.words.count();
        return Ok(Some(found));
    }
    if let Some(found) = compare_lines(alloc, ends, space, paths, lines, nodes, book)? {
        // A call for the proof: no two variables have one kind.
        let _ = space.words.count();
        return Ok(Some(found));
    }
    let address = ends.board.parts().address;
    let compared = compare_memory(alloc, space, paths, address, nodes, book);
    // A call for the proof: no two variables have one kind.
    let _ = space.words.count();
    compared
}
