// Two terms, compared.
ghost use Rattle.std.specs.Prelude.{◌≡◌, ℕ, IfOk, IfSome, None, OnOk};
ghost use Rattle.mw_rel.specs.ComparisonWords.{Subject, with_comparison};
ghost use Rattle.mw_term.specs.Assigned.{given_by};
ghost use Rattle.mw_term.specs.Cofactors.{Agree};
ghost use Rattle.mw_term.specs.declared.kinds.WordKind.TheVariants.{Probe};
ghost use Rattle.mw_term.specs.WordList.{term_of};
ghost use Rattle.mw_symmem.specs.Memory.{IsOfWidth};
ghost use Rattle.mw_symmem.specs.Workspace.{IsWorkspace};
ghost use Rattle.mw_path.specs.Paths.{StayOnPath, path_in};
ghost use Rattle.mw_compare.specs.Comparing.{AreOneOn, AreTwoAt, Compares, GoesComparing};
ghost use Rattle.mw_decide.specs.SpacePaths.{HavePaths};

use mw_decide::{RunStop, stop_of};
use mw_path::Paths;
use mw_space::Space;
use mw_term::{Assignment, Op, ShortcutBook, Term};
use std::alloc::Global;

/// The first assignment on the path under which two terms have two values, if there is one.
///
/// # Errors
///
/// An operation is over the budget of nodes, or memory ran out.
pub fn apart(
    alloc: Global,
    space: &mut Space,
    paths: &mut Paths,
    a: Term,
    b: Term,
    nodes: u32,
    book: &ShortcutBook,
) -> Result<Option<Assignment>, RunStop>
    requires wide { (width : ℕ) × IsOfWidth space.old.terms width a × IsOfWidth space.old.terms width b }
    requires workspace { IsWorkspace space.old.terms space.old.words space.old.memory }
    requires paths { HavePaths space.old paths.old }
    ensures goes { OnOk result (GoesComparing space.old space.new) }
    ensures memory { space.new.memory ≡ space.old.memory }
    ensures probe { OnOk result (term_of space.new.words Probe ≡ term_of space.old.words Probe) }
    ensures paths { OnOk result (HavePaths space.new paths.new) }
    ensures path { Agree (path_in paths.new) (path_in paths.old) }
    ensures stays { OnOk result (StayOnPath paths.old paths.new) }
    ensures compared { (subject : Subject)
        → Compares nodes space.old space.new (path_in paths.old) (with_comparison subject a b) result }
    ensures same { IfOk result (λ o. o ≡ None → AreOneOn space.new.terms (path_in paths.old) a b) }
    ensures apart { IfOk result (λ o. IfSome o (λ numbers. AreTwoAt space.new.terms (given_by numbers) a b)) }
{
    let same = space.words.add(alloc, &mut space.terms, Op::Eq(a, b))?;
    match paths.failing(alloc, &space.terms, same, nodes, book) {
        Ok(found) => Ok(found),
        Err(fault) => Err(stop_of(&space.words, fault)),
    }
}
