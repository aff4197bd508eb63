// The memories of both sides, compared.
ghost use Rattle.std.specs.Prelude.{◌≡◌, ◌<◌, ◌+◌, ◌^◌, IfOk, IfSome, None, OnOk, length};
ghost use Rattle.mw_expr.specs.declared.shape.Shape.{Shape};
ghost use Rattle.mw_rel.specs.ComparisonWords.{Sides, with_memory};
ghost use Rattle.mw_term.specs.Assigned.{given_by};
ghost use Rattle.mw_term.specs.Cofactors.{Agree};
ghost use Rattle.mw_term.specs.declared.kinds.WordKind.TheVariants.{Probe};
ghost use Rattle.mw_term.specs.WordList.{ended, memory_read_words, term_of};
ghost use Rattle.mw_symmem.specs.Memory.{IsOfWidth, IsRead, writes_of};
ghost use Rattle.mw_symmem.specs.Workspace.{IsWorkspace};
ghost use Rattle.mw_space.specs.Spaces.{list_of_space};
ghost use Rattle.mw_path.specs.Paths.{StayOnPath, path_in};
ghost use Rattle.mw_compare.specs.Comparing.{AreOneAtProbe, AreTwoInMemory, AreWritesOn, Compares, GoesComparing};
ghost use Rattle.mw_decide.specs.SpacePaths.{HavePaths};

use crate::terms::apart;
use mw_base::NoMemory;
use mw_decide::RunStop;
use mw_path::Paths;
use mw_space::Space;
use mw_symmem::Side;
use mw_term::{Assignment, ShortcutBook, Term, WordKind};
use std::alloc::Global;

/// What a side's memory holds at the probe.
///
/// # Errors
///
/// Memory ran out.
pub fn read_at(alloc: Global, space: &mut Space, side: Side, probe: Term) -> Result<Term, NoMemory>
    requires few { length space.old.memory.reads < 2 ^ 32 }
    requires workspace { IsWorkspace space.old.terms space.old.words space.old.memory }
    requires probe { IsOfWidth space.old.terms space.old.memory.address probe }
    ensures goes { OnOk result (GoesComparing space.old space.new) }
    ensures more { OnOk result (length space.new.memory.reads ≡ length space.old.memory.reads + 1) }
    ensures means { IfOk result (IsRead space.new.terms space.new.memory side probe) }
    ensures wide { IfOk result (IsOfWidth space.new.terms space.old.memory.word) }
    ensures listed { IfOk result (λ term. ended term (list_of_space space.new)
        ≡ memory_read_words space.old.memory.word probe (writes_of space.old.memory side) (list_of_space space.old)) }
{
    space
        .memory
        .read(alloc, side, probe, &mut space.terms, &mut space.words)
}

/// Compares the memories of both sides at an address that may be any.
///
/// # Errors
///
/// An operation is over the budget of nodes, or memory ran out.
pub fn compare_memory(
    alloc: Global,
    space: &mut Space,
    paths: &mut Paths,
    address: u8,
    nodes: u32,
    book: &ShortcutBook,
) -> Result<Option<Assignment>, RunStop>
    requires address { space.old.memory.address ≡ address }
    requires workspace { IsWorkspace space.old.terms space.old.words space.old.memory }
    requires fresh { term_of space.old.words Probe ≡ None }
    requires few { length space.old.memory.reads + 2 < 2 ^ 32 }
    requires paths { HavePaths space.old paths.old }
    ensures goes { OnOk result (GoesComparing space.old space.new) }
    ensures paths { OnOk result (HavePaths space.new paths.new) }
    ensures path { Agree (path_in paths.new) (path_in paths.old) }
    ensures stays { OnOk result (StayOnPath paths.old paths.new) }
    ensures compared { (s : Shape) (sides : Sides) → s.address ≡ space.old.memory.address
        → s.word ≡ space.old.memory.word → AreWritesOn space.old sides
        → Compares nodes space.old space.new (path_in paths.old) (with_memory s sides) result }
    ensures same { IfOk result (λ o. o ≡ None → AreOneAtProbe space.new (path_in paths.old)) }
    ensures apart { IfOk result (λ o. IfSome o (λ numbers. AreTwoInMemory space.new (given_by numbers))) }
{
    let probe = space
        .words
        .fresh(alloc, &mut space.terms, WordKind::Probe, address)?;
    let board = read_at(alloc, space, Side::Board, probe)?;
    let machine = read_at(alloc, space, Side::Machine, probe)?;
    apart(alloc, space, paths, board, machine, nodes, book)
}
