// A term that is compared with a value.
ghost use Rattle.std.specs.Prelude.{◌≡◌, ◌≢◌, ◌<◌, ◌^◌, IfOk, IfSome, None, OnOk};
ghost use Rattle.mw_board.specs.Elements.{element_count};
ghost use Rattle.mw_compare.specs.Comparing.{Compares, GoesComparing};
ghost use Rattle.mw_cycle.specs.Elements.{bits_of, element_of};
ghost use Rattle.mw_decide.specs.SpacePaths.{HavePaths};
ghost use Rattle.mw_path.specs.Paths.{StayOnPath, path_in};
ghost use Rattle.mw_revise.specs.Elements.{element_bound};
ghost use Rattle.mw_revise.specs.TwinComparisonWords.{with_value};
ghost use Rattle.mw_space.specs.Spaces.{list_of_space};
ghost use Rattle.mw_symmem.specs.Memory.{IsOfWidth};
ghost use Rattle.mw_symmem.specs.Workspace.{IsWorkspace};
ghost use Rattle.mw_term.specs.Assigned.{given_by};
ghost use Rattle.mw_term.specs.Cofactors.{Agree};
ghost use Rattle.mw_term.specs.declared.kinds.WordKind.TheVariants.{Probe};
ghost use Rattle.mw_term.specs.Functions.{always};
ghost use Rattle.mw_term.specs.Table.{IsWidth};
ghost use Rattle.mw_term.specs.Values.{term_value};
ghost use Rattle.mw_term.specs.WordList.{ended, term_of, with_constant};
ghost use Rattle.mw_twincompare.specs.KeptOnTerms.{HasValueOn};

use mw_base::NoMemory;
use mw_board::Board;
use mw_compare::apart;
use mw_decide::RunStop;
use mw_path::Paths;
use mw_space::Space;
use mw_term::{Assignment, Op, ShortcutBook, Term};
use mw_twin::width_of;
use std::alloc::Global;

/// A constant of this value, as a term.
fn constant(alloc: Global, value: u32, width: u8, space: &mut Space) -> Result<Term, NoMemory>
    requires width { IsWidth width }
    requires fits { value < 2 ^ width }
    requires workspace { IsWorkspace space.old.terms space.old.words space.old.memory }
    ensures goes { OnOk result (GoesComparing space.old space.new) }
    ensures memory { OnOk result (space.new.memory ≡ space.old.memory) }
    ensures words { OnOk result (space.new.words ≡ space.old.words) }
    ensures wide { IfOk result (IsOfWidth space.new.terms width) }
    ensures is { IfOk result (λ term. HasValueOn space.new.terms always term value) }
    ensures listed { IfOk result (λ term. ended term (list_of_space space.new)
        ≡ with_constant value width (list_of_space space.old)) }
{
    let term = space.terms.write(alloc, Op::Con(value, width))?;
    Ok(term)
}

/// The first assignment on the path under which the term of an element has another value than this one, if there is
/// one.
///
/// # Errors
///
/// An operation is over the budget of nodes, or memory ran out.
pub(crate) fn compare_value(
    alloc: Global,
    board: &Board,
    space: &mut Space,
    paths: &mut Paths,
    element: u32,
    term: Term,
    value: u32,
    nodes: u32,
    book: &ShortcutBook,
) -> Result<Option<Assignment>, RunStop>
    requires there { element < element_count board.now }
    requires fits { value < element_bound board.now element }
    requires wide { IsOfWidth space.old.terms (bits_of board.now (element_of board.now element)) term }
    requires workspace { IsWorkspace space.old.terms space.old.words space.old.memory }
    requires paths { HavePaths space.old paths.old }
    ensures goes { OnOk result (GoesComparing space.old space.new) }
    ensures paths { OnOk result (HavePaths space.new paths.new) }
    ensures path { Agree (path_in paths.new) (path_in paths.old) }
    ensures stays { OnOk result (StayOnPath paths.old paths.new) }
    ensures memory { OnOk result (space.new.memory ≡ space.old.memory) }
    ensures probe { OnOk result (term_of space.new.words Probe ≡ term_of space.old.words Probe) }
    ensures compared { Compares nodes space.old space.new (path_in paths.old) (with_value board.now element term value)
        result }
    ensures same { IfOk result (λ o. o ≡ None → HasValueOn space.old.terms (path_in paths.old) term value) }
    ensures apart { IfOk result (λ o. IfSome o (λ numbers.
        term_value space.old.terms (given_by numbers) term ≢ value)) }
{
    let width = width_of(board, element);
    let wanted = constant(alloc, value, width, space)?;
    apart(alloc, space, paths, term, wanted, nodes, book)
}
