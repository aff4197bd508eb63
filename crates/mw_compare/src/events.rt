// The events of both sides, compared.
ghost use Rattle.std.specs.Prelude.{◌≡◌, ◌↔◌, ◌∷◌, [], ℕ, IfOk, IfSome, None, OnOk, Some, true};
ghost use Rattle.mw_rel.specs.ComparisonWords.{are_alike, with_events};
ghost use Rattle.mw_term.specs.Assigned.{given_by};
ghost use Rattle.mw_term.specs.Cofactors.{Agree};
ghost use Rattle.mw_term.specs.declared.event.SymEvent.TheVariants.{Out};
ghost use Rattle.mw_term.specs.declared.kinds.WordKind.TheVariants.{Probe};
ghost use Rattle.mw_term.specs.WordList.{term_of};
ghost use Rattle.mw_symmem.specs.Memory.{IsOfWidth};
ghost use Rattle.mw_symmem.specs.Workspace.{IsWorkspace};
ghost use Rattle.mw_path.specs.Paths.{StayOnPath, path_in};
ghost use Rattle.mw_compare.specs.Comparing.{AreEventsOf, AreOneOn, ArePutOut, AreTwoAt, Compares, GoesComparing};
ghost use Rattle.mw_decide.specs.SpacePaths.{HavePaths};

use crate::terms::apart;
use mw_decide::RunStop;
use mw_path::Paths;
use mw_space::Space;
use mw_symmem::SymEvent;
use mw_term::{Assignment, ShortcutBook, Term};
use std::alloc::Global;

/// The word that an event puts out, if it is none that was taken.
pub fn out_of(event: SymEvent) -> Option<Term>
    ensures { (term : ℕ) → (result ≡ Some term) ↔ (event ≡ Out term) }
{
    match event {
        SymEvent::Out(term) => Some(term),
        SymEvent::Taken(_) => None,
    }
}

/// Whether both sides have equally many events, of the same kinds.
pub fn alike(board: &[SymEvent], machine: &[SymEvent]) -> bool
    ensures { result ≡ are_alike board.now machine.now }
{
    if board.len() != machine.len() {
        return false;
    }
    for number in 0..board.len() {
        if out_of(board[number]).is_some() != out_of(machine[number]).is_some() {
            return false;
        }
    }
    true
}

/// Compares the words of two events, if both put one out.
///
/// # Errors
///
/// An operation is over the budget of nodes, or memory ran out.
pub fn compare_pair(
    alloc: Global,
    space: &mut Space,
    paths: &mut Paths,
    board: SymEvent,
    machine: SymEvent,
    nodes: u32,
    book: &ShortcutBook,
) -> Result<Option<Assignment>, RunStop>
    requires wide { (a b : ℕ) → board ≡ Out a → machine ≡ Out b
        → (word : ℕ) × IsOfWidth space.old.terms word a × IsOfWidth space.old.terms word b }
    requires workspace { IsWorkspace space.old.terms space.old.words space.old.memory }
    requires paths { HavePaths space.old paths.old }
    ensures goes { OnOk result (GoesComparing space.old space.new) }
    ensures paths { OnOk result (HavePaths space.new paths.new) }
    ensures path { Agree (path_in paths.new) (path_in paths.old) }
    ensures stays { OnOk result (StayOnPath paths.old paths.new) }
    ensures memory { OnOk result (space.new.memory ≡ space.old.memory) }
    ensures probe { OnOk result (term_of space.new.words Probe ≡ term_of space.old.words Probe) }
    ensures compared { (number : ℕ) → Compares nodes space.old space.new (path_in paths.old)
        (with_events number (board ∷ []) (machine ∷ [])) result }
    ensures same { IfOk result (λ o. o ≡ None → (a b : ℕ) → board ≡ Out a → machine ≡ Out b
        → AreOneOn space.new.terms (path_in paths.old) a b) }
    ensures apart { IfOk result (λ o. IfSome o (λ numbers. (a : ℕ) × (b : ℕ) × (board ≡ Out a) × (machine ≡ Out b)
        × AreTwoAt space.new.terms (given_by numbers) a b)) }
{
    let Some(a) = out_of(board) else {
        return Ok(None);
    };
    let Some(b) = out_of(machine) else {
        return Ok(None);
    };
    apart(alloc, space, paths, a, b, nodes, book)
}

/// Compares the words that both sides put out, pair by pair.
///
/// # Errors
///
/// An operation is over the budget of nodes, or memory ran out.
pub fn compare_events(
    alloc: Global,
    space: &mut Space,
    paths: &mut Paths,
    board: &[SymEvent],
    machine: &[SymEvent],
    nodes: u32,
    book: &ShortcutBook,
) -> Result<Option<Assignment>, RunStop>
    requires alike { are_alike board.now machine.now ≡ true }
    requires wide { (word : ℕ) × AreEventsOf space.old.terms word board.now
        × AreEventsOf space.old.terms word machine.now }
    requires workspace { IsWorkspace space.old.terms space.old.words space.old.memory }
    requires paths { HavePaths space.old paths.old }
    ensures goes { OnOk result (GoesComparing space.old space.new) }
    ensures paths { OnOk result (HavePaths space.new paths.new) }
    ensures path { Agree (path_in paths.new) (path_in paths.old) }
    ensures stays { OnOk result (StayOnPath paths.old paths.new) }
    ensures memory { OnOk result (space.new.memory ≡ space.old.memory) }
    ensures probe { OnOk result (term_of space.new.words Probe ≡ term_of space.old.words Probe) }
    ensures compared { Compares nodes space.old space.new (path_in paths.old) (with_events 0 board.now machine.now)
        result }
    ensures same { IfOk result (λ o. o ≡ None → (number a b : ℕ) → ArePutOut board.now machine.now number a b
        → AreOneOn space.new.terms (path_in paths.old) a b) }
    ensures apart { IfOk result (λ o. IfSome o (λ numbers. (number : ℕ) × (a : ℕ) × (b : ℕ)
        × ArePutOut board.now machine.now number a b × AreTwoAt space.new.terms (given_by numbers) a b)) }
{
    for number in 0..board.len() {
        if let Some(found) = compare_pair(
            alloc,
            space,
            paths,
            board[number],
            machine[number],
            nodes,
            book,
        )? {
            return Ok(Some(found));
        }
    }
    Ok(None)
}
