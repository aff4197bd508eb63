// How a bit is decided on a path.
ghost use Rattle.std.specs.Prelude.{◌≡◌, ◌&&◌, ℕ, List, IfErr, IfOk, IfSome, OnOk, true};
ghost use Rattle.std.specs.Option.{is_some};
ghost use Rattle.mw_dd.specs.Nodes.{IsDd, function_of};
ghost use Rattle.mw_decide.specs.Decisions.{GoesOnAs, IsFirstOn, IsListed, StopsIn};
ghost use Rattle.mw_decide.specs.SpacePaths.{HavePaths};
ghost use Rattle.mw_path.specs.Paths.{HaveGrown, path_in};
ghost use Rattle.mw_rel.specs.TreeBudgets.{IsWithin};
ghost use Rattle.mw_rel.specs.WordTree.{WordTree};
ghost use Rattle.mw_symboard.specs.Paths.{IsBy};
ghost use Rattle.mw_symmem.specs.Memory.{IsOfWidth};
ghost use Rattle.mw_term.specs.Assigned.{Given};
ghost use Rattle.mw_term.specs.declared.decided.Decided.{Decided};
ghost use Rattle.mw_term.specs.Numbered.{IsNumbered};
ghost use Rattle.mw_term.specs.Table.{IsTable};

use crate::fault::{RunStop, stop_of};
use mw_blast::over_have_numbers;
use mw_dd::Dd;
use mw_explore::Choice;
use mw_path::{Feasible, Paths};
use mw_space::Space;
use mw_term::{ShortcutBook, Term};
use std::alloc::Global;

/// The path on which a bit is 1, where both values are feasible.
fn other_path(feasible: Feasible, one: Dd) -> Option<Dd>
    ensures some { IfSome result (λ path. (path ≡ one) × (feasible.zero ≡ true) × (feasible.one ≡ true)) }
    ensures same { is_some result ≡ (feasible.zero && feasible.one) }
{
    if feasible.zero && feasible.one {
        Some(one)
    } else {
        None
    }
}

/// Decides a bit by its term: its value is the first that it has on the path, which is gone on by it; the other is the
/// path on which it is 1, where it has both. The path is true somewhere.
///
/// # Errors
///
/// - `Over`: an operation at that word and bit has more joint cofactors than so many nodes, of the bit's term, of those
///   that it stands on, or of the path words of the bit.
/// - `NoMemory`: memory ran out.
pub fn decide(
    alloc: Global,
    space: &Space,
    paths: &mut Paths,
    term: Term,
    nodes: u32,
    book: &ShortcutBook,
) -> Result<Choice<Dd>, RunStop>
    requires table { IsTable space.now.terms }
    requires wide { IsOfWidth space.now.terms 1 term }
    requires paths { HavePaths space.now paths.old }
    ensures paths { OnOk result (HavePaths space.now paths.new) }
    ensures grown { OnOk result (HaveGrown paths.old paths.new) }
    ensures there { IfOk result (λ choice. IfSome choice.other (IsDd paths.new.dds)) }
    ensures first { IfOk result (λ choice. (given : Given) → path_in paths.old given ≡ true
        → IsFirstOn space.now.terms term (path_in paths.old) choice.value (is_some choice.other)) }
    ensures by { IfOk result (λ choice.
        IsBy space.now.terms term choice.value (path_in paths.old) (path_in paths.new)) }
    ensures turned { IfOk result (λ choice. IfSome choice.other (λ path.
        IsBy space.now.terms term true (path_in paths.old) (function_of paths.new.dds path))) }
    ensures goes { IfOk result (λ choice. (tree : WordTree) (bits : List Decided)
        → IsListed tree bits space.now (path_in paths.old) term
        → GoesOnAs tree bits choice.value (path_in paths.new)) }
    ensures turns { IfOk result (λ choice. IfSome choice.other (λ path. (tree : WordTree) (bits : List Decided)
        → IsListed tree bits space.now (path_in paths.old) term
        → GoesOnAs tree bits true (function_of paths.new.dds path))) }
    ensures within { OnOk result ((tree : WordTree) (bits : List Decided)
        → IsListed tree bits space.now (path_in paths.old) term → IsWithin tree nodes bits) }
    ensures over { IfErr result (λ stop. (tree : WordTree) (bits : List Decided)
        → IsListed tree bits space.now (path_in paths.old) term → IsNumbered (tree.words bits).list
        → StopsIn tree nodes bits stop) }
{
    // A law for the proof: each term of a numbered list that is no constant has a word, and so has one that is over a
    // budget.
    over_have_numbers();
    let split = match paths.split(alloc, &space.terms, term, nodes, book) {
        Ok(split) => split,
        Err(fault) => return Err(stop_of(&space.words, fault)),
    };
    let feasible = paths.feasible(&split);
    let value = !feasible.zero;
    paths.go(&split, value);
    Ok(Choice {
        value,
        other: other_path(feasible, split.one),
    })
}
