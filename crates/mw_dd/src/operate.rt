// An operation within a budget, and what is kept of it.
ghost use Rattle.std.specs.Prelude.{◌≡◌, IfOk, OnOk, IsErrOf};
ghost use Rattle.mw_term.specs.Cofactors.{HasAtMostCofactors, HasMoreCofactors};
ghost use Rattle.mw_dd.specs.Kept.{AreRight};
ghost use Rattle.mw_dd.specs.Steps.{Grows, AreDds, IsResult, meaning};

use crate::bounds::{Bounds, is_within};
use crate::dd::{Dd, DdFault};
use crate::ite::{choose, end};
use crate::kept::{Kept, Slot};
use crate::nodes::Triple;
use crate::notes::Notes;
use crate::unique_table::Nodes;
use std::alloc::Global;

/// The function that is the second where the first holds, and else the third. Where it is known to be within the
/// budget, nothing is counted.
pub(crate) fn operate(
    nodes: &mut Nodes,
    notes: &mut Notes,
    counts: &mut Kept,
    bounds: &mut Bounds,
    alloc: Global,
    t: Triple,
    budget: u32,
) -> Result<Dd, DdFault>
    requires right { AreRight nodes.old notes.old.results counts.old bounds.old }
    requires there { AreDds nodes.old t }
    ensures right { AreRight nodes.new notes.new.results counts.new bounds.new }
    ensures grows { Grows nodes.old nodes.new }
    ensures value { IfOk result (λ r. IsResult nodes.new t r) }
    ensures within { OnOk result (HasAtMostCofactors (meaning nodes.old t) budget) }
    ensures over { IsErrOf result DdFault.OverBudget → HasMoreCofactors (meaning nodes.old t) budget }
{
    if let Some(result) = end(t) {
        return Ok(result);
    }
    let known = is_within(nodes, &notes.results, counts, bounds, &t, budget)?;
    if known {
        return choose(nodes, notes, alloc, t, None);
    }
    // The budget counts what this call meets, and nothing of earlier ones.
    notes.memo.clear();
    let result = match choose(nodes, notes, alloc, t, Some(budget)) {
        Ok(result) => result,
        Err(e) => return Err(e),
    };
    let count = notes.memo.triples.len() as u32;
    notes.results.put(Slot {
        triple: t,
        value: result.position(),
    });
    counts.keep(alloc, t, count, 0)?;
    Ok(result)
}
