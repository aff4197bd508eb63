// If-then-else over nodes.
ghost use Rattle.std.specs.Prelude.{◌≡◌, ◌<◌, ◌≤◌, ℕ, [], Option, Some, None, true, false, length, IfOk, IfSome, OnOk};
ghost use Rattle.std.specs.Prelude.{IsErrOf};
ghost use Rattle.mw_term.specs.Cofactors.{HasMoreCofactors};
ghost use Rattle.mw_dd.specs.declared.nodes.Triple as declared;
ghost use Rattle.mw_dd.specs.declared.ite.Next as next;
ghost use Rattle.mw_dd.specs.Nodes.{IsReduced};
ghost use Rattle.mw_dd.specs.Steps.{Grows, AreDds, IsEnd, ends, meaning};
ghost use Rattle.mw_dd.specs.Kept.{AreMade};
ghost use Rattle.mw_dd.specs.Memos.{IsCleared};
ghost use Rattle.mw_dd.specs.Waiting.{AreWaiting, AreNoted, HasEnded, StandsAt, steps_left};

use crate::dd::{Dd, DdFault};
use crate::nodes::{Node, Triple, halve, make, top};
use crate::notes::{Notes, Waiting};
use crate::unique_table::Nodes;
use mw_base::NoMemory;
use std::alloc::Global;

/// The result of an operation in which nothing is left to choose by, or to choose from.
pub(crate) fn end(t: Triple) -> Option<Dd>
    ensures some { IfSome result (λ r. IsEnd t r) }
    ensures none { result ≡ None → ends t ≡ false }
{
    if t.f.position() == 0 {
        return Some(t.h);
    }
    if t.f.position() == 1 || t.g == t.h {
        return Some(t.g);
    }
    None
}

/// What comes next on the way through an operation.
#[derive(Clone, Copy)]
pub(crate) enum Next {
    /// An operation, whose result isn't known yet.
    Enter(Triple),
    /// The result of an operation, for the one that waits for it.
    Return(Dd),
    /// The result of the whole.
    Done(Dd),
}

/// Goes into an operation: where its result isn't known, it waits for that of its low half.
fn enter(
    nodes: &Nodes,
    notes: &mut Notes,
    alloc: Global,
    t: Triple,
    budget: Option<u32>,
) -> Result<Next, DdFault>
    requires noted { (whole : declared.Triple) × AreNoted nodes.now notes.old budget whole
        × AreWaiting nodes.now notes.old.memo.triples budget whole notes.old.waiting.items t }
    ensures results { notes.new.results ≡ notes.old.results }
    ensures noted { (whole : declared.Triple) → AreNoted nodes.now notes.old budget whole
        → AreWaiting nodes.now notes.old.memo.triples budget whole notes.old.waiting.items t
        → IfOk result (λ after. AreNoted nodes.now notes.new budget whole
        × StandsAt nodes.now notes.new budget whole after) }
    ensures nearer { IfOk result (λ after.
        steps_left notes.new.waiting.items after < steps_left notes.old.waiting.items (next.Next.Enter t)) }
    ensures over { IsErrOf result DdFault.OverBudget → (whole : declared.Triple)
        → AreNoted nodes.now notes.old budget whole
        → AreWaiting nodes.now notes.old.memo.triples budget whole notes.old.waiting.items t
        → (b : ℕ) × (budget ≡ Some b) × HasMoreCofactors (meaning nodes.now whole) b }
{
    if let Some(result) = end(t) {
        return Ok(Next::Return(result));
    }
    if let Some(result) = notes.result(&t, budget) {
        return Ok(Next::Return(result));
    }
    let place = match notes.begin(alloc, t, budget) {
        Ok(place) => place,
        Err(e) => return Err(e),
    };
    let top = top(nodes, t);
    let halves = halve(nodes, t, top.variable);
    notes.wait(Waiting {
        triple: t,
        place,
        top,
        at_high: halves.high,
        has_low: false,
        low: Dd::at(0),
    })?;
    Ok(Next::Enter(halves.low))
}

/// Hands a result to the operation that waits for it. Where that is its low half's, it goes on with the high one; else
/// it has a result too.
fn go_on(
    nodes: &mut Nodes,
    notes: &mut Notes,
    alloc: Global,
    made: Dd,
    budget: Option<u32>,
) -> Result<Next, NoMemory>
    requires noted { (whole : declared.Triple) × AreNoted nodes.old notes.old budget whole
        × StandsAt nodes.old notes.old budget whole (next.Next.Return made) }
    ensures reduced { IsReduced nodes.new }
    ensures grows { Grows nodes.old nodes.new }
    ensures made { AreMade nodes.new notes.new.results }
    ensures noted { (whole : declared.Triple) → AreNoted nodes.old notes.old budget whole
        → StandsAt nodes.old notes.old budget whole (next.Next.Return made)
        → IfOk result (λ after. AreNoted nodes.new notes.new budget whole
        × StandsAt nodes.new notes.new budget whole after) }
    ensures nearer { IfOk result (λ after.
        steps_left notes.new.waiting.items after < steps_left notes.old.waiting.items (next.Next.Return made)) }
{
    if let Some(at_high) = notes.turn(made) {
        return Ok(Next::Enter(at_high));
    }
    let Some(waiting) = notes.last() else {
        return Ok(Next::Done(made));
    };
    let top = waiting.top;
    let node = Node {
        variable: top.variable,
        low: waiting.low,
        high: made,
    };
    let joined = make(nodes, alloc, node, top.index)?;
    // A slot for four nodes: more would cost memory than lost results cost time.
    notes.end(alloc, &waiting, joined, nodes.len() / 4, budget)?;
    Ok(Next::Return(joined))
}

/// The function that is the second where the first holds, and else the third. Where there is a budget, each different
/// triple that is met counts once, and at most as many are met; else results of earlier operations serve. Operations
/// wait in the notes, so that the stack needn't be as deep as there are variables.
pub(crate) fn choose(
    nodes: &mut Nodes,
    notes: &mut Notes,
    alloc: Global,
    t: Triple,
    budget: Option<u32>,
) -> Result<Dd, DdFault>
    requires reduced { IsReduced nodes.old }
    requires there { AreDds nodes.old t }
    requires made { AreMade nodes.old notes.old.results }
    requires none { (b : ℕ) → budget ≡ Some b → IsCleared notes.old.memo }
    ensures reduced { IsReduced nodes.new }
    ensures grows { Grows nodes.old nodes.new }
    ensures made { AreMade nodes.new notes.new.results }
    ensures ended { IfOk result (HasEnded nodes.new notes.new.memo.triples budget t) }
    ensures within { OnOk result ((b : ℕ) → budget ≡ Some b → length notes.new.memo.triples ≤ b) }
    ensures over { IsErrOf result DdFault.OverBudget
        → (b : ℕ) × (budget ≡ Some b) × HasMoreCofactors (meaning nodes.old t) b }
{
    notes.waiting.clear();
    let mut next = Next::Enter(t);
    loop {
        match next {
            Next::Enter(t) => match enter(nodes, notes, alloc, t, budget) {
                Ok(after) => next = after,
                Err(e) => return Err(e),
            },
            Next::Return(made) => next = go_on(nodes, notes, alloc, made, budget)?,
            Next::Done(result) => return Ok(result),
        }
    }
}
