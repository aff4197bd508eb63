// The first assignment under which a function holds.
ghost use Rattle.std.specs.Prelude.{◌≡◌, ◌<◌, ◌≤◌, ℕ, ◌↔◌, true, IsTrue, IfOk, OnOk};
ghost use Rattle.mw_term.specs.Assigned.{given_by};
ghost use Rattle.mw_term.specs.Cofactors.{value_of};
ghost use Rattle.mw_term.specs.Cofactors as cofactors;
ghost use Rattle.mw_dd.specs.Nodes.{IsDd, IsReduced, function_of};
ghost use Rattle.mw_dd.specs.Diagrams.{IsFirst};
ghost use Rattle.mw_dd.specs.Walks.{Walks};

use crate::dd::Dd;
use crate::nodes::{Node, inner};
use crate::unique_table::Nodes;
use crate::variable::Variable;
use mw_base::NoMemory;
use mw_term::Assignment;
use std::alloc::Global;

/// Gives a variable the value 1, and leaves the others.
fn raise(assignment: &mut Assignment, alloc: Global, variable: Variable) -> Result<(), NoMemory>
    requires { variable.bit < 32 }
    ensures own { OnOk result (value_of variable (given_by assignment.new) ≡ true) }
    ensures others { OnOk result ((u : cofactors.Variable) → ¬ (u ≡ variable)
        → value_of u (given_by assignment.new) ≡ value_of u (given_by assignment.old)) }
{
    let number = assignment.number(variable.word) | 1 << variable.bit;
    assignment.set(alloc, variable.word, number)
}

/// Whether the first assignment raises a node's variable: where its low branch holds never.
fn raises(node: &Node) -> bool
    ensures { IsTrue result ↔ (node.now.low ≡ 0) }
{
    node.low.position() == 0
}

/// The branch of a node that the first assignment takes: the low one, unless it holds never.
fn first_branch(
    nodes: &Nodes,
    alloc: Global,
    assignment: &mut Assignment,
    x: Dd,
) -> Result<Dd, NoMemory>
    requires reduced { IsReduced nodes.now }
    requires there { IsDd nodes.now x }
    requires inner { 2 ≤ x }
    ensures earlier { IfOk result (λ y. y < x) }
    ensures walks { IfOk result (λ y. (whole : ℕ) → Walks nodes.now whole assignment.old x
        → Walks nodes.now whole assignment.new y) }
{
    let node = inner(nodes, x);
    if raises(&node) {
        raise(assignment, alloc, node.variable)?;
        return Ok(node.high);
    }
    Ok(node.low)
}

/// The first assignment under which a function holds, which isn't never.
pub(crate) fn first_assignment(nodes: &Nodes, alloc: Global, x: Dd) -> Result<Assignment, NoMemory>
    requires reduced { IsReduced nodes.now }
    requires there { IsDd nodes.now x }
    requires some { 0 < x }
    ensures { IfOk result (λ a. IsFirst (function_of nodes.now x) a) }
{
    let mut assignment = Assignment::new(alloc);
    let mut at = x;
    while at.position() >= 2 {
        at = first_branch(nodes, alloc, &mut assignment, at)?;
    }
    Ok(assignment)
}
