// Nodes, ordered and reduced.
ghost use Rattle.std.specs.Prelude.{◌≡◌, ◌⊎◌, ◌-◌, ◌<◌, ◌≤◌, ◌↔◌, true, false, Some, slice_get, IsTrue, IfOk};
ghost use Rattle.std.specs.Prelude.{if◌then◌else◌};
ghost use Rattle.mw_term.specs.Assigned.{Given};
ghost use Rattle.mw_term.specs.Cofactors.{value_of, is_before};
ghost use Rattle.mw_dd.specs.Nodes.{value_at, IsDd, IsFrom, IsReduced, after};
ghost use Rattle.mw_dd.specs.Steps.{Grows, AreDds, HasVariable, IsTop, IsBranch, IsSide};

use crate::dd::Dd;
use crate::hash::scatter_near;
use crate::table::Key;
use crate::unique_table::Nodes;
use crate::variable::{Indexed, Variable};
use mw_base::NoMemory;
use std::alloc::Global;

/// A node: the function that is the high branch where its variable is 1, and else the low one.
#[derive(Clone, Copy)]
pub(crate) struct Node {
    pub variable: Variable,
    pub low: Dd,
    pub high: Dd,
}

impl Node {
    /// Whether its branches are one, so that it stands for what they do.
    fn is_redundant(&self) -> bool
        ensures { IsTrue result ↔ (self.now.low ≡ self.now.high) }
    {
        self.low == self.high
    }
}

/// An operation on nodes: what to choose by, what to choose where that holds, and what where it doesn't.
#[derive(Clone, Copy)]
pub(crate) struct Triple {
    pub f: Dd,
    pub g: Dd,
    pub h: Dd,
}

impl Key for Triple {
    ghost use Rattle.mw_dd.specs.Hash.{scattered_near};

    ghost hash_of = { λ t. scattered_near t.f t.h t.g };

    fn hash(&self) -> u32 {
        let f = u64::from(self.f.position());
        let h = u64::from(self.h.position());
        scatter_near(f, h, self.g.position())
    }

    fn is(&self, other: &Triple) -> bool {
        self.f == other.f && self.g == other.g && self.h == other.h
    }
}

/// A node that is no constant.
pub(crate) fn inner(nodes: &Nodes, x: Dd) -> Node
    requires there { IsDd nodes.now x }
    requires inner { 2 ≤ x }
    ensures { slice_get nodes.now (x - 2) ≡ Some result }
{
    nodes.get(x.position() - 2)
}

/// What is left of a node where a variable is 0, and where it is 1: its Shannon cofactors.
#[derive(Clone, Copy)]
struct Branches {
    low: Dd,
    high: Dd,
}

/// The Shannon cofactors of a node by a variable that isn't behind its own: its branches, or itself twice.
fn branches_at(nodes: &Nodes, x: Dd, variable: Variable) -> Branches
    requires reduced { IsReduced nodes.now }
    requires there { IsDd nodes.now x }
    requires from { IsFrom nodes.now variable x }
    ensures low { IsBranch nodes.now x variable false result.low }
    ensures high { IsBranch nodes.now x variable true result.high }
{
    if x.position() < 2 {
        return Branches { low: x, high: x };
    }
    let node = inner(nodes, x);
    if !node.variable.is(&variable) {
        return Branches { low: x, high: x };
    }
    Branches {
        low: node.low,
        high: node.high,
    }
}

/// The variable of a node that is no constant, and its index.
fn variable_of(nodes: &Nodes, x: Dd) -> Indexed
    requires there { IsDd nodes.now x }
    requires inner { 2 ≤ x }
    ensures { HasVariable nodes.now x result.variable }
{
    nodes.variable(x.position() - 2)
}

/// The earlier of a variable and that of a node.
fn earlier_variable(nodes: &Nodes, first: Indexed, x: Dd) -> Indexed
    requires { IsDd nodes.now x }
    ensures own { (result.variable ≡ first.variable) ⊎ HasVariable nodes.now x result.variable }
    ensures no_later { is_before first.variable result.variable ≡ false }
    ensures from { IsFrom nodes.now result.variable x }
{
    if x.position() < 2 {
        return first;
    }
    let own = variable_of(nodes, x);
    if own.variable.is_before(first.variable) {
        own
    } else {
        first
    }
}

/// The top variable of three nodes, the first of which is no constant.
pub(crate) fn top(nodes: &Nodes, t: Triple) -> Indexed
    requires there { AreDds nodes.now t }
    requires inner { 2 ≤ t.f }
    ensures { IsTop nodes.now t result.variable }
{
    let first = variable_of(nodes, t.f);
    let first = earlier_variable(nodes, first, t.g);
    earlier_variable(nodes, first, t.h)
}

/// The halves of an operation: its three nodes where their top variable is 0, and where it is 1.
#[derive(Clone, Copy)]
pub(crate) struct Halves {
    pub low: Triple,
    pub high: Triple,
}

/// The halves of an operation, by its top variable.
pub(crate) fn halve(nodes: &Nodes, t: Triple, variable: Variable) -> Halves
    requires reduced { IsReduced nodes.now }
    requires there { AreDds nodes.now t }
    requires top { IsTop nodes.now t variable }
    ensures low { IsSide nodes.now t variable false result.low }
    ensures high { IsSide nodes.now t variable true result.high }
{
    let f = branches_at(nodes, t.f, variable);
    let g = branches_at(nodes, t.g, variable);
    let h = branches_at(nodes, t.h, variable);
    Halves {
        low: Triple {
            f: f.low,
            g: g.low,
            h: h.low,
        },
        high: Triple {
            f: f.high,
            g: g.high,
            h: h.high,
        },
    }
}

/// The node with these branches, made where it isn't there; where both are one, that branch. The hint may be the index
/// of its variable.
pub(crate) fn make(nodes: &mut Nodes, alloc: Global, node: Node, hint: u32) -> Result<Dd, NoMemory>
    requires reduced { IsReduced nodes.old }
    requires bit { node.variable.bit < 32 }
    requires low { IsDd nodes.old node.low }
    requires high { IsDd nodes.old node.high }
    requires low_later { IsFrom nodes.old (after node.variable) node.low }
    requires high_later { IsFrom nodes.old (after node.variable) node.high }
    ensures reduced { IsReduced nodes.new }
    ensures grows { Grows nodes.old nodes.new }
    ensures there { IfOk result (λ r. IsDd nodes.new r) }
    ensures value { IfOk result (λ r. (given : Given) → value_at given nodes.new r
        ≡ (if value_of node.variable given then value_at given nodes.old node.high
        else value_at given nodes.old node.low)) }
    ensures from { IfOk result (λ r. IsFrom nodes.new node.variable r) }
{
    if node.is_redundant() {
        return Ok(node.low);
    }
    if let Some(place) = nodes.find(&node, hint) {
        return Ok(Dd::at(place + 2));
    }
    let place = nodes.add(alloc, node, hint)?;
    Ok(Dd::at(place + 2))
}
