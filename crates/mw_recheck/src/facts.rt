// The rule of facts.
ghost use Rattle.std.specs.Prelude.{◌≡◌, ◌<◌, true, length, OnOk, OnErr};
ghost use Rattle.std.specs.Option.{option_map};
ghost use Rattle.mw_recheck.specs.Facts.{no_facts, with_fact, facts_seen, at_once, result_of, own_variable};
ghost use Rattle.mw_recheck.specs.Facts.{earlier, first_variable, half, halves, chooses, joins, follows_by, is_result};
ghost use Rattle.mw_recheck.specs.Facts.{follows};
ghost use Rattle.mw_recheck.specs.Nodes.{seen, node_at};

use crate::line::{Node, Triple, Variable};
use crate::nodes::node_at;
use mw_base::NoMemory;
use std::alloc::Global;
use std::collections::HashMap;

/// The results that facts give to triples.
#[derive(Drop)]
pub(crate) struct Facts {
    results: HashMap<Triple, u64>,
}

impl Facts {
    /// No fact.
    pub fn new(alloc: Global) -> Facts
        ensures { facts_seen result ≡ no_facts }
    {
        Facts {
            results: HashMap::new(alloc),
        }
    }

    /// One fact more.
    pub fn insert(&mut self, triple: Triple, r: u64) -> Result<(), NoMemory>
        ensures ok { OnOk result (facts_seen self.new ≡ with_fact (facts_seen self.old) triple r) }
    {
        self.results.insert(triple, r)?;
        Ok(())
    }

    /// The result of a triple, at once or by a fact.
    fn result_of(&self, triple: Triple) -> Option<u64>
        ensures { result ≡ result_of (facts_seen self.now) triple }
    {
        match at_once(triple) {
            Some(r) => Some(r),
            None => self.results.get(&triple).copied(),
        }
    }

    /// Whether a result follows from those of the halves by the first variable.
    fn follows_by(&self, nodes: &[Node], triple: Triple, r: u64, first: Option<Variable>) -> bool
        ensures { result ≡ follows_by nodes.now (facts_seen self.now) triple r (option_map seen first) }
    {
        match first {
            Some(variable) => {
                let high = self.result_of(halves(nodes, variable, true, triple));
                let low = self.result_of(halves(nodes, variable, false, triple));
                joins(nodes, variable, r, high, low)
            }
            None => false,
        }
    }

    /// Whether a fact follows: its triple has the result at once, or by the results of its halves.
    #[tactic(auto, unfolding(crate::specs::Facts::follows))]
    pub fn follows(&self, nodes: &[Node], triple: Triple, r: u64) -> bool
        ensures { result ≡ follows nodes.now (facts_seen self.now) triple r }
    {
        is_result(r, at_once(triple))
            || self.follows_by(nodes, triple, r, first_variable(nodes, triple))
    }
}

/// The result that a triple has at once.
#[tactic(auto, unfolding(crate::specs::Facts::at_once))]
fn at_once(triple: Triple) -> Option<u64>
    ensures { result ≡ at_once triple }
{
    if triple.f == 0 {
        Some(triple.h)
    } else if triple.f == 1 || triple.g == triple.h {
        Some(triple.g)
    } else {
        None
    }
}

/// Whether this is the result.
fn is_result(r: u64, found: Option<u64>) -> bool
    ensures { result ≡ is_result r found }
{
    match found {
        Some(other) => other == r,
        None => false,
    }
}

/// The earlier of two variables, where there is one.
fn earlier(one: Option<Variable>, other: Option<Variable>) -> Option<Variable>
    ensures { option_map seen result ≡ earlier (option_map seen one) (option_map seen other) }
{
    match (one, other) {
        (Some(v), Some(u)) => { if u.is_before(v) { Some(u) } else { Some(v) } }
        (Some(v), None) => Some(v),
        (None, other) => other,
    }
}

/// The variable of a node; a constant has none.
fn own_variable(nodes: &[Node], x: u64) -> Option<Variable>
    ensures { option_map seen result ≡ own_variable nodes.now x }
{
    match node_at(nodes, u128::from(x)) {
        Some(node) => Some(node.variable()),
        None => None,
    }
}

/// The first variable of three nodes.
#[tactic(auto, unfolding(crate::specs::Facts::first_variable))]
fn first_variable(nodes: &[Node], triple: Triple) -> Option<Variable>
    ensures { option_map seen result ≡ first_variable nodes.now triple }
{
    let last = earlier(own_variable(nodes, triple.g), own_variable(nodes, triple.h));
    earlier(own_variable(nodes, triple.f), last)
}

/// A node where the first variable has a value.
fn half(nodes: &[Node], variable: Variable, value: bool, x: u64) -> u64
    ensures { result ≡ half nodes.now (seen variable) value x }
{
    match node_at(nodes, u128::from(x)) {
        Some(node) => {
            if !variable.is_same(node.variable()) {
                x
            } else if value {
                node.high
            } else {
                node.low
            }
        }
        None => x,
    }
}

/// A triple where its first variable has a value.
#[tactic(auto, unfolding(crate::specs::Facts::halves))]
fn halves(nodes: &[Node], variable: Variable, value: bool, triple: Triple) -> Triple
    ensures { result ≡ halves nodes.now (seen variable) value triple }
{
    Triple {
        f: half(nodes, variable, value, triple.f),
        g: half(nodes, variable, value, triple.g),
        h: half(nodes, variable, value, triple.h),
    }
}

/// Whether a node is there, of this variable, and chooses these two.
fn chooses(nodes: &[Node], variable: Variable, high: u64, low: u64, x: u64) -> bool
    ensures { result ≡ chooses (seen variable) high low (node_at nodes.now x) }
{
    match node_at(nodes, u128::from(x)) {
        Some(node) => variable.is_same(node.variable()) && node.high == high && node.low == low,
        None => false,
    }
}

/// Whether a node is that of a variable with the results of both halves, or both are this node.
fn joins(nodes: &[Node], variable: Variable, r: u64, high: Option<u64>, low: Option<u64>) -> bool
    ensures { result ≡ joins nodes.now (seen variable) r high low }
{
    match (high, low) {
        (Some(a), Some(b)) => chooses(nodes, variable, a, b, r) || (a == r && b == r),
        _ => false,
    }
}
