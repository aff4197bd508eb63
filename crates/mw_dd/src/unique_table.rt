// Nodes as they are kept: each with the index of its variable, and found by its parts.
ghost use Rattle.std.specs.Prelude.{◌≡◌, ◌+◌, ◌-◌, ◌<◌, ◌≤◌, ◌^◌, [], ◌∷◌, ◌++◌, length, slice_get};
ghost use Rattle.std.specs.Prelude.{Some, None, IfSome, IfOk, OnOk, OnErr};
ghost use Rattle.std.specs.Prelude.{if◌then◌else◌, nat_lt};
ghost use Rattle.mw_dd.specs.Links.{IsAbsent};
ghost use Rattle.mw_dd.specs.Steps.{HasVariable};
ghost use Rattle.mw_dd.specs.Stored.{HasAdded};

use crate::dd::Dd;
use crate::hash::scatter_behind;
use crate::nodes::Node;
use crate::table::{Key, Table};
use crate::variable::{Indexed, Variable};
use mw_base::NoMemory;
use std::alloc::Global;
use std::marker::Model;

/// The later of two places.
fn later(a: u32, b: u32) -> u32
    ensures { result ≡ (if nat_lt a b then b else a) }
{
    if a < b { b } else { a }
}

/// A node as it is kept, with the index of its variable.
#[derive(Clone, Copy)]
pub(crate) struct Stored {
    pub index: u32,
    pub low: Dd,
    pub high: Dd,
}

impl Key for Stored {
    ghost use Rattle.std.specs.Prelude.{if◌then◌else◌, nat_lt};
    ghost use Rattle.mw_dd.specs.Hash.{scattered_behind};

    ghost hash_of = { λ n. scattered_behind n.index n.low n.high (if nat_lt n.low n.high then n.high else n.low) };

    fn hash(&self) -> u32 {
        let low = self.low.position();
        let high = self.high.position();
        scatter_behind(
            u64::from(self.index),
            u64::from(low),
            u64::from(high),
            later(low, high),
        )
    }

    fn is(&self, other: &Stored) -> bool {
        self.low == other.low && self.high == other.high && self.index == other.index
    }
}

/// Nodes, seen as the list of them (the unique table: that no node is there twice is kept by `make`). A node is kept with
/// the index of its variable in place of the variable, so that four of them fill a cache line, whatever the numbers of
/// words are.
#[derive(Drop)]
pub(crate) struct Nodes {
    stored: Table<Stored>,
    /// The variables, in the order in which nodes first had them.
    variables: Table<Variable>,
}

impl Model for Nodes {
    ghost use Rattle.std.specs.Prelude.{List};
    ghost use Rattle.mw_dd.specs.declared.nodes.Node as node;
    ghost use Rattle.mw_dd.specs.Stored.{nodes_of, AreKnown};

    ghost Value = { List node.Node };

    ghost view = { λ n. nodes_of n.variables n.stored };

    ghost invariant = { λ n. AreKnown n.variables n.stored };
}

/// The index of a variable in a list, where it is there. The hint is tried first.
fn index_of(variables: &Table<Variable>, variable: Variable, hint: u32) -> Option<u32>
    ensures found { IfSome result (λ index. slice_get variables.now index ≡ Some variable) }
    ensures absent { result ≡ None → IsAbsent variables.now variable }
{
    if (hint as usize) < variables.len() && variables.get(hint).is(&variable) {
        return Some(hint);
    }
    variables.find(&variable)
}

/// The index of a variable in a list, to which it is added where it isn't there. The hint is tried first.
///
/// # Errors
///
/// Memory ran out: the list is as it was.
fn index_for(
    variables: &mut Table<Variable>,
    alloc: Global,
    variable: Variable,
    hint: u32,
) -> Result<u32, NoMemory>
    ensures there { IfOk result (λ index. slice_get variables.new index ≡ Some variable) }
    ensures more { HasAdded variables.old variables.new variable }
    ensures err { OnErr result (variables.new ≡ variables.old) }
{
    match index_of(variables, variable, hint) {
        Some(index) => Ok(index),
        None => variables.add(alloc, variable),
    }
}

impl Nodes {
    /// No nodes.
    pub(crate) fn new(alloc: Global) -> Result<Nodes, NoMemory>
        ensures { IfOk result (λ nodes. nodes ≡ []) }
    {
        Ok(Nodes {
            stored: Table::new(alloc)?,
            variables: Table::new(alloc)?,
        })
    }

    /// How many nodes there are.
    pub(crate) fn len(&self) -> usize
        ensures exact { result ≡ length self.now }
        ensures few { result ≤ 2 ^ 32 - 16 }
    {
        self.stored.len()
    }

    /// The node at a place.
    pub(crate) fn get(&self, place: u32) -> Node
        requires { place < length self.now }
        ensures { slice_get self.now place ≡ Some result }
    {
        let stored = self.stored.get(place);
        Node {
            variable: self.variables.get(stored.index),
            low: stored.low,
            high: stored.high,
        }
    }

    /// The variable of the node at a place, and its index.
    pub(crate) fn variable(&self, place: u32) -> Indexed
        requires { place < length self.now }
        ensures { HasVariable self.now (place + 2) result.variable }
    {
        let index = self.stored.get(place).index;
        Indexed {
            variable: self.variables.get(index),
            index,
        }
    }

    /// The place of a node, where it is there. The hint may be the index of its variable.
    pub(crate) fn find(&self, node: &Node, hint: u32) -> Option<u32>
        ensures found { IfSome result (λ place. slice_get self.now place ≡ Some node.now) }
        ensures absent { result ≡ None → IsAbsent self.now node.now }
        ensures few { IfSome result (λ place. place < 2 ^ 32 - 16) }
    {
        let Some(index) = index_of(&self.variables, node.variable, hint) else {
            return None;
        };
        self.stored.find(&Stored {
            index,
            low: node.low,
            high: node.high,
        })
    }

    /// Adds a node behind the others, and answers its place. The hint may be the index of its variable.
    ///
    /// # Errors
    ///
    /// Memory ran out: the nodes are as they were.
    pub(crate) fn add(&mut self, alloc: Global, node: Node, hint: u32) -> Result<u32, NoMemory>
        ensures place { IfOk result (λ place. place ≡ length self.old) }
        ensures few { IfOk result (λ place. place < 2 ^ 32 - 16) }
        ensures items { OnOk result (self.new ≡ self.old ++ node ∷ []) }
        ensures err { OnErr result (self.new ≡ self.old) }
    {
        let index = index_for(&mut self.variables, alloc, node.variable, hint)?;
        self.stored.add(
            alloc,
            Stored {
                index,
                low: node.low,
                high: node.high,
            },
        )
    }
}
