// Diagrams: a table of nodes, of which each stands for a function.
ghost use Rattle.std.specs.Prelude.{◌≡◌, ◌<◌, ◌↔◌, Option, Some, None, true, false, IfOk, IfSome, OnOk, IsTrue};
ghost use Rattle.std.specs.Prelude.{IsErrOf};
ghost use Rattle.mw_term.specs.Assigned.{Given};
ghost use Rattle.mw_term.specs.Cofactors.{value_of, Agree, HasAtMostCofactors, HasMoreCofactors};
ghost use Rattle.mw_term.specs.Cofactors as cofactors;
ghost use Rattle.mw_term.specs.Functions.{never, made};
ghost use Rattle.mw_dd.specs.Nodes.{IsDd, function_of};
ghost use Rattle.mw_dd.specs.Diagrams.{IsCanonical, Keeps, functions_of, IsFirst};

use crate::bounds::Bounds;
use crate::dd::{Dd, DdFault};
use crate::first::first_assignment;
use crate::kept::Kept;
use crate::nodes::{Node, Triple, make};
use crate::notes::Notes;
use crate::operate::operate;
use crate::unique_table::Nodes;
use crate::variable::Variable;
use mw_base::NoMemory;
use mw_term::Assignment;
use std::alloc::Global;
use std::marker::Model;

/// Binary decision diagrams, seen as the list of their nodes. Variables are ordered by bit, and then by word. Equal
/// functions have equal nodes, and a node keeps its function as long as the diagrams live.
#[derive(Drop)]
pub struct Diagrams {
    /// Each node once, found by its parts (the unique table).
    nodes: Nodes,
    /// What the call that goes on has met, and results of operations.
    notes: Notes,
    /// How many joint cofactors operations had that were counted.
    counts: Kept,
    /// How many nodes are below one, where it was asked for.
    bounds: Bounds,
}

impl Model for Diagrams {
    ghost use Rattle.std.specs.Prelude.{List};
    ghost use Rattle.mw_dd.specs.declared.nodes.Node as node;
    ghost use Rattle.mw_dd.specs.Kept.{AreRight};

    ghost Value = { List node.Node };

    ghost view = { λ d. d.nodes };

    ghost invariant = { λ d. AreRight d.nodes d.notes.results d.counts d.bounds };
}

impl Diagrams {
    /// Diagrams of the two constants.
    ///
    /// # Errors
    ///
    /// Memory ran out.
    pub fn new(alloc: Global) -> Result<Diagrams, NoMemory>
        ensures canonical { IfOk result IsCanonical }
    {
        Ok(Diagrams {
            nodes: Nodes::new(alloc)?,
            notes: Notes::new(alloc)?,
            counts: Kept::new(alloc)?,
            bounds: Bounds::new(alloc),
        })
    }

    /// The function that is this value under every assignment.
    pub fn constant(&self, value: bool) -> Dd
        ensures there { IsDd self.now result }
        ensures exact { Agree (function_of self.now result) (λ given. value) }
    {
        if value { Dd::at(1) } else { Dd::at(0) }
    }

    /// The function that is a bit, 0 to 31, of the variable word of this number. Earlier functions stay as they are,
    /// also after a refusal.
    ///
    /// # Errors
    ///
    /// Memory ran out, or there are as many nodes as there can be (2^32 - 16).
    pub fn variable(&mut self, alloc: Global, bit: u8, word: u64) -> Result<Dd, NoMemory>
        requires { bit < 32 }
        ensures there { IfOk result (IsDd self.new) }
        ensures exact { IfOk result (λ x. Agree (function_of self.new x) (value_of (cofactors.variable bit word))) }
        ensures keeps { Keeps self.old self.new }
        ensures canonical { IsCanonical self.new }
    {
        // There is no hint: the variable is searched for, unless it is the first.
        make(
            &mut self.nodes,
            alloc,
            Node {
                variable: Variable { bit, word },
                low: Dd::at(0),
                high: Dd::at(1),
            },
            0,
        )
    }

    /// The function that is the second where the first holds, and else the third. Earlier functions stay as they are,
    /// also after a refusal. The stack that it needs doesn't grow with the three.
    ///
    /// # Errors
    ///
    /// - `OverBudget`: the three have more joint cofactors than the budget, whatever was made before. Where they have,
    ///   there is no other answer but want of memory.
    /// - `NoMemory`: memory ran out, or there are as many nodes or operations as there can be (2^32 - 16).
    pub fn ite(&mut self, alloc: Global, f: Dd, g: Dd, h: Dd, budget: u32) -> Result<Dd, DdFault>
        requires f { IsDd self.old f }
        requires g { IsDd self.old g }
        requires h { IsDd self.old h }
        ensures there { IfOk result (IsDd self.new) }
        ensures exact { IfOk result (λ x. Agree (function_of self.new x) (made (functions_of self.old f g h))) }
        ensures within { OnOk result (HasAtMostCofactors (functions_of self.old f g h) budget) }
        ensures over { IsErrOf result DdFault.OverBudget → HasMoreCofactors (functions_of self.old f g h) budget }
        ensures keeps { Keeps self.old self.new }
        ensures canonical { IsCanonical self.new }
    {
        operate(
            &mut self.nodes,
            &mut self.notes,
            &mut self.counts,
            &mut self.bounds,
            alloc,
            Triple { f, g, h },
            budget,
        )
    }

    /// Whether a function holds under no assignment.
    pub fn is_false(&self, f: Dd) -> bool
        requires { IsDd self.now f }
        ensures exact { IsTrue result ↔ Agree (function_of self.now f) never }
        ensures somewhere { result ≡ false → (given : Given) × (function_of self.now f given ≡ true) }
        ensures canonical { IsCanonical self.now }
    {
        // A use for the proof: the nodes are reduced, so that no other node is false.
        let _nodes = &self.nodes;
        f.position() == 0
    }

    /// The first assignment under which a function holds, where 0 comes before 1 in the order of variables; none
    /// where there is no such.
    ///
    /// # Errors
    ///
    /// Memory ran out.
    pub fn some_assignment(&self, alloc: Global, f: Dd) -> Result<Option<Assignment>, NoMemory>
        requires { IsDd self.now f }
        ensures first { IfOk result (λ o. IfSome o (IsFirst (function_of self.now f))) }
        ensures none { IfOk result (λ o. (o ≡ None) ↔ Agree (function_of self.now f) never) }
        ensures canonical { IsCanonical self.now }
    {
        if self.is_false(f) {
            return Ok(None);
        }
        Ok(Some(first_assignment(&self.nodes, alloc, f)?))
    }
}
