// The lines of one boundary, and what following lines are checked by.
ghost use Rattle.std.specs.Prelude.{◌≡◌, [], ◌∷◌, ◌++◌, IfOk, true};
ghost use Rattle.mw_base.specs.Reading.{Gives};
ghost use Rattle.mw_recheck.specs.LogText.{new_node, new_fact, with_node, with_fact, with_line};
ghost use Rattle.mw_recheck.specs.Facts.{triple, fact_line, facts_of, is_new_fact, are_there};
ghost use Rattle.mw_recheck.specs.Nodes.{nodes_of, line_of, is_new_node};
ghost use Rattle.mw_recheck.specs.Rules.{KeepRules};

use crate::entry::{FactEntry, NodeEntry, fact_entry, node_entry};
use crate::facts::Facts;
use crate::line::{LogLine, Node, Triple, Variable};
use crate::nodes::branches_fit;
use mw_base::{Cause, Cursor, Items, NoMemory, Refusal, Refused, TextFault, Token, fault_on};
use std::alloc::Global;
use std::collections::HashSet;
use std::marker::Model;

/// The lines of one boundary, which keep the rules, seen as the list of them.
#[derive(Drop)]
pub(crate) struct Block {
    lines: Vec<LogLine>,
    nodes: Vec<Node>,
    listed: HashSet<Node>,
    facts: Facts,
}

impl Model for Block {
    ghost use Rattle.std.specs.Prelude.{List};
    ghost use Rattle.mw_recheck.specs.declared.line.LogLine.{LogLine};
    ghost use Rattle.mw_recheck.specs.Kept.{AreOf};

    ghost Value = { List LogLine };

    ghost view = { λ b. b.lines.items };

    ghost invariant = { λ b. AreOf b.lines.items b.nodes.items b.listed b.facts };
}

/// Whether the nodes that a fact names are there.
#[tactic(auto, unfolding(crate::specs::Facts::are_there))]
fn are_there(nodes: &[Node], fact: FactEntry) -> bool
    ensures { result ≡ are_there nodes.now (triple fact.f fact.g fact.h) fact.r }
{
    let count = nodes.len() as u128 + 2;
    fact.f < count && fact.g < count && fact.h < count && fact.r < count
}

impl Block {
    /// No line.
    pub fn new(alloc: Global) -> Block
        ensures { result ≡ [] }
    {
        Block {
            lines: Vec::new(alloc),
            nodes: Vec::new(alloc),
            listed: HashSet::new(alloc),
            facts: Facts::new(alloc),
        }
    }

    /// Its lines.
    pub fn into_lines(self) -> Items<LogLine>
        ensures exact { result ≡ self }
        ensures rules { KeepRules result }
    {
        Items::from_vec(self.lines)
    }

    /// The node of a line that keeps the rule: cause 80 where it breaks it, 33 where its word or its bit is out of
    /// range.
    #[tactic(auto, unfolding(crate::specs::LogText::new_node))]
    fn new_node(&self, entry: NodeEntry) -> Result<Node, TextFault>
        ensures { result ≡ new_node (nodes_of self.now) entry }
    {
        let variable = Variable {
            bit: entry.bit.value,
            word: entry.word.value,
        };
        if !branches_fit(&self.nodes, variable, entry.high, entry.low) {
            return Err(fault_on(entry.first, Cause::BadNode));
        }
        if entry.word.value >= 1 << 64 {
            return Err(fault_on(entry.word.token, Cause::ValueTooWide));
        }
        if entry.bit.value >= 32 {
            return Err(fault_on(entry.bit.token, Cause::ValueTooWide));
        }
        let node = Node {
            word: entry.word.value as u64,
            bit: entry.bit.value as u8,
            high: entry.high as u64,
            low: entry.low as u64,
        };
        if self.listed.contains(&node) {
            return Err(fault_on(entry.first, Cause::BadNode));
        }
        Ok(node)
    }

    /// One node more.
    fn with_node(self, node: Node) -> Result<Block, NoMemory>
        requires { is_new_node (nodes_of self) node ≡ true }
        ensures { IfOk result (λ block. block ≡ self ++ line_of node ∷ []) }
    {
        let Block {
            mut lines,
            mut nodes,
            mut listed,
            facts,
        } = self;
        lines.push(node.line())?;
        nodes.push(node)?;
        listed.insert(node)?;
        Ok(Block {
            lines,
            nodes,
            listed,
            facts,
        })
    }

    /// One fact more.
    fn with_fact(self, triple: Triple, r: u64) -> Result<Block, NoMemory>
        requires { is_new_fact (nodes_of self) (facts_of self) triple r ≡ true }
        ensures { IfOk result (λ block. block ≡ self ++ fact_line triple r ∷ []) }
    {
        let Block {
            mut lines,
            nodes,
            listed,
            mut facts,
        } = self;
        lines.push(triple.line(r))?;
        facts.insert(triple, r)?;
        Ok(Block {
            lines,
            nodes,
            listed,
            facts,
        })
    }

    /// The triple and the result of a line that keeps the rule: cause 81 where it breaks it.
    #[tactic(auto, unfolding(crate::specs::LogText::new_fact))]
    fn new_fact(&self, entry: FactEntry) -> Result<(Triple, u64), TextFault>
        ensures { result ≡ new_fact (nodes_of self.now) (facts_of self.now) entry }
    {
        let fault = fault_on(entry.first, Cause::BadFact);
        if !are_there(&self.nodes, entry) {
            return Err(fault);
        }
        let triple = Triple {
            f: entry.f as u64,
            g: entry.g as u64,
            h: entry.h as u64,
        };
        let r = entry.r as u64;
        if !self.facts.follows(&self.nodes, triple, r) {
            return Err(fault);
        }
        Ok((triple, r))
    }

    /// Takes a line that adds a node.
    #[tactic(auto, unfolding(crate::specs::LogText::with_node))]
    fn add_node(self, entry: NodeEntry) -> Result<Block, Refusal>
        ensures { Gives (λ block. block) result (with_node entry self) }
    {
        match self.new_node(entry) {
            Ok(node) => Ok(self.with_node(node)?),
            Err(fault) => Err(Refused::At(fault)),
        }
    }

    /// Takes a line that states a fact.
    #[tactic(auto, unfolding(crate::specs::LogText::with_fact))]
    fn add_fact(self, entry: FactEntry) -> Result<Block, Refusal>
        ensures { Gives (λ block. block) result (with_fact entry self) }
    {
        match self.new_fact(entry) {
            Ok((triple, r)) => Ok(self.with_fact(triple, r)?),
            Err(fault) => Err(Refused::At(fault)),
        }
    }

    /// Takes a line, which begins with this token: cause 60, then 80 and 33, or 81.
    #[tactic(auto, unfolding(crate::specs::LogText::with_line))]
    pub fn add_line(self, line: &Cursor, first: Token) -> Result<Block, Refusal>
        ensures { Gives (λ block. block) result (with_line line.now first self) }
    {
        let word = line.spelled(first);
        if word == b"n".as_slice() {
            self.add_node(node_entry(first, line).map_err(Refused::At)?)
        } else if word == b"i".as_slice() {
            self.add_fact(fact_entry(first, line).map_err(Refused::At)?)
        } else {
            Err(Refused::At(line.misplaced(first)))
        }
    }
}
