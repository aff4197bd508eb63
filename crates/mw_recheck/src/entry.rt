// The lines of the text of a log, as its grammar reads them.
ghost use Rattle.std.specs.Prelude.{◌≡◌};
ghost use Rattle.mw_recheck.specs.LogText.{node_entry, fact_entry};

use mw_base::{Cursor, Numeral, TextFault, Token};

/// A line that adds a node.
#[derive(Clone, Copy)]
pub(crate) struct NodeEntry {
    /// Its first word.
    pub first: Token,
    /// The word of its variable.
    pub word: Numeral,
    /// The bit of that word.
    pub bit: Numeral,
    /// The node whose value it has where its variable is 1.
    pub high: u128,
    /// The node whose value it has where its variable is 0.
    pub low: u128,
}

/// A line that states a fact.
#[derive(Clone, Copy)]
pub(crate) struct FactEntry {
    /// Its first word.
    pub first: Token,
    /// What is chosen by.
    pub f: u128,
    /// What is chosen where that holds.
    pub g: u128,
    /// What is chosen where it doesn't.
    pub h: u128,
    /// The result.
    pub r: u128,
}

/// `n` and a word, a bit and two nodes: cause 60 where it is otherwise.
#[tactic(auto, unfolding(crate::specs::LogText::node_entry))]
pub(crate) fn node_entry(first: Token, line: &Cursor) -> Result<NodeEntry, TextFault>
    ensures { result ≡ node_entry first line.now }
{
    let word = line.number(1)?;
    let bit = line.number(2)?;
    let high = line.number(3)?.value;
    let low = line.number(4)?.value;
    line.end(5)?;
    Ok(NodeEntry {
        first,
        word,
        bit,
        high,
        low,
    })
}

/// `i` and four nodes: cause 60 where it is otherwise.
#[tactic(auto, unfolding(crate::specs::LogText::fact_entry))]
pub(crate) fn fact_entry(first: Token, line: &Cursor) -> Result<FactEntry, TextFault>
    ensures { result ≡ fact_entry first line.now }
{
    let f = line.number(1)?.value;
    let g = line.number(2)?.value;
    let h = line.number(3)?.value;
    let r = line.number(4)?.value;
    line.end(5)?;
    Ok(FactEntry { first, f, g, h, r })
}
