// The rule of lines that add a node.
ghost use Rattle.std.specs.Prelude.{◌≡◌};
ghost use Rattle.mw_recheck.specs.Nodes.{node_at, can_be_branch, branches_fit, seen};

use crate::line::{Node, Variable};

/// The node of a number, where it is there and no constant.
pub(crate) fn node_at(nodes: &[Node], x: u128) -> Option<Node>
    ensures { result ≡ node_at nodes.now x }
{
    if x < 2 || x - 2 >= nodes.len() as u128 {
        return None;
    }
    nodes.get((x - 2) as usize).copied()
}

/// Whether a node of a variable may choose this one: a constant, or an earlier node of a later variable.
fn can_be_branch(nodes: &[Node], variable: Variable, x: u128) -> bool
    ensures { result ≡ can_be_branch nodes.now (seen variable) x }
{
    if x < 2 {
        return true;
    }
    match node_at(nodes, x) {
        Some(node) => variable.is_before(node.variable()),
        None => false,
    }
}

/// Whether a node of a variable may choose these two.
#[tactic(auto, unfolding(crate::specs::Nodes::branches_fit))]
pub(crate) fn branches_fit(nodes: &[Node], variable: Variable, high: u128, low: u128) -> bool
    ensures { result ≡ branches_fit nodes.now
        (record { word = variable.word; bit = variable.bit; high = high; low = low }) }
{
    high != low && can_be_branch(nodes, variable, high) && can_be_branch(nodes, variable, low)
}
