// Operations that end.
ghost use Rattle.std.specs.Prelude.{◌≡◌, ◌<◌, true, false, IfOk};
ghost use Rattle.mw_expr.specs.declared.placed.Open.{size-Open};
ghost use Rattle.mw_expr.specs.Placed.{placed, opened, complement, pair, choice};
ghost use Rattle.mw_expr.specs.Grammar.{strength, reduced};

use crate::expr::Pair2;
use crate::placed::{Open, Placed};
use mw_base::{NoMemory, Token};
use std::alloc::Global;

/// An operand, and what is open before it.
#[derive(Drop)]
pub(crate) struct Reduced {
    /// The operand.
    pub tree: Placed,
    /// What is open.
    pub below: Open,
}

impl Pair2 {
    /// How strongly the sign binds.
    pub(crate) fn strength(self) -> u8
        ensures { result ≡ strength self }
    {
        match self {
            Pair2::Or => 1,
            Pair2::Xor => 2,
            Pair2::And => 3,
            Pair2::Same | Pair2::Differ | Pair2::Less => 4,
            Pair2::Add | Pair2::Sub => 5,
        }
    }
}

fn complement(alloc: Global, token: Token, e: Placed) -> Result<Placed, NoMemory>
    ensures { IfOk result (λ made. placed made ≡ complement token (placed e)) }
{
    Ok(Placed::Not(token, Box::new(alloc, e)?))
}

fn pair(
    alloc: Global,
    op: Pair2,
    token: Token,
    a: Box<Placed>,
    b: Placed,
) -> Result<Placed, NoMemory>
    ensures { IfOk result (λ made. placed made ≡ pair op token (placed a.value) (placed b)) }
{
    Ok(Placed::Two(op, token, a, Box::new(alloc, b)?))
}

fn choice(
    alloc: Global,
    token: Token,
    condition: Box<Placed>,
    a: Box<Placed>,
    b: Placed,
) -> Result<Placed, NoMemory>
    ensures { IfOk result (λ made. placed made ≡ choice token (placed condition.value) (placed a.value) (placed b)) }
{
    Ok(Placed::Choose(token, condition, a, Box::new(alloc, b)?))
}

/// What an operand is after one step: an operation that it ended, or itself.
#[derive(Drop)]
struct Step {
    /// The operand, and what is open before it.
    operand: Reduced,
    /// Whether nothing is left that it ends.
    is_last: bool,
}

fn further(tree: Placed, below: Box<Open>) -> Step
    ensures operand { result.operand ≡ record { tree = tree; below = below.value } }
    ensures last { result.is_last ≡ false }
{
    let below = Box::into_inner(below);
    Step {
        operand: Reduced { tree, below },
        is_last: false,
    }
}

fn last(tree: Placed, below: Open) -> Step
    ensures operand { result.operand ≡ record { tree = tree; below = below } }
    ensures last { result.is_last ≡ true }
{
    Step {
        operand: Reduced { tree, below },
        is_last: true,
    }
}

/// Ends the innermost operation that is open, if it binds at least this strongly; a choice binds with strength 0.
#[tactic(auto, unfolding(crate::specs::Grammar::reduced))]
fn end_one(alloc: Global, least: u8, operand: Reduced) -> Result<Step, NoMemory>
    ensures same { IfOk result (λ step. reduced least (placed step.operand.tree) (opened step.operand.below)
        ≡ reduced least (placed operand.tree) (opened operand.below)) }
    ensures last { IfOk result (λ step. step.is_last ≡ true
        → reduced least (placed step.operand.tree) (opened step.operand.below)
        ≡ record { tree = placed step.operand.tree; below = opened step.operand.below }) }
    ensures fewer { IfOk result (λ step. step.is_last ≡ false
        → size-Open step.operand.below < size-Open operand.below) }
{
    let Reduced { tree, below } = operand;
    match below {
        Open::Not(token, below) => Ok(further(complement(alloc, token, tree)?, below)),
        Open::Two(op, token, left, below) => {
            if least <= op.strength() {
                Ok(further(pair(alloc, op, token, left, tree)?, below))
            } else {
                Ok(last(tree, Open::Two(op, token, left, below)))
            }
        }
        Open::Else(token, condition, first, below) => {
            if least == 0 {
                Ok(further(choice(alloc, token, condition, first, tree)?, below))
            } else {
                Ok(last(tree, Open::Else(token, condition, first, below)))
            }
        }
        other @ (Open::Nothing
        | Open::Choose(..)
        | Open::Group(..)
        | Open::Join(..)
        | Open::Widen(..)
        | Open::Memory(..)) => Ok(last(tree, other)),
    }
}

/// The operation that an operand ends, as far as those that are open bind at least this strongly; a choice binds with
/// strength 0. A line may have thousands of operations open, so they are ended in a loop and not by recursion.
pub(crate) fn reduce(
    alloc: Global,
    least: u8,
    pending: Open,
    tree: Placed,
) -> Result<Reduced, NoMemory>
    ensures tree { IfOk result (λ r. placed r.tree ≡ (reduced least (placed tree) (opened pending)).tree) }
    ensures below { IfOk result (λ r. opened r.below ≡ (reduced least (placed tree) (opened pending)).below) }
{
    let mut operand = Reduced {
        tree,
        below: pending,
    };
    loop {
        let step = end_one(alloc, least, operand)?;
        if step.is_last {
            return Ok(step.operand);
        }
        operand = step.operand;
    }
}
