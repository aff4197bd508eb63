// Expressions as they stand in a text, for readers of formats around them.
ghost use Rattle.std.specs.Prelude.{◌≡◌, ◌++◌, true, map, IfOk, OnOk, Some};
ghost use Rattle.mw_base.specs.Reading.{Gives};
ghost use Rattle.mw_expr.specs.Faults.{seen_width, faults};
ghost use Rattle.mw_base.specs.FirstFaults.{first_in};
ghost use Rattle.mw_expr.specs.Grammar.{meaning_of, tree_of};
ghost use Rattle.mw_expr.specs.Mems.{mems, mems_in};
ghost use Rattle.mw_expr.specs.Placed.{placed, parts_of};
ghost use Rattle.mw_expr.specs.Plain.{plain, is_small};
ghost use Rattle.mw_expr.specs.Tree.{view};
ghost use Rattle.mw_expr.specs.Written.{written};

use crate::build::build;
use crate::expr::Expr;
use crate::faults::check;
use crate::parse::tree_of;
use crate::placed::Placed;
use crate::shape::Shape;
use crate::text::meaning_of;
use crate::width::DEEPEST;
use mw_base::{Cursor, Name, NoMemory, Refusal, TextFault, Token};
use std::alloc::Global;

/// An expression as it stands in a text: grammatical, with the tokens at which its faults stand. Contracts see it as
/// that tree.
#[derive(Drop)]
pub struct Written {
    tree: Placed,
}

impl Written {
    /// The expression that the tokens of a line are, over elements of these names and the memory of a shape.
    ///
    /// # Errors
    ///
    /// The cursor's own cause at the first token that can't follow those before it, or at its end, where the tokens
    /// are no expression.
    /// Want of memory.
    pub fn read(
        alloc: Global,
        cursor: &Cursor,
        names: &[Name],
        shape: &Shape,
    ) -> Result<Written, Refusal>
        ensures { Gives written result (tree_of (meaning_of cursor.now.text names.now shape.now.address) cursor.now) }
    {
        let tree = tree_of(alloc, meaning_of(cursor.text(), names, shape), cursor)?;
        Ok(Written { tree })
    }

    /// The width that the expression has for what is around it, where it has one. Keeps the first of its faults and
    /// of what was the
    /// first before: causes 3, 40, 41 and 42.
    pub fn check(&self, shape: &Shape, first: &mut Option<TextFault>) -> Option<u8>
        ensures width { result ≡ seen_width shape.now (written self.now) }
        ensures faults { first.new ≡ first_in first.old (faults shape.now (Some 64) (written self.now)) }
    {
        check(shape, Some(DEEPEST), &self.tree, first)
    }

    /// The words `mem` of its memory reads, in their order.
    ///
    /// # Errors
    ///
    /// Memory ran out.
    pub fn mems(&self, alloc: Global) -> Result<Vec<Token>, NoMemory>
        ensures { IfOk result (λ tokens. tokens.items ≡ mems (written self.now)) }
    {
        let mut tokens = Vec::new(alloc);
        push_mems(&mut tokens, &self.tree)?;
        Ok(tokens)
    }

    /// The expression, whose numbers are small enough, as they are where it has no fault.
    ///
    /// # Errors
    ///
    /// Memory ran out.
    pub fn build(&self, alloc: Global) -> Result<Expr, NoMemory>
        requires { is_small (written self.now) ≡ true }
        ensures { IfOk result (λ expr. view expr ≡ plain (written self.now)) }
    {
        build(alloc, &self.tree)
    }
}

/// Appends the words `mem` of the memory reads of an expression.
#[cycle(mems)]
fn push_mems(tokens: &mut Vec<Token>, tree: &Placed) -> Result<(), NoMemory>
    ensures { OnOk result (tokens.new.items ≡ tokens.old.items ++ mems (placed tree.now)) }
{
    match tree {
        Placed::Element(..) | Placed::Con(..) => Ok(()),
        Placed::Not(_, e)
        | Placed::Part(_, _, _, e)
        | Placed::Widen(_, _, e)
        | Placed::Group(_, e) => push_mems(tokens, e),
        Placed::Two(_, _, a, b) => {
            push_mems(tokens, a)?;
            push_mems(tokens, b)
        }
        Placed::Choose(_, condition, a, b) => {
            push_mems(tokens, condition)?;
            push_mems(tokens, a)?;
            push_mems(tokens, b)
        }
        Placed::Join(_, parts) => push_mems_in(tokens, parts),
        Placed::Memory(token, e) => {
            tokens.push(*token)?;
            push_mems(tokens, e)
        }
    }
}

/// Appends those of the parts of a join.
#[cycle(mems)]
fn push_mems_in(tokens: &mut Vec<Token>, parts: &[Placed]) -> Result<(), NoMemory>
    ensures { OnOk result (tokens.new.items ≡ tokens.old.items ++ mems_in (parts_of (map placed parts.now))) }
{
    for part in parts {
        push_mems(tokens, part)?;
    }
    Ok(())
}
