// Expressions in texts.
ghost use Rattle.std.specs.Prelude.{◌≡◌, IfOk, IsOk};
ghost use Rattle.mw_base.specs.Reading.{Gives};
ghost use Rattle.mw_expr.specs.Grammar.{has_dot, is_dotted, meaning_of};
ghost use Rattle.mw_expr.specs.Text.{IsShape, expr_of};
ghost use Rattle.mw_expr.specs.Tree.{view};
ghost use Rattle.mw_expr.specs.Widths.{width_of};
ghost use Rattle.mw_expr.specs.Words.{meaning_seen};

use crate::build::build;
use crate::expr::Expr;
use crate::faults::first_fault;
use crate::follow::Meaning;
use crate::parse::tree_of;
use crate::shape::Shape;
use mw_base::{Cursor, Name, Refusal, Refused};
use std::alloc::Global;

fn has_dot(name: &[u8]) -> bool
    ensures { result ≡ has_dot name.now }
{
    name.iter().any(|c| *c == b'.')
}

/// Whether elements are NAME . NAME, else NAME.
fn is_dotted(names: &[Name]) -> bool
    ensures { result ≡ is_dotted names.now }
{
    names.iter().any(|name| has_dot(name.as_slice()))
}

/// What the words of a text mean, over the elements of these names and the memory of a shape.
pub(crate) fn meaning_of<'a>(text: &'a [u8], names: &'a [Name], shape: &Shape) -> Meaning<'a>
    ensures { meaning_seen result ≡ meaning_of text.now names.now shape.now.address }
{
    Meaning {
        text,
        names,
        is_dotted: is_dotted(names),
        has_memory: shape.address > 0,
    }
}

/// The expression that the tokens of a line are, over the elements of a shape, which have these names, and its
/// memory. Elements are
/// NAME . NAME where a name has a dot, as all of a relation's do, else NAME. What it gives has a width over the shape.
///
/// There are fewer than 2^32 elements; each of them has 1 to 32 bits, and so has a word of the memory, where there is
/// one.
///
/// # Errors
///
/// The cursor's own cause at the first token that can't follow those before it, or at its end, where the tokens are
/// no expression;
/// else the first of these by place, at one place the least: 3 at a value that doesn't fit the width after its `#`;
/// 40 at an element
/// that isn't one of the names; 41 at the sign, `?`, `#`, `[`, `{`, `zext` or `mem` of an operation that breaks the
/// rules of widths;
/// 42 at the first token at level 65. Want of memory.
#[tactic(auto, unfolding(crate::specs::Text::expr_of))]
pub fn parse_expr(
    alloc: Global,
    cursor: &Cursor,
    names: &[Name],
    shape: &Shape,
) -> Result<Expr, Refusal>
    requires proper { IsShape shape.now }
    ensures exact { Gives view result (expr_of cursor.now names.now shape.now) }
    ensures wide { IfOk result (λ expr. IsOk (width_of shape.now (view expr))) }
{
    let meaning = meaning_of(cursor.text(), names, shape);
    let tree = match tree_of(alloc, meaning, cursor) {
        Ok(tree) => tree,
        Err(refusal) => return Err(refusal),
    };
    match first_fault(shape, &tree) {
        Some(fault) => Err(Refused::At(fault)),
        None => Ok(build(alloc, &tree)?),
    }
}
