// Trees of texts to expressions.
ghost use Rattle.std.specs.Prelude.{◌≡◌, true, map, IfOk};
ghost use Rattle.mw_expr.specs.Tree.{view, trees_of};
ghost use Rattle.mw_expr.specs.Placed.{placed, parts_of};
ghost use Rattle.mw_expr.specs.Plain.{plain, plain_parts, is_small, are_small};

use crate::expr::Expr;
use crate::placed::Placed;
use mw_base::NoMemory;
use std::alloc::Global;

/// The expression that a tree of a text is, whose numbers are small enough.
#[cycle(build)]
pub(crate) fn build(alloc: Global, tree: &Placed) -> Result<Expr, NoMemory>
    requires small { is_small (placed tree.now) ≡ true }
    ensures { IfOk result (λ expr. view expr ≡ plain (placed tree.now)) }
{
    match tree {
        Placed::Element(_, number) => Ok(Expr::Element(number.unwrap_or(0) as u32)),
        Placed::Con(number, _, width) => Ok(Expr::Con(number.value as u32, *width as u8)),
        Placed::Not(_, e) => {
            let e = boxed(alloc, e)?;
            Ok(Expr::Not(e))
        }
        Placed::Two(op, _, a, b) => {
            let a = boxed(alloc, a)?;
            let b = boxed(alloc, b)?;
            Ok(Expr::Two(*op, a, b))
        }
        Placed::Choose(_, condition, a, b) => {
            let condition = boxed(alloc, condition)?;
            let a = boxed(alloc, a)?;
            let b = boxed(alloc, b)?;
            Ok(Expr::Choose(condition, a, b))
        }
        Placed::Part(_, high, low, e) => {
            let e = boxed(alloc, e)?;
            Ok(Expr::Part(e, *high as u8, *low as u8))
        }
        Placed::Join(_, parts) => {
            let parts = build_all(alloc, parts)?;
            Ok(Expr::Join(parts))
        }
        Placed::Widen(_, width, e) => {
            let e = boxed(alloc, e)?;
            Ok(Expr::Widen(e, *width as u8))
        }
        Placed::Memory(_, e) => {
            let e = boxed(alloc, e)?;
            Ok(Expr::Memory(e))
        }
        Placed::Group(_, e) => build(alloc, e),
    }
}

/// The expression that a part of a tree is, in a box.
#[cycle(build)]
fn boxed(alloc: Global, tree: &Placed) -> Result<Box<Expr>, NoMemory>
    requires small { is_small (placed tree.now) ≡ true }
    ensures { IfOk result (λ expr. view expr.value ≡ plain (placed tree.now)) }
{
    let expr = build(alloc, tree)?;
    Ok(Box::new(alloc, expr)?)
}

/// The expressions that the parts of a join are.
#[cycle(build)]
fn build_all(alloc: Global, parts: &[Placed]) -> Result<Vec<Expr>, NoMemory>
    requires small { are_small (parts_of (map placed parts.now)) ≡ true }
    ensures { IfOk result (λ made. trees_of (map view made.items) ≡ plain_parts (parts_of (map placed parts.now))) }
{
    let mut made = Vec::new(alloc);
    for part in parts {
        made.push(build(alloc, part)?)?;
    }
    Ok(made)
}
