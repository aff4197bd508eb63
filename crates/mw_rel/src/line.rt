// Lines of a relation.
ghost use Rattle.std.specs.Prelude.{◌≡◌, map};
ghost use Rattle.mw_expr.specs.Tree.{view, trees_of};
ghost use Rattle.mw_rel.specs.Lines.{stands_in, stands_in_one};

use mw_expr::Expr;

/// A line of a relation: at its boundary an element has the value of an expression. Contracts see the expression as a
/// tree.
#[derive(Drop)]
pub struct Line {
    /// The number of the element on the left: the board's elements come first, in the order of its table, and behind
    /// them the machine's registers.
    pub left: u32,
    /// The expression on the right, over the elements and the described machine's memory.
    pub right: Expr,
}

/// Whether the element of a number stands in an expression.
#[cycle(standing)]
pub(crate) fn stands_in(element: u32, expr: &Expr) -> bool
    ensures { result ≡ stands_in element (view expr.now) }
{
    match expr {
        Expr::Element(number) => *number == element,
        Expr::Con(..) => false,
        Expr::Not(e) | Expr::Part(e, ..) | Expr::Widen(e, _) | Expr::Memory(e) => stands_in(
            element, e,
        ),
        Expr::Two(_, a, b) => stands_in(element, a) || stands_in(element, b),
        Expr::Choose(condition, a, b) => {
            stands_in(element, condition) || stands_in(element, a) || stands_in(element, b)
        }
        Expr::Join(parts) => stands_in_one(element, parts),
    }
}

/// Whether it stands in one of some expressions.
#[cycle(standing)]
fn stands_in_one(element: u32, parts: &[Expr]) -> bool
    ensures { result ≡ stands_in_one element (trees_of (map view parts.now)) }
{
    for part in parts {
        if stands_in(element, part) {
            return true;
        }
    }
    false
}
