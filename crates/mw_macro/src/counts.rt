// How much there is in a machine of what its limits count.
ghost use Rattle.std.specs.Prelude.{◌≡◌, ℕ, ◌-◌, map};
ghost use Rattle.mw_expr.specs.Tree.{view, trees_of};
ghost use Rattle.mw_macro.specs.Counts.{reads, reads_in, own_reads, own_events, own, count, total};
ghost use Rattle.mw_macro.specs.Statements.{act_of, acts};

use crate::statement::Statement;
use mw_expr::Expr;

/// What is counted.
#[derive(Clone, Copy)]
pub enum Counted {
    /// Statements, those in the lists of an `if` with them.
    Statements,
    /// Memory reads.
    Reads,
    /// Statements that make an event.
    Events,
}

/// What is left of a budget after the memory reads of an expression.
#[cycle(reads)]
fn reads_left(expr: &Expr, budget: u32) -> u32
    ensures { result ≡ budget - reads (view expr.now) }
{
    match expr {
        Expr::Element(_) | Expr::Con(..) => budget,
        Expr::Not(e) | Expr::Part(e, ..) | Expr::Widen(e, _) => reads_left(e, budget),
        Expr::Two(_, a, b) => reads_left(b, reads_left(a, budget)),
        Expr::Choose(condition, a, b) => {
            let left = reads_left(condition, budget);
            reads_left(b, reads_left(a, left))
        }
        Expr::Join(parts) => reads_left_in(parts, budget),
        Expr::Memory(address) => reads_left(address, budget).saturating_sub(1),
    }
}

/// What is left of a budget after the memory reads of some expressions.
#[cycle(reads)]
fn reads_left_in(parts: &[Expr], budget: u32) -> u32
    ensures { result ≡ budget - reads_in (trees_of (map view parts.now)) }
{
    let mut left = budget;
    for part in parts {
        left = reads_left(part, left);
    }
    left
}

/// What is left of a budget after the memory reads of a statement's own expressions.
fn own_reads_left(statement: &Statement, budget: u32) -> u32
    ensures { result ≡ budget - own_reads (act_of statement.now) }
{
    match statement {
        Statement::Assign { value, .. } => reads_left(value, budget),
        Statement::Write { address, value } => reads_left(value, reads_left(address, budget)),
        Statement::Put(value) => reads_left(value, budget),
        Statement::Take(_) => budget,
        Statement::If { condition, .. } => reads_left(condition, budget),
    }
}

/// What is left of a budget after a statement's own event, if it makes one.
fn own_events_left(statement: &Statement, budget: u32) -> u32
    ensures { result ≡ budget - own_events (act_of statement.now) }
{
    match statement {
        Statement::Put(_) | Statement::Take(_) => budget.saturating_sub(1),
        Statement::Assign { .. } | Statement::Write { .. } | Statement::If { .. } => budget,
    }
}

/// What is left of a budget after what a statement counts for by itself.
fn own_left(what: Counted, statement: &Statement, budget: u32) -> u32
    ensures { result ≡ budget - own what (act_of statement.now) }
{
    match what {
        Counted::Statements => budget.saturating_sub(1),
        Counted::Reads => own_reads_left(statement, budget),
        Counted::Events => own_events_left(statement, budget),
    }
}

/// What is left of a budget after a statement, with those in its lists.
#[cycle(counts)]
fn left(what: Counted, statement: &Statement, budget: u32) -> u32
    ensures { result ≡ budget - count what (act_of statement.now) }
{
    let own = own_left(what, statement, budget);
    match statement {
        Statement::Assign { .. }
        | Statement::Write { .. }
        | Statement::Put(_)
        | Statement::Take(_) => own,
        Statement::If { first, second, .. } => {
            left_after(what, second, left_after(what, first, own))
        }
    }
}

/// What is left of a budget after some statements. Where nothing is left the rest isn't visited, so a count of
/// statements goes no deeper than its budget.
#[cycle(counts)]
pub(crate) fn left_after(what: Counted, statements: &[Statement], budget: u32) -> u32
    ensures { result ≡ budget - total what (acts statements.now) }
{
    let mut rest = budget;
    for statement in statements {
        if rest == 0 {
            return 0;
        }
        rest = left(what, statement, rest);
    }
    rest
}
