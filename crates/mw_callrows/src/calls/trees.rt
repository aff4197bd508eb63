// Expressions as trees: an operation stands in parentheses, with its sign or word before its parts.
use mw_base::Name;
use mw_expr::{Expr, Pair2};
use mw_rowfile::Report;

/// What a sign between two operands begins with.
fn begin_pair(sign: Pair2) -> &'static [u8] {
    match sign {
        Pair2::And => b"(& ",
        Pair2::Or => b"(| ",
        Pair2::Xor => b"(^ ",
        Pair2::Add => b"(+ ",
        Pair2::Sub => b"(- ",
        Pair2::Same => b"(== ",
        Pair2::Differ => b"(!= ",
        Pair2::Less => b"(< ",
    }
}

/// Appends the name of an element, or `?` where it has none.
pub(super) fn push_name(report: &mut Report, names: &[Name], number: u32) {
    match names.get(number as usize) {
        Some(name) => report.push(name.as_slice()),
        None => report.push(b"?"),
    }
}

/// Appends a number and its width.
fn push_constant(report: &mut Report, number: u32, width: u8) {
    report.push_decimal(u64::from(number));
    report.push(b"#");
    report.push_decimal(u64::from(width));
}

/// Appends what the bits of an expression begin with.
fn begin_part(report: &mut Report, high: u8, low: u8) {
    report.push(b"([");
    report.push_decimal(u64::from(high));
    report.push(b":");
    report.push_decimal(u64::from(low));
    report.push(b"] ");
}

/// Appends what an expression that is made wider begins with.
fn begin_widened(report: &mut Report, width: u8) {
    report.push(b"(zext ");
    report.push_decimal(u64::from(width));
    report.push(b" ");
}

/// Appends an expression over elements of these names: an element's name, `VALUE#WIDTH`, or an operation of the form
/// `(~ E)`, `(+ E E)` with any sign between two operands, `(? E E E)`, `([HI:LO] E)`, `({} E E ..)`, `(zext W E)` or
/// `(mem E)`.
#[cycle(trees)]
pub fn push_tree(report: &mut Report, names: &[Name], expr: &Expr) {
    match expr {
        Expr::Element(number) => return push_name(report, names, *number),
        Expr::Con(number, width) => return push_constant(report, *number, *width),
        Expr::Not(e) => {
            report.push(b"(~ ");
            push_tree(report, names, e);
        }
        Expr::Two(sign, a, b) => {
            report.push(begin_pair(*sign));
            push_tree(report, names, a);
            report.push(b" ");
            push_tree(report, names, b);
        }
        Expr::Choose(condition, a, b) => {
            report.push(b"(? ");
            push_tree(report, names, condition);
            report.push(b" ");
            push_tree(report, names, a);
            report.push(b" ");
            push_tree(report, names, b);
        }
        Expr::Part(e, high, low) => {
            begin_part(report, *high, *low);
            push_tree(report, names, e);
        }
        Expr::Join(parts) => {
            report.push(b"({}");
            push_parts(report, names, parts);
        }
        Expr::Widen(e, width) => {
            begin_widened(report, *width);
            push_tree(report, names, e);
        }
        Expr::Memory(address) => {
            report.push(b"(mem ");
            push_tree(report, names, address);
        }
    }
    report.push(b")");
}

/// Appends the parts of a join, each behind a blank.
#[cycle(trees)]
fn push_parts(report: &mut Report, names: &[Name], parts: &[Expr]) {
    for part in parts {
        report.push(b" ");
        push_tree(report, names, part);
    }
}
