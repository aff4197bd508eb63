// The rules of described machines.
ghost use Rattle.std.specs.Prelude.{◌≡◌, ℕ, ◌≤◌, ◌<◌, ◌||◌, ◌-◌, nat_le, List, Option, None, Some, not, length};
ghost use Rattle.std.specs.Prelude.{bytes_eq, slice_index};
ghost use Rattle.std.specs.List.{list_all, list_any};
ghost use Rattle.mw_expr.specs.Tree.{view};
ghost use Rattle.mw_macro.specs.Machine.{described};
ghost use Rattle.mw_macro.specs.Rules.{is_within_limits, is_reserved, are_free, is_within, are_short, are_ranges};
ghost use Rattle.mw_macro.specs.Rules.{is_width, is_fault, is_target_fault, is_input_fault, is_nesting_fault};
ghost use Rattle.mw_macro.specs.Rules.{has_fault, have_fault, refusal_of};
ghost use Rattle.mw_macro.specs.Statements.{act_of, acts};

use crate::counts::{Counted, left_after};
use crate::statement::Statement;
use mw_base::{Cause, Name, is_one_of};
use mw_expr::{DEEPEST, Expr, Shape, is_known, is_within_depth, width_by_rules};

/// The most registers, and the most temporaries.
const MOST_REGISTERS: usize = 128;

/// The most statements.
pub(crate) const MOST_STATEMENTS: u32 = 4096;

/// The most memory reads.
const MOST_READS: u32 = 256;

/// How many `if`s may stand in one another.
const MOST_LEVELS: u8 = 64;

/// What may be wrong with statements, each with a cause of its own. More than one may hold of a machine, so each is
/// asked apart.
#[derive(Clone, Copy)]
pub enum Fault {
    /// An expression names an element that there isn't, or a target is neither a register nor a temporary.
    NoElement,
    /// An expression breaks a rule of widths, or a width isn't the one that its place asks for.
    OtherWidth,
    /// An expression is too deep, or too many `if`s stand in one another.
    TooNested,
}

/// Whether there are no more of these than a machine may have registers or temporaries.
fn are_few(elements: usize) -> bool
    ensures { result ≡ nat_le elements 128 }
{
    elements <= MOST_REGISTERS
}

/// Whether a machine keeps the limits of its counts.
#[tactic(auto, unfolding(crate::specs::Rules::is_within_limits))]
fn is_within_limits(names: &[Name], registers: u32, shape: &Shape, statements: &[Statement]) -> bool
    requires { registers ≤ length names.now }
    ensures { result ≡ is_within_limits (described names.now registers shape.now (acts statements.now)) }
{
    let registers = registers as usize;
    are_few(registers)
        && are_few(names.len() - registers)
        && left_after(Counted::Statements, statements, MOST_STATEMENTS + 1) != 0
        && left_after(Counted::Reads, statements, MOST_READS + 1) != 0
}

/// The names that aren't free for elements.
const RESERVED: [&[u8]; 3] = [b"mem", b"zext", b"request"];

/// Whether a name isn't free for an element: `mem`, `zext` and `request` aren't.
pub fn is_reserved(name: &[u8]) -> bool
    ensures { result ≡ is_reserved name.now }
{
    is_one_of(&RESERVED, name)
}

/// Whether one of the names is this one.
fn stands_in(names: &[Name], name: &[u8]) -> bool
    ensures { result ≡ list_any (bytes_eq name.now) names.now }
{
    names.iter().any(|other| name == other.as_slice())
}

/// Whether no name is reserved, and none stands twice. A machine within its limits has few names, so each is
/// compared with each.
fn are_free(names: &[Name]) -> bool
    ensures { result ≡ are_free names.now }
{
    for (i, name) in names.iter().enumerate() {
        let name = name.as_slice();
        if is_reserved(name) | stands_in(&names[i + 1..], name) {
            return false;
        }
    }
    true
}

/// Whether a number lies in a range.
fn is_within(low: u8, number: u8, high: u8) -> bool
    ensures { result ≡ is_within low number high }
{
    low <= number && number <= high
}

/// Whether each of the widths is 1 to 32 bits.
fn are_widths(widths: &[u8]) -> bool
    ensures { result ≡ list_all (λ w. is_within 1 w 32) widths.now }
{
    widths.iter().all(|width| is_within(1, *width, 32))
}

/// Whether each of the names is at most 64 bytes long.
fn are_short(names: &[Name]) -> bool
    ensures { result ≡ are_short names.now }
{
    names.iter().all(|name| name.as_slice().len() <= 64)
}

/// Whether names are short, and elements, addresses and words have widths in their ranges.
#[tactic(auto, unfolding(crate::specs::Rules::are_ranges))]
fn are_ranges(names: &[Name], shape: &Shape) -> bool
    ensures { result ≡ are_ranges names.now shape.now }
{
    are_short(names)
        & are_widths(shape.widths.as_slice())
        & is_within(1, shape.address, 16)
        & is_within(4, shape.word, 32)
}

/// Whether there is a width, and it is the one asked for.
fn is_width(asked: u8, width: Option<u8>) -> bool
    ensures { result ≡ is_width asked width }
{
    match width {
        None => false,
        Some(width) => width == asked,
    }
}

/// Whether an expression has this fault where a word of some bits is asked for.
fn is_fault(fault: Fault, shape: &Shape, asked: u8, expr: &Expr) -> bool
    ensures { result ≡ is_fault fault shape.now asked (view expr.now) }
{
    match fault {
        Fault::NoElement => !is_known(expr, shape),
        Fault::OtherWidth => !is_width(asked, width_by_rules(expr, shape)),
        Fault::TooNested => !is_within_depth(expr, DEEPEST),
    }
}

/// Whether a target has this fault.
fn is_target_fault(fault: Fault, shape: &Shape, target: u32) -> bool
    ensures { result ≡ is_target_fault fault shape.now target }
{
    match fault {
        Fault::NoElement => u64::from(target) + 1 >= shape.widths.as_slice().len() as u64,
        Fault::OtherWidth | Fault::TooNested => false,
    }
}

/// Whether an input of some bits has this fault where a word of other bits is asked for.
fn is_input_fault(fault: Fault, asked: u8, width: u8) -> bool
    ensures { result ≡ is_input_fault fault asked width }
{
    match fault {
        Fault::OtherWidth => width != asked,
        Fault::NoElement | Fault::TooNested => false,
    }
}

/// Whether an `if` has this fault where so many may still stand in one another.
fn is_nesting_fault(fault: Fault, levels: u8) -> bool
    ensures { result ≡ is_nesting_fault fault levels }
{
    match fault {
        Fault::TooNested => levels == 0,
        Fault::NoElement | Fault::OtherWidth => false,
    }
}

/// The width of an element; 0 where there is none.
fn width_at(shape: &Shape, element: u32) -> u8
    ensures { result ≡ slice_index shape.now.widths element }
{
    shape
        .widths
        .as_slice()
        .get(element as usize)
        .copied()
        .unwrap_or(0)
}

/// Whether a statement has this fault, in itself or in its lists, where so many `if`s may stand in one another.
#[cycle(faults)]
fn has_fault(fault: Fault, shape: &Shape, levels: u8, statement: &Statement) -> bool
    ensures { result ≡ has_fault fault shape.now levels (act_of statement.now) }
{
    match statement {
        Statement::Assign { target, value } => {
            is_target_fault(fault, shape, *target)
                || is_fault(fault, shape, width_at(shape, *target), value)
        }
        Statement::Write { address, value } => {
            is_fault(fault, shape, shape.address, address)
                || is_fault(fault, shape, shape.word, value)
        }
        Statement::Put(value) => is_fault(fault, shape, shape.word, value),
        Statement::Take(target) => {
            is_target_fault(fault, shape, *target)
                || is_input_fault(fault, width_at(shape, *target), shape.word)
        }
        Statement::If {
            condition,
            first,
            second,
        } => {
            let inside = levels.saturating_sub(1);
            is_nesting_fault(fault, levels)
                || is_fault(fault, shape, 1, condition)
                || have_fault(fault, shape, inside, first)
                || have_fault(fault, shape, inside, second)
        }
    }
}

/// Whether one of some statements has this fault.
#[cycle(faults)]
fn have_fault(fault: Fault, shape: &Shape, levels: u8, statements: &[Statement]) -> bool
    ensures { result ≡ have_fault fault shape.now levels (acts statements.now) }
{
    for statement in statements {
        if has_fault(fault, shape, levels, statement) {
            return true;
        }
    }
    false
}

/// The least cause for which a machine is refused, if there is one. The number of statements is asked first, so that
/// later visits of statements in one another go no deeper than its limit; how deep a visit of an expression goes is the
/// expression's own depth.
#[tactic(auto, unfolding(crate::specs::Rules::refusal_of))]
pub(crate) fn refusal(
    names: &[Name],
    registers: u32,
    shape: &Shape,
    statements: &[Statement],
) -> Option<Cause>
    requires { registers ≤ length names.now }
    ensures { result ≡ refusal_of (described names.now registers shape.now (acts statements.now)) }
{
    if !is_within_limits(names, registers, shape, statements) {
        return Some(Cause::TooMany);
    }
    if !are_free(names) {
        return Some(Cause::Twice);
    }
    if !are_ranges(names, shape) {
        return Some(Cause::ValueTooWide);
    }
    if have_fault(Fault::NoElement, shape, MOST_LEVELS, statements) {
        return Some(Cause::UnknownElement);
    }
    if have_fault(Fault::OtherWidth, shape, MOST_LEVELS, statements) {
        return Some(Cause::WidthsDiffer);
    }
    if have_fault(Fault::TooNested, shape, MOST_LEVELS, statements) {
        return Some(Cause::TooDeep);
    }
    None
}
