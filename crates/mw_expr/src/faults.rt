// What is at fault in a grammatical expression.
ghost use Rattle.std.specs.Prelude.{◌≡◌, ◌^◌, nat_lt, Option, Some, true, map, ◌||◌};
ghost use Rattle.mw_expr.specs.Widths.{width_if, part_width};
ghost use Rattle.mw_expr.specs.Placed.{placed, parts_of, named, constant, pair, choice, part, join, widened, memory};
ghost use Rattle.mw_expr.specs.declared.shape.Shape.{Shape};
ghost use Rattle.mw_expr.specs.Faults.{named_width, same_width, seen_pair, seen_choice, beside, within_32, seen_width};
ghost use Rattle.mw_expr.specs.Faults.{seen_total, pair_breaks, is_other, part_breaks, is_past, deep, below, broken};
ghost use Rattle.mw_expr.specs.Faults.{unknown, is_improper, too_wide, faults, faults_in, first_fault};
ghost use Rattle.mw_base.specs.FirstFaults.{first_in};

use crate::expr::Pair2;
use crate::placed::Placed;
use crate::shape::Shape;
use crate::width::{DEEPEST, WIDEST, part_width};
use mw_base::{Cause, Numeral, TextFault, Token, fault_on, note_fault};

fn note_deep(first: &mut Option<TextFault>, levels: Option<u8>, token: Token)
    ensures { first.new ≡ first_in first.old (deep levels token) }
{
    match levels {
        Some(0) => note_fault(first, fault_on(token, Cause::TooDeep)),
        _ => {}
    }
}

fn note_broken(first: &mut Option<TextFault>, breaks: bool, token: Token)
    ensures { first.new ≡ first_in first.old (broken breaks token) }
{
    if breaks {
        note_fault(first, fault_on(token, Cause::WidthsDiffer));
    }
}

fn note_unknown(first: &mut Option<TextFault>, width: Option<u8>, token: Token)
    ensures { first.new ≡ first_in first.old (unknown width token) }
{
    match width {
        Some(_) => {}
        None => note_fault(first, fault_on(token, Cause::UnknownElement)),
    }
}

/// Whether a value fits a width.
#[tactic(auto, using(crate::proofs::Words::fits_wider))]
fn fits(value: u128, width: u128) -> bool
    ensures { result ≡ nat_lt value (2 ^ width) }
{
    if width >= 128 {
        return true;
    }
    value < 1u128 << width
}

fn note_too_wide(first: &mut Option<TextFault>, number: Numeral, width: u128)
    ensures { first.new ≡ first_in first.old (too_wide number width) }
{
    if !fits(number.value, width) {
        note_fault(first, fault_on(number.token, Cause::TooWide));
    }
}

/// Whether a width isn't 1 to 32.
fn is_improper(width: u128) -> bool
    ensures { result ≡ is_improper width }
{
    !(1 <= width && width <= u128::from(WIDEST))
}

/// How many levels there are from a part of it down.
fn below(levels: Option<u8>) -> Option<u8>
    ensures { result ≡ below levels }
{
    match levels {
        Some(all) => all.checked_sub(1),
        None => None,
    }
}

fn named_width(shape: &Shape, number: Option<usize>) -> Option<u8>
    ensures { result ≡ named_width shape.now number }
{
    shape.widths.as_slice().get(number?).copied()
}

/// The width that a text names, if it is 1 to 32.
fn given_width(width: u128) -> Option<u8>
    ensures { result ≡ width_if true width }
{
    if is_improper(width) {
        None
    } else {
        Some(width as u8)
    }
}

fn same_width(a: Option<u8>, b: Option<u8>) -> Option<u8>
    ensures { result ≡ same_width a b }
{
    let first = a?;
    let second = b?;
    if first == second { Some(first) } else { None }
}

fn seen_pair(op: Pair2, a: Option<u8>, b: Option<u8>) -> Option<u8>
    ensures { result ≡ seen_pair op a b }
{
    match op {
        Pair2::And | Pair2::Or | Pair2::Xor | Pair2::Add | Pair2::Sub => same_width(a, b),
        Pair2::Same | Pair2::Differ | Pair2::Less => Some(1),
    }
}

fn seen_choice(condition: Option<u8>, a: Option<u8>, b: Option<u8>) -> Option<u8>
    ensures { result ≡ seen_choice condition a b }
{
    if condition? == 1 {
        same_width(a, b)
    } else {
        None
    }
}

fn seen_part(high: u128, low: u128, whole: Option<u8>) -> Option<u8>
    ensures { result ≡ part_width high low whole }
{
    let whole = whole?;
    if low <= high && high < u128::from(whole) {
        part_width(whole, high as u8, low as u8)
    } else {
        None
    }
}

fn beside(a: Option<u8>, b: Option<u8>) -> Option<u8>
    ensures { result ≡ beside a b }
{
    let whole = u16::from(a?) + u16::from(b?);
    Some(whole.min(33) as u8)
}

fn within_32(width: Option<u8>) -> Option<u8>
    ensures { result ≡ within_32 width }
{
    let width = width?;
    if width <= WIDEST { Some(width) } else { None }
}

fn pair_breaks(a: Option<u8>, b: Option<u8>) -> bool
    ensures { result ≡ pair_breaks a b }
{
    match (a, b) {
        (Some(a), Some(b)) => a != b,
        _ => false,
    }
}

fn is_other(width: u8, seen: Option<u8>) -> bool
    ensures { result ≡ is_other width seen }
{
    match seen {
        Some(seen) => seen != width,
        None => false,
    }
}

fn choice_breaks(condition: Option<u8>, a: Option<u8>, b: Option<u8>) -> bool
    ensures { result ≡ (is_other 1 condition || pair_breaks a b) }
{
    is_other(1, condition) || pair_breaks(a, b)
}

fn part_breaks(high: u128, low: u128, whole: Option<u8>) -> bool
    ensures { result ≡ part_breaks high low whole }
{
    match whole {
        Some(whole) => !(low <= high && high < u128::from(whole)),
        None => !(low <= high && high < u128::from(WIDEST)),
    }
}

fn is_past(most: u128, seen: Option<u8>) -> bool
    ensures { result ≡ is_past most seen }
{
    match seen {
        Some(seen) => most < u128::from(seen),
        None => false,
    }
}

fn widen_breaks(width: u128, seen: Option<u8>) -> bool
    ensures { result ≡ (is_improper width || is_past width seen) }
{
    is_improper(width) || is_past(width, seen)
}

/// The width of an element, if there is one of that name. Keeps the first of its faults.
fn check_element(
    shape: &Shape,
    levels: Option<u8>,
    token: Token,
    number: Option<usize>,
    first: &mut Option<TextFault>,
) -> Option<u8>
    ensures width { result ≡ seen_width shape.now (named token number) }
    ensures faults { first.new ≡ first_in first.old (faults shape.now levels (named token number)) }
{
    note_deep(first, levels, token);
    let width = named_width(shape, number);
    note_unknown(first, width, token);
    width
}

/// The width that a constant names, if it is one. Keeps the first of its faults.
fn check_constant(
    levels: Option<u8>,
    number: Numeral,
    hash: Token,
    bits: u128,
    first: &mut Option<TextFault>,
) -> Option<u8>
    ensures width { (s : Shape) → result ≡ seen_width s (constant number hash bits) }
    ensures faults { (s : Shape) → first.new ≡ first_in first.old (faults s levels (constant number hash bits)) }
{
    note_deep(first, levels, number.token);
    note_too_wide(first, number, bits);
    note_broken(first, is_improper(bits), hash);
    given_width(bits)
}

/// The width that an expression has for what is around it, where there are so many levels from this one down: 0 at
/// level
/// 65, none past it. Keeps the first of its faults.
#[cycle(faults)]
pub(crate) fn check(
    shape: &Shape,
    levels: Option<u8>,
    tree: &Placed,
    first: &mut Option<TextFault>,
) -> Option<u8>
    ensures width { result ≡ seen_width shape.now (placed tree.now) }
    ensures faults { first.new ≡ first_in first.old (faults shape.now levels (placed tree.now)) }
{
    match tree {
        Placed::Element(token, number) => check_element(shape, levels, *token, *number, first),
        Placed::Con(number, hash, bits) => check_constant(levels, *number, *hash, *bits, first),
        Placed::Not(token, e) => {
            note_deep(first, levels, *token);
            check(shape, below(levels), e, first)
        }
        Placed::Two(op, token, a, b) => check_pair(shape, levels, *op, *token, a, b, first),
        Placed::Choose(token, condition, a, b) => {
            check_choice(shape, levels, *token, condition, a, b, first)
        }
        Placed::Part(token, high, low, e) => {
            check_part(shape, levels, *token, *high, *low, e, first)
        }
        Placed::Join(token, parts) => check_join(shape, levels, *token, parts, first),
        Placed::Widen(token, width, e) => check_widening(shape, levels, *token, *width, e, first),
        Placed::Memory(token, e) => check_memory(shape, levels, *token, e, first),
        Placed::Group(token, e) => {
            note_deep(first, levels, *token);
            check(shape, below(levels), e, first)
        }
    }
}

/// The width of a sign between two operands. Keeps the first of its faults.
#[cycle(faults)]
fn check_pair(
    shape: &Shape,
    levels: Option<u8>,
    op: Pair2,
    token: Token,
    a: &Placed,
    b: &Placed,
    first: &mut Option<TextFault>,
) -> Option<u8>
    ensures width { result ≡ seen_width shape.now (pair op token (placed a.now) (placed b.now)) }
    ensures faults { first.new
        ≡ first_in first.old (faults shape.now levels (pair op token (placed a.now) (placed b.now))) }
{
    note_deep(first, levels, token);
    let one = check(shape, below(levels), a, first);
    let other = check(shape, below(levels), b, first);
    note_broken(first, pair_breaks(one, other), token);
    seen_pair(op, one, other)
}

/// The width of a choice. Keeps the first of its faults.
#[cycle(faults)]
fn check_choice(
    shape: &Shape,
    levels: Option<u8>,
    token: Token,
    condition: &Placed,
    a: &Placed,
    b: &Placed,
    first: &mut Option<TextFault>,
) -> Option<u8>
    ensures width { result ≡ seen_width shape.now (choice token (placed condition.now) (placed a.now) (placed b.now)) }
    ensures faults { first.new
        ≡ first_in first.old
        (faults shape.now levels (choice token (placed condition.now) (placed a.now) (placed b.now))) }
{
    note_deep(first, levels, token);
    let chosen_by = check(shape, below(levels), condition, first);
    let one = check(shape, below(levels), a, first);
    let other = check(shape, below(levels), b, first);
    note_broken(first, choice_breaks(chosen_by, one, other), token);
    seen_choice(chosen_by, one, other)
}

/// The width of a part. Keeps the first of its faults.
#[cycle(faults)]
fn check_part(
    shape: &Shape,
    levels: Option<u8>,
    token: Token,
    high: u128,
    low: u128,
    e: &Placed,
    first: &mut Option<TextFault>,
) -> Option<u8>
    ensures width { result ≡ seen_width shape.now (part token high low (placed e.now)) }
    ensures faults { first.new ≡ first_in first.old (faults shape.now levels (part token high low (placed e.now))) }
{
    note_deep(first, levels, token);
    let whole = check(shape, below(levels), e, first);
    note_broken(first, part_breaks(high, low, whole), token);
    seen_part(high, low, whole)
}

/// The width of a join. Keeps the first of its faults.
#[cycle(faults)]
fn check_join(
    shape: &Shape,
    levels: Option<u8>,
    token: Token,
    parts: &[Placed],
    first: &mut Option<TextFault>,
) -> Option<u8>
    ensures width { result ≡ seen_width shape.now (join token (parts_of (map placed parts.now))) }
    ensures faults { first.new
        ≡ first_in first.old (faults shape.now levels (join token (parts_of (map placed parts.now)))) }
{
    note_deep(first, levels, token);
    let whole = check_parts(shape, below(levels), parts, first);
    note_broken(first, is_past(32, whole), token);
    within_32(whole)
}

/// The width that `zext` names. Keeps the first of its faults.
#[cycle(faults)]
fn check_widening(
    shape: &Shape,
    levels: Option<u8>,
    token: Token,
    width: u128,
    e: &Placed,
    first: &mut Option<TextFault>,
) -> Option<u8>
    ensures width { result ≡ seen_width shape.now (widened token width (placed e.now)) }
    ensures faults { first.new ≡ first_in first.old (faults shape.now levels (widened token width (placed e.now))) }
{
    note_deep(first, levels, token);
    let narrow = check(shape, below(levels), e, first);
    note_broken(first, widen_breaks(width, narrow), token);
    given_width(width)
}

/// The width of a word of the memory. Keeps the first fault of its address.
#[cycle(faults)]
fn check_memory(
    shape: &Shape,
    levels: Option<u8>,
    token: Token,
    e: &Placed,
    first: &mut Option<TextFault>,
) -> Option<u8>
    ensures width { result ≡ seen_width shape.now (memory token (placed e.now)) }
    ensures faults { first.new ≡ first_in first.old (faults shape.now levels (memory token (placed e.now))) }
{
    note_deep(first, levels, token);
    let address = check(shape, below(levels), e, first);
    note_broken(first, is_other(shape.address, address), token);
    Some(shape.word)
}

/// The width of the parts of a join together, where 33 stands for all that pass 32 bits. Keeps the first of their
/// faults.
#[cycle(faults)]
fn check_parts(
    shape: &Shape,
    levels: Option<u8>,
    parts: &[Placed],
    first: &mut Option<TextFault>,
) -> Option<u8>
    ensures width { result ≡ seen_total shape.now (Some 0) (parts_of (map placed parts.now)) }
    ensures faults { first.new ≡ first_in first.old (faults_in shape.now levels (parts_of (map placed parts.now))) }
{
    let mut whole = Some(0);
    for part in parts {
        let width = check(shape, levels, part, first);
        whole = beside(whole, width);
    }
    whole
}

/// The first fault of an expression, if it has one.
pub(crate) fn first_fault(shape: &Shape, tree: &Placed) -> Option<TextFault>
    ensures { result ≡ first_fault shape.now (placed tree.now) }
{
    let mut first = None;
    let _width = check(shape, Some(DEEPEST), tree, &mut first);
    first
}
