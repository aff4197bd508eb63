// Widths.
ghost use Rattle.std.specs.Prelude.{◌≡◌, ℕ, ◌+◌, ◌≤◌, ◌^◌, ◌&&◌, List, Option, Some, nat_le, nat_lt, IfSome, IfOk};
ghost use Rattle.std.specs.Prelude.{length, map, slice_get};
ghost use Rattle.mw_expr.specs.Tree.{view, trees_of};
ghost use Rattle.mw_expr.specs.Widths.{width_if, element_width, width_after, pair_width, choice_width, part_width};
ghost use Rattle.mw_expr.specs.Widths.{count, join_width, total_width, width, is_known, are_known, depth, deepest};
ghost use Rattle.mw_expr.specs.Widths.{width_of};

use crate::expr::{Expr, Pair2};
use crate::shape::Shape;
use mw_base::Cause;

/// The widest word.
pub(crate) const WIDEST: u8 = 32;

/// How many levels an expression may have.
pub const DEEPEST: u8 = 64;

/// A width where a rule holds, which is 1 to 32 bits.
pub(crate) fn width_if(rule: bool, width: u8) -> Option<u8>
    ensures { result ≡ width_if rule width }
{
    if rule && 1 <= width && width <= WIDEST {
        Some(width)
    } else {
        None
    }
}

impl Pair2 {
    /// The width of what the sign gives of two words of this width.
    pub(crate) fn width_after(self, width: u8) -> u8
        ensures { result ≡ width_after self width }
    {
        match self {
            Pair2::And | Pair2::Or | Pair2::Xor | Pair2::Add | Pair2::Sub => width,
            Pair2::Same | Pair2::Differ | Pair2::Less => 1,
        }
    }
}

fn element_width(shape: &Shape, element: u32) -> Option<u8>
    ensures { result ≡ element_width (slice_get shape.now.widths element) }
{
    let bits = shape.widths.as_slice().get(element as usize).copied()?;
    width_if(true, bits)
}

fn constant_width(number: u32, bits: u8) -> Option<u8>
    ensures { result ≡ width_if (nat_lt number (2 ^ bits)) bits }
{
    let width = width_if(true, bits)?;
    width_if(u64::from(number) < 1u64 << width, width)
}

pub(crate) fn part_width(whole: u8, high: u8, low: u8) -> Option<u8>
    ensures { result ≡ part_width high low (Some whole) }
{
    if low <= high && high < whole {
        width_if(true, high - low + 1)
    } else {
        None
    }
}

/// The width of an expression over a shape, 1 to 32 bits, where it keeps all the rules of widths, however deep it is;
/// None where the
/// widths of operands break their rule, a join has fewer than two parts, a constant doesn't fit its width, a width
/// isn't 1 to 32 bits,
/// or an element isn't one of the shape.
#[cycle(widths)]
pub fn width_by_rules(expr: &Expr, shape: &Shape) -> Option<u8>
    ensures exact { result ≡ width shape.now (view expr.now) }
    ensures range { IfSome result (λ w. (1 ≤ w) × (w ≤ 32)) }
{
    match expr {
        Expr::Element(element) => element_width(shape, *element),
        Expr::Con(number, bits) => constant_width(*number, *bits),
        Expr::Not(e) => width_by_rules(e, shape),
        Expr::Two(sign, a, b) => {
            let left = width_by_rules(a, shape)?;
            let right = width_by_rules(b, shape)?;
            width_if(left == right, sign.width_after(left))
        }
        Expr::Choose(condition, a, b) => {
            let chosen_by = width_by_rules(condition, shape)?;
            let first = width_by_rules(a, shape)?;
            let second = width_by_rules(b, shape)?;
            width_if(chosen_by == 1 && first == second, first)
        }
        Expr::Part(e, high, low) => {
            let whole = width_by_rules(e, shape)?;
            part_width(whole, *high, *low)
        }
        Expr::Join(parts) => joined_width(parts, shape),
        Expr::Widen(e, to) => {
            let from = width_by_rules(e, shape)?;
            width_if(from <= *to, *to)
        }
        Expr::Memory(address) => {
            let bits = width_by_rules(address, shape)?;
            width_if(bits == shape.address, shape.word)
        }
    }
}

/// The width of the parts of a join together.
#[cycle(widths)]
#[tactic(auto, using(crate::proofs::Trees::count_view))]
fn joined_width(parts: &[Expr], shape: &Shape) -> Option<u8>
    ensures exact { result
        ≡ join_width (count (trees_of (map view parts.now))) (total_width shape.now (trees_of (map view parts.now))) }
    ensures range { IfSome result (λ w. (1 ≤ w) × (w ≤ 32)) }
{
    let mut whole = 0u8;
    for part in parts {
        whole += width_by_rules(part, shape)?;
        if whole > WIDEST {
            return None;
        }
    }
    width_if(2 <= parts.len(), whole)
}

/// Whether each element that an expression names is one of the shape.
#[cycle(known)]
pub fn is_known(expr: &Expr, shape: &Shape) -> bool
    ensures { result ≡ is_known (length shape.now.widths) (view expr.now) }
{
    match expr {
        Expr::Element(element) => (*element as usize) < shape.widths.as_slice().len(),
        Expr::Con(..) => true,
        Expr::Not(e) | Expr::Part(e, ..) | Expr::Widen(e, _) | Expr::Memory(e) => is_known(
            e, shape,
        ),
        Expr::Two(_, a, b) => is_known(a, shape) && is_known(b, shape),
        Expr::Choose(condition, a, b) => {
            is_known(condition, shape) && is_known(a, shape) && is_known(b, shape)
        }
        Expr::Join(parts) => are_known(parts, shape),
    }
}

/// Whether each element of some expressions is one of the shape.
#[cycle(known)]
fn are_known(parts: &[Expr], shape: &Shape) -> bool
    ensures { result ≡ are_known (length shape.now.widths) (trees_of (map view parts.now)) }
{
    for part in parts {
        if !is_known(part, shape) {
            return false;
        }
    }
    true
}

/// Whether an expression is at most so many levels deep: an element or a constant is one, an operation one more than
/// its deepest part.
#[cycle(depths)]
pub fn is_within_depth(expr: &Expr, levels: u8) -> bool
    ensures { result ≡ nat_le (depth (view expr.now)) levels }
{
    if levels == 0 {
        return false;
    }
    let below = levels - 1;
    match expr {
        Expr::Element(_) | Expr::Con(..) => true,
        Expr::Not(e) | Expr::Part(e, ..) | Expr::Widen(e, _) | Expr::Memory(e) => is_within_depth(
            e, below,
        ),
        Expr::Two(_, a, b) => is_within_depth(a, below) && is_within_depth(b, below),
        Expr::Choose(condition, a, b) => {
            is_within_depth(condition, below)
                && is_within_depth(a, below)
                && is_within_depth(b, below)
        }
        Expr::Join(parts) => are_within_depth(parts, below),
    }
}

/// Whether some expressions are at most so deep.
#[cycle(depths)]
fn are_within_depth(parts: &[Expr], levels: u8) -> bool
    ensures { result ≡ nat_le (deepest (trees_of (map view parts.now))) levels }
{
    for part in parts {
        if !is_within_depth(part, levels) {
            return false;
        }
    }
    true
}

/// The width of an expression over a shape, 1 to 32.
///
/// # Errors
///
/// The least of the causes that hold: 40 where an element isn't one of the shape; 41 where the widths of operands
/// break their
/// rule, a join has fewer than two parts, a constant doesn't fit its width, or a width isn't 1 to 32; 42 where the
/// expression is
/// more than 64 deep.
#[tactic(auto, unfolding(crate::specs::Widths::width_of))]
pub fn width_of(expr: &Expr, shape: &Shape) -> Result<u8, Cause>
    ensures exact { result ≡ width_of shape.now (view expr.now) }
    ensures least { IfOk result (λ w. 1 ≤ w) }
    ensures most { IfOk result (λ w. w ≤ 32) }
{
    if !is_known(expr, shape) {
        return Err(Cause::UnknownElement);
    }
    match width_by_rules(expr, shape) {
        None => Err(Cause::WidthsDiffer),
        Some(width) => {
            if is_within_depth(expr, DEEPEST) {
                Ok(width)
            } else {
                Err(Cause::TooDeep)
            }
        }
    }
}
