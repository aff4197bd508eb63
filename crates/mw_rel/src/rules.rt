// The rules of relations.
ghost use Rattle.std.specs.Prelude.{◌≡◌, ℕ, ◌<◌, ◌==◌, All, map, length};
ghost use Rattle.std.specs.List.{list_all, list_any};
ghost use Rattle.mw_rel.specs.Relation.{related, IsFormed, IsFormedLine};
ghost use Rattle.mw_rel.specs.Rules.{are_once, addresses_are_once, is_even, are_even, reads_no_left, lefts_are_once};
ghost use Rattle.mw_rel.specs.Rules.{rights_are_free, is_bounded, refusal_of};
ghost use Rattle.mw_rel.specs.Seen.{line_of, lines_of, boundaries_of};

use crate::boundary::Boundary;
use crate::line::{Line, stands_in};
use mw_base::Cause;
use mw_expr::{Shape, width_of};

/// The most cycles that a segment may take.
const MOST_CYCLES: u32 = 500;

/// What has a number that may stand once only.
trait Numbered {
    ghost item_number: { Self → ℕ };

    /// Its number.
    fn number(&self) -> u32
        ensures { result ≡ item_number self.now };
}

impl Numbered for Line {
    ghost item_number = { λ line. line.left };

    fn number(&self) -> u32 {
        self.left
    }
}

impl Numbered for Boundary {
    ghost item_number = { λ boundary. boundary.address };

    fn number(&self) -> u32 {
        u32::from(self.address)
    }
}

/// Whether one of some items has this number.
fn has_number<T: Numbered>(items: &[T], number: u32) -> bool
    ensures { result ≡ list_any (λ other. other == number) (map T.item_number items.now) }
{
    for item in items {
        if item.number() == number {
            return true;
        }
    }
    false
}

/// Whether no number is that of two items. There are few items, so each is compared with each.
fn are_once<T: Numbered>(items: &[T]) -> bool
    ensures { result ≡ are_once (map T.item_number items.now) }
{
    for (i, item) in items.iter().enumerate() {
        if has_number(&items[i + 1..], item.number()) {
            return false;
        }
    }
    true
}

/// Whether no address is that of two boundaries.
fn addresses_are_once(boundaries: &[Boundary]) -> bool
    ensures { result ≡ addresses_are_once (boundaries_of boundaries.now) }
{
    are_once(boundaries)
}

/// Whether no element is left of two lines.
fn left_once(lines: &[Line]) -> bool
    ensures { result ≡ are_once (map (λ line. line.left) (lines_of lines.now)) }
{
    are_once(lines)
}

/// Whether a line's right side is as wide as its left one.
fn is_even(shape: &Shape, line: &Line) -> bool
    requires { line.now.left < length shape.now.widths }
    ensures { result ≡ is_even shape.now (line_of line.now) }
{
    match width_of(&line.right, shape) {
        Ok(width) => width == shape.widths.as_slice()[line.left as usize],
        Err(_) => false,
    }
}

/// Whether each line's right side is as wide as its left one.
fn are_even(shape: &Shape, lines: &[Line]) -> bool
    requires { All (IsFormedLine shape.now) (lines_of lines.now) }
    ensures { result ≡ list_all (is_even shape.now) (lines_of lines.now) }
{
    for line in lines {
        if !is_even(shape, line) {
            return false;
        }
    }
    true
}

/// Whether the lines of each boundary are even.
fn all_are_even(boundaries: &[Boundary], shape: &Shape) -> bool
    requires { IsFormed (related (boundaries_of boundaries.now) shape.now) }
    ensures { result ≡ list_all (are_even shape.now) (boundaries_of boundaries.now) }
{
    for boundary in boundaries {
        if !are_even(shape, boundary.lines.as_slice()) {
            return false;
        }
    }
    true
}

/// Whether no element is left of two lines of a boundary.
fn lefts_are_once(boundaries: &[Boundary]) -> bool
    ensures { result ≡ list_all lefts_are_once (boundaries_of boundaries.now) }
{
    for boundary in boundaries {
        if !left_once(boundary.lines.as_slice()) {
            return false;
        }
    }
    true
}

/// Whether no left side of some lines stands on the right of this one.
fn reads_no_left(lines: &[Line], line: &Line) -> bool
    ensures { result ≡ reads_no_left (lines_of lines.now) (line_of line.now) }
{
    for other in lines {
        if stands_in(other.left, &line.right) {
            return false;
        }
    }
    true
}

/// Whether no left element of some lines stands on the right of some.
fn read_no_left(lefts: &[Line], lines: &[Line]) -> bool
    ensures { result ≡ list_all (reads_no_left (lines_of lefts.now)) (lines_of lines.now) }
{
    for line in lines {
        if !reads_no_left(lefts, line) {
            return false;
        }
    }
    true
}

/// Whether no left element of a boundary stands on a right side there.
fn rights_are_free(boundaries: &[Boundary]) -> bool
    ensures { result ≡ list_all rights_are_free (boundaries_of boundaries.now) }
{
    for boundary in boundaries {
        let lines = boundary.lines.as_slice();
        if !read_no_left(lines, lines) {
            return false;
        }
    }
    true
}

/// Whether each segment may take 1 to 500 cycles.
fn are_bounded(boundaries: &[Boundary]) -> bool
    ensures { result ≡ list_all is_bounded (boundaries_of boundaries.now) }
{
    for boundary in boundaries {
        if boundary.bound < 1 || MOST_CYCLES < boundary.bound {
            return false;
        }
    }
    true
}

/// The least cause for which a relation is refused, if there is one.
#[tactic(auto, unfolding(crate::specs::Rules::refusal_of))]
pub(crate) fn refusal(boundaries: &[Boundary], shape: &Shape) -> Option<Cause>
    requires { IsFormed (related (boundaries_of boundaries.now) shape.now) }
    ensures { result ≡ refusal_of (related (boundaries_of boundaries.now) shape.now) }
{
    if !addresses_are_once(boundaries) {
        return Some(Cause::Twice);
    }
    if !all_are_even(boundaries, shape) {
        return Some(Cause::WidthsDiffer);
    }
    if !lefts_are_once(boundaries) {
        return Some(Cause::LeftTwice);
    }
    if !rights_are_free(boundaries) {
        return Some(Cause::LeftUsedOnRight);
    }
    if boundaries.is_empty() {
        return Some(Cause::NoBoundary);
    }
    if !are_bounded(boundaries) {
        return Some(Cause::BadBound);
    }
    None
}
