// The elements of a board in the lines of a block.
ghost use Rattle.std.specs.Prelude.{◌≡◌, ◌<◌, ◌≤◌, ◌^◌, IfOk, IfSome, false};
ghost use Rattle.mw_board.specs.Elements.{element_count};
ghost use Rattle.mw_revise.specs.Elements.{number_of, is_named, known_element, new_element, element_bound, element_in};
ghost use Rattle.mw_revise.specs.Elements.{equal_line, fixed_line};
ghost use Rattle.mw_revise.specs.Kept.{IsLine};

use crate::keep::KeepLine;
use mw_base::{Cause, Dotted, Numeral, TextFault, fault_on, spelled};
use mw_board::Board;
use mw_sim::{two_to, value_below};

/// The number of OWNER . NAME, if it is an element of the board.
fn number_of(board: &Board, text: &[u8], element: Dotted) -> Option<usize>
    ensures exact { result ≡ number_of board.now text.now element }
    ensures there { IfSome result (λ number. number < element_count board.now) }
{
    if spelled(text, element.owner) == b"b".as_slice() {
        board.element_number(spelled(text, element.name))
    } else {
        None
    }
}

/// Whether a line has this element.
fn is_named(lines: &[KeepLine], element: u32) -> bool
    ensures { result ≡ is_named lines.now element }
{
    lines.iter().any(|line| line.element() == element)
}

/// The number of an element: cause 40.
#[tactic(auto, unfolding(crate::specs::Elements::known_element))]
fn known_element(board: &Board, text: &[u8], element: Dotted) -> Result<u32, TextFault>
    ensures exact { result ≡ known_element board.now text.now element }
    ensures there { IfOk result (λ number. number < element_count board.now) }
{
    // A call for the proof: its clause `valid` says that the elements of every board are few.
    let _ = board.parts();
    match number_of(board, text, element) {
        Some(number) => Ok(number as u32),
        None => Err(fault_on(element.owner, Cause::UnknownElement)),
    }
}

/// The number of an element that none of these lines has: cause 40 or 31.
#[tactic(auto, unfolding(crate::specs::Elements::new_element))]
fn new_element(
    board: &Board,
    text: &[u8],
    lines: &[KeepLine],
    element: Dotted,
) -> Result<u32, TextFault>
    ensures exact { result ≡ new_element board.now text.now lines.now element }
    ensures there { IfOk result (λ number. number < element_count board.now) }
    ensures new { IfOk result (λ number. is_named lines.now number ≡ false) }
{
    let number = known_element(board, text, element)?;
    if is_named(lines, number) {
        return Err(fault_on(element.owner, Cause::Twice));
    }
    Ok(number)
}

/// The least number that is no value of the element with a number.
fn element_bound(board: &Board, number: u32) -> u64
    ensures exact { result ≡ element_bound board.now number }
    ensures most { result ≤ 2 ^ 32 }
{
    // A call for the proof: its clause `valid` says that no element of a board has over 32 bits.
    let _ = board.parts();
    match board.element_width(number as usize) {
        Some(width) => two_to(width),
        None => 1,
    }
}

/// keep ELEMENT, behind these lines: cause 40 or 31.
#[tactic(auto, unfolding(crate::specs::Elements::equal_line))]
pub(crate) fn equal_line(
    board: &Board,
    text: &[u8],
    lines: &[KeepLine],
    element: Dotted,
) -> Result<KeepLine, TextFault>
    ensures exact { result ≡ equal_line board.now text.now lines.now element }
    ensures kept { IfOk result (λ line. IsLine board.now line) }
    ensures new { IfOk result (λ line. is_named lines.now (element_in line) ≡ false) }
{
    Ok(KeepLine::Equal(new_element(board, text, lines, element)?))
}

/// fixed ELEMENT OLD NEW, behind these lines: cause 40 or 31, then 33 at each value.
#[tactic(auto, unfolding(crate::specs::Elements::fixed_line))]
pub(crate) fn fixed_line(
    board: &Board,
    text: &[u8],
    lines: &[KeepLine],
    element: Dotted,
    old: Numeral,
    new: Numeral,
) -> Result<KeepLine, TextFault>
    ensures exact { result ≡ fixed_line board.now text.now lines.now element old new }
    ensures kept { IfOk result (λ line. IsLine board.now line) }
    ensures new { IfOk result (λ line. is_named lines.now (element_in line) ≡ false) }
{
    let number = new_element(board, text, lines, element)?;
    let bound = element_bound(board, number);
    let old = value_below(bound, old)?;
    let new = value_below(bound, new)?;
    Ok(KeepLine::Fixed(number, old, new))
}
