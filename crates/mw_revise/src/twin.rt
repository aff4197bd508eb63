// Twin starts, and their text.
ghost use Rattle.std.specs.Prelude.{◌≡◌, ◌++◌, IfOk, OnOk};
ghost use Rattle.mw_cycle.specs.State.{Fits};
ghost use Rattle.mw_revise.specs.TwinText.{side_text, twin_difference_line, twin_difference_words, twin_text};

use crate::difference::TwinDifference;
use mw_base::NoMemory;
use mw_board::Board;
use mw_replay::append_environment;
use mw_sim::{
    Start, append_element_words, append_event_words, append_line, append_memory_words, append_state,
};
use std::alloc::Global;
use std::marker::Model;

/// A twin start from which an old program and a new one differ, as it is printed.
#[derive(Debug, Drop)]
pub struct Twin {
    /// The number of the boundary, from 0, in the order of the KEEP text. It isn't printed: the control addresses say
    /// it.
    pub boundary: usize,
    /// Where the old program begins.
    pub before: Start,
    /// Where the new program begins.
    pub after: Start,
    /// What they show.
    pub difference: TwinDifference,
}

impl Model for Twin {
    ghost use Rattle.mw_revise.specs.TwinText.{Twin as Seen};

    ghost Value = { Seen };

    ghost view = { λ t. record {
      boundary = t.boundary;
      before = t.before;
      after = t.after;
      difference = t.difference;
    } };
}

/// Appends some words.
fn append_words(text: &mut Vec<u8>, words: &[u8]) -> Result<(), NoMemory>
    ensures { OnOk result (text.new.items ≡ text.old.items ++ words.now) }
{
    text.extend_from_slice(words)?;
    Ok(())
}

/// Appends a difference that a twin start shows.
#[tactic(auto, unfolding(crate::specs::TwinText::twin_difference_words))]
fn append_difference(
    alloc: Global,
    text: &mut Vec<u8>,
    board: &Board,
    difference: TwinDifference,
) -> Result<(), NoMemory>
    ensures { OnOk result (text.new.items ≡ text.old.items ++ twin_difference_words board.now difference) }
{
    match difference {
        TwinDifference::LateOld => append_words(text, b"late old"),
        TwinDifference::LateNew => append_words(text, b"late new"),
        TwinDifference::Event(number) => append_event_words(alloc, text, number),
        TwinDifference::Boundary => append_words(text, b"boundary"),
        TwinDifference::StackPointer => append_words(text, b"element b.sp"),
        TwinDifference::Element(element) => append_element_words(text, board, element as usize),
        TwinDifference::Memory(address) => append_memory_words(alloc, text, address),
    }
}

/// Appends the line of a difference that a twin start shows.
fn append_difference_line(
    alloc: Global,
    text: &mut Vec<u8>,
    board: &Board,
    difference: TwinDifference,
) -> Result<(), NoMemory>
    ensures { OnOk result (text.new.items ≡ text.old.items ++ twin_difference_line board.now difference) }
{
    append_words(text, b"difference ")?;
    append_difference(alloc, text, board, difference)?;
    append_line(text, b"")?;
    Ok(())
}

/// Appends a start as an environment, behind a line with whose it is.
fn append_side(
    alloc: Global,
    text: &mut Vec<u8>,
    board: &Board,
    side: &[u8],
    start: &Start,
) -> Result<(), NoMemory>
    requires fits { Fits board.now start.now.state }
    ensures { OnOk result (text.new.items ≡ text.old.items ++ side_text board.now side.now start.now) }
{
    append_line(text, side)?;
    append_state(alloc, text, board, &start.state)?;
    append_environment(alloc, text, &start.env)
}

/// The text of a twin start: the line `difference D`; behind the line `old` an environment in which the old program
/// begins, and behind the line `new` one in which the new program begins. D is `late old`, `late new`, `event N`,
/// `boundary`, `element b.NAME` or `memory ADDRESS`, with N in decimal digits and ADDRESS in hexadecimal; an element
/// that the board doesn't have has no name. An environment has the control address, and then, of what isn't 0, `set`
/// for the elements of the board, by number, and for the stack pointer, `mem` for each word of the memory, by address,
/// and the lists without the zeros at their ends, sixteen values to a line. Both states fit the board.
///
/// # Errors
///
/// Memory ran out.
#[tactic(auto, unfolding(crate::specs::TwinText::twin_text))]
pub fn print_twin(alloc: Global, board: &Board, twin: &Twin) -> Result<Vec<u8>, NoMemory>
    requires before { Fits board.now twin.now.before.state }
    requires after { Fits board.now twin.now.after.state }
    ensures { IfOk result (λ text. text.items ≡ twin_text board.now twin.now) }
{
    let mut text = Vec::new(alloc);
    append_difference_line(alloc, &mut text, board, twin.difference)?;
    append_side(alloc, &mut text, board, b"old", &twin.before)?;
    append_side(alloc, &mut text, board, b"new", &twin.after)?;
    Ok(text)
}
