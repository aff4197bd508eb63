// How reports name what differs between two sides.
ghost use Rattle.std.specs.Prelude.{◌≡◌, ◌++◌, OnOk};
ghost use Rattle.mw_sim.specs.DifferenceWords.{element_words, event_words, memory_words};

use mw_base::{NoMemory, append_decimal, append_hex};
use mw_board::Board;
use std::alloc::Global;

/// Appends the name of the event with a number: `event N`.
///
/// # Errors
///
/// Memory ran out: the text may only be dropped then.
pub fn append_event_words(alloc: Global, text: &mut Vec<u8>, number: u32) -> Result<(), NoMemory>
    ensures { OnOk result (text.new.items ≡ text.old.items ++ event_words number) }
{
    text.extend_from_slice(b"event ")?;
    append_decimal(alloc, text, u64::from(number))
}

/// Appends the name of the element of a board with a number: `element b.NAME`.
///
/// # Errors
///
/// Memory ran out: the text may only be dropped then.
pub fn append_element_words(
    text: &mut Vec<u8>,
    board: &Board,
    number: usize,
) -> Result<(), NoMemory>
    ensures { OnOk result (text.new.items ≡ text.old.items ++ element_words board.now number) }
{
    text.extend_from_slice(b"element b.")?;
    text.extend_from_slice(board.element_name(number).unwrap_or(b""))?;
    Ok(())
}

/// Appends the name of the word of a memory at an address: `memory ADDRESS`.
///
/// # Errors
///
/// Memory ran out: the text may only be dropped then.
pub fn append_memory_words(alloc: Global, text: &mut Vec<u8>, address: u32) -> Result<(), NoMemory>
    ensures { OnOk result (text.new.items ≡ text.old.items ++ memory_words address) }
{
    text.extend_from_slice(b"memory ")?;
    append_hex(alloc, text, u128::from(address))
}
