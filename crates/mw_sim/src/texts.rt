// Lines of reports that several commands print.
ghost use Rattle.std.specs.Prelude.{◌≡◌, ◌<◌, ◌++◌, OnOk, length, slice_index};
ghost use Rattle.mw_base.specs.Numbers.{hex};
ghost use Rattle.mw_sim.specs.Texts.{event_line, line, memory_lines, value_line, word_line};

use mw_base::{Event, NoMemory, append_hex};
use std::alloc::Global;

/// Appends a line.
///
/// # Errors
///
/// Memory ran out: the text may only be dropped then.
pub fn append_line(report: &mut Vec<u8>, text: &[u8]) -> Result<(), NoMemory>
    ensures { OnOk result (report.new.items ≡ report.old.items ++ line text.now) }
{
    report.extend_from_slice(text)?;
    report.push(b'\n')?;
    Ok(())
}

/// Appends a line that ends with a number in hexadecimal digits.
///
/// # Errors
///
/// Memory ran out: the text may only be dropped then.
pub fn append_hex_line(
    alloc: Global,
    report: &mut Vec<u8>,
    front: &[u8],
    number: u32,
) -> Result<(), NoMemory>
    ensures { OnOk result (report.new.items ≡ report.old.items ++ line (front.now ++ hex number)) }
{
    report.extend_from_slice(front)?;
    append_hex(alloc, report, u128::from(number))?;
    append_line(report, b"")
}

/// Appends the line of a value, which begins with what and whose it is; none where it is 0.
///
/// # Errors
///
/// Memory ran out: the text may only be dropped then.
#[tactic(auto, unfolding(crate::specs::Texts::value_line))]
pub fn append_value_line(
    alloc: Global,
    report: &mut Vec<u8>,
    front: &[u8],
    name: &[u8],
    value: u32,
) -> Result<(), NoMemory>
    ensures { OnOk result (report.new.items ≡ report.old.items ++ value_line front.now name.now value) }
{
    if value != 0 {
        report.extend_from_slice(front)?;
        report.extend_from_slice(name)?;
        append_hex_line(alloc, report, b" ", value)?;
    }
    Ok(())
}

/// Appends the line of an event.
///
/// # Errors
///
/// Memory ran out: the text may only be dropped then.
pub fn append_event(alloc: Global, report: &mut Vec<u8>, event: Event) -> Result<(), NoMemory>
    ensures { OnOk result (report.new.items ≡ report.old.items ++ event_line event) }
{
    match event {
        Event::Out(word) => append_hex_line(alloc, report, b"out ", word),
        Event::Taken(word) => append_hex_line(alloc, report, b"taken ", word),
    }
}

/// Appends the line that gives the word at an address; none where it is 0.
#[tactic(auto, unfolding(crate::specs::Texts::word_line))]
fn append_word(
    alloc: Global,
    report: &mut Vec<u8>,
    words: &[u32],
    address: usize,
) -> Result<(), NoMemory>
    requires there { address < length words.now }
    ensures { OnOk result (report.new.items ≡ report.old.items ++ word_line address (slice_index words.now address)) }
{
    let word = words[address];
    if word != 0 {
        report.extend_from_slice(b"mem ")?;
        append_hex(alloc, report, address as u128)?;
        append_hex_line(alloc, report, b" ", word)?;
    }
    Ok(())
}

/// Appends the lines that give the words of a memory that aren't 0, in rising order of addresses.
///
/// # Errors
///
/// Memory ran out: the text may only be dropped then.
pub fn append_memory(alloc: Global, report: &mut Vec<u8>, words: &[u32]) -> Result<(), NoMemory>
    ensures { OnOk result (report.new.items ≡ report.old.items ++ memory_lines words.now) }
{
    for address in 0..words.len() {
        append_word(alloc, report, words, address)?;
    }
    Ok(())
}
