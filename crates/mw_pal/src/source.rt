// PDP-8 sources.
ghost use Rattle.std.specs.Prelude.{◌≡◌, ◌<◌, ◌^◌, IfOk, OnOk, length, slice_set};
ghost use Rattle.mw_base.specs.Named.{names_seen};
ghost use Rattle.mw_base.specs.Reading.{Gives};
ghost use Rattle.mw_pal.specs.Source.{no_words, with_word, second_pass, memory_of, IsMemory};

use crate::codes::code_of;
use crate::first_pass::{Cell, WORDS, first_pass};
use mw_base::{Names, NoMemory, Refusal, Refused, lines};
use std::alloc::Global;

/// A memory that is 0 everywhere.
#[tactic(auto, unfolding(crate::specs::Source::no_words))]
fn cleared(alloc: Global) -> Result<Vec<u32>, NoMemory>
    ensures { IfOk result (λ memory. memory.items ≡ no_words) }
{
    Ok(vec![in alloc; 0; usize::from(WORDS)]?)
}

/// Puts a word at an address; past the memory's end nothing.
#[tactic(auto, using(std::proofs::lemmas::List::set_past))]
fn put(memory: &mut [u32], address: u16, word: u32)
    ensures { memory.new ≡ slice_set memory.old address word }
{
    let place = usize::from(address);
    if place < memory.len() {
        memory[place] = word;
    }
}

/// Puts the word of a statement at its address: cause 30, 33 or 84.
#[tactic(auto, unfolding(crate::specs::Source::with_word))]
fn put_word(
    text: &[u8],
    labels: &Names<u16>,
    memory: &mut Vec<u32>,
    cell: &Cell,
) -> Result<(), Refusal>
    requires { IsMemory memory.now.items }
    ensures gives { Gives (λ done. memory.new.items) result
        (with_word text.now (names_seen labels.now) memory.old.items cell.now) }
    ensures valid { OnOk result (IsMemory memory.new.items) }
{
    let code = code_of(text, labels, cell.address, &cell.says).map_err(Refused::At)?;
    put(memory, cell.address, u32::from(code));
    Ok(())
}

/// The second pass: puts the word of each statement into a memory.
fn second_pass(
    text: &[u8],
    labels: &Names<u16>,
    mut memory: Vec<u32>,
    cells: &[Cell],
) -> Result<Vec<u32>, Refusal>
    requires { IsMemory memory.items }
    ensures gives { Gives (λ memory. memory.items) result
        (second_pass text.now (names_seen labels.now) memory.items cells.now) }
    ensures valid { IfOk result (λ memory. IsMemory memory.items) }
{
    for cell in cells {
        put_word(text, labels, &mut memory, cell)?;
    }
    Ok(memory)
}

/// The memory that a PDP-8 source spells: 4,096 words of 12 bits, 0 where no statement stands.
///
/// A line of a source is blank, or `org N`, or a label and a colon, and then a statement or nothing, or a statement
/// alone. A statement is `word` and a value; or `and`, `tad`, `isz`, `dca`, `jms` or `jmp`, optionally `i`, and an
/// address; or words of one operate group, whose codes are ored; or one word of the interrupts, the keyboard or the
/// printer. The first address is octal 200. The codes are those of DEC's Small Computer Handbook.
///
/// The text has fewer than 2^32 bytes.
///
/// # Errors
///
/// The first fault of the text: causes 1 to 4 of its bytes; then, line by line, cause 60 of the line and, by place, 31
/// and 33 of its label, 33 of an `org`, 34 and 35 of its statement, and 85 of a word that can't stand with those before
/// it; then, statement by statement, 30, 33 and 84 of its value or address. Want of memory.
#[tactic(auto, unfolding(crate::specs::Source::memory_of))]
pub fn read_pal(alloc: Global, text: &[u8]) -> Result<Vec<u32>, Refusal>
    requires { length text.now < 2 ^ 32 }
    ensures gives { Gives (λ memory. memory.items) result (memory_of text.now) }
    ensures valid { IfOk result (λ memory. IsMemory memory.items) }
{
    let lines = lines(alloc, text)?;
    let known = first_pass(alloc, text, &lines)?;
    let memory = cleared(alloc)?;
    second_pass(text, &known.labels, memory, &known.cells)
}
