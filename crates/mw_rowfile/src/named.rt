// Numbers by name, as `pc=200 sp=2`: hexadecimal.
ghost use Rattle.std.specs.Prelude.{◌≡◌, ◌<◌, ◌≤◌, ◌^◌, IfOk};
ghost use Rattle.mw_seq.specs.Sequencer.{IsDepth};

use crate::fault::{Fault, wrong};
use mw_seq::{Seq, is_depth};

/// The text behind `NAME=` in the word of this name.
pub fn text_of<'a>(words: &'a [String], name: &str) -> Result<&'a str, Fault> {
    for word in words {
        if let Some((left, right)) = word.split_once('=') {
            if left == name {
                return Ok(right);
            }
        }
    }
    Err(wrong("a name is missing"))
}

/// The number that a text spells.
pub fn hexadecimal(text: &str) -> Result<u64, Fault> {
    match u64::from_str_radix(text, 16) {
        Ok(number) => Ok(number),
        Err(_) => Err(wrong("no hexadecimal number")),
    }
}

/// The number of a name.
pub fn hexadecimal_of(words: &[String], name: &str) -> Result<u64, Fault> {
    hexadecimal(text_of(words, name)?)
}

/// A number of 32 bits.
pub fn word(number: u64) -> Result<u32, Fault> {
    match u32::try_from(number) {
        Ok(number) => Ok(number),
        Err(_) => Err(wrong("a number is too great")),
    }
}

/// Sets a word of a list, by its place.
pub fn set_word(words: &mut [u32], place: u64, value: u32) -> Result<(), Fault> {
    match usize::try_from(place) {
        Ok(place) => match words.get_mut(place) {
            Some(word) => {
                *word = value;
                Ok(())
            }
            None => Err(wrong("no such word")),
        },
        Err(_) => Err(wrong("no such word")),
    }
}

/// A number of 12 bits.
pub fn address(number: u64) -> Result<u16, Fault>
    ensures { IfOk result (λ address. address < 2 ^ 12) }
{
    if number < 4096 {
        Ok(number as u16)
    } else {
        Err(wrong("no address"))
    }
}

/// A number of 1 bit.
pub fn bit(number: u64) -> Result<bool, Fault> {
    match number {
        0 => Ok(false),
        1 => Ok(true),
        _ => Err(wrong("no bit")),
    }
}

/// The address of a name.
pub fn address_of(words: &[String], name: &str) -> Result<u16, Fault>
    ensures { IfOk result (λ address. address < 2 ^ 12) }
{
    let number = hexadecimal_of(words, name)?;
    address(number)
}

/// The bit of a name.
pub fn bit_of(words: &[String], name: &str) -> Result<bool, Fault> {
    bit(hexadecimal_of(words, name)?)
}

/// An address of a list with commas between, by its place.
fn listed(text: &str, place: usize) -> Result<u16, Fault>
    ensures { IfOk result (λ address. address < 2 ^ 12) }
{
    match text.split(',').nth(place) {
        Some(part) => {
            let number = hexadecimal(part)?;
            address(number)
        }
        None => Err(wrong("an address of the stack is missing")),
    }
}

/// The stack pointer of a name, of a stack of so many words.
fn pointer_of(words: &[String], depth: u8) -> Result<u8, Fault>
    ensures { IfOk result (λ pointer. pointer ≤ depth) }
{
    let number = hexadecimal_of(words, "sp")?;
    if number <= u64::from(depth) {
        Ok(number as u8)
    } else {
        Err(wrong("no stack pointer"))
    }
}

/// How many words the list of a stack has: 5 or 9.
fn depth_of(text: &str) -> Result<u8, Fault>
    ensures { IfOk result IsDepth }
{
    let depth = text.split(',').count();
    if is_depth(depth as u64) {
        Ok(depth as u8)
    } else {
        Err(wrong("a stack has 5 words or 9"))
    }
}

/// Sets the words of a stack.
fn set_stack(seq: &mut Seq, text: &str) -> Result<(), Fault> {
    for place in 0..9 {
        // Not a bound of the loop: that no word changes how many there are would need an invariant.
        if place < seq.depth() {
            let word = listed(text, usize::from(place))?;
            seq.set_word(place, word);
        }
    }
    Ok(())
}

/// The sequencer of `pc=`, `r=`, `sp=` and `stack=`, whose 5 or 9 words stand with commas between, the oldest first.
pub fn sequencer_of(words: &[String]) -> Result<Seq, Fault> {
    let text = text_of(words, "stack")?;
    let depth = depth_of(text)?;
    let pc = address_of(words, "pc")?;
    let r = address_of(words, "r")?;
    let sp = pointer_of(words, depth)?;
    let mut seq = Seq::cleared(depth);
    seq.pc = pc;
    seq.r = r;
    seq.sp = sp;
    set_stack(&mut seq, text)?;
    Ok(seq)
}
