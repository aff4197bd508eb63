// `call expression NAME:WIDTH=VALUE .. mem:ADDRESS:WORD memA=WORD ..`: reads the file `text`, each line of which is an
// expression over these elements and over a memory with so many bits of an address and of a word. Values, the memory's
// addresses and its words are hexadecimal; those that aren't named are 0. A line for each expression has its tree, its
// width and its value, or its first fault; or one line has the fault of the text's bytes.
ghost use Rattle.std.specs.Prelude.{◌≡◌, ℕ, ◌<◌, ◌≤◌, ◌^◌, ◌↔◌, IsTrue, length, slice_index};
ghost use Rattle.mw_expr.specs.Text.{IsShape};
ghost use Rattle.mw_expr.specs.Values.{AreWords, IsImage};

use super::trees::push_tree;
use mw_base::{Cause, Cursor, Items, Line, Name, lines};
use mw_expr::{Expr, Shape, parse_expr, value, width_of};
use mw_rowfile::named::{hexadecimal, set_word, word};
use mw_rowfile::{Fault, File, Report, wrong};
use mw_twinrows::texts::text_of;
use std::alloc::Global;

/// The words of a call, as far as they were taken.
#[derive(Drop)]
struct Words {
    names: Vec<Name>,
    widths: Vec<u8>,
    values: Vec<u32>,
    address: u8,
    word: u8,
    memory: Vec<u32>,
}

/// What expressions are over.
#[derive(Clone, Copy)]
struct Surroundings<'a> {
    names: &'a [Name],
    shape: &'a Shape,
    values: &'a [u32],
    memory: &'a [u32],
}

fn bits(text: &str) -> Result<u8, Fault> {
    match text.parse::<u8>() {
        Ok(bits) if bits <= 32 => Ok(bits),
        _ => Err(wrong("no number of bits")),
    }
}

impl Words {
    /// No elements and no memory.
    fn new(alloc: Global) -> Result<Words, Fault> {
        Ok(Words {
            names: Vec::new(alloc),
            widths: Vec::new(alloc),
            values: Vec::new(alloc),
            address: 0,
            word: 0,
            memory: vec![in alloc; 0; 1]?,
        })
    }

    fn take_element(&mut self, alloc: Global, name: &str, element: &str) -> Result<(), Fault> {
        let (width, value) = match element.split_once('=') {
            Some((width, value)) => (width, word(hexadecimal(value)?)?),
            None => (element, 0),
        };
        self.names.push(Name::new(alloc, name.as_bytes())?)?;
        self.widths.push(bits(width)?)?;
        self.values.push(value)?;
        Ok(())
    }

    fn take_memory(&mut self, alloc: Global, sizes: &str) -> Result<(), Fault> {
        let Some((address, word)) = sizes.split_once(':') else {
            return Err(wrong("a memory is `mem:ADDRESS:WORD`"));
        };
        let address = bits(address)?;
        if address > 16 {
            return Err(wrong("an address has at most 16 bits"));
        }
        self.address = address;
        self.word = bits(word)?;
        self.memory = vec![in alloc; 0; 1 << address]?;
        Ok(())
    }

    fn take_memory_word(&mut self, named: &str) -> Result<(), Fault> {
        match named.split_once('=') {
            Some((address, value)) => {
                let address = hexadecimal(address)?;
                let value = word(hexadecimal(value)?)?;
                set_word(&mut self.memory, address, value)
            }
            None => Err(wrong("a word of the memory is `memA=WORD`")),
        }
    }

    fn take(&mut self, alloc: Global, given: &str) -> Result<(), Fault> {
        if let Some(sizes) = given.strip_prefix("mem:") {
            return self.take_memory(alloc, sizes);
        }
        if let Some((name, element)) = given.split_once(':') {
            return self.take_element(alloc, name, element);
        }
        match given.strip_prefix("mem") {
            Some(named) => self.take_memory_word(named),
            None => Err(wrong("an element is `NAME:WIDTH`, with or without `=VALUE`")),
        }
    }
}

/// Whether a number has no more than so many bits.
#[tactic(auto, using(std::proofs::lemmas::Nat::one_shl))]
fn has_bits(number: u32, bits: u8) -> bool
    requires { bits ≤ 32 }
    ensures { IsTrue result ↔ (number < 2 ^ bits) }
{
    u64::from(number) < 1 << bits
}

/// Whether each width is 1 to 32 bits.
fn are_widths(widths: &[u8]) -> bool
    ensures { IsTrue result → (i : ℕ) → i < length widths.now
        → (1 ≤ slice_index widths.now i) × (slice_index widths.now i ≤ 32) }
{
    for &width in widths {
        if width < 1 || width > 32 {
            return false;
        }
    }
    true
}

/// Whether elements and a memory have widths in their ranges.
fn is_shape(shape: &Shape) -> bool
    ensures { IsTrue result → IsShape shape.now }
{
    let widths = shape.widths.as_slice();
    are_widths(widths)
        && widths.len() < 1 << 32
        && shape.word <= 32
        && (shape.address == 0 || shape.word >= 1)
}

/// Whether each number is a word of its width.
fn are_words(widths: &[u8], numbers: &[u32]) -> bool
    requires most { (i : ℕ) → i < length widths.now → slice_index widths.now i ≤ 32 }
    ensures { IsTrue result → AreWords widths.now numbers.now }
{
    if numbers.len() != widths.len() {
        return false;
    }
    for (i, number) in numbers.iter().enumerate() {
        if !has_bits(*number, widths[i]) {
            return false;
        }
    }
    true
}

/// Whether there is a word for each address of a memory.
fn is_image(shape: &Shape, memory: &[u32]) -> bool
    requires most { shape.now.word ≤ 32 }
    ensures { IsTrue result → IsImage shape.now memory.now }
{
    if shape.address > 16 || memory.len() != 1 << shape.address {
        return false;
    }
    for number in memory {
        if !has_bits(*number, shape.word) {
            return false;
        }
    }
    true
}

/// Appends an expression's tree, its width and its value.
fn push_value(report: &mut Report, given: &Surroundings, expr: &Expr) -> Result<(), Fault>
    requires values_fit { AreWords given.now.shape.now.widths given.now.values.now }
    requires memory_fits { IsImage given.now.shape.now given.now.memory.now }
{
    let Ok(width) = width_of(expr, given.shape) else {
        return Err(wrong("an expression that was read has no width"));
    };
    let value = value(expr, given.shape, given.values, given.memory);
    push_tree(report, given.names, expr);
    report.push(b" width ");
    report.push_decimal(u64::from(width));
    report.push(b" value ");
    report.push_hex(u64::from(value));
    report.push(b"\n");
    Ok(())
}

/// Appends what a line of a text is.
fn push_line(
    alloc: Global,
    report: &mut Report,
    text: &[u8],
    given: &Surroundings,
    line: &Line,
) -> Result<(), Fault>
    requires shape_fits { IsShape given.now.shape.now }
    requires values_fit { AreWords given.now.shape.now.widths given.now.values.now }
    requires memory_fits { IsImage given.now.shape.now given.now.memory.now }
{
    let cursor = Cursor::new(text, line, Cause::BadSyntax);
    match parse_expr(alloc, &cursor, given.names, given.shape) {
        Ok(expr) => {
            let outcome = push_value(report, given, &expr);
            drop(expr);
            outcome
        }
        Err(refusal) => {
            report.push_refusal(refusal);
            Ok(())
        }
    }
}

/// Appends what each line of a text is.
fn push_lines(
    alloc: Global,
    report: &mut Report,
    text: &[u8],
    given: &Surroundings,
) -> Result<(), Fault>
    requires short { length text.now < 2 ^ 32 }
    requires shape_fits { IsShape given.now.shape.now }
    requires values_fit { AreWords given.now.shape.now.widths given.now.values.now }
    requires memory_fits { IsImage given.now.shape.now given.now.memory.now }
{
    match lines(alloc, text) {
        Ok(found) => {
            for line in &found {
                push_line(alloc, report, text, given, line)?;
            }
        }
        Err(refusal) => report.push_refusal(refusal),
    }
    Ok(())
}

/// The words of a call.
fn words_of(alloc: Global, given: &[String]) -> Result<Words, Fault> {
    let mut words = Words::new(alloc)?;
    for word in given {
        words.take(alloc, word.as_str())?;
    }
    Ok(words)
}

/// Appends what each line of a text is, over the elements and the memory of words.
fn push_over(alloc: Global, report: &mut Report, words: Words, text: &[u8]) -> Result<(), Fault>
    requires { length text.now < 2 ^ 32 }
{
    let shape = Shape {
        widths: Items::from_vec(words.widths),
        address: words.address,
        word: words.word,
    };
    let given = Surroundings {
        names: &words.names,
        shape: &shape,
        values: &words.values,
        memory: &words.memory,
    };
    if is_shape(&shape)
        && are_words(shape.widths.as_slice(), &words.values)
        && is_image(&shape, &words.memory)
    {
        push_lines(alloc, report, text, &given)
    } else {
        Err(wrong("the elements or the memory don't fit their widths"))
    }
}

/// Appends a line for each expression of the text, over the elements and the memory of these words.
///
/// # Errors
///
/// Words that the call doesn't have, a value or a word of the memory that doesn't fit its width, a text of more than
/// 1,048,576 bytes, and want of memory.
pub fn read(
    alloc: Global,
    report: &mut Report,
    given: &[String],
    files: &[File],
) -> Result<(), Fault> {
    let text = text_of(files, "text")?;
    let words = words_of(alloc, given)?;
    push_over(alloc, report, words, text)
}
