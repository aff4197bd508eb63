// Spelled texts: any bytes, as text that an editor shows.
use crate::fault::{Fault, wrong};
use std::alloc::Global;

/// What was read of an escape.
#[derive(Clone, Copy)]
enum Escape {
    /// Nothing.
    Nothing,
    /// `\`.
    Begun,
    /// `\x`.
    Hexadecimal,
    /// `\x` and the high digit, of this value.
    High(u8),
}

/// The value of a hexadecimal digit.
fn digit(byte: u8) -> Result<u8, Fault> {
    match byte {
        b'0'..=b'9' => Ok(byte - b'0'),
        b'A'..=b'F' => Ok(byte - b'A' + 10),
        b'a'..=b'f' => Ok(byte - b'a' + 10),
        _ => Err(wrong("no hexadecimal digit")),
    }
}

/// The byte that a letter behind `\` stands for.
fn escaped(letter: u8) -> Result<u8, Fault> {
    match letter {
        b'n' => Ok(b'\n'),
        b'r' => Ok(b'\r'),
        b't' => Ok(b'\t'),
        b'\\' => Ok(b'\\'),
        _ => Err(wrong("no such escape")),
    }
}

/// Takes a byte of a spelled text, and answers what was read of an escape then.
fn take(bytes: &mut Vec<u8>, escape: Escape, byte: u8) -> Result<Escape, Fault> {
    match escape {
        Escape::Nothing if byte == b'\\' => return Ok(Escape::Begun),
        Escape::Nothing => bytes.push(byte)?,
        Escape::Begun if byte == b'x' => return Ok(Escape::Hexadecimal),
        Escape::Begun => bytes.push(escaped(byte)?)?,
        Escape::Hexadecimal => return Ok(Escape::High(digit(byte)?)),
        Escape::High(high) => bytes.push(high.wrapping_mul(16) | digit(byte)?)?,
    }
    Ok(Escape::Nothing)
}

/// Appends the bytes that a text spells: `\n`, `\r`, `\t`, `\\` and `\xHH` are one byte, and all else stands for
/// itself.
pub fn push_spelled(bytes: &mut Vec<u8>, text: &str) -> Result<(), Fault> {
    let mut escape = Escape::Nothing;
    for &byte in text.as_bytes() {
        escape = take(bytes, escape, byte)?;
    }
    match escape {
        Escape::Nothing => Ok(()),
        _ => Err(wrong("an escape that isn't whole")),
    }
}

/// Appends the bytes of `N TEXT`: those that the text spells, N times.
pub fn push_repeated(bytes: &mut Vec<u8>, text: &str) -> Result<(), Fault> {
    let Some((count, text)) = text.split_once(' ') else {
        return Err(wrong("no count"));
    };
    let Ok(count) = count.parse::<u32>() else {
        return Err(wrong("no count"));
    };
    for _ in 0..count {
        push_spelled(bytes, text)?;
    }
    Ok(())
}

/// The text that another one spells.
fn spelled_text(alloc: Global, text: &str) -> Result<String, Fault> {
    let mut bytes = Vec::new(alloc);
    push_spelled(&mut bytes, text)?;
    match String::from_utf8(bytes) {
        Ok(text) => Ok(text),
        Err(_) => Err(wrong("a word that is no text")),
    }
}

/// Appends the words between blanks.
fn push_words(alloc: Global, words: &mut Vec<String>, piece: &str) -> Result<(), Fault> {
    for word in piece.split_whitespace() {
        words.push(String::from_str(alloc, word)?)?;
    }
    Ok(())
}

/// The words of a line: they stand between blanks, or in quotation marks, where they are spelled.
pub fn words_of(alloc: Global, line: &str) -> Result<Vec<String>, Fault> {
    let mut words = Vec::new(alloc);
    let mut quoted = true;
    for piece in line.split('"') {
        quoted = !quoted;
        if quoted {
            words.push(spelled_text(alloc, piece)?)?;
        } else {
            push_words(alloc, &mut words, piece)?;
        }
    }
    if quoted {
        return Err(wrong("a quotation mark without the other"));
    }
    Ok(words)
}
