// The lines of a text, each with its tokens.
ghost use Rattle.std.specs.Prelude.{◌≡◌, ℕ, List, ◌+◌, ◌<◌, ◌^◌, ◌++◌, IfOk, length};
ghost use Rattle.mw_base.specs.Reading.{Gives};
ghost use Rattle.mw_base.specs.Symbols.{AreKnown};
ghost use Rattle.mw_base.specs.Tokens.{slice, InOrder};
ghost use Rattle.mw_base.specs.TokenLines.{line_of, token_lines, tokens_in, tokens_of, fault_on, end_fault, text_end};

use crate::cause::Cause;
use crate::items::Items;
use crate::memory::NoMemory;
use crate::refusal::{Refusal, TextFault};
use crate::scan::{column_of, content, first_line, push_line};
use crate::token::Token;
use std::alloc::Global;

/// A line of a text.
#[derive(Drop)]
pub struct Line {
    /// Its number, from 1.
    pub number: u32,
    /// The column, from 1, just past its last byte: its comment is counted, and what ends the line isn't.
    pub end: u32,
    /// Its tokens, in order.
    pub tokens: Items<Token>,
}

/// A fault at a token.
pub fn fault_on(token: Token, cause: Cause) -> TextFault
    ensures { result ≡ fault_on token cause }
{
    TextFault {
        line: token.line,
        column: token.column,
        cause,
    }
}

/// A fault at the end of a line.
pub fn end_fault(line: &Line, cause: Cause) -> TextFault
    ensures { result ≡ end_fault line.now cause }
{
    TextFault {
        line: line.number,
        column: line.end,
        cause,
    }
}

/// A fault at the end of a text of these lines: at the end of its last one, or at line 1 and column 1 where
/// it has none.
pub fn text_end(lines: &[Line], cause: Cause) -> TextFault
    ensures { result ≡ text_end lines.now cause }
{
    match lines.last() {
        Some(line) => end_fault(line, cause),
        None => TextFault {
            line: 1,
            column: 1,
            cause,
        },
    }
}

/// A line of these bytes, without what ends it, which has this number and begins at this place of the text.
#[tactic(auto, unfolding(crate::specs::TokenLines::line_of))]
fn line_of(alloc: Global, number: u32, start: usize, line: &[u8]) -> Result<Line, Refusal>
    requires short { start + length line.now < 2 ^ 32 }
    ensures exact { Gives (λ made. made) result (line_of number start line.now) }
    ensures ordered { (text : List ℕ) (front : List Token) → slice text start (start + length line.now) ≡ line.now
        → InOrder text start front
        → IfOk result (λ made. InOrder text (start + length line.now) (front ++ made.tokens)) }
{
    let mut tokens = Vec::new(alloc);
    push_line(&mut tokens, number, start, line)?;
    Ok(Line {
        number,
        end: column_of(line.len()),
        tokens: Items::from_vec(tokens),
    })
}

/// The lines of a text, each with its tokens, blank lines too.
///
/// The text has fewer than 2^32 bytes.
///
/// # Errors
///
/// The first fault of the text's bytes by line and column, with the least number at one place: cause 1 at a byte that
/// no token, blank or comment has, cause 2 or 3 at a word that begins with a digit and is no number, or one of 2^128 or
/// more, and cause 4 at column 4,097 of a line of over 4,096 bytes. Want of memory.
pub fn lines(alloc: Global, text: &[u8]) -> Result<Vec<Line>, Refusal>
    requires short { length text.now < 2 ^ 32 }
    ensures exact { Gives (λ v. v.items) result (token_lines text.now) }
    ensures ordered { IfOk result (λ v. InOrder text.now (length text.now) (tokens_in v.items)) }
    ensures known { IfOk result (λ v. AreKnown text.now (tokens_in v.items)) }
{
    let mut lines = Vec::new(alloc);
    let mut number = 0;
    let mut start = 0;
    while start < text.len() {
        let line = first_line(&text[start..]);
        number += 1;
        match line_of(alloc, number, start, content(line)) {
            Ok(read) => lines.push(read)?,
            Err(refusal) => return Err(refusal),
        }
        start += line.len();
    }
    Ok(lines)
}

/// The tokens of lines, in order.
fn tokens_in(alloc: Global, lines: &[Line]) -> Result<Vec<Token>, NoMemory>
    ensures { IfOk result (λ v. v.items ≡ tokens_in lines.now) }
{
    let mut tokens = Vec::new(alloc);
    for line in lines {
        tokens.extend_from_slice(line.tokens.as_slice())?;
    }
    Ok(tokens)
}

/// The tokens of a text, in order. The text of each is its slice of the text.
///
/// The text has fewer than 2^32 bytes.
///
/// # Errors
///
/// The first fault of the text's bytes, as that of `lines`: causes 1 to 4. Want of memory.
pub fn tokens(alloc: Global, text: &[u8]) -> Result<Vec<Token>, Refusal>
    requires short { length text.now < 2 ^ 32 }
    ensures exact { Gives (λ v. v.items) result (tokens_of text.now) }
    ensures ordered { IfOk result (λ v. InOrder text.now (length text.now) v.items) }
    ensures known { IfOk result (λ v. AreKnown text.now v.items) }
{
    let lines = lines(alloc, text)?;
    Ok(tokens_in(alloc, &lines)?)
}
