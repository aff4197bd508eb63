// The scanner: the tokens of a line.
ghost use Rattle.std.specs.Prelude.{◌≡◌, ℕ, List, Result, ◌+◌, ◌<◌, ◌≤◌, ◌^◌, ◌∷◌, ◌++◌, IfOk, IfErr, OnOk, Ok, Some};
ghost use Rattle.std.specs.Prelude.{length, take, drop};
ghost use Rattle.mw_base.specs.Lines.{lines_of, before_feed, content};
ghost use Rattle.mw_base.specs.Pieces.{Spells};
ghost use Rattle.mw_base.specs.Reading.{with_front, Fails};
ghost use Rattle.mw_base.specs.Tokens.{fault_at, token_at, tokens_from, line_tokens, of_long_line, slice, InOrder};

use crate::cause::Cause;
use crate::piece::{Piece, piece_at};
use crate::refusal::{Refusal, Refused, TextFault};
use crate::token::{Kind, Token};
use std::alloc::Global;

/// The most bytes that a line may have.
const LONGEST_LINE: usize = 4096;

/// How many bytes stand before the first line feed.
fn before_feed(text: &[u8]) -> usize
    ensures exact { result ≡ before_feed text.now }
    ensures within { result ≤ length text.now }
{
    text.iter().take_while(|c| **c != b'\n').count()
}

/// The first line of a text, with the line feed that ends it. The text has a byte or more.
pub(crate) fn first_line(text: &[u8]) -> &[u8]
    requires { 1 ≤ length text.now }
    ensures first { lines_of text.now ≡ result.now ∷ lines_of (drop (length result.now) text.now) }
    ensures front { result.now ≡ take (length result.now) text.now }
    ensures least { 1 ≤ length result.now }
    ensures most { length result.now ≤ length text.now }
{
    let end = before_feed(text);
    if end < text.len() {
        &text[..end + 1]
    } else {
        text
    }
}

/// A line without the line feed at its end and a carriage return just before that.
pub(crate) fn content(line: &[u8]) -> &[u8]
    ensures exact { result.now ≡ content line.now }
    ensures front { result.now ≡ take (length result.now) line.now }
    ensures within { length result.now ≤ length line.now }
{
    if line.ends_with(b"\r\n") {
        &line[..line.len() - 2]
    } else if line.ends_with(b"\n") {
        &line[..line.len() - 1]
    } else {
        line
    }
}

/// The column, from 1, of a place of a line, from 0.
pub(crate) fn column_of(at: usize) -> u32
    requires { at + 1 < 2 ^ 32 }
    ensures { result ≡ at + 1 }
{
    at as u32 + 1
}

fn fault_at(number: u32, at: usize, cause: Cause) -> TextFault
    requires { at + 1 < 2 ^ 32 }
    ensures { result ≡ fault_at number at cause }
{
    TextFault {
        line: number,
        column: column_of(at),
        cause,
    }
}

/// Adds the token that a piece at place `at` of a line is, if it is one.
fn push_token(
    tokens: &mut Vec<Token>,
    number: u32,
    start: usize,
    at: usize,
    piece: Piece,
) -> Result<(), Refusal>
    requires some { 1 ≤ piece.length }
    requires short { start + at + piece.length < 2 ^ 32 }
    ensures pushed { OnOk result
        (tokens.new.items ≡ tokens.old.items ++ token_at number start at piece.kind piece.length) }
    ensures ordered { (text : List ℕ) (front : List Token)
        → ((kind : Kind) → piece.kind ≡ Some kind → Spells (slice text (start + at) (start + at + piece.length)) kind)
        → InOrder text (start + at) (front ++ tokens.old.items)
        → OnOk result (InOrder text (start + at + piece.length) (front ++ tokens.new.items)) }
    ensures refused { IfErr result (λ refusal. refusal ≡ Refused.NoMemory) }
{
    if let Some(kind) = piece.kind {
        tokens.push(Token {
            kind,
            line: number,
            column: column_of(at),
            start: start + at,
            end: start + at + piece.length,
        })?;
    }
    Ok(())
}

/// Reads the piece at place `at` of a line, and answers the place just past it.
fn push_piece(
    tokens: &mut Vec<Token>,
    number: u32,
    start: usize,
    line: &[u8],
    at: usize,
) -> Result<usize, Refusal>
    requires inside { at < length line.now }
    requires short { start + length line.now < 2 ^ 32 }
    ensures goes { IfOk result
        (λ next. with_front tokens.new.items (tokens_from number start next 0 (drop next line.now))
        ≡ with_front tokens.old.items (tokens_from number start at 0 (drop at line.now))) }
    ensures ordered { (text : List ℕ) (front : List Token) → slice text start (start + length line.now) ≡ line.now
        → InOrder text (start + at) (front ++ tokens.old.items)
        → IfOk result (λ next. InOrder text (start + next) (front ++ tokens.new.items)) }
    ensures on { IfOk result (λ next. (at < next) × (next ≤ length line.now)) }
    ensures refused { IfErr result (λ refusal. Fails refusal (tokens_from number start at 0 (drop at line.now))) }
{
    match piece_at(&line[at..]) {
        Ok(piece) => match push_token(tokens, number, start, at, piece) {
            Ok(()) => Ok(at + piece.length),
            Err(refusal) => Err(refusal),
        },
        Err(cause) => Err(Refused::At(fault_at(number, at, cause))),
    }
}

/// Reads a line of any length.
fn push_pieces(
    tokens: &mut Vec<Token>,
    number: u32,
    start: usize,
    line: &[u8],
) -> Result<(), Refusal>
    requires short { start + length line.now < 2 ^ 32 }
    ensures pushed { OnOk result
        (Ok tokens.new.items ≡ with_front tokens.old.items (tokens_from number start 0 0 line.now)) }
    ensures ordered { (text : List ℕ) (front : List Token) → slice text start (start + length line.now) ≡ line.now
        → InOrder text start (front ++ tokens.old.items)
        → OnOk result (InOrder text (start + length line.now) (front ++ tokens.new.items)) }
    ensures refused { IfErr result (λ refusal. Fails refusal (tokens_from number start 0 0 line.now)) }
{
    let mut at = 0;
    while at < line.len() {
        match push_piece(tokens, number, start, line, at) {
            Ok(next) => at = next,
            Err(refusal) => return Err(refusal),
        }
    }
    Ok(())
}

/// What refuses a line that is too long: a fault of its bytes, unless that stands past the longest line.
fn of_long_line(number: u32, refusal: Refusal) -> Refusal
    ensures { (read : Result (List Token) TextFault) → Fails refusal read → Fails result (of_long_line number read) }
{
    let too_long = fault_at(number, LONGEST_LINE, Cause::LineTooLong);
    match refusal {
        Refused::At(fault) if fault.column > too_long.column => Refused::At(too_long),
        _ => refusal,
    }
}

/// Reads a line, which has this number and begins at this place of the text.
#[tactic(auto, unfolding(crate::specs::Tokens::line_tokens))]
pub(crate) fn push_line(
    tokens: &mut Vec<Token>,
    number: u32,
    start: usize,
    line: &[u8],
) -> Result<(), Refusal>
    requires short { start + length line.now < 2 ^ 32 }
    ensures pushed { OnOk result
        (Ok tokens.new.items ≡ with_front tokens.old.items (line_tokens number start line.now)) }
    ensures ordered { (text : List ℕ) (front : List Token) → slice text start (start + length line.now) ≡ line.now
        → InOrder text start (front ++ tokens.old.items)
        → OnOk result (InOrder text (start + length line.now) (front ++ tokens.new.items)) }
    ensures within { OnOk result (length line.now ≤ 4096) }
    ensures refused { IfErr result (λ refusal. Fails refusal (line_tokens number start line.now)) }
{
    let read = push_pieces(tokens, number, start, line);
    if line.len() <= LONGEST_LINE {
        return read;
    }
    match read {
        Ok(()) => Err(Refused::At(fault_at(number, LONGEST_LINE, Cause::LineTooLong))),
        Err(refusal) => Err(of_long_line(number, refusal)),
    }
}
