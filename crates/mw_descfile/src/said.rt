// What a line of statements says.
ghost use Rattle.std.specs.Prelude.{◌≡◌, ◌<◌, ◌≤◌, ◌^◌, length, slice_get};
ghost use Rattle.mw_base.specs.Reading.{Gives};
ghost use Rattle.mw_descfile.specs.Views.{said_seen};
ghost use Rattle.mw_descfile.specs.Statements.{assign_of, open_after, before_close, inside, fault_before, first_tokens};
ghost use Rattle.mw_descfile.specs.Statements.{write_of, put_of, take_of, if_of, alone, alone_of, keyword_of};
ghost use Rattle.mw_descfile.specs.Statements.{keyword_in, said_of};

use crate::scope::Scope;
use mw_base::{Cursor, Refusal, Refused, Sign, Symbol, TextFault, Token, symbol_of};
use mw_expr::Written;
use std::alloc::Global;

/// A word that begins a statement of its own kind.
#[derive(Clone, Copy)]
pub(crate) enum Keyword {
    Mem,
    Put,
    Take,
    If,
    Else,
    End,
}

/// What a line of statements says.
#[derive(Drop)]
pub(crate) enum Said {
    /// The name, the `:=` and the value.
    Assign(Token, Token, Written),
    /// The word `mem`, the address, the `:=` and the value.
    Write(Token, Written, Token, Written),
    /// The word `put` and the value.
    Put(Token, Written),
    /// The word `take` and the name.
    Take(Token, Token),
    /// The word `if` and the condition.
    If(Token, Written),
    /// `else`.
    Else,
    /// `end`.
    End,
}

/// Which of `else` and `end` can stand on a line.
#[derive(Clone, Copy)]
pub(crate) struct Blocks {
    /// Whether `else` can: the first list of an `if` is open.
    pub can_else: bool,
    /// Whether `end` can: an `if` is open.
    pub can_end: bool,
}

/// NAME := E.
#[tactic(auto, unfolding(crate::specs::Statements::assign_of))]
fn assign_of(alloc: Global, scope: &Scope, line: &Cursor) -> Result<Said, Refusal>
    ensures { Gives said_seen result (assign_of scope.now line.now) }
{
    let target = line.name(0).map_err(Refused::At)?;
    let sign = line.sign(1, Sign::Assign).map_err(Refused::At)?;
    let value = scope.written(alloc, &line.after(2))?;
    Ok(Said::Assign(target, sign, value))
}

/// How many `[` are open after a token where so many were.
fn open_after(symbol: Symbol, open_now: usize) -> usize
    requires { open_now < 2 ^ 63 }
    ensures { result ≡ open_after symbol open_now }
{
    match symbol {
        Symbol::Sign(Sign::OpenBracket) => open_now + 1,
        Symbol::Sign(Sign::CloseBracket) => open_now.saturating_sub(1),
        _ => open_now,
    }
}

/// How many of these tokens of a text stand before the `]` that closes the `[` before them; all where none does.
fn before_close(text: &[u8], tokens: &[Token]) -> usize
    ensures exact { result ≡ before_close text.now 1 tokens.now }
    ensures within { result ≤ length tokens.now }
{
    let mut open_now = 1;
    for (i, token) in tokens.iter().enumerate() {
        open_now = open_after(symbol_of(text, *token), open_now);
        if open_now == 0 {
            return i;
        }
    }
    tokens.len()
}

/// The first n tokens of a line, which have to end there.
fn first_tokens<'a>(n: usize, line: &Cursor<'a>) -> Cursor<'a>
    requires { n ≤ length line.now.tokens }
    ensures { result ≡ first_tokens n line.now }
{
    let end = match line.tokens().get(n) {
        Some(token) => line.misplaced(*token),
        None => line.end_fault(),
    };
    Cursor::from_tokens(line.text(), &line.tokens()[..n], end)
}

/// mem [ E ] := E.
#[tactic(auto, unfolding(crate::specs::Statements::write_of))]
fn write_of(alloc: Global, scope: &Scope, line: &Cursor) -> Result<Said, Refusal>
    ensures { Gives said_seen result (write_of scope.now line.now) }
{
    let word = line.token(0).map_err(Refused::At)?;
    line.sign(1, Sign::OpenBracket).map_err(Refused::At)?;
    let rest = line.after(2);
    let n = before_close(rest.text(), rest.tokens());
    let address = scope.written(alloc, &first_tokens(n, &rest))?;
    rest.sign(n, Sign::CloseBracket).map_err(Refused::At)?;
    let sign = rest.sign(n + 1, Sign::Assign).map_err(Refused::At)?;
    let value = scope.written(alloc, &rest.after(n + 2))?;
    Ok(Said::Write(word, address, sign, value))
}

/// put E.
#[tactic(auto, unfolding(crate::specs::Statements::put_of))]
fn put_of(alloc: Global, scope: &Scope, line: &Cursor) -> Result<Said, Refusal>
    ensures { Gives said_seen result (put_of scope.now line.now) }
{
    let word = line.token(0).map_err(Refused::At)?;
    let value = scope.written(alloc, &line.after(1))?;
    Ok(Said::Put(word, value))
}

/// take NAME.
#[tactic(auto, unfolding(crate::specs::Statements::take_of))]
fn take_of(line: &Cursor) -> Result<Said, Refusal>
    ensures { Gives said_seen result (take_of line.now) }
{
    let word = line.token(0).map_err(Refused::At)?;
    let target = line.name(1).map_err(Refused::At)?;
    line.end(2).map_err(Refused::At)?;
    Ok(Said::Take(word, target))
}

/// if E.
#[tactic(auto, unfolding(crate::specs::Statements::if_of))]
fn if_of(alloc: Global, scope: &Scope, line: &Cursor) -> Result<Said, Refusal>
    ensures { Gives said_seen result (if_of scope.now line.now) }
{
    let word = line.token(0).map_err(Refused::At)?;
    let condition = scope.written(alloc, &line.after(1))?;
    Ok(Said::If(word, condition))
}

/// Whether a word stands alone, where it can stand there.
#[tactic(auto, unfolding(crate::specs::Statements::alone))]
fn check_alone(can_stand: bool, line: &Cursor) -> Result<(), TextFault>
    ensures { result ≡ alone can_stand line.now }
{
    let word = line.token(0)?;
    if !can_stand {
        return Err(line.misplaced(word));
    }
    line.end(1)
}

/// A line of a word alone, which says this.
fn alone_of(can_stand: bool, said: Said, line: &Cursor) -> Result<Said, Refusal>
    ensures { Gives said_seen result (alone_of can_stand (said_seen said) line.now) }
{
    check_alone(can_stand, line).map_err(Refused::At)?;
    Ok(said)
}

/// The keyword of these bytes.
fn keyword_of(word: &[u8]) -> Option<Keyword>
    ensures { result ≡ keyword_of word.now }
{
    if word == b"mem".as_slice() {
        Some(Keyword::Mem)
    } else if word == b"put".as_slice() {
        Some(Keyword::Put)
    } else if word == b"take".as_slice() {
        Some(Keyword::Take)
    } else if word == b"if".as_slice() {
        Some(Keyword::If)
    } else if word == b"else".as_slice() {
        Some(Keyword::Else)
    } else if word == b"end".as_slice() {
        Some(Keyword::End)
    } else {
        None
    }
}

/// The keyword with which a line begins; before `:=` it is a name as any other.
fn keyword_in(line: &Cursor) -> Option<Keyword>
    ensures { result ≡ keyword_in line.now }
{
    if line.has_sign(1, Sign::Assign) {
        return None;
    }
    match line.tokens() {
        [first, ..] => keyword_of(line.spelled(*first)),
        [] => None,
    }
}

/// What a line of statements says: cause 60 at the first token that can't follow those before it, or at the line's end.
#[tactic(auto, unfolding(crate::specs::Statements::said_of))]
pub(crate) fn said_of(
    alloc: Global,
    scope: &Scope,
    blocks: Blocks,
    line: &Cursor,
) -> Result<Said, Refusal>
    ensures { Gives said_seen result (said_of scope.now blocks line.now) }
{
    match keyword_in(line) {
        Some(Keyword::Mem) => write_of(alloc, scope, line),
        Some(Keyword::Put) => put_of(alloc, scope, line),
        Some(Keyword::Take) => take_of(line),
        Some(Keyword::If) => if_of(alloc, scope, line),
        Some(Keyword::Else) => alone_of(blocks.can_else, Said::Else, line),
        Some(Keyword::End) => alone_of(blocks.can_end, Said::End, line),
        None => assign_of(alloc, scope, line),
    }
}
