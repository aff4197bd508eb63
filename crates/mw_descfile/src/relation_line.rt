// What a line of a relation says.
ghost use Rattle.std.specs.Prelude.{◌≡◌};
ghost use Rattle.mw_base.specs.Reading.{Gives};
ghost use Rattle.mw_descfile.specs.RelationLines.{beginning_of, stack_pointer_of, equation_of, end_of, block_word_of};
ghost use Rattle.mw_descfile.specs.RelationLines.{block_word_in, told_of};
ghost use Rattle.mw_descfile.specs.RelationViews.{told_seen};

use crate::scope::Scope;
use crate::uses::{Use, uses_of};
use mw_base::{Cursor, Dotted, Numeral, Place, Refusal, Refused, Sign, TextFault, Token};
use mw_expr::Written;
use std::alloc::Global;

/// boundary PLACE BOUND.
#[derive(Clone, Copy)]
pub(crate) struct Beginning {
    /// The word `boundary`.
    pub word: Token,
    /// Where the boundary is.
    pub place: Place,
    /// The most cycles of a segment that begins there.
    pub bound: Numeral,
}

/// A word that begins a line of its own kind in a boundary.
#[derive(Clone, Copy)]
pub(crate) enum BlockWord {
    /// `sp`.
    StackPointer,
    /// `end`.
    End,
}

/// What a line of a boundary says.
#[derive(Drop)]
pub(crate) enum Told {
    /// The word `sp`, and how many words are on the stack.
    StackPointer(Token, Numeral),
    /// The element, the `=`, the value, and the elements that stand in it.
    Equation(Dotted, Token, Written, Vec<Use>),
    /// The word `end`.
    End(Token),
}

/// boundary PLACE BOUND: cause 60.
#[tactic(auto, unfolding(crate::specs::RelationLines::beginning_of))]
pub(crate) fn beginning_of(line: &Cursor) -> Result<Beginning, TextFault>
    ensures { result ≡ beginning_of line.now }
{
    let word = line.first_word(b"boundary")?;
    let place = line.place(1)?;
    let bound = line.number(2)?;
    line.end(3)?;
    Ok(Beginning { word, place, bound })
}

/// sp N.
#[tactic(auto, unfolding(crate::specs::RelationLines::stack_pointer_of))]
fn stack_pointer_of(line: &Cursor) -> Result<Told, Refusal>
    ensures { Gives told_seen result (stack_pointer_of line.now) }
{
    let word = line.token(0).map_err(Refused::At)?;
    let value = line.number(1).map_err(Refused::At)?;
    line.end(2).map_err(Refused::At)?;
    Ok(Told::StackPointer(word, value))
}

/// ELEMENT = E.
#[tactic(auto, unfolding(crate::specs::RelationLines::equation_of))]
fn equation_of(alloc: Global, scope: &Scope, line: &Cursor) -> Result<Told, Refusal>
    ensures { Gives told_seen result (equation_of scope.now line.now) }
{
    let element = line.element().map_err(Refused::At)?;
    let sign = line.sign(3, Sign::Equals).map_err(Refused::At)?;
    let right = line.after(4);
    let value = scope.written(alloc, &right)?;
    let uses = uses_of(alloc, scope.names.as_slice(), &right)?;
    Ok(Told::Equation(element, sign, value, uses))
}

/// end.
#[tactic(auto, unfolding(crate::specs::RelationLines::end_of))]
fn end_of(line: &Cursor) -> Result<Told, Refusal>
    ensures { Gives told_seen result (end_of line.now) }
{
    let word = line.token(0).map_err(Refused::At)?;
    line.end(1).map_err(Refused::At)?;
    Ok(Told::End(word))
}

/// The word of these bytes that begins a line of its own kind.
fn block_word_of(word: &[u8]) -> Option<BlockWord>
    ensures { result ≡ block_word_of word.now }
{
    if word == b"sp".as_slice() {
        Some(BlockWord::StackPointer)
    } else if word == b"end".as_slice() {
        Some(BlockWord::End)
    } else {
        None
    }
}

/// The one with which a line begins; before `.` it is a name as any other.
fn block_word_in(line: &Cursor) -> Option<BlockWord>
    ensures { result ≡ block_word_in line.now }
{
    if line.has_sign(1, Sign::Dot) {
        return None;
    }
    match line.tokens() {
        [first, ..] => block_word_of(line.spelled(*first)),
        [] => None,
    }
}

/// What a line of a boundary says: cause 60 at the first token that can't follow those before it, or at the line's end.
#[tactic(auto, unfolding(crate::specs::RelationLines::told_of))]
pub(crate) fn told_of(alloc: Global, scope: &Scope, line: &Cursor) -> Result<Told, Refusal>
    ensures { Gives told_seen result (told_of scope.now line.now) }
{
    match block_word_in(line) {
        Some(BlockWord::StackPointer) => stack_pointer_of(line),
        Some(BlockWord::End) => end_of(line),
        None => equation_of(alloc, scope, line),
    }
}
