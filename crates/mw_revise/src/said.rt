// What a line of a block says.
ghost use Rattle.std.specs.Prelude.{◌≡◌};
ghost use Rattle.mw_revise.specs.KeepLines.{stack_pointer_of, equal_of, fixed_of, end_of, block_word_of, said_of};

use mw_base::{Cursor, Dotted, Numeral, TextFault, Token};

/// A word that begins a line of a block.
#[derive(Clone, Copy)]
pub(crate) enum BlockWord {
    /// `sp`.
    StackPointer,
    /// `keep`.
    Keep,
    /// `fixed`.
    Fixed,
    /// `end`.
    End,
}

/// What a line of a block says, with its first word.
#[derive(Clone, Copy)]
pub(crate) enum Said {
    /// How many words are on the stacks.
    StackPointer(Token, Numeral),
    /// An element has the same value on both sides.
    Equal(Token, Dotted),
    /// An element has these values, on the old side and on the new one.
    Fixed(Token, Dotted, Numeral, Numeral),
    /// The block ends.
    End(Token),
}

/// sp N.
#[tactic(auto, unfolding(crate::specs::KeepLines::stack_pointer_of))]
fn stack_pointer_of(word: Token, line: &Cursor) -> Result<Said, TextFault>
    ensures { result ≡ stack_pointer_of word line.now }
{
    let value = line.number(1)?;
    line.end(2)?;
    Ok(Said::StackPointer(word, value))
}

/// keep ELEMENT.
#[tactic(auto, unfolding(crate::specs::KeepLines::equal_of))]
fn equal_of(word: Token, line: &Cursor) -> Result<Said, TextFault>
    ensures { result ≡ equal_of word line.now }
{
    let element = line.after(1).element()?;
    line.end(4)?;
    Ok(Said::Equal(word, element))
}

/// fixed ELEMENT OLD NEW.
#[tactic(auto, unfolding(crate::specs::KeepLines::fixed_of))]
fn fixed_of(word: Token, line: &Cursor) -> Result<Said, TextFault>
    ensures { result ≡ fixed_of word line.now }
{
    let element = line.after(1).element()?;
    let old = line.number(4)?;
    let new = line.number(5)?;
    line.end(6)?;
    Ok(Said::Fixed(word, element, old, new))
}

/// end.
#[tactic(auto, unfolding(crate::specs::KeepLines::end_of))]
fn end_of(word: Token, line: &Cursor) -> Result<Said, TextFault>
    ensures { result ≡ end_of word line.now }
{
    line.end(1)?;
    Ok(Said::End(word))
}

/// Which word that begins a line of a block these bytes are.
fn block_word_of(word: &[u8]) -> Option<BlockWord>
    ensures { result ≡ block_word_of word.now }
{
    if word == b"sp".as_slice() {
        Some(BlockWord::StackPointer)
    } else if word == b"keep".as_slice() {
        Some(BlockWord::Keep)
    } else if word == b"fixed".as_slice() {
        Some(BlockWord::Fixed)
    } else if word == b"end".as_slice() {
        Some(BlockWord::End)
    } else {
        None
    }
}

/// What a line of a block says: cause 60 at the first token that can't follow those before it, or at the line's end.
#[tactic(auto, unfolding(crate::specs::KeepLines::said_of))]
pub(crate) fn said_of(line: &Cursor) -> Result<Said, TextFault>
    ensures { result ≡ said_of line.now }
{
    let word = line.token(0)?;
    match block_word_of(line.spelled(word)) {
        Some(BlockWord::StackPointer) => stack_pointer_of(word, line),
        Some(BlockWord::Keep) => equal_of(word, line),
        Some(BlockWord::Fixed) => fixed_of(word, line),
        Some(BlockWord::End) => end_of(word, line),
        None => Err(line.misplaced(word)),
    }
}
