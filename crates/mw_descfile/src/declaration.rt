// What a line of a machine before its statements says.
ghost use Rattle.std.specs.Prelude.{◌≡◌};
ghost use Rattle.mw_descfile.specs.Declarations.{sizes_of, heading_of, element_of, step_of, declaration_of};

use crate::element::Kind;
use mw_base::{Cursor, Numeral, TextFault, Token};

/// memory A W.
#[derive(Clone, Copy)]
pub(crate) struct Sizes {
    /// How many bits an address has.
    pub address: Numeral,
    /// How many bits a word has.
    pub word: Numeral,
}

/// A word that begins a line before the statements.
#[derive(Clone, Copy)]
pub(crate) enum Heading {
    /// `register` or `temp`.
    Element(Kind),
    /// `step`.
    Step,
}

/// What a line between the memory and the statements says.
#[derive(Clone, Copy)]
pub(crate) enum Declaration {
    /// There is an element of a kind, with this name and width.
    Element(Kind, Token, Numeral),
    /// Statements follow.
    Step,
}

/// memory A W.
#[tactic(auto, unfolding(crate::specs::Declarations::sizes_of))]
pub(crate) fn sizes_of(line: &Cursor) -> Result<Sizes, TextFault>
    ensures { result ≡ sizes_of line.now }
{
    line.first_word(b"memory")?;
    let address = line.number(1)?;
    let word = line.number(2)?;
    line.end(3)?;
    Ok(Sizes { address, word })
}

/// The word of these bytes with which a line before the statements begins.
fn heading_of(word: &[u8]) -> Option<Heading>
    ensures { result ≡ heading_of word.now }
{
    if word == b"register".as_slice() {
        Some(Heading::Element(Kind::Register))
    } else if word == b"temp".as_slice() {
        Some(Heading::Element(Kind::Temporary))
    } else if word == b"step".as_slice() {
        Some(Heading::Step)
    } else {
        None
    }
}

/// register NAME W, or temp NAME W.
#[tactic(auto, unfolding(crate::specs::Declarations::element_of))]
fn element_of(kind: Kind, line: &Cursor) -> Result<Declaration, TextFault>
    ensures { result ≡ element_of kind line.now }
{
    let name = line.name(1)?;
    let width = line.number(2)?;
    line.end(3)?;
    Ok(Declaration::Element(kind, name, width))
}

/// step.
#[tactic(auto, unfolding(crate::specs::Declarations::step_of))]
fn step_of(line: &Cursor) -> Result<Declaration, TextFault>
    ensures { result ≡ step_of line.now }
{
    line.end(1)?;
    Ok(Declaration::Step)
}

/// What a line between the memory and the statements says: cause 60 at the first token that can't follow, or at the
/// line's end.
#[tactic(auto, unfolding(crate::specs::Declarations::declaration_of))]
pub(crate) fn declaration_of(line: &Cursor) -> Result<Declaration, TextFault>
    ensures { result ≡ declaration_of line.now }
{
    let word = line.name(0)?;
    match heading_of(line.spelled(word)) {
        Some(Heading::Element(kind)) => element_of(kind, line),
        Some(Heading::Step) => step_of(line),
        None => Err(line.misplaced(word)),
    }
}
