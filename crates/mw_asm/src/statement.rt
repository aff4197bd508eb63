// What a line says.
ghost use Rattle.std.specs.Prelude.{◌≡◌};
ghost use Rattle.mw_base.specs.Reading.{Gives};
ghost use Rattle.mw_asm.specs.Statements.{equ_of, def_of, org_of, labelled_of, unlabelled_of, keyword_of};
ghost use Rattle.mw_asm.specs.Statements.{leaves_keyword, keyword_in, statement_of};

use crate::items::{Item, items_of, optional_items};
use mw_base::{Cursor, Items, Numeral, Refusal, Refused, Sign, Symbol, TextFault, Token};
use std::alloc::Global;

/// A word that begins a line of its own kind.
#[derive(Clone, Copy)]
pub(crate) enum Keyword {
    Equ,
    Def,
    Org,
}

/// What a line says.
#[derive(Drop)]
pub(crate) enum Statement {
    /// This name stands for a number.
    Equ(Token, u128),
    /// This name stands for what the items set.
    Def(Token, Items<Item>),
    /// The next word's address.
    Org(Numeral),
    /// A label, if any, and the items of a word, if any. A blank line has neither.
    Word(Option<Token>, Items<Item>),
}

/// equ NAME = NUMBER.
#[tactic(auto, unfolding(crate::specs::Statements::equ_of))]
fn equ_of(line: &Cursor) -> Result<Statement, TextFault>
    ensures { result ≡ equ_of line.now }
{
    let name = line.name(1)?;
    line.sign(2, Sign::Equals)?;
    let number = line.number(3)?;
    line.end(4)?;
    Ok(Statement::Equ(name, number.value))
}

/// def NAME = ITEMS.
#[tactic(auto, unfolding(crate::specs::Statements::def_of))]
fn def_of(alloc: Global, line: &Cursor) -> Result<Statement, Refusal>
    ensures { Gives (λ s. s) result (def_of line.now) }
{
    let name = line.name(1).map_err(Refused::At)?;
    line.sign(2, Sign::Equals).map_err(Refused::At)?;
    let items = items_of(alloc, &line.after(3))?;
    Ok(Statement::Def(name, items))
}

/// org NUMBER.
#[tactic(auto, unfolding(crate::specs::Statements::org_of))]
fn org_of(line: &Cursor) -> Result<Statement, TextFault>
    ensures { result ≡ org_of line.now }
{
    let address = line.number(1)?;
    line.end(2)?;
    Ok(Statement::Org(address))
}

/// NAME: and then ITEMS or nothing.
#[tactic(auto, unfolding(crate::specs::Statements::labelled_of))]
fn labelled_of(alloc: Global, line: &Cursor) -> Result<Statement, Refusal>
    ensures { Gives (λ s. s) result (labelled_of line.now) }
{
    let name = line.token(0).map_err(Refused::At)?;
    let items = optional_items(alloc, &line.after(2))?;
    Ok(Statement::Word(Some(name), items))
}

/// ITEMS, or nothing.
#[tactic(auto, unfolding(crate::specs::Statements::unlabelled_of))]
fn unlabelled_of(alloc: Global, line: &Cursor) -> Result<Statement, Refusal>
    ensures { Gives (λ s. s) result (unlabelled_of line.now) }
{
    let items = optional_items(alloc, line)?;
    Ok(Statement::Word(None, items))
}

/// The keyword of these bytes.
pub(crate) fn keyword_of(name: &[u8]) -> Option<Keyword>
    ensures { result ≡ keyword_of name.now }
{
    if name == b"equ".as_slice() {
        Some(Keyword::Equ)
    } else if name == b"def".as_slice() {
        Some(Keyword::Def)
    } else if name == b"org".as_slice() {
        Some(Keyword::Org)
    } else {
        None
    }
}

/// Whether a keyword before this symbol is one, and not a name as any other.
fn leaves_keyword(next: Option<Symbol>) -> bool
    ensures { result ≡ leaves_keyword next }
{
    match next {
        None | Some(Symbol::Sign(Sign::Equals | Sign::Colon | Sign::Comma)) => false,
        Some(_) => true,
    }
}

/// The keyword with which a line begins; not before `=`, `:`, `,` or the line's end.
fn keyword_in(line: &Cursor) -> Option<Keyword>
    ensures { result ≡ keyword_in line.now }
{
    if !leaves_keyword(line.symbol(1)) {
        return None;
    }
    match line.tokens() {
        [first, ..] => keyword_of(line.spelled(*first)),
        [] => None,
    }
}

/// What a line says: cause 36 at the first token that can't follow those before it, or at the line's end.
#[tactic(auto, unfolding(crate::specs::Statements::statement_of))]
pub(crate) fn statement_of(alloc: Global, line: &Cursor) -> Result<Statement, Refusal>
    ensures { Gives (λ s. s) result (statement_of line.now) }
{
    match keyword_in(line) {
        Some(Keyword::Equ) => equ_of(line).map_err(Refused::At),
        Some(Keyword::Def) => def_of(alloc, line),
        Some(Keyword::Org) => org_of(line).map_err(Refused::At),
        None => {
            if line.has_name(0) & line.has_sign(1, Sign::Colon) {
                labelled_of(alloc, line)
            } else {
                unlabelled_of(alloc, line)
            }
        }
    }
}
