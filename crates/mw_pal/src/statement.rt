// What a line says.
ghost use Rattle.std.specs.Prelude.{◌≡◌, ◌+◌, ◌<◌, ◌^◌};
ghost use Rattle.mw_base.specs.Reading.{Gives};
ghost use Rattle.mw_pal.specs.Statements.{begins_with, data_of, reference_of, referring, operate_of, instruction_of};
ghost use Rattle.mw_pal.specs.Statements.{statement_of, optional_statement, labelled_of, unlabelled_of, org_of};
ghost use Rattle.mw_pal.specs.Statements.{entry_of, is_reserved};

use crate::joins::Spelled;
use crate::opcode::{Opcode, opcode_named};
use crate::operation::operation_named;
use mw_base::{Cursor, Items, Numeral, Place, Refusal, Refused, Sign, TextFault, Token};
use std::alloc::Global;

/// What a statement says.
#[derive(Drop)]
pub(crate) enum Instruction {
    /// A word of this value.
    Data(Place),
    /// An instruction that refers to memory, indirectly or not, at this address.
    Reference(Opcode, bool, Place),
    /// Words whose codes are ored.
    Operate(Items<Spelled>),
}

/// A statement.
#[derive(Drop)]
pub(crate) struct Statement {
    /// Its first token.
    pub first: Token,
    /// What it says.
    pub says: Instruction,
}

/// What a line says.
#[derive(Drop)]
pub(crate) enum Entry {
    /// The next statement's address.
    Org(Numeral),
    /// A label, if any, and a statement, if any. A blank line has neither.
    Words(Option<Token>, Option<Statement>),
}

/// Whether a line begins with this word.
fn begins_with(word: &[u8], line: &Cursor) -> bool
    ensures { result ≡ begins_with word.now line.now }
{
    match line.tokens() {
        [] => false,
        [first, ..] => line.spelled(*first) == word,
    }
}

/// word VALUE.
#[tactic(auto, unfolding(crate::specs::Statements::data_of))]
fn data_of(line: &Cursor) -> Result<Instruction, TextFault>
    ensures { result ≡ data_of line.now }
{
    let value = line.place(1)?;
    line.end(2)?;
    Ok(Instruction::Data(value))
}

/// The address, at token n, of an instruction that refers to memory.
#[tactic(auto, unfolding(crate::specs::Statements::reference_of))]
fn reference_of(
    opcode: Opcode,
    is_indirect: bool,
    n: usize,
    line: &Cursor,
) -> Result<Instruction, TextFault>
    requires { n < 2 ^ 32 }
    ensures { result ≡ reference_of opcode is_indirect n line.now }
{
    let address = line.place(n)?;
    line.end(n + 1)?;
    Ok(Instruction::Reference(opcode, is_indirect, address))
}

/// An instruction that refers to memory: optionally `i`, and an address.
#[tactic(auto, unfolding(crate::specs::Statements::referring))]
fn referring(opcode: Opcode, line: &Cursor) -> Result<Instruction, TextFault>
    ensures { result ≡ referring opcode line.now }
{
    if begins_with(b"i", &line.after(1)) {
        reference_of(opcode, true, 2, line)
    } else {
        reference_of(opcode, false, 1, line)
    }
}

/// A statement of words alone: cause 60 at the first token that is none.
#[tactic(auto, unfolding(crate::specs::Statements::operate_of))]
fn operate_of(alloc: Global, line: &Cursor) -> Result<Instruction, Refusal>
    ensures { Gives (λ says. says) result (operate_of line.now) }
{
    let mut words = Vec::new(alloc);
    for token in line.tokens() {
        match operation_named(line.spelled(*token)) {
            Some(operation) => words.push(Spelled {
                token: *token,
                operation,
            })?,
            None => return Err(Refused::At(line.misplaced(*token))),
        }
    }
    Ok(Instruction::Operate(Items::from_vec(words)))
}

/// What a statement says that begins with this word.
#[tactic(auto, unfolding(crate::specs::Statements::instruction_of))]
fn instruction_of(alloc: Global, word: &[u8], line: &Cursor) -> Result<Instruction, Refusal>
    ensures { Gives (λ says. says) result (instruction_of word.now line.now) }
{
    if word == b"word".as_slice() {
        return data_of(line).map_err(Refused::At);
    }
    match opcode_named(word) {
        Some(opcode) => referring(opcode, line).map_err(Refused::At),
        None => operate_of(alloc, line),
    }
}

/// A statement.
#[tactic(auto, unfolding(crate::specs::Statements::statement_of))]
fn statement_of(alloc: Global, line: &Cursor) -> Result<Statement, Refusal>
    ensures { Gives (λ statement. statement) result (statement_of line.now) }
{
    let first = line.token(0).map_err(Refused::At)?;
    let says = instruction_of(alloc, line.spelled(first), line)?;
    Ok(Statement { first, says })
}

/// A statement, or none where there are no tokens.
fn optional_statement(alloc: Global, line: &Cursor) -> Result<Option<Statement>, Refusal>
    ensures { Gives (λ statement. statement) result (optional_statement line.now line.now.tokens) }
{
    match line.tokens() {
        [] => Ok(None),
        _ => match statement_of(alloc, line) {
            Ok(statement) => Ok(Some(statement)),
            Err(refusal) => Err(refusal),
        },
    }
}

/// NAME: and then a statement or nothing.
#[tactic(auto, unfolding(crate::specs::Statements::labelled_of))]
fn labelled_of(alloc: Global, line: &Cursor) -> Result<Entry, Refusal>
    ensures { Gives (λ entry. entry) result (labelled_of line.now) }
{
    let name = line.token(0).map_err(Refused::At)?;
    let statement = optional_statement(alloc, &line.after(2))?;
    Ok(Entry::Words(Some(name), statement))
}

/// A statement, or nothing.
#[tactic(auto, unfolding(crate::specs::Statements::unlabelled_of))]
fn unlabelled_of(alloc: Global, line: &Cursor) -> Result<Entry, Refusal>
    ensures { Gives (λ entry. entry) result (unlabelled_of line.now) }
{
    let statement = optional_statement(alloc, line)?;
    Ok(Entry::Words(None, statement))
}

/// org N.
#[tactic(auto, unfolding(crate::specs::Statements::org_of))]
fn org_of(line: &Cursor) -> Result<Entry, TextFault>
    ensures { result ≡ org_of line.now }
{
    let address = line.number(1)?;
    line.end(2)?;
    Ok(Entry::Org(address))
}

/// What a line says: cause 60 at the first token that can't follow those before it, or at the line's end.
#[tactic(auto, unfolding(crate::specs::Statements::entry_of))]
pub(crate) fn entry_of(alloc: Global, line: &Cursor) -> Result<Entry, Refusal>
    ensures { Gives (λ entry. entry) result (entry_of line.now) }
{
    if line.has_name(0) & line.has_sign(1, Sign::Colon) {
        labelled_of(alloc, line)
    } else if begins_with(b"org", line) {
        org_of(line).map_err(Refused::At)
    } else {
        unlabelled_of(alloc, line)
    }
}

/// Whether no label can be called so: as a word of a statement, `i`, `org` or `word`.
#[tactic(auto, unfolding(crate::specs::Statements::is_reserved))]
pub(crate) fn is_reserved(name: &[u8]) -> bool
    ensures { result ≡ is_reserved name.now }
{
    operation_named(name).is_some()
        || opcode_named(name).is_some()
        || name == b"i".as_slice()
        || name == b"org".as_slice()
        || name == b"word".as_slice()
}
