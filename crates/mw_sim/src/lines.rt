// What a line of an environment, a start or a counter says, behind their heads.
ghost use Rattle.std.specs.Prelude.{◌≡◌};
ghost use Rattle.mw_base.specs.Reading.{Gives};
ghost use Rattle.mw_sim.specs.Lines.{with_number, numbers_in, numbers_of, set_of, memory_of, series_of, keyword_of};
ghost use Rattle.mw_sim.specs.Lines.{statement_of};

use mw_base::{
    Cursor, Dotted, Items, Numeral, Refusal, Refused, Symbol, TextFault, Token, symbol_of,
};
use mw_cycle::Series;
use std::alloc::Global;

/// A word that begins a line.
#[derive(Clone, Copy)]
pub(crate) enum Keyword {
    Set,
    Memory,
    Series(Series),
}

/// What a line says.
#[derive(Drop)]
pub(crate) enum Statement {
    /// Nothing.
    Blank,
    /// This element has a value.
    Set(Dotted, Numeral),
    /// The memory has these words from an address on.
    Memory(Numeral, Items<Numeral>),
    /// A list goes on with these values.
    Series(Series, Items<Numeral>),
}

/// Appends the number that a token has to be.
#[tactic(auto, unfolding(crate::specs::Lines::with_number))]
fn push_number(numbers: &mut Vec<Numeral>, line: &Cursor, token: Token) -> Result<(), Refusal>
    ensures { Gives (λ done. numbers.new.items) result (with_number line.now numbers.old.items token) }
{
    match symbol_of(line.text(), token) {
        Symbol::Number(value) => numbers.push(Numeral { token, value })?,
        _ => return Err(Refused::At(line.misplaced(token))),
    }
    Ok(())
}

/// The numbers that all tokens have to be.
fn numbers_in(alloc: Global, line: &Cursor) -> Result<Vec<Numeral>, Refusal>
    ensures { Gives (λ v. v.items) result (numbers_in line.now line.now.tokens) }
{
    let mut numbers = Vec::new(alloc);
    let tokens = line.tokens();
    for token in tokens {
        push_number(&mut numbers, line, *token)?;
    }
    Ok(numbers)
}

/// VALUE .. up to the line's end.
#[tactic(auto, unfolding(crate::specs::Lines::numbers_of))]
fn numbers_of(alloc: Global, line: &Cursor) -> Result<Items<Numeral>, Refusal>
    ensures { Gives (λ numbers. numbers) result (numbers_of line.now) }
{
    line.token(0).map_err(Refused::At)?;
    Ok(Items::from_vec(numbers_in(alloc, line)?))
}

/// set ELEMENT VALUE.
#[tactic(auto, unfolding(crate::specs::Lines::set_of))]
fn set_of(line: &Cursor) -> Result<Statement, TextFault>
    ensures { result ≡ set_of line.now }
{
    let element = line.after(1).element()?;
    let value = line.number(4)?;
    line.end(5)?;
    Ok(Statement::Set(element, value))
}

/// mem ADDRESS VALUE ...
#[tactic(auto, unfolding(crate::specs::Lines::memory_of))]
fn memory_of(alloc: Global, line: &Cursor) -> Result<Statement, Refusal>
    ensures { Gives (λ s. s) result (memory_of line.now) }
{
    let address = line.number(1).map_err(Refused::At)?;
    let values = numbers_of(alloc, &line.after(2))?;
    Ok(Statement::Memory(address, values))
}

/// A keyword and VALUE ...
#[tactic(auto, unfolding(crate::specs::Lines::series_of))]
fn series_of(alloc: Global, series: Series, line: &Cursor) -> Result<Statement, Refusal>
    ensures { Gives (λ s. s) result (series_of series line.now) }
{
    let values = numbers_of(alloc, &line.after(1))?;
    Ok(Statement::Series(series, values))
}

/// The keyword of these bytes.
fn keyword_of(name: &[u8]) -> Option<Keyword>
    ensures { result ≡ keyword_of name.now }
{
    if name == b"set".as_slice() {
        Some(Keyword::Set)
    } else if name == b"mem".as_slice() {
        Some(Keyword::Memory)
    } else {
        match Series::named(name) {
            Some(series) => Some(Keyword::Series(series)),
            None => None,
        }
    }
}

/// What a line says: cause 60 at the first token that can't follow those before it, or at the line's end.
#[tactic(auto, unfolding(crate::specs::Lines::statement_of))]
pub(crate) fn statement_of(alloc: Global, line: &Cursor) -> Result<Statement, Refusal>
    ensures { Gives (λ s. s) result (statement_of line.now) }
{
    let first = match line.tokens() {
        [first, ..] => *first,
        [] => return Ok(Statement::Blank),
    };
    match keyword_of(line.spelled(first)) {
        Some(Keyword::Set) => set_of(line).map_err(Refused::At),
        Some(Keyword::Memory) => memory_of(alloc, line),
        Some(Keyword::Series(series)) => series_of(alloc, series, line),
        None => Err(Refused::At(line.misplaced(first))),
    }
}
