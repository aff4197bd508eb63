// What the lines of an environment, a start or a counter give.
ghost use Rattle.std.specs.Prelude.{◌≡◌, ◌<◌, ◌≤◌, ◌^◌, IfOk, OnOk, length, slice_get};
ghost use Rattle.mw_base.specs.Reading.{Gives};
ghost use Rattle.mw_base.specs.Steps.{steps};
ghost use Rattle.mw_cycle.specs.Series.{width_of};
ghost use Rattle.mw_sim.specs.Settings.{owner_text, number_named, nothing_given, value_below, is_free, bound_of};
ghost use Rattle.mw_sim.specs.Settings.{with_value, with_set, with_word, with_more_words, with_words, series_bound};
ghost use Rattle.mw_sim.specs.Settings.{with_entry, with_statement, with_line, given_by, AreBounded, HasValues};
ghost use Rattle.mw_sim.specs.Settings.{HasImage, AreSettings};
ghost use Rattle.mw_sim.specs.Views.{given_seen};

use crate::lines::{Statement, statement_of};
use mw_base::{
    Cause, Cursor, Dotted, Line, Name, NoMemory, Numeral, Refusal, Refused, TextFault, Token,
    fault_on, spelled,
};
use mw_board::Board;
use mw_cycle::{Env, Series};
use std::alloc::Global;

/// How many entries a list of an environment may have.
const MOST_ENTRIES: usize = 65_536;

/// Whose an element is.
#[derive(Clone, Copy, Debug, PartialEq, Eq)]
pub enum Owner {
    /// The board's: `b`.
    Board,
    /// The described machine's: `m`.
    Machine,
}

/// An element that a line may name.
#[derive(Debug, Drop)]
pub struct Settable {
    /// Whose it is.
    pub owner: Owner,
    /// Its name.
    pub name: Name,
    /// The least number that is no value of it.
    pub bound: u64,
    /// Whether a line may set it.
    pub is_free: bool,
}

/// What lines give: what isn't given is 0.
#[derive(Debug, Drop)]
pub struct Settings {
    /// The value of each element, by number.
    pub values: Vec<u32>,
    /// For each element, whether a line set it.
    set: Vec<bool>,
    /// The memory's words, by address.
    pub memory: Vec<u32>,
    /// For each word of the memory, whether a line gave it.
    written: Vec<bool>,
    /// The lists of the environment.
    pub env: Env,
}

/// The letter of an owner in texts.
fn owner_text(owner: Owner) -> &'static [u8]
    ensures { result.now ≡ owner_text owner }
{
    match owner {
        Owner::Board => b"b",
        Owner::Machine => b"m",
    }
}

/// The number of the element OWNER.NAME.
fn number_named(elements: &[Settable], owner: &[u8], name: &[u8]) -> Option<usize>
    ensures { result ≡ number_named elements.now owner.now name.now }
{
    elements.iter().position(|element| owner == owner_text(element.owner)
        && name == element.name.as_slice())
}

/// The value of a number, which has to be below a bound.
///
/// # Errors
///
/// Cause 33 where it isn't, at the number.
pub fn value_below(bound: u64, numeral: Numeral) -> Result<u32, TextFault>
    requires { bound ≤ 2 ^ 32 }
    ensures { result ≡ value_below bound numeral }
{
    if numeral.value < u128::from(bound) {
        Ok(numeral.value as u32)
    } else {
        Err(fault_on(numeral.token, Cause::ValueTooWide))
    }
}

/// 2 to the power of bits, which are at most 32.
#[tactic(auto, using(std::proofs::lemmas::Nat::one_shl))]
pub fn two_to(bits: u8) -> u64
    requires { bits ≤ 32 }
    ensures { result ≡ 2 ^ bits }
{
    1 << bits
}

/// The least number that is no entry of a list.
fn series_bound(width: u8, series: Series) -> u64
    requires { width ≤ 32 }
    ensures exact { result ≡ series_bound width series }
    ensures most { result ≤ 2 ^ 32 }
{
    two_to(series.width(width))
}

/// The value of a number that has to be an entry of a list: cause 33 at it.
fn entry_value(board: &Board, series: Series, entry: Numeral) -> Result<u32, Refusal>
    ensures gives { Gives (λ value. value) result (value_below (series_bound board.now.width series) entry) }
    ensures small { IfOk result (λ value. value < 2 ^ width_of 32 series) }
{
    match value_below(series_bound(board.width().bits(), series), entry) {
        Ok(value) => Ok(value),
        Err(fault) => Err(Refused::At(fault)),
    }
}

/// Whether the element with this number is free to be set.
fn is_free(elements: &[Settable], number: usize) -> bool
    ensures { result ≡ is_free (slice_get elements.now number) }
{
    match elements.get(number) {
        Some(element) => element.is_free,
        None => false,
    }
}

/// The least number that is no value of the element with this number.
fn bound_of(elements: &[Settable], number: usize) -> u64
    ensures { result ≡ bound_of (slice_get elements.now number) }
{
    match elements.get(number) {
        Some(element) => element.bound,
        None => 0,
    }
}

impl Settings {
    /// Nothing yet.
    fn nothing(alloc: Global, board: &Board, elements: &[Settable]) -> Result<Settings, NoMemory>
        ensures { IfOk result (λ given. given_seen given
            ≡ nothing_given (length elements.now) (2 ^ board.now.address)) }
    {
        let words = 1 << board.parts().address;
        let elements = elements.len();
        Ok(Settings {
            values: vec![in alloc; 0; elements]?,
            set: vec![in alloc; false; elements]?,
            memory: vec![in alloc; 0; words]?,
            written: vec![in alloc; false; words]?,
            env: Env::nothing(alloc),
        })
    }

    /// The element with this number, whose name stands at this place, has a value: cause 31 or 56 at the name, 33 at
    /// the value.
    #[tactic(auto, unfolding(crate::specs::Settings::with_value))]
    fn set_value(
        &mut self,
        elements: &[Settable],
        place: Token,
        number: usize,
        value: Numeral,
    ) -> Result<(), Refusal>
        requires bounded { AreBounded elements.now }
        requires values { HasValues elements.now (given_seen self.old) }
        requires there { number < length elements.now }
        ensures { Gives (λ done. given_seen self.new) result
            (with_value elements.now place number value (given_seen self.old)) }
    {
        if !is_free(elements, number) {
            return Err(Refused::At(fault_on(place, Cause::NotFree)));
        }
        if self.set[number] {
            return Err(Refused::At(fault_on(place, Cause::Twice)));
        }
        let value = value_below(bound_of(elements, number), value).map_err(Refused::At)?;
        self.values[number] = value;
        self.set[number] = true;
        Ok(())
    }

    /// set ELEMENT VALUE: cause 40, 31 or 56 at the element, 33 at the value.
    #[tactic(auto, unfolding(crate::specs::Settings::with_set))]
    fn set(
        &mut self,
        elements: &[Settable],
        text: &[u8],
        element: Dotted,
        value: Numeral,
    ) -> Result<(), Refusal>
        requires bounded { AreBounded elements.now }
        requires values { HasValues elements.now (given_seen self.old) }
        ensures { Gives (λ done. given_seen self.new) result
            (with_set elements.now text.now element value (given_seen self.old)) }
    {
        let Dotted { owner, name } = element;
        match number_named(elements, spelled(text, owner), spelled(text, name)) {
            Some(number) => self.set_value(elements, owner, number, value),
            None => Err(Refused::At(fault_on(owner, Cause::UnknownElement))),
        }
    }

    /// A word of the memory at an address that stands at this place: cause 31 or 33 there, 33 at the word.
    #[tactic(auto, unfolding(crate::specs::Settings::with_word))]
    fn add_word(
        &mut self,
        board: &Board,
        place: Token,
        address: u128,
        word: Numeral,
    ) -> Result<(), Refusal>
        requires image { HasImage board.now (given_seen self.old) }
        ensures gives { Gives (λ done. given_seen self.new) result
            (with_word board.now.width place address word (given_seen self.old)) }
        ensures low { OnOk result (address < 65536) }
    {
        if address >= self.memory.len() as u128 {
            return Err(Refused::At(fault_on(place, Cause::ValueTooWide)));
        }
        let address = address as usize;
        if self.written[address] {
            return Err(Refused::At(fault_on(place, Cause::Twice)));
        }
        let word = value_below(two_to(board.width().bits()), word).map_err(Refused::At)?;
        self.memory[address] = word;
        self.written[address] = true;
        Ok(())
    }

    /// Further words of a line, from an address on: cause 31 or 33 at each.
    #[tactic(auto, unfolding(crate::specs::Settings::with_more_words))]
    fn add_more_words(
        &mut self,
        board: &Board,
        address: usize,
        words: &[Numeral],
    ) -> Result<(), Refusal>
        requires image { HasImage board.now (given_seen self.old) }
        requires low { address ≤ 65536 }
        ensures { Gives (λ done. given_seen self.new) result
            (with_more_words board.now.width address words.now (given_seen self.old)) }
    {
        let mut next = address;
        for word in words {
            self.add_word(board, word.token, next as u128, *word)?;
            next += 1;
        }
        Ok(())
    }

    /// mem ADDRESS VALUE ..: cause 31 or 33 of the first word at ADDRESS, and those of the others at each.
    #[tactic(auto, unfolding(crate::specs::Settings::with_words))]
    fn add_words(
        &mut self,
        board: &Board,
        address: Numeral,
        words: &[Numeral],
    ) -> Result<(), Refusal>
        requires image { HasImage board.now (given_seen self.old) }
        ensures { Gives (λ done. given_seen self.new) result
            (with_words board.now.width address words.now (given_seen self.old)) }
    {
        match words {
            [] => Ok(()),
            [first, rest @ ..] => {
                self.add_word(board, address.token, address.value, *first)?;
                self.add_more_words(board, address.value as usize + 1, rest)
            }
        }
    }

    /// An entry of a list: cause 14 or 33 at it.
    #[tactic(auto, unfolding(crate::specs::Settings::with_entry))]
    fn add_entry(&mut self, board: &Board, series: Series, entry: Numeral) -> Result<(), Refusal>
        ensures { Gives (λ done. given_seen self.new) result
            (with_entry board.now.width series (given_seen self.old) entry) }
    {
        if self.env.length(series) >= MOST_ENTRIES {
            return Err(Refused::At(fault_on(entry.token, Cause::TooMany)));
        }
        let value = entry_value(board, series, entry)?;
        self.env.push(series, value)?;
        Ok(())
    }

    /// A list's keyword, and VALUE ..: cause 14 or 33 at each.
    fn add_entries(
        &mut self,
        board: &Board,
        series: Series,
        entries: &[Numeral],
    ) -> Result<(), Refusal>
        ensures { Gives (λ done. given_seen self.new) result
            (steps (with_entry board.now.width series) (given_seen self.old) entries.now) }
    {
        for entry in entries {
            self.add_entry(board, series, *entry)?;
        }
        Ok(())
    }

    /// What a line says: its causes but 60.
    fn add_statement(
        &mut self,
        board: &Board,
        elements: &[Settable],
        text: &[u8],
        statement: Statement,
    ) -> Result<(), Refusal>
        requires bounded { AreBounded elements.now }
        requires given { AreSettings board.now elements.now (given_seen self.old) }
        ensures { Gives (λ done. given_seen self.new) result
            (with_statement elements.now board.now.width text.now (given_seen self.old) statement) }
    {
        match statement {
            Statement::Blank => Ok(()),
            Statement::Set(element, value) => self.set(elements, text, element, value),
            Statement::Memory(address, words) => self.add_words(board, address, words.as_slice()),
            Statement::Series(series, entries) => {
                self.add_entries(board, series, entries.as_slice())
            }
        }
    }

    /// A line: cause 60, then its other causes by place.
    #[tactic(auto, unfolding(crate::specs::Settings::with_line))]
    fn add_line(
        &mut self,
        alloc: Global,
        board: &Board,
        elements: &[Settable],
        text: &[u8],
        line: &Line,
    ) -> Result<(), Refusal>
        requires bounded { AreBounded elements.now }
        requires given { AreSettings board.now elements.now (given_seen self.old) }
        ensures { Gives (λ done. given_seen self.new) result
            (with_line elements.now board.now.width text.now (given_seen self.old) line.now) }
    {
        let statement = statement_of(alloc, &Cursor::new(text, line, Cause::BadSyntax))?;
        self.add_statement(board, elements, text, statement)
    }
}

/// What lines of a text give of a board, behind the head of an environment, a start or a counter: the values of these
/// elements, the memory, and the lists of an environment. What isn't given is 0.
///
/// # Errors
///
/// The first fault of the lines, line by line: cause 60 of the line; then, by place, 40, 56 and 31 of an element and
/// 33 of its value; 31 and 33 of a memory word; 14 and 33 of a list's entry. Want of memory.
pub fn given_by(
    alloc: Global,
    board: &Board,
    elements: &[Settable],
    text: &[u8],
    lines: &[Line],
) -> Result<Settings, Refusal>
    requires bounded { AreBounded elements.now }
    ensures gives { Gives given_seen result (given_by board.now elements.now text.now lines.now) }
    ensures valid { IfOk result (λ given. AreSettings board.now elements.now (given_seen given)) }
{
    let mut given = Settings::nothing(alloc, board, elements)?;
    for line in lines {
        given.add_line(alloc, board, elements, text, line)?;
    }
    Ok(given)
}
