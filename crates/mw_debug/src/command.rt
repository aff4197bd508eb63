// What a line of a script says, by its tokens.
ghost use Rattle.std.specs.Prelude.{◌≡◌, slice_get};
ghost use Rattle.mw_base.specs.Symbols.{spelled};
ghost use Rattle.mw_debug.specs.Commands.{count_alone, element_alone, until_of, set_of, memory_shown_of, is_word};
ghost use Rattle.mw_debug.specs.Commands.{shows_memory, show_of, keyword_of, command_after, command_of};

use mw_base::{Cursor, Dotted, Numeral, Place, Sign, TextFault, Token};

/// What a line says.
#[derive(Clone, Copy)]
pub(crate) enum Command {
    /// step N.
    Step(Numeral),
    /// until PLACE N.
    Until(Place, Numeral),
    /// set ELEMENT VALUE.
    Set(Dotted, Numeral),
    /// show ELEMENT.
    Show(Dotted),
    /// show mem ADDRESS.
    ShowMemory(Numeral),
    /// watch ELEMENT.
    Watch(Dotted),
    /// back N.
    Back(Numeral),
}

/// A word that begins a command.
#[derive(Clone, Copy)]
pub(crate) enum Keyword {
    Step,
    Until,
    Set,
    Show,
    Watch,
    Back,
}

/// N, and the line's end.
#[tactic(auto, unfolding(crate::specs::Commands::count_alone))]
fn count_alone(line: &Cursor) -> Result<Numeral, TextFault>
    ensures { result ≡ count_alone line.now }
{
    let count = line.number(1)?;
    line.end(2)?;
    Ok(count)
}

/// ELEMENT, and the line's end.
#[tactic(auto, unfolding(crate::specs::Commands::element_alone))]
fn element_alone(line: &Cursor) -> Result<Dotted, TextFault>
    ensures { result ≡ element_alone line.now }
{
    let element = line.after(1).element()?;
    line.end(4)?;
    Ok(element)
}

/// until PLACE N.
#[tactic(auto, unfolding(crate::specs::Commands::until_of))]
fn until_of(line: &Cursor) -> Result<Command, TextFault>
    ensures { result ≡ until_of line.now }
{
    let place = line.place(1)?;
    let limit = line.number(2)?;
    line.end(3)?;
    Ok(Command::Until(place, limit))
}

/// set ELEMENT VALUE.
#[tactic(auto, unfolding(crate::specs::Commands::set_of))]
fn set_of(line: &Cursor) -> Result<Command, TextFault>
    ensures { result ≡ set_of line.now }
{
    let element = line.after(1).element()?;
    let value = line.number(4)?;
    line.end(5)?;
    Ok(Command::Set(element, value))
}

/// show mem ADDRESS.
#[tactic(auto, unfolding(crate::specs::Commands::memory_shown_of))]
fn memory_shown_of(line: &Cursor) -> Result<Command, TextFault>
    ensures { result ≡ memory_shown_of line.now }
{
    let address = line.number(2)?;
    line.end(3)?;
    Ok(Command::ShowMemory(address))
}

/// Whether there is a token with this number, and it is this word.
fn has_word(line: &Cursor, number: usize, word: &[u8]) -> bool
    ensures { result ≡ is_word line.now.text word.now (slice_get line.now.tokens number) }
{
    match line.tokens().get(number) {
        Some(token) => line.spelled(*token) == word,
        None => false,
    }
}

/// Whether a line that shows something shows a word of the memory: a name before a dot is that of an element's owner.
fn shows_memory(line: &Cursor) -> bool
    ensures { result ≡ shows_memory line.now }
{
    has_word(line, 1, b"mem") && !line.has_sign(2, Sign::Dot)
}

/// show ELEMENT or show mem ADDRESS.
#[tactic(auto, unfolding(crate::specs::Commands::show_of))]
fn show_of(line: &Cursor) -> Result<Command, TextFault>
    ensures { result ≡ show_of line.now }
{
    if shows_memory(line) {
        memory_shown_of(line)
    } else {
        Ok(Command::Show(element_alone(line)?))
    }
}

/// The keyword of these bytes.
fn keyword_of(name: &[u8]) -> Option<Keyword>
    ensures { result ≡ keyword_of name.now }
{
    if name == b"step".as_slice() {
        Some(Keyword::Step)
    } else if name == b"until".as_slice() {
        Some(Keyword::Until)
    } else if name == b"set".as_slice() {
        Some(Keyword::Set)
    } else if name == b"show".as_slice() {
        Some(Keyword::Show)
    } else if name == b"watch".as_slice() {
        Some(Keyword::Watch)
    } else if name == b"back".as_slice() {
        Some(Keyword::Back)
    } else {
        None
    }
}

/// The command of a line that begins with this token, or the first token that can't stand where it does.
fn command_after(line: &Cursor, first: Token) -> Result<Command, TextFault>
    ensures { result ≡ command_after line.now first (keyword_of (spelled line.now.text first)) }
{
    match keyword_of(line.spelled(first)) {
        Some(Keyword::Step) => Ok(Command::Step(count_alone(line)?)),
        Some(Keyword::Until) => until_of(line),
        Some(Keyword::Set) => set_of(line),
        Some(Keyword::Show) => show_of(line),
        Some(Keyword::Watch) => Ok(Command::Watch(element_alone(line)?)),
        Some(Keyword::Back) => Ok(Command::Back(count_alone(line)?)),
        None => Err(line.misplaced(first)),
    }
}

/// The command of a line that begins with this token. A line that is none is at fault there, whichever token can't
/// follow.
#[tactic(auto, unfolding(crate::specs::Commands::command_of))]
pub(crate) fn command_of(line: &Cursor, first: Token) -> Result<Command, TextFault>
    ensures { result ≡ command_of line.now first }
{
    match command_after(line, first) {
        Ok(command) => Ok(command),
        Err(_) => Err(line.misplaced(first)),
    }
}
