// The script of a text.
ghost use Rattle.std.specs.Prelude.{◌≡◌, ◌+◌, ◌<◌, ◌≤◌, ◌^◌, IfOk, OnOk, length};
ghost use Rattle.mw_base.specs.Named.{names_seen};
ghost use Rattle.mw_base.specs.Reading.{Gives};
ghost use Rattle.mw_base.specs.Steps.{steps};
ghost use Rattle.mw_board.specs.declared.parts.BoardParts.{BoardParts};
ghost use Rattle.mw_debug.specs.Kept.{IsAct, IsCount, IsElement, IsReading, IsScript, cycles_in};
ghost use Rattle.mw_debug.specs.Script.{act_of, count_of, counted_of, cycles_asked, element_number_of, nothing_read};
ghost use Rattle.mw_debug.specs.Script.{script_of, set_act, until_act, with_command, with_cycles_asked, with_line};
ghost use Rattle.mw_debug.specs.Views.{reading_seen};

use crate::command::{Command, command_of};
use crate::element::{bound_of, number_by_owner};
use crate::labels::names_of;
use crate::script::{Act, Entry, Script};
use mw_asm::Assembled;
use mw_base::{
    Cause, Cursor, Dotted, Items, Line, Names, Numeral, Place, Refusal, Refused, TextFault, Token,
    fault_on, lines, spelled,
};
use mw_board::Board;
use mw_sim::{two_to, value_below};
use std::alloc::Global;

/// How many cycles a script makes at most.
const MOST_CYCLES: u32 = 100_000;

/// The greatest count of a command.
const MOST_COUNT: u128 = 10_000;

/// An entry, and how many cycles it and those before it make at most.
#[derive(Clone, Copy)]
pub(crate) struct Counted {
    entry: Entry,
    cycles: u32,
}

/// What is read of a script so far.
#[derive(Drop)]
pub(crate) struct Reading {
    /// Its entries.
    entries: Vec<Entry>,
    /// How many cycles they make at most.
    cycles: u32,
}

/// A count of cycles or of entries, 1 to 10,000: cause 33.
#[tactic(auto, unfolding(crate::specs::Script::count_of))]
fn count_of(numeral: Numeral) -> Result<u32, TextFault>
    ensures exact { result ≡ count_of numeral }
    ensures kept { IfOk result (λ count. IsCount count) }
    ensures same { IfOk result (λ count. count ≡ numeral.value) }
{
    if 1 <= numeral.value && numeral.value <= MOST_COUNT {
        Ok(numeral.value as u32)
    } else {
        Err(fault_on(numeral.token, Cause::ValueTooWide))
    }
}

/// The number of an element: cause 71.
#[tactic(auto, unfolding(crate::specs::Script::element_number_of))]
fn element_number_of(board: &Board, text: &[u8], element: Dotted) -> Result<u32, TextFault>
    ensures exact { result ≡ element_number_of board.now text.now element }
    ensures kept { IfOk result (λ number. IsElement board.now number) }
{
    // A call for the proof: its clause `valid` says that the elements of every board are few.
    let _ = board.parts();
    let Dotted { owner, name } = element;
    match number_by_owner(board, spelled(text, owner), spelled(text, name)) {
        Some(number) => Ok(number as u32),
        None => Err(fault_on(owner, Cause::NoSuchElement)),
    }
}

/// until: cause 30 or 33 of the place, 33 of the limit.
#[tactic(auto, unfolding(crate::specs::Script::until_act))]
fn until_act(
    labels: &Names<u16>,
    text: &[u8],
    place: Place,
    limit: Numeral,
) -> Result<Act, TextFault>
    ensures exact { result ≡ until_act (names_seen labels.now) text.now place limit }
    ensures kept { (board : BoardParts) → IfOk result (λ act. IsAct board act) }
    ensures cycles { IfOk result (λ act. cycles_in act ≡ limit.value) }
{
    let address = place.address(text, labels)?;
    let limit = count_of(limit)?;
    Ok(Act::Until(address, limit))
}

/// set: cause 71 of the element, 33 of its value.
#[tactic(auto, unfolding(crate::specs::Script::set_act))]
fn set_act(board: &Board, text: &[u8], element: Dotted, value: Numeral) -> Result<Act, TextFault>
    ensures exact { result ≡ set_act board.now text.now element value }
    ensures kept { IfOk result (λ act. IsAct board.now act) }
    ensures cycles { IfOk result (λ act. cycles_in act ≡ 0) }
{
    let number = element_number_of(board, text, element)?;
    let value = value_below(bound_of(board, number as usize), value)?;
    Ok(Act::Set(number, value))
}

/// What a command does: by place, cause 30 or 33 of a place, 71 of an element, 33 of a number.
fn act_of(
    board: &Board,
    labels: &Names<u16>,
    text: &[u8],
    command: Command,
) -> Result<Act, TextFault>
    ensures exact { result ≡ act_of board.now (names_seen labels.now) text.now command }
    ensures kept { IfOk result (λ act. IsAct board.now act) }
    ensures cycles { IfOk result (λ act. cycles_in act ≡ cycles_asked command) }
{
    match command {
        Command::Step(count) => Ok(Act::Step(count_of(count)?)),
        Command::Until(place, limit) => until_act(labels, text, place, limit),
        Command::Set(element, value) => set_act(board, text, element, value),
        Command::Show(element) => Ok(Act::Show(element_number_of(board, text, element)?)),
        Command::ShowMemory(address) => {
            let bound = two_to(board.parts().address);
            Ok(Act::ShowMemory(value_below(bound, address)?))
        }
        Command::Watch(element) => Ok(Act::Watch(element_number_of(board, text, element)?)),
        Command::Back(count) => Ok(Act::Back(count_of(count)?)),
    }
}

/// How many cycles a command asks for.
fn cycles_asked(command: &Command) -> u128
    ensures { result ≡ cycles_asked command.now }
{
    match command {
        Command::Step(count) => count.value,
        Command::Until(_, limit) => limit.value,
        _ => 0,
    }
}

/// The cycles asked for with those of the command that begins with this token: cause 70 there.
#[tactic(auto, unfolding(crate::specs::Script::with_cycles_asked))]
fn with_cycles_asked(first: Token, so_far: u32, more: u128) -> Result<u32, TextFault>
    requires { so_far ≤ 100000 }
    ensures exact { result ≡ with_cycles_asked first so_far more }
    ensures sum { IfOk result (λ cycles. cycles ≡ so_far + more) }
    ensures few { IfOk result (λ cycles. cycles ≤ 100000) }
{
    if more <= u128::from(MOST_CYCLES - so_far) {
        Ok(so_far + more as u32)
    } else {
        Err(fault_on(first, Cause::BadCommand))
    }
}

/// A command that begins with this token as an entry, and the cycles asked for with its own: cause 70 there where they
/// are too many, then those of what it does.
#[tactic(auto, unfolding(crate::specs::Script::counted_of))]
fn counted_of(
    board: &Board,
    labels: &Names<u16>,
    text: &[u8],
    first: Token,
    so_far: u32,
    command: Command,
) -> Result<Counted, TextFault>
    requires { so_far ≤ 100000 }
    ensures exact { result ≡ counted_of board.now (names_seen labels.now) text.now first so_far command }
    ensures kept { IfOk result (λ counted. IsAct board.now counted.entry.act) }
    ensures sum { IfOk result (λ counted. counted.cycles ≡ so_far + cycles_in counted.entry.act) }
    ensures few { IfOk result (λ counted. counted.cycles ≤ 100000) }
{
    let cycles = with_cycles_asked(first, so_far, cycles_asked(&command))?;
    let act = act_of(board, labels, text, command)?;
    Ok(Counted {
        entry: Entry {
            line: first.line,
            column: first.column,
            act,
        },
        cycles,
    })
}

impl Reading {
    /// Nothing yet.
    fn nothing(alloc: Global) -> Reading
        ensures { reading_seen result ≡ nothing_read }
    {
        Reading {
            entries: Vec::new(alloc),
            cycles: 0,
        }
    }

    /// A command that begins with this token: the causes of its entry.
    #[tactic(auto, unfolding(crate::specs::Script::with_command))]
    fn add_command(
        &mut self,
        board: &Board,
        labels: &Names<u16>,
        text: &[u8],
        first: Token,
        command: Command,
    ) -> Result<(), Refusal>
        requires kept { IsReading board.now (reading_seen self.old) }
        ensures gives { Gives (λ done. reading_seen self.new) result
            (with_command board.now (names_seen labels.now) text.now first (reading_seen self.old) command) }
        ensures kept { OnOk result (IsReading board.now (reading_seen self.new)) }
    {
        match counted_of(board, labels, text, first, self.cycles, command) {
            Ok(Counted { entry, cycles }) => {
                self.entries.push(entry)?;
                self.cycles = cycles;
                Ok(())
            }
            Err(fault) => Err(Refused::At(fault)),
        }
    }

    /// A line: cause 70, then those of its command.
    fn add_line(
        &mut self,
        board: &Board,
        labels: &Names<u16>,
        text: &[u8],
        line: &Line,
    ) -> Result<(), Refusal>
        requires kept { IsReading board.now (reading_seen self.old) }
        ensures gives { Gives (λ done. reading_seen self.new) result
            (with_line board.now (names_seen labels.now) text.now (reading_seen self.old) line.now) }
        ensures kept { OnOk result (IsReading board.now (reading_seen self.new)) }
    {
        match line.tokens.as_slice() {
            [] => Ok(()),
            [first, ..] => {
                let cursor = Cursor::new(text, line, Cause::BadCommand);
                let command = command_of(&cursor, *first).map_err(Refused::At)?;
                self.add_command(board, labels, text, *first, command)
            }
        }
    }
}

/// What the lines of a script say.
fn reading_of(
    alloc: Global,
    board: &Board,
    labels: &Names<u16>,
    text: &[u8],
    lines: &[Line],
) -> Result<Reading, Refusal>
    ensures gives { Gives reading_seen result
        (steps (with_line board.now (names_seen labels.now) text.now) nothing_read lines.now) }
    ensures kept { IfOk result (λ reading. IsReading board.now (reading_seen reading)) }
{
    let mut reading = Reading::nothing(alloc);
    for line in lines {
        reading.add_line(board, labels, text, line)?;
    }
    Ok(reading)
}

/// The script of a text, for a board and a microprogram.
///
/// The text has fewer than 2^32 bytes.
///
/// # Errors
///
/// The first fault of the text: causes 1 to 4 of its bytes; then, line by line, cause 70 at the first token of a line
/// that is no command, or with whose cycles the script would make more than 100,000, and after that, by place, 30 and
/// 33 of a place, 71 of an element, and 33 of a number. Want of memory.
#[tactic(auto, unfolding(crate::specs::Script::script_of))]
pub fn read_script(
    alloc: Global,
    board: &Board,
    made: &Assembled,
    text: &[u8],
) -> Result<Script, Refusal>
    requires { length text.now < 2 ^ 32 }
    ensures gives { Gives (λ script. script) result (script_of board.now made.now.labels text.now) }
    ensures kept { IfOk result (λ script. IsScript board.now script) }
{
    let lines = lines(alloc, text)?;
    let labels = names_of(alloc, made.labels.as_slice())?;
    let reading = reading_of(alloc, board, &labels, text, &lines)?;
    Ok(Script {
        entries: Items::from_vec(reading.entries),
    })
}
