// The trace of a script: what its commands print.
ghost use Rattle.std.specs.Prelude.{◌≡◌, ◌<◌, ◌^◌, ◌++◌, OnOk, length};
ghost use Rattle.std.specs.List.{flat_map};
ghost use Rattle.mw_base.specs.Reading.{Gives};
ghost use Rattle.mw_base.specs.Steps.{steps};
ghost use Rattle.mw_cycle.specs.Environment.{IsEnvironment};
ghost use Rattle.mw_cycle.specs.State.{Fits};
ghost use Rattle.mw_debug.specs.Kept.{AreActs, IsAct, IsSession};
ghost use Rattle.mw_debug.specs.Session.{begun};
ghost use Rattle.mw_debug.specs.Trace.{element_text, word_text, place_text, shown_by, with_last_line, done_by};
ghost use Rattle.mw_debug.specs.Trace.{with_entry, trace_of};
ghost use Rattle.mw_debug.specs.Views.{session_seen};

use crate::element::{name_of, value_in};
use crate::script::{Act, Entry, Script};
use crate::session::Session;
use mw_base::{Cause, NoMemory, Refusal, TextFault, append_decimal, append_hex};
use mw_board::{Board, Store};
use mw_cycle::{Env, State};
use mw_sim::Start;
use std::alloc::Global;

/// Appends an element with its value, behind a blank.
fn append_element(
    alloc: Global,
    text: &mut Vec<u8>,
    board: &Board,
    state: &State,
    number: u32,
) -> Result<(), NoMemory>
    requires fits { Fits board.now state.now }
    ensures { OnOk result (text.new.items ≡ text.old.items ++ element_text board.now state.now number) }
{
    let number = number as usize;
    text.extend_from_slice(b" b.")?;
    text.extend_from_slice(name_of(board, number))?;
    text.push(b'=')?;
    append_hex(alloc, text, u128::from(value_in(board, state, number)))
}

/// Appends elements with their values, in order.
fn append_elements(
    alloc: Global,
    text: &mut Vec<u8>,
    board: &Board,
    state: &State,
    numbers: &[u32],
) -> Result<(), NoMemory>
    requires fits { Fits board.now state.now }
    ensures { OnOk result (text.new.items
        ≡ text.old.items ++ flat_map (element_text board.now state.now) numbers.now) }
{
    for number in numbers {
        append_element(alloc, text, board, state, *number)?;
    }
    Ok(())
}

/// Appends the control address, and elements with their values.
fn append_place(
    alloc: Global,
    text: &mut Vec<u8>,
    board: &Board,
    state: &State,
    watched: &[u32],
) -> Result<(), NoMemory>
    requires fits { Fits board.now state.now }
    ensures { OnOk result (text.new.items ≡ text.old.items ++ place_text board.now state.now watched.now) }
{
    text.extend_from_slice(b" at ")?;
    append_hex(alloc, text, u128::from(state.at))?;
    append_elements(alloc, text, board, state, watched)
}

/// Appends a word of the memory, behind a blank.
fn append_word(
    alloc: Global,
    text: &mut Vec<u8>,
    state: &State,
    address: u32,
) -> Result<(), NoMemory>
    requires there { address < length state.now.memory }
    ensures { OnOk result (text.new.items ≡ text.old.items ++ word_text state.now address) }
{
    text.extend_from_slice(b" mem ")?;
    append_hex(alloc, text, u128::from(address))?;
    text.push(b'=')?;
    append_hex(alloc, text, u128::from(state.memory[address as usize]))
}

/// Appends what the last line of a command shows, behind its number.
fn append_shown(
    alloc: Global,
    text: &mut Vec<u8>,
    board: &Board,
    state: &State,
    watched: &[u32],
    act: Act,
) -> Result<(), NoMemory>
    requires fits { Fits board.now state.now }
    requires act { IsAct board.now act }
    ensures { OnOk result (text.new.items ≡ text.old.items ++ shown_by board.now state.now watched.now act) }
{
    match act {
        Act::Show(number) => append_element(alloc, text, board, state, number),
        Act::ShowMemory(address) => append_word(alloc, text, state, address),
        _ => append_place(alloc, text, board, state, watched),
    }
}

impl Session {
    /// Prints the last line of a command.
    fn print_last_line(
        &mut self,
        alloc: Global,
        board: &Board,
        line: u32,
        act: Act,
    ) -> Result<(), NoMemory>
        requires kept { IsSession board.now (session_seen self.old) }
        requires act { IsAct board.now act }
        ensures exact { OnOk result (session_seen self.new
            ≡ with_last_line board.now line act (session_seen self.old)) }
    {
        append_decimal(alloc, &mut self.text, u64::from(line))?;
        append_shown(
            alloc,
            &mut self.text,
            board,
            &self.state,
            &self.watched,
            act,
        )?;
        self.text.push(b'\n')?;
        Ok(())
    }

    /// Does what a command does, but for its last line: cause 72 at the command.
    fn act(
        &mut self,
        alloc: Global,
        board: &Board,
        store: &Store,
        env: &Env,
        entry: &Entry,
    ) -> Result<(), Refusal>
        requires kept { IsSession board.now (session_seen self.old) }
        requires env_in { IsEnvironment board.now env.now }
        requires act { IsAct board.now entry.now.act }
        ensures gives { Gives (λ done. session_seen self.new) result
            (done_by board.now store.now.words env.now entry.now (session_seen self.old) entry.now.act) }
        ensures kept { OnOk result (IsSession board.now (session_seen self.new)) }
    {
        let line = entry.line;
        match entry.act {
            Act::Step(count) => Ok(self.make_cycles(alloc, board, store, env, line, count)?),
            Act::Until(address, limit) => {
                Ok(self.make_cycles_until(alloc, board, store, env, line, address, limit)?)
            }
            Act::Set(number, value) => Ok(self.set(board, number, value)?),
            Act::Show(_) | Act::ShowMemory(_) => Ok(()),
            Act::Watch(number) => Ok(self.watch(board, number)?),
            Act::Back(count) => {
                let fault = TextFault {
                    line,
                    column: entry.column,
                    cause: Cause::NothingToUndo,
                };
                self.go_back(board, count, fault)
            }
        }
    }

    /// Does and prints what an entry of a script says: cause 72 at its command.
    #[tactic(auto, unfolding(crate::specs::Trace::with_entry))]
    fn run_entry(
        &mut self,
        alloc: Global,
        board: &Board,
        store: &Store,
        env: &Env,
        entry: &Entry,
    ) -> Result<(), Refusal>
        requires kept { IsSession board.now (session_seen self.old) }
        requires env_in { IsEnvironment board.now env.now }
        requires act { IsAct board.now entry.now.act }
        ensures gives { Gives (λ done. session_seen self.new) result
            (with_entry board.now store.now.words env.now (session_seen self.old) entry.now) }
        ensures kept { OnOk result (IsSession board.now (session_seen self.new)) }
    {
        self.act(alloc, board, store, env, entry)?;
        self.print_last_line(alloc, board, entry.line, entry.act)?;
        Ok(())
    }

    /// Does and prints what the entries of a script say: cause 72 at a command.
    fn run_entries(
        &mut self,
        alloc: Global,
        board: &Board,
        store: &Store,
        env: &Env,
        entries: &[Entry],
    ) -> Result<(), Refusal>
        requires kept { IsSession board.now (session_seen self.old) }
        requires env_in { IsEnvironment board.now env.now }
        requires acts { AreActs board.now entries.now }
        ensures { Gives (λ done. session_seen self.new) result
            (steps (with_entry board.now store.now.words env.now) (session_seen self.old) entries.now) }
    {
        for entry in entries {
            self.run_entry(alloc, board, store, env, entry)?;
        }
        Ok(())
    }
}

/// Where a script stands after its entries: cause 72 at a command.
fn session_after(
    alloc: Global,
    board: &Board,
    store: &Store,
    state: State,
    env: &Env,
    entries: &[Entry],
) -> Result<Session, Refusal>
    requires fits { Fits board.now state }
    requires env_in { IsEnvironment board.now env.now }
    requires acts { AreActs board.now entries.now }
    ensures { Gives session_seen result
        (steps (with_entry board.now store.now.words env.now) (begun state) entries.now) }
{
    let mut session = Session::begun(alloc, board, state);
    session.run_entries(alloc, board, store, env, entries)?;
    Ok(session)
}

/// What a script prints from a start, command by command: each line begins with the number of its command's line. First
/// come the events of a command's cycles, `out V` and `taken V`; then `show` prints `b.ELEMENT=V` or `mem A=V`, and
/// every other command `at A` and the elements that are watched, in the order in which they were first watched. Waits
/// print nothing. It takes a hundred and some bytes for each cycle and each `set` that can be undone.
///
/// The start fits the board, and the acts of the script keep its ranges, as those of
/// [`read_script`](crate::read_script) do.
///
/// # Errors
///
/// Cause 72 at the first `back` that undoes more entries than there are. Want of memory.
#[tactic(auto, unfolding(crate::specs::Trace::trace_of))]
pub fn run_script(
    alloc: Global,
    board: &Board,
    store: &Store,
    start: Start,
    script: &Script,
) -> Result<Vec<u8>, Refusal>
    requires fits { Fits board.now start.state }
    requires env_in { IsEnvironment board.now start.env }
    requires acts { AreActs board.now script.now.entries }
    ensures { Gives (λ text. text.items) result (trace_of board.now store.now.words start script.now) }
{
    let Start { state, env } = start;
    let entries = script.entries.as_slice();
    let session = session_after(alloc, board, store, state, &env, entries)?;
    Ok(session.text)
}
