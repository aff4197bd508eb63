// Where a script stands while it runs.
ghost use Rattle.std.specs.Prelude.{◌≡◌, ◌<◌, ◌^◌, ◌++◌, ◌==◌, OnOk, length};
ghost use Rattle.std.specs.List.{flat_map};
ghost use Rattle.mw_base.specs.Reading.{Gives};
ghost use Rattle.mw_cycle.specs.Environment.{IsEnvironment};
ghost use Rattle.mw_cycle.specs.State.{Fits};
ghost use Rattle.mw_debug.specs.Kept.{IsElement, IsSession};
ghost use Rattle.mw_debug.specs.Elements.{bound_of};
ghost use Rattle.mw_debug.specs.Session.{begun, numbered_event, with_cycle, with_cycles, cycles_until, with_set};
ghost use Rattle.mw_debug.specs.Session.{with_watched, with_back};
ghost use Rattle.mw_debug.specs.Views.{moment_of, session_seen, undo_of};

use crate::element::set_value;
use mw_base::{Event, NoMemory, Refusal, Refused, TextFault, append_decimal};
use mw_board::{Board, Store};
use mw_cycle::{Clock, Env, State, Whole};
use mw_seq::Seq;
use mw_sim::{append_event, run_cycles};
use std::alloc::Global;

/// What is kept of a moment: its state but for the memory, of which a cycle changes the word at the address register at
/// most, and its clock.
#[derive(Clone, Copy)]
pub(crate) struct Undo {
    at: u16,
    regs: [u32; 16],
    q: u32,
    mar: u32,
    ir: u32,
    flips: u16,
    seq: Seq,
    /// The memory's word at the address register.
    word: u32,
    clock: Clock,
}

/// Where a script stands.
#[derive(Drop)]
pub(crate) struct Session {
    /// The state of the board.
    pub state: State,
    /// How far its run has come.
    clock: Clock,
    /// The moments before each cycle and each `set` that weren't taken back, the latest last.
    journal: Vec<Undo>,
    /// The elements that are watched, in order.
    pub watched: Vec<u32>,
    /// What was printed.
    pub text: Vec<u8>,
}

/// Appends events, each behind the number of the command's line.
fn append_numbered(
    alloc: Global,
    text: &mut Vec<u8>,
    line: u32,
    events: &[Event],
) -> Result<(), NoMemory>
    ensures { OnOk result (text.new.items ≡ text.old.items ++ flat_map (numbered_event line) events.now) }
{
    for event in events {
        append_decimal(alloc, text, u64::from(line))?;
        text.push(b' ')?;
        append_event(alloc, text, *event)?;
    }
    Ok(())
}

impl Session {
    /// Before the first command.
    #[tactic(auto, unfolding(crate::specs::Views::moments_of))]
    pub fn begun(alloc: Global, board: &Board, state: State) -> Session
        requires { Fits board.now state }
        ensures exact { session_seen result ≡ begun state }
        ensures kept { IsSession board.now (session_seen result) }
    {
        Session {
            state,
            clock: Clock::start(),
            journal: Vec::new(alloc),
            watched: Vec::new(alloc),
            text: Vec::new(alloc),
        }
    }

    /// What is kept of the present moment.
    fn undo(&self) -> Undo
        requires { self.now.state.mar < length self.now.state.memory }
        ensures { result ≡ undo_of self.now.state self.now.clock }
    {
        let state = &self.state;
        Undo {
            at: state.at,
            regs: state.regs,
            q: state.q,
            mar: state.mar,
            ir: state.ir,
            flips: state.flips,
            seq: state.seq,
            word: state.memory[state.mar as usize],
            clock: self.clock,
        }
    }

    /// How many entries the history has. No list has as many as 2^63.
    fn entries(&self) -> usize
        ensures exact { result ≡ length self.now.journal.items }
        ensures few { result < 2 ^ 63 }
    {
        self.journal.len()
    }

    /// One cycle more of the command on this line, with the waits before it.
    #[tactic(auto, unfolding(crate::specs::Session::with_cycle))]
    fn make_cycle(
        &mut self,
        alloc: Global,
        board: &Board,
        store: &Store,
        env: &Env,
        line: u32,
    ) -> Result<(), NoMemory>
        requires kept { IsSession board.now (session_seen self.old) }
        requires env_in { IsEnvironment board.now env.now }
        ensures exact { OnOk result (session_seen self.new
            ≡ with_cycle board.now store.now.words env.now line (session_seen self.old)) }
        ensures kept { OnOk result (IsSession board.now (session_seen self.new)) }
    {
        let undo = self.undo();
        self.journal.push(undo)?;
        // A call for the proof: there are fewer than 2^63 entries, and at least as many as cycles, and no clock from
        // 2^63 on waits.
        let _ = self.entries();
        let mut events = Vec::with_capacity(alloc, 1)?;
        self.clock = run_cycles(
            &Whole,
            board,
            store,
            &mut self.state,
            env,
            self.clock,
            1,
            &mut events,
        );
        append_numbered(alloc, &mut self.text, line, &events)?;
        Ok(())
    }

    /// So many cycles of the command on this line.
    pub fn make_cycles(
        &mut self,
        alloc: Global,
        board: &Board,
        store: &Store,
        env: &Env,
        line: u32,
        count: u32,
    ) -> Result<(), NoMemory>
        requires kept { IsSession board.now (session_seen self.old) }
        requires env_in { IsEnvironment board.now env.now }
        ensures exact { OnOk result (session_seen self.new
            ≡ with_cycles board.now store.now.words env.now line (session_seen self.old) count) }
        ensures kept { OnOk result (IsSession board.now (session_seen self.new)) }
    {
        'cycles: for _ in 0..count {
            self.make_cycle(alloc, board, store, env, line)?;
        }
        Ok(())
    }

    /// Whether the board stands at a control address.
    fn stands_at(&self, address: u16) -> bool
        ensures { result ≡ (address == self.now.state.at) }
    {
        address == self.state.at
    }

    /// The cycles of the command on this line up to the first cycle start at an address after the present one, and so
    /// many at most.
    pub fn make_cycles_until(
        &mut self,
        alloc: Global,
        board: &Board,
        store: &Store,
        env: &Env,
        line: u32,
        address: u16,
        limit: u32,
    ) -> Result<(), NoMemory>
        requires kept { IsSession board.now (session_seen self.old) }
        requires env_in { IsEnvironment board.now env.now }
        ensures exact { OnOk result (session_seen self.new
            ≡ with_cycles board.now store.now.words env.now line (session_seen self.old)
            (cycles_until board.now store.now.words env.now line (session_seen self.old) address limit)) }
        ensures kept { OnOk result (IsSession board.now (session_seen self.new)) }
    {
        'cycles: for _ in 0..limit {
            self.make_cycle(alloc, board, store, env, line)?;
            if self.stands_at(address) {
                return Ok(());
            }
        }
        Ok(())
    }

    /// Sets an element to a value.
    pub fn set(&mut self, board: &Board, number: u32, value: u32) -> Result<(), NoMemory>
        requires kept { IsSession board.now (session_seen self.old) }
        requires there { IsElement board.now number }
        requires value_in { value < bound_of board.now number }
        ensures exact { OnOk result (session_seen self.new ≡ with_set board.now number value (session_seen self.old)) }
        ensures kept { OnOk result (IsSession board.now (session_seen self.new)) }
    {
        let undo = self.undo();
        self.journal.push(undo)?;
        set_value(board, &mut self.state, number as usize, value);
        Ok(())
    }

    /// Watches an element.
    pub fn watch(&mut self, board: &Board, number: u32) -> Result<(), NoMemory>
        requires kept { IsSession board.now (session_seen self.old) }
        requires there { IsElement board.now number }
        ensures exact { OnOk result (session_seen self.new ≡ with_watched number (session_seen self.old)) }
        ensures kept { OnOk result (IsSession board.now (session_seen self.new)) }
    {
        if !self.watched.contains(&number) {
            self.watched.push(number)?;
        }
        Ok(())
    }

    /// Goes back to a moment that was kept, of which the memory had all words but one.
    fn restore(&mut self, undo: Undo)
        requires { undo.mar < length self.old.state.memory }
        ensures { self.new ≡ record self.old {
          state = (moment_of undo self.old.state.memory).state;
          clock = undo.clock;
        } }
    {
        let Undo {
            at,
            regs,
            q,
            mar,
            ir,
            flips,
            seq,
            word,
            clock,
        } = undo;
        self.state.memory[mar as usize] = word;
        self.state.at = at;
        self.state.regs = regs;
        self.state.q = q;
        self.state.mar = mar;
        self.state.ir = ir;
        self.state.flips = flips;
        self.state.seq = seq;
        self.clock = clock;
    }

    /// Undoes the last so many entries of the history.
    ///
    /// # Errors
    ///
    /// This fault where there are fewer.
    pub fn go_back(&mut self, board: &Board, count: u32, fault: TextFault) -> Result<(), Refusal>
        requires kept { IsSession board.now (session_seen self.old) }
        ensures gives { Gives (λ done. session_seen self.new) result (with_back fault count (session_seen self.old)) }
        ensures kept { OnOk result (IsSession board.now (session_seen self.new)) }
    {
        'entries: for _ in 0..count {
            match self.journal.pop() {
                Some(undo) => self.restore(undo),
                None => return Err(Refused::At(fault)),
            }
        }
        Ok(())
    }
}
