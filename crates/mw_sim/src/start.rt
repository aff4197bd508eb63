// The start of a run that an environment file gives.
ghost use Rattle.std.specs.Prelude.{◌≡◌, ℕ, ◌+◌, ◌<◌, ◌≤◌, ◌^◌, ◌++◌, ◌==◌, IfOk, OnOk, length, map, slice_get};
ghost use Rattle.std.specs.Prelude.{slice_index};
ghost use Rattle.std.specs.Option.{option_to_list};
ghost use Rattle.mw_base.specs.Reading.{Gives};
ghost use Rattle.mw_board.specs.Depth.{depth_of};
ghost use Rattle.mw_board.specs.Elements.{element_count, elements_of};
ghost use Rattle.mw_cycle.specs.Elements.{IsValueOf};
ghost use Rattle.mw_cycle.specs.Environment.{IsEnvironment};
ghost use Rattle.mw_cycle.specs.State.{Fits};
ghost use Rattle.mw_sim.specs.Settings.{AreBounded, AreSettings};
ghost use Rattle.mw_sim.specs.Start.{settable, stack_pointer, settables_of, at_of, blank_lines, from_first};
ghost use Rattle.mw_sim.specs.Start.{with_values, with_pointer, state_with, environment_with, start_in, start_of};
ghost use Rattle.mw_sim.specs.Views.{given_seen};

use crate::settings::{Owner, Settable, Settings, given_by, two_to};
use mw_asm::{Assembled, Label, address_of};
use mw_base::{
    Cause, Cursor, Line, Name, NoMemory, Place, Refusal, Refused, TextFault, lines, text_end,
};
use mw_board::Board;
use mw_cycle::{Env, State};
use std::alloc::Global;
use std::marker::Model;

/// Where a run begins.
#[derive(Debug, Drop)]
pub struct Start {
    /// The state of the board.
    pub state: State,
    /// What the outside has for the run.
    pub env: Env,
}

impl Model for Start {
    ghost use Rattle.mw_sim.specs.Start.{Start};

    ghost Value = { Start };

    ghost view = { λ start. record { state = start.state; env = start.env } };
}

impl Start {
    /// Another start that is the same.
    ///
    /// # Errors
    ///
    /// Memory ran out.
    pub fn copied(&self, alloc: Global) -> Result<Start, NoMemory>
        ensures { IfOk result (λ start. start ≡ self.now) }
    {
        let Start { state, env } = self;
        Ok(Start {
            state: State {
                at: state.at,
                regs: state.regs,
                q: state.q,
                mar: state.mar,
                ir: state.ir,
                flips: state.flips,
                seq: state.seq,
                memory: Vec::from_slice(alloc, &state.memory)?,
            },
            env: env.copied(alloc)?,
        })
    }
}

/// Appends the element of a board with this number, as a line may set it.
fn push_element(
    alloc: Global,
    elements: &mut Vec<Settable>,
    board: &Board,
    number: usize,
) -> Result<(), NoMemory>
    ensures { OnOk result (elements.new.items
        ≡ elements.old.items ++ map settable (option_to_list (slice_get (elements_of board.now) number))) }
{
    // A call for the proof: its clause `valid` says that no element of a board has over 32 bits.
    let _ = board.parts();
    if let (Some(name), Some(width)) = (board.element_name(number), board.element_width(number)) {
        elements.push(Settable {
            owner: Owner::Board,
            name: Name::new(alloc, name)?,
            bound: two_to(width),
            is_free: true,
        })?;
    }
    Ok(())
}

/// The stack pointer, as a line may set it.
fn stack_pointer(alloc: Global, board: &Board) -> Result<Settable, NoMemory>
    ensures { IfOk result (λ element. element ≡ stack_pointer board.now) }
{
    Ok(Settable {
        owner: Owner::Board,
        name: Name::new(alloc, board.stack_pointer_name())?,
        bound: u64::from(board.depth()) + 1,
        is_free: true,
    })
}

/// What an environment may set: the board's elements, and behind them the stack pointer.
fn settables_of(alloc: Global, board: &Board) -> Result<Vec<Settable>, NoMemory>
    ensures exact { IfOk result (λ elements. elements.items ≡ settables_of board.now) }
    ensures bounded { IfOk result (λ elements. AreBounded elements.items) }
{
    // A call for the proof: its clause `valid` says that no element of a board has over 32 bits.
    let _ = board.parts();
    let mut elements = Vec::new(alloc);
    for number in 0..board.element_count() {
        push_element(alloc, &mut elements, board, number)?;
    }
    elements.push(stack_pointer(alloc, board)?)?;
    Ok(elements)
}

/// at PLACE: cause 60.
#[tactic(auto, unfolding(crate::specs::Start::at_of))]
fn at_of(line: &Cursor) -> Result<Place, TextFault>
    ensures { result ≡ at_of line.now }
{
    line.first_word(b"at")?;
    let place = line.place(1)?;
    line.end(2)?;
    Ok(place)
}

/// Whether a line has no tokens.
fn is_blank(line: &Line) -> bool
    ensures { result ≡ (length line.now.tokens == 0) }
{
    line.tokens.as_slice().is_empty()
}

/// How many lines stand before the first that has tokens.
fn blank_lines(lines: &[Line]) -> usize
    ensures exact { result ≡ blank_lines lines.now }
    ensures within { result ≤ length lines.now }
{
    lines.iter().take_while(|line| is_blank(*line)).count()
}

/// The lines from the first on that has tokens: those before it are blank, but for comments.
#[tactic(auto, using(std::proofs::lemmas::List::take_rest))]
pub fn from_first(lines: &[Line]) -> &[Line]
    ensures { result.now ≡ from_first lines.now }
{
    &lines[blank_lines(lines)..]
}

/// Gives each element of a board its value.
fn set_elements(board: &Board, state: &mut State, values: &[u32])
    requires fits { Fits board.now state.old }
    requires each { element_count board.now ≤ length values.now }
    requires values_in { (n : ℕ) → n < element_count board.now → IsValueOf board.now n (slice_index values.now n) }
    ensures exact { state.new ≡ with_values board.now values.now state.old (element_count board.now) }
    ensures fits { Fits board.now state.new }
{
    for number in 0..board.element_count() {
        state.set_element(board, number, values[number]);
    }
}

/// The environment that is given, without the zeros at its lists' ends. What is given is in range for the board.
///
/// # Errors
///
/// Memory ran out.
#[tactic(auto, unfolding(crate::specs::Start::environment_with))]
pub fn environment_with(alloc: Global, board: &Board, given: &Settings) -> Result<Env, NoMemory>
    requires { IsEnvironment board.now given.now.env }
    ensures exact { IfOk result (λ env. env ≡ environment_with (given_seen given.now)) }
    ensures valid { IfOk result (λ env. IsEnvironment board.now env) }
{
    let mut env = given.env.copied(alloc)?;
    env.shorten();
    Ok(env)
}

/// Gives the stack pointer the value behind those of the board's elements.
#[tactic(auto, using(mw_board::proofs::Elements::words_few))]
fn set_pointer(board: &Board, state: &mut State, values: &[u32])
    requires fits { Fits board.now state.old }
    requires there { element_count board.now < length values.now }
    requires value_in { slice_index values.now (element_count board.now) < depth_of board.now + 1 }
    ensures exact { state.new ≡ with_pointer (slice_index values.now (element_count board.now)) state.old }
    ensures fits { Fits board.now state.new }
{
    state.seq.sp = values[board.element_count()] as u8;
}

/// The state at a control address that has what is given.
#[tactic(auto, unfolding(crate::specs::Start::state_with))]
fn state_with(board: &Board, address: u16, given: Settings) -> State
    requires low { address < 4096 }
    requires given { AreSettings board.now (settables_of board.now) (given_seen given) }
    ensures exact { result ≡ state_with board.now address (given_seen given) }
    ensures fits { Fits board.now result }
{
    let Settings { values, memory, .. } = given;
    let mut state = State::begun(board, address, memory);
    set_elements(board, &mut state, &values);
    set_pointer(board, &mut state, &values);
    state
}

/// What the lines of an environment say, from its first on.
fn start_in(
    alloc: Global,
    board: &Board,
    labels: &[Label],
    text: &[u8],
    end: TextFault,
    lines: &[Line],
) -> Result<Start, Refusal>
    ensures gives { Gives (λ start. start) result (start_in board.now labels.now text.now end lines.now) }
    ensures fits { IfOk result (λ start. Fits board.now start.state) }
    ensures env { IfOk result (λ start. IsEnvironment board.now start.env) }
{
    let [head, rest @ ..] = lines else {
        return Err(Refused::At(end));
    };
    let place = at_of(&Cursor::new(text, head, Cause::BadSyntax)).map_err(Refused::At)?;
    let address = address_of(place, text, labels).map_err(Refused::At)?;
    let elements = settables_of(alloc, board)?;
    let given = given_by(alloc, board, &elements, text, rest)?;
    let env = environment_with(alloc, board, &given)?;
    Ok(Start {
        state: state_with(board, address, given),
        env,
    })
}

/// The start that an environment file gives: the state of the board, and what the outside has for the run.
///
/// The text has fewer than 2^32 bytes.
///
/// # Errors
///
/// The first fault of the text: causes 1 to 4 of its bytes; then cause 60, 30 or 33 of its first line that isn't
/// blank, `at PLACE`; then, line by line, cause 60 of the line and, by place, 40 and 31 of an element and 33 of its
/// value, 31 and 33 of a memory word, 14 and 33 of a list's entry. Want of memory.
#[tactic(auto, unfolding(crate::specs::Start::start_of))]
pub fn read_start(
    alloc: Global,
    board: &Board,
    made: &Assembled,
    text: &[u8],
) -> Result<Start, Refusal>
    requires { length text.now < 2 ^ 32 }
    ensures gives { Gives (λ start. start) result (start_of board.now made.now.labels text.now) }
    ensures fits { IfOk result (λ start. Fits board.now start.state) }
    ensures env { IfOk result (λ start. IsEnvironment board.now start.env) }
{
    let lines = lines(alloc, text)?;
    let end = text_end(&lines, Cause::BadSyntax);
    start_in(
        alloc,
        board,
        made.labels.as_slice(),
        text,
        end,
        from_first(&lines),
    )
}
