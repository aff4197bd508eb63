// One cycle.
ghost use Rattle.std.specs.Prelude.{◌≡◌, ◌<◌, ◌≤◌, ◌^◌, ◌%◌, if◌then◌else◌, length};
ghost use Rattle.mw_seq.specs.Sequencer.{IsSequencer};
ghost use Rattle.mw_board.specs.Depth.{depth_of};
ghost use Rattle.mw_board.specs.Valid.{IsFrom, IsMask};
ghost use Rattle.mw_cycle.specs.Microword.{IsMicroword};
ghost use Rattle.mw_cycle.specs.State.{Fits};
ghost use Rattle.mw_cycle.specs.Cycle.{from_source, masked, d_of, operands_of, answer_of, pass_of, map_of};
ghost use Rattle.mw_cycle.specs.Cycle.{direct_address, next_address};
ghost use Rattle.mw_cycle.specs.Cycle.{pins_of, writes_of, flips_after, edge, event_of, state_after, nets_of};

use crate::bits::{bit_number, bit_value, carry_net, early_bit, flip, overflow_net};
use crate::control::{in_field, low_bits, run_of_bits};
use crate::datapath::Datapath;
use crate::flipflops::flips_after;
use crate::microword::Microword;
use crate::state::{CycleIn, Nets, State};
use mw_alu::{AluOut, Pins, ShiftOut};
use mw_base::Event;
use mw_board::{Board, DFrom, Store};
use mw_seq::Instruction;

/// What the Am2901 reads in a cycle.
#[derive(Clone, Copy, Debug)]
pub struct Operands {
    /// The register that A addresses.
    pub a: u32,
    /// The register that B addresses.
    pub b: u32,
    /// The direct data.
    pub d: u32,
    /// The carry in.
    pub cin: bool,
}

/// What has settled before the edge.
#[derive(Clone, Copy)]
struct Settled {
    /// The Am2901's answers.
    answer: AluOut,
    /// What it writes.
    writes: ShiftOut,
    /// What the flip-flops take.
    flips: u16,
    /// The test passes.
    pass: bool,
}

/// A source of D, without its mask.
#[tactic(auto, unfolding(crate::specs::Cycle::from_source))]
fn from_source(board: &Board, word: u128, from: DFrom, state: &State, given: CycleIn) -> u32
    requires there { IsFrom (length board.now.fields) (length board.now.flipflop) from }
    requires fits { Fits board.now state.now }
    requires input { given.input < 2 ^ board.now.width }
    ensures exact { result ≡ from_source board.now word from state.now given }
    ensures below { result < 2 ^ board.now.width }
{
    let width = board.width().bits();
    match from {
        DFrom::Zero => 0,
        DFrom::Memory => state.memory[state.mar as usize],
        DFrom::Ir => state.ir,
        DFrom::Mar => state.mar,
        DFrom::Input => given.input,
        DFrom::Field(number) => low_bits(u128::from(in_field(board, number, word)), width),
        DFrom::Flip(number) => u32::from(bit_number(flip(state, number))),
    }
}

/// A source seen through its mask, where it has one.
fn masked(mask: Option<u32>, d: u32) -> u32
    ensures exact { result ≡ masked mask d }
    ensures most { result ≤ d }
{
    match mask {
        Some(mask) => d & mask,
        None => d,
    }
}

/// What the Am2901 reads.
#[tactic(auto, unfolding(crate::specs::Cycle::operands_of))]
fn read_operands(board: &Board, microword: &Microword, state: &State, given: CycleIn) -> Operands
    requires fits { Fits board.now state.now }
    requires microword_in { IsMicroword board.now microword.now }
    requires input { given.input < 2 ^ board.now.width }
    ensures exact { result ≡ operands_of board.now microword.now state.now given }
    ensures a_below { result.a < 2 ^ board.now.width }
    ensures b_below { result.b < 2 ^ board.now.width }
    ensures d_below { result.d < 2 ^ board.now.width }
{
    let source = from_source(board, microword.word, microword.d.from, state, given);
    Operands {
        a: state.regs[usize::from(microword.a_address)],
        b: state.regs[usize::from(microword.b_address)],
        d: masked(microword.d.mask, source),
        cin: early_bit(board, microword.carry_in, state, given),
    }
}

/// Whether the test is disabled, or its bit, turned over where polarity is 1, holds.
#[tactic(auto, unfolding(crate::specs::Cycle::pass_of))]
fn passes(
    board: &Board,
    microword: &Microword,
    answer: &AluOut,
    state: &State,
    given: CycleIn,
) -> bool
    requires { IsMicroword board.now microword.now }
    ensures { result ≡ pass_of board.now microword.now answer.now state.now given }
{
    let condition = bit_value(board, microword.condition, answer, state, given);
    microword.test_disable | (microword.polarity != condition)
}

/// What the map gives for the instruction register.
fn mapped(board: &Board, state: &State) -> u16
    ensures exact { result ≡ map_of board.now state.now }
    ensures below { result < 2 ^ 12 }
{
    let parts = board.parts();
    let seen = run_of_bits(u128::from(state.ir), parts.map_low, parts.map_bits);
    match parts.map_entries.as_slice().get(seen as usize) {
        Some(entry) => *entry,
        None => 0,
    }
}

/// The address at the sequencer's D.
#[tactic(auto, unfolding(crate::specs::Cycle::direct_address))]
fn direct_address(board: &Board, microword: &Microword, state: &State) -> u16
    requires { IsMicroword board.now microword.now }
    ensures exact { result ≡ direct_address board.now microword.now state.now }
    ensures below { result < 2 ^ 12 }
{
    match Instruction::of(microword.sequencer) {
        Instruction::Jmap => mapped(board, state),
        Instruction::Cjv => board.parts().vector,
        _ => microword.branch,
    }
}

/// The pins of both shifts: a chosen bit stands at both ends.
#[tactic(auto, unfolding(crate::specs::Cycle::pins_of))]
fn pins(
    board: &Board,
    microword: &Microword,
    answer: &AluOut,
    state: &State,
    given: CycleIn,
) -> Pins
    requires { IsMicroword board.now microword.now }
    ensures { result ≡ pins_of board.now microword.now answer.now state.now given }
{
    let ram = bit_value(board, microword.ram_link, answer, state, given);
    let q = bit_value(board, microword.q_link, answer, state, given);
    Pins {
        ram_high: ram,
        ram_low: ram,
        q_high: q,
        q_low: q,
    }
}

/// What the outside sees: an input that is taken hides an output.
fn event(microword: &Microword, y: u32, given: CycleIn) -> Option<Event>
    ensures { result ≡ event_of microword.now y given }
{
    match microword.d.from {
        DFrom::Input => Some(Event::Taken(given.input)),
        _ => microword.out.then_some(Event::Out(y)),
    }
}

/// What the Am2901 writes.
#[tactic(auto, unfolding(crate::specs::Cycle::writes_of))]
fn writes<A: Datapath>(
    part: &A,
    board: &Board,
    microword: &Microword,
    answer: &AluOut,
    state: &State,
    given: CycleIn,
) -> ShiftOut
    requires fits { Fits board.now state.now }
    requires microword_in { IsMicroword board.now microword.now }
    requires f_in { answer.now.f < 2 ^ board.now.width }
    ensures exact { result ≡ writes_of board.now microword.now answer.now state.now given }
    ensures b_below { result.b < 2 ^ board.now.width }
    ensures q_below { result.q < 2 ^ board.now.width }
{
    let pins = pins(board, microword, answer, state, given);
    part.edge(
        board.width(),
        microword.instruction,
        answer.f,
        state.q,
        pins,
    )
}

/// What a register has after the edge.
fn written(write: bool, new: u32, old: u32) -> u32
    ensures { result ≡ (if write then new else old) }
{
    if write { new } else { old }
}

/// The edge: all that is written is written from what was there before it. Answers the next address.
#[tactic(auto, unfolding(crate::specs::Cycle::edge, crate::specs::Cycle::next_address))]
fn take_edge(
    board: &Board,
    microword: &Microword,
    settled: &Settled,
    state: &mut State,
    given: CycleIn,
) -> u16
    requires fits { Fits board.now state.old }
    requires microword_in { IsMicroword board.now microword.now }
    requires written { settled.now.writes ≡ writes_of board.now microword.now settled.now.answer state.old given }
    requires taken { settled.now.flips ≡ flips_after board.now microword.now settled.now.answer state.old given }
    ensures next { result ≡ next_address board.now microword.now settled.now.pass state.old given }
    ensures below { result < 2 ^ 12 }
    ensures exact { state.new ≡ edge board.now microword.now settled.now.answer settled.now.pass state.old given }
    ensures sequencer { IsSequencer (depth_of board.now) state.new.seq }
{
    let Settled {
        answer,
        writes,
        flips,
        pass,
    } = settled;
    let d = direct_address(board, microword, state);
    let next = state.seq.step(
        microword.sequencer,
        *pass,
        d,
        microword.ci,
        microword.rld,
        given.noise,
    );
    if microword.memory_write {
        state.memory[state.mar as usize] = answer.y;
    }
    if writes.write_b {
        state.regs[usize::from(microword.b_address)] = writes.b;
    }
    let mar = low_bits(u128::from(answer.y), board.parts().address);
    state.q = written(writes.write_q, writes.q, state.q);
    state.mar = written(microword.mar_load, mar, state.mar);
    state.ir = written(microword.ir_load, answer.y, state.ir);
    state.flips = *flips;
    state.at = next;
    next
}

/// One cycle of a board whose state fits it: the state after it, and the values that it read and made. It
/// takes no memory.
pub fn cycle<A: Datapath>(
    part: &A,
    board: &Board,
    store: &Store,
    state: &mut State,
    given: CycleIn,
) -> Nets
    requires fits { Fits board.now state.old }
    requires input { given.input < 2 ^ board.now.width }
    ensures nets { result ≡ nets_of board.now store.now.words state.old given }
    ensures exact { state.new ≡ state_after board.now store.now.words state.old given }
    ensures fits { Fits board.now state.new }
{
    let word = store.word(board, state.at);
    let microword = Microword::decoded(board, word);
    let width = board.width();
    let Operands { a, b, d, cin } = read_operands(board, &microword, state, given);
    let answer = part.answer(width, microword.instruction, a, b, state.q, d, cin);
    let carry = carry_net(&answer, given);
    let overflow = overflow_net(&answer, given);
    let pass = passes(board, &microword, &answer, state, given);
    let writes = writes(part, board, &microword, &answer, state, given);
    let flips = flips_after(board, &microword, &answer, state, given);
    let settled = Settled {
        answer,
        writes,
        flips,
        pass,
    };
    let next = take_edge(board, &microword, &settled, state, given);
    Nets {
        word,
        a,
        b,
        d,
        f: answer.f,
        y: answer.y,
        cin,
        carry,
        overflow,
        zero: answer.zero,
        sign: answer.sign,
        pass,
        next,
        event: event(&microword, answer.y, given),
    }
}
