// What a board keeps from cycle to cycle, what a cycle is given, and what it makes.
ghost use Rattle.std.specs.Prelude.{◌≡◌, ℕ, ◌<◌, ◌≤◌, ◌^◌, ◌==◌, ◌↔◌, IfOk, IsTrue, length, nat_lt, slice_index};
ghost use Rattle.std.specs.List.{list_all};

use mw_base::{Event, NoMemory};
use mw_board::Board;
use mw_seq::Seq;
use std::alloc::Global;
use std::marker::Model;

/// The state of a board at the start of a cycle.
#[derive(Debug, Drop)]
pub struct State {
    /// The control address whose microword is in the pipeline register, 12 bits.
    pub at: u16,
    /// The sixteen registers of the Am2901, words of the board's width.
    pub regs: [u32; 16],
    /// The Q register, a word.
    pub q: u32,
    /// The memory address register.
    pub mar: u32,
    /// The instruction register, a word.
    pub ir: u32,
    /// The flip-flops: flip-flop n is bit n.
    pub flips: u16,
    /// The sequencer.
    pub seq: Seq,
    /// The memory's words, by address.
    pub memory: Vec<u32>,
}

impl Model for State {
    ghost use Rattle.std.specs.Prelude.{length};
    ghost use Rattle.mw_seq.specs.Sequencer.{IsSequencer};
    ghost use Rattle.mw_cycle.specs.State.{BoardState};

    ghost Value = { BoardState };

    ghost invariant = { λ s. IsSequencer (length s.seq.stack) s.seq };

    ghost view = { λ s. record {
      at = s.at;
      regs = s.regs;
      q = s.q;
      mar = s.mar;
      ir = s.ir;
      flips = s.flips;
      seq = s.seq;
      memory = s.memory.items;
    } };
}

/// Whether a number has no more than so many bits.
#[tactic(auto, using(std::proofs::lemmas::Nat::one_shl))]
fn has_bits(number: u32, bits: u8) -> bool
    requires { bits ≤ 32 }
    ensures { result ≡ nat_lt number (2 ^ bits) }
{
    u64::from(number) < 1 << bits
}

/// Whether a count is 2 to the power of bits.
#[tactic(auto, using(std::proofs::lemmas::Nat::one_shl))]
fn is_two_to(count: usize, bits: u8) -> bool
    requires { bits ≤ 32 }
    ensures { result ≡ (count == 2 ^ bits) }
{
    count == 1 << bits
}

/// Whether each of the words has no more than so many bits.
fn have_bits(words: &[u32], bits: u8) -> bool
    requires { bits ≤ 32 }
    ensures { result ≡ list_all (λ word. nat_lt word (2 ^ bits)) words.now }
{
    words.iter().all(|word| has_bits(*word, bits))
}

impl State {
    ghost use Rattle.mw_seq.specs.Sequencer.{IsSequencer};
    ghost use Rattle.mw_cycle.specs.State.{Fits, are_words, is_sized, cleared};

    #[tactic(auto, unfolding(crate::specs::State::cleared))]
    fn cleared(board: &Board, at: u16, memory: Vec<u32>) -> State
        ensures { result ≡ record (cleared board.now) { at = at; memory = memory.items } }
    {
        State {
            at,
            regs: [0; 16],
            q: 0,
            mar: 0,
            ir: 0,
            flips: 0,
            seq: Seq::cleared(board.depth()),
            memory,
        }
    }

    /// The state of a board at a control address, with these words in the memory; all else is 0.
    pub fn begun(board: &Board, at: u16, memory: Vec<u32>) -> State
        ensures exact { result ≡ record (cleared board.now) { at = at; memory = memory.items } }
        ensures fits { at < 2 ^ 12 → length memory.items ≡ 2 ^ board.now.address
            → ((a : ℕ) → slice_index memory.items a < 2 ^ board.now.width) → Fits board.now result }
    {
        State::cleared(board, at, memory)
    }

    #[tactic(auto, unfolding(crate::specs::State::cleared))]
    fn zeroed(alloc: Global, board: &Board) -> Result<State, NoMemory>
        ensures { IfOk result (λ state. state ≡ cleared board.now) }
    {
        let memory = vec![in alloc; 0; 1 << board.parts().address]?;
        Ok(State::begun(board, 0, memory))
    }

    /// The state of a board in which everything is 0.
    ///
    /// # Errors
    ///
    /// Memory ran out.
    pub fn new(alloc: Global, board: &Board) -> Result<State, NoMemory>
        ensures exact { IfOk result (λ state. state ≡ cleared board.now) }
        ensures fits { IfOk result (λ state. Fits board.now state) }
    {
        Ok(State::zeroed(alloc, board)?)
    }

    /// Whether each word has the board's width.
    #[tactic(auto, unfolding(crate::specs::State::are_words))]
    fn are_words(&self, board: &Board) -> bool
        ensures exact { result ≡ are_words board.now self.now }
        ensures sixteen { length self.now.regs ≡ 16 }
    {
        let width = board.width().bits();
        have_bits(&self.regs, width)
            & has_bits(self.q, width)
            & has_bits(self.ir, width)
            & have_bits(&self.memory, width)
    }

    /// Whether the addresses and the flip-flops are in their ranges, and the memory and the stack have each of their
    /// words.
    #[tactic(auto, unfolding(crate::specs::State::is_sized))]
    fn is_sized(&self, board: &Board) -> bool
        ensures exact { result ≡ is_sized board.now self.now }
        ensures sequencer { IsSequencer (length self.now.seq.stack) self.now.seq }
    {
        let parts = board.parts();
        let flipflops = parts.flipflop.as_slice().len() as u8;
        has_bits(u32::from(self.at), 12)
            & has_bits(self.mar, parts.address)
            & has_bits(u32::from(self.flips), flipflops)
            & is_two_to(self.memory.len(), parts.address)
            & (self.seq.depth() == board.depth())
    }

    /// Whether the state fits a board: each part is in its range, the memory has each of its words, and the stack as many
    /// as the board's.
    pub fn fits(&self, board: &Board) -> bool
        ensures { IsTrue result ↔ Fits board.now self.now }
    {
        self.are_words(board) & self.is_sized(board)
    }
}

/// What the outside has for one cycle.
#[derive(Clone, Copy, Debug, PartialEq, Eq)]
pub struct CycleIn {
    /// Fourteen undefined bits: an empty stack's F in bits 0 to 11, an undefined carry in bit 12, an undefined
    /// overflow in bit 13.
    pub noise: u16,
    /// The interrupt line.
    pub line: bool,
    /// The input word that is offered.
    pub input: u32,
}

/// The values that a cycle reads and makes.
#[derive(Clone, Copy, Debug, PartialEq, Eq)]
pub struct Nets {
    /// The microword.
    pub word: u128,
    /// The register that A addresses.
    pub a: u32,
    /// The register that B addresses.
    pub b: u32,
    /// The direct data.
    pub d: u32,
    /// The Am2901's word F.
    pub f: u32,
    /// The Am2901's outputs Y.
    pub y: u32,
    /// The carry in.
    pub cin: bool,
    /// The carry out; bit 12 of the noise where the function is no sum.
    pub carry: bool,
    /// The overflow; bit 13 of the noise where the function is no sum.
    pub overflow: bool,
    /// F is 0.
    pub zero: bool,
    /// The sign of F.
    pub sign: bool,
    /// The test is disabled or its condition holds.
    pub pass: bool,
    /// The next control address.
    pub next: u16,
    /// What the outside sees of the cycle.
    pub event: Option<Event>,
}
