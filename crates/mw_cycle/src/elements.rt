// The values of a board's elements in a state.
ghost use Rattle.std.specs.Prelude.{◌≡◌, ◌≢◌, ℕ, ◌<◌, ◌^◌};
ghost use Rattle.mw_seq.specs.Sequencer.{IsSequencer};
ghost use Rattle.mw_board.specs.Depth.{depth_of};
ghost use Rattle.mw_board.specs.Elements.{element_count};
ghost use Rattle.mw_cycle.specs.State.{Fits};
ghost use Rattle.mw_cycle.specs.Elements.{IsElement, IsValueOf, bits_of, element, element_of, value_of, with_element};
ghost use Rattle.mw_cycle.specs.Elements.{with_flip, with_value};

use crate::bits::{bit_number, flip};
use crate::state::State;
use mw_board::Board;

/// An element of a board's state, by what it is.
#[derive(Clone, Copy, Debug, PartialEq, Eq)]
pub enum Element {
    /// A register of the Am2901.
    Register(u8),
    /// The Q register.
    Q,
    /// The memory address register.
    Mar,
    /// The instruction register.
    Ir,
    /// A flip-flop, by its number.
    FlipFlop(u8),
    /// The microprogram counter.
    Pc,
    /// The register/counter.
    R,
    /// A word of the stack, from the oldest.
    StackWord(u8),
}

/// The element of a board with a number, from 0, in the order of the table of elements ([`Board::element_name`]).
#[tactic(auto, unfolding(crate::specs::Elements::element_of))]
pub fn element_of(board: &Board, number: usize) -> Element
    requires there { number < element_count board.now }
    ensures exact { result ≡ element_of board.now number }
    ensures there { IsElement board.now result }
{
    let pc = 19 + board.parts().flipflop.as_slice().len();
    if number < 16 {
        Element::Register(number as u8)
    } else if number == 16 {
        Element::Q
    } else if number == 17 {
        Element::Mar
    } else if number == 18 {
        Element::Ir
    } else if number < pc {
        Element::FlipFlop((number - 19) as u8)
    } else if number == pc {
        Element::Pc
    } else if number == pc + 1 {
        Element::R
    } else {
        Element::StackWord((number - (pc + 2)) as u8)
    }
}

/// The flip-flops when the one with this number takes a bit.
fn with_flip(flips: u16, number: u8, bit: u16) -> u16
    requires { number < 16 }
    ensures { result ≡ with_flip flips number bit }
{
    if bit == 0 {
        flips & !(1 << number)
    } else {
        flips | (1 << number)
    }
}

impl State {
    /// The value of an element.
    fn value_of(&self, board: &Board, element: Element) -> u32
        requires fits { Fits board.now self.now }
        requires valid { IsElement board.now element }
        ensures exact { result ≡ value_of self.now element }
        ensures below { result < 2 ^ bits_of board.now element }
    {
        // A call for the proof: its clause `valid` says that the flip-flops of every board are few.
        let _ = board.parts();
        let seq = self.seq;
        match element {
            Element::Register(number) => self.regs[usize::from(number)],
            Element::Q => self.q,
            Element::Mar => self.mar,
            Element::Ir => self.ir,
            Element::FlipFlop(number) => u32::from(bit_number(flip(self, number))),
            Element::Pc => u32::from(seq.pc),
            Element::R => u32::from(seq.r),
            Element::StackWord(number) => u32::from(seq.word(number)),
        }
    }

    /// Gives an element a value.
    fn set_value(&mut self, board: &Board, element: Element, value: u32)
        requires fits { Fits board.now self.old }
        requires valid { IsElement board.now element }
        requires value_in { value < 2 ^ bits_of board.now element }
        ensures exact { self.new ≡ with_value self.old element value }
        ensures sequencer { IsSequencer (depth_of board.now) self.new.seq }
    {
        // A call for the proof: its clause `valid` says that the flip-flops of every board are few.
        let _ = board.parts();
        match element {
            Element::Register(number) => self.regs[usize::from(number)] = value,
            Element::Q => self.q = value,
            Element::Mar => self.mar = value,
            Element::Ir => self.ir = value,
            Element::FlipFlop(number) => self.flips = with_flip(self.flips, number, value as u16),
            Element::Pc => self.seq.pc = value as u16,
            Element::R => self.seq.r = value as u16,
            Element::StackWord(number) => self.seq.set_word(number, value as u16),
        }
    }

    /// The value of the board's element with this number, from 0, in the order of the table of elements
    /// ([`Board::element_name`]).
    pub fn element(&self, board: &Board, number: usize) -> u32
        requires fits { Fits board.now self.now }
        requires there { number < element_count board.now }
        ensures exact { result ≡ element board.now self.now number }
        ensures below { IsValueOf board.now number result }
    {
        self.value_of(board, element_of(board, number))
    }

    /// Gives the board's element with this number a value of no more bits than it has ([`Board::element_width`]). All
    /// else stays as it was.
    pub fn set_element(&mut self, board: &Board, number: usize, value: u32)
        requires fits { Fits board.now self.old }
        requires there { number < element_count board.now }
        requires value_in { IsValueOf board.now number value }
        ensures exact { self.new ≡ with_element board.now self.old number value }
        ensures fits { Fits board.now self.new }
        ensures set { element board.now self.new number ≡ value }
        ensures others { (other : ℕ) → other < element_count board.now → other ≢ number
            → element board.now self.new other ≡ element board.now self.old other }
    {
        // A call for the proof: its clause `valid` says that the flip-flops of every board are few.
        let _ = board.parts();
        self.set_value(board, element_of(board, number), value);
    }
}
