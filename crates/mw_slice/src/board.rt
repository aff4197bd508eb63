// A board of one to eight slices.
ghost use Rattle.std.specs.Prelude.{◌≡◌, ◌<◌, ◌≤◌, ◌+◌, ◌*◌, ◌^◌, ◌%◌};
ghost use Rattle.mw_base.specs.Words.{join};
ghost use Rattle.mw_slice.specs.Lookahead.{line};
ghost use Rattle.mw_alu.specs.WholeWord.{alu_of, shift_of};
ghost use Rattle.mw_slice.specs.Board.{nibble, joined, wired_and, answers_of, sliced_of, high_pin, low_pin, pins_at};
ghost use Rattle.mw_slice.specs.Board.{edges_of, sliced_shift_of};

use crate::am2901::{SliceOut, answer, edge};
use crate::am2902::lookahead;
use mw_alu::{AluOut, Destination, Function, Pins, ShiftOut};
use mw_base::{Width, bit};

/// The words at the ports of a board, and the instruction that all its slices have.
#[derive(Drop)]
struct Board {
    slices: u8,
    ins: u16,
    a: u32,
    b: u32,
    q: u32,
    d: u32,
    ghost some: { 1 ≤ slices },
    ghost few: { slices ≤ 8 },
    ghost ins_in: { ins < 512 },
}

/// The four bits of a word that a slice has.
fn nibble(word: u32, k: u8) -> u8
    requires { k < 8 }
    ensures exact { result ≡ nibble k word }
    ensures below { result < 16 }
{
    ((word >> (4 * k)) % 16) as u8
}

/// The word with the next slice's four bits above it.
#[tactic(auto, using(crate::proofs::Joins::join_whole))]
fn joined(word: u32, k: u8, four: u8) -> u32
    requires k_in { k < 8 }
    requires word_in { word < 2 ^ (4 * k) }
    requires four_in { four < 16 }
    ensures exact { result ≡ join (4 * k) four word }
    ensures below { result < 2 ^ (4 * (k + 1)) }
{
    (u32::from(four) << (4 * k)) + word
}

impl Board {
    ghost use Rattle.mw_slice.specs.Signals.{slice_on, generate_on, propagate_on, carry_on, four_of, eight_of};

    /// The answers of a slice.
    fn answer(&self, k: u8, cin: bool) -> SliceOut
        requires { k < 8 }
        ensures exact { result ≡ slice_on self.now k cin }
        ensures f_below { result.f < 16 }
        ensures y_below { result.y < 16 }
    {
        let (a, b) = (nibble(self.a, k), nibble(self.b, k));
        let (q, d) = (nibble(self.q, k), nibble(self.d, k));
        answer(self.ins, a, b, q, d, cin)
    }

    /// G and P of a slice, which no carry changes; a missing slice has 0 and 1.
    fn signals(&self, k: u8) -> (bool, bool)
        requires { k < 8 }
        ensures g { result.0 ≡ generate_on self.now k }
        ensures p { result.1 ≡ propagate_on self.now k }
    {
        if k < self.slices {
            let out = self.answer(k, false);
            (out.g, out.p)
        } else {
            (false, true)
        }
    }

    /// G and P of a group of four slices.
    fn group(&self, first: u8) -> ([bool; 4], [bool; 4])
        requires { first ≤ 4 }
        ensures g { result.0 ≡ four_of (generate_on self.now) first }
        ensures p { result.1 ≡ four_of (propagate_on self.now) first }
    {
        let (g0, p0) = self.signals(first);
        let (g1, p1) = self.signals(first + 1);
        let (g2, p2) = self.signals(first + 2);
        let (g3, p3) = self.signals(first + 3);
        ([g0, g1, g2, g3], [p0, p1, p2, p3])
    }

    /// The carry into each slice: each group has an Am2902, and a third joins the groups.
    #[tactic(auto, unfolding(crate::specs::Lookahead::lookahead_of, crate::specs::Board::carry_into_slice))]
    fn carries(&self, cin: bool) -> [bool; 8]
        ensures { result ≡ eight_of (carry_on self.now cin) }
    {
        let ((low_g, low_p), (high_g, high_p)) = (self.group(0), self.group(4));
        let low = lookahead(low_g, low_p, cin);
        // The G and P of a group are the same with any carry in.
        let high = lookahead(high_g, high_p, false);
        let (g, p) = ([low.g, high.g, false, false], [low.p, high.p, true, true]);
        let between = lookahead(g, p, cin);
        let high = lookahead(high_g, high_p, between.x);
        [cin, low.x, low.y, low.z, between.x, high.x, high.y, high.z]
    }

    /// The words F and Y, and whether the F of each slice is 0, from the carry into each.
    #[tactic(auto, using(crate::proofs::Joins::slice_by_slice))]
    fn words(&self, into: [bool; 8]) -> (u32, u32, bool)
        ensures f { result.0 ≡ joined (λ k. (slice_on self.now k (line into k)).f) self.now.slices }
        ensures f_below { result.0 < 2 ^ (4 * self.now.slices) }
        ensures y { result.1 ≡ joined (λ k. (slice_on self.now k (line into k)).y) self.now.slices }
        ensures y_below { result.1 < 2 ^ (4 * self.now.slices) }
        ensures zero { result.2 ≡ wired_and (λ k. (slice_on self.now k (line into k)).zero) self.now.slices }
    {
        let (mut f, mut y, mut zero) = (0, 0, true);
        for k in 0..self.slices {
            let out = self.answer(k, into[usize::from(k)]);
            f = joined(f, k, out.f);
            y = joined(y, k, out.y);
            zero &= out.zero;
        }
        (f, y, zero)
    }

    /// The answers of the board, from the carry into each slice.
    #[tactic(auto, unfolding(crate::specs::Board::answers_of))]
    fn answers(&self, into: [bool; 8]) -> AluOut
        ensures exact { result
            ≡ answers_of self.now.slices self.now.ins self.now.a self.now.b self.now.q self.now.d (line into) }
        ensures f_below { result.f < 2 ^ (4 * self.now.slices) }
        ensures y_below { result.y < 2 ^ (4 * self.now.slices) }
    {
        let (f, y, zero) = self.words(into);
        let last = self.slices - 1;
        let top = self.answer(last, into[usize::from(last)]);
        AluOut {
            f,
            y,
            carry: top.carry,
            overflow: top.overflow,
            defined: Function::of(self.ins).is_sum(),
            zero,
            sign: top.sign,
        }
    }
}

/// The high pin of a slice: the lowest bit of the slice above, and at the top the board's.
fn high_pin(slices: u8, k: u8, word: u32, high: bool) -> bool
    requires k_in { k < slices }
    requires few { slices ≤ 8 }
    ensures { result ≡ high_pin slices word high k }
{
    if k + 1 == slices {
        high
    } else {
        bit(word, 4 * k + 4)
    }
}

/// The low pin of a slice: the highest bit of the slice below, and at the bottom the board's.
fn low_pin(k: u8, word: u32, low: bool) -> bool
    requires { k < 8 }
    ensures { result ≡ low_pin word low k }
{
    if k == 0 { low } else { bit(word, 4 * k - 1) }
}

/// The pins of a slice.
fn slice_pins(slices: u8, k: u8, f: u32, q: u32, pins: Pins) -> Pins
    requires k_in { k < slices }
    requires few { slices ≤ 8 }
    ensures { result ≡ pins_at slices f q pins k }
{
    Pins {
        ram_high: high_pin(slices, k, f, pins.ram_high),
        ram_low: low_pin(k, f, pins.ram_low),
        q_high: high_pin(slices, k, q, pins.q_high),
        q_low: low_pin(k, q, pins.q_low),
    }
}

/// What the slices write into B and Q at the edge, where neighbours are each other's pins.
#[tactic(auto, using(crate::proofs::Joins::slice_by_slice), unfolding(crate::specs::Board::edges_of))]
fn edges(slices: u8, ins: u16, f: u32, q: u32, pins: Pins) -> ShiftOut
    requires few { slices ≤ 8 }
    requires ins_in { ins < 512 }
    ensures exact { result ≡ edges_of slices ins f q pins }
    ensures b_below { result.b < 2 ^ (4 * slices) }
    ensures q_below { result.q < 2 ^ (4 * slices) }
{
    let destination = Destination::of(ins);
    let (mut next_b, mut next_q) = (0, 0);
    for k in 0..slices {
        let ends = slice_pins(slices, k, f, q, pins);
        let four = edge(ins, nibble(f, k), nibble(q, k), ends);
        next_b = joined(next_b, k, four.b as u8);
        next_q = joined(next_q, k, four.q as u8);
    }
    ShiftOut {
        write_b: destination.writes_b(),
        b: next_b,
        write_q: destination.writes_q(),
        q: next_q,
    }
}

/// The answers of a board of slices to one instruction: each slice answers on its own four bits, and lookahead gives it
/// its carry. They are those of the whole word.
#[tactic(auto, unfolding(crate::specs::Board::sliced_of))]
pub fn sliced(width: Width, ins: u16, a: u32, b: u32, q: u32, d: u32, cin: bool) -> AluOut
    requires width_in { width % 4 ≡ 0 }
    requires ins_in { ins < 512 }
    requires a_in { a < 2 ^ width }
    requires b_in { b < 2 ^ width }
    requires q_in { q < 2 ^ width }
    requires d_in { d < 2 ^ width }
    ensures slices { result ≡ sliced_of width ins a b q d cin }
    ensures whole { result ≡ alu_of width ins a b q d cin }
    ensures f_below { result.f < 2 ^ width }
    ensures y_below { result.y < 2 ^ width }
{
    let slices = width.bits() / 4;
    let board = Board {
        slices,
        ins,
        a,
        b,
        q,
        d,
    };
    board.answers(board.carries(cin))
}

/// What one instruction writes into B and Q of a board at the edge, slice by slice. It is what the whole word writes.
#[tactic(auto, unfolding(crate::specs::Board::sliced_shift_of))]
pub fn sliced_shift(width: Width, ins: u16, f: u32, q: u32, pins: Pins) -> ShiftOut
    requires width_in { width % 4 ≡ 0 }
    requires ins_in { ins < 512 }
    requires f_in { f < 2 ^ width }
    requires q_in { q < 2 ^ width }
    ensures slices { result ≡ sliced_shift_of width ins f q pins }
    ensures whole { result ≡ shift_of width ins f q pins }
    ensures b_below { result.b < 2 ^ width }
    ensures q_below { result.q < 2 ^ width }
{
    edges(width.bits() / 4, ins, f, q, pins)
}
