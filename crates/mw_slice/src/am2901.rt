// One slice of four bits.
ghost use Rattle.std.specs.Prelude.{◌≡◌, ◌<◌, ℕ, slice_index};
ghost use Rattle.mw_alu.specs.WholeWord.{writes_b, b_of, writes_q, q_of};
ghost use Rattle.mw_alu.specs.Instruction.{destination_of};
ghost use Rattle.mw_slice.specs.Lookahead.{line};
ghost use Rattle.mw_slice.specs.Slice.{r_bit, s_bit, generates, propagates, over_bits, f_bit, of_bits, slice_f};
ghost use Rattle.mw_slice.specs.Slice.{slice_of, regs_after, q_after};

use crate::am2902::{Look, carry_out, lookahead};
use mw_alu::{Destination, Function, Pins, ShiftOut, Source, shift};
use mw_base::{Width, bit};

/// What a slice answers to one instruction, before the edge. In the functions that are no sums the real parts leave G,
/// P, carry and overflow undefined: here they are false.
#[derive(Clone, Copy, Debug, PartialEq, Eq)]
pub struct SliceOut {
    /// The function's four bits F.
    pub f: u8,
    /// The outputs Y.
    pub y: u8,
    /// The four bits generate a carry, of a sum.
    pub g: bool,
    /// The four bits propagate a carry, of a sum.
    pub p: bool,
    /// The carry out of the top bit, of a sum.
    pub carry: bool,
    /// The carry into the top bit differs from the carry out of it, of a sum.
    pub overflow: bool,
    /// F is 0.
    pub zero: bool,
    /// The top bit of F.
    pub sign: bool,
}

/// One Am2901: its sixteen registers and Q, of four bits each.
#[derive(Clone, Copy, Debug, PartialEq, Eq)]
pub struct Slice {
    /// The registers.
    pub regs: [u8; 16],
    /// The Q register.
    pub q: u8,
    ghost regs_in: { (i : ℕ) → slice_index regs i < 16 },
    ghost q_in: { q < 16 },
}

/// The bit of what is added for R.
fn r_addend(function: Function, r: bool) -> bool
    ensures { result ≡ r_bit function r }
{
    match function {
        Function::Subr => !r,
        _ => r,
    }
}

/// The bit of what is added for S.
fn s_addend(function: Function, s: bool) -> bool
    ensures { result ≡ s_bit function s }
{
    match function {
        Function::Subs => !s,
        _ => s,
    }
}

/// Whether a bit generates a carry.
fn generate(function: Function, r: u8, s: u8, place: u8) -> bool
    requires { place < 4 }
    ensures { result ≡ generates function r s place }
{
    r_addend(function, bit(u32::from(r), place)) & s_addend(function, bit(u32::from(s), place))
}

/// Whether a bit propagates a carry.
fn propagate(function: Function, r: u8, s: u8, place: u8) -> bool
    requires { place < 4 }
    ensures { result ≡ propagates function r s place }
{
    r_addend(function, bit(u32::from(r), place)) | s_addend(function, bit(u32::from(s), place))
}

/// The carries within the slice, and its G and P.
#[tactic(auto, unfolding(crate::specs::Lookahead::lookahead_of))]
fn inner_carries(function: Function, r: u8, s: u8, cin: bool) -> Look
    ensures { result ≡ over_bits function r s cin }
{
    let g = [
        generate(function, r, s, 0),
        generate(function, r, s, 1),
        generate(function, r, s, 2),
        generate(function, r, s, 3),
    ];
    let p = [
        propagate(function, r, s, 0),
        propagate(function, r, s, 1),
        propagate(function, r, s, 2),
        propagate(function, r, s, 3),
    ];
    lookahead(g, p, cin)
}

/// One bit of F, of one bit each of R and S and the carry into it.
fn bit_f(function: Function, r: bool, s: bool, carry: bool) -> bool
    ensures { result ≡ f_bit function r s carry }
{
    match function {
        Function::Or => r | s,
        Function::And => r & s,
        Function::Notrs => !r & s,
        Function::Exor => r != s,
        Function::Exnor => r == s,
        _ => (r_addend(function, r) != s_addend(function, s)) != carry,
    }
}

/// The word of four bits, the lowest first.
fn word(bits: [bool; 4]) -> u8
    ensures exact { result ≡ of_bits (line bits) }
    ensures below { result < 16 }
{
    u8::from(bits[3]) * 8 + u8::from(bits[2]) * 4 + u8::from(bits[1]) * 2 + u8::from(bits[0])
}

/// The four bits F.
#[tactic(auto, unfolding(crate::specs::Slice::slice_f))]
fn word_f(function: Function, r: u8, s: u8, carries: Look, cin: bool) -> u8
    requires { carries ≡ over_bits function r s cin }
    ensures exact { result ≡ slice_f function r s cin }
    ensures below { result < 16 }
{
    let (r, s) = (u32::from(r), u32::from(s));
    word([
        bit_f(function, bit(r, 0), bit(s, 0), cin),
        bit_f(function, bit(r, 1), bit(s, 1), carries.x),
        bit_f(function, bit(r, 2), bit(s, 2), carries.y),
        bit_f(function, bit(r, 3), bit(s, 3), carries.z),
    ])
}

/// The answers of a slice to one instruction.
#[tactic(auto, unfolding(crate::specs::Slice::slice_of))]
pub fn answer(ins: u16, a: u8, b: u8, q: u8, d: u8, cin: bool) -> SliceOut
    requires ins_in { ins < 512 }
    requires a_in { a < 16 }
    requires b_in { b < 16 }
    requires q_in { q < 16 }
    requires d_in { d < 16 }
    ensures exact { result ≡ slice_of ins a b q d cin }
    ensures f_below { result.f < 16 }
    ensures y_below { result.y < 16 }
{
    let (source, function) = (Source::of(ins), Function::of(ins));
    let (a, b) = (u32::from(a), u32::from(b));
    let r = source.r(a, u32::from(d)) as u8;
    let s = source.s(a, b, u32::from(q)) as u8;
    let carries = inner_carries(function, r, s, cin);
    let f = word_f(function, r, s, carries, cin);
    let sum = function.is_sum();
    let carry = carry_out(carries, cin);
    SliceOut {
        f,
        y: Destination::of(ins).y(a, u32::from(f)) as u8,
        g: sum & carries.g,
        p: sum & carries.p,
        carry: sum & carry,
        overflow: sum & (carries.z != carry),
        zero: f == 0,
        sign: bit(u32::from(f), 3),
    }
}

/// What the edge writes into the B and Q of a slice, from F, Q and the pins.
#[tactic(auto, unfolding(mw_alu::specs::WholeWord::shift_of))]
pub fn edge(ins: u16, f: u8, q: u8, pins: Pins) -> ShiftOut
    requires ins_in { ins < 512 }
    requires f_in { f < 16 }
    requires q_in { q < 16 }
    ensures write_b { result.write_b ≡ writes_b (destination_of ins) }
    ensures b { result.b ≡ b_of (destination_of ins) 4 f pins }
    ensures write_q { result.write_q ≡ writes_q (destination_of ins) }
    ensures q { result.q ≡ q_of (destination_of ins) 4 f q pins }
    ensures b_below { result.b < 16 }
    ensures q_below { result.q < 16 }
{
    let width = Width::new(4).unwrap();
    shift(width, ins, u32::from(f), u32::from(q), pins)
}

impl Slice {
    /// One cycle: the answers to an instruction over the registers at two addresses, Q, D and the carry in, and what
    /// the edge then writes, at the address B and into Q.
    pub fn step(&mut self, ins: u16, a: u8, b: u8, d: u8, cin: bool, pins: Pins) -> SliceOut
        requires ins_in { ins < 512 }
        requires a_in { a < 16 }
        requires b_in { b < 16 }
        requires d_in { d < 16 }
        ensures answer { result
            ≡ slice_of ins (slice_index self.old.regs a) (slice_index self.old.regs b) self.old.q d cin }
        ensures regs { self.new.regs ≡ regs_after (destination_of ins) self.old.regs b result.f pins }
        ensures q { self.new.q ≡ q_after (destination_of ins) self.old.q result.f pins }
    {
        let (at_a, at_b) = (self.regs[usize::from(a)], self.regs[usize::from(b)]);
        let out = answer(ins, at_a, at_b, self.q, d, cin);
        let edge = edge(ins, out.f, self.q, pins);
        if edge.write_b {
            self.regs[usize::from(b)] = edge.b as u8;
        }
        if edge.write_q {
            self.q = edge.q as u8;
        }
        out
    }
}
