// One instruction on one word.
ghost use Rattle.std.specs.Prelude.{◌≡◌, ◌<◌, ◌≤◌, ◌^◌, ◌-◌, ◌+◌};
ghost use Rattle.mw_base.specs.Words.{complement};
ghost use Rattle.mw_alu.specs.WholeWord.{addend_r, addend_s, total, f_of, carry_out, carry_into_top, carry_of};
ghost use Rattle.mw_alu.specs.WholeWord.{overflow_of, alu_of};

use crate::instruction::{Destination, Function, Source};
use crate::size::{half, size};
use mw_base::{Width, bit, mask};

/// What an Am2901 answers to one instruction, before the edge. In the functions that are no sums the real parts
/// leave carry and overflow undefined: here both are false, and so is `defined`.
#[derive(Clone, Copy, Debug, PartialEq, Eq)]
pub struct AluOut {
    /// The function's word F.
    pub f: u32,
    /// The outputs Y.
    pub y: u32,
    /// The carry out of the top bit, of a sum.
    pub carry: bool,
    /// The carry into the top bit differs from the carry out of it, of a sum.
    pub overflow: bool,
    /// The function is a sum, so carry and overflow are defined.
    pub defined: bool,
    /// F is 0.
    pub zero: bool,
    /// The top bit of F.
    pub sign: bool,
}

fn complemented(width: Width, word: u32) -> u32
    requires { word < 2 ^ width }
    ensures exact { result ≡ complement width word }
    ensures below { result < 2 ^ width }
{
    mask(width) - word
}

/// What is added for R.
fn r_addend(function: Function, width: Width, r: u32) -> u32
    requires { r < 2 ^ width }
    ensures exact { result ≡ addend_r function width r }
    ensures below { result < 2 ^ width }
{
    match function {
        Function::Subr => complemented(width, r),
        _ => r,
    }
}

/// What is added for S.
fn s_addend(function: Function, width: Width, s: u32) -> u32
    requires { s < 2 ^ width }
    ensures exact { result ≡ addend_s function width s }
    ensures below { result < 2 ^ width }
{
    match function {
        Function::Subs => complemented(width, s),
        _ => s,
    }
}

/// The whole sum, carry out and all.
fn whole_sum(function: Function, width: Width, r: u32, s: u32, cin: bool) -> u64
    requires r_in { r < 2 ^ width }
    requires s_in { s < 2 ^ width }
    ensures exact { result ≡ total function width r s cin }
{
    u64::from(r_addend(function, width, r))
        + u64::from(s_addend(function, width, s))
        + u64::from(cin)
}

/// The word F.
#[tactic(auto, unfolding(crate::specs::WholeWord::f_of))]
fn word_f(function: Function, width: Width, r: u32, s: u32, cin: bool) -> u32
    requires r_in { r < 2 ^ width }
    requires s_in { s < 2 ^ width }
    ensures exact { result ≡ f_of function width r s cin }
    ensures below { result < 2 ^ width }
{
    match function {
        Function::Or => r | s,
        Function::And => r & s,
        Function::Notrs => complemented(width, r) & s,
        Function::Exor => r ^ s,
        Function::Exnor => complemented(width, r ^ s),
        _ => (whole_sum(function, width, r, s, cin) % size(width)) as u32,
    }
}

fn carries_out(function: Function, width: Width, r: u32, s: u32, cin: bool) -> bool
    requires r_in { r < 2 ^ width }
    requires s_in { s < 2 ^ width }
    ensures { result ≡ carry_out function width r s cin }
{
    whole_sum(function, width, r, s, cin) >= size(width)
}

fn carries_into_top(function: Function, width: Width, r: u32, s: u32, cin: bool) -> bool
    requires r_in { r < 2 ^ width }
    requires s_in { s < 2 ^ width }
    ensures { result ≡ carry_into_top function width r s cin }
{
    let half = half(width);
    let r = u64::from(r_addend(function, width, r)) % half;
    let s = u64::from(s_addend(function, width, s)) % half;
    r + s + u64::from(cin) >= half
}

#[tactic(auto, unfolding(crate::specs::WholeWord::carry_of))]
fn carry(function: Function, width: Width, r: u32, s: u32, cin: bool) -> bool
    requires r_in { r < 2 ^ width }
    requires s_in { s < 2 ^ width }
    ensures { result ≡ carry_of function width r s cin }
{
    function.is_sum() & carries_out(function, width, r, s, cin)
}

#[tactic(auto, unfolding(crate::specs::WholeWord::overflow_of))]
fn overflow(function: Function, width: Width, r: u32, s: u32, cin: bool) -> bool
    requires r_in { r < 2 ^ width }
    requires s_in { s < 2 ^ width }
    ensures { result ≡ overflow_of function width r s cin }
{
    let into = carries_into_top(function, width, r, s, cin);
    let out = carries_out(function, width, r, s, cin);
    function.is_sum() & (into != out)
}

/// The answers to one instruction: R and S are chosen, and F, the flags and Y follow.
#[tactic(auto, unfolding(crate::specs::WholeWord::alu_of))]
pub fn alu(width: Width, ins: u16, a: u32, b: u32, q: u32, d: u32, cin: bool) -> AluOut
    requires ins_in { ins < 512 }
    requires a_in { a < 2 ^ width }
    requires b_in { b < 2 ^ width }
    requires q_in { q < 2 ^ width }
    requires d_in { d < 2 ^ width }
    ensures exact { result ≡ alu_of width ins a b q d cin }
    ensures f_below { result.f < 2 ^ width }
    ensures y_below { result.y < 2 ^ width }
{
    let source = Source::of(ins);
    let function = Function::of(ins);
    let r = source.r(a, d);
    let s = source.s(a, b, q);
    let f = word_f(function, width, r, s, cin);
    AluOut {
        f,
        y: Destination::of(ins).y(a, f),
        carry: carry(function, width, r, s, cin),
        overflow: overflow(function, width, r, s, cin),
        defined: function.is_sum(),
        zero: f == 0,
        sign: bit(f, width.bits() - 1),
    }
}
