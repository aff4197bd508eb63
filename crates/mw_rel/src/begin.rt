// What a start is chosen by.
ghost use Rattle.std.specs.Prelude.{◌≡◌, ◌↔◌, ◌≤◌, ◌<◌, ◌^◌, ◌&&◌, ◌==◌, IsTrue, length, nat_lt, slice_index};
ghost use Rattle.std.specs.List.{list_all};
ghost use Rattle.mw_expr.specs.Values.{IsImage};
ghost use Rattle.mw_rel.specs.Completed.{free_before, IsGiven, AreGiven};
ghost use Rattle.mw_rel.specs.Free.{is_free};
ghost use Rattle.mw_rel.specs.Seen.{boundary_of};
ghost use Rattle.mw_rel.specs.Views.{job_of};

use crate::boundary::Boundary;
use crate::free_elements::{count_free, is_free_at};
use crate::job::Job;
use mw_cycle::Env;
use std::marker::Model;

/// What a start is chosen by, at a boundary: the values of the free elements, the memory, and an environment.
#[derive(Debug, Drop)]
pub struct Begin {
    /// The values of the free elements, in the order of their numbers.
    pub values: Vec<u32>,
    /// The words of the memory of both sides, by address.
    pub memory: Vec<u32>,
    /// The environment; it is no part of the pair.
    pub env: Env,
}

impl Model for Begin {
    ghost use Rattle.mw_rel.specs.Begin.{Begin as BeginOf};

    ghost Value = { BeginOf };

    ghost view = { λ b. record { values = b.values.items; memory = b.memory.items; env = b.env } };
}

/// Whether a number has no more than so many bits.
fn has_bits(number: u32, bits: u8) -> bool
    ensures { result ≡ nat_lt number (2 ^ bits) }
{
    bits >= 32 || number < 1u32 << bits
}

/// Whether a count is 2 to the power of bits.
#[tactic(auto, using(std::proofs::lemmas::Nat::one_shl))]
fn is_two_to(count: usize, bits: u8) -> bool
    requires { bits ≤ 32 }
    ensures { result ≡ (count == 2 ^ bits) }
{
    count == 1 << bits
}

/// Whether each number has no more than so many bits.
fn have_bits(numbers: &[u32], bits: u8) -> bool
    ensures { result ≡ list_all (λ number. nat_lt number (2 ^ bits)) numbers.now }
{
    numbers.iter().all(|number| has_bits(*number, bits))
}

/// Whether there is a value at a place, which has no more than so many bits.
fn has_word(values: &[u32], place: usize, bits: u8) -> bool
    ensures { result ≡ (nat_lt place (length values.now) && nat_lt (slice_index values.now place) (2 ^ bits)) }
{
    place < values.len() && has_bits(values[place], bits)
}

/// Whether the element of a number has one of the given values where it is free, which is a word of its width.
fn is_given(at: &Boundary, given: &[u32], width: u8, number: usize, before: usize) -> bool
    requires few { number < 174 }
    requires before { before ≡ free_before (is_free (boundary_of at.now)) number }
    ensures { IsTrue result ↔ IsGiven (is_free (boundary_of at.now)) given.now width number }
{
    if is_free_at(at, number) {
        return has_word(given, before, width);
    }
    true
}

/// Whether each free element has one of the given values, which is a word of its width, and there are no more values.
fn are_given(at: &Boundary, given: &[u32], widths: &[u8]) -> bool
    requires few { length widths.now ≤ 174 }
    ensures { IsTrue result ↔ AreGiven (is_free (boundary_of at.now)) given.now widths.now }
{
    let mut before = 0;
    for (number, width) in widths.iter().enumerate() {
        if !is_given(at, given, *width, number, before) {
            return false;
        }
        before = count_free(at, number, before);
    }
    before == given.len()
}

/// Whether words are a memory of both sides: one of its width for each address.
fn is_image(job: &Job, memory: &[u32]) -> bool
    ensures { IsTrue result ↔ IsImage (job_of job.now).relation.shape memory.now }
{
    let shape = job.shape();
    let sized = is_two_to(memory.len(), job.board.parts().address);
    let words = have_bits(memory, shape.word);
    sized & words
}

impl Begin {
    ghost use Rattle.mw_rel.specs.Begin.{IsBegin};
    ghost use Rattle.mw_rel.specs.Free.{numbered};

    /// Whether it is a choice at the boundary of this number, from 0: there is a value for each free element, which is
    /// no wider than the element, and the memory has a word of its width for each address.
    pub fn fits(&self, job: &Job, boundary: usize) -> bool
        requires there { boundary < length (job_of job.now).relation.boundaries }
        ensures { IsTrue result ↔ IsBegin (job_of job.now) (numbered (job_of job.now) boundary) self.now }
    {
        let at = job.boundary(boundary);
        let widths = job.shape().widths.as_slice();
        let given = are_given(at, self.values.as_slice(), widths);
        let image = is_image(job, self.memory.as_slice());
        given & image
    }
}
