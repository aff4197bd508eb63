// The state of a described machine.
ghost use Rattle.std.specs.Prelude.{◌≡◌, ℕ, ◌<◌, ◌≤◌, ◌^◌, ◌↔◌, IfOk, IsTrue, length, slice_index};

use crate::machine::Machine;
use mw_base::NoMemory;
use std::alloc::Global;
use std::marker::Model;

/// What a described machine keeps from step to step.
#[derive(Debug, Drop)]
pub struct MacState {
    /// The registers, each a word of its own width.
    pub registers: Vec<u32>,
    /// The memory's words, by address.
    pub memory: Vec<u32>,
}

impl Model for MacState {
    ghost use Rattle.mw_macro.specs.State.{MachineState};

    ghost Value = { MachineState };

    ghost view = { λ s. record { registers = s.registers.items; memory = s.memory.items } };
}

/// Whether a number has no more than so many bits.
#[tactic(auto, using(std::proofs::lemmas::Nat::one_shl))]
fn has_bits(number: u32, bits: u8) -> bool
    requires { bits ≤ 32 }
    ensures { IsTrue result ↔ (number < 2 ^ bits) }
{
    u64::from(number) < 1 << bits
}

/// Whether each number has no more bits than its width.
fn have_widths(numbers: &[u32], widths: &[u8]) -> bool
    requires count { length numbers.now ≤ length widths.now }
    requires most { (i : ℕ) → i < length widths.now → slice_index widths.now i ≤ 32 }
    ensures { IsTrue result
        ↔ ((i : ℕ) → i < length numbers.now → slice_index numbers.now i < 2 ^ slice_index widths.now i) }
{
    for (i, number) in numbers.iter().enumerate() {
        if !has_bits(*number, widths[i]) {
            return false;
        }
    }
    true
}

/// Whether each number has no more than so many bits.
pub(crate) fn have_bits(numbers: &[u32], bits: u8) -> bool
    requires { bits ≤ 32 }
    ensures { IsTrue result ↔ ((i : ℕ) → i < length numbers.now → slice_index numbers.now i < 2 ^ bits) }
{
    for number in numbers {
        if !has_bits(*number, bits) {
            return false;
        }
    }
    true
}

impl MacState {
    ghost use Rattle.mw_macro.specs.Described.{description_of};
    ghost use Rattle.mw_macro.specs.State.{Fits, cleared};

    fn cleared(alloc: Global, machine: &Machine) -> Result<MacState, NoMemory>
        ensures { IfOk result (λ state. state ≡ cleared (description_of machine.now)) }
    {
        Ok(MacState {
            registers: vec![in alloc; 0; machine.registers() as usize]?,
            memory: vec![in alloc; 0; machine.memory_size()]?,
        })
    }

    /// The state of a machine in which everything is 0.
    ///
    /// # Errors
    ///
    /// Memory ran out.
    pub fn new(alloc: Global, machine: &Machine) -> Result<MacState, NoMemory>
        ensures exact { IfOk result (λ state. state ≡ cleared (description_of machine.now)) }
        ensures fits { IfOk result (λ state. Fits (description_of machine.now) state) }
    {
        Ok(MacState::cleared(alloc, machine)?)
    }

    /// Whether the state fits a machine: it has a word of its width for each register, and one for each address
    /// of the memory.
    pub fn fits(&self, machine: &Machine) -> bool
        ensures { IsTrue result ↔ Fits (description_of machine.now) self.now }
    {
        let shape = machine.shape();
        if self.registers.len() != machine.registers() as usize
            || self.memory.len() != machine.memory_size()
        {
            return false;
        }
        have_widths(&self.registers, shape.widths.as_slice()) && have_bits(&self.memory, shape.word)
    }
}
