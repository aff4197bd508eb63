// Microwords, field by field.
ghost use Rattle.std.specs.Prelude.{◌≡◌, ◌*◌, ◌^◌, ◌<◌, ◌≤◌};
ghost use Rattle.mw_base.specs.Words.{num};
ghost use Rattle.mw_alu.specs.Instruction.{source_of, function_of, destination_of};
ghost use Rattle.mw_seq.specs.Instruction.{instruction_of};
ghost use Rattle.mw_cases.specs.Words.{Chooses, choices_in, IsWord};

use crate::layout;
use mw_alu::{Destination, Function, Source};
use mw_board::Field;
use mw_seq::Instruction;

/// What a microword chooses.
#[derive(Clone, Copy)]
pub(crate) struct Word {
    /// The Am2901's operands.
    pub(crate) source: Source,
    /// Its function.
    pub(crate) function: Function,
    /// Its destination.
    pub(crate) destination: Destination,
    /// The register that A reads.
    pub(crate) a: u8,
    /// The register that B reads, and that the edge writes.
    pub(crate) b: u8,
    /// The carry in.
    pub(crate) carry_in: bool,
    /// D is the memory's word, else 0.
    pub(crate) reads_memory: bool,
    /// The Am2910's instruction.
    pub(crate) sequencer: Instruction,
    /// The branch address.
    pub(crate) branch: u16,
    /// The test passes whatever its bit is.
    pub(crate) test_disable: bool,
    /// `mar` takes the low bits of Y.
    pub(crate) mar_load: bool,
    /// `ir` takes Y.
    pub(crate) ir_load: bool,
}

/// The code of the Am2901's operands.
#[tactic(auto, unfolding(mw_alu::specs::Instruction::source_of))]
fn source_code(source: Source) -> u16
    ensures exact { source_of result ≡ source }
    ensures below { result < 8 }
{
    source as u16
}

/// The code of its function.
#[tactic(auto, unfolding(mw_alu::specs::Instruction::function_of))]
fn function_code(function: Function) -> u16
    ensures exact { function_of (result * 8) ≡ function }
    ensures below { result < 8 }
{
    function as u16
}

/// The code of its destination.
#[tactic(auto, unfolding(mw_alu::specs::Instruction::destination_of))]
fn destination_code(destination: Destination) -> u16
    ensures exact { destination_of (result * 64) ≡ destination }
    ensures below { result < 8 }
{
    destination as u16
}

/// The code of the Am2910's instruction.
#[tactic(auto, unfolding(mw_seq::specs::Instruction::instruction_of))]
fn sequencer_code(instruction: Instruction) -> u16
    ensures exact { instruction_of result ≡ instruction }
    ensures below { result < 16 }
{
    instruction as u16
}

/// A value at the place of a field.
fn placed(value: u16, field: Field) -> u128
    requires { field.low ≤ 64 }
    ensures { result ≡ value * 2 ^ field.low }
{
    u128::from(value) << field.low
}

/// A bit at the place of a field.
fn flag(is_on: bool, field: Field) -> u128
    requires { field.low ≤ 64 }
    ensures { result ≡ num is_on * 2 ^ field.low }
{
    placed(u16::from(is_on), field)
}

impl Word {
    /// The word that writes nothing and goes on.
    pub(crate) const IDLE: Word = Word {
        source: Source::Dz,
        function: Function::Or,
        destination: Destination::Nop,
        a: 0,
        b: 0,
        carry_in: false,
        reads_memory: false,
        sequencer: Instruction::Cont,
        branch: 0,
        test_disable: false,
        mar_load: false,
        ir_load: false,
    };

    /// The microword: each field at its place.
    pub(crate) fn packed(self) -> u128
        requires { IsWord self }
        ensures { Chooses result (choices_in self) }
    {
        placed(source_code(self.source), layout::SOURCE)
            + placed(function_code(self.function), layout::FUNCTION)
            + placed(destination_code(self.destination), layout::DESTINATION)
            + placed(u16::from(self.a), layout::A)
            + placed(u16::from(self.b), layout::B)
            + flag(self.carry_in, layout::CARRY_IN)
            + placed(sequencer_code(self.sequencer), layout::SEQUENCER)
            + placed(self.branch, layout::BRANCH)
            + flag(self.test_disable, layout::TEST_DISABLE)
            + flag(self.reads_memory, layout::D)
            + flag(self.mar_load, layout::MAR_LOAD)
            + flag(self.ir_load, layout::IR_LOAD)
    }
}
