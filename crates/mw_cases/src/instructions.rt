// The operations of all instructions.
ghost use Rattle.std.specs.Prelude.{◌≡◌, ◌+◌, ◌<◌, ◌^◌, All, map, IfOk, OnOk};
ghost use Rattle.std.specs.List.{range_with_len};
ghost use Rattle.mw_cases.specs.Operations.{value_after, operation_of, operations_before};
ghost use Rattle.mw_cases.specs.Operations.{instruction_of, instructions_of, IsOperation};

use crate::operation::{Operation, next_value, operation_count};
use mw_base::{Items, NoMemory};
use std::alloc::Global;

/// How many instructions there are: one for each high byte of a word.
pub(crate) const INSTRUCTIONS: u16 = 256;

/// So many operations. The value goes on before each.
fn operations(alloc: Global, value: &mut u32, count: u32) -> Result<Items<Operation>, NoMemory>
    requires { value.old < 2 ^ 31 }
    ensures made { IfOk result (λ made. made
        ≡ map (λ j. operation_of (value_after value.old (j + 1))) (range_with_len 0 count)) }
    ensures value { OnOk result (value.new ≡ value_after value.old count) }
    ensures below { value.new < 2 ^ 31 }
{
    let mut operations = Vec::new(alloc);
    for _ in 0..count {
        *value = next_value(*value);
        operations.push(Operation::chosen_by(*value))?;
    }
    Ok(Items::from_vec(operations))
}

/// The operations of each instruction of a number.
fn all_operations(alloc: Global, number: u16) -> Result<Vec<Items<Operation>>, NoMemory>
    ensures { IfOk result (λ made. made.items ≡ instructions_of number) }
{
    let mut value = u32::from(number);
    let mut instructions = Vec::new(alloc);
    for instruction in 0..INSTRUCTIONS {
        let count = operation_count(number, instruction);
        instructions.push(operations(alloc, &mut value, count)?)?;
    }
    Ok(instructions)
}

/// The instructions of a number, each with its operations.
#[derive(Drop)]
pub(crate) struct Instructions {
    number: u16,
    operations: Vec<Items<Operation>>,
    ghost are_of_number: { operations.items ≡ instructions_of number },
}

impl Instructions {
    /// Those of this number.
    ///
    /// # Errors
    ///
    /// Memory ran out.
    pub(crate) fn new(alloc: Global, number: u16) -> Result<Instructions, NoMemory>
        ensures { IfOk result (λ instructions. instructions.number ≡ number) }
    {
        Ok(Instructions {
            number,
            operations: all_operations(alloc, number)?,
        })
    }

    /// The operations of an instruction.
    pub(crate) fn operations(&self, instruction: u16) -> &[Operation]
        requires { instruction < 256 }
        ensures exact { result.now ≡ instruction_of self.now.number instruction }
        ensures registers { All IsOperation result.now }
    {
        self.operations[usize::from(instruction)].as_slice()
    }

    /// How many operations all instructions have together.
    pub(crate) fn operation_total(&self) -> u32
        ensures { result ≡ operations_before self.now.number 256 }
    {
        let mut total = 0;
        for operations in &self.operations {
            total += operations.as_slice().len() as u32;
        }
        total
    }
}
