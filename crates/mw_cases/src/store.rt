// The microprogram of a job.
ghost use Rattle.std.specs.Prelude.{◌≡◌, ◌+◌, ◌<◌, ◌≤◌, ◌^◌, ◌==◌, ℕ, All, length, slice_get, IfOk};
ghost use Rattle.std.specs.Prelude.{IfSome};
ghost use Rattle.mw_cases.specs.Board.{generated_board, first_address};
ghost use Rattle.mw_cases.specs.Operations.{IsOperation};
ghost use Rattle.mw_cases.specs.Words.{choices_of, choices_in, function_for, operating};
ghost use Rattle.mw_cases.specs.Words.{IsWord, IsWordAt, IsStore};

use crate::instructions::{INSTRUCTIONS, Instructions};
use crate::operation::{Kind, Operation};
use crate::word::Word;
use mw_alu::{Destination, Function, Source};
use mw_base::{Items, NoMemory};
use mw_board::Store;
use mw_seq::Instruction;
use std::alloc::Global;

/// The address of the first word of the first instruction.
const FIRST: u16 = 16;

/// How many words an instruction has room for.
const ROOM: u16 = 4;

/// The word where none is needed.
const FILL: u128 = 0;

/// `mar` takes register 15, to which 1 is added.
const ADDRESSING: Word = Word {
    source: Source::Zb,
    function: Function::Add,
    destination: Destination::Rama,
    a: 15,
    b: 15,
    carry_in: true,
    mar_load: true,
    ..Word::IDLE
};

/// `ir` takes the memory's word.
const LOADING: Word = Word {
    reads_memory: true,
    ir_load: true,
    ..Word::IDLE
};

/// The map gives the next address.
const MAPPING: Word = Word {
    sequencer: Instruction::Jmap,
    ..Word::IDLE
};

/// The address of the first word of an instruction.
pub(crate) fn first_address(instruction: u16) -> u16
    requires { instruction < 256 }
    ensures { result ≡ first_address instruction }
{
    FIRST + ROOM * instruction
}

impl Kind {
    /// The Am2901's function.
    fn function(self) -> Function
        ensures { result ≡ function_for self }
    {
        match self {
            Kind::Add => Function::Add,
            Kind::Subr => Function::Subr,
            Kind::Or => Function::Or,
            Kind::And => Function::And,
            Kind::Exor => Function::Exor,
        }
    }
}

/// What the word of an operation chooses. The last one of an instruction jumps to 0.
fn operating(operation: Operation, is_last: bool) -> Word
    requires { IsOperation operation }
    ensures exact { choices_in result ≡ operating operation is_last }
    ensures ranges { IsWord result }
{
    let sequencer = if is_last {
        Instruction::Cjp
    } else {
        Instruction::Cont
    };
    Word {
        source: Source::Ab,
        function: operation.kind.function(),
        destination: Destination::Ramf,
        a: operation.a,
        b: operation.b,
        carry_in: matches!(operation.kind, Kind::Subr),
        sequencer,
        test_disable: is_last,
        ..Word::IDLE
    }
}

/// The word at a place of an instruction: that of the operation there, or the fill word.
fn operation_word(operations: &[Operation], place: usize) -> u128
    requires { All IsOperation operations.now }
    ensures below { result < 2 ^ 38 }
    ensures chooses { IfSome (slice_get operations.now place) (λ operation.
        choices_of generated_board result
        ≡ operating operation (place + 1 == length operations.now)) }
    ensures unused { length operations.now ≤ place → result ≡ 0 }
{
    match operations.get(place) {
        Some(operation) => operating(*operation, place + 1 == operations.len()).packed(),
        None => FILL,
    }
}

/// The word before the instructions.
fn fetch_word(address: u16) -> u128
    requires { address < 16 }
    ensures { (number : ℕ) → IsWordAt number address result }
{
    match address {
        0 => ADDRESSING.packed(),
        1 => LOADING.packed(),
        2 => MAPPING.packed(),
        _ => FILL,
    }
}

/// The word at an address.
fn word_at(instructions: &Instructions, address: u16) -> u128
    requires { address < 1040 }
    ensures { IsWordAt instructions.now.number address result }
{
    if address < FIRST {
        return fetch_word(address);
    }
    let behind = address - FIRST;
    let operations = instructions.operations(behind / ROOM);
    operation_word(operations, usize::from(behind % ROOM))
}

/// The words of instructions.
///
/// # Errors
///
/// Memory ran out.
pub(crate) fn store(alloc: Global, instructions: &Instructions) -> Result<Store, NoMemory>
    ensures { IfOk result (λ store. IsStore instructions.now.number store.words) }
{
    let mut words = Vec::new(alloc);
    for address in 0..FIRST + ROOM * INSTRUCTIONS {
        words.push(word_at(instructions, address))?;
    }
    Ok(Store {
        words: Items::from_vec(words),
    })
}
