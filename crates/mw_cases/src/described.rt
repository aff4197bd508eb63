// The described machine of a job.
ghost use Rattle.std.specs.Prelude.{◌≡◌, ◌+◌, ◌^◌, ◌<◌, ◌≤◌, [], ◌∷◌, map, IfOk};
ghost use Rattle.mw_expr.specs.Tree.{element, part, view};
ghost use Rattle.mw_macro.specs.Described.{description_of};
ghost use Rattle.mw_macro.specs.Statements.{act_of as act_seen, acts, acts_of, choose, next};
ghost use Rattle.mw_cases.specs.Described.{generated_names, generated_shape, register, word_read};
ghost use Rattle.mw_cases.specs.Described.{sign_of, outcome_of, act_of, choice_of, reading};
ghost use Rattle.mw_cases.specs.Described.{counting, generated_machine};

use crate::instructions::Instructions;
use crate::operation::{Kind, Operation};
use mw_base::{Items, Name, NoMemory};
use mw_expr::{Expr, Pair2, Shape};
use mw_macro::{Machine, Statement};
use std::alloc::Global;

/// How many registers there are; one temporary stands behind them.
const REGISTERS: u32 = 5;

/// PC's number among the elements.
const COUNTER: u32 = 0;

/// The number of the word read.
const WORD_READ: u32 = 5;

/// The lowest bit of a word that chooses an instruction.
const LOWEST_BIT: u8 = 8;

/// How many bits choose it.
const BITS: u8 = 8;

/// The names of the registers and of the temporary.
fn names(alloc: Global) -> Result<Vec<Name>, NoMemory>
    ensures { IfOk result (λ names. names.items ≡ generated_names) }
{
    let mut names = Vec::new(alloc);
    names.push(Name::new(alloc, b"PC")?)?;
    names.push(Name::new(alloc, b"A0")?)?;
    names.push(Name::new(alloc, b"A1")?)?;
    names.push(Name::new(alloc, b"A2")?)?;
    names.push(Name::new(alloc, b"A3")?)?;
    names.push(Name::new(alloc, b"W")?)?;
    Ok(names)
}

/// The widths of the elements and of the memory.
fn shape(alloc: Global) -> Result<Shape, NoMemory>
    ensures { IfOk result (λ shape. shape ≡ generated_shape) }
{
    Ok(Shape {
        widths: Items::from_slice(alloc, &[16, 16, 16, 16, 16, 16, 1])?,
        address: 8,
        word: 16,
    })
}

/// An element.
fn element(alloc: Global, number: u32) -> Result<Box<Expr>, NoMemory>
    ensures { IfOk result (λ expr. view expr.value ≡ element number) }
{
    Ok(Box::new(alloc, Expr::Element(number))?)
}

/// The number of one of the registers A0 to A3.
fn register(number: u8) -> u32
    ensures { result ≡ register number }
{
    1 + u32::from(number)
}

impl Kind {
    /// Its sign.
    fn sign(self) -> Pair2
        ensures { result ≡ sign_of self }
    {
        match self {
            Kind::Add => Pair2::Add,
            Kind::Subr => Pair2::Sub,
            Kind::Or => Pair2::Or,
            Kind::And => Pair2::And,
            Kind::Exor => Pair2::Xor,
        }
    }
}

/// What an operation makes of its registers.
fn outcome(alloc: Global, operation: Operation) -> Result<Expr, NoMemory>
    ensures { IfOk result (λ expr. view expr ≡ outcome_of operation.kind operation.a operation.b) }
{
    let a = element(alloc, register(operation.a))?;
    let b = element(alloc, register(operation.b))?;
    let sign = operation.kind.sign();
    match operation.kind {
        Kind::Subr => Ok(Expr::Two(sign, b, a)),
        _ => Ok(Expr::Two(sign, a, b)),
    }
}

/// The statement that does an operation.
fn doing(alloc: Global, operation: Operation) -> Result<Statement, NoMemory>
    ensures { IfOk result (λ statement. act_seen statement ≡ act_of operation) }
{
    Ok(Statement::Assign {
        target: register(operation.b),
        value: outcome(alloc, operation)?,
    })
}

/// The statements of an instruction.
fn doing_all(alloc: Global, operations: &[Operation]) -> Result<Vec<Statement>, NoMemory>
    ensures { IfOk result (λ statements.
        acts statements.items ≡ acts_of (map act_of operations.now)) }
{
    let mut statements = Vec::new(alloc);
    for operation in operations {
        statements.push(doing(alloc, *operation)?)?;
    }
    Ok(statements)
}

/// The statement by which a bit of the word's high byte chooses a list: the first where it is 1.
fn choosing(
    alloc: Global,
    bit: u8,
    first: Vec<Statement>,
    second: Vec<Statement>,
) -> Result<Statement, NoMemory>
    requires { bit < 8 }
    ensures { IfOk result (λ statement. act_seen statement ≡ choose
        (part (element word_read) (8 + bit) (8 + bit)) (acts first.items) (acts second.items)) }
{
    let bit = LOWEST_BIT + bit;
    Ok(Statement::If {
        condition: Expr::Part(element(alloc, WORD_READ)?, bit, bit),
        first,
        second,
    })
}

/// The statements of the instructions from the first on, which so many bits of the word choose.
fn choice(
    alloc: Global,
    instructions: &Instructions,
    bits: u8,
    first: u16,
) -> Result<Vec<Statement>, NoMemory>
    requires few { bits ≤ 8 }
    requires within { first + 2 ^ bits ≤ 256 }
    ensures { IfOk result (λ statements.
        acts statements.items ≡ choice_of instructions.now.number bits first) }
{
    if bits == 0 {
        return doing_all(alloc, instructions.operations(first));
    }
    let lower = bits - 1;
    let low = choice(alloc, instructions, lower, first)?;
    let high = choice(alloc, instructions, lower, first + (1 << lower))?;
    let mut statements = Vec::new(alloc);
    statements.push(choosing(alloc, lower, high, low)?)?;
    Ok(statements)
}

/// The statement that reads the word at PC's low byte.
fn reading(alloc: Global) -> Result<Statement, NoMemory>
    ensures { IfOk result (λ statement. act_seen statement ≡ reading) }
{
    let address = Expr::Part(element(alloc, COUNTER)?, 7, 0);
    Ok(Statement::Assign {
        target: WORD_READ,
        value: Expr::Memory(Box::new(alloc, address)?),
    })
}

/// The statement that counts PC up.
fn counting(alloc: Global) -> Result<Statement, NoMemory>
    ensures { IfOk result (λ statement. act_seen statement ≡ counting) }
{
    let one = Box::new(alloc, Expr::Con(1, 16))?;
    Ok(Statement::Assign {
        target: COUNTER,
        value: Expr::Two(Pair2::Add, element(alloc, COUNTER)?, one),
    })
}

/// The statements of the step.
fn statements(alloc: Global, instructions: &Instructions) -> Result<Vec<Statement>, NoMemory>
    ensures { IfOk result (λ statements. acts statements.items
        ≡ next reading (next counting (choice_of instructions.now.number 8 0))) }
{
    let mut statements = Vec::new(alloc);
    statements.push(reading(alloc)?)?;
    statements.push(counting(alloc)?)?;
    statements.append(&mut choice(alloc, instructions, BITS, 0)?)?;
    Ok(statements)
}

/// The machine of the instructions.
///
/// # Errors
///
/// Memory ran out.
#[tactic(auto, unfolding(crate::specs::Described::generated_machine))]
pub(crate) fn machine(alloc: Global, instructions: &Instructions) -> Result<Machine, NoMemory>
    ensures { IfOk result (λ machine.
        description_of machine ≡ generated_machine instructions.now.number) }
{
    let names = names(alloc)?;
    let shape = shape(alloc)?;
    let statements = statements(alloc, instructions)?;
    match Machine::new(names, REGISTERS, shape, statements) {
        Ok(machine) => Ok(machine),
        Err(_) => unreachable!(),
    }
}
