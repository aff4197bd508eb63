// Described machines.
ghost use Rattle.std.specs.Prelude.{◌≡◌};
ghost use Rattle.mw_macro.specs.Machine.{described};
ghost use Rattle.mw_macro.specs.Right.{IsMachine};
ghost use Rattle.mw_macro.specs.Statements.{acts};

use crate::counts::{Counted, left_after};
use crate::rules::{MOST_STATEMENTS, refusal};
use crate::statement::Statement;
use mw_base::{Cause, Name};
use mw_expr::Shape;

/// A described machine that keeps the rules of machines, seen by contracts as its description. `is_machine` says of it
/// that it is formed as it has to be, accepted, and what it has for that.
#[derive(Drop)]
pub struct Machine {
    names: Vec<Name>,
    registers: u32,
    shape: Shape,
    statements: Vec<Statement>,
    pub ghost is_machine: { IsMachine (described names.items registers shape (acts statements.items)) },
}

impl Machine {
    ghost use Rattle.std.specs.Prelude.{◌^◌, IfOk, IfErr, None, Some};
    ghost use Rattle.mw_macro.specs.Counts.{most_events};
    ghost use Rattle.mw_macro.specs.Described.{description_of};
    ghost use Rattle.mw_macro.specs.Machine.{IsFormed};
    ghost use Rattle.mw_macro.specs.Rules.{refusal_of};

    /// The machine with these elements and statements: the names of its registers and then of its temporaries, how many
    /// of them are registers, the widths of the elements in this order, with 1 at the end for the request, and those of
    /// the memory. Each name is spelled as one: a letter or `_`, and then letters, digits or `_`.
    ///
    /// # Errors
    ///
    /// The least cause that holds: 14 where there are more than 128 registers, 128 temporaries, 4,096 statements or 256
    /// memory reads; 31 where a name is `mem`, `zext` or `request` or stands twice; 33 where a name is longer than 64
    /// bytes, an element isn't of 1 to 32 bits, an address of 1 to 16 or a word of 4 to 32; 40 where an expression
    /// names no element, or a target is neither a register nor a temporary; 41 where the widths of operands break their
    /// rule, or an expression or a target hasn't the width that its statement asks for; 42 where an expression is more
    /// than 64 deep, or an `if` stands inside 64 others. What was handed in is dropped then.
    pub fn new(
        names: Vec<Name>,
        registers: u32,
        shape: Shape,
        statements: Vec<Statement>,
    ) -> Result<Machine, Cause>
        requires formed { IsFormed (described names.items registers shape (acts statements.items)) }
        ensures ok { IfOk result (λ machine.
            description_of machine ≡ described names.items registers shape (acts statements.items)) }
        ensures accepted { IfOk result (λ machine. refusal_of (description_of machine) ≡ None) }
        ensures err { IfErr result (λ cause.
            refusal_of (described names.items registers shape (acts statements.items)) ≡ Some cause) }
    {
        match refusal(&names, registers, &shape, &statements) {
            Some(cause) => Err(cause),
            None => Ok(Machine {
                names,
                registers,
                shape,
                statements,
            }),
        }
    }

    /// The names of its registers, and then of its temporaries.
    pub fn names(&self) -> &[Name]
        ensures { result.now ≡ (description_of self.now).names }
    {
        &self.names
    }

    /// How many registers it has.
    pub fn registers(&self) -> u32
        ensures { result ≡ (description_of self.now).registers }
    {
        self.registers
    }

    /// The widths of its registers, its temporaries and, last, its request, and those of its memory.
    pub fn shape(&self) -> &Shape
        ensures { result.now ≡ (description_of self.now).shape }
    {
        &self.shape
    }

    /// What a step does.
    pub fn statements(&self) -> &[Statement]
        ensures { acts result.now ≡ (description_of self.now).acts }
    {
        &self.statements
    }

    /// The most events that a step makes: how many `put` and `take` statements it has, those in both lists of each
    /// `if` with them.
    pub fn most_events(&self) -> usize
        ensures { result ≡ most_events (description_of self.now) }
    {
        (MOST_STATEMENTS - left_after(Counted::Events, &self.statements, MOST_STATEMENTS)) as usize
    }

    /// How many words its memory has.
    #[tactic(auto, using(std::proofs::lemmas::Nat::one_shl))]
    pub(crate) fn memory_size(&self) -> usize
        ensures { result ≡ 2 ^ (description_of self.now).shape.address }
    {
        1 << self.shape.address
    }
}
