// The sixteen instructions, as the Data Book's table.
ghost use Rattle.std.specs.Prelude.{◌≡◌, ◌<◌};
ghost use Rattle.mw_seq.specs.Instruction.{instruction_of, effect_of};

/// The sixteen instructions, by code from 0 (Data Book, Am2910 instructions).
#[derive(Clone, Copy, Debug, PartialEq, Eq)]
pub enum Instruction {
    /// Jump to zero.
    Jz,
    /// Conditional jump to subroutine, by the branch address.
    Cjs,
    /// Jump by the map.
    Jmap,
    /// Conditional jump, by the branch address.
    Cjp,
    /// Push, and load the counter on a pass.
    Push,
    /// Jump to subroutine, by the counter or the branch address.
    Jsrp,
    /// Conditional jump by the vector.
    Cjv,
    /// Conditional jump, by the counter or the branch address.
    Jrp,
    /// Repeat the loop at the top of the stack while the counter isn't 0.
    Rfct,
    /// Repeat by the branch address while the counter isn't 0.
    Rpct,
    /// Conditional return.
    Crtn,
    /// Conditional jump, and pop.
    Cjpp,
    /// Load the counter, and go on.
    Ldct,
    /// Test the end of a loop.
    Loop,
    /// Continue.
    Cont,
    /// Three-way branch.
    Twb,
}

/// What the next address is.
#[derive(Clone, Copy, Debug, PartialEq, Eq)]
pub enum AddressFrom {
    /// Address 0.
    Zero,
    /// The microprogram counter.
    Pc,
    /// The direct input.
    D,
    /// The register/counter.
    R,
    /// The file: the top of the stack.
    F,
}

/// What becomes of the stack.
#[derive(Clone, Copy, Debug, PartialEq, Eq)]
pub enum StackMove {
    /// It stays.
    Held,
    /// The microprogram counter is pushed.
    Pushed,
    /// The top is popped.
    Popped,
    /// It is emptied.
    Cleared,
}

/// What becomes of the register/counter.
#[derive(Clone, Copy, Debug, PartialEq, Eq)]
pub enum CounterMove {
    /// It stays.
    Same,
    /// It takes the direct input.
    Loaded,
    /// It counts down by one.
    Counted,
}

/// One entry of the Data Book's table.
#[derive(Clone, Copy, Debug, PartialEq, Eq)]
pub struct Effect {
    pub next: AddressFrom,
    pub stack: StackMove,
    pub counter: CounterMove,
}

fn entry(next: AddressFrom, stack: StackMove, counter: CounterMove) -> Effect
    ensures { result ≡ record { next = next; stack = stack; counter = counter } }
{
    Effect {
        next,
        stack,
        counter,
    }
}

impl Instruction {
    /// The instruction of a code.
    #[tactic(auto, unfolding(crate::specs::Instruction::instruction_of))]
    pub fn of(code: u8) -> Instruction
        requires { code < 16 }
        ensures { result ≡ instruction_of code }
    {
        match code {
            0 => Instruction::Jz,
            1 => Instruction::Cjs,
            2 => Instruction::Jmap,
            3 => Instruction::Cjp,
            4 => Instruction::Push,
            5 => Instruction::Jsrp,
            6 => Instruction::Cjv,
            7 => Instruction::Jrp,
            8 => Instruction::Rfct,
            9 => Instruction::Rpct,
            10 => Instruction::Crtn,
            11 => Instruction::Cjpp,
            12 => Instruction::Ldct,
            13 => Instruction::Loop,
            14 => Instruction::Cont,
            _ => Instruction::Twb,
        }
    }

    /// The table's entry for a test that passes or fails, and a counter that is zero or not.
    pub fn effect(self, pass: bool, counter_zero: bool) -> Effect
        ensures { result ≡ effect_of self pass counter_zero }
    {
        use crate::instruction::AddressFrom::{D, F, Pc, R, Zero};
        use crate::instruction::CounterMove::{Counted, Loaded, Same};
        use crate::instruction::StackMove::{Cleared, Held, Popped, Pushed};
        match (self, pass, counter_zero) {
            (Instruction::Jz, _, _) => entry(Zero, Cleared, Same),
            (Instruction::Cjs, false, _) => entry(Pc, Held, Same),
            (Instruction::Cjs, true, _) => entry(D, Pushed, Same),
            (Instruction::Jmap, _, _) => entry(D, Held, Same),
            (Instruction::Cjp, false, _) => entry(Pc, Held, Same),
            (Instruction::Cjp, true, _) => entry(D, Held, Same),
            (Instruction::Push, false, _) => entry(Pc, Pushed, Same),
            (Instruction::Push, true, _) => entry(Pc, Pushed, Loaded),
            (Instruction::Jsrp, false, _) => entry(R, Pushed, Same),
            (Instruction::Jsrp, true, _) => entry(D, Pushed, Same),
            (Instruction::Cjv, false, _) => entry(Pc, Held, Same),
            (Instruction::Cjv, true, _) => entry(D, Held, Same),
            (Instruction::Jrp, false, _) => entry(R, Held, Same),
            (Instruction::Jrp, true, _) => entry(D, Held, Same),
            (Instruction::Rfct, _, false) => entry(F, Held, Counted),
            (Instruction::Rfct, _, true) => entry(Pc, Popped, Same),
            (Instruction::Rpct, _, false) => entry(D, Held, Counted),
            (Instruction::Rpct, _, true) => entry(Pc, Held, Same),
            (Instruction::Crtn, false, _) => entry(Pc, Held, Same),
            (Instruction::Crtn, true, _) => entry(F, Popped, Same),
            (Instruction::Cjpp, false, _) => entry(Pc, Held, Same),
            (Instruction::Cjpp, true, _) => entry(D, Popped, Same),
            (Instruction::Ldct, _, _) => entry(Pc, Held, Loaded),
            (Instruction::Loop, false, _) => entry(F, Held, Same),
            (Instruction::Loop, true, _) => entry(Pc, Popped, Same),
            (Instruction::Cont, _, _) => entry(Pc, Held, Same),
            (Instruction::Twb, false, false) => entry(F, Held, Counted),
            (Instruction::Twb, false, true) => entry(D, Popped, Same),
            (Instruction::Twb, true, false) => entry(Pc, Popped, Counted),
            (Instruction::Twb, true, true) => entry(Pc, Popped, Same),
        }
    }
}
