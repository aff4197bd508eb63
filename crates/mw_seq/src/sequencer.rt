// The state of the sequencer, and one step of it.
ghost use Rattle.std.specs.Prelude.{◌≡◌, ◌+◌, ◌-◌, ◌<◌, ◌^◌, ◌==◌, ◌↔◌, IsTrue, length, slice_index, slice_set};
ghost use Rattle.mw_seq.specs.Sequencer.{IsDepth, IsSequencer, is_full, cleared_sequencer, top, pushed, popped};
ghost use Rattle.mw_seq.specs.Sequencer.{emptied, stack_after, counter_after, address, next_of, step_of};

use crate::instruction::{AddressFrom, CounterMove, Instruction, StackMove};
use std::marker::Model;

/// How many words the deepest stack has, that of an Am2910A.
const WORDS: usize = 9;

/// Whether a stack can have so many words: five, as that of an Am2910, or nine, as that of an Am2910A.
pub fn is_depth(depth: u64) -> bool
    ensures { IsTrue result ↔ IsDepth depth }
{
    depth == 5 || depth == 9
}

/// The state of an Am2910, or of an Am2910A. Addresses have 12 bits.
#[derive(Clone, Copy, Debug, PartialEq, Eq)]
pub struct Seq {
    /// The microprogram counter.
    pub pc: u16,
    /// The register/counter.
    pub r: u16,
    /// The stack's words, the oldest first; from `depth` on each is 0.
    pub stack: [u16; WORDS],
    /// The stack pointer: how many of the words are on the stack. The top is word `sp - 1`.
    pub sp: u8,
    /// How many words the stack has: 5 or 9.
    pub depth: u8,
}

impl Model for Seq {
    ghost use Rattle.std.specs.Prelude.{length, take};
    ghost use Rattle.mw_seq.specs.Sequencer.{Sequencer};
    ghost use Rattle.mw_seq.specs.Kept.{IsKept, nine_words};
    ghost use Rattle.std.proofs.Common.{refl, sym};

    ghost Value = { Sequencer };

    ghost view = { λ s. record { pc = s.pc; r = s.r; stack = take s.depth s.stack; sp = s.sp } };

    ghost invariant = { λ s.
        IsKept s.depth s.stack (record { pc = s.pc; r = s.r; stack = take s.depth s.stack; sp = s.sp }) };

    ghost inverse = { λ s. record {
      pc = s.pc;
      r = s.r;
      stack = nine_words s.stack;
      sp = s.sp;
      depth = length s.stack;
    } };

    ghost inverse_ok = { λ a h. rw (sym h.zeros, h.valid.size) refl };
}

/// What R holds after a move of it.
fn counted(counter: CounterMove, d: u16, r: u16) -> u16
    requires d_in { d < 2 ^ 12 }
    requires r_in { r < 2 ^ 12 }
    ensures exact { result ≡ counter_after counter d r }
    ensures below { result < 2 ^ 12 }
{
    match counter {
        CounterMove::Same => r,
        CounterMove::Loaded => d,
        CounterMove::Counted => r.saturating_sub(1),
    }
}

impl Seq {
    /// The state in which everything is 0, with a stack of `depth` words, 5 or 9.
    pub fn cleared(depth: u8) -> Seq
        requires known { IsDepth depth }
        ensures exact { result ≡ cleared_sequencer depth }
        ensures fits { IsSequencer depth result }
    {
        Seq {
            pc: 0,
            r: 0,
            stack: [0; WORDS],
            sp: 0,
            depth,
        }
    }

    /// How many words the stack has, 5 or 9.
    pub fn depth(&self) -> u8
        ensures exact { result ≡ length self.now.stack }
        ensures known { IsDepth result }
        ensures valid { IsSequencer result self.now }
    {
        self.depth
    }

    /// Whether each word of the stack is on it.
    pub fn full(&self) -> bool
        ensures { result ≡ is_full (length self.now.stack) self.now }
    {
        self.sp == self.depth
    }

    /// The word of the stack at a place, from the oldest.
    pub fn word(&self, place: u8) -> u16
        requires there { place < length self.now.stack }
        ensures exact { result ≡ slice_index self.now.stack place }
        ensures below { result < 2 ^ 12 }
    {
        self.stack[usize::from(place)]
    }

    /// Gives the word of the stack at a place a value.
    pub fn set_word(&mut self, place: u8, word: u16)
        requires there { place < length self.old.stack }
        requires word_in { word < 2 ^ 12 }
        ensures exact { self.new ≡ record self.old { stack = slice_set self.old.stack place word } }
        ensures fits { IsSequencer (length self.old.stack) self.new }
    {
        self.stack[usize::from(place)] = word;
    }

    /// F: the top word of the stack, or the noise where there is none.
    #[tactic(auto, unfolding(crate::specs::Sequencer::top))]
    fn top(&self, noise: u16) -> u16
        ensures exact { result ≡ top self.now noise }
        ensures below { result < 2 ^ 12 }
    {
        if self.sp == 0 {
            noise % 4096
        } else {
            self.word(self.sp - 1)
        }
    }

    /// Pushes PC; on a full stack it overwrites the top.
    #[tactic(auto, unfolding(crate::specs::Sequencer::pushed))]
    fn push(&mut self)
        ensures exact { self.new ≡ pushed (length self.old.stack) self.old }
        ensures size { length self.new.stack ≡ length self.old.stack }
    {
        if self.sp < self.depth {
            self.set_word(self.sp, self.pc);
            self.sp += 1;
        } else {
            self.set_word(self.depth - 1, self.pc);
        }
    }

    /// Takes the top word off the stack; an empty stack stays empty.
    fn pop(&mut self)
        ensures { self.new ≡ popped self.old }
    {
        self.sp = self.sp.saturating_sub(1);
    }

    /// Takes each word off the stack.
    fn clear(&mut self)
        ensures { self.new ≡ emptied self.old }
    {
        self.sp = 0;
    }

    #[tactic(auto, unfolding(crate::specs::Sequencer::stack_after))]
    fn move_stack(&mut self, stack: StackMove)
        ensures exact { self.new ≡ stack_after stack (length self.old.stack) self.old }
        ensures size { length self.new.stack ≡ length self.old.stack }
    {
        match stack {
            StackMove::Held => {}
            StackMove::Pushed => self.push(),
            StackMove::Popped => self.pop(),
            StackMove::Cleared => self.clear(),
        }
    }

    fn address(&self, from: AddressFrom, d: u16, noise: u16) -> u16
        requires { d < 2 ^ 12 }
        ensures exact { result ≡ address from d noise self.now }
        ensures below { result < 2 ^ 12 }
    {
        match from {
            AddressFrom::Zero => 0,
            AddressFrom::Pc => self.pc,
            AddressFrom::D => d,
            AddressFrom::R => self.r,
            AddressFrom::F => self.top(noise),
        }
    }

    /// One instruction, by its code from 0 to 15, and the next address. `d` is the address at the direct input, `ci`
    /// the carry into PC, `rld` loads R from `d` in place of the instruction's effect on it, and the low 12 bits of
    /// `noise` stand on an empty stack.
    #[tactic(auto, unfolding(crate::specs::Sequencer::next_of, crate::specs::Sequencer::step_of))]
    pub fn step(&mut self, ins: u8, pass: bool, d: u16, ci: bool, rld: bool, noise: u16) -> u16
        requires ins_in { ins < 16 }
        requires d_in { d < 2 ^ 12 }
        ensures next { result ≡ next_of ins pass d noise self.old }
        ensures below { result < 2 ^ 12 }
        ensures exact { self.new ≡ step_of (length self.old.stack) ins pass d ci rld noise self.old }
        ensures fits { IsSequencer (length self.old.stack) self.new }
        ensures valid { IsSequencer (length self.old.stack) self.old }
    {
        let effect = Instruction::of(ins).effect(pass, self.r == 0);
        let next = self.address(effect.next, d, noise);
        let r = counted(effect.counter, d, self.r);
        self.move_stack(effect.stack);
        self.pc = (next + u16::from(ci)) % 4096;
        self.r = if rld { d } else { r };
        next
    }
}
