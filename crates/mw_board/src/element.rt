// The table of a board's elements: what a name of a relation, an environment or a script can stand for.
ghost use Rattle.std.specs.Prelude.{◌≡◌, map, slice_get, option_map};
ghost use Rattle.std.specs.List.{position};
ghost use Rattle.std.specs.Str.{bytes_eq};
ghost use Rattle.mw_board.specs.Elements.{is_reserved, element_count, element_name, element_width, element_number};
ghost use Rattle.mw_board.specs.Elements.{names_behind, names_behind_of, stack_pointer_name};

use crate::board::Board;
use crate::flipflop::FlipFlop;
use mw_base::is_one_of;

/// The elements before the flip-flops: the registers, Q, the address register and the instruction register.
const BEFORE: [&[u8]; 19] = [
    b"r0", b"r1", b"r2", b"r3", b"r4", b"r5", b"r6", b"r7", b"r8", b"r9", b"r10", b"r11", b"r12",
    b"r13", b"r14", b"r15", b"q", b"mar", b"ir",
];

/// The number of the address register.
const MAR: usize = 17;

/// Those behind them: the microprogram counter, the register/counter, and the words of the deepest stack.
const BEHIND: [&[u8]; 11] = [
    b"upc", b"count", b"stack0", b"stack1", b"stack2", b"stack3", b"stack4", b"stack5", b"stack6",
    b"stack7", b"stack8",
];

/// The stack pointer, which has no number among the elements.
const STACK_POINTER: [&[u8]; 1] = [b"sp"];

/// The names behind the flip-flops', where the stack has so many words: nine at most.
fn names_behind(depth: u8) -> &'static [&'static [u8]]
    ensures { map (λ name. name.now) result.now ≡ names_behind depth }
{
    &BEHIND[..2 + usize::from(depth.min(9))]
}

/// Whether an element of each board whose stack has so many words has the name.
pub(crate) fn is_reserved(depth: u8, name: &[u8]) -> bool
    ensures { result ≡ is_reserved depth name.now }
{
    is_one_of(&BEFORE, name)
        || is_one_of(names_behind(depth), name)
        || is_one_of(&STACK_POINTER, name)
}

/// The name at a place, if there is one.
fn name_at(names: &[&'static [u8]], place: usize) -> Option<&'static [u8]>
    ensures { option_map (λ name. name.now) result ≡ slice_get (map (λ name. name.now) names.now) place }
{
    names.get(place).copied()
}

/// The name of the flip-flop with this number, if there is one.
fn flipflop_name(flipflops: &[FlipFlop], number: usize) -> Option<&[u8]>
    ensures { option_map (λ name. name.now) result ≡ slice_get (map (λ f. f.name) flipflops.now) number }
{
    match flipflops.get(number) {
        Some(flipflop) => Some(flipflop.name.as_slice()),
        None => None,
    }
}

/// The first place of a name.
fn place_of(names: &[&[u8]], name: &[u8]) -> Option<usize>
    ensures { result ≡ position (bytes_eq name.now) (map (λ other. other.now) names.now) }
{
    names.iter().position(|other| name == *other)
}

/// The number of the first flip-flop of a name.
fn flipflop_of(flipflops: &[FlipFlop], name: &[u8]) -> Option<usize>
    ensures { result ≡ position (bytes_eq name.now) (map (λ f. f.name) flipflops.now) }
{
    flipflops.iter().position(|f| name == f.name.as_slice())
}

impl Board {
    /// The names behind its flip-flops'.
    fn names_behind(&self) -> &'static [&'static [u8]]
        ensures { map (λ name. name.now) result.now ≡ names_behind_of self.now }
    {
        names_behind(self.depth())
    }

    /// The name of the stack pointer, which has no number among the elements.
    pub fn stack_pointer_name(&self) -> &'static [u8]
        ensures { result.now ≡ stack_pointer_name }
    {
        STACK_POINTER[0]
    }

    /// How many elements it has: what a name of a relation, an environment or a script can stand for. Each has a
    /// number, from 0: the registers `r0` to `r15`, `q`, `mar`, `ir`, the flip-flops in their order, `upc`, `count`,
    /// and the words of the stack from `stack0` on.
    pub fn element_count(&self) -> usize
        ensures { result ≡ element_count self.now }
    {
        BEFORE.len() + self.parts().flipflop.as_slice().len() + self.names_behind().len()
    }

    /// The name of the element with this number, if there is one.
    pub fn element_name(&self, number: usize) -> Option<&[u8]>
        ensures { option_map (λ name. name.now) result ≡ element_name self.now number }
    {
        let flipflops = self.parts().flipflop.as_slice();
        if number < BEFORE.len() {
            return name_at(&BEFORE, number);
        }
        let number = number - BEFORE.len();
        if number < flipflops.len() {
            return flipflop_name(flipflops, number);
        }
        name_at(self.names_behind(), number - flipflops.len())
    }

    /// How many bits the element with this number has: a register, `q` and `ir` the board's width, `mar` as many as a
    /// memory address, a flip-flop 1, the others 12.
    pub fn element_width(&self, number: usize) -> Option<u8>
        ensures { result ≡ element_width self.now number }
    {
        let parts = self.parts();
        if number == MAR {
            Some(parts.address)
        } else if number < BEFORE.len() {
            Some(parts.width)
        } else if number < BEFORE.len() + parts.flipflop.as_slice().len() {
            Some(1)
        } else if number < self.element_count() {
            Some(12)
        } else {
            None
        }
    }

    /// The number of the element with this name, if there is one.
    pub fn element_number(&self, name: &[u8]) -> Option<usize>
        ensures { result ≡ element_number self.now name.now }
    {
        let flipflops = self.parts().flipflop.as_slice();
        if let Some(place) = place_of(&BEFORE, name) {
            return Some(place);
        }
        if let Some(place) = flipflop_of(flipflops, name) {
            return Some(BEFORE.len() + place);
        }
        match place_of(self.names_behind(), name) {
            Some(place) => Some(BEFORE.len() + flipflops.len() + place),
            None => None,
        }
    }
}
