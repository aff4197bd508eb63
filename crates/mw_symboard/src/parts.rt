// The terms of a board's elements.
ghost use Rattle.std.specs.Prelude.{◌≡◌, ℕ, ◌+◌, ◌<◌, ◌≤◌, length, slice_index, IfOk};
ghost use Rattle.mw_board.specs.Elements.{element_count};
ghost use Rattle.mw_cycle.specs.Elements.{element_of, IsElement};
ghost use Rattle.mw_board.specs.Depth.{depth_of};
ghost use Rattle.mw_cycle.specs.BoardTerms.{term_of_part};

use mw_base::NoMemory;
use mw_board::Board;
use mw_cycle::Element;
use mw_term::Term;
use std::alloc::Global;
use std::marker::Model;

/// A term for each element of a board.
#[derive(Drop)]
pub(crate) struct Parts {
    /// The registers of the Am2901, sixteen.
    pub(crate) regs: Vec<Term>,
    /// The Q register.
    pub(crate) q: Term,
    /// The memory address register.
    pub(crate) mar: Term,
    /// The instruction register.
    pub(crate) ir: Term,
    /// The flip-flops, by their numbers.
    pub(crate) flips: Vec<Term>,
    /// The microprogram counter.
    pub(crate) pc: Term,
    /// The register/counter.
    pub(crate) r: Term,
    /// The words of the stack, from the oldest.
    pub(crate) stack: Vec<Term>,
}

impl Model for Parts {
    ghost use Rattle.mw_cycle.specs.BoardTerms as terms;

    ghost Value = { terms.Parts };

    ghost view = { λ p. record {
      regs = p.regs.items;
      q = p.q;
      mar = p.mar;
      ir = p.ir;
      flips = p.flips.items;
      pc = p.pc;
      r = p.r;
      stack = p.stack.items;
    } };
}

/// So many of some terms, from one of them on.
fn copied(
    alloc: Global,
    elements: &[Term],
    from: usize,
    count: usize,
) -> Result<Vec<Term>, NoMemory>
    requires { from + count ≤ length elements.now }
    ensures count { IfOk result (λ copy. length copy.items ≡ count) }
    ensures each { IfOk result
        (λ copy. (k : ℕ) → k < count → slice_index copy.items k ≡ slice_index elements.now (from + k)) }
{
    let copy = Vec::from_slice(alloc, &elements[from..from + count])?;
    Ok(copy)
}

impl Parts {
    /// These terms, by the numbers of the elements of a board.
    ///
    /// # Errors
    ///
    /// Memory ran out.
    pub(crate) fn new(alloc: Global, board: &Board, elements: &[Term]) -> Result<Parts, NoMemory>
        requires { length elements.now ≡ element_count board.now }
        ensures exact { IfOk result (λ parts. (n : ℕ) → n < element_count board.now
            → term_of_part parts (element_of board.now n) ≡ slice_index elements.now n) }
        ensures regs { IfOk result (λ parts. length parts.regs ≡ 16) }
        ensures flips { IfOk result (λ parts. length parts.flips ≡ length board.now.flipflop) }
        ensures stack { IfOk result (λ parts. length parts.stack ≡ depth_of board.now) }
    {
        let count = board.parts().flipflop.as_slice().len();
        let pc = 19 + count;
        let regs = copied(alloc, elements, 0, 16)?;
        let flips = copied(alloc, elements, 19, count)?;
        let stack = copied(alloc, elements, pc + 2, usize::from(board.depth()))?;
        Ok(Parts {
            regs,
            q: elements[16],
            mar: elements[17],
            ir: elements[18],
            flips,
            pc: elements[pc],
            r: elements[pc + 1],
            stack,
        })
    }

    /// The same terms once more.
    pub(crate) fn copy(&self, alloc: Global) -> Result<Parts, NoMemory>
        ensures { IfOk result (λ copy. copy ≡ self.now) }
    {
        Ok(Parts {
            regs: Vec::from_slice(alloc, &self.regs)?,
            q: self.q,
            mar: self.mar,
            ir: self.ir,
            flips: Vec::from_slice(alloc, &self.flips)?,
            pc: self.pc,
            r: self.r,
            stack: Vec::from_slice(alloc, &self.stack)?,
        })
    }

    /// The term of an element of the board.
    pub(crate) fn term(&self, board: &Board, element: Element) -> Term
        requires there { IsElement board.now element }
        requires regs { length self.now.regs ≡ 16 }
        requires flips { length self.now.flips ≡ length board.now.flipflop }
        requires stack { length self.now.stack ≡ depth_of board.now }
        ensures { result ≡ term_of_part self.now element }
    {
        match element {
            Element::Register(number) => self.regs[usize::from(number)],
            Element::Q => self.q,
            Element::Mar => self.mar,
            Element::Ir => self.ir,
            Element::FlipFlop(number) => self.flips[usize::from(number)],
            Element::Pc => self.pc,
            Element::R => self.r,
            Element::StackWord(number) => self.stack[usize::from(number)],
        }
    }
}
