// Terms and their ops.
use std::marker::Model;

/// A term: a position in the list in which it was written, or in the table that made it, seen as that number.
#[derive(Clone, Copy, Debug, PartialEq, Eq, Hash)]
pub struct Term {
    position: u32,
}

impl Model for Term {
    ghost use Rattle.std.specs.Prelude.{ℕ};

    ghost Value = { ℕ };

    ghost view = { λ t. t.position };

    ghost inverse = { λ n. record { position = n } };
}

impl Term {
    ghost use Rattle.std.specs.Prelude.{◌≡◌, ◌<◌, ◌^◌};

    /// The term at a position, from 0.
    pub fn at(position: u32) -> Term
        ensures { result ≡ position }
    {
        Term { position }
    }

    /// Its position in its list or table, from 0.
    pub fn position(self) -> usize
        ensures exact { result ≡ self }
        ensures below { result < 2 ^ 32 }
    {
        self.position as usize
    }
}

/// What a term is made of. Operands are earlier terms of the same list or table, whose bits are numbered from 0, the
/// lowest.
#[derive(Clone, Copy, Debug, PartialEq, Eq, Hash)]
pub enum Op {
    /// A number, and its width of 1 to 32 bits: the number is below 2 to the width.
    Con(u32, u8),
    /// A word by its number, and its width of 1 to 32 bits: the word's value modulo 2 to the width.
    Var(u64, u8),
    /// The complement of a term: each of its bits turned over.
    Not(Term),
    /// The bits that both of two terms of one width have.
    And(Term, Term),
    /// The bits that one of two terms of one width has.
    Or(Term, Term),
    /// The bits in which two terms of one width differ.
    Xor(Term, Term),
    /// The sum of two terms of one width and a carry in of one bit, modulo 2 to that width.
    Sum(Term, Term, Term),
    /// The carry out of the top bit of such a sum, of one bit.
    Cout(Term, Term, Term),
    /// 1 where the carry into the top bit of such a sum differs from the carry out of it, and else 0; of one bit.
    Ovf(Term, Term, Term),
    /// 1 where two terms of one width are equal, and else 0; of one bit.
    Eq(Term, Term),
    /// 1 where the first of two terms of one width is less than the second, as numbers without sign, and else 0; of one
    /// bit.
    Lt(Term, Term),
    /// By a term of one bit, the first of two terms of one width where it is 1, and else the second.
    Ite(Term, Term, Term),
    /// Of a term the bits from the one of the second argument on, as many as the third says, 1 to 32, all within it.
    Part(Term, u8, u8),
    /// The first term above the second, together of at most 32 bits.
    Join(Term, Term),
    /// The entry of the board's map, of 12 bits, at an index. The map has an entry for each value of the index, so it
    /// isn't empty and the index has 1 to 8 bits.
    Tab(Term),
}

impl Op {
    ghost use Rattle.std.specs.Prelude.{◌≡◌};
    ghost use Rattle.mw_term.specs.Hints.{operand_at};

    /// The first operand.
    #[tactic(auto, unfolding(crate::specs::Operands::operands))]
    fn first(&self) -> Option<Term>
        ensures { result ≡ operand_at self.now 0 }
    {
        match *self {
            Op::Con(..) | Op::Var(..) => None,
            Op::Not(a)
            | Op::And(a, _)
            | Op::Or(a, _)
            | Op::Xor(a, _)
            | Op::Sum(a, _, _)
            | Op::Cout(a, _, _)
            | Op::Ovf(a, _, _)
            | Op::Eq(a, _)
            | Op::Lt(a, _)
            | Op::Ite(a, _, _)
            | Op::Part(a, ..)
            | Op::Join(a, _)
            | Op::Tab(a) => Some(a),
        }
    }

    /// The second.
    #[tactic(auto, unfolding(crate::specs::Operands::operands))]
    fn second(&self) -> Option<Term>
        ensures { result ≡ operand_at self.now 1 }
    {
        match *self {
            Op::And(_, b)
            | Op::Or(_, b)
            | Op::Xor(_, b)
            | Op::Sum(_, b, _)
            | Op::Cout(_, b, _)
            | Op::Ovf(_, b, _)
            | Op::Eq(_, b)
            | Op::Lt(_, b)
            | Op::Ite(_, b, _)
            | Op::Join(_, b) => Some(b),
            Op::Con(..) | Op::Var(..) | Op::Not(_) | Op::Part(..) | Op::Tab(_) => None,
        }
    }

    /// The third.
    #[tactic(auto, unfolding(crate::specs::Operands::operands))]
    fn third(&self) -> Option<Term>
        ensures { result ≡ operand_at self.now 2 }
    {
        match *self {
            Op::Sum(_, _, c) | Op::Cout(_, _, c) | Op::Ovf(_, _, c) | Op::Ite(_, _, c) => Some(c),
            _ => None,
        }
    }

    /// The operand at a place, from 0, in the order of the term table, if it has one there.
    #[tactic(auto, unfolding(crate::specs::Operands::operands))]
    pub fn operand(&self, place: u8) -> Option<Term>
        ensures { result ≡ operand_at self.now place }
    {
        match place {
            0 => self.first(),
            1 => self.second(),
            2 => self.third(),
            _ => None,
        }
    }
}
