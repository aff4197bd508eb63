// The bits of a cycle that a carry in, a condition, a link or a flip-flop may choose.
ghost use Rattle.std.specs.Prelude.{◌≡◌, ℕ, ◌<◌, ◌≤◌, [], Some, length, slice_get, IfOk, IfSome, OnOk};
ghost use Rattle.mw_board.specs.Valid.{IsBit};
ghost use Rattle.mw_term.specs.Table.{Fits, Table, width_over};
ghost use Rattle.mw_symmem.specs.Memory.{IsOfWidth};
ghost use Rattle.mw_symmem.specs.Words.{IsNoVariable};
ghost use Rattle.mw_cycle.specs.ReadingWords.{MadeBit, bit_words, carry_op, early_once, early_words, late_once};
ghost use Rattle.mw_cycle.specs.ReadingWords.{made_term, overflow_op, same_bit, zero_words};
ghost use Rattle.mw_symboard.specs.Bits.{AreBits, AreEarlyBits, AreLateBits, AreSources};
ghost use Rattle.mw_symboard.specs.Growth.{Grew};
ghost use Rattle.mw_symboard.specs.Made.{Is, IsBitTerm, IsEarlyBit, sources_of};
ghost use Rattle.mw_board.specs.declared.bit.Bit.TheVariants as bits;
ghost use Rattle.mw_symboard.specs.Parts.{AreParts};
ghost use Rattle.mw_term.specs.WordList.{with_word};
ghost use Rattle.mw_symboard.specs.Listed.{ListsBit};

use crate::make::{constant, is_zero, word};
use crate::parts::Parts;
use mw_alu::Function;
use mw_base::NoMemory;
use mw_board::{Bit, Board};
use mw_symmem::Words;
use mw_term::{Op, Term, Written};
use std::alloc::Global;
use std::marker::Model;

/// What bits are made of.
#[derive(Clone, Copy)]
pub(crate) struct Sources {
    /// The interrupt line of the cycle.
    pub(crate) line: Term,
    /// The noise word of the cycle.
    pub(crate) noise: Term,
    /// The function of the Am2901.
    pub(crate) function: Function,
    /// What a sum adds for R.
    pub(crate) first: Term,
    /// What a sum adds for S.
    pub(crate) second: Term,
    /// The carry in.
    pub(crate) carry: Term,
    /// The word F.
    pub(crate) f: Term,
}

/// A bit that was made, and its term.
#[derive(Clone, Copy)]
pub(crate) struct MadeBit {
    pub(crate) bit: Bit,
    pub(crate) term: Term,
}

impl Model for MadeBit {
    ghost use Rattle.mw_cycle.specs.ReadingWords as made;

    ghost Value = { made.MadeBit };

    ghost view = { λ m. record { bit = m.bit; term = m.term } };

    ghost inverse = { λ m. record { bit = m.bit; term = m.term } };
}

/// The bits of a cycle that were made so far, each once: those that a carry in may read, and those that are made of F.
#[derive(Drop)]
pub(crate) struct Bits {
    early: Vec<MadeBit>,
    late: Vec<MadeBit>,
}

impl Model for Bits {
    ghost use Rattle.mw_cycle.specs.ReadingWords as made;

    ghost Value = { made.Bits };

    ghost view = { λ b. record { early = b.early.items; late = b.late.items } };
}

/// Two bits are one.
pub(crate) fn same(a: Bit, b: Bit) -> bool
    ensures { result ≡ same_bit a b }
{
    a == b
}

/// The term of a bit among those that were made.
fn find(made: &[MadeBit], bit: Bit) -> Option<Term>
    ensures { result ≡ made_term made.now bit }
{
    for entry in made {
        if same(entry.bit, bit) {
            return Some(entry.term);
        }
    }
    None
}

/// The carry out of a sum, or bit 12 of the noise where the function is none.
fn carry_op(sources: &Sources) -> Op
    ensures { result ≡ carry_op (sources_of sources.now) }
{
    if sources.function.is_sum() {
        Op::Cout(sources.first, sources.second, sources.carry)
    } else {
        Op::Part(sources.noise, 12, 1)
    }
}

/// The overflow of a sum, or bit 13 of the noise where the function is none.
fn overflow_op(sources: &Sources) -> Op
    ensures { result ≡ overflow_op (sources_of sources.now) }
{
    if sources.function.is_sum() {
        Op::Ovf(sources.first, sources.second, sources.carry)
    } else {
        Op::Part(sources.noise, 13, 1)
    }
}

impl Bits {
    /// The same bits once more.
    pub(crate) fn copy(&self, alloc: Global) -> Result<Bits, NoMemory>
        ensures { IfOk result (λ copy. copy ≡ self.now) }
    {
        Ok(Bits {
            early: Vec::from_slice(alloc, &self.early)?,
            late: Vec::from_slice(alloc, &self.late)?,
        })
    }

    /// No bit.
    pub(crate) fn new(alloc: Global) -> Bits
        ensures early { result.early ≡ [] }
        ensures late { result.late ≡ [] }
    {
        Bits {
            early: Vec::new(alloc),
            late: Vec::new(alloc),
        }
    }

    /// An early bit that is a word of this op, made where it isn't there yet.
    fn early_word(
        &mut self,
        alloc: Global,
        bit: Bit,
        op: Op,
        board: &Board,
        parts: &Parts,
        sp: u8,
        line: Term,
        terms: &mut Written,
        words: &mut Words,
    ) -> Result<Term, NoMemory>
        requires fits { Fits terms.old op }
        requires none { IsNoVariable op }
        requires one { width_over terms.old op ≡ 1 }
        requires means { (t : Table) (term : ℕ) → Is t op term → IsEarlyBit board.now t parts.now sp line bit term }
        requires right { AreEarlyBits board.now terms.old parts.now sp line self.old.early }
        ensures is { IfOk result (IsEarlyBit board.now terms.new parts.now sp line bit) }
        ensures wide { IfOk result (IsOfWidth terms.new 1) }
        ensures right { OnOk result (AreEarlyBits board.now terms.new parts.now sp line self.new.early) }
        ensures late { self.new.late ≡ self.old.late }
        ensures listed { IfOk result
            (ListsBit (early_once bit (with_word op)) terms.old terms.new words.old words.new self.old self.new) }
        ensures grew { OnOk result (Grew terms.old terms.new words.old words.new) }
    {
        if let Some(term) = find(&self.early, bit) {
            return Ok(term);
        }
        let term = word(alloc, op, terms, words)?;
        self.early.push(MadeBit { bit, term })?;
        Ok(term)
    }

    /// A bit that stands before F is made. The bits of F are 0 here.
    #[tactic(auto, unfolding(mw_term::specs::Table::op_width))]
    pub(crate) fn early(
        &mut self,
        alloc: Global,
        bit: Bit,
        board: &Board,
        parts: &Parts,
        sp: u8,
        line: Term,
        terms: &mut Written,
        words: &mut Words,
    ) -> Result<Term, NoMemory>
        requires valid { IsBit board.now.width (length board.now.flipflop) bit }
        requires parts { AreParts board.now terms.old parts.now }
        requires line { IsOfWidth terms.old 1 line }
        requires right { AreEarlyBits board.now terms.old parts.now sp line self.old.early }
        ensures wide { IfOk result (IsOfWidth terms.new 1) }
        ensures is { IfOk result (IsEarlyBit board.now terms.new parts.now sp line bit) }
        ensures right { OnOk result (AreEarlyBits board.now terms.new parts.now sp line self.new.early) }
        ensures late { self.new.late ≡ self.old.late }
        ensures listed { IfOk result (ListsBit (early_words board.now parts.now sp line bit)
            terms.old terms.new words.old words.new self.old self.new) }
        ensures grew { OnOk result (Grew terms.old terms.new words.old words.new) }
    {
        let top = board.width().bits() - 1;
        match bit {
            Bit::One => constant(alloc, 1, 1, terms),
            Bit::QLow => {
                let op = Op::Part(parts.q, 0, 1);
                self.early_word(alloc, bit, op, board, parts, sp, line, terms, words)
            }
            Bit::QHigh => {
                let op = Op::Part(parts.q, top, 1);
                self.early_word(alloc, bit, op, board, parts, sp, line, terms, words)
            }
            Bit::Line => Ok(line),
            Bit::Full => constant(alloc, u32::from(sp == board.depth()), 1, terms),
            Bit::Ir(number) => {
                let op = Op::Part(parts.ir, number, 1);
                self.early_word(alloc, bit, op, board, parts, sp, line, terms, words)
            }
            Bit::Flip(number) => Ok(parts.flips[usize::from(number)]),
            _ => constant(alloc, 0, 1, terms),
        }
    }

    /// A late bit that is a word of this op, made where it isn't there yet.
    fn late_word(
        &mut self,
        alloc: Global,
        bit: Bit,
        op: Op,
        board: &Board,
        parts: &Parts,
        sp: u8,
        sources: &Sources,
        terms: &mut Written,
        words: &mut Words,
    ) -> Result<Term, NoMemory>
        requires fits { Fits terms.old op }
        requires none { IsNoVariable op }
        requires one { width_over terms.old op ≡ 1 }
        requires means { (t : Table) (term : ℕ)
            → Is t op term → IsBitTerm board.now t parts.now sp sources.now bit term }
        requires right { AreLateBits board.now terms.old parts.now sp sources.now self.old.late }
        ensures is { IfOk result (IsBitTerm board.now terms.new parts.now sp sources.now bit) }
        ensures wide { IfOk result (IsOfWidth terms.new 1) }
        ensures right { OnOk result (AreLateBits board.now terms.new parts.now sp sources.now self.new.late) }
        ensures early { self.new.early ≡ self.old.early }
        ensures listed { IfOk result
            (ListsBit (late_once bit (with_word op)) terms.old terms.new words.old words.new self.old self.new) }
        ensures grew { OnOk result (Grew terms.old terms.new words.old words.new) }
    {
        if let Some(term) = find(&self.late, bit) {
            return Ok(term);
        }
        let term = word(alloc, op, terms, words)?;
        self.late.push(MadeBit { bit, term })?;
        Ok(term)
    }

    /// Whether F is 0, made where it isn't there yet.
    fn f_zero(
        &mut self,
        alloc: Global,
        board: &Board,
        parts: &Parts,
        sp: u8,
        sources: &Sources,
        terms: &mut Written,
        words: &mut Words,
    ) -> Result<Term, NoMemory>
        requires sources { AreSources board.now terms.old sources.now }
        requires right { AreLateBits board.now terms.old parts.now sp sources.now self.old.late }
        ensures is { IfOk result (IsBitTerm board.now terms.new parts.now sp sources.now bits.FZero) }
        ensures wide { IfOk result (IsOfWidth terms.new 1) }
        ensures right { OnOk result (AreLateBits board.now terms.new parts.now sp sources.now self.new.late) }
        ensures early { self.new.early ≡ self.old.early }
        ensures listed { IfOk result (ListsBit (late_once bits.FZero (zero_words board.now.width sources.now.f))
            terms.old terms.new words.old words.new self.old self.new) }
        ensures grew { OnOk result (Grew terms.old terms.new words.old words.new) }
    {
        if let Some(term) = find(&self.late, Bit::FZero) {
            return Ok(term);
        }
        let term = is_zero(alloc, sources.f, board.width().bits(), terms, words)?;
        self.late.push(MadeBit {
            bit: Bit::FZero,
            term,
        })?;
        Ok(term)
    }

    /// Any bit, once F is made.
    #[tactic(auto, unfolding(mw_term::specs::Table::op_width))]
    pub(crate) fn bit(
        &mut self,
        alloc: Global,
        bit: Bit,
        board: &Board,
        parts: &Parts,
        sp: u8,
        sources: &Sources,
        terms: &mut Written,
        words: &mut Words,
    ) -> Result<Term, NoMemory>
        requires valid { IsBit board.now.width (length board.now.flipflop) bit }
        requires parts { AreParts board.now terms.old parts.now }
        requires sources { AreSources board.now terms.old sources.now }
        requires right { AreBits board.now terms.old parts.now sp sources.now self.old }
        ensures is { IfOk result (IsBitTerm board.now terms.new parts.now sp sources.now bit) }
        ensures wide { IfOk result (IsOfWidth terms.new 1) }
        ensures right { OnOk result (AreBits board.now terms.new parts.now sp sources.now self.new) }
        ensures listed { IfOk result (ListsBit (bit_words board.now parts.now sp (sources_of sources.now) bit)
            terms.old terms.new words.old words.new self.old self.new) }
        ensures grew { OnOk result (Grew terms.old terms.new words.old words.new) }
    {
        let top = board.width().bits() - 1;
        match bit {
            Bit::Carry => {
                let op = carry_op(sources);
                self.late_word(alloc, bit, op, board, parts, sp, sources, terms, words)
            }
            Bit::Overflow => {
                let op = overflow_op(sources);
                self.late_word(alloc, bit, op, board, parts, sp, sources, terms, words)
            }
            Bit::FZero => self.f_zero(alloc, board, parts, sp, sources, terms, words),
            Bit::Sign | Bit::FHigh => {
                let op = Op::Part(sources.f, top, 1);
                self.late_word(alloc, bit, op, board, parts, sp, sources, terms, words)
            }
            Bit::FLow => {
                let op = Op::Part(sources.f, 0, 1);
                self.late_word(alloc, bit, op, board, parts, sp, sources, terms, words)
            }
            _ => self.early(alloc, bit, board, parts, sp, sources.line, terms, words),
        }
    }
}
