// The next address, and the counter.
ghost use Rattle.std.specs.Prelude.{◌≡◌, ◌≤◌, ◌==◌, false, IfOk, OnOk};
ghost use Rattle.mw_board.specs.Depth.{depth_of};
ghost use Rattle.mw_cycle.specs.Microword.{IsMicroword};
ghost use Rattle.mw_seq.specs.Instruction.{instruction_of};
ghost use Rattle.mw_symmem.specs.Memory.{IsOfWidth};
ghost use Rattle.mw_symboard.specs.Growth.{Grew};
ghost use Rattle.mw_symboard.specs.Made.{IsDirect, IsEntry, IsLessOne, IsMapped, IsNext, IsTop};
ghost use Rattle.mw_symboard.specs.Parts.{AreParts};
ghost use Rattle.mw_cycle.specs.LeavingWords.{direct_words, entry_words, less_one_words, next_words, top_words};
ghost use Rattle.mw_symmem.specs.Listed.{Lists};

use crate::make::{constant, part, word};
use crate::parts::Parts;
use mw_base::NoMemory;
use mw_board::Board;
use mw_cycle::Microword;
use mw_seq::{AddressFrom, Instruction};
use mw_symmem::Words;
use mw_term::{Op, Term, Written};
use std::alloc::Global;

/// The entry of the map for the instruction register, where the map has bits.
fn entry(
    alloc: Global,
    board: &Board,
    ir: Term,
    terms: &mut Written,
    words: &mut Words,
) -> Result<Term, NoMemory>
    requires some { 1 ≤ board.now.map_bits }
    requires wide { IsOfWidth terms.old board.now.width ir }
    requires map { terms.old.map ≡ board.now.map_entries }
    ensures is { IfOk result (IsEntry false board.now terms.new ir) }
    ensures wide { IfOk result (IsOfWidth terms.new 12) }
    ensures listed { IfOk result (Lists (entry_words false board.now ir) terms.old terms.new words.old words.new) }
    ensures grew { OnOk result (Grew terms.old terms.new words.old words.new) }
{
    let parts = board.parts();
    let width = board.width().bits();
    let (low, bits) = (parts.map_low, parts.map_bits);
    let index = part(alloc, ir, width, low, bits, terms, words)?;
    let term = word(alloc, Op::Tab(index), terms, words)?;
    Ok(term)
}

/// What the map gives for the instruction register; without bits it gives 0, which is no word.
fn mapped(
    alloc: Global,
    board: &Board,
    ir: Term,
    terms: &mut Written,
    words: &mut Words,
) -> Result<Term, NoMemory>
    requires wide { IsOfWidth terms.old board.now.width ir }
    requires map { terms.old.map ≡ board.now.map_entries }
    ensures is { IfOk result (IsMapped board.now terms.new ir) }
    ensures wide { IfOk result (IsOfWidth terms.new 12) }
    ensures listed { IfOk result
        (Lists (entry_words (board.now.map_bits == 0) board.now ir) terms.old terms.new words.old words.new) }
    ensures grew { OnOk result (Grew terms.old terms.new words.old words.new) }
{
    match board.parts().map_bits {
        0 => constant(alloc, 0, 12, terms),
        _ => entry(alloc, board, ir, terms, words),
    }
}

/// The address at the sequencer's D: by the map in JMAP and the vector in CJV, else the branch field.
pub(crate) fn direct(
    alloc: Global,
    board: &Board,
    microword: &Microword,
    ir: Term,
    terms: &mut Written,
    words: &mut Words,
) -> Result<Term, NoMemory>
    requires microword { IsMicroword board.now microword.now }
    requires wide { IsOfWidth terms.old board.now.width ir }
    requires map { terms.old.map ≡ board.now.map_entries }
    ensures is { IfOk result (IsDirect (instruction_of microword.now.sequencer) board.now microword.now terms.new ir) }
    ensures wide { IfOk result (IsOfWidth terms.new 12) }
    ensures listed { IfOk result
        (Lists (direct_words (instruction_of microword.now.sequencer) board.now microword.now ir)
        terms.old terms.new words.old words.new) }
    ensures grew { OnOk result (Grew terms.old terms.new words.old words.new) }
{
    match Instruction::of(microword.sequencer) {
        Instruction::Jmap => mapped(alloc, board, ir, terms, words),
        Instruction::Cjv => constant(alloc, u32::from(board.parts().vector), 12, terms),
        _ => constant(alloc, u32::from(microword.branch), 12, terms),
    }
}

/// The top of the stack; of an empty one the noise has its bits.
#[tactic(auto, using(crate::proofs::Fitting::fits_part, crate::proofs::Fitting::wide_part))]
fn top(
    alloc: Global,
    parts: &Parts,
    sp: u8,
    noise: Term,
    board: &Board,
    terms: &mut Written,
    words: &mut Words,
) -> Result<Term, NoMemory>
    requires parts { AreParts board.now terms.old parts.now }
    requires sp { sp ≤ depth_of board.now }
    requires noise { IsOfWidth terms.old 14 noise }
    ensures is { IfOk result (IsTop (sp == 0) terms.new parts.now sp noise) }
    ensures wide { IfOk result (IsOfWidth terms.new 12) }
    ensures listed { IfOk result
        (Lists (top_words (sp == 0) parts.now sp noise) terms.old terms.new words.old words.new) }
    ensures grew { OnOk result (Grew terms.old terms.new words.old words.new) }
{
    if sp == 0 {
        let term = word(alloc, Op::Part(noise, 0, 12), terms, words)?;
        return Ok(term);
    }
    Ok(parts.stack[usize::from(sp - 1)])
}

/// The next address, by where it comes from.
pub(crate) fn next(
    alloc: Global,
    from: AddressFrom,
    parts: &Parts,
    sp: u8,
    noise: Term,
    direct: Term,
    board: &Board,
    terms: &mut Written,
    words: &mut Words,
) -> Result<Term, NoMemory>
    requires parts { AreParts board.now terms.old parts.now }
    requires sp { sp ≤ depth_of board.now }
    requires noise { IsOfWidth terms.old 14 noise }
    requires direct { IsOfWidth terms.old 12 direct }
    ensures is { IfOk result (IsNext terms.new parts.now sp noise direct from) }
    ensures wide { IfOk result (IsOfWidth terms.new 12) }
    ensures listed { IfOk result
        (Lists (next_words from parts.now sp noise direct) terms.old terms.new words.old words.new) }
    ensures grew { OnOk result (Grew terms.old terms.new words.old words.new) }
{
    match from {
        AddressFrom::Zero => constant(alloc, 0, 12, terms),
        AddressFrom::Pc => Ok(parts.pc),
        AddressFrom::D => Ok(direct),
        AddressFrom::R => Ok(parts.r),
        AddressFrom::F => top(alloc, parts, sp, noise, board, terms, words),
    }
}

/// A counter less one.
pub(crate) fn less_one(
    alloc: Global,
    r: Term,
    terms: &mut Written,
    words: &mut Words,
) -> Result<Term, NoMemory>
    requires wide { IsOfWidth terms.old 12 r }
    ensures is { IfOk result (IsLessOne terms.new r) }
    ensures wide { IfOk result (IsOfWidth terms.new 12) }
    ensures listed { IfOk result (Lists (less_one_words r) terms.old terms.new words.old words.new) }
    ensures grew { OnOk result (Grew terms.old terms.new words.old words.new) }
{
    let ones = constant(alloc, 0xFFF, 12, terms)?;
    let zero = constant(alloc, 0, 1, terms)?;
    let term = word(alloc, Op::Sum(r, ones, zero), terms, words)?;
    Ok(term)
}
