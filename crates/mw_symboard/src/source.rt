// The direct data of the Am2901.
ghost use Rattle.std.specs.Prelude.{◌≡◌, ◌+◌, ℕ, ◌<◌, ◌≤◌, ◌^◌, length, Some, None, IfOk, OnOk};
ghost use Rattle.mw_board.specs.Valid.{IsMask};
ghost use Rattle.mw_cycle.specs.Microword.{IsMicroword};
ghost use Rattle.mw_term.specs.declared.kinds.WordKind.TheVariants.{Input};
ghost use Rattle.mw_term.specs.Table.{IsWidth};
ghost use Rattle.mw_symmem.specs.Memory.{IsOfWidth, IsRead, writes_of};
ghost use Rattle.mw_term.specs.WordList.{memory_read_words, term_of, with_input};
ghost use Rattle.mw_symmem.specs.Workspace.{GoesOn, IsWorkspace, KeepsWrites};
ghost use Rattle.mw_symboard.specs.Growth.{Grew};
ghost use Rattle.mw_symboard.specs.Kinds.{AreInputs, IsSourceKind};
ghost use Rattle.mw_symboard.specs.Made.{IsFrom, IsMasked};
ghost use Rattle.mw_symboard.specs.Parts.{AreParts};
ghost use Rattle.mw_cycle.specs.ReadingWords.{masked_words, source_words};
ghost use Rattle.mw_symmem.specs.Listed.{Lists, ListsOver};

use crate::make::{constant, widened, word};
use crate::parts::Parts;
use mw_base::NoMemory;
use mw_board::{Board, DFrom};
use mw_cycle::Microword;
use mw_symmem::{Side, SymMemory, Words};
use mw_term::{Op, Term, WordKind, Written};
use std::alloc::Global;

/// The input variable of a number that isn't there yet.
fn fresh_input(
    alloc: Global,
    board: &Board,
    number: u32,
    terms: &mut Written,
    words: &mut Words,
    memory: &SymMemory,
) -> Result<Term, NoMemory>
    requires absent { term_of words.old (Input number) ≡ None }
    requires workspace { IsWorkspace terms.old words.old memory.now }
    requires inputs { AreInputs board.now terms.old words.old }
    ensures is { IfOk result (λ term. term_of words.new (Input number) ≡ Some term) }
    ensures wide { IfOk result (IsOfWidth terms.new board.now.width) }
    ensures listed { IfOk result (Lists (with_input number board.now.width) terms.old terms.new words.old words.new) }
    ensures goes { OnOk result
        (GoesOn (IsSourceKind number) terms.old terms.new words.old words.new memory.now memory.now) }
    ensures inputs { OnOk result (AreInputs board.now terms.new words.new) }
{
    let term = words.fresh(alloc, terms, WordKind::Input(number), board.width().bits())?;
    Ok(term)
}

/// The input variable of a number, made where it isn't there yet.
pub(crate) fn input(
    alloc: Global,
    board: &Board,
    number: u32,
    terms: &mut Written,
    words: &mut Words,
    memory: &SymMemory,
) -> Result<Term, NoMemory>
    requires workspace { IsWorkspace terms.old words.old memory.now }
    requires inputs { AreInputs board.now terms.old words.old }
    ensures is { IfOk result (λ term. term_of words.new (Input number) ≡ Some term) }
    ensures wide { IfOk result (IsOfWidth terms.new board.now.width) }
    ensures listed { IfOk result (Lists (with_input number board.now.width) terms.old terms.new words.old words.new) }
    ensures goes { OnOk result
        (GoesOn (IsSourceKind number) terms.old terms.new words.old words.new memory.now memory.now) }
    ensures inputs { OnOk result (AreInputs board.now terms.new words.new) }
{
    match words.find(WordKind::Input(number)) {
        Some(term) => Ok(term),
        None => fresh_input(alloc, board, number, terms, words, memory),
    }
}

/// What a side's memory has at `mar`.
fn read_source(
    alloc: Global,
    board: &Board,
    side: Side,
    mar: Term,
    taken: u32,
    terms: &mut Written,
    words: &mut Words,
    memory: &mut SymMemory,
) -> Result<Term, NoMemory>
    requires few { length memory.old.reads < 2 ^ 32 }
    requires address { memory.old.address ≡ board.now.address }
    requires word { memory.old.word ≡ board.now.width }
    requires wide { IsOfWidth terms.old board.now.address mar }
    requires workspace { IsWorkspace terms.old words.old memory.old }
    requires inputs { AreInputs board.now terms.old words.old }
    ensures is { IfOk result (IsRead terms.new memory.new side mar) }
    ensures wide { IfOk result (IsOfWidth terms.new board.now.width) }
    ensures listed { IfOk result (ListsOver (memory_read_words board.now.width mar (writes_of memory.old side))
        terms.old terms.new words.old words.new memory.old memory.new) }
    ensures goes { OnOk result
        (GoesOn (IsSourceKind taken) terms.old terms.new words.old words.new memory.old memory.new) }
    ensures reads { OnOk result (length memory.new.reads ≤ length memory.old.reads + 1) }
    ensures writes { OnOk result (KeepsWrites memory.old memory.new) }
    ensures inputs { OnOk result (AreInputs board.now terms.new words.new) }
{
    let term = memory.read(alloc, side, mar, terms, words)?;
    Ok(term)
}

/// A source of D, without its mask.
pub(crate) fn from_source(
    alloc: Global,
    board: &Board,
    microword: &Microword,
    side: Side,
    parts: &Parts,
    taken: u32,
    terms: &mut Written,
    words: &mut Words,
    memory: &mut SymMemory,
) -> Result<Term, NoMemory>
    requires microword { IsMicroword board.now microword.now }
    requires few { length memory.old.reads < 2 ^ 32 }
    requires address { memory.old.address ≡ board.now.address }
    requires word { memory.old.word ≡ board.now.width }
    requires workspace { IsWorkspace terms.old words.old memory.old }
    requires parts { AreParts board.now terms.old parts.now }
    requires inputs { AreInputs board.now terms.old words.old }
    ensures is { IfOk result
        (IsFrom board.now microword.now.word terms.new words.new memory.new side parts.now taken microword.now.d.from) }
    ensures wide { IfOk result (IsOfWidth terms.new board.now.width) }
    ensures listed { IfOk result
        (ListsOver (source_words board.now microword.now.word parts.now (writes_of memory.old side) taken
        microword.now.d.from) terms.old terms.new words.old words.new memory.old memory.new) }
    ensures goes { OnOk result
        (GoesOn (IsSourceKind taken) terms.old terms.new words.old words.new memory.old memory.new) }
    ensures reads { OnOk result (length memory.new.reads ≤ length memory.old.reads + 1) }
    ensures writes { OnOk result (KeepsWrites memory.old memory.new) }
    ensures inputs { OnOk result (AreInputs board.now terms.new words.new) }
{
    let width = board.width().bits();
    match microword.d.from {
        DFrom::Zero => constant(alloc, 0, width, terms),
        DFrom::Memory => read_source(alloc, board, side, parts.mar, taken, terms, words, memory),
        DFrom::Ir => Ok(parts.ir),
        DFrom::Mar => widened(alloc, parts.mar, board.parts().address, width, terms, words),
        DFrom::Input => input(alloc, board, taken, terms, words, memory),
        DFrom::Field(number) => constant(alloc, microword.field(board, number), width, terms),
        DFrom::Flip(number) => {
            let flip = parts.flips[usize::from(number)];
            widened(alloc, flip, 1, width, terms, words)
        }
    }
}

/// A source seen through a mask.
fn seen_through(
    alloc: Global,
    mask: u32,
    whole: Term,
    width: u8,
    terms: &mut Written,
    words: &mut Words,
) -> Result<Term, NoMemory>
    requires width { IsWidth width }
    requires mask { mask < 2 ^ width }
    requires wide { IsOfWidth terms.old width whole }
    ensures is { IfOk result (IsMasked terms.new width (Some mask) whole) }
    ensures wide { IfOk result (IsOfWidth terms.new width) }
    ensures listed { IfOk result
        (Lists (masked_words width (Some mask) whole) terms.old terms.new words.old words.new) }
    ensures grew { OnOk result (Grew terms.old terms.new words.old words.new) }
{
    let constant = constant(alloc, mask, width, terms)?;
    let term = word(alloc, Op::And(whole, constant), terms, words)?;
    Ok(term)
}

/// A source seen through its mask, where it has one.
pub(crate) fn masked(
    alloc: Global,
    mask: Option<u32>,
    whole: Term,
    width: u8,
    terms: &mut Written,
    words: &mut Words,
) -> Result<Term, NoMemory>
    requires width { IsWidth width }
    requires mask { IsMask width mask }
    requires wide { IsOfWidth terms.old width whole }
    ensures is { IfOk result (IsMasked terms.new width mask whole) }
    ensures wide { IfOk result (IsOfWidth terms.new width) }
    ensures listed { IfOk result (Lists (masked_words width mask whole) terms.old terms.new words.old words.new) }
    ensures grew { OnOk result (Grew terms.old terms.new words.old words.new) }
{
    match mask {
        Some(mask) => seen_through(alloc, mask, whole, width, terms, words),
        None => Ok(whole),
    }
}
