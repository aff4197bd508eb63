// Terms and words, one at a time.
ghost use Rattle.std.specs.Prelude.{◌≡◌, ℕ, ◌+◌, ◌<◌, ◌≤◌, ◌^◌, List, [], ◌∷◌, Some, slice_get, IfOk, OnOk};
ghost use Rattle.mw_term.specs.declared.op.Op.TheVariants.{Con, Eq};
ghost use Rattle.mw_term.specs.Table.{Fits, IsWidth};
ghost use Rattle.mw_term.specs.Values.{IsTermOf};
ghost use Rattle.mw_term.specs.declared.word.Word.{Word};
ghost use Rattle.mw_symmem.specs.Memory.{IsOfWidth};
ghost use Rattle.mw_symmem.specs.Steps.{Grows};
ghost use Rattle.mw_symmem.specs.Words.{IsNoVariable};
ghost use Rattle.mw_symboard.specs.Growth.{Grew};
ghost use Rattle.mw_symboard.specs.Made.{Is, IsDown, IsPart, IsUp, IsWidened};
ghost use Rattle.mw_cycle.specs.EdgeWords.{down_words, up_words};
ghost use Rattle.mw_cycle.specs.ReadingWords.{zero_words};
ghost use Rattle.mw_term.specs.WordList.{with_constant, with_part, with_word, with_zeros_above};
ghost use Rattle.mw_symmem.specs.Listed.{Lists};

use mw_base::NoMemory;
use mw_symmem::Words;
use mw_term::{Op, Term, Written};
use std::alloc::Global;

/// A constant, which is no word.
pub(crate) fn constant(
    alloc: Global,
    value: u32,
    width: u8,
    terms: &mut Written,
) -> Result<Term, NoMemory>
    requires width { IsWidth width }
    requires below { value < 2 ^ width }
    ensures is { IfOk result (Is terms.new (Con value width)) }
    ensures wide { IfOk result (IsOfWidth terms.new width) }
    ensures listed { IfOk result
        (λ term. (words : List Word) → Lists (with_constant value width) terms.old terms.new words words term) }
    ensures grows { OnOk result ((words : List Word) → Grows terms.old terms.new words words []) }
    ensures grew { OnOk result ((words : List Word) → Grew terms.old terms.new words words) }
{
    let term = terms.write(alloc, Op::Con(value, width))?;
    Ok(term)
}

/// One word more, of an op that fits the table and is no variable.
pub(crate) fn word(
    alloc: Global,
    op: Op,
    terms: &mut Written,
    words: &mut Words,
) -> Result<Term, NoMemory>
    requires fits { Fits terms.old op }
    requires none { IsNoVariable op }
    ensures is { IfOk result (Is terms.new op) }
    ensures made { IfOk result (IsTermOf terms.old terms.new op) }
    ensures listed { IfOk result (Lists (with_word op) terms.old terms.new words.old words.new) }
    ensures grew { OnOk result (Grew terms.old terms.new words.old words.new) }
    ensures grows { IfOk result (λ term. Grows terms.old terms.new words.old words.new (term ∷ [])) }
{
    let term = words.add(alloc, terms, op)?;
    Ok(term)
}

/// A term of so many bits as one of no fewer, with 0 above it.
pub(crate) fn widened(
    alloc: Global,
    narrow: Term,
    from: u8,
    to: u8,
    terms: &mut Written,
    words: &mut Words,
) -> Result<Term, NoMemory>
    requires wide { IsOfWidth terms.old from narrow }
    requires order { from ≤ to }
    requires most { to ≤ 32 }
    ensures is { IfOk result (IsWidened terms.new from to narrow) }
    ensures wide { IfOk result (IsOfWidth terms.new to) }
    ensures listed { IfOk result (Lists (with_zeros_above from to narrow) terms.old terms.new words.old words.new) }
    ensures grew { OnOk result (Grew terms.old terms.new words.old words.new) }
{
    if from == to {
        return Ok(narrow);
    }
    let zeros = constant(alloc, 0, to - from, terms)?;
    let term = word(alloc, Op::Join(zeros, narrow), terms, words)?;
    Ok(term)
}

/// So many bits of a term of so many, from one on. All of them are that term itself.
pub(crate) fn part(
    alloc: Global,
    whole: Term,
    whole_width: u8,
    low: u8,
    width: u8,
    terms: &mut Written,
    words: &mut Words,
) -> Result<Term, NoMemory>
    requires wide { IsOfWidth terms.old whole_width whole }
    requires most { whole_width ≤ 32 }
    requires some { 1 ≤ width }
    requires within { low + width ≤ whole_width }
    ensures is { IfOk result (IsPart terms.new whole_width whole low width) }
    ensures wide { IfOk result (IsOfWidth terms.new width) }
    ensures listed { IfOk result
        (Lists (with_part whole_width whole low width) terms.old terms.new words.old words.new) }
    ensures grew { OnOk result (Grew terms.old terms.new words.old words.new) }
{
    if width == whole_width {
        return Ok(whole);
    }
    let term = word(alloc, Op::Part(whole, low, width), terms, words)?;
    Ok(term)
}

/// A word shifted down, with a bit at its top.
pub(crate) fn shifted_down(
    alloc: Global,
    shifted: Term,
    width: u8,
    high: Term,
    terms: &mut Written,
    words: &mut Words,
) -> Result<Term, NoMemory>
    requires wide { IsOfWidth terms.old width shifted }
    requires bit { IsOfWidth terms.old 1 high }
    requires some { 2 ≤ width }
    requires most { width ≤ 32 }
    ensures is { IfOk result (IsDown terms.new width shifted high) }
    ensures wide { IfOk result (IsOfWidth terms.new width) }
    ensures listed { IfOk result (Lists (down_words width shifted high) terms.old terms.new words.old words.new) }
    ensures grew { OnOk result (Grew terms.old terms.new words.old words.new) }
{
    let rest = word(alloc, Op::Part(shifted, 1, width - 1), terms, words)?;
    let term = word(alloc, Op::Join(high, rest), terms, words)?;
    Ok(term)
}

/// A word shifted up, with a bit at its bottom.
pub(crate) fn shifted_up(
    alloc: Global,
    shifted: Term,
    width: u8,
    low: Term,
    terms: &mut Written,
    words: &mut Words,
) -> Result<Term, NoMemory>
    requires wide { IsOfWidth terms.old width shifted }
    requires bit { IsOfWidth terms.old 1 low }
    requires some { 2 ≤ width }
    requires most { width ≤ 32 }
    ensures is { IfOk result (IsUp terms.new width shifted low) }
    ensures wide { IfOk result (IsOfWidth terms.new width) }
    ensures listed { IfOk result (Lists (up_words width shifted low) terms.old terms.new words.old words.new) }
    ensures grew { OnOk result (Grew terms.old terms.new words.old words.new) }
{
    let rest = word(alloc, Op::Part(shifted, 0, width - 1), terms, words)?;
    let term = word(alloc, Op::Join(rest, low), terms, words)?;
    Ok(term)
}

/// Whether a term of so many bits is 0.
pub(crate) fn is_zero(
    alloc: Global,
    tested: Term,
    width: u8,
    terms: &mut Written,
    words: &mut Words,
) -> Result<Term, NoMemory>
    requires width { IsWidth width }
    requires wide { IsOfWidth terms.old width tested }
    ensures is { IfOk result
        (λ term. (zero : ℕ) × Is terms.new (Con 0 width) zero × Is terms.new (Eq tested zero) term) }
    ensures wide { IfOk result (IsOfWidth terms.new 1) }
    ensures listed { IfOk result (Lists (zero_words width tested) terms.old terms.new words.old words.new) }
    ensures grew { OnOk result (Grew terms.old terms.new words.old words.new) }
{
    let zero = constant(alloc, 0, width, terms)?;
    let term = word(alloc, Op::Eq(tested, zero), terms, words)?;
    Ok(term)
}
