// What the Am2901 makes of its operands.
ghost use Rattle.std.specs.Prelude.{◌≡◌, ℕ, ◌≤◌, IfOk, OnOk};
ghost use Rattle.mw_term.specs.declared.op.Op.TheVariants as ops;
ghost use Rattle.mw_symmem.specs.Memory.{IsOfWidth};
ghost use Rattle.mw_symboard.specs.Growth.{Grew};
ghost use Rattle.mw_symboard.specs.Made.{Is, IsAddendR, IsAddendS, IsF, IsR, IsS};
ghost use Rattle.mw_cycle.specs.ReadingWords.{exnor_words, f_words, first_words, notrs_words, r_words, s_words};
ghost use Rattle.mw_cycle.specs.ReadingWords.{second_words};
ghost use Rattle.mw_symmem.specs.Listed.{Lists};

use crate::make::{constant, word};
use mw_alu::{Function, Source};
use mw_base::NoMemory;
use mw_symmem::Words;
use mw_term::{Op, Term, Written};
use std::alloc::Global;

/// The operand R, from A and D. A 0 makes no word.
pub(crate) fn r(
    alloc: Global,
    source: Source,
    a: Term,
    d: Term,
    width: u8,
    terms: &mut Written,
    words: &mut Words,
) -> Result<Term, NoMemory>
    requires some { 1 ≤ width }
    requires most { width ≤ 32 }
    requires a { IsOfWidth terms.old width a }
    requires d { IsOfWidth terms.old width d }
    ensures is { IfOk result (IsR terms.new width source a d) }
    ensures wide { IfOk result (IsOfWidth terms.new width) }
    ensures listed { IfOk result (Lists (r_words width source a d) terms.old terms.new words.old words.new) }
    ensures grew { OnOk result (Grew terms.old terms.new words.old words.new) }
{
    match source {
        Source::Aq | Source::Ab => Ok(a),
        Source::Zq | Source::Zb | Source::Za => constant(alloc, 0, width, terms),
        Source::Da | Source::Dq | Source::Dz => Ok(d),
    }
}

/// The operand S, from A, B and Q. A 0 makes no word.
pub(crate) fn s(
    alloc: Global,
    source: Source,
    a: Term,
    b: Term,
    q: Term,
    width: u8,
    terms: &mut Written,
    words: &mut Words,
) -> Result<Term, NoMemory>
    requires some { 1 ≤ width }
    requires most { width ≤ 32 }
    requires a { IsOfWidth terms.old width a }
    requires b { IsOfWidth terms.old width b }
    requires q { IsOfWidth terms.old width q }
    ensures is { IfOk result (IsS terms.new width source a b q) }
    ensures wide { IfOk result (IsOfWidth terms.new width) }
    ensures listed { IfOk result (Lists (s_words width source a b q) terms.old terms.new words.old words.new) }
    ensures grew { OnOk result (Grew terms.old terms.new words.old words.new) }
{
    match source {
        Source::Aq | Source::Zq | Source::Dq => Ok(q),
        Source::Ab | Source::Zb => Ok(b),
        Source::Za | Source::Da => Ok(a),
        Source::Dz => constant(alloc, 0, width, terms),
    }
}

/// What is added for R: SUBR complements it.
#[tactic(auto, using(crate::proofs::Fitting::fits_not))]
pub(crate) fn addend_r(
    alloc: Global,
    function: Function,
    r: Term,
    width: u8,
    terms: &mut Written,
    words: &mut Words,
) -> Result<Term, NoMemory>
    requires wide { IsOfWidth terms.old width r }
    ensures is { IfOk result (IsAddendR terms.new function r) }
    ensures wide { IfOk result (IsOfWidth terms.new width) }
    ensures listed { IfOk result (Lists (first_words function r) terms.old terms.new words.old words.new) }
    ensures grew { OnOk result (Grew terms.old terms.new words.old words.new) }
{
    match function {
        Function::Subr => word(alloc, Op::Not(r), terms, words),
        _ => Ok(r),
    }
}

/// What is added for S: SUBS complements it.
#[tactic(auto, using(crate::proofs::Fitting::fits_not))]
pub(crate) fn addend_s(
    alloc: Global,
    function: Function,
    s: Term,
    width: u8,
    terms: &mut Written,
    words: &mut Words,
) -> Result<Term, NoMemory>
    requires wide { IsOfWidth terms.old width s }
    ensures is { IfOk result (IsAddendS terms.new function s) }
    ensures wide { IfOk result (IsOfWidth terms.new width) }
    ensures listed { IfOk result (Lists (second_words function s) terms.old terms.new words.old words.new) }
    ensures grew { OnOk result (Grew terms.old terms.new words.old words.new) }
{
    match function {
        Function::Subs => word(alloc, Op::Not(s), terms, words),
        _ => Ok(s),
    }
}

/// The bits of S where R has none.
fn not_r_and_s(
    alloc: Global,
    r: Term,
    s: Term,
    width: u8,
    terms: &mut Written,
    words: &mut Words,
) -> Result<Term, NoMemory>
    requires r { IsOfWidth terms.old width r }
    requires s { IsOfWidth terms.old width s }
    ensures is { IfOk result (λ f. (turned : ℕ) × Is terms.new (ops.Not r) turned × Is terms.new (ops.And turned s) f) }
    ensures wide { IfOk result (IsOfWidth terms.new width) }
    ensures listed { IfOk result (Lists (notrs_words r s) terms.old terms.new words.old words.new) }
    ensures grew { OnOk result (Grew terms.old terms.new words.old words.new) }
{
    let turned = word(alloc, Op::Not(r), terms, words)?;
    let term = word(alloc, Op::And(turned, s), terms, words)?;
    Ok(term)
}

/// The bits in which R and S are alike.
fn alike(
    alloc: Global,
    r: Term,
    s: Term,
    width: u8,
    terms: &mut Written,
    words: &mut Words,
) -> Result<Term, NoMemory>
    requires r { IsOfWidth terms.old width r }
    requires s { IsOfWidth terms.old width s }
    ensures is { IfOk result
        (λ f. (differing : ℕ) × Is terms.new (ops.Xor r s) differing × Is terms.new (ops.Not differing) f) }
    ensures wide { IfOk result (IsOfWidth terms.new width) }
    ensures listed { IfOk result (Lists (exnor_words r s) terms.old terms.new words.old words.new) }
    ensures grew { OnOk result (Grew terms.old terms.new words.old words.new) }
{
    let differing = word(alloc, Op::Xor(r, s), terms, words)?;
    let term = word(alloc, Op::Not(differing), terms, words)?;
    Ok(term)
}

/// The word F. A sum is over the addends.
#[tactic(auto, using(crate::proofs::Fitting::fits_operands))]
pub(crate) fn f(
    alloc: Global,
    function: Function,
    operands: (Term, Term),
    addends: (Term, Term),
    carry: Term,
    width: u8,
    terms: &mut Written,
    words: &mut Words,
) -> Result<Term, NoMemory>
    requires r { IsOfWidth terms.old width operands.0 }
    requires s { IsOfWidth terms.old width operands.1 }
    requires first { IsOfWidth terms.old width addends.0 }
    requires second { IsOfWidth terms.old width addends.1 }
    requires carry { IsOfWidth terms.old 1 carry }
    ensures is { IfOk result (IsF terms.new function operands.0 operands.1 addends.0 addends.1 carry) }
    ensures wide { IfOk result (IsOfWidth terms.new width) }
    ensures listed { IfOk result (Lists (f_words function operands.0 operands.1 addends.0 addends.1 carry)
        terms.old terms.new words.old words.new) }
    ensures grew { OnOk result (Grew terms.old terms.new words.old words.new) }
{
    let (r, s) = operands;
    match function {
        Function::Add | Function::Subr | Function::Subs => {
            word(alloc, Op::Sum(addends.0, addends.1, carry), terms, words)
        }
        Function::Or => word(alloc, Op::Or(r, s), terms, words),
        Function::And => word(alloc, Op::And(r, s), terms, words),
        Function::Notrs => not_r_and_s(alloc, r, s, width, terms, words),
        Function::Exor => word(alloc, Op::Xor(r, s), terms, words),
        Function::Exnor => alike(alloc, r, s, width, terms, words),
    }
}
