// The words of single nodes of expressions.
ghost use Rattle.std.specs.Prelude.{◌≡◌, ℕ, ◌+◌, ◌-◌, ◌%◌, ◌^◌, ◌<◌, ◌≤◌, ◌==◌, List, length, if◌then◌else◌, IfOk};
ghost use Rattle.mw_base.specs.Words as bits;
ghost use Rattle.mw_expr.specs.Values.{pair_value};
ghost use Rattle.mw_expr.specs.Widths.{width_after};
ghost use Rattle.mw_term.specs.Table.{ArePair, Fits, IsBit, IsTable, IsWidth, term_width, widths_of, width_over};
ghost use Rattle.mw_term.specs.Values.{term_value, value_over};
ghost use Rattle.mw_term.specs.declared.word.Word.{Word};
ghost use Rattle.mw_term.specs.declared.op.Op.TheVariants.{Ite, Join};
ghost use Rattle.mw_term.specs.WordList.{with_complement, with_constant, with_part, with_sum, with_word};
ghost use Rattle.mw_term.specs.WordList.{with_zeros_above};
ghost use Rattle.mw_macro.specs.ExpressionWords.{difference_words, sign_words, unequal_words};
ghost use Rattle.mw_symmem.specs.Listed.{Lists};
ghost use Rattle.mw_symmem.specs.Words.{IsNoVariable};
ghost use Rattle.mw_symmach.specs.GivenTerms.{Gives};

use mw_base::NoMemory;
use mw_expr::Pair2;
use mw_symmem::Words;
use mw_term::{Op, Term, Written};
use std::alloc::Global;

/// The next word, with the value of an op that is no variable.
fn add(alloc: Global, op: Op, terms: &mut Written, words: &mut Words) -> Result<Term, NoMemory>
    requires fits { Fits terms.old op }
    requires none { IsNoVariable op }
    ensures gives { IfOk result (λ term. Gives terms.old terms.new words.old words.new (width_over terms.old op) term
        (λ given. value_over terms.old given op)) }
    ensures listed { IfOk result (Lists (with_word op) terms.old terms.new words.old words.new) }
{
    let term = words.add(alloc, terms, op)?;
    Ok(term)
}

/// A constant, which is no word.
pub(crate) fn constant(
    alloc: Global,
    number: u32,
    width: u8,
    terms: &mut Written,
) -> Result<Term, NoMemory>
    requires width { IsWidth width }
    requires below { number < 2 ^ width }
    ensures gives { IfOk result
        (λ term. (ws : List Word) → Gives terms.old terms.new ws ws width term (λ given. number)) }
    ensures listed { IfOk result
        (λ term. (ws : List Word) → Lists (with_constant number width) terms.old terms.new ws ws term) }
{
    let term = terms.write(alloc, Op::Con(number, width))?;
    Ok(term)
}

/// The complement of a term.
pub(crate) fn complement(
    alloc: Global,
    operand: Term,
    terms: &mut Written,
    words: &mut Words,
) -> Result<Term, NoMemory>
    requires { operand < length terms.old.ops }
    ensures gives { IfOk result (λ term. Gives terms.old terms.new words.old words.new (term_width terms.old operand)
        term (λ given. bits.complement (term_width terms.old operand) (term_value terms.old given operand))) }
    ensures listed { IfOk result (Lists (with_complement operand) terms.old terms.new words.old words.new) }
{
    let term = add(alloc, Op::Not(operand), terms, words)?;
    Ok(term)
}

/// The sum of two terms and a carry in of 0 or 1.
fn sum(
    alloc: Global,
    a: Term,
    b: Term,
    carry: u32,
    terms: &mut Written,
    words: &mut Words,
) -> Result<Term, NoMemory>
    requires pair { ArePair (widths_of terms.old.ops) a b }
    requires small { carry < 2 }
    ensures gives { IfOk result (λ term. Gives terms.old terms.new words.old words.new (term_width terms.old a) term
        (λ given. (term_value terms.old given a + term_value terms.old given b + carry) % 2 ^ term_width terms.old a)) }
    ensures listed { IfOk result (Lists (with_sum a b carry) terms.old terms.new words.old words.new) }
{
    let carry_in = constant(alloc, carry, 1, terms)?;
    let term = add(alloc, Op::Sum(a, b, carry_in), terms, words)?;
    Ok(term)
}

/// The difference of two terms: the sum of the first, the second's complement and a carry in of 1.
fn difference(
    alloc: Global,
    a: Term,
    b: Term,
    terms: &mut Written,
    words: &mut Words,
) -> Result<Term, NoMemory>
    requires pair { ArePair (widths_of terms.old.ops) a b }
    requires table { IsTable terms.old }
    ensures gives { IfOk result (λ term. Gives terms.old terms.new words.old words.new (term_width terms.old a) term
        (λ given. (term_value terms.old given a + (2 ^ term_width terms.old a - term_value terms.old given b))
        % 2 ^ term_width terms.old a)) }
    ensures listed { IfOk result (Lists (difference_words a b) terms.old terms.new words.old words.new) }
{
    let turned = complement(alloc, b, terms, words)?;
    let term = sum(alloc, a, turned, 1, terms, words)?;
    Ok(term)
}

/// Whether two terms differ: the complement of whether they are equal.
fn unequal(
    alloc: Global,
    a: Term,
    b: Term,
    terms: &mut Written,
    words: &mut Words,
) -> Result<Term, NoMemory>
    requires pair { ArePair (widths_of terms.old.ops) a b }
    ensures gives { IfOk result (λ term. Gives terms.old terms.new words.old words.new 1 term
        (λ given. bits.complement 1 (bits.num (term_value terms.old given a == term_value terms.old given b)))) }
    ensures listed { IfOk result (Lists (unequal_words a b) terms.old terms.new words.old words.new) }
{
    let same = add(alloc, Op::Eq(a, b), terms, words)?;
    let term = complement(alloc, same, terms, words)?;
    Ok(term)
}

/// What a sign makes of two terms.
pub(crate) fn signed(
    alloc: Global,
    sign: Pair2,
    a: Term,
    b: Term,
    terms: &mut Written,
    words: &mut Words,
) -> Result<Term, NoMemory>
    requires pair { ArePair (widths_of terms.old.ops) a b }
    requires table { IsTable terms.old }
    ensures gives { IfOk result (λ term. Gives terms.old terms.new words.old words.new
        (width_after sign (term_width terms.old a)) term
        (λ given.
        pair_value sign (term_width terms.old a) (term_value terms.old given a) (term_value terms.old given b))) }
    ensures listed { IfOk result (Lists (sign_words sign a b) terms.old terms.new words.old words.new) }
{
    match sign {
        Pair2::And => add(alloc, Op::And(a, b), terms, words),
        Pair2::Or => add(alloc, Op::Or(a, b), terms, words),
        Pair2::Xor => add(alloc, Op::Xor(a, b), terms, words),
        Pair2::Add => sum(alloc, a, b, 0, terms, words),
        Pair2::Sub => difference(alloc, a, b, terms, words),
        Pair2::Same => add(alloc, Op::Eq(a, b), terms, words),
        Pair2::Differ => unequal(alloc, a, b, terms, words),
        Pair2::Less => add(alloc, Op::Lt(a, b), terms, words),
    }
}

/// The first of two terms where a term of one bit is 1, else the second.
pub(crate) fn choice(
    alloc: Global,
    condition: Term,
    a: Term,
    b: Term,
    terms: &mut Written,
    words: &mut Words,
) -> Result<Term, NoMemory>
    requires bit { IsBit (widths_of terms.old.ops) condition }
    requires pair { ArePair (widths_of terms.old.ops) a b }
    ensures gives { IfOk result (λ term. Gives terms.old terms.new words.old words.new (term_width terms.old a) term
        (λ given. if term_value terms.old given condition == 1 then term_value terms.old given a
        else term_value terms.old given b)) }
    ensures listed { IfOk result (Lists (with_word (Ite condition a b)) terms.old terms.new words.old words.new) }
{
    let term = add(alloc, Op::Ite(condition, a, b), terms, words)?;
    Ok(term)
}

/// The bits of a term from a highest one down to a lowest one: all of them are that term itself.
pub(crate) fn part(
    alloc: Global,
    whole: Term,
    high: u8,
    low: u8,
    terms: &mut Written,
    words: &mut Words,
) -> Result<Term, NoMemory>
    requires there { whole < length terms.old.ops }
    requires order { low ≤ high }
    requires inside { high < term_width terms.old whole }
    requires table { IsTable terms.old }
    ensures gives { IfOk result (λ term. Gives terms.old terms.new words.old words.new (high - low + 1) term
        (λ given. bits.part low (high - low + 1) (term_value terms.old given whole))) }
    ensures listed { IfOk result
        (Lists (with_part (term_width terms.old whole) whole low (high - low + 1)) terms.old terms.new
        words.old words.new) }
{
    let all = terms.width(whole);
    let width = high - low + 1;
    if width == all {
        return Ok(whole);
    }
    let term = add(alloc, Op::Part(whole, low, width), terms, words)?;
    Ok(term)
}

/// A term as a word of so many bits, which are no fewer: as many are that term itself, and more are 0 above it.
pub(crate) fn widened(
    alloc: Global,
    narrow: Term,
    width: u8,
    terms: &mut Written,
    words: &mut Words,
) -> Result<Term, NoMemory>
    requires there { narrow < length terms.old.ops }
    requires wider { term_width terms.old narrow ≤ width }
    requires most { width ≤ 32 }
    requires table { IsTable terms.old }
    ensures gives { IfOk result (λ term. Gives terms.old terms.new words.old words.new width term
        (λ given. term_value terms.old given narrow)) }
    ensures listed { IfOk result
        (Lists (with_zeros_above (term_width terms.old narrow) width narrow) terms.old terms.new words.old words.new) }
{
    let from = terms.width(narrow);
    if from == width {
        return Ok(narrow);
    }
    let zeros = constant(alloc, 0, width - from, terms)?;
    let term = add(alloc, Op::Join(zeros, narrow), terms, words)?;
    Ok(term)
}

/// A term above another.
pub(crate) fn above(
    alloc: Global,
    high: Term,
    low: Term,
    terms: &mut Written,
    words: &mut Words,
) -> Result<Term, NoMemory>
    requires high { high < length terms.old.ops }
    requires low { low < length terms.old.ops }
    requires most { term_width terms.old high + term_width terms.old low ≤ 32 }
    ensures gives { IfOk result (λ term. Gives terms.old terms.new words.old words.new
        (term_width terms.old high + term_width terms.old low) term
        (λ given.
        bits.join (term_width terms.old low) (term_value terms.old given high) (term_value terms.old given low))) }
    ensures listed { IfOk result (Lists (with_word (Join high low)) terms.old terms.new words.old words.new) }
{
    let term = add(alloc, Op::Join(high, low), terms, words)?;
    Ok(term)
}
