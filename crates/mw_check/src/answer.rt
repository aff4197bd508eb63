// Whether the sides of a question are equal.
ghost use Rattle.std.specs.Prelude.{◌≡◌, ◌<◌, ◌≤◌, ◌%◌, ◌^◌, ℕ, List, [], All, None, Some, IsSome, length, not, IfOk};
ghost use Rattle.std.specs.Prelude.{IfErr, IfSome};
ghost use Rattle.mw_blast.specs.Bits.{AreBits};
ghost use Rattle.mw_blast.specs.Causes.{IsOver};
ghost use Rattle.mw_blast.specs.declared.fault.BlastFault.TheVariants as blast;
ghost use Rattle.mw_term.specs.Assigned.{given_by};
ghost use Rattle.mw_term.specs.Cofactors.{Agree};
ghost use Rattle.mw_term.specs.Functions.{always};
ghost use Rattle.mw_term.specs.Table.{table_of, IsTable};
ghost use Rattle.mw_term.specs.WordList.{word_number};
ghost use Rattle.mw_dd.specs.Diagrams.{IsFirst};
ghost use Rattle.mw_dd.specs.Nodes.{IsDd, function_of};
ghost use Rattle.mw_check.specs.declared.equality.Equality.TheVariants as equality;
ghost use Rattle.mw_check.specs.Equal.{values_from, IsFirstDifference, IsOverBudget, IsAnswer};
ghost use Rattle.mw_check.specs.Question.{asked_of, IsQuestion, AlwaysAgree};
ghost use Rattle.mw_check.specs.QuestionTerms.{AreDeclared, IsListOf};

use crate::equality::Equality;
use crate::question::Question;
use mw_base::{Items, NoMemory};
use mw_blast::{BlastFault, Shared};
use mw_dd::{Dd, Diagrams};
use mw_symmach::expr_term;
use mw_symmem::{Side, SymMemory, Words};
use mw_term::{Assignment, Op, Places, ShortcutBook, Term, WordKind, Written};
use std::alloc::Global;

/// One variable for each of some widths, at the head of a list.
fn variables(
    alloc: Global,
    terms: &mut Written,
    words: &mut Words,
    widths: &[u8],
) -> Result<Vec<Term>, NoMemory>
    requires terms { terms.old ≡ table_of [] [] }
    requires table { IsTable terms.old }
    requires words { words.old ≡ [] }
    requires widths { All (λ w. (1 ≤ w) × (w ≤ 32)) widths.now }
    ensures { IfOk result (λ elements. AreDeclared widths.now terms.new words.new elements.items) }
{
    let mut elements = Vec::new(alloc);
    for i in 0..widths.len() {
        let Ok(number) = u32::try_from(i) else {
            return Err(NoMemory);
        };
        elements.push(words.fresh(alloc, terms, WordKind::Element(number), widths[i])?)?;
    }
    Ok(elements)
}

/// The list of a question, as terms and their words, and the term at its end, which is 1 where both sides have one
/// value.
fn question_term(
    alloc: Global,
    terms: &mut Written,
    words: &mut Words,
    question: &Question,
) -> Result<Term, NoMemory>
    requires terms { terms.old ≡ table_of [] [] }
    requires table { IsTable terms.old }
    requires words { words.old ≡ [] }
    requires question { IsQuestion (asked_of question.now) }
    ensures { IfOk result (IsListOf (asked_of question.now) terms.new words.new) }
{
    let elements = variables(alloc, terms, words, question.shape.widths.as_slice())?;
    // A question reads no memory, so this one may have any widths.
    let mut memory = SymMemory::new(alloc, 1, 1);
    let left = expr_term(
        alloc,
        &question.left,
        &elements,
        Side::Board,
        terms,
        words,
        &mut memory,
    )?;
    let right = expr_term(
        alloc,
        &question.right,
        &elements,
        Side::Board,
        terms,
        words,
        &mut memory,
    )?;
    words.add(alloc, terms, Op::Eq(left, right))
}

/// The first assignment under which a function doesn't hold; none where it always holds.
fn first_without(
    alloc: Global,
    dds: &mut Diagrams,
    same: Dd,
) -> Result<Option<Assignment>, NoMemory>
    requires { IsDd dds.old same }
    ensures first { IfOk result (λ o. IfSome o (IsFirst (λ given. not (function_of dds.old same given)))) }
    ensures none { IfOk result (λ o. o ≡ None → Agree (function_of dds.old same) always) }
{
    let never = dds.constant(false);
    let always = dds.constant(true);
    // No row of the term table has this operation, so the caller's budget isn't asked. There can't be more nodes than
    // this.
    match dds.ite(alloc, same, never, always, u32::MAX) {
        Ok(differ) => dds.some_assignment(alloc, differ),
        Err(_) => Err(NoMemory),
    }
}

/// The value that an assignment gives to the variable of this number, of 1 to 32 bits.
fn value_at(given: &Assignment, number: u64, width: u8) -> u32
    requires { (1 ≤ width) × (width ≤ 32) }
    ensures { result ≡ given_by given.now number % 2 ^ width }
{
    (u64::from(given.number(number)) % (1 << width)) as u32
}

/// The values that an assignment gives to variables of these widths.
fn values_of(alloc: Global, given: &Assignment, widths: &[u8]) -> Result<Items<u32>, NoMemory>
    requires { All (λ w. (1 ≤ w) × (w ≤ 32)) widths.now }
    ensures { IfOk result (λ values. values ≡ values_from 1 widths.now (given_by given.now)) }
{
    let mut values = Vec::new(alloc);
    for i in 0..widths.len() {
        values.push(value_at(given, i as u64 + 1, widths[i]))?;
    }
    Ok(Items::from_vec(values))
}

/// The functions of the bits of a term of a list, where each operation is asked within a budget.
///
/// # Errors
///
/// - `Over`: an operation of the term that is named, which is one of the list, is over the budget at the bit that is
///   named.
/// - `NoMemory`: memory ran out.
fn bits_within(
    alloc: Global,
    terms: &Written,
    dds: &mut Diagrams,
    term: Term,
    budget: u32,
    book: &ShortcutBook,
) -> Result<Vec<Dd>, BlastFault>
    requires { term < length terms.now.ops }
    ensures bits { IfOk result (λ bits. AreBits terms.now dds.new term bits.items) }
    ensures over { IfErr result (λ fault. (named bit : ℕ) → fault ≡ blast.Over named bit
        → IsOver terms.now named bit budget) }
{
    let mut shared = Shared::new(alloc, terms.map())?;
    let mut places = Places::new(alloc);
    shared.bits(alloc, terms, &mut places, dds, term, budget, book)
}

/// The answer where bits weren't made. A term that is over the budget is a word.
///
/// # Errors
///
/// Memory ran out.
fn unknown(words: &Words, fault: BlastFault) -> Result<Equality, NoMemory>
    requires { (term bit : ℕ) → fault ≡ blast.Over term bit → IsSome (word_number words.now term) }
    ensures { IfOk result (λ e. (term : ℕ) × (bit : ℕ) × (word : ℕ) × (fault ≡ blast.Over term bit)
        × (word_number words.now term ≡ Some word) × (e ≡ equality.Unknown word bit)) }
{
    match fault {
        BlastFault::Over(term, bit) => {
            let Some(word) = words.word_of(term) else {
                unreachable!()
            };
            Ok(Equality::Unknown { word, bit })
        }
        BlastFault::NoMemory => Err(NoMemory),
    }
}

/// The answer to a question, by its list and the term at the end of that.
fn answer(
    alloc: Global,
    question: &Question,
    terms: &Written,
    words: &Words,
    same: Term,
    budget: u32,
    book: &ShortcutBook,
) -> Result<Equality, NoMemory>
    requires question { IsQuestion (asked_of question.now) }
    requires list { IsListOf (asked_of question.now) terms.now words.now same }
    ensures { IfOk result (IsAnswer (asked_of question.now) budget) }
{
    let mut dds = Diagrams::new(alloc)?;
    let bits = match bits_within(alloc, terms, &mut dds, same, budget, book) {
        Ok(bits) => bits,
        Err(fault) => return unknown(words, fault),
    };
    match first_without(alloc, &mut dds, bits[0])? {
        None => Ok(Equality::Yes),
        Some(given) => Ok(Equality::No(values_of(
            alloc,
            &given,
            question.shape.widths.as_slice(),
        )?)),
    }
}

/// Whether the sides of a question are equal for all values of its variables, asked within a budget of joint cofactors
/// for each operation.
///
/// - `Yes`: they are.
/// - `No`: they differ under these values, and under none that are earlier in the order of variables: by bit, then by
///   the variable's number, 0 before 1.
/// - `Unknown`: in the question's list of words an operation of the word of this number has, at this bit, more joint
///   cofactors than the budget. So where none has, the answer is yes or no.
///
/// # Errors
///
/// Memory ran out.
pub fn equal(
    alloc: Global,
    question: &Question,
    nodes: u32,
    book: &ShortcutBook,
) -> Result<Equality, NoMemory>
    requires { IsQuestion (asked_of question.now) }
    ensures yes { IfOk result (λ e. e ≡ equality.Yes → AlwaysAgree (asked_of question.now)) }
    ensures no { IfOk result (λ e. (values : List ℕ) → e ≡ equality.No values
        → IsFirstDifference (asked_of question.now) values) }
    ensures unknown { IfOk result (λ e. (word bit : ℕ) → e ≡ equality.Unknown word bit
        → IsOverBudget (asked_of question.now) word bit nodes) }
{
    let mut terms = Written::new(alloc, &[])?;
    let mut words = Words::new(alloc);
    let same = question_term(alloc, &mut terms, &mut words, question)?;
    answer(alloc, question, &terms, &words, same, nodes, book)
}
