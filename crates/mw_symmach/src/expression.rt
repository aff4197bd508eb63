// The term of an expression.
ghost use Rattle.std.specs.Prelude.{map, IfOk};
ghost use Rattle.mw_expr.specs.Tree.{view, trees_of};
ghost use Rattle.mw_macro.specs.ExpressionWords.{expression_words, words_of_parts};
ghost use Rattle.mw_symmem.specs.Listed.{ListsAllOver, ListsOver};
ghost use Rattle.mw_symmem.specs.Memory.{writes_of};
ghost use Rattle.mw_symmach.specs.Expressions.{IsReady, IsMade, AreReady, AreMade, shape_over};

use crate::joins::joined;
use crate::nodes::{choice, complement, constant, part, signed, widened};
use mw_base::NoMemory;
use mw_expr::Expr;
use mw_symmem::{Side, SymMemory, Words};
use mw_term::{Term, Written};
use std::alloc::Global;

/// The term that stands for an expression: its value is the expression's, for every assignment, and for every image
/// that the base reads fit, where each element has the value of its term and the memory holds what the side's holds.
///
/// There is a term for each element. The expression has a width over these terms and the memory, and the numbers of
/// base reads stay below 2^32.
///
/// # Errors
///
/// Memory ran out: the terms, the words and the memory may only be dropped.
#[cycle(expressions)]
pub fn expr_term(
    alloc: Global,
    expr: &Expr,
    elements: &[Term],
    side: Side,
    terms: &mut Written,
    words: &mut Words,
    memory: &mut SymMemory,
) -> Result<Term, NoMemory>
    requires { IsReady terms.old words.old memory.old elements.now (view expr.now) }
    ensures made { IfOk result (IsMade terms.old terms.new words.old words.new memory.old memory.new elements.now side
        (view expr.now)) }
    ensures listed { IfOk result (ListsOver
        (expression_words (shape_over terms.old elements.now memory.old) elements.now (writes_of memory.old side)
        (view expr.now)) terms.old terms.new words.old words.new memory.old memory.new) }
{
    match expr {
        Expr::Element(element) => Ok(elements[*element as usize]),
        Expr::Con(number, width) => constant(alloc, *number, *width, terms),
        Expr::Not(e) => {
            let operand = expr_term(alloc, e, elements, side, terms, words, memory)?;
            complement(alloc, operand, terms, words)
        }
        Expr::Two(sign, a, b) => {
            let left = expr_term(alloc, a, elements, side, terms, words, memory)?;
            let right = expr_term(alloc, b, elements, side, terms, words, memory)?;
            signed(alloc, *sign, left, right, terms, words)
        }
        Expr::Choose(condition, a, b) => {
            let chosen_by = expr_term(alloc, condition, elements, side, terms, words, memory)?;
            let first = expr_term(alloc, a, elements, side, terms, words, memory)?;
            let second = expr_term(alloc, b, elements, side, terms, words, memory)?;
            choice(alloc, chosen_by, first, second, terms, words)
        }
        Expr::Part(e, high, low) => {
            let whole = expr_term(alloc, e, elements, side, terms, words, memory)?;
            part(alloc, whole, *high, *low, terms, words)
        }
        Expr::Join(parts) => {
            let parts = part_terms(alloc, parts, elements, side, terms, words, memory)?;
            joined(alloc, &parts, terms, words)
        }
        Expr::Widen(e, width) => {
            let narrow = expr_term(alloc, e, elements, side, terms, words, memory)?;
            widened(alloc, narrow, *width, terms, words)
        }
        Expr::Memory(e) => {
            let address = expr_term(alloc, e, elements, side, terms, words, memory)?;
            memory.read(alloc, side, address, terms, words)
        }
    }
}

/// The terms that stand for some expressions, one after another.
#[cycle(expressions)]
fn part_terms(
    alloc: Global,
    parts: &[Expr],
    elements: &[Term],
    side: Side,
    terms: &mut Written,
    words: &mut Words,
    memory: &mut SymMemory,
) -> Result<Vec<Term>, NoMemory>
    requires { AreReady terms.old words.old memory.old elements.now (trees_of (map view parts.now)) }
    ensures made { IfOk result
        (λ made. AreMade terms.old terms.new words.old words.new memory.old memory.new elements.now side
        (trees_of (map view parts.now)) made.items) }
    ensures listed { IfOk result (λ made. ListsAllOver
        (words_of_parts (shape_over terms.old elements.now memory.old) elements.now (writes_of memory.old side)
        (trees_of (map view parts.now)))
        terms.old terms.new words.old words.new memory.old memory.new made.items) }
{
    let mut made = Vec::new(alloc);
    for part in parts {
        made.push(expr_term(alloc, part, elements, side, terms, words, memory)?)?;
    }
    Ok(made)
}
