// `call terms RULES..`: reads the file `text`, whose lines are made in turn in one table of terms, by a book of the
// shortcuts of these names, in this order. A line is an op: its name, and behind it numbers, all decimal. An operand is
// a term by its number, from 0, the word of a variable and the number of a constant stand before the width, and the
// lowest bit of a part before its width, as in `var 1 4`, `con 15 4`, `not 0`, `sum 0 2 1` and `part 3 0 4`. The line
// gives the number of the term that is built, with `hinted` behind it where that term has another op. A line `hints OP`
// gives what each of these shortcuts hints of the op, of which no term is made.
ghost use Rattle.mw_term.specs.Hints.{IsRight};
ghost use Rattle.mw_term.specs.Table.{Fits};

use mw_rowfile::{Fault, Report, wrong};
use mw_short::{
    all_constant, double_not, fixed_choice, neutral_constant, part_of_join, same_operands,
};
use mw_term::{Hint, Op, ShortcutBook, Term, Terms};
use std::alloc::Global;

/// A shortcut.
#[derive(Clone, Copy)]
enum Rule {
    DoubleNot,
    SameOperands,
    NeutralConstant,
    FixedChoice,
    AllConstant,
    PartOfJoin,
}

impl Rule {
    /// The shortcut of a name.
    fn named(name: &str) -> Result<Rule, Fault> {
        match name {
            "double_not" => Ok(Rule::DoubleNot),
            "same_operands" => Ok(Rule::SameOperands),
            "neutral_constant" => Ok(Rule::NeutralConstant),
            "fixed_choice" => Ok(Rule::FixedChoice),
            "all_constant" => Ok(Rule::AllConstant),
            "part_of_join" => Ok(Rule::PartOfJoin),
            _ => Err(wrong("no such shortcut")),
        }
    }

    /// What it hints of an op, which fits the table.
    fn hint(self, terms: &Terms, op: Op) -> Hint
        requires { Fits terms.now op }
        ensures { IsRight terms.now op result }
    {
        match self {
            Rule::DoubleNot => double_not(terms, op),
            Rule::SameOperands => same_operands(terms, op),
            Rule::NeutralConstant => neutral_constant(terms, op),
            Rule::FixedChoice => fixed_choice(terms, op),
            Rule::AllConstant => all_constant(terms, op),
            Rule::PartOfJoin => part_of_join(terms, op),
        }
    }
}

/// A number of a width or a bit.
fn short(number: u32) -> Option<u8> {
    match u8::try_from(number) {
        Ok(number) => Some(number),
        Err(_) => None,
    }
}

/// The op of a name and two numbers.
fn op_of_two(name: &str, a: u32, b: u32) -> Option<Op> {
    let (first, second) = (Term::at(a), Term::at(b));
    let op = match name {
        "var" => Op::Var(u64::from(a), short(b)?),
        "con" => Op::Con(a, short(b)?),
        "and" => Op::And(first, second),
        "or" => Op::Or(first, second),
        "xor" => Op::Xor(first, second),
        "eq" => Op::Eq(first, second),
        "lt" => Op::Lt(first, second),
        "join" => Op::Join(first, second),
        _ => return None,
    };
    Some(op)
}

/// The op of a name and three numbers.
fn op_of_three(name: &str, a: u32, b: u32, c: u32) -> Option<Op> {
    let (first, second, third) = (Term::at(a), Term::at(b), Term::at(c));
    let op = match name {
        "sum" => Op::Sum(first, second, third),
        "cout" => Op::Cout(first, second, third),
        "ovf" => Op::Ovf(first, second, third),
        "ite" => Op::Ite(first, second, third),
        "part" => Op::Part(first, short(b)?, short(c)?),
        _ => return None,
    };
    Some(op)
}

/// The op of a name and numbers.
fn op_of(name: &str, numbers: &[u32]) -> Option<Op> {
    match numbers {
        [a] if name == "not" => Some(Op::Not(Term::at(*a))),
        [a, b] => op_of_two(name, *a, *b),
        [a, b, c] => op_of_three(name, *a, *b, *c),
        _ => None,
    }
}

/// The numbers of a text.
fn numbers_in(alloc: Global, text: &str) -> Result<Vec<u32>, Fault> {
    let mut numbers = Vec::new(alloc);
    for word in text.split_whitespace() {
        match word.parse::<u32>() {
            Ok(number) => numbers.push(number)?,
            Err(_) => return Err(wrong("no number")),
        }
    }
    Ok(numbers)
}

/// The op of a text.
fn op_in(alloc: Global, text: &str) -> Result<Op, Fault> {
    let Some((name, numbers)) = text.split_once(' ') else {
        return Err(wrong("an op has numbers"));
    };
    let numbers = numbers_in(alloc, numbers)?;
    match op_of(name, &numbers) {
        Some(op) => Ok(op),
        None => Err(wrong("no such op")),
    }
}

/// Appends a hint.
fn push_hint(report: &mut Report, hint: Hint) {
    match hint {
        Hint::Nothing => report.push(b"nothing"),
        Hint::Constant(number) => {
            report.push(b"constant(");
            report.push_decimal(u64::from(number));
            report.push(b")");
        }
        Hint::Operand(place) => {
            report.push(b"operand(");
            report.push_decimal(u64::from(place));
            report.push(b")");
        }
        Hint::Inner(place, inner) => {
            report.push(b"inner(");
            report.push_decimal(u64::from(place));
            report.push(b",");
            report.push_decimal(u64::from(inner));
            report.push(b")");
        }
    }
}

/// Appends what each shortcut hints of an op.
fn push_hints(report: &mut Report, rules: &[Rule], terms: &Terms, op: Op) -> Result<(), Fault> {
    if !terms.fits(&op) {
        return Err(wrong("the op doesn't fit"));
    }
    report.push(b"hints");
    for rule in rules {
        report.push(b" ");
        push_hint(report, rule.hint(terms, op));
    }
    Ok(())
}

/// Builds a term of an op, and appends its number.
fn push_built(
    alloc: Global,
    report: &mut Report,
    terms: &mut Terms,
    op: Op,
    book: &ShortcutBook,
) -> Result<(), Fault> {
    if !terms.fits(&op) {
        return Err(wrong("the op doesn't fit"));
    }
    let term = terms.build(alloc, op, book)?;
    report.push_decimal(term.position() as u64);
    if terms.op(term) != op {
        report.push(b" hinted");
    }
    Ok(())
}

/// Appends what a line gives.
fn push_line(
    alloc: Global,
    report: &mut Report,
    rules: &[Rule],
    terms: &mut Terms,
    text: &str,
    book: &ShortcutBook,
) -> Result<(), Fault> {
    let asked = text.strip_prefix("hints ");
    match op_in(alloc, asked.unwrap_or(text)) {
        Ok(op) if asked.is_some() => push_hints(report, rules, terms, op),
        Ok(op) => push_built(alloc, report, terms, op, book),
        Err(fault) => Err(fault),
    }
}

/// Appends what the lines of a text give.
fn push_lines(
    alloc: Global,
    report: &mut Report,
    rules: &[Rule],
    terms: &mut Terms,
    text: &str,
    book: &ShortcutBook,
) -> Result<(), Fault> {
    for line in text.lines() {
        push_line(alloc, report, rules, terms, line, book)?;
        report.push(b"\n");
    }
    Ok(())
}

/// The shortcuts of some names.
fn rules_of(alloc: Global, names: &[String]) -> Result<Vec<Rule>, Fault> {
    let mut rules = Vec::new(alloc);
    for name in names {
        rules.push(Rule::named(name)?)?;
    }
    Ok(rules)
}

/// Appends what the lines of a text give, in a table of their own.
fn push_text(
    alloc: Global,
    report: &mut Report,
    rules: &[Rule],
    text: &str,
    book: &ShortcutBook,
) -> Result<(), Fault> {
    let mut terms = Terms::new(alloc, &[])?;
    let outcome = push_lines(alloc, report, rules, &mut terms, text, book);
    drop(terms);
    outcome
}

/// Appends what the lines of a text give, by the shortcuts of these names.
///
/// # Errors
///
/// A name or a line that isn't right, and want of memory.
pub fn run(alloc: Global, report: &mut Report, names: &[String], text: &str) -> Result<(), Fault> {
    let rules = rules_of(alloc, names)?;
    let mut book = ShortcutBook::new(alloc);
    for rule in &rules {
        let rule = *rule;
        let hint = move |terms: &Terms, op: Op| -> Hint
            requires { Fits terms.now op }
            ensures { IsRight terms.now op result }
        { rule.hint(terms, op) };
        book.add(alloc, Box::new(alloc, hint)?)?;
    }
    let outcome = push_text(alloc, report, &rules, text, &book);
    drop(book);
    outcome
}
