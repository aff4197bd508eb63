// Words as texts, a token each: `sum(w14,w15,0'1)`. A variable stands by its kind, the kind's number and its width, as
// `line(0,1)`. An operand is `wN`, the word of number N, or `VALUE'WIDTH`, a constant. All numbers are decimal.
use crate::valued::SymbolicStop;
use mw_rowfile::Report;
use mw_symmem::Words;
use mw_term::{Op, Term, WordKind, Written, terms_have_widths};

/// The number behind the greatest one that a variable of a kind has here.
const KINDS_END: u32 = 4097;

/// The op of a term, if the term is there.
fn op_of(terms: &Written, term: Term) -> Option<Op> {
    terms_have_widths();
    if terms.fits(&Op::Not(term)) {
        Some(terms.op(term))
    } else {
        None
    }
}

/// Appends an operand.
///
/// # Errors
///
/// Neither a constant nor a word.
pub fn push_operand(
    report: &mut Report,
    terms: &Written,
    words: &Words,
    term: Term,
) -> Result<(), SymbolicStop> {
    if let Some(Op::Con(value, width)) = op_of(terms, term) {
        report.push_decimal(u64::from(value));
        report.push(b"'");
        report.push_decimal(u64::from(width));
        return Ok(());
    }
    match words.word_of(term) {
        Some(number) => {
            report.push(b"w");
            report.push_decimal(number);
            Ok(())
        }
        None => Err(SymbolicStop::Unlike),
    }
}

/// Appends an operation on these operands.
fn push_operation(
    report: &mut Report,
    terms: &Written,
    words: &Words,
    name: &[u8],
    operands: &[Term],
) -> Result<(), SymbolicStop> {
    report.push(name);
    let mut before: &[u8] = b"(";
    for term in operands {
        report.push(before);
        push_operand(report, terms, words, *term)?;
        before = b",";
    }
    report.push(b")");
    Ok(())
}

/// Appends a part of a word.
fn push_part(
    report: &mut Report,
    terms: &Written,
    words: &Words,
    term: Term,
    low: u8,
    width: u8,
) -> Result<(), SymbolicStop> {
    report.push(b"part(");
    push_operand(report, terms, words, term)?;
    report.push(b",");
    report.push_decimal(u64::from(low));
    report.push(b",");
    report.push_decimal(u64::from(width));
    report.push(b")");
    Ok(())
}

/// Of which kind a variable is, if the kind has this number.
fn kind_name(words: &Words, term: Term, number: u32) -> Option<&'static [u8]> {
    let kinds: [(&'static [u8], WordKind); 8] = [
        (b"element", WordKind::Element(number)),
        (b"line", WordKind::Line(number)),
        (b"noise", WordKind::Noise(number)),
        (b"beside-line", WordKind::BesideLine(number)),
        (b"beside-noise", WordKind::BesideNoise(number)),
        (b"base", WordKind::Base(number)),
        (b"input", WordKind::Input(number)),
        (b"probe", WordKind::Probe),
    ];
    for (name, kind) in kinds {
        if words.find(kind) == Some(term) {
            return Some(name);
        }
    }
    None
}

/// Appends a variable.
fn push_variable(
    report: &mut Report,
    words: &Words,
    term: Term,
    width: u8,
) -> Result<(), SymbolicStop> {
    for number in 0..KINDS_END {
        if let Some(name) = kind_name(words, term, number) {
            report.push(name);
            report.push(b"(");
            report.push_decimal(u64::from(number));
            report.push(b",");
            report.push_decimal(u64::from(width));
            report.push(b")");
            return Ok(());
        }
    }
    Err(SymbolicStop::Unlike)
}

/// Appends a word, by its term and its op.
fn push_word(
    report: &mut Report,
    terms: &Written,
    words: &Words,
    term: Term,
    op: Op,
) -> Result<(), SymbolicStop> {
    match op {
        Op::Con(..) => Err(SymbolicStop::Unlike),
        Op::Var(_, width) => push_variable(report, words, term, width),
        Op::Part(a, low, width) => push_part(report, terms, words, a, low, width),
        Op::Not(a) => push_operation(report, terms, words, b"not", &[a]),
        Op::And(a, b) => push_operation(report, terms, words, b"and", &[a, b]),
        Op::Or(a, b) => push_operation(report, terms, words, b"or", &[a, b]),
        Op::Xor(a, b) => push_operation(report, terms, words, b"xor", &[a, b]),
        Op::Sum(a, b, c) => push_operation(report, terms, words, b"sum", &[a, b, c]),
        Op::Cout(a, b, c) => push_operation(report, terms, words, b"cout", &[a, b, c]),
        Op::Ovf(a, b, c) => push_operation(report, terms, words, b"ovf", &[a, b, c]),
        Op::Eq(a, b) => push_operation(report, terms, words, b"eq", &[a, b]),
        Op::Lt(a, b) => push_operation(report, terms, words, b"lt", &[a, b]),
        Op::Ite(c, a, b) => push_operation(report, terms, words, b"ite", &[c, a, b]),
        Op::Join(high, low) => push_operation(report, terms, words, b"join", &[high, low]),
        Op::Tab(a) => push_operation(report, terms, words, b"tab", &[a]),
    }
}

/// Whether a term is a word behind the first ones, so many.
fn is_behind(words: &Words, term: Term, first: u64) -> bool {
    match words.word_of(term) {
        Some(number) => number > first,
        None => false,
    }
}

/// Appends the line of the words behind the first ones, so many: `words`, and then each with a blank before it.
///
/// # Errors
///
/// A word that isn't as in one run.
pub fn push_words(
    report: &mut Report,
    terms: &Written,
    words: &Words,
    first: u64,
) -> Result<(), SymbolicStop> {
    report.push(b"words");
    for position in 0..u32::MAX {
        let term = Term::at(position);
        let Some(op) = op_of(terms, term) else {
            report.push(b"\n");
            return Ok(());
        };
        if is_behind(words, term, first) {
            report.push(b" ");
            push_word(report, terms, words, term, op)?;
        }
    }
    Err(SymbolicStop::Unlike)
}
