// A long chain of terms.
use mw_base::NoMemory;
use mw_blast::Blast;
use mw_dd::Diagrams;
use mw_term::{Op, ShortcutBook, Term, Terms, terms_have_widths};
use std::alloc::Global;
use std::test::Fail;

/// A term with an op. It fits.
fn build(alloc: Global, terms: &mut Terms, op: Op) -> Result<Term, NoMemory> {
    if terms.fits(&op) {
        terms.build(alloc, op, &ShortcutBook::new(alloc))
    } else {
        Err(NoMemory)
    }
}

/// Whether each bit of a term holds for all values.
fn holds(alloc: Global, terms: &Terms, term: Term) -> Result<bool, NoMemory> {
    terms_have_widths();
    if !terms.fits(&Op::Not(term)) {
        return Ok(false);
    }
    let mut dds = Diagrams::new(alloc)?;
    let mut blast = Blast::new(alloc);
    let bits = blast.bits(alloc, terms, &mut dds, term, 1_000_000);
    let always = dds.constant(true);
    drop(blast);
    drop(dds);
    Ok(match bits {
        Ok(bits) => bits.iter().all(|bit| *bit == always),
        Err(_) => false,
    })
}

/// Whether a hundred thousand complements, one of the other, are the word itself.
fn is_word_itself(alloc: Global, terms: &mut Terms) -> Result<bool, NoMemory> {
    let x = build(alloc, terms, Op::Var(1, 2))?;
    let mut last = x;
    for _ in 0..100_000 {
        last = build(alloc, terms, Op::Not(last))?;
    }
    let same = build(alloc, terms, Op::Eq(last, x))?;
    holds(alloc, terms, same)
}

#[test]
fn long_chain(rt: HostRuntime) -> Result<(), Fail> {
    let mut terms = Terms::new(rt.alloc(), &[])?;
    let same = is_word_itself(rt.alloc(), &mut terms);
    drop(terms);
    assert!(rt; same?);
    Ok(())
}
