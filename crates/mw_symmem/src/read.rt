// The parts of a memory read.
ghost use Rattle.std.specs.Prelude.{◌≡◌, ℕ, ◌<◌, List, [], ◌∷◌, length, Some, slice_get, slice_index, IfOk};
ghost use Rattle.mw_term.specs.MemoryRead as kept;
ghost use Rattle.mw_term.specs.declared.op.Op.TheVariants.{Eq, Ite};
ghost use Rattle.mw_term.specs.Table.{Fits, ArePair, IsBit, widths_of, term_width};
ghost use Rattle.mw_term.specs.WordList.{over_reads, over_write, over_writes, with_same, with_word};
ghost use Rattle.mw_symmem.specs.Listed.{Lists, ListsAll};
ghost use Rattle.mw_symmem.specs.Memory.{Has};
ghost use Rattle.mw_symmem.specs.Words.{IsNoVariable};
ghost use Rattle.mw_symmem.specs.Steps.{Grows, AreSame, IsBaseValue, IsSideValue};

use crate::held::Held;
use crate::words::Words;
use mw_base::NoMemory;
use mw_term::{Op, Term, Written};
use std::alloc::Global;

/// One word more, of an op that is no variable.
fn add(alloc: Global, op: Op, terms: &mut Written, words: &mut Words) -> Result<Term, NoMemory>
    requires fits { Fits terms.old op }
    requires none { IsNoVariable op }
    ensures grows { IfOk result (λ term. Grows terms.old terms.new words.old words.new (term ∷ [])) }
    ensures has { IfOk result (λ term. Has terms.new op term) }
    ensures listed { IfOk result (Lists (with_word op) terms.old terms.new words.old words.new) }
{
    let term = words.add(alloc, terms, op)?;
    Ok(term)
}

/// For each base read, oldest first, whether an address is its address.
pub(crate) fn same(
    alloc: Global,
    reads: &[Held],
    address: Term,
    terms: &mut Written,
    words: &mut Words,
) -> Result<Vec<Term>, NoMemory>
    requires { (k : ℕ) (read : kept.Held)
        → slice_get reads.now k ≡ Some read → Fits terms.old (Eq address read.address) }
    ensures grows { IfOk result (λ same. Grows terms.old terms.new words.old words.new same.items) }
    ensures are { IfOk result (λ same. AreSame terms.new address reads.now same.items) }
    ensures listed { IfOk result
        (λ same. ListsAll (with_same address reads.now) terms.old terms.new words.old words.new same.items) }
{
    let mut same = Vec::new(alloc);
    for read in reads {
        let term = add(alloc, Op::Eq(address, read.address()), terms, words)?;
        same.push(term)?;
    }
    Ok(same)
}

/// From the newest base read to the oldest: its variable where the address is its address, and else the value so far,
/// which begins as a base variable.
pub(crate) fn base_value(
    alloc: Global,
    reads: &[Held],
    same: &[Term],
    base: Term,
    terms: &mut Written,
    words: &mut Words,
) -> Result<Term, NoMemory>
    requires count { length same.now ≡ length reads.now }
    requires bits { (k : ℕ) → k < length same.now → IsBit (widths_of terms.old.ops) (slice_index same.now k) }
    requires pairs { (k : ℕ) (read : kept.Held) → slice_get reads.now k ≡ Some read
        → ArePair (widths_of terms.old.ops) read.word base }
    ensures made { IfOk result (λ value. (made : List ℕ) × Grows terms.old terms.new words.old words.new made
        × IsBaseValue terms.new reads.now same.now base made value) }
    ensures listed { IfOk result (Lists (over_reads reads.now same.now base) terms.old terms.new words.old words.new) }
{
    let mut value = base;
    let mut place = reads.len();
    while place > 0 {
        place -= 1;
        let op = Op::Ite(same[place], reads[place].word(), value);
        value = add(alloc, op, terms, words)?;
    }
    Ok(value)
}

/// A written word where an address is the write's, and else the value so far.
fn over_write(
    alloc: Global,
    write: Held,
    address: Term,
    value: Term,
    terms: &mut Written,
    words: &mut Words,
) -> Result<Term, NoMemory>
    requires same { Fits terms.old (Eq address write.address) }
    requires pair { ArePair (widths_of terms.old.ops) write.word value }
    ensures made { IfOk result (λ next. (s : ℕ) × Grows terms.old terms.new words.old words.new (s ∷ next ∷ [])
        × Has terms.new (Eq address write.address) s × Has terms.new (Ite s write.word value) next) }
    ensures listed { IfOk result (Lists (over_write write address value) terms.old terms.new words.old words.new) }
{
    let same = add(alloc, Op::Eq(address, write.address()), terms, words)?;
    let next = add(alloc, Op::Ite(same, write.word(), value), terms, words)?;
    Ok(next)
}

/// From the oldest write to the newest: the written word where the address is the write's, and else the value so far.
pub(crate) fn side_value(
    alloc: Global,
    writes: &[Held],
    address: Term,
    base: Term,
    terms: &mut Written,
    words: &mut Words,
) -> Result<Term, NoMemory>
    requires same { (k : ℕ) (write : kept.Held) → slice_get writes.now k ≡ Some write
        → Fits terms.old (Eq address write.address) }
    requires pairs { (k : ℕ) (write : kept.Held) → slice_get writes.now k ≡ Some write
        → ArePair (widths_of terms.old.ops) write.word base }
    ensures made { IfOk result (λ value. (made : List ℕ) × Grows terms.old terms.new words.old words.new made
        × IsSideValue terms.new address writes.now base made value) }
    ensures listed { IfOk result (Lists (over_writes address writes.now base) terms.old terms.new words.old words.new) }
{
    let mut value = base;
    for write in writes {
        value = over_write(alloc, *write, address, value, terms, words)?;
    }
    Ok(value)
}
