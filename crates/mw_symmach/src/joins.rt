// The joins of terms.
ghost use Rattle.std.specs.Prelude.{ℕ, ◌<◌, ◌≤◌, length, slice_index, IfOk};
ghost use Rattle.mw_macro.specs.ExpressionWords.{join_words};
ghost use Rattle.mw_symmem.specs.Listed.{Lists};
ghost use Rattle.mw_symmach.specs.GivenTerms.{Gives};
ghost use Rattle.mw_symmach.specs.Expressions.{AreTerms};
ghost use Rattle.mw_symmach.specs.Joined.{width_together, joined_value};

use crate::nodes::above;
use mw_base::NoMemory;
use mw_symmem::Words;
use mw_term::{Term, Written};
use std::alloc::Global;

/// The join of some terms, the first highest: each below the join of those before it.
pub(crate) fn joined(
    alloc: Global,
    parts: &[Term],
    terms: &mut Written,
    words: &mut Words,
) -> Result<Term, NoMemory>
    requires some { 0 < length parts.now }
    requires there { AreTerms terms.old parts.now }
    requires most { width_together terms.old parts.now ≤ 32 }
    ensures gives { IfOk result (λ term. Gives terms.old terms.new words.old words.new
        (width_together terms.old parts.now) term (λ given. joined_value terms.old given parts.now)) }
    ensures listed { IfOk result (Lists (join_words parts.now) terms.old terms.new words.old words.new) }
{
    let mut whole = parts[0];
    for place in 1..parts.len() {
        whole = above(alloc, whole, parts[place], terms, words)?;
    }
    Ok(whole)
}
