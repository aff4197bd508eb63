// Elements that are 0 before the first statement.
ghost use Rattle.std.specs.Prelude.{◌≡◌, ℕ, ◌-◌, ◌<◌, ◌≤◌, List, drop, length, slice_index, take, OnOk};
ghost use Rattle.mw_macro.specs.StepWords.{with_zeros};
ghost use Rattle.mw_term.specs.declared.word.Word.{Word};
ghost use Rattle.mw_term.specs.MemoryRead.{Held};
ghost use Rattle.mw_term.specs.Table.{IsTable, IsWidth};
ghost use Rattle.mw_term.specs.WordList.{list_of};
ghost use Rattle.mw_symmach.specs.Zeros.{AreWide, HaveZeros};

use crate::nodes::constant;
use mw_base::NoMemory;
use mw_term::{Term, Written};
use std::alloc::Global;

/// The elements up to a number that have no terms yet get terms of the value 0, of these widths.
pub(crate) fn push_zeros(
    alloc: Global,
    widths: &[u8],
    elements: usize,
    values: &mut Vec<Term>,
    terms: &mut Written,
) -> Result<(), NoMemory>
    requires table { IsTable terms.old }
    requires widths { (i : ℕ) → i < length widths.now → IsWidth (slice_index widths.now i) }
    requires elements { elements ≤ length widths.now }
    requires count { length values.old.items ≤ elements }
    requires wide { AreWide terms.old widths.now values.old.items }
    ensures zeros { OnOk result (HaveZeros terms.old terms.new widths.now values.old.items values.new.items
        (elements - length values.old.items)) }
    ensures listed { OnOk result ((words : List Word) (reads : List Held)
        → with_zeros (take (elements - length values.old.items) (drop (length values.old.items) widths.now))
        values.old.items (list_of terms.old.ops words reads)
        ≡ record { list = list_of terms.new.ops words reads; terms = values.new.items }) }
{
    for element in values.len()..elements {
        let zero = constant(alloc, 0, widths[element], terms)?;
        values.push(zero)?;
    }
    Ok(())
}
