// Values of terms under an assignment.
ghost use Rattle.std.specs.Prelude.{◌≡◌, IfOk, IsTrue};
ghost use Rattle.mw_symmem.specs.Memory.{IsOfWidth};

use mw_base::NoMemory;
use mw_rowfile::{Fault, wrong};
use mw_symmem::Words;
use mw_term::{Assignment, Op, Term, WordKind, Written, terms_have_widths};
use std::alloc::{AllocError, AllocFailed, Global};

/// Why a symbolic run doesn't come to its end.
#[derive(Clone, Copy, Debug, PartialEq, Eq)]
pub enum SymbolicStop {
    /// Memory ran out.
    NoMemory,
    /// Something isn't as it is in one run: a second variable of a kind, too many bits, or a term that isn't there.
    Unlike,
}

impl From<NoMemory> for SymbolicStop {
    fn from(_: NoMemory) -> SymbolicStop {
        SymbolicStop::NoMemory
    }
}

impl From<AllocError> for SymbolicStop {
    fn from(_: AllocError) -> SymbolicStop {
        SymbolicStop::NoMemory
    }
}

impl<T: Drop> From<AllocFailed<T>> for SymbolicStop {
    fn from(_: AllocFailed<T>) -> SymbolicStop {
        SymbolicStop::NoMemory
    }
}

impl From<SymbolicStop> for Fault {
    fn from(stop: SymbolicStop) -> Fault {
        match stop {
            SymbolicStop::NoMemory => Fault::NoMemory,
            SymbolicStop::Unlike => wrong("a symbolic run is unlike a run"),
        }
    }
}

/// A number in 32 bits.
pub fn numbered(number: usize) -> Result<u32, SymbolicStop>
    ensures { IfOk result (λ n. n ≡ number) }
{
    match u32::try_from(number) {
        Ok(number) => Ok(number),
        Err(_) => Err(SymbolicStop::Unlike),
    }
}

/// Whether a term is there, with so many bits.
pub fn is_of_width(terms: &Written, width: u8, term: Term) -> bool
    ensures { IsTrue result → IsOfWidth terms.now width term }
{
    terms_have_widths();
    terms.fits(&Op::Not(term)) && terms.width(term) == width
}

/// The value of a term.
///
/// # Errors
///
/// The term isn't there, and want of memory.
pub fn value(
    alloc: Global,
    terms: &Written,
    term: Term,
    given: &Assignment,
) -> Result<u32, SymbolicStop> {
    terms_have_widths();
    if !terms.fits(&Op::Not(term)) {
        return Err(SymbolicStop::Unlike);
    }
    let value = terms.value(alloc, term, given)?;
    Ok(value)
}

/// Gives the variable of a kind a value, where there is one.
///
/// # Errors
///
/// Want of memory.
pub fn set(
    alloc: Global,
    given: &mut Assignment,
    words: &Words,
    kind: WordKind,
    value: u32,
) -> Result<(), SymbolicStop> {
    if let Some(term) = words.find(kind) {
        if let Some(number) = words.word_of(term) {
            given.set(alloc, number, value)?;
        }
    }
    Ok(())
}
