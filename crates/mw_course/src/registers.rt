// The terms of the machine's registers.
ghost use Rattle.std.specs.Prelude.{◌≡◌, IfOk};

use mw_base::NoMemory;
use mw_term::Term;
use std::alloc::Global;
use std::marker::Model;

/// The terms of the machine's registers at the start of a run, by their numbers, seen as the list of them.
#[derive(Drop)]
pub struct Registers {
    terms: Vec<Term>,
}

impl Model for Registers {
    ghost use Rattle.std.specs.Prelude.{List, ℕ};

    ghost Value = { List ℕ };

    ghost view = { λ r. r.terms.items };
}

impl Registers {
    /// These terms.
    ///
    /// # Errors
    ///
    /// Memory ran out.
    pub fn new(alloc: Global, terms: &[Term]) -> Result<Registers, NoMemory>
        ensures { IfOk result (λ registers. registers ≡ terms.now) }
    {
        Ok(Registers {
            terms: Vec::from_slice(alloc, terms)?,
        })
    }

    /// The terms.
    pub fn as_slice(&self) -> &[Term]
        ensures { result.now ≡ self.now }
    {
        &self.terms
    }

    /// The same registers once more.
    ///
    /// # Errors
    ///
    /// Memory ran out.
    pub fn copy(&self, alloc: Global) -> Result<Registers, NoMemory>
        ensures { IfOk result (λ copy. copy ≡ self.now) }
    {
        Registers::new(alloc, self.as_slice())
    }
}
