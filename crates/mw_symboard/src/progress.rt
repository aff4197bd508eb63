// Where a symbolic board is.
ghost use Rattle.std.specs.Prelude.{◌≡◌, IfOk};

use crate::parts::Parts;
use crate::path::Path;
use mw_base::NoMemory;
use mw_symmem::Side;
use mw_term::Term;
use std::alloc::Global;
use std::marker::Model;

/// Where a symbolic board is.
#[derive(Drop)]
pub(crate) struct Progress {
    /// Whose side of the memory it reads and writes.
    pub(crate) side: Side,
    /// The control address, 12 bits.
    pub(crate) at: u16,
    /// The stack pointer, which counts the words on the stack.
    pub(crate) sp: u8,
    /// A term for each element.
    pub(crate) parts: Parts,
    /// How many cycles are finished.
    pub(crate) cycle: u32,
    /// How many inputs were taken.
    pub(crate) taken: u32,
    /// The term of its cycle's line, where that was there before.
    pub(crate) line: Option<Term>,
    /// The bits decided so far of the cycle that it is in.
    pub(crate) decided: Path,
}

impl Model for Progress {
    ghost use Rattle.mw_symboard.specs.Seen as seen;

    ghost Value = { seen.Progress };

    ghost view = { λ p. record {
      side = p.side;
      at = p.at;
      sp = p.sp;
      parts = p.parts;
      cycle = p.cycle;
      taken = p.taken;
      line = p.line;
      decided = p.decided;
    } };
}

impl Progress {
    /// The same place once more.
    pub(crate) fn copy(&self, alloc: Global) -> Result<Progress, NoMemory>
        ensures { IfOk result (λ copy. copy ≡ self.now) }
    {
        Ok(Progress {
            side: self.side,
            at: self.at,
            sp: self.sp,
            parts: self.parts.copy(alloc)?,
            cycle: self.cycle,
            taken: self.taken,
            line: self.line,
            decided: self.decided.copy(),
        })
    }
}
