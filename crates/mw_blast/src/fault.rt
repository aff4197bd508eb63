// Why bits weren't made.
use mw_base::NoMemory;
use mw_dd::DdFault;
use mw_term::Term;

/// Why the bits of a term weren't made.
#[derive(Clone, Copy, Debug, PartialEq, Eq)]
pub enum BlastFault {
    /// An operation of the term at the bit has more joint cofactors than the budget.
    Over(Term, u8),
    /// Memory ran out.
    NoMemory,
}

impl From<NoMemory> for BlastFault {
    ghost use Rattle.mw_blast.specs.declared.fault.BlastFault.TheVariants.{NoMemory};
    ghost use Rattle.std.specs.Prelude.{◌≡◌};

    ghost from_gives = { λ _ e. e ≡ NoMemory };

    fn from(_: NoMemory) -> BlastFault {
        BlastFault::NoMemory
    }
}

/// Why the bits of an op weren't made.
#[derive(Clone, Copy)]
pub(crate) enum RowFault {
    /// An operation at the bit has more joint cofactors than the budget.
    Over(u8),
    /// Memory ran out.
    NoMemory,
}

impl From<NoMemory> for RowFault {
    ghost use Rattle.mw_blast.specs.declared.fault.RowFault.TheVariants.{NoMemory};
    ghost use Rattle.std.specs.Prelude.{◌≡◌};

    ghost from_gives = { λ _ e. e ≡ NoMemory };

    fn from(_: NoMemory) -> RowFault {
        RowFault::NoMemory
    }
}

impl RowFault {
    ghost use Rattle.std.specs.Prelude.{◌≡◌};
    ghost use Rattle.mw_blast.specs.Rows.{fault_at, fault_of};

    /// The fault of an operation at a bit.
    pub(crate) fn at(bit: u8, fault: DdFault) -> RowFault
        ensures { result ≡ fault_at bit fault }
    {
        match fault {
            DdFault::OverBudget => RowFault::Over(bit),
            DdFault::NoMemory => RowFault::NoMemory,
        }
    }

    /// The fault as one of a term.
    pub(crate) fn of(self, term: Term) -> BlastFault
        ensures { result ≡ fault_of term self }
    {
        match self {
            RowFault::Over(bit) => BlastFault::Over(term, bit),
            RowFault::NoMemory => BlastFault::NoMemory,
        }
    }
}
