// Functions as their users hold them, and why an operation gave none.
use mw_base::NoMemory;
use std::marker::Model;
use thiserror::Error;

/// A Boolean function: a node of the diagrams that made it, seen as its number. Two that the same diagrams made are
/// equal exactly where their functions are.
#[derive(Clone, Copy, Debug, PartialEq, Eq)]
pub struct Dd {
    position: u32,
}

impl Model for Dd {
    ghost use Rattle.std.specs.Prelude.{ℕ};

    ghost Value = { ℕ };

    ghost view = { λ x. x.position };

    ghost inverse = { λ n. record { position = n } };
}

impl Dd {
    ghost use Rattle.std.specs.Prelude.{◌≡◌, ◌<◌, ◌^◌};

    /// The node of a number.
    pub(crate) fn at(position: u32) -> Dd
        ensures { result ≡ position }
    {
        Dd { position }
    }

    /// Its number.
    pub(crate) fn position(self) -> u32
        ensures exact { result ≡ self }
        ensures below { result < 2 ^ 32 }
    {
        self.position
    }
}

/// Why an operation gave no function.
#[derive(Clone, Copy, Debug, PartialEq, Eq, Error)]
pub enum DdFault {
    /// It has more joint cofactors than the budget.
    #[error("more joint cofactors than the budget")]
    OverBudget,
    /// Memory ran out.
    #[error("out of memory")]
    NoMemory,
}

impl From<NoMemory> for DdFault {
    ghost use Rattle.mw_dd.specs.declared.dd.DdFault.TheVariants.{NoMemory};
    ghost use Rattle.std.specs.Prelude.{◌≡◌};

    ghost from_gives = { λ _ e. e ≡ NoMemory };

    fn from(_: NoMemory) -> DdFault {
        DdFault::NoMemory
    }
}
