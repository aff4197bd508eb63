// Why something isn't made.
ghost use Rattle.std.specs.Prelude.{◌≡◌};
ghost use Rattle.mw_explore.specs.declared.fault.Fault.TheVariants.{NoMemory as no_memory};

use mw_base::NoMemory;
use std::alloc::{AllocError, AllocFailed};

/// Why something isn't made.
#[derive(Debug, Drop)]
pub enum Fault<P> {
    /// This is over its budget, or isn't known.
    Over(P),
    /// Memory ran out.
    NoMemory,
}

impl<P> From<NoMemory> for Fault<P> {
    ghost from_gives = { λ _ e. e ≡ no_memory };

    fn from(_: NoMemory) -> Fault<P> {
        Fault::NoMemory
    }
}

impl<P> From<AllocError> for Fault<P> {
    ghost from_gives = { λ _ e. e ≡ no_memory };

    fn from(_: AllocError) -> Fault<P> {
        Fault::NoMemory
    }
}

impl<P, T: Drop> From<AllocFailed<T>> for Fault<P> {
    ghost from_gives = { λ _ e. e ≡ no_memory };

    fn from(_: AllocFailed<T>) -> Fault<P> {
        Fault::NoMemory
    }
}
