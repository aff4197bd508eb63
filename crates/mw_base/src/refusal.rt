// Why a reader gives nothing.
ghost use Rattle.std.specs.Prelude.{◌≡◌};
ghost use Rattle.mw_base.specs.declared.refusal.Refused.TheVariants.{NoMemory as memory};

use crate::cause::Cause;
use crate::memory::NoMemory;
use std::alloc::{AllocError, AllocFailed};

/// Why a reader gives nothing: what it read has a fault, or memory ran out.
#[derive(Clone, Copy, Debug, PartialEq, Eq, Drop)]
pub enum Refused<F> {
    /// This fault, which is the first.
    At(F),
    /// Memory ran out.
    NoMemory,
}

impl<F> From<NoMemory> for Refused<F> {
    ghost from_gives = { λ _ e. e ≡ memory };

    fn from(_: NoMemory) -> Refused<F> {
        Refused::NoMemory
    }
}

impl<F> From<AllocError> for Refused<F> {
    ghost from_gives = { λ _ e. e ≡ memory };

    fn from(_: AllocError) -> Refused<F> {
        Refused::NoMemory
    }
}

impl<F, T: Drop> From<AllocFailed<T>> for Refused<F> {
    ghost from_gives = { λ _ e. e ≡ memory };

    fn from(_: AllocFailed<T>) -> Refused<F> {
        Refused::NoMemory
    }
}

/// The first fault of a text.
#[derive(Clone, Copy, Debug, PartialEq, Eq)]
pub struct TextFault {
    /// The line, from 1; 0 where the whole text is refused.
    pub line: u32,
    /// The column, from 1, in bytes; 0 where the whole text is refused.
    pub column: u32,
    /// Why it is refused.
    pub cause: Cause,
}

/// Why a text was not read.
pub type Refusal = Refused<TextFault>;
