// Why a file is refused, and how a file stops a command.
ghost use Rattle.std.specs.Prelude.{◌≡◌};

use mw_outside::ReadRefusal;
use std::alloc::AllocFailed;

/// Why a file is refused. `F` is what readers refuse a file for.
#[derive(Clone, Copy, Debug, PartialEq, Eq, Drop)]
pub enum FileFault<F> {
    /// It has more than 1,048,576 bytes.
    TooLong,
    /// The first fault that its reader finds.
    At(F),
}

/// How the next file stops a command.
#[derive(Clone, Copy, Debug, PartialEq, Eq, Drop)]
pub enum Stop<F> {
    /// It can't be read.
    ReadFault,
    /// It is refused.
    Refused(FileFault<F>),
    /// Memory ran out.
    NoMemory,
}

impl<F> From<ReadRefusal> for Stop<F> {
    ghost use Rattle.mw_plan.specs.Steps.{stop_of};

    ghost from_gives = { λ refusal stop. stop ≡ stop_of refusal };

    fn from(refusal: ReadRefusal) -> Stop<F> {
        match refusal {
            ReadRefusal::Fault => Stop::ReadFault,
            ReadRefusal::TooLong => Stop::Refused(FileFault::TooLong),
            ReadRefusal::NoMemory => Stop::NoMemory,
        }
    }
}

impl<F, T: Drop> From<AllocFailed<T>> for Stop<F> {
    ghost use Rattle.mw_plan.specs.declared.fault.Stop.TheVariants as stops;

    ghost from_gives = { λ _ stop. stop ≡ stops.NoMemory };

    fn from(_: AllocFailed<T>) -> Stop<F> {
        Stop::NoMemory
    }
}
