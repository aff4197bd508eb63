// Dotted paths of keys, and refusals that name them.
ghost use Rattle.std.specs.Prelude.{◌≡◌, ℕ, ◌++◌, ◌∷◌, [], List, IfOk, Result, Ok, Err};
ghost use Rattle.mw_base.specs.Numbers.{decimal};
ghost use Rattle.mw_base.specs.Reading.{Gives, Refuses};
ghost use Rattle.mw_boardfile.specs.Values.{below, path, under, whole};

use crate::fault::{BoardRefusal, Fault, KeyFault};
use mw_base::{Cause, Items, Name, NoMemory, Refused, append_decimal};
use std::alloc::Global;

/// A key of a table that stands under a key.
pub(crate) fn below(alloc: Global, key: &[u8], part: &[u8]) -> Result<Vec<u8>, NoMemory>
    ensures { IfOk result (λ path. path.items ≡ below key.now part.now) }
{
    let mut path = Vec::from_slice(alloc, key)?;
    path.push(b'.')?;
    path.extend_from_slice(part)?;
    Ok(path)
}

/// An entry, by its number, of a list that stands under a key.
pub(crate) fn numbered(alloc: Global, key: &[u8], n: usize) -> Result<Vec<u8>, NoMemory>
    ensures { IfOk result (λ path. path.items ≡ below key.now (decimal n)) }
{
    let mut path = Vec::from_slice(alloc, key)?;
    path.push(b'.')?;
    append_decimal(alloc, &mut path, n as u64)?;
    Ok(path)
}

/// The key of a fault: the key that is read, or an entry under it.
fn path(alloc: Global, key: &[u8], entry: Option<usize>) -> Result<Vec<u8>, NoMemory>
    ensures { IfOk result (λ found. found.items ≡ path key.now entry) }
{
    match entry {
        Some(n) => numbered(alloc, key, n),
        None => Ok(Vec::from_slice(alloc, key)?),
    }
}

/// The refusal of a fault under a key.
pub(crate) fn located(alloc: Global, key: &[u8], fault: Fault) -> BoardRefusal
    ensures { Refuses result (record { cause = fault.cause; key = path key.now fault.entry }) }
{
    match path(alloc, key, fault.entry) {
        Ok(path) => Refused::At(KeyFault {
            cause: fault.cause,
            key: Name::from_vec(path),
        }),
        Err(NoMemory) => Refused::NoMemory,
    }
}

/// What is read under a key.
pub(crate) fn under<T>(alloc: Global, key: &[u8], read: Result<T, Fault>) -> Result<T, BoardRefusal>
    ensures gives { Gives (λ x. x) result (under key.now read) }
    ensures came { IfOk result (λ x. read ≡ Ok x) }
{
    match read {
        Ok(x) => Ok(x),
        Err(fault) => Err(located(alloc, key, fault)),
    }
}

/// What is read under a key, whose fault is that of the value as a whole.
pub(crate) fn under_whole<T>(
    alloc: Global,
    key: &[u8],
    read: Result<T, Cause>,
) -> Result<T, BoardRefusal>
    ensures gives { Gives (λ x. x) result (under key.now (whole read)) }
    ensures came { IfOk result (λ x. read ≡ Ok x) }
{
    match read {
        Ok(x) => Ok(x),
        Err(cause) => Err(located(alloc, key, Fault::whole(cause))),
    }
}

/// What is read under a key by a reader that takes memory.
pub(crate) fn under_list<T>(
    alloc: Global,
    key: &[u8],
    read: Result<Items<T>, Refused<Fault>>,
) -> Result<Items<T>, BoardRefusal>
    // Whatever it was to read.
    ensures gives { (reading : Result (List T) Fault) → Gives (λ items. items) read reading
        → Gives (λ items. items) result (under key.now reading) }
    ensures came { IfOk result (λ items. read ≡ Ok items) }
{
    match read {
        Ok(items) => Ok(items),
        Err(Refused::At(fault)) => Err(located(alloc, key, fault)),
        Err(Refused::NoMemory) => Err(Refused::NoMemory),
    }
}
