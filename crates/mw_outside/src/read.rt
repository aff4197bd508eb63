// Whole files, and whole texts.
ghost use Rattle.std.specs.Prelude.{◌≡◌, ◌≤◌, ◌<◌, List, ℕ, length, IsErr, IfOk, OnOk, OnErr, IfSome, IsErrOf};
ghost use Rattle.mw_outside.specs.Causes.{Rose};
ghost use Rattle.mw_outside.specs.Contents.{with_more, TookFront};

use crate::shelf::{Failed, Shelf};
use crate::sink::Sink;
use std::alloc::{AllocError, AllocFailed, Global};
use thiserror::Error;

/// The most bytes that a file may have.
pub const MOST_BYTES: usize = 1_048_576;

/// The most bytes that are fetched at a time.
const PIECE: usize = 4096;

/// Why a file was not read.
#[derive(Clone, Copy, Debug, PartialEq, Eq, Error)]
pub enum ReadRefusal {
    /// A fetch failed.
    #[error("the file could not be read")]
    Fault,
    /// It has more than `MOST_BYTES` bytes.
    #[error("the file has more than 1,048,576 bytes")]
    TooLong,
    /// Memory ran out.
    #[error("out of memory")]
    NoMemory,
}

impl From<AllocError> for ReadRefusal {
    ghost use Rattle.mw_outside.specs.declared.read.ReadRefusal.TheVariants.{NoMemory};

    ghost from_gives = { λ _ e. e ≡ NoMemory };

    fn from(_: AllocError) -> ReadRefusal {
        ReadRefusal::NoMemory
    }
}

impl<T: Drop> From<AllocFailed<T>> for ReadRefusal {
    ghost use Rattle.mw_outside.specs.declared.read.ReadRefusal.TheVariants.{NoMemory};

    ghost from_gives = { λ _ e. e ≡ NoMemory };

    fn from(_: AllocFailed<T>) -> ReadRefusal {
        ReadRefusal::NoMemory
    }
}

/// The contents of a name, fetched in pieces until a fetch gives nothing.
///
/// - `Fault`: a fetch failed, so the count of this name rose; where it became greater, this is the answer.
/// - `TooLong`: more than `MOST_BYTES` bytes came.
/// - `NoMemory`: memory ran out.
pub fn read_whole<S: Shelf>(
    alloc: Global,
    shelf: &mut S,
    name: &str,
) -> Result<Vec<u8>, ReadRefusal>
    ensures whole { IfOk result (λ v. IfSome (S.told shelf.old name.now) (λ bytes. v.items ≡ bytes)) }
    ensures short { IfOk result (λ v. length v.items ≤ 1048576) }
    ensures fault { IsErrOf result ReadRefusal.Fault
        → Rose (S.faults shelf.old name.now) (S.faults shelf.new name.now) }
    ensures due { S.faults shelf.old name.now < S.faults shelf.new name.now → IsErrOf result ReadRefusal.Fault }
    ensures too_long { IsErrOf result ReadRefusal.TooLong
        → IfSome (S.told shelf.old name.now) (λ bytes. 1048576 < length bytes) }
    ensures long { IfSome (S.told shelf.old name.now) (λ bytes. 1048576 < length bytes → IsErr result) }
    ensures same { (other : List ℕ) → S.told shelf.new other ≡ S.told shelf.old other }
    ensures later { (other : List ℕ) → S.faults shelf.old other ≤ S.faults shelf.new other }
{
    let mut bytes = Vec::new(alloc);
    let mut piece = [0u8; PIECE];
    while bytes.len() <= MOST_BYTES {
        let want = PIECE.min(MOST_BYTES + 1 - bytes.len());
        let place = bytes.len() as u64;
        let count = match shelf.fetch(name, place, &mut piece[..want]) {
            Ok(count) => count,
            Err(_) => return Err(ReadRefusal::Fault),
        };
        if count == 0 {
            return Ok(bytes);
        }
        bytes.extend_from_slice(&piece[..count])?;
    }
    Err(ReadRefusal::TooLong)
}

/// Puts out all of the bytes. `Failed`: the count rose, and a front part of the bytes was taken; where the count became
/// greater, this is the answer.
pub fn write_all<K: Sink>(sink: &mut K, bytes: &[u8]) -> Result<(), Failed>
    ensures all { OnOk result (K.taken sink.new ≡ with_more (K.taken sink.old) bytes.now) }
    ensures part { OnErr result (TookFront (K.taken sink.old) (K.taken sink.new) bytes.now) }
    ensures later { K.faults sink.old ≤ K.faults sink.new }
    ensures cause { OnErr result (Rose (K.faults sink.old) (K.faults sink.new)) }
    ensures due { K.faults sink.old < K.faults sink.new → IsErr result }
{
    let mut place = 0;
    while place < bytes.len() {
        match sink.put(&bytes[place..]) {
            Ok(count) => place += count,
            Err(failed) => return Err(failed),
        }
    }
    Ok(())
}
