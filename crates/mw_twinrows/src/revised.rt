// Revisions of the files `b`, `m`, `n` and `k`, and their blocks.
ghost use Rattle.std.specs.Prelude.{◌≡◌, ◌<◌, ◌^◌, IfOk, IfSome, length};
ghost use Rattle.mw_revise.specs.Kept.{IsKeep};
ghost use Rattle.mw_revise.specs.Revision.{AreApart, IsRevision, addresses_of};
ghost use Rattle.mw_revise.specs.declared.programs.Side.{Side as SideOf};
ghost use Rattle.mw_revise.specs.declared.programs.Side.TheVariants.{New, Old};
ghost use Rattle.mw_twinrows.specs.Revised.{IsBlockAt};

use crate::programmed::{read_assembled, read_programmed};
use crate::texts::text_of;
use mw_asm::{Assembled, Program};
use mw_base::NoMemory;
use mw_revise::{Keep, Revision, Side, read_keep};
use mw_rowfile::{Fault, File, wrong};
use mw_twin::RevisedBlock;
use std::alloc::Global;

/// What a text says of an old program and a new one.
fn kept(alloc: Global, old: &Program, new: &Assembled, text: &[u8]) -> Result<Keep, Fault>
    requires { length text.now < 2 ^ 32 }
    ensures kept { IfOk result (λ keep. IsKeep old.now.board keep) }
    ensures apart { IfOk result (λ keep. (side : SideOf) → AreApart side keep.blocks) }
{
    match read_keep(alloc, &old.board, &old.made, new, text) {
        Ok(keep) => Ok(keep),
        Err(_) => Err(wrong("a KEEP text is refused")),
    }
}

/// The revision of an old program to a new one, of which this is kept.
fn revision_of(old: Program, new: Assembled, keep: Keep) -> Revision
    requires kept { IsKeep old.board keep }
    requires apart { (side : SideOf) → AreApart side keep.blocks }
    ensures revision { IsRevision result }
    ensures kept { IsKeep result.board result.keep }
{
    let Program { board, made } = old;
    // A call for the proof: its clause `valid` says what is so of every board.
    let _ = board.parts();
    Revision {
        board,
        before: made.store,
        after: new.store,
        keep,
    }
}

/// What the file `k` says of an old program and a new one.
fn kept_in(alloc: Global, old: &Program, new: &Assembled, files: &[File]) -> Result<Keep, Fault>
    ensures kept { IfOk result (λ keep. IsKeep old.now.board keep) }
    ensures apart { IfOk result (λ keep. (side : SideOf) → AreApart side keep.blocks) }
{
    let text = text_of(files, "k")?;
    kept(alloc, old, new, text)
}

/// The revision of an old program to a new one, of which the file `k` says what is kept.
fn revise(alloc: Global, old: Program, new: Assembled, files: &[File]) -> Result<Revision, Fault>
    ensures revision { IfOk result IsRevision }
    ensures kept { IfOk result (λ revision. IsKeep revision.board revision.keep) }
{
    match kept_in(alloc, &old, &new, files) {
        Ok(keep) => Ok(revision_of(old, new, keep)),
        Err(fault) => {
            drop(old);
            drop(new);
            Err(fault)
        }
    }
}

/// The revision of the program of the file `m` to that of the file `n`, on the board of the file `b`, of which the file
/// `k` says what is kept.
///
/// # Errors
///
/// A board, a microprogram or a KEEP text that is refused or too long, and want of memory.
pub(crate) fn read_revision(alloc: Global, files: &[File]) -> Result<Revision, Fault>
    ensures revision { IfOk result IsRevision }
    ensures kept { IfOk result (λ revision. IsKeep revision.board revision.keep) }
{
    let old = read_programmed(alloc, files)?;
    match read_assembled(alloc, &old.board, files, "n") {
        Ok(new) => revise(alloc, old, new, files),
        Err(fault) => {
            drop(old);
            Err(fault)
        }
    }
}

/// The control addresses of the blocks of a revision in one of both programs, in the order of the blocks.
///
/// # Errors
///
/// Memory ran out.
pub(crate) fn addresses(
    alloc: Global,
    revision: &Revision,
    side: Side,
) -> Result<Vec<u16>, NoMemory>
    ensures { IfOk result (λ addresses. addresses.items ≡ addresses_of side revision.now) }
{
    let blocks = revision.keep.blocks.as_slice();
    Ok(
        blocks
            .iter()
            .map(|block| block.address_on(side))
            .collect(alloc)?,
    )
}

/// The block of this number, from 0, of a revision with the control addresses of its blocks in both programs; nothing
/// where there is none.
pub(crate) fn block_at<'a>(
    revision: &'a Revision,
    before: &'a [u16],
    after: &'a [u16],
    number: usize,
) -> Option<RevisedBlock<'a>>
    requires revision { IsRevision revision.now }
    requires kept { IsKeep revision.now.board revision.now.keep }
    requires before { before.now ≡ addresses_of Old revision.now }
    requires after { after.now ≡ addresses_of New revision.now }
    ensures { IfSome result (λ block. IsBlockAt number block) }
{
    match revision.keep.blocks.as_slice().get(number) {
        Some(block) => Some(RevisedBlock {
            revision,
            block,
            before,
            after,
        }),
        None => None,
    }
}
