// The twin starts at a block.
ghost use Rattle.std.proofs.Props.{props};
ghost use Rattle.std.specs.Prelude.{◌≡◌, All, Some, slice_get};
ghost use Rattle.mw_rel.specs.OneProof.{board_once};
ghost use Rattle.mw_revise.specs.Kept.{IsBlock};
ghost use Rattle.mw_revise.specs.Revision.{IsRevision};
ghost use Rattle.mw_twinfork.specs.OneProof.{block_once, blocks_once, revision_once};

use mw_twin::RevisedBlock;

/// The twin starts of a revision at one of its blocks, and how many joint cofactors an operation of their cases may
/// have.
#[derive(Drop)]
pub(crate) struct Twins<'a> {
    /// The revision and the block.
    pub revised: RevisedBlock<'a>,
    /// The number of the block, from 0.
    pub boundary: usize,
    /// How many joint cofactors an operation may have.
    pub nodes: u32,
    ghost revision_is: { IsRevision revised.revision } by { revision_once revised.revision },
    ghost there: { slice_get revised.revision.keep.blocks boundary ≡ Some revised.block },
    ghost block_is: { IsBlock revised.revision.board revised.block } by { block_once revised.revision.board revised.block },
    ghost kept: { All (IsBlock revised.revision.board) revised.revision.keep.blocks } by { blocks_once revised.revision.board revised.revision.keep.blocks },
}

/// How the segments of a twin case end.
#[derive(Clone, Copy, Debug, PartialEq, Eq)]
pub enum TwinEnd {
    /// The old one is late; the case has no new one.
    LateOld,
    /// The old one is at a boundary after so many cycles, and the new one is late.
    LateNew(u32),
    /// The old one is at a boundary after so many cycles, and the new one after so many.
    Reached(u32, u32),
}
