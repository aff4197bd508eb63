// Both programs of a revision, and a block at which their runs begin.
ghost use Rattle.std.specs.Prelude.{◌≡◌};
ghost use Rattle.mw_revise.specs.declared.programs.Side.TheVariants.{New, Old};
ghost use Rattle.mw_revise.specs.Revision.{addresses_of};
ghost use Rattle.mw_twin.specs.Programs.{program_on};

use mw_revise::{Block, Revision, Side};
use mw_segment::Program;
use std::marker::Model;

/// Both programs of a revision, and one of its blocks, at which their runs begin.
#[derive(Drop)]
pub struct RevisedBlock<'a> {
    /// The revision.
    pub revision: &'a Revision,
    /// The block, which is one of the revision's.
    pub block: &'a Block,
    /// The control addresses of all blocks in the old program, in the order of the blocks.
    pub before: &'a [u16],
    /// The control addresses of all blocks in the new program, in the order of the blocks.
    pub after: &'a [u16],
    pub ghost before_is: { before.now ≡ addresses_of Old revision.now },
    pub ghost after_is: { after.now ≡ addresses_of New revision.now },
}

impl<'a> Model for RevisedBlock<'a> {
    ghost use Rattle.mw_twin.specs.RevisedBlocks.{RevisedBlock as Seen};

    ghost Value = { Seen };

    ghost view = { λ t. record { revision = t.revision.now; block = t.block.now } };
}

impl<'a> RevisedBlock<'a> {
    /// One of both programs, on the board, whose boundaries are all blocks.
    pub fn program(&self, side: Side) -> Program<'a>
        ensures { result ≡ program_on side self.now.revision }
    {
        let revision = self.revision;
        match side {
            Side::Old => Program {
                board: &revision.board,
                store: &revision.before,
                addresses: self.before,
            },
            Side::New => Program {
                board: &revision.board,
                store: &revision.after,
                addresses: self.after,
            },
        }
    }
}
