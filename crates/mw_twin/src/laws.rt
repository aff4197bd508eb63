// Laws of twin starts.
ghost use Rattle.mw_revise.specs.declared.keep.Block.{Block};
ghost use Rattle.mw_revise.specs.Kept.{IsBlock};
ghost use Rattle.mw_revise.specs.Revision.{IsBlockOf, IsRevision, Revision};
ghost use Rattle.mw_twin.specs.Courses.{BitsGoOnCourse, BitsMakeReady};
ghost use Rattle.mw_twin.specs.Grounds.{HaveTwinStarts};
ghost use Rattle.mw_twin.specs.Origins.{Ground, IsGround};

/// The law of starts: over what both runs from a block of a revision begin with, each assignment is that of a twin
/// start without waits, and each of these has an assignment.
pub fn twin_starts_are_there()
    ensures { (revision : Revision) (block : Block) (g : Ground) → IsRevision revision → IsBlockOf revision block
        → IsBlock revision.board block → IsGround revision.board block g
        → HaveTwinStarts revision block g }
{}

/// The law of bits: a course that waits for a bit is ready once that is given. Where the bit was decided by its term,
/// the course is on its way with one bit more, along the path by it.
pub fn courses_take_bits()
    ensures ready { BitsMakeReady }
    ensures on { BitsGoOnCourse }
{}
