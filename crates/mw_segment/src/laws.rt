// Laws of segments.
ghost use Rattle.mw_segment.specs.Left.{SegmentsBegin};
ghost use Rattle.mw_segment.specs.Segments.{EndsStay, SegmentsBeginOnPaths, SegmentsTakeBits};

/// The law of words: a board whose next cycle hasn't begun is along the words of its cycles, along no bits.
pub fn words_begin()
    ensures { SegmentsBegin }
{}

/// The law of paths: what is true always is a path through a segment that begins; a path by the bit that is asked for is
/// one still; and a segment that has ended stays so, while other calls make terms, read the memory and write on the other
/// side.
pub fn paths_go_on()
    ensures begin { SegmentsBeginOnPaths }
    ensures bits { SegmentsTakeBits }
    ensures stay { EndsStay }
{}
