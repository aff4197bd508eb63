// Laws of cases and differences over all starts.
ghost use Rattle.mw_ready.specs.CaseLaws.{CasesHaveOneEnd, KindsAreFixed, NoCaseGoesOn, OneCaseIsFirst};
ghost use Rattle.mw_ready.specs.CaseLaws.{SegmentsHaveCycles};
ghost use Rattle.mw_ready.specs.DifferenceLaws.{BoundariesComeInTime, DifferencesAreFirst, SameShowsNothing};

/// The law of kinds: earlier bits fix the kind of the next.
pub fn kinds_are_fixed()
    ensures { KindsAreFixed }
{}

/// The law of ends: no case is a proper prefix of another.
pub fn no_case_goes_on()
    ensures { NoCaseGoesOn }
{}

/// The law of order: of two different cases one comes before the other.
pub fn one_case_is_first()
    ensures { OneCaseIsFirst }
{}

/// The law of equal cases: starts with one case have as many cycles, and both are late or neither is.
pub fn cases_have_one_end()
    ensures { CasesHaveOneEnd }
{}

/// The law of segments: a start's segment, where it isn't late, is the run of its cycles; these are one at least, and
/// at most the bound's number, which they are where it is late.
pub fn segments_have_cycles()
    ensures { SegmentsHaveCycles }
{}

/// The law of the first difference: a start differs by a difference exactly where this is the first of the five: late,
/// an event, the stack pointer, a line, a memory word.
pub fn differences_are_first()
    ensures { DifferencesAreFirst }
{}

/// The law of no difference: a start shows none exactly where its segment keeps its bound, the pair reached, which is
/// the board there and the machine after one step, is in relation at the boundary reached, and both have the same
/// events.
pub fn same_shows_nothing()
    ensures { SameShowsNothing }
{}

/// The law of time: where no start differs, each boundary of each start's run comes, at no later cycle than the sum of
/// the bounds of the boundaries met before it.
pub fn boundaries_come_in_time()
    ensures { BoundariesComeInTime }
{}
