// Laws of starts without waits, of what is certified over these, and of words.
ghost use Rattle.mw_rel.specs.Begin.{EachChoiceGivesAPair};
ghost use Rattle.mw_rel.specs.SteadyCaseLaws.{BeforeIsAnOrder, CasesBeginWithCycles, CasesHaveOneEnd, KindsAreFixed};
ghost use Rattle.mw_rel.specs.SteadyCaseLaws.{NoCaseGoesOn, OneCaseIsFirst, SegmentsEnd, SegmentsHaveCycles};
ghost use Rattle.mw_rel.specs.SteadyCaseLaws.{StartsGoTogether};
ghost use Rattle.mw_rel.specs.ComparisonWords.{ComparisonsAreNumbered};
ghost use Rattle.mw_rel.specs.Free.{PairsAreOne, RightsReadFreeElements};
ghost use Rattle.mw_rel.specs.Rules.{AcceptedAreSolved};
ghost use Rattle.mw_rel.specs.SteadyShown.{DifferencesAreFirst};
ghost use Rattle.mw_rel.specs.StartWords.{StartsAreNumbered};
ghost use Rattle.mw_rel.specs.SteadyLaws.{SameShowsNothing, StartsFollow, CertifiedWhereNoneDiffers, BoundariesComeInTime};

/// The law of relations: a relation is accepted exactly where it has a boundary, no two boundaries have one address,
/// each right side is as wide as its left element, no element is left of two lines of a boundary, none that is left of
/// one stands on a right side there, and each bound is 1 to 500.
pub fn accepted_are_solved()
    ensures { AcceptedAreSolved }
{}

/// The law of pairs: two pairs in relation at a boundary that have the same values of its free elements and the same
/// memory are one.
pub fn pairs_are_one()
    ensures { PairsAreOne }
{}

/// The law of right sides: a line's right side has one value over two lists of values that agree on the elements that
/// are free at its boundary.
pub fn rights_read_free_elements()
    ensures { RightsReadFreeElements }
{}

/// The law of choices: each choice of values for the free elements of a boundary, and of a memory, gives a pair in
/// relation there that has them.
pub fn each_choice_gives_a_pair()
    ensures { EachChoiceGivesAPair }
{}

/// The law of starts: a start without waits shows no difference exactly where its segment keeps its bound, the pair
/// reached, which is the board there and the machine after one step, is in relation at the boundary reached, and both
/// have the same events.
pub fn same_shows_nothing()
    ensures { SameShowsNothing }
{}

/// The law of differences: a start of a job without waits differs by a difference exactly where this is the first of
/// the five. It is late where its segment doesn't keep its bound; else the events are unlike at the number shown and
/// alike before it; or they are equal and the stack pointer isn't the number of the boundary reached; or that is equal
/// too, and the line of the element shown is the first that doesn't hold; or all lines hold, and the address shown is
/// the least with two contents.
pub fn differences_are_first()
    ensures { DifferencesAreFirst }
{}

/// The law of the next segment: where a start without waits shows no difference, the boundary reached, both states
/// there and what is left of the environment are again a start of the job.
pub fn starts_follow()
    ensures { StartsFollow }
{}

/// The law of certification: a job is certified over the starts without waits exactly where none of these differs.
pub fn certified_where_none_differs()
    ensures { CertifiedWhereNoneDiffers }
{}

/// The law of times: where no start without waits differs, each boundary of the run of each of them comes, within the
/// sum of the bounds of the boundaries met before it.
pub fn boundaries_come_in_time()
    ensures { BoundariesComeInTime }
{}

/// The law of what is decided next: of two starts without waits at a boundary whose decided bits are the same so far,
/// the next bits are of one kind, where both have one.
pub fn kinds_are_fixed()
    ensures { KindsAreFixed }
{}

/// The law of cycles: the segment of a start without waits, where it isn't late, is the run of as many cycles as the
/// start has; these are one at least and at most the bound's number, which they are where it is late.
pub fn segments_have_cycles()
    ensures { SegmentsHaveCycles }
{}

/// The law of the segment's end: where no boundary has come after some cycles, fewer than the bound, the segment has
/// one more at least; it has just that one more, and isn't late, where the board is at a boundary then. Where the
/// cycles are as many as the bound says, the segment has these and is late.
pub fn segments_end()
    ensures { SegmentsEnd }
{}

/// The law of the case's beginning, without waits: the decided bits of the first cycles of a segment are the first of
/// the start's case. Those of all its cycles are the whole case where it is late; where it isn't, those of the step
/// come behind them.
pub fn cases_begin_with_cycles()
    ensures { CasesBeginWithCycles }
{}

/// The law of prefixes: no case of a boundary is a proper prefix of another.
pub fn no_case_goes_on()
    ensures { NoCaseGoesOn }
{}

/// The law of ends: two starts without waits at a boundary that have one case have the same number of cycles, and both
/// are late or neither is.
pub fn cases_have_one_end()
    ensures { CasesHaveOneEnd }
{}

/// The law of order: of two different cases of a boundary one comes before the other.
pub fn one_case_is_first()
    ensures { OneCaseIsFirst }
{}

/// The law of what comes before: it is an order, in which nothing comes before itself.
pub fn before_is_an_order()
    ensures { BeforeIsAnOrder }
{}

/// The law of starts without waits that go together: where the first decided bits of a start are those of whole cycles
/// of another one at its boundary, they are those of as many cycles of its own, and up to the last of these both are at
/// one control address with one stack pointer.
pub fn starts_go_together()
    ensures { StartsGoTogether }
{}

/// The law of numbers: each term of a start's list that is no constant has a word; and where that is so of a list, it
/// is so with the words of a comparison.
pub fn words_of_cases_are_numbered()
    ensures starts { StartsAreNumbered }
    ensures comparisons { ComparisonsAreNumbered }
{}
