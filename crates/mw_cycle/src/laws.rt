// Laws of decided bits, of boundaries and of environments.
ghost use Rattle.mw_cycle.specs.SteadyDecided.{BitsGoOn};
ghost use Rattle.mw_cycle.specs.Environment.{ListsAreAll, RestsAreEnvironments, RestsAreOfLists};
ghost use Rattle.mw_cycle.specs.Trimmed.{ShortenedAreEnvironments};
ghost use Rattle.mw_cycle.specs.Boundary.{BoundariesGoOn, SegmentsEndAtBoundaries};

/// The law of segments: the first boundary within a limit is the run's next boundary, and where there is none within it
/// no cycle start up to it is at a boundary.
pub fn segments_end_at_boundaries()
    ensures { SegmentsEndAtBoundaries }
{}

/// The law of decided bits: those of n + m cycles of a run that never waits are those of its first n, and then those
/// of the m that follow.
pub fn bits_go_on()
    ensures { BitsGoOn }
{}

/// The law of boundaries: from a boundary of a run, the boundaries of what is left of the run are those of the whole.
pub fn boundaries_go_on()
    ensures { BoundariesGoOn }
{}

/// The law of what is left: at each place, what is left of an environment is again one.
pub fn rests_are_environments()
    ensures { RestsAreEnvironments }
{}

/// The law of what is left of lists: what is left of an environment at a place is what is left of each list.
pub fn rests_are_of_lists()
    ensures { RestsAreOfLists }
{}

/// The law of lists: an environment is what its lists make.
pub fn lists_are_all()
    ensures { ListsAreAll }
{}

/// The law of zeros at the end: without those at its lists' ends an environment is again one.
pub fn shortened_are_environments()
    ensures { ShortenedAreEnvironments }
{}
