// Laws of counters, starts and replays.
ghost use Rattle.mw_replay.specs.Laws.{StartsAreOne, CountersGiveStarts, StepsDiffer, NoneDiffersBefore};
ghost use Rattle.mw_replay.specs.Laws.{ZerosGiveNothing, ZerosShowNothing, NothingIsCut, StartsReadBack};

/// The law of one start: a counter gives one start at most, since its pair is the one in relation with its values and
/// its memory.
pub fn starts_are_one()
    ensures { StartsAreOne }
{}

/// The law of starts: what a counter gives is a start of the job.
pub fn counters_give_starts()
    ensures { CountersGiveStarts }
{}

/// The law of steps: a start of a job differs at step k + 1 exactly where k steps show no difference, and the start
/// after them shows this one.
pub fn steps_differ()
    ensures { StepsDiffer }
{}

/// The law of the steps before: where k steps from a start show no difference, it differs at none of them.
pub fn none_differs_before()
    ensures { NoneDiffersBefore }
{}

/// The law of zeros: an environment without the zeros at its lists' ends gives the same to each clock,
/// and has the same wait bit for it.
pub fn zeros_give_nothing()
    ensures { ZerosGiveNothing }
{}

/// The law of what zeros show: a start without them shows the same difference, or none.
pub fn zeros_show_nothing()
    ensures { ZerosShowNothing }
{}

/// The law of what is cut: an environment with no 0 at a list's end loses nothing where it is printed, so that its
/// counter is read back as it was.
pub fn nothing_is_cut()
    ensures { NothingIsCut }
{}

/// The law of what is read back: the lines that `append_state` of `mw_sim` and `append_environment` append are read by
/// `read_start` as the state and the environment, whatever the labels, but for the zeros at the lists' ends.
pub fn starts_read_back()
    ensures { StartsReadBack }
{}
