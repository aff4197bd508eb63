// Laws of runs with waits.
ghost use Rattle.mw_cycle.specs.RunLaws.{ClocksAreBounded, ClocksAreCycles, ClocksAreOne, ClocksGoOn, CyclesCome};
ghost use Rattle.mw_cycle.specs.RunLaws.{NothingIsThinned, RestsAreThinned, RunsGoOn};
ghost use Rattle.mw_cycle.specs.RunLaws.{RunsAreThinned};

/// The law of waits: each wait ends, so that each number of cycles is made, and the clocks that a run of so many cycles
/// has are the least that make them.
pub fn cycles_come()
    ensures { CyclesCome }
{}

/// The law of the end: a run of n cycles has at most n clocks beside those of the wait list.
pub fn clocks_are_bounded()
    ensures { ClocksAreBounded }
{}

/// The law of clocks: only the clocks of the run of n cycles are the least that make n cycles.
pub fn clocks_are_one()
    ensures { ClocksAreOne }
{}

/// The law of runs with waits: a run of n cycles has the state, the events and the inputs taken of the run of n cycles
/// without waits, over the lists from which the clocks that were waits are taken out.
pub fn runs_are_thinned()
    ensures { RunsAreThinned }
{}

/// The law of suffixes: a run of n + m cycles is a run of n, and then of m from the state that it reached, over what is
/// left of the environment at the place that it reached.
pub fn runs_go_on()
    ensures { RunsGoOn }
{}

/// The law of suffixes by clocks: a run may also be parted behind any of its clocks, a wait too, where one more cycle
/// at least follows.
pub fn clocks_go_on()
    ensures { ClocksGoOn }
{}

/// The law of what is left without waits: after n cycles, what is left of an environment is, without its waits, what is
/// left of it without its waits.
pub fn rests_are_thinned()
    ensures { RestsAreThinned }
{}

/// The law of environments without waits: nothing is taken out of one.
pub fn nothing_is_thinned()
    ensures { NothingIsThinned }
{}

/// The law of runs without waits: one has as many clocks as cycles.
pub fn clocks_are_cycles()
    ensures { ClocksAreCycles }
{}
