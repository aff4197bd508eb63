// Laws of runs of a board on terms.
ghost use Rattle.mw_symboard.specs.Along.{CyclesAreNumbered, CyclesBegin, CyclesGoAlong};
ghost use Rattle.mw_symboard.specs.Laws.{BitsAreFirst, BitsAreOfTheRun, ElementsHaveTerms, RunsBegin, RunsFitBefore};
ghost use Rattle.mw_symboard.specs.Laws.{RunsStay, TurnsAreOfTheRun};
ghost use Rattle.mw_symboard.specs.Nets.{NetsHaveValues};
ghost use Rattle.mw_symboard.specs.Paths.{PassedGoOn, PassedStay, PathsBegin, PathsGoOn, PathsStay, PathsTakeBits};
ghost use Rattle.mw_symboard.specs.Paths.{SplitsAreBy};
ghost use Rattle.mw_symboard.specs.Variables.{CyclesAreThere, CyclesStay, EnvironmentsAreReached, EnvironmentsAreThere};
ghost use Rattle.mw_symboard.specs.Variables.{EnvironmentsStay, VariablesHaveValues};

/// The law of the start: a board that has done nothing is in each run that begins with its terms.
pub fn runs_begin()
    ensures { RunsBegin }
{}

/// The law of turns: a board on terms asks for the decided bits of its run, one after another through all its cycles,
/// and has the values of the run's state and events.
pub fn turns_are_of_the_run()
    ensures turns { TurnsAreOfTheRun }
    ensures bits { BitsAreOfTheRun }
    ensures first { BitsAreFirst }
{}

/// The law of other calls: a board stays in its run while they make terms, read the memory and write on the other
/// side.
pub fn runs_stay()
    ensures { RunsStay }
{}

/// The law of earlier calls: a run that fits what was read later fitted what was read before.
pub fn runs_fit_before()
    ensures { RunsFitBefore }
{}

/// The law of terms: each element, by its number, and each event has a term of its width, and in a run the term has the
/// element's value.
pub fn elements_have_terms()
    ensures { ElementsHaveTerms }
{}

/// The law of paths: a path of the bits that a board on terms asks for, each with its value, is true exactly where
/// these are the first decided bits of the run; then the board is in that run, and was at its control addresses.
pub fn paths_are_of_the_run()
    ensures begin { PathsBegin }
    ensures turns { PathsGoOn }
    ensures bits { PathsTakeBits }
    ensures splits { SplitsAreBy }
    ensures stay { PathsStay }
    ensures passed_stay { PassedStay }
    ensures passed { PassedGoOn }
{}

/// The law of variables: a variable has the value that the assignment gives its number. Of a board on terms there is a
/// number of cycles beyond those of all its variables; they have the widths of their lists; and so it stays while no
/// variable of its side's line or noise comes.
pub fn variables_are_there()
    ensures values { VariablesHaveValues }
    ensures cycles { CyclesAreThere }
    ensures stay { CyclesStay }
{}

/// The law of environments: for every assignment there is an environment without waits that has the values of the
/// variables of its lists; for every environment without waits there is an assignment under which it has them, which
/// differs from a given one in these variables alone; and it has them under each assignment that differs in others alone.
pub fn environments_are_there()
    ensures there { EnvironmentsAreThere }
    ensures reached { EnvironmentsAreReached }
    ensures stay { EnvironmentsStay }
{}

/// The law of nets: in every scene in which a cycle is seen, the terms that it has made of what it reads, of each bit
/// and of its end have the values of the board's nets.
pub fn nets_have_values()
    ensures { NetsHaveValues }
{}

/// The law of a cycle's words: a cycle begins along no bits; a turn that asks stops at the words of the cycle along the
/// bits so far, and each value of the bit goes on along it; a turn that is finished has added all of them, and the
/// board is where they lead.
pub fn cycles_go_along()
    ensures begin { CyclesBegin }
    ensures turns { CyclesGoAlong }
{}

/// The law of numbers: where each term of a list that is no constant has a word, so it is with the words of a cycle.
pub fn words_of_cycles_are_numbered()
    ensures { CyclesAreNumbered }
{}
