// Laws of described steps on terms.
ghost use Rattle.mw_symmach.specs.Along.{BitsGoAlong, StepsBeginAlong, TurnsGoAlong};
ghost use Rattle.mw_symmach.specs.Laws.{BitsAreOfTheStep, ScenesAreSeenBefore, TermsAreThere, TurnsAreOfTheStep};

/// The law of turns: a step on terms asks for the branch bits of the machine's own step, one after another, and when
/// all were given its terms have the values of what that step comes to.
pub fn turns_are_of_the_step()
    ensures turns { TurnsAreOfTheStep }
    ensures bits { BitsAreOfTheStep }
{}

/// The law of scenes: one in which a step is seen later is one in which it was seen before.
pub fn scenes_are_seen_before()
    ensures { ScenesAreSeenBefore }
{}

/// The law of terms: a step has a term of its width for each register, and for the word of each event.
pub fn terms_are_there()
    ensures { TermsAreThere }
{}

/// The law of a whole step's words. A new step is along no bits. A turn of a step that is along some bits asks for the
/// next one at the term where the words of the described step along these bits stop, with their list, terms, writes and
/// events; or it says that it is done, and then it has the list, the terms, the writes and the events of these words. A
/// bit that is given leaves the step along the bits with that one.
pub fn steps_go_along()
    ensures begins { StepsBeginAlong }
    ensures turns { TurnsGoAlong }
    ensures bits { BitsGoAlong }
{}
