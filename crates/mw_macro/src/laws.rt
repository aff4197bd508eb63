// Laws of described machines, their steps, and the words of these.
ghost use Rattle.mw_macro.specs.Laws.{ActsAreNumbered, EventsAreFew, ExpressionsAreNumbered, StepsAreNumbered};
ghost use Rattle.mw_macro.specs.Laws.{StepsTakeFromFirst, TakenAreEvents};
ghost use Rattle.mw_macro.specs.Right.{AcceptedAreRight, RightAreAccepted};

/// The law of accepted machines: they are those whose elements, statements and memory reads are few, whose names are
/// free and short, whose widths are in range, where each target is a register or a temporary and each expression has
/// the width that its place asks for, and where at most 64 `if`s stand in one another.
pub fn accepted_are_right()
    ensures right { AcceptedAreRight }
    ensures accepted { RightAreAccepted }
{}

/// The law of events: a step has no more events than its machine has `put` and `take` statements.
pub fn events_are_few()
    ensures { EventsAreFew }
{}

/// The law of taken inputs: a step takes as many inputs as its events say.
pub fn taken_are_events()
    ensures { TakenAreEvents }
{}

/// The law of first inputs: a step that takes inputs from a number on is the step from 0 over the inputs without
/// those before it.
pub fn steps_take_from_first()
    ensures { StepsTakeFromFirst }
{}

/// The law of numbers: where each term of a list that is no constant has a word, so it is behind the words of an
/// expression, of acts, and of a described step, along any branch bits.
pub fn words_are_numbered()
    ensures expressions { ExpressionsAreNumbered }
    ensures acts { ActsAreNumbered }
    ensures steps { StepsAreNumbered }
{}
