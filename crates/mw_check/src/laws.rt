// The law of comparisons.
ghost use Rattle.mw_check.specs.Comparison.{StepsShowOneThing};

/// The law of comparisons: what so many steps from a start show is one thing.
pub fn steps_show_one_thing()
    ensures { StepsShowOneThing }
{}
