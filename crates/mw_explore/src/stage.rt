// Where an explorer stands.
ghost use Rattle.std.specs.Prelude.{◌≡◌};
ghost use Rattle.mw_explore.specs.declared.stage.Stage.TheVariants as stages;

/// Where an explorer stands among the cases.
#[derive(Drop)]
pub(crate) enum Stage<C> {
    /// Before all.
    Before,
    /// At the one given last, through which this course has gone.
    At(C),
    /// Behind all.
    Behind,
}

/// Stands at no case any more.
pub(crate) fn leave<C: Drop>(stage: &mut Stage<C>)
    ensures { stage.new ≡ stages.Behind }
{
    *stage = Stage::Behind;
}

/// Stands at a course.
pub(crate) fn stand_at<C: Drop>(stage: &mut Stage<C>, course: C)
    ensures { stage.new ≡ stages.At course }
{
    *stage = Stage::At(course);
}
