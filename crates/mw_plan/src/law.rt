// What holds of each plan.
ghost use Rattle.mw_outside.specs.Views.{ShelfView};
ghost use Rattle.mw_plan.specs.Laws.{EndsOnce};
ghost use Rattle.mw_plan.specs.Plan.{Plan};

/// The law of plans: contents of a command's files, told or read, bring its plan to one end at most. So the work or the
/// refusal that answers contents which are told is the only one.
#[tactic(auto, using(crate::proofs::Once::ends_once))]
pub fn plans_end_once<W, F>()
    ensures { (plan : Plan F W) (shelf : ShelfView) → EndsOnce plan shelf }
{}
