// The bits of the course at hand, and the courses that wait at them.
ghost use Rattle.std.specs.Prelude.{◌≡◌, ◌-◌, ◌<◌, ◌++◌, ◌∷◌, ◌^◌, [], length, OnOk};
ghost use Rattle.std.specs.Option.{is_some, option_to_list};
ghost use Rattle.mw_explore.specs.Ways.{kept_of};

use crate::tree::Choice;
use crate::way::Way;
use mw_base::NoMemory;
use mw_term::DecidedKind;
use std::alloc::Global;

/// The decided bits of the course at hand, and the courses that wait at those that can be turned, in the order of the
/// bits.
#[derive(Drop)]
pub(crate) struct Trail<W> {
    /// The bits.
    pub way: Way,
    /// The courses that wait.
    pub waiting: Vec<W>,
}

impl<W: Drop> Trail<W> {
    /// No bit, and nothing that waits.
    pub(crate) fn new(alloc: Global) -> Trail<W>
        ensures way { result.way ≡ [] }
        ensures waiting { result.waiting.items ≡ [] }
    {
        Trail {
            way: Way::new(alloc),
            waiting: Vec::new(alloc),
        }
    }

    /// Keeps a bit that was decided, with the course that waits at it.
    pub(crate) fn take(&mut self, kind: DecidedKind, choice: Choice<W>) -> Result<(), NoMemory>
        ensures few { OnOk result (length self.old.way < 2 ^ 32 - 1) }
        ensures way { OnOk result (self.new.way
            ≡ self.old.way ++ kept_of kind choice.value (is_some choice.other) ∷ []) }
        ensures waiting { OnOk result (self.new.waiting.items
            ≡ self.old.waiting.items ++ option_to_list choice.other) }
    {
        self.way.take(kind, choice.value, choice.other.is_some())?;
        if let Some(other) = choice.other {
            self.waiting.push(other)?;
        }
        Ok(())
    }
}
