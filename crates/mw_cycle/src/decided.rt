// The decided bits of a cycle.
ghost use Rattle.std.specs.Prelude.{◌≡◌};
ghost use Rattle.mw_cycle.specs.Decided.{decides_counter, decides_pass};

use crate::microword::Microword;

impl Microword {
    /// Whether pass is decided: the test is enabled, and the sequencer's instruction reads it.
    pub fn decides_pass(&self) -> bool
        ensures { result ≡ decides_pass self.now }
    {
        !self.test_disable && !matches!(self.sequencer, 0 | 2 | 8 | 9 | 12 | 14)
    }

    /// Whether it is decided if the counter is zero: RFCT, RPCT and TWB ask for it.
    pub fn decides_counter(&self) -> bool
        ensures { result ≡ decides_counter self.now }
    {
        matches!(self.sequencer, 8 | 9 | 15)
    }
}
