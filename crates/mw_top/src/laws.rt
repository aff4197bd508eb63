// The laws of options, of differences and of an outside that never fails.
ghost use Rattle.mw_top.specs.Laws.{PartsChangeNothing, DifferencesMayFollow, NeverFail};

use mw_outside::{Shelf, Sink, SteadyShelf, SteadySink};

/// The law of `--parts`: two calls of a command whose answer is determined, whose requests differ in it alone, and for
/// which the same was read, have one status and one report.
pub fn parts_change_nothing()
    ensures { PartsChangeNothing }
{}

/// The law of differences: what a difference of a job reads as may stand behind the word of a line `difference ..`, in
/// a report from which a counter is read back.
pub fn differences_may_follow()
    ensures { DifferencesMayFollow }
{}

/// The law of an outside that never fails: of no call over a `SteadyShelf` and a `SteadySink` is so what the clauses
/// `read_in_order` and `write_fault` of `bench` say of `ReadFault` and `WriteFault`, so it never ends with these; and
/// nothing failed in it, as `complete` and `settled` ask.
pub fn steady_calls_never_fail()
    ensures { NeverFail ⟦<SteadyShelf as Shelf>⟧ ⟦<SteadySink as Sink>⟧ }
{}
