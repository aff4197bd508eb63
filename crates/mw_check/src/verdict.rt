// What the certification of a job ends with.
use mw_base::Items;
use mw_fork::Over;
use mw_replay::Counter;

/// What was found of a boundary at which no start differs.
#[derive(Clone, Copy, Debug, PartialEq, Eq)]
pub struct Summary {
    /// How many feasible cases it has.
    pub cases: u32,
    /// How many cycles its longest segment has.
    pub cycles: u32,
}

/// Whether a job is certified.
#[derive(Debug, Drop)]
pub enum Verdict {
    /// It is. There is a summary of each boundary, in the order of the relation.
    Yes(Items<Summary>),
    /// It isn't: the start that this counter gives differs.
    No(Counter),
    /// This is over the budget.
    Unknown(Over),
}
