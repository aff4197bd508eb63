// What is found of a boundary, and of a job.
use crate::length::Length;
use mw_base::Items;
use mw_fork::Over;
use mw_rel::Begin;

/// The least and the greatest length of a boundary's starts, each with the start that shows it: what the first
/// assignment gives that takes the path of the first case, in the order of the bits, that has this length.
#[derive(Debug, Drop)]
pub struct Range {
    /// The least length.
    pub least: Length,
    /// A start that has it.
    pub least_begin: Begin,
    /// The greatest length.
    pub greatest: Length,
    /// A start that has it.
    pub greatest_begin: Begin,
}

/// How long the segments of a job last.
#[derive(Debug, Drop)]
pub enum Bounds {
    /// There is a range of each boundary, in the order of the relation.
    Found(Items<Range>),
    /// This is over the budget.
    Unknown(Over),
}
