// Starts as files give them.
use mw_rel::Begin;
use std::marker::Model;

/// A start of a job as a file gives it. The lists of its environment have no 0 at their ends.
#[derive(Debug, Drop)]
pub struct Counter {
    /// The number of its boundary, from 0, in the order of the relation.
    pub boundary: usize,
    /// The values of the elements that are free there, the memory, and the environment.
    pub begin: Begin,
}

impl Model for Counter {
    ghost use Rattle.mw_replay.specs.Counter.{Counter as CounterOf};

    ghost Value = { CounterOf };

    ghost view = { λ c. record { boundary = c.boundary; begin = c.begin } };
}
