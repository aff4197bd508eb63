// The starts at a boundary.
ghost use Rattle.std.specs.Prelude.{◌<◌, length};
ghost use Rattle.mw_rel.specs.Views.{job_of};

use mw_rel::Job;

/// The starts of a job at the boundary of this number, from 0, and how many joint cofactors an operation of their cases
/// may have.
#[derive(Drop)]
pub(crate) struct Starts<'a> {
    /// The job.
    pub job: &'a Job,
    /// The number of the boundary.
    pub boundary: usize,
    /// How many joint cofactors an operation may have.
    pub nodes: u32,
    ghost there: { boundary < length (job_of job.now).relation.boundaries },
}

/// How a case ends.
#[derive(Clone, Copy)]
pub(crate) struct Ended {
    /// How many cycles the segments of its starts have; where these are late, the bound's number.
    pub cycles: u32,
    /// Whether they are late.
    pub late: bool,
}
