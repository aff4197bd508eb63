// The boundary that is reached at a control address.
ghost use Rattle.std.specs.Prelude.{◌≡◌, ◌==◌, IfSome, None, Some, find};
ghost use Rattle.mw_cycle.specs.Boundary.{is_named};
ghost use Rattle.mw_rel.specs.Certified.{boundary_at};
ghost use Rattle.mw_rel.specs.Seen.{boundaries_of, boundary_of};
ghost use Rattle.mw_rel.specs.Start.{addresses_of};
ghost use Rattle.mw_rel.specs.Views.{job_of};

use mw_rel::{Boundary, Job};

/// The boundary of some at a control address, if there is one.
fn found_at(boundaries: &[Boundary], address: u16) -> Option<&Boundary>
    ensures some { IfSome result (λ boundary. find (λ b. b.address == address) (boundaries_of boundaries.now)
        ≡ Some (boundary_of boundary.now)) }
    ensures none { result ≡ None → find (λ b. b.address == address) (boundaries_of boundaries.now) ≡ None }
{
    for boundary in boundaries {
        if boundary.address == address {
            return Some(boundary);
        }
    }
    None
}

/// The boundary at a control address, if there is one.
pub fn boundary_at(job: &Job, address: u16) -> Option<&Boundary>
    ensures some { IfSome result (λ boundary. boundary_at (job_of job.now) address ≡ Some (boundary_of boundary.now)) }
    ensures none { result ≡ None → boundary_at (job_of job.now) address ≡ None }
{
    found_at(job.relation.boundaries(), address)
}

/// Whether a control address is that of a boundary.
pub fn is_boundary(job: &Job, address: u16) -> bool
    ensures { result ≡ is_named (addresses_of (job_of job.now)) address }
{
    match boundary_at(job, address) {
        Some(_) => true,
        None => false,
    }
}
