// The elements that are free at a boundary.
ghost use Rattle.std.specs.Prelude.{◌≡◌, ◌+◌, ◌<◌, ◌==◌, ◌^◌, length};
ghost use Rattle.std.specs.List.{list_any};
ghost use Rattle.mw_rel.specs.Completed.{free_before};
ghost use Rattle.mw_rel.specs.Free.{numbered, is_free};
ghost use Rattle.mw_rel.specs.Seen.{lines_of, boundary_of};
ghost use Rattle.mw_rel.specs.Views.{job_of};

use crate::boundary::Boundary;
use crate::job::Job;
use crate::line::Line;

/// Whether an element is left of one of some lines.
pub(crate) fn is_left(lines: &[Line], element: u32) -> bool
    ensures { result ≡ list_any (λ line. line.left == element) (lines_of lines.now) }
{
    for line in lines {
        if line.left == element {
            return true;
        }
    }
    false
}

/// Whether the element of this number is on no left side at a boundary.
pub(crate) fn is_free_at(at: &Boundary, number: usize) -> bool
    requires { number < 2 ^ 32 }
    ensures { result ≡ is_free (boundary_of at.now) number }
{
    !is_left(at.lines.as_slice(), number as u32)
}

/// How many elements are free up to one, and with it.
pub(crate) fn count_free(at: &Boundary, number: usize, before: usize) -> usize
    requires few { number < 174 }
    requires before { before ≡ free_before (is_free (boundary_of at.now)) number }
    requires room { before < 2 ^ 32 }
    ensures { result ≡ free_before (is_free (boundary_of at.now)) (number + 1) }
{
    if is_free_at(at, number) {
        return before + 1;
    }
    before
}

/// Whether the element of this number is free at the boundary of this number, both from 0: it is on no left side there.
pub fn free(job: &Job, boundary: usize, element: u32) -> bool
    requires there { boundary < length (job_of job.now).relation.boundaries }
    ensures { result ≡ is_free (numbered (job_of job.now) boundary) element }
{
    !is_left(job.boundary(boundary).lines.as_slice(), element)
}
