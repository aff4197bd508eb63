// The first line that fails at a boundary.
ghost use Rattle.std.specs.Prelude.{◌≡◌, ◌<◌, All, find, length, not, option_map};
ghost use Rattle.mw_rel.specs.declared.difference.Difference.TheVariants as differences;
ghost use Rattle.mw_rel.specs.Differs.{line_difference};
ghost use Rattle.mw_rel.specs.Free.{numbered};
ghost use Rattle.mw_rel.specs.InRelation.{BothFit, values_of, line_holds};
ghost use Rattle.mw_rel.specs.Rules.{IsLineOf};
ghost use Rattle.mw_rel.specs.Seen.{lines_of, boundary_of};
ghost use Rattle.mw_rel.specs.Views.{job_of};

use crate::boundary::Boundary;
use crate::difference::Difference;
use crate::job::Job;
use crate::line::Line;
use crate::pair::{MOST_ELEMENTS, Pair, copy_values, line_holds};

/// The first of some lines that fails, where the elements have these values.
fn first_to_fail(job: &Job, pair: &Pair, lines: &[Line], values: &[u32]) -> Option<Difference>
    requires lines_of { All (IsLineOf (job_of job.now).relation.shape) (lines_of lines.now) }
    requires fit { BothFit (job_of job.now) pair.now }
    requires exact { values.now ≡ values_of (job_of job.now).board pair.now }
    ensures { result ≡ option_map (λ line. differences.Element line.left)
        (find (λ line. not (line_holds (job_of job.now) pair.now line)) (lines_of lines.now)) }
{
    for line in lines {
        if !line_holds(job, pair, line, values) {
            return Some(Difference::Element(line.left));
        }
    }
    None
}

/// The first line of a boundary that fails.
fn fails_at(job: &Job, at: &Boundary, pair: &Pair) -> Option<Difference>
    requires lines_of { All (IsLineOf (job_of job.now).relation.shape) (boundary_of at.now).lines }
    requires fit { BothFit (job_of job.now) pair.now }
    ensures { result ≡ line_difference (job_of job.now) (boundary_of at.now) pair.now }
{
    let mut elements = [0; MOST_ELEMENTS];
    let values = &mut elements[..job.element_count()];
    copy_values(&job.board, &pair.board, &pair.machine.registers, values);
    first_to_fail(job, pair, at.lines.as_slice(), values)
}

/// The first line that fails at the boundary of this number, from 0, of a pair whose states fit: the difference names
/// the element on its left side. None where each line holds.
pub fn line_difference(job: &Job, boundary: usize, pair: &Pair) -> Option<Difference>
    requires there { boundary < length (job_of job.now).relation.boundaries }
    requires fit { BothFit (job_of job.now) pair.now }
    ensures { result ≡ line_difference (job_of job.now) (numbered (job_of job.now) boundary) pair.now }
{
    fails_at(job, job.boundary(boundary), pair)
}
