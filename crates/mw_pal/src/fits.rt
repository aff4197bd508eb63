// Which jobs PDP-8 programs fit.
ghost use Rattle.std.specs.Prelude.{◌≡◌, ◌<◌, ◌↔◌, ◌&&◌, ◌==◌, IsTrue, length};
ghost use Rattle.mw_rel.specs.Views.{job_of};
ghost use Rattle.mw_pal.specs.Fits.{is_program_counter, is_free_counter, has_free_counter, HasFreeCounter};
ghost use Rattle.mw_pal.specs.Fits.{FitsPal, fits_pal};

use mw_rel::{Job, free};

/// The bits of a PDP-8's words and of its addresses.
const BITS: u8 = 12;

/// Whether the element of this number is the described machine's register `PC`, and has 12 bits.
pub(crate) fn is_program_counter(job: &Job, number: usize) -> bool
    requires { number < length (job_of job.now).relation.shape.widths }
    ensures { result ≡ is_program_counter (job_of job.now) number }
{
    // A call for the proof: its clauses say how many elements both sides have.
    let _ = job.element_count();
    let count = job.board.element_count();
    if number < count {
        return false;
    }
    let is_named = job.machine.names()[number - count].as_slice() == b"PC".as_slice();
    let is_wide = job.shape().widths.as_slice()[number] == BITS;
    is_named & is_wide
}

/// Whether it is, and is free at the first boundary.
fn is_free_counter(job: &Job, number: usize) -> bool
    requires { number < length (job_of job.now).relation.shape.widths }
    ensures { result ≡ is_free_counter (job_of job.now) number }
{
    // A call for the proof: its clause `few` says that the numbers are small.
    let _ = job.element_count();
    is_program_counter(job, number) & free(job, 0, number as u32)
}

/// Whether there is such an element.
fn has_free_counter(job: &Job) -> bool
    ensures exact { result ≡ has_free_counter (job_of job.now) }
    ensures there { IsTrue result ↔ HasFreeCounter (job_of job.now) }
{
    for number in 0..job.element_count() {
        if is_free_counter(job, number) {
            return true;
        }
    }
    false
}

/// Whether a job's machine is one that PDP-8 programs fit: its memory has 4,096 words of 12 bits, and it has a register
/// `PC` of 12 bits that is free at the first boundary. Where it isn't, that is cause 83.
pub fn fits_pal(job: &Job) -> bool
    ensures exact { result ≡ fits_pal (job_of job.now) }
    ensures fits { IsTrue result ↔ FitsPal (job_of job.now) }
{
    let shape = job.machine.shape();
    let has_counter = has_free_counter(job);
    (shape.address == BITS) & (shape.word == BITS) & has_counter
}
