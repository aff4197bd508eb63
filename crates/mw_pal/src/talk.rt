// What the console of a PDP-8 program tells.
ghost use Rattle.std.specs.Prelude.{IfOk};
ghost use Rattle.mw_rel.specs.Views.{job_of};
ghost use Rattle.mw_replay.specs.Counter.{IsCounter};
ghost use Rattle.mw_pal.specs.Talk.{IsTalk};
ghost use Rattle.mw_pal.specs.Fits.{FitsPal};
ghost use Rattle.mw_pal.specs.Source.{IsMemory};

use crate::running::run;
use crate::start::{first_begin, with_inputs};
use mw_base::NoMemory;
use mw_rel::{Job, complete};
use mw_replay::Counter;
use std::alloc::Global;
use std::marker::Model;

/// What a console run tells.
#[derive(Debug, Drop)]
pub struct Talk {
    /// The start of the run, with all inputs that its steps took, zeros at their end with them.
    pub counter: Counter,
    /// What was printed.
    pub text: Vec<u8>,
}

impl Model for Talk {
    ghost use Rattle.mw_pal.specs.Talk.{Talk as TalkOf};

    ghost Value = { TalkOf };

    ghost view = { λ t. record { counter = t.counter; text = t.text.items } };
}

/// The console run of a PDP-8 program: so many steps of the described machine from the first boundary, with this memory,
/// the program counter octal 200, every other free element 0, the line 0 and no noise.
///
/// The console answers a step that puts out two words and then takes two inputs. The first word names a device, with
/// its number times 8, and a function of three bits; the second is the accumulator. The inputs are a status and a data
/// word.
///
/// - The keyboard, device 3: where function bit 0, the least, is set and a key is left, the status has octal 4000; where
///   bit 1 is set it has octal 2000, and the first key is dropped after the step; where bit 2 is set the data is the
///   first key, or 0 where none is left.
/// - The printer, device 4: where bit 0 is set the status is octal 4000; where bit 2 is set the accumulator's low eight
///   bits are printed.
///
/// All else is answered with 0, and so is each input of every other step. What a step puts out is that of the described
/// step with zeros as its inputs.
///
/// The job is one that PDP-8 programs fit, and the memory has 4,096 words of 12 bits.
///
/// # Errors
///
/// Memory ran out.
pub fn console(
    alloc: Global,
    job: &Job,
    memory: &[u32],
    keys: &[u8],
    steps: u32,
) -> Result<Talk, NoMemory>
    requires fits { FitsPal (job_of job.now) }
    requires memory { IsMemory memory.now }
    ensures talk { IfOk result (λ talk. IsTalk (job_of job.now) memory.now keys.now steps talk) }
    ensures counts { IfOk result (λ talk. IsCounter (job_of job.now) talk.counter) }
{
    let begin = first_begin(alloc, job, memory)?;
    let pair = complete(alloc, job, 0, &begin)?;
    let stand = run(alloc, &job.machine, pair.machine, keys, steps)?;
    let counter = with_inputs(begin, stand.inputs);
    let text = stand.console.into_text();
    Ok(Talk { counter, text })
}
