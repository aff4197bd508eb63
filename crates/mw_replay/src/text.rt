// The counter that a START or COUNTER file gives.
ghost use Rattle.std.specs.Prelude.{◌≡◌, ◌<◌, ◌^◌, IfOk, IfErr, Ok, Err, length};
ghost use Rattle.mw_base.specs.Reading.{Gives};
ghost use Rattle.mw_rel.specs.Free.{numbered};
ghost use Rattle.mw_rel.specs.Views.{job_of};
ghost use Rattle.mw_sim.specs.Settings.{AreSettings};
ghost use Rattle.mw_sim.specs.Views.{given_seen};
ghost use Rattle.mw_replay.specs.Counter.{IsCounter};
ghost use Rattle.mw_replay.specs.CounterText.{settables_of, begins_with, behind_no, behind_difference, boundary_place};
ghost use Rattle.mw_replay.specs.CounterText.{token_of, boundary_at_place, counter_with, counter_in, counter_of};

use crate::counter::Counter;
use crate::elements::{free_values, settables_of};
use crate::reached::number_at;
use mw_asm::{Label, address_of};
use mw_base::{
    Cause, Cursor, Line, NoMemory, Place, Refusal, Refused, TextFault, Token, fault_on, lines,
    text_end,
};
use mw_rel::{Begin, Job};
use mw_sim::{Settings, environment_with, from_first, given_by};
use std::alloc::Global;

/// Whether a line begins with this word.
fn begins_with(word: &[u8], line: &Cursor) -> bool
    ensures { result ≡ begins_with word.now line.now }
{
    line.first_word(word).is_ok()
}

/// The lines behind a line `no`, where they begin with one: cause 60 where anything else stands on it.
fn behind_no<'a>(text: &[u8], lines: &'a [Line]) -> Result<&'a [Line], TextFault>
    ensures ok { IfOk result (λ rest. behind_no text.now lines.now ≡ Ok rest.now) }
    ensures err { IfErr result (λ fault. behind_no text.now lines.now ≡ Err fault) }
{
    let [head, rest @ ..] = lines else {
        return Ok(lines);
    };
    let line = Cursor::new(text, head, Cause::BadSyntax);
    if !begins_with(b"no", &line) {
        return Ok(lines);
    }
    line.end(1)?;
    Ok(from_first(rest))
}

/// The lines behind a line `difference ..`, where they begin with one.
fn behind_difference<'a>(text: &[u8], lines: &'a [Line]) -> &'a [Line]
    ensures { result.now ≡ behind_difference text.now lines.now }
{
    let [head, rest @ ..] = lines else {
        return lines;
    };
    if begins_with(b"difference", &Cursor::new(text, head, Cause::BadSyntax)) {
        return from_first(rest);
    }
    lines
}

/// boundary PLACE: cause 60.
#[tactic(auto, unfolding(crate::specs::CounterText::boundary_place))]
fn boundary_place(line: &Cursor) -> Result<Place, TextFault>
    ensures { result ≡ boundary_place line.now }
{
    line.first_word(b"boundary")?;
    let place = line.place(1)?;
    line.end(2)?;
    Ok(place)
}

/// The token of a PLACE.
fn token_of(place: Place) -> Token
    ensures { result ≡ token_of place }
{
    match place {
        Place::Label(token) => token,
        Place::Address(numeral) => numeral.token,
    }
}

/// The number of the boundary at a PLACE: cause 30 or 33.
#[tactic(auto, unfolding(crate::specs::CounterText::boundary_at_place))]
fn boundary_at_place(
    job: &Job,
    labels: &[Label],
    text: &[u8],
    place: Place,
) -> Result<usize, TextFault>
    ensures exact { result ≡ boundary_at_place (job_of job.now) labels.now text.now place }
    ensures there { IfOk result (λ n. n < length (job_of job.now).relation.boundaries) }
{
    let address = address_of(place, text, labels)?;
    number_at(job, address).ok_or(fault_on(token_of(place), Cause::ValueTooWide))
}

/// The counter of a boundary with what is given there.
fn counter_with(
    alloc: Global,
    job: &Job,
    boundary: usize,
    given: Settings,
) -> Result<Counter, NoMemory>
    requires there { boundary < length (job_of job.now).relation.boundaries }
    requires valid { AreSettings (job_of job.now).board
        (settables_of (job_of job.now) (numbered (job_of job.now) boundary)) (given_seen given) }
    ensures exact { IfOk result (λ counter. counter ≡ counter_with (job_of job.now) boundary (given_seen given)) }
    ensures counts { IfOk result (λ counter. IsCounter (job_of job.now) counter) }
{
    let values = free_values(alloc, job, boundary, &given.values)?;
    let env = environment_with(alloc, &job.board, &given)?;
    let memory = given.memory;
    Ok(Counter {
        boundary,
        begin: Begin {
            values,
            memory,
            env,
        },
    })
}

/// What lines say from the line `boundary PLACE` on.
fn counter_in(
    alloc: Global,
    job: &Job,
    labels: &[Label],
    text: &[u8],
    end: TextFault,
    lines: &[Line],
) -> Result<Counter, Refusal>
    ensures gives { Gives (λ counter. counter) result
        (counter_in (job_of job.now) labels.now text.now end lines.now) }
    ensures counts { IfOk result (λ counter. IsCounter (job_of job.now) counter) }
{
    let [head, rest @ ..] = lines else {
        return Err(Refused::At(end));
    };
    let place = boundary_place(&Cursor::new(text, head, Cause::BadSyntax)).map_err(Refused::At)?;
    let boundary = boundary_at_place(job, labels, text, place).map_err(Refused::At)?;
    let elements = settables_of(alloc, job, boundary)?;
    let given = given_by(alloc, &job.board, &elements, text, rest)?;
    Ok(counter_with(alloc, job, boundary, given)?)
}

/// The counter that a START or COUNTER file gives: the number of its boundary, the values of the elements that are
/// free there, the memory, and the environment. What isn't given is 0. A line `no` and a line `difference ..` may
/// stand at its head, each alone, in this order; they have no effect.
///
/// The labels are those of the job's microprogram, and the text has fewer than 2^32 bytes.
///
/// # Errors
///
/// The first fault of the text: causes 1 to 4 of its bytes; then cause 60 of its head up to the line `boundary PLACE`,
/// and 30 or 33 of its PLACE, which has to be the address of a boundary; then, line by line, cause 60 of the line and,
/// by place, 40, 56 and 31 of an element and 33 of its value, 31 and 33 of a memory word, 14 and 33 of a list's entry.
/// Want of memory.
#[tactic(auto, unfolding(crate::specs::CounterText::counter_of))]
pub fn read_counter(
    alloc: Global,
    job: &Job,
    labels: &[Label],
    text: &[u8],
) -> Result<Counter, Refusal>
    requires { length text.now < 2 ^ 32 }
    ensures gives { Gives (λ counter. counter) result (counter_of (job_of job.now) labels.now text.now) }
    ensures counts { IfOk result (λ counter. IsCounter (job_of job.now) counter) }
{
    let lines = lines(alloc, text)?;
    let end = text_end(&lines, Cause::BadSyntax);
    let rest = behind_no(text, from_first(&lines)).map_err(Refused::At)?;
    counter_in(alloc, job, labels, text, end, behind_difference(text, rest))
}
