// `call pair boundary=N values=N memory=N`: the pair in relation at the boundary of this number, from 0, of the job of
// the board of the file `b` with the microprogram of the file `m`, the machine of the file `k` and the relation of the
// file `text`. It is chosen by so many values of free elements and so many words of a memory, which the file `begin`
// names as `vN=` and `memA=`; what isn't named is 0. Numbers are hexadecimal. What is printed: how many elements there
// are; those that aren't free at that boundary; both states, or that this is no choice there; and the boundaries at
// which the pair is in relation, by the job and, where there is a file `other`, by the one with the relation of that
// file.
ghost use Rattle.std.specs.Prelude.{◌<◌, ◌^◌, IfOk, IsTrue, length};
ghost use Rattle.mw_macro.specs.Described.{description_of};
ghost use Rattle.mw_rel.specs.Job.{AreForEachOther};
ghost use Rattle.mw_rel.specs.Views.{job_of, relation_of};

use super::machines::machine_in;
use mw_asm::Program;
use mw_cycle::Env;
use mw_descfile::read_relation;
use mw_macro::Machine;
use mw_rel::{Begin, Job, Pair, Relation, complete, free, holds};
use mw_rowfile::named::{hexadecimal, hexadecimal_of, set_word, word};
use mw_rowfile::states::file_words;
use mw_rowfile::{Fault, File, Report, contents, contents_in, texts, wrong};
use mw_twinrows::programmed::read_programmed;
use mw_twinrows::texts::text_of;
use std::alloc::Global;

/// The relation of a file between a board with its microprogram and a machine.
fn related(
    alloc: Global,
    micro: &Program,
    machine: &Machine,
    files: &[File],
    name: &str,
) -> Result<Relation, Fault>
    ensures { IfOk result
        (λ relation. AreForEachOther micro.now.board (description_of machine.now) (relation_of relation)) }
{
    let text = text_of(files, name)?;
    match read_relation(alloc, &micro.board, &micro.made, machine, text) {
        Ok(relation) => Ok(relation),
        Err(_) => Err(wrong("the relation is refused")),
    }
}

/// The job of these parts.
fn joined(micro: Program, machine: Machine, relation: Relation) -> Result<Job, Fault>
    requires { AreForEachOther micro.board (description_of machine) (relation_of relation) }
{
    let Program { board, made } = micro;
    match Job::new(board, made.store, machine, relation) {
        Ok(job) => Ok(job),
        Err(_) => Err(wrong("the job is refused")),
    }
}

/// The job of these parts and of the relation of a file.
fn job_with(
    alloc: Global,
    micro: Program,
    machine: Machine,
    files: &[File],
    name: &str,
) -> Result<Job, Fault> {
    match related(alloc, &micro, &machine, files, name) {
        Ok(relation) => joined(micro, machine, relation),
        Err(fault) => {
            drop(micro);
            drop(machine);
            Err(fault)
        }
    }
}

/// The job of the files `b`, `m` and `k`, and of the relation of another one.
pub(super) fn read_job(alloc: Global, files: &[File], name: &str) -> Result<Job, Fault> {
    let micro = read_programmed(alloc, files)?;
    match machine_in(alloc, files, "k") {
        Ok(machine) => job_with(alloc, micro, machine, files, name),
        Err(fault) => {
            drop(micro);
            Err(fault)
        }
    }
}

/// The most values and words of a memory.
const MOST_NUMBERS: u64 = 65_536;

/// As many zeros as the word of this name says.
fn zeros(alloc: Global, given: &[String], name: &str) -> Result<Vec<u32>, Fault> {
    let count = hexadecimal_of(given, name)?;
    if count > MOST_NUMBERS {
        return Err(wrong("too many numbers"));
    }
    Ok(vec![in alloc; 0; count as usize]?)
}

/// Sets a value, named as `vN`, or a word of the memory, named as `memA`.
fn set_part(begin: &mut Begin, name: &str, number: u32) -> Result<(), Fault> {
    if let Some(place) = name.strip_prefix("mem") {
        return set_word(&mut begin.memory, hexadecimal(place)?, number);
    }
    match name.strip_prefix('v') {
        Some(place) => set_word(&mut begin.values, hexadecimal(place)?, number),
        None => Err(wrong("no such part of a choice")),
    }
}

/// Sets a part, spelled as `NAME=NUMBER`.
fn take_part(begin: &mut Begin, part: &str) -> Result<(), Fault> {
    match part.split_once('=') {
        Some((name, number)) => {
            let number = word(hexadecimal(number)?)?;
            set_part(begin, name, number)
        }
        None => Err(wrong("a part of a choice is NAME=NUMBER")),
    }
}

/// No values but zeros.
fn no_choice(alloc: Global, given: &[String]) -> Result<Begin, Fault> {
    let values = zeros(alloc, given, "values")?;
    let memory = zeros(alloc, given, "memory")?;
    let env = Env::nothing(alloc);
    Ok(Begin {
        values,
        memory,
        env,
    })
}

/// Sets the parts that the file `begin` names.
fn take_parts(alloc: Global, begin: &mut Begin, files: &[File]) -> Result<(), Fault> {
    for part in &file_words(alloc, files, "begin")? {
        take_part(begin, part.as_str())?;
    }
    Ok(())
}

/// What the pair is chosen by.
fn begin_of(alloc: Global, given: &[String], files: &[File]) -> Result<Begin, Fault> {
    let mut begin = no_choice(alloc, given)?;
    match take_parts(alloc, &mut begin, files) {
        Ok(()) => Ok(begin),
        Err(fault) => {
            drop(begin);
            Err(fault)
        }
    }
}

/// Whether a job has a boundary of this number.
fn has(job: &Job, boundary: usize) -> bool
    ensures { IsTrue result → boundary < length (job_of job.now).relation.boundaries }
{
    boundary < job.relation.boundaries().len()
}

/// Appends a blank and a number.
fn push_number(report: &mut Report, number: u32) {
    report.push_named(b" ", u64::from(number));
}

/// Appends the numbers of the elements that aren't free at a boundary.
fn push_bound(report: &mut Report, job: &Job, boundary: usize)
    requires there { boundary < length (job_of job.now).relation.boundaries }
{
    report.push(b"bound");
    for number in 0..job.element_count() as u32 {
        if !free(job, boundary, number) {
            push_number(report, number);
        }
    }
    report.push(b"\n");
}

/// Appends the state of the board, and the registers and the memory of the machine.
fn push_pair(report: &mut Report, pair: &Pair) {
    texts::push_state(report, &pair.board);
    report.push(b"\nregisters");
    for &value in &pair.machine.registers {
        push_number(report, value);
    }
    texts::push_memory(report, &pair.machine.memory);
    report.push(b"\n");
}

/// Whether there is a boundary of this number and a pair is in relation there.
fn is_held(job: &Job, boundary: usize, pair: &Pair) -> bool {
    has(job, boundary) && holds(job, boundary, pair)
}

/// Appends the numbers of the boundaries at which a pair is in relation.
fn push_held(report: &mut Report, job: &Job, pair: &Pair) {
    report.push(b"held");
    for (number, _) in job.relation.boundaries().iter().enumerate() {
        if is_held(job, number, pair) {
            push_number(report, number as u32);
        }
    }
    report.push(b"\n");
}

/// Appends the numbers of the boundaries at which a pair is in relation by the job with the file `other`.
fn push_other(
    alloc: Global,
    report: &mut Report,
    pair: &Pair,
    files: &[File],
) -> Result<(), Fault> {
    let other = read_job(alloc, files, "other")?;
    push_held(report, &other, pair);
    drop(other);
    Ok(())
}

/// Appends what a pair is.
fn push_made(
    alloc: Global,
    report: &mut Report,
    job: &Job,
    pair: &Pair,
    files: &[File],
) -> Result<(), Fault> {
    push_pair(report, pair);
    push_held(report, job, pair);
    match contents_in(files, "other") {
        Some(_) => push_other(alloc, report, pair, files),
        None => Ok(()),
    }
}

/// The number of the boundary.
fn boundary_number(given: &[String]) -> Result<usize, Fault> {
    match usize::try_from(hexadecimal_of(given, "boundary")?) {
        Ok(number) => Ok(number),
        Err(_) => Err(wrong("no such boundary")),
    }
}

/// Appends the pair that is chosen, or that this is no choice.
fn push_completed(
    alloc: Global,
    report: &mut Report,
    job: &Job,
    boundary: usize,
    begin: &Begin,
    files: &[File],
) -> Result<(), Fault>
    requires there { boundary < length (job_of job.now).relation.boundaries }
{
    if !begin.fits(job, boundary) {
        report.push(b"no choice\n");
        return Ok(());
    }
    let pair = complete(alloc, job, boundary, begin)?;
    let outcome = push_made(alloc, report, job, &pair, files);
    drop(pair);
    outcome
}

/// Appends how many elements a job has, and those that aren't free at a boundary.
fn push_elements(report: &mut Report, job: &Job, boundary: usize)
    requires there { boundary < length (job_of job.now).relation.boundaries }
{
    report.push(b"elements");
    push_number(report, job.element_count() as u32);
    report.push(b"\n");
    push_bound(report, job, boundary);
}

/// Appends what a choice gives.
fn push_begin(
    alloc: Global,
    report: &mut Report,
    job: &Job,
    boundary: usize,
    begin: &Begin,
    files: &[File],
) -> Result<(), Fault> {
    if !has(job, boundary) {
        return Err(wrong("no such boundary"));
    }
    push_elements(report, job, boundary);
    push_completed(alloc, report, job, boundary, begin, files)
}

/// Appends what the choice of these words gives.
fn push_chosen(
    alloc: Global,
    report: &mut Report,
    given: &[String],
    files: &[File],
    job: &Job,
) -> Result<(), Fault> {
    let boundary = boundary_number(given)?;
    let begin = begin_of(alloc, given, files)?;
    let outcome = push_begin(alloc, report, job, boundary, &begin, files);
    drop(begin);
    outcome
}

/// Appends the lines of the pair that these words and files give.
///
/// # Errors
///
/// Words or files that aren't what the call reads, and want of memory.
pub fn read(
    alloc: Global,
    report: &mut Report,
    given: &[String],
    files: &[File],
) -> Result<(), Fault> {
    let job = read_job(alloc, files, "text")?;
    let outcome = push_chosen(alloc, report, given, files, &job);
    drop(job);
    outcome
}
