// `call twin-words boundary=N bits=DIGITS`: the twin case with these bits, those of the old segment before those of the
// new one, at the block of this number, from 0 and hexadecimal, of the KEEP text of the file `k`, which speaks of the
// programs of the files `m`, the old one, and `n`, the new one, on the board of the file `b`. What is printed: a line
// of the bits that are asked for, each by what it says and the word that has its value; a line of how both segments
// end, with their cycles and the control addresses at which both boards stand then, or that one of both is late; and a
// line of all words of the case but those of its comparison.
ghost use Rattle.std.specs.Prelude.{◌≡◌, IfOk, OnOk};
ghost use Rattle.mw_revise.specs.Kept.{IsKeep};
ghost use Rattle.mw_revise.specs.Revision.{IsRevision};
ghost use Rattle.mw_twin.specs.Courses.{IsReady, WaitsIn};
ghost use Rattle.mw_twin.specs.RevisedBlocks.{IsRevisedBlock};

use crate::revised::{addresses, block_at, read_revision};
use mw_revise::{Revision, Side};
use mw_rowfile::named::{hexadecimal_of, text_of};
use mw_rowfile::{Fault, File, Report, wrong};
use mw_space::Space;
use mw_symboard::SymBoard;
use mw_symmem::Turn;
use mw_symrows::{push_operand, push_words};
use mw_term::{DecidedKind, Term};
use mw_twin::{Course, RevisedBlock, courses_take_bits};
use std::alloc::Global;

/// The bit that a digit stands for.
fn bit_of(digit: u8) -> Result<bool, Fault> {
    match digit {
        b'0' => Ok(false),
        b'1' => Ok(true),
        _ => Err(wrong("no bit")),
    }
}

/// Appends what a bit says, with a blank before it.
fn push_kind(report: &mut Report, kind: DecidedKind) {
    report.push(b" ");
    match kind {
        DecidedKind::Pass => report.push(b"pass"),
        DecidedKind::CounterZero => report.push(b"zero"),
        DecidedKind::Next(place) => report.push_decimal(u64::from(place)),
        DecidedKind::Branch => report.push(b"branch"),
    }
}

/// Appends a bit that is asked for: what it says, and the operand that is its term.
fn push_asked(
    report: &mut Report,
    space: &Space,
    kind: DecidedKind,
    term: Term,
) -> Result<(), Fault> {
    push_kind(report, kind);
    report.push(b":");
    push_operand(report, &space.terms, &space.words, term)?;
    Ok(())
}

/// Appends a number, with a blank before it.
fn push_number(report: &mut Report, number: u32) {
    report.push(b" ");
    report.push_decimal(u64::from(number));
}

/// Appends that both segments have ended at boundaries, and where.
fn push_reached(report: &mut Report, before: &SymBoard, after: &SymBoard) {
    report.push(b"reached");
    push_number(report, before.cycles());
    push_number(report, after.cycles());
    report.push_named(b" at 0x", u64::from(before.at()));
    report.push_named(b" 0x", u64::from(after.at()));
}

/// Appends how a course has ended.
fn push_end(report: &mut Report, course: &Course) {
    match &course.new_board {
        None => report.push(b"late old"),
        Some(_) if course.late => {
            report.push(b"late new");
            push_number(report, course.old_board.cycles());
        }
        Some(after) => push_reached(report, &course.old_board, after),
    }
    report.push(b"\n");
}

/// Gives its value to the bit that a course waits for, which has this kind and this term; the contract alone speaks of
/// these.
fn give(_revised: &RevisedBlock, course: &mut Course, _kind: DecidedKind, _term: Term, value: bool)
    requires { WaitsIn _revised.now course.old course.old.new_board _kind _term }
    ensures { IsReady _revised.now course.new }
{
    // A law for the proof: a course that waits for a bit is ready once that is given.
    courses_take_bits();
    course.decide(value);
}

/// Goes on to the next bit, appends it, and gives it this value.
fn take_bit(
    alloc: Global,
    report: &mut Report,
    revised: &RevisedBlock,
    course: &mut Course,
    value: bool,
) -> Result<(), Fault>
    requires { IsReady revised.now course.old }
    ensures { OnOk result (IsReady revised.now course.new) }
{
    match course.turn(alloc, revised)? {
        Turn::Ask { kind, term } => {
            push_asked(report, &course.space, kind, term)?;
            give(revised, course, kind, term, value);
            Ok(())
        }
        Turn::Finished => Err(wrong("a case has fewer bits")),
    }
}

/// The same with the values that digits stand for.
fn take_bits(
    alloc: Global,
    report: &mut Report,
    revised: &RevisedBlock,
    course: &mut Course,
    digits: &[u8],
) -> Result<(), Fault>
    requires { IsReady revised.now course.old }
    ensures { OnOk result (IsReady revised.now course.new) }
{
    for digit in digits {
        take_bit(alloc, report, revised, course, bit_of(*digit)?)?;
    }
    Ok(())
}

/// Goes on to the end of the case, and appends how both segments end and the words.
fn push_ended(
    alloc: Global,
    report: &mut Report,
    revised: &RevisedBlock,
    course: &mut Course,
) -> Result<(), Fault>
    requires { IsReady revised.now course.old }
{
    match course.turn(alloc, revised)? {
        Turn::Ask { .. } => Err(wrong("a case has more bits")),
        Turn::Finished => {
            push_end(report, course);
            push_words(report, &course.space.terms, &course.space.words, 0)?;
            Ok(())
        }
    }
}

/// Appends the lines of the case with these digits through which a course goes.
fn push_through(
    alloc: Global,
    report: &mut Report,
    revised: &RevisedBlock,
    course: &mut Course,
    digits: &[u8],
) -> Result<(), Fault>
    requires { IsReady revised.now course.old }
{
    report.push(b"asked");
    take_bits(alloc, report, revised, course, digits)?;
    report.push(b"\n");
    push_ended(alloc, report, revised, course)
}

/// Appends the lines of the case with these digits at a block.
fn push_case(
    alloc: Global,
    report: &mut Report,
    revised: &RevisedBlock,
    digits: &[u8],
) -> Result<(), Fault>
    requires { IsRevisedBlock revised.now }
{
    let mut course = Course::new(alloc, revised)?;
    let outcome = push_through(alloc, report, revised, &mut course, digits);
    drop(course);
    outcome
}

/// Appends the same of the block of this number.
fn push_at(
    alloc: Global,
    report: &mut Report,
    revision: &Revision,
    number: u64,
    digits: &[u8],
) -> Result<(), Fault>
    requires revision { IsRevision revision.now }
    requires kept { IsKeep revision.now.board revision.now.keep }
{
    let before = addresses(alloc, revision, Side::Old)?;
    let after = addresses(alloc, revision, Side::New)?;
    match block_at(revision, &before, &after, number as usize) {
        Some(revised) => push_case(alloc, report, &revised, digits),
        None => Err(wrong("no such boundary")),
    }
}

/// Appends the lines of the twin case that words and files give.
///
/// # Errors
///
/// Words or files that aren't what the call reads, digits that are fewer or more than the case has bits, and want of
/// memory.
pub fn list(
    alloc: Global,
    report: &mut Report,
    given: &[String],
    files: &[File],
) -> Result<(), Fault> {
    let number = hexadecimal_of(given, "boundary")?;
    let digits = text_of(given, "bits")?.as_bytes();
    let revision = read_revision(alloc, files)?;
    let outcome = push_at(alloc, report, &revision, number, digits);
    drop(revision);
    outcome
}
