// The texts of reports.
ghost use Rattle.std.specs.Prelude.{◌≡◌, ◌++◌, [], OnOk, slice_index_or};
ghost use Rattle.mw_sim.specs.Texts.{line};
ghost use Rattle.mw_top.specs.Report.{usage_line, fault_line, cause_text, place_text, reader_text};
ghost use Rattle.mw_top.specs.Report.{fault_text, refusal_line};
ghost use Rattle.mw_top.specs.Differences.{AreOf32Bits};
ghost use Rattle.mw_top.specs.Report.{difference_line, difference_text, element_text};
ghost use Rattle.mw_base.specs.Numbers.{decimal};
ghost use Rattle.mw_macro.specs.Described.{description_of};
ghost use Rattle.mw_rel.specs.Views.{job_of};

use crate::fault::Fault;
use mw_base::{Cause, NoMemory, append_decimal};
use mw_macro::Machine;
use mw_plan::FileFault;
use mw_rel::Job;
use mw_replay::Difference;
use mw_sim::{append_element_words, append_event_words, append_line, append_memory_words};
use std::alloc::Global;

const USAGE: &[u8] =
    b"usage: mw_bench COMMAND FILES [--nodes N] [--paths P] [--steps K] [--cycles C] [--parts]";

/// Appends a line that ends with a count in decimal digits, which may have 64 bits.
pub(crate) fn append_count_line(
    alloc: Global,
    report: &mut Vec<u8>,
    front: &[u8],
    count: u64,
) -> Result<(), NoMemory>
    ensures { OnOk result (report.new.items ≡ report.old.items ++ line (front.now ++ decimal count)) }
{
    report.extend_from_slice(front)?;
    append_decimal(alloc, report, count)?;
    append_line(report, b"")
}

/// Appends a line that ends with a number in decimal digits.
pub(crate) fn append_decimal_line(
    alloc: Global,
    report: &mut Vec<u8>,
    front: &[u8],
    number: u32,
) -> Result<(), NoMemory>
    ensures { OnOk result (report.new.items ≡ report.old.items ++ line (front.now ++ decimal number)) }
{
    append_count_line(alloc, report, front, u64::from(number))
}

/// Appends the answer to faulty words.
pub(crate) fn append_usage(report: &mut Vec<u8>) -> Result<(), NoMemory>
    ensures { OnOk result (report.new.items ≡ report.old.items ++ usage_line) }
{
    append_line(report, USAGE)
}

/// Appends that a file can't be read.
pub(crate) fn append_fault(report: &mut Vec<u8>, file: &str) -> Result<(), NoMemory>
    ensures { OnOk result (report.new.items ≡ report.old.items ++ fault_line file.now) }
{
    report.extend_from_slice(b"fault read ")?;
    append_line(report, file.as_bytes())
}

/// Appends the cause at the end of a refusal.
fn append_cause(alloc: Global, report: &mut Vec<u8>, cause: Cause) -> Result<(), NoMemory>
    ensures { OnOk result (report.new.items ≡ report.old.items ++ cause_text cause) }
{
    report.extend_from_slice(b" cause ")?;
    append_decimal(alloc, report, u64::from(cause.number()))
}

/// Appends a line and a column of a text.
fn append_place(alloc: Global, report: &mut Vec<u8>, line: u32, column: u32) -> Result<(), NoMemory>
    ensures { OnOk result (report.new.items ≡ report.old.items ++ place_text line column) }
{
    report.extend_from_slice(b" line ")?;
    append_decimal(alloc, report, u64::from(line))?;
    report.extend_from_slice(b" column ")?;
    append_decimal(alloc, report, u64::from(column))
}

/// Appends where and why a reader refuses a file.
#[tactic(auto, unfolding(crate::specs::Report::reader_text))]
fn append_reader_fault(alloc: Global, report: &mut Vec<u8>, fault: &Fault) -> Result<(), NoMemory>
    ensures { OnOk result (report.new.items ≡ report.old.items ++ reader_text fault.now) }
{
    match fault {
        Fault::Text(fault) => {
            append_place(alloc, report, fault.line, fault.column)?;
            append_cause(alloc, report, fault.cause)
        }
        Fault::Board(fault) => {
            report.extend_from_slice(b" key ")?;
            report.extend_from_slice(fault.key.as_slice())?;
            append_cause(alloc, report, fault.cause)
        }
    }
}

/// Appends where and why a file is refused.
#[tactic(auto, unfolding(crate::specs::Report::fault_text))]
fn append_file_fault(
    alloc: Global,
    report: &mut Vec<u8>,
    fault: &FileFault<Fault>,
) -> Result<(), NoMemory>
    ensures { OnOk result (report.new.items ≡ report.old.items ++ fault_text fault.now) }
{
    match fault {
        FileFault::TooLong => {
            append_place(alloc, report, 0, 0)?;
            append_cause(alloc, report, Cause::FileTooLong)
        }
        FileFault::At(fault) => append_reader_fault(alloc, report, fault),
    }
}

/// Appends that a file is refused.
pub(crate) fn append_refusal(
    alloc: Global,
    report: &mut Vec<u8>,
    file: &str,
    fault: &FileFault<Fault>,
) -> Result<(), NoMemory>
    ensures { OnOk result (report.new.items ≡ report.old.items ++ refusal_line file.now fault.now) }
{
    report.extend_from_slice(b"refused ")?;
    report.extend_from_slice(file.as_bytes())?;
    append_file_fault(alloc, report, fault)?;
    append_line(report, b"")
}

/// The name of a register of a machine.
fn register_name(machine: &Machine, number: usize) -> &[u8]
    ensures { result.now ≡ slice_index_or (description_of machine.now).names number [] }
{
    match machine.names().get(number) {
        Some(name) => name.as_slice(),
        None => b"",
    }
}

/// Appends an element of a job.
fn append_element(report: &mut Vec<u8>, job: &Job, element: u32) -> Result<(), NoMemory>
    ensures { OnOk result (report.new.items ≡ report.old.items ++ element_text (job_of job.now) element) }
{
    let number = element as usize;
    let of_board = job.board.element_count();
    if number < of_board {
        append_element_words(report, &job.board, number)?;
    } else {
        report.extend_from_slice(b"element m.")?;
        report.extend_from_slice(register_name(&job.machine, number - of_board))?;
    }
    Ok(())
}

/// Appends a difference that a start of a job shows.
#[tactic(auto, unfolding(crate::specs::Report::difference_text))]
fn append_difference(
    alloc: Global,
    report: &mut Vec<u8>,
    job: &Job,
    difference: Difference,
) -> Result<(), NoMemory>
    ensures text { OnOk result (report.new.items ≡ report.old.items ++ difference_text (job_of job.now) difference) }
    ensures numbers { OnOk result (AreOf32Bits difference) }
{
    match difference {
        Difference::Late => report.extend_from_slice(b"late")?,
        Difference::Event(number) => append_event_words(alloc, report, number)?,
        Difference::StackPointer => report.extend_from_slice(b"element b.sp")?,
        Difference::Element(element) => append_element(report, job, element)?,
        Difference::Memory(address) => append_memory_words(alloc, report, address)?,
    }
    Ok(())
}

/// Appends the line of a difference that a start of a job shows.
pub(crate) fn append_difference_line(
    alloc: Global,
    report: &mut Vec<u8>,
    job: &Job,
    difference: Difference,
) -> Result<(), NoMemory>
    ensures line { OnOk result (report.new.items ≡ report.old.items ++ difference_line (job_of job.now) difference) }
    ensures numbers { OnOk result (AreOf32Bits difference) }
{
    report.extend_from_slice(b"difference ")?;
    append_difference(alloc, report, job, difference)?;
    append_line(report, b"")?;
    Ok(())
}
