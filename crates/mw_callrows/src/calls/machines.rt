// `call machine`: reads the file `text`. Its machine: the memory, the registers, the temporaries, and the statements,
// in which expressions are trees and each `if` has both lists; or one line has the first fault.
use super::trees::{push_name, push_tree};
use mw_base::Name;
use mw_descfile::read_machine;
use mw_expr::Expr;
use mw_macro::{Machine, Statement};
use mw_rowfile::{Fault, File, Report, wrong};
use mw_twinrows::texts::text_of;
use std::alloc::Global;

/// Appends a blank and a number.
fn push_number(report: &mut Report, number: u8) {
    report.push(b" ");
    report.push_decimal(u64::from(number));
}

/// Appends a line for the memory and for each element.
fn push_elements(report: &mut Report, machine: &Machine) {
    let shape = machine.shape();
    report.push(b"memory");
    push_number(report, shape.address);
    push_number(report, shape.word);
    let registers = machine.registers() as usize;
    for (number, name) in machine.names().iter().enumerate() {
        let kind: &[u8] = if number < registers {
            b"\nregister "
        } else {
            b"\ntemp "
        };
        report.push(kind);
        report.push(name.as_slice());
        let width = shape.widths.as_slice().get(number).copied().unwrap_or(0);
        push_number(report, width);
    }
    report.push(b"\n");
}

/// Appends a line of a word and an expression.
fn push_line(report: &mut Report, names: &[Name], word: &[u8], expr: &Expr) {
    report.push(word);
    push_tree(report, names, expr);
    report.push(b"\n");
}

/// Appends the lines of a statement.
#[cycle(statements)]
fn push_statement(report: &mut Report, names: &[Name], statement: &Statement) {
    match statement {
        Statement::Assign { target, value } => {
            push_name(report, names, *target);
            push_line(report, names, b" := ", value);
        }
        Statement::Write { address, value } => {
            report.push(b"mem[");
            push_tree(report, names, address);
            push_line(report, names, b"] := ", value);
        }
        Statement::Put(value) => push_line(report, names, b"put ", value),
        Statement::Take(target) => {
            report.push(b"take ");
            push_name(report, names, *target);
            report.push(b"\n");
        }
        Statement::If {
            condition,
            first,
            second,
        } => {
            push_line(report, names, b"if ", condition);
            push_statements(report, names, first);
            report.push(b"else\n");
            push_statements(report, names, second);
            report.push(b"end\n");
        }
    }
}

/// Appends the lines of some statements.
#[cycle(statements)]
fn push_statements(report: &mut Report, names: &[Name], statements: &[Statement]) {
    for statement in statements {
        push_statement(report, names, statement);
    }
}

/// Appends the names of all elements of a machine, its request with them.
fn take_names(alloc: Global, names: &mut Vec<Name>, machine: &Machine) -> Result<(), Fault> {
    for name in machine.names() {
        names.push(Name::new(alloc, name.as_slice())?)?;
    }
    names.push(Name::new(alloc, b"request")?)?;
    Ok(())
}

/// The machine of a file.
pub(super) fn machine_in(alloc: Global, files: &[File], name: &str) -> Result<Machine, Fault> {
    let text = text_of(files, name)?;
    match read_machine(alloc, text) {
        Ok(machine) => Ok(machine),
        Err(_) => Err(wrong("the machine is refused")),
    }
}

/// Appends the lines of a machine.
fn push_machine(alloc: Global, report: &mut Report, machine: &Machine) -> Result<(), Fault> {
    let mut names = Vec::new(alloc);
    let taken = take_names(alloc, &mut names, machine);
    push_elements(report, machine);
    report.push(b"step\n");
    push_statements(report, &names, machine.statements());
    drop(names);
    taken
}

/// Appends the lines of the machine of a text, or of its first fault.
///
/// # Errors
///
/// A text of more than 1,048,576 bytes, which no file that is read has, and want of memory.
pub fn read(alloc: Global, report: &mut Report, files: &[File]) -> Result<(), Fault> {
    let text = text_of(files, "text")?;
    match read_machine(alloc, text) {
        Ok(machine) => {
            let outcome = push_machine(alloc, report, &machine);
            drop(machine);
            outcome
        }
        Err(refusal) => {
            report.push_refusal(refusal);
            Ok(())
        }
    }
}
