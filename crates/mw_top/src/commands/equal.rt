// equal: a question.
ghost use Rattle.std.specs.Prelude.{◌≡◌, ◌<◌, ◌^◌, ◌++◌, ℕ, List, [], IfOk, OnOk, length};
ghost use Rattle.mw_base.specs.Reading.{Gives};
ghost use Rattle.mw_check.specs.declared.equality.Equality.TheVariants.{No};
ghost use Rattle.mw_check.specs.QuestionText.{question_of};
ghost use Rattle.mw_expr.specs.Values.{AreWords};
ghost use Rattle.mw_outside.specs.Views.{IsLater, shelf_shown};
ghost use Rattle.mw_plan.specs.Steps.{Ends};
ghost use Rattle.mw_top.specs.Commands.Equal.{equal_plan, equality_report, equality_status, sides_line, unknown_line};
ghost use Rattle.mw_top.specs.Commands.Equal.{variable_line, variable_lines, word_text, IsEquality};

use super::Work;
use crate::fault::Fault;
use crate::outcome::Outcome;
use crate::status::Status;
use mw_base::{Name, NoMemory, Refusal, append_decimal, append_hex};
use mw_check::{Equality, Question, equal, read_question};
use mw_expr::value;
use mw_outside::Shelf;
use mw_plan::{Files, Stop};
use mw_sim::{append_line, append_value_line};
use mw_term::ShortcutBook;
use std::alloc::Global;
use std::marker::Model;

/// A question, seen as what it is made of.
#[derive(Drop)]
pub(crate) struct Asked {
    question: Question,
}

impl Model for Asked {
    ghost use Rattle.mw_check.specs.Question.{asked_of, Asked as AskedOf, IsQuestion};
    ghost use Rattle.mw_fork.specs.Codes.{coded_tree};
    ghost use Rattle.std.specs.Coded.{codes};

    ghost Value = { AskedOf };

    ghost coded = { Prim.hlevel (codes, coded_tree) };

    ghost view = { λ a. asked_of a.question };

    ghost invariant = { λ a. IsQuestion (asked_of a.question) };
}

/// The question of a text.
fn read_asked(alloc: Global, text: &[u8]) -> Result<Asked, Refusal>
    requires { length text.now < 2 ^ 32 }
    ensures { Gives (λ asked. asked) result (question_of text.now) }
{
    let question = read_question(alloc, text)?;
    Ok(Asked { question })
}

/// Reads the question.
#[tactic(auto, unfolding(crate::specs::Commands::Equal::equal_plan))]
pub(super) fn read<S: Shelf>(
    alloc: Global,
    shelf: &mut S,
    files: &mut Files<'_, Work, Fault>,
) -> Result<Work, Stop<Fault>>
    requires one { length files.old.names ≡ 1 }
    requires none_read { files.old.contents ≡ [] }
    ensures ends { Ends equal_plan (shelf_shown S.Shelf shelf.old) (shelf_shown S.Shelf shelf.new) files.new result }
    ensures names { files.new.names ≡ files.old.names }
    ensures later { IsLater (shelf_shown S.Shelf shelf.old) (shelf_shown S.Shelf shelf.new) }
{
    let asked = files.next(alloc, shelf, |bytes| read_asked(alloc, bytes))?;
    Ok(Work::Question(asked))
}

/// The status of an answer.
fn status_of(equality: &Equality) -> Status
    ensures { result ≡ equality_status equality.now }
{
    match equality {
        Equality::Yes => Status::Done,
        Equality::No(_) => Status::Differs,
        Equality::Unknown { .. } => Status::Unknown,
    }
}

/// Appends the line of a variable; none where its value is 0.
fn append_variable(
    alloc: Global,
    report: &mut Vec<u8>,
    names: &[Name],
    values: &[u32],
    number: usize,
) -> Result<(), NoMemory>
    requires { number < length values.now }
    ensures { OnOk result (report.new.items ≡ report.old.items ++ variable_line names.now values.now number) }
{
    let name = match names.get(number) {
        Some(name) => name.as_slice(),
        None => b"",
    };
    append_value_line(alloc, report, b"set ", name, values[number])
}

/// Appends the lines of the variables, in their order.
fn append_variables(
    alloc: Global,
    report: &mut Vec<u8>,
    names: &[Name],
    values: &[u32],
) -> Result<(), NoMemory>
    requires { length values.now ≡ length names.now }
    ensures { OnOk result (report.new.items ≡ report.old.items ++ variable_lines names.now values.now) }
{
    for number in 0..values.len() {
        append_variable(alloc, report, names, values, number)?;
    }
    Ok(())
}

/// Appends what the sides are under these values.
#[tactic(auto, unfolding(crate::specs::Commands::Equal::sides_line))]
fn append_sides(
    alloc: Global,
    report: &mut Vec<u8>,
    asked: &Asked,
    values: &[u32],
) -> Result<(), NoMemory>
    requires { AreWords asked.now.shape.widths values.now }
    ensures { OnOk result (report.new.items ≡ report.old.items ++ sides_line asked.now values.now) }
{
    let Question {
        shape,
        left,
        right,
        ..
    } = &asked.question;
    report.extend_from_slice(b"left ")?;
    append_hex(alloc, report, u128::from(value(left, shape, values, &[])))?;
    report.extend_from_slice(b" right ")?;
    append_hex(alloc, report, u128::from(value(right, shape, values, &[])))?;
    append_line(report, b"")
}

/// Appends that the sides differ under these values.
#[tactic(auto, unfolding(crate::specs::Commands::Equal::equality_report))]
fn append_no(
    alloc: Global,
    report: &mut Vec<u8>,
    asked: &Asked,
    values: &[u32],
) -> Result<(), NoMemory>
    requires { AreWords asked.now.shape.widths values.now }
    ensures { OnOk result (report.new.items ≡ report.old.items ++ equality_report asked.now (No values.now)) }
{
    append_line(report, b"no")?;
    append_variables(alloc, report, asked.question.names.as_slice(), values)?;
    append_sides(alloc, report, asked, values)
}

/// Appends a word and a bit of it.
pub(super) fn append_word(
    alloc: Global,
    report: &mut Vec<u8>,
    word: u64,
    bit: u8,
) -> Result<(), NoMemory>
    ensures { OnOk result (report.new.items ≡ report.old.items ++ word_text word bit) }
{
    report.extend_from_slice(b" word ")?;
    append_decimal(alloc, report, word)?;
    report.extend_from_slice(b" bit ")?;
    append_decimal(alloc, report, u64::from(bit))
}

/// Appends that an operation at a bit of a word is over the budget.
fn append_unknown(alloc: Global, report: &mut Vec<u8>, word: u64, bit: u8) -> Result<(), NoMemory>
    ensures { OnOk result (report.new.items ≡ report.old.items ++ unknown_line word bit) }
{
    report.extend_from_slice(b"unknown")?;
    append_word(alloc, report, word, bit)?;
    append_line(report, b"")
}

/// Appends an answer to a question.
#[tactic(auto, unfolding(crate::specs::Commands::Equal::equality_report))]
fn append_equality(
    alloc: Global,
    report: &mut Vec<u8>,
    asked: &Asked,
    equality: &Equality,
) -> Result<(), NoMemory>
    requires { (values : List ℕ) → equality.now ≡ No values → AreWords asked.now.shape.widths values }
    ensures { OnOk result (report.new.items ≡ report.old.items ++ equality_report asked.now equality.now) }
{
    match equality {
        Equality::Yes => append_line(report, b"yes"),
        Equality::No(values) => append_no(alloc, report, asked, values.as_slice()),
        Equality::Unknown { word, bit } => append_unknown(alloc, report, *word, *bit),
    }
}

/// Answers a question within a budget.
pub(super) fn report(
    alloc: Global,
    asked: &Asked,
    nodes: u32,
    book: &ShortcutBook,
) -> Result<Outcome, NoMemory>
    ensures { IfOk result (λ outcome. IsEquality nodes asked.now outcome.status outcome.report.items) }
{
    let equality = equal(alloc, &asked.question, nodes, book)?;
    let mut report = Vec::new(alloc);
    append_equality(alloc, &mut report, asked, &equality)?;
    Ok(Outcome {
        status: status_of(&equality),
        report,
    })
}
