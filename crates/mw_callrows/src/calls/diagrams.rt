// `call diagrams`: reads the file `text`, whose lines are made in turn in one table of diagrams. A function is written
// as its table, the digits 0 and 1 where bit 0 of word 0 is 0 before those where it is 1, each half by bit 0 of word 1,
// and so on; as `BIT.WORD`, a variable; or as `? F G H`, which is G where F holds and else H. A line is `same F G`, and
// gives whether they are one node; `budgets N F G H`, and gives for each budget from 0 to N whether `? F G H` is made
// (1) or over it (0); or `first F`, and gives the numbers of words 0 to 3 under the first assignment where F holds, or
// `never`.
ghost use Rattle.std.specs.Prelude.{◌<◌, ℕ, length, IfOk, OnOk};
ghost use Rattle.mw_dd.specs.Nodes.{IsDd};

use mw_base::NoMemory;
use mw_dd::{Dd, DdFault, Diagrams};
use mw_rowfile::{Fault, File, Report, text_in, wrong};
use mw_term::Assignment;
use std::alloc::Global;

/// Why words gave no function.
#[derive(Clone, Copy)]
enum NotMade {
    /// They don't begin with a function.
    NoFunction,
    /// Memory ran out.
    NoMemory,
}

impl From<NoMemory> for NotMade {
    fn from(_: NoMemory) -> NotMade {
        NotMade::NoMemory
    }
}

/// No table of diagrams has room for as many operations as the greatest budget.
impl From<DdFault> for NotMade {
    fn from(_: DdFault) -> NotMade {
        NotMade::NoMemory
    }
}

impl From<NotMade> for Fault {
    fn from(why: NotMade) -> Fault {
        match why {
            NotMade::NoFunction => wrong("no function"),
            NotMade::NoMemory => Fault::NoMemory,
        }
    }
}

/// The variable of a bit and a word.
fn variable(diagrams: &mut Diagrams, alloc: Global, bit: &str, word: &str) -> Result<Dd, NotMade>
    ensures there { IfOk result (IsDd diagrams.new) }
    ensures keeps { (x : ℕ) → IsDd diagrams.old x → IsDd diagrams.new x }
{
    match (bit.parse::<u8>(), word.parse::<u64>()) {
        (Ok(bit), Ok(word)) if bit < 32 => Ok(diagrams.variable(alloc, bit, word)?),
        _ => Err(NotMade::NoFunction),
    }
}

/// The function of a table, whose halves bit 0 of a word chooses from.
fn table(diagrams: &mut Diagrams, alloc: Global, digits: &[u8], word: u64) -> Result<Dd, NotMade>
    ensures there { IfOk result (IsDd diagrams.new) }
    ensures keeps { (x : ℕ) → IsDd diagrams.old x → IsDd diagrams.new x }
{
    let half = digits.len() / 2;
    match digits {
        [b'0'] => return Ok(diagrams.constant(false)),
        [b'1'] => return Ok(diagrams.constant(true)),
        _ if half == 0 || digits.len() % 2 != 0 => return Err(NotMade::NoFunction),
        _ => {}
    }
    let low = table(diagrams, alloc, &digits[..half], word.saturating_add(1))?;
    let high = table(diagrams, alloc, &digits[half..], word.saturating_add(1))?;
    let variable = diagrams.variable(alloc, 0, word)?;
    Ok(diagrams.ite(alloc, variable, high, low, u32::MAX)?)
}

/// The function that the last words stand for, from the last on. They are taken away.
fn function(diagrams: &mut Diagrams, alloc: Global, words: &mut Vec<&str>) -> Result<Dd, NotMade>
    ensures there { IfOk result (IsDd diagrams.new) }
    ensures keeps { (x : ℕ) → IsDd diagrams.old x → IsDd diagrams.new x }
    ensures fewer { OnOk result (length words.new.items < length words.old.items) }
{
    let Some(word) = words.pop() else {
        return Err(NotMade::NoFunction);
    };
    if word == "?" {
        let f = function(diagrams, alloc, words)?;
        let g = function(diagrams, alloc, words)?;
        let h = function(diagrams, alloc, words)?;
        return Ok(diagrams.ite(alloc, f, g, h, u32::MAX)?);
    }
    match word.split_once('.') {
        Some((bit, word)) => variable(diagrams, alloc, bit, word),
        None => table(diagrams, alloc, word.as_bytes(), 0),
    }
}

/// Appends whether two functions are one node.
fn push_same(
    alloc: Global,
    report: &mut Report,
    diagrams: &mut Diagrams,
    words: &mut Vec<&str>,
) -> Result<(), NotMade> {
    let f = function(diagrams, alloc, words)?;
    let g = function(diagrams, alloc, words)?;
    let same: &[u8] = if f == g { b"same" } else { b"other" };
    report.push(same);
    Ok(())
}

/// Whether an operation is made within a budget.
fn is_made(
    diagrams: &mut Diagrams,
    alloc: Global,
    f: Dd,
    g: Dd,
    h: Dd,
    budget: u32,
) -> Result<bool, NoMemory>
    requires f { IsDd diagrams.old f }
    requires g { IsDd diagrams.old g }
    requires h { IsDd diagrams.old h }
    ensures { (x : ℕ) → IsDd diagrams.old x → IsDd diagrams.new x }
{
    match diagrams.ite(alloc, f, g, h, budget) {
        Ok(_) => Ok(true),
        Err(DdFault::OverBudget) => Ok(false),
        Err(DdFault::NoMemory) => Err(NoMemory),
    }
}

/// Appends for each budget up to the greatest whether an operation is made.
fn push_budgets(
    alloc: Global,
    report: &mut Report,
    diagrams: &mut Diagrams,
    words: &mut Vec<&str>,
    greatest: u8,
) -> Result<(), NotMade> {
    let f = function(diagrams, alloc, words)?;
    let g = function(diagrams, alloc, words)?;
    let h = function(diagrams, alloc, words)?;
    for budget in 0..=u32::from(greatest) {
        let made = is_made(diagrams, alloc, f, g, h, budget)?;
        report.push_bit(made);
    }
    Ok(())
}

/// The greatest budget, which is the last word. It is taken away.
fn greatest_budget(words: &mut Vec<&str>) -> Result<u8, Fault> {
    match words.pop().map(|word| word.parse::<u8>()) {
        Some(Ok(greatest)) => Ok(greatest),
        _ => Err(wrong("no greatest budget")),
    }
}

/// Appends the same up to the budget that is the last word.
fn push_up_to(
    alloc: Global,
    report: &mut Report,
    diagrams: &mut Diagrams,
    words: &mut Vec<&str>,
) -> Result<(), Fault> {
    let greatest = greatest_budget(words)?;
    push_budgets(alloc, report, diagrams, words, greatest)?;
    Ok(())
}

/// Appends the numbers of four words under an assignment.
fn push_numbers(report: &mut Report, given: &Assignment) {
    report.push_decimal(u64::from(given.number(0)));
    for word in 1..4 {
        report.push(b" ");
        report.push_decimal(u64::from(given.number(word)));
    }
}

/// Appends the numbers of four words under the first assignment where a function holds.
fn push_first(
    alloc: Global,
    report: &mut Report,
    diagrams: &mut Diagrams,
    words: &mut Vec<&str>,
) -> Result<(), NotMade> {
    let f = function(diagrams, alloc, words)?;
    match diagrams.some_assignment(alloc, f)? {
        Some(first) => {
            push_numbers(report, &first);
            drop(first);
        }
        None => report.push(b"never"),
    }
    Ok(())
}

/// Appends what the words of a line give, from the last on. They are taken away.
fn push_words(
    alloc: Global,
    report: &mut Report,
    diagrams: &mut Diagrams,
    words: &mut Vec<&str>,
) -> Result<(), Fault> {
    match words.pop() {
        Some("same") => Ok(push_same(alloc, report, diagrams, words)?),
        Some("budgets") => push_up_to(alloc, report, diagrams, words),
        Some("first") => Ok(push_first(alloc, report, diagrams, words)?),
        _ => Err(wrong("no such line of functions")),
    }
}

/// Appends what a line gives.
fn push_line(
    alloc: Global,
    report: &mut Report,
    diagrams: &mut Diagrams,
    line: &str,
) -> Result<(), Fault> {
    let mut words = Vec::new(alloc);
    for word in line.split_whitespace() {
        words.push(word)?;
    }
    words.reverse();
    push_words(alloc, report, diagrams, &mut words)?;
    if !words.is_empty() {
        return Err(wrong("a word behind the functions"));
    }
    report.push(b"\n");
    Ok(())
}

/// Appends what the lines of a text give.
fn push_lines(
    alloc: Global,
    report: &mut Report,
    diagrams: &mut Diagrams,
    text: &str,
) -> Result<(), Fault> {
    for line in text.lines() {
        push_line(alloc, report, diagrams, line)?;
    }
    Ok(())
}

/// Appends what the lines of the file `text` give.
///
/// # Errors
///
/// A line that isn't right, and want of memory.
pub fn read(alloc: Global, report: &mut Report, files: &[File]) -> Result<(), Fault> {
    let text = text_in(files, "text")?;
    let mut diagrams = Diagrams::new(alloc)?;
    let outcome = push_lines(alloc, report, &mut diagrams, text);
    drop(diagrams);
    outcome
}
