// The first pass, over the lines of a source.
ghost use Rattle.std.specs.Prelude.{◌≡◌, ◌<◌};
ghost use Rattle.mw_base.specs.Reading.{Gives};
ghost use Rattle.mw_pal.specs.FirstPass.{stands_at, at_first, with_next, with_label, with_optional_label, can_stand};
ghost use Rattle.mw_pal.specs.FirstPass.{with_cell, with_statement, with_optional_statement, with_entry, with_line};
ghost use Rattle.mw_pal.specs.FirstPass.{first_pass};
ghost use Rattle.mw_pal.specs.Views.{known_seen};

use crate::joins::check_joins;
use crate::statement::{Entry, Instruction, Statement, entry_of, is_reserved};
use mw_base::{
    Cause, Cursor, Line, Names, Numeral, Refusal, Refused, TextFault, Token, fault_on, low_address,
    spelled,
};
use std::alloc::Global;

/// How many words a memory has.
pub(crate) const WORDS: u16 = 4096;

/// The address of the first statement, and of the first instruction of a program.
pub(crate) const FIRST: u16 = 0o200;

/// A statement that puts a word into memory.
#[derive(Drop)]
pub(crate) struct Cell {
    /// Its address.
    pub address: u16,
    /// What it says.
    pub says: Instruction,
}

/// What is known after some lines.
#[derive(Drop)]
pub(crate) struct Known<'a> {
    /// The addresses of the labels.
    pub labels: Names<'a, u16>,
    /// The next statement's address, 0 to 4,096; at 4,096 there is no more room.
    pub next: u16,
    /// The statements, in file order.
    pub cells: Vec<Cell>,
}

/// Whether one of some statements stands at this address.
fn stands_at(cells: &[Cell], address: u16) -> bool
    ensures { result ≡ stands_at cells.now address }
{
    cells.iter().any(|cell| cell.address == address)
}

/// Whether the words of a statement can stand together: cause 85.
fn check_stands(says: &Instruction) -> Result<(), TextFault>
    ensures { result ≡ can_stand says.now }
{
    match says {
        Instruction::Operate(words) => check_joins(words.as_slice()),
        _ => Ok(()),
    }
}

impl<'a> Known<'a> {
    /// Before the first line.
    fn new(alloc: Global) -> Known<'a>
        ensures { known_seen result ≡ at_first }
    {
        Known {
            labels: Names::new(alloc),
            next: FIRST,
            cells: Vec::new(alloc),
        }
    }

    /// Takes `org N`: cause 33 where no address is so great.
    #[tactic(auto, unfolding(crate::specs::FirstPass::with_next))]
    fn go_to(&mut self, number: Numeral) -> Result<(), Refusal>
        ensures { Gives (λ done. known_seen self.new) result (with_next number (known_seen self.old)) }
    {
        self.next = low_address(number.token, number.value).map_err(Refused::At)?;
        Ok(())
    }

    /// Takes a label of the next statement's address: cause 31 where its name isn't free, 33 where it is too long.
    #[tactic(auto, unfolding(crate::specs::FirstPass::with_label))]
    fn add_label(&mut self, text: &'a [u8], name: Token) -> Result<(), Refusal>
        ensures { Gives (λ done. known_seen self.new) result (with_label text.now name (known_seen self.old)) }
    {
        let is_reserved = is_reserved(spelled(text, name));
        self.labels
            .check_new(text, name, is_reserved)
            .map_err(Refused::At)?;
        self.labels.insert(spelled(text, name), self.next)?;
        Ok(())
    }

    /// Takes the label of a line that has one.
    fn add_optional_label(&mut self, text: &'a [u8], name: Option<Token>) -> Result<(), Refusal>
        ensures { Gives (λ done. known_seen self.new) result (with_optional_label text.now name (known_seen self.old)) }
    {
        match name {
            Some(name) => self.add_label(text, name),
            None => Ok(()),
        }
    }

    /// Puts a statement at the next address: cause 85 where its words can't stand together.
    #[tactic(auto, unfolding(crate::specs::FirstPass::with_cell))]
    fn add_cell(&mut self, statement: Statement) -> Result<(), Refusal>
        requires { self.now.next < 4096 }
        ensures { Gives (λ done. known_seen self.new) result (with_cell statement (known_seen self.old)) }
    {
        check_stands(&statement.says).map_err(Refused::At)?;
        self.cells.push(Cell {
            address: self.next,
            says: statement.says,
        })?;
        self.next += 1;
        Ok(())
    }

    /// Takes a statement: cause 34 where the memory is full, 35 where one stands at the next address, then 85.
    #[tactic(auto, unfolding(crate::specs::FirstPass::with_statement))]
    fn add_statement(&mut self, statement: Statement) -> Result<(), Refusal>
        ensures { Gives (λ done. known_seen self.new) result (with_statement statement (known_seen self.old)) }
    {
        if self.next >= WORDS {
            return Err(Refused::At(fault_on(statement.first, Cause::StoreFull)));
        }
        if stands_at(&self.cells, self.next) {
            return Err(Refused::At(fault_on(statement.first, Cause::Overlap)));
        }
        self.add_cell(statement)
    }

    /// Takes the statement of a line that has one.
    fn add_optional_statement(&mut self, statement: Option<Statement>) -> Result<(), Refusal>
        ensures { Gives (λ done. known_seen self.new) result (with_optional_statement statement (known_seen self.old)) }
    {
        match statement {
            Some(statement) => self.add_statement(statement),
            None => Ok(()),
        }
    }

    /// Takes what a line says.
    fn add_entry(&mut self, text: &'a [u8], entry: Entry) -> Result<(), Refusal>
        ensures { Gives (λ done. known_seen self.new) result (with_entry text.now (known_seen self.old) entry) }
    {
        match entry {
            Entry::Org(address) => self.go_to(address),
            Entry::Words(label, statement) => {
                self.add_optional_label(text, label)?;
                self.add_optional_statement(statement)
            }
        }
    }

    /// Takes a line: cause 60, then its other causes by place.
    #[tactic(auto, unfolding(crate::specs::FirstPass::with_line))]
    fn add_line(&mut self, alloc: Global, text: &'a [u8], line: &Line) -> Result<(), Refusal>
        ensures { Gives (λ done. known_seen self.new) result (with_line text.now (known_seen self.old) line.now) }
    {
        let entry = entry_of(alloc, &Cursor::new(text, line, Cause::BadSyntax))?;
        self.add_entry(text, entry)
    }
}

/// The first pass over these lines of a source.
pub(crate) fn first_pass<'a>(
    alloc: Global,
    text: &'a [u8],
    lines: &[Line],
) -> Result<Known<'a>, Refusal>
    ensures { Gives (λ known. known_seen known) result (first_pass text.now at_first lines.now) }
{
    let mut known = Known::new(alloc);
    for line in lines {
        known.add_line(alloc, text, line)?;
    }
    Ok(known)
}
