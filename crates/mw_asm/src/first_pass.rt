// The first pass, over the lines of a text.
ghost use Rattle.std.specs.Prelude.{◌≡◌, ◌<◌, OnOk};
ghost use Rattle.mw_base.specs.Reading.{Gives};
ghost use Rattle.mw_asm.specs.FirstPass.{at_first, can_define, with_used, with_meaning, with_def, with_next};
ghost use Rattle.mw_asm.specs.FirstPass.{with_label, with_optional_label, with_word, with_optional_word};
ghost use Rattle.mw_asm.specs.FirstPass.{with_statement, with_line, first_pass};
ghost use Rattle.mw_asm.specs.Views.{known_seen};

use crate::assembled::Label;
use crate::bits::SetBits;
use crate::item_bits::bits_of;
use crate::items::Item;
use crate::names::{Meaning, Scope};
use crate::statement::{Statement, keyword_of, statement_of};
use mw_base::{
    Cause, Cursor, Items, Line, Name, Names, NoMemory, Numeral, Refusal, Refused, TextFault, Token,
    fault_on, low_address, spelled,
};
use mw_board::Board;
use std::alloc::Global;

/// How many words a control store may have.
const MOST_WORDS: u16 = 4096;

/// A word to be made.
#[derive(Drop)]
pub(crate) struct Word {
    /// Its address.
    pub address: u16,
    /// What it sets.
    pub items: Items<Item>,
}

/// What is known after some lines.
#[derive(Drop)]
pub(crate) struct Known<'a> {
    /// What names stand for.
    pub names: Names<'a, Meaning>,
    /// The next word's address.
    pub next: u16,
    /// For each address up to the last word's, whether a word stands there.
    pub used: Vec<bool>,
    /// The words to be made, in file order.
    pub words: Vec<Word>,
    /// The labels, in file order.
    pub labels: Vec<Label>,
}

/// Notes that a word stands at this address.
#[tactic(auto, unfolding(crate::specs::FirstPass::with_used))]
fn mark_used(used: &mut Vec<bool>, address: usize) -> Result<(), NoMemory>
    requires { address < MOST_WORDS }
    ensures { OnOk result (used.new.items ≡ with_used used.old.items address) }
{
    if address < used.len() {
        used[address] = true;
    } else {
        used.resize(address, false)?;
        used.push(true)?;
    }
    Ok(())
}

impl<'a> Known<'a> {
    /// Before the first line.
    fn new(alloc: Global) -> Known<'a>
        ensures { known_seen result ≡ at_first }
    {
        Known {
            names: Names::new(alloc),
            next: 0,
            used: Vec::new(alloc),
            words: Vec::new(alloc),
            labels: Vec::new(alloc),
        }
    }

    /// Whether a line can define the name: cause 31 where it is defined or a keyword, else 33 where it is too long.
    fn check_new(&self, text: &[u8], name: Token) -> Result<(), TextFault>
        ensures { result ≡ can_define text.now (known_seen self.now) name }
    {
        let is_keyword = keyword_of(spelled(text, name)).is_some();
        self.names.check_new(text, name, is_keyword)
    }

    /// Gives a name that a line defines its meaning: cause 31 or 33.
    #[tactic(auto, unfolding(crate::specs::FirstPass::with_meaning))]
    fn define(&mut self, text: &'a [u8], name: Token, meaning: Meaning) -> Result<(), Refusal>
        ensures { Gives (λ done. known_seen self.new) result
            (with_meaning text.now name meaning (known_seen self.old)) }
    {
        self.check_new(text, name).map_err(Refused::At)?;
        self.names.insert(spelled(text, name), meaning)?;
        Ok(())
    }

    /// def NAME = ITEMS: cause 31 or 33 of the name, then 30, 33 or 32 of the items.
    #[tactic(auto, unfolding(crate::specs::FirstPass::with_def))]
    fn define_bits(
        &mut self,
        board: &Board,
        text: &'a [u8],
        name: Token,
        items: &[Item],
    ) -> Result<(), Refusal>
        ensures { Gives (λ done. known_seen self.new) result
            (with_def board.now.fields text.now name items.now (known_seen self.old)) }
    {
        self.check_new(text, name).map_err(Refused::At)?;
        let bits = bits_of(board, text, &self.names, Scope::Def, items).map_err(Refused::At)?;
        self.names.insert(spelled(text, name), Meaning::Bits(bits))?;
        Ok(())
    }

    /// org NUMBER: cause 33.
    #[tactic(auto, unfolding(crate::specs::FirstPass::with_next))]
    fn go_to(&mut self, number: Numeral) -> Result<(), Refusal>
        ensures { Gives (λ done. known_seen self.new) result (with_next number (known_seen self.old)) }
    {
        self.next = low_address(number.token, number.value).map_err(Refused::At)?;
        Ok(())
    }

    /// A label of the next word's address: cause 31 or 33.
    #[tactic(auto, unfolding(crate::specs::FirstPass::with_label))]
    fn add_label(&mut self, alloc: Global, text: &'a [u8], name: Token) -> Result<(), Refusal>
        ensures { Gives (λ done. known_seen self.new) result (with_label text.now name (known_seen self.old)) }
    {
        self.define(text, name, Meaning::Label(self.next))?;
        let name = Name::new(alloc, spelled(text, name))?;
        self.labels.push(Label {
            name,
            address: self.next,
        })?;
        Ok(())
    }

    /// A word of these items, the first of which is this one: cause 34 or 35.
    #[tactic(auto, unfolding(crate::specs::FirstPass::with_word))]
    fn add_word(&mut self, first: Token, items: Items<Item>) -> Result<(), Refusal>
        ensures { Gives (λ done. known_seen self.new) result (with_word first items (known_seen self.old)) }
    {
        if self.next >= MOST_WORDS {
            return Err(Refused::At(fault_on(first, Cause::StoreFull)));
        }
        let address = usize::from(self.next);
        if self.used.get(address).copied().unwrap_or(false) {
            return Err(Refused::At(fault_on(first, Cause::Overlap)));
        }
        mark_used(&mut self.used, address)?;
        self.words.push(Word {
            address: self.next,
            items,
        })?;
        self.next += 1;
        Ok(())
    }

    fn add_optional_label(
        &mut self,
        alloc: Global,
        text: &'a [u8],
        name: Option<Token>,
    ) -> Result<(), Refusal>
        ensures { Gives (λ done. known_seen self.new) result (with_optional_label text.now name (known_seen self.old)) }
    {
        match name {
            Some(name) => self.add_label(alloc, text, name),
            None => Ok(()),
        }
    }

    fn add_optional_word(&mut self, items: Items<Item>) -> Result<(), Refusal>
        ensures { Gives (λ done. known_seen self.new) result (with_optional_word items (known_seen self.old)) }
    {
        match items.as_slice() {
            [] => Ok(()),
            [first, ..] => {
                let first = first.name;
                self.add_word(first, items)
            }
        }
    }

    /// What a line says: its causes but 36.
    fn add_statement(
        &mut self,
        alloc: Global,
        board: &Board,
        text: &'a [u8],
        statement: Statement,
    ) -> Result<(), Refusal>
        ensures { Gives (λ done. known_seen self.new) result
            (with_statement board.now.fields text.now (known_seen self.old) statement) }
    {
        match statement {
            Statement::Equ(name, value) => self.define(text, name, Meaning::Number(value)),
            Statement::Def(name, items) => self.define_bits(board, text, name, items.as_slice()),
            Statement::Org(address) => self.go_to(address),
            Statement::Word(label, items) => {
                self.add_optional_label(alloc, text, label)?;
                self.add_optional_word(items)
            }
        }
    }

    /// A line: cause 36, then its other causes by place.
    #[tactic(auto, unfolding(crate::specs::FirstPass::with_line))]
    fn add_line(
        &mut self,
        alloc: Global,
        board: &Board,
        text: &'a [u8],
        line: &Line,
    ) -> Result<(), Refusal>
        ensures { Gives (λ done. known_seen self.new) result
            (with_line board.now.fields text.now (known_seen self.old) line.now) }
    {
        let statement = statement_of(alloc, &Cursor::new(text, line, Cause::BadLine))?;
        self.add_statement(alloc, board, text, statement)
    }
}

/// The first pass over these lines of a text.
pub(crate) fn first_pass<'a>(
    alloc: Global,
    board: &Board,
    text: &'a [u8],
    lines: &[Line],
) -> Result<Known<'a>, Refusal>
    ensures { Gives (λ known. known_seen known) result (first_pass board.now.fields text.now at_first lines.now) }
{
    let mut known = Known::new(alloc);
    for line in lines {
        known.add_line(alloc, board, text, line)?;
    }
    Ok(known)
}
