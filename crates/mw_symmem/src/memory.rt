// Symbolic memory.
ghost use Rattle.std.specs.Prelude.{◌≡◌, ℕ, ◌<◌, ◌^◌, List, [], ◌∷◌, ◌++◌, length, slice_index, IfOk, OnOk, OnErr};
ghost use Rattle.mw_term.specs.Assigned.{given_by};
ghost use Rattle.mw_term.specs.MemoryRead.{held};
ghost use Rattle.mw_term.specs.Table.{Extends, IsTable};
ghost use Rattle.mw_term.specs.Values.{Keeps};
ghost use Rattle.mw_term.specs.declared.word.Word.{Word};
ghost use Rattle.mw_term.specs.WordList.{ended, list_of, memory_read_words};
ghost use Rattle.mw_symmem.specs.Listed.{list_in, ListsOver};
ghost use Rattle.mw_symmem.specs.Memory.{base_word, FitImage, IsImage};
ghost use Rattle.mw_symmem.specs.Memory.{memory_of, writes_of, with_read, with_write, AddsRead, IsMemory, IsOfWidth};
ghost use Rattle.mw_symmem.specs.Memory.{IsRead};
ghost use Rattle.mw_symmem.specs.Steps.{IsMade};
ghost use Rattle.mw_symmem.specs.Words.{AreOf};

use crate::held::Held;
use crate::image::image;
use crate::read::{base_value, same, side_value};
use crate::words::Words;
use mw_base::NoMemory;
use mw_term::{Assignment, Side, Term, WordKind, Written};
use std::alloc::Global;
use std::marker::Model;

/// One base image that is read where it has to be, and the writes of two sides over it.
#[derive(Drop)]
pub struct SymMemory {
    address: u8,
    word: u8,
    reads: Vec<Held>,
    board: Vec<Held>,
    machine: Vec<Held>,
}

impl Model for SymMemory {
    ghost use Rattle.mw_symmem.specs.Memory.{Memory, memory_of};

    ghost Value = { Memory };

    ghost view = { λ m. memory_of m.address m.word m.reads.items m.board.items m.machine.items };
}

/// What a read made: the variable of a base read, and the value that is read.
#[derive(Clone, Copy)]
struct Made {
    base: Term,
    value: Term,
}

impl SymMemory {
    /// A memory that wasn't read or written, with addresses of 1 to 16 bits and words of 1 to 32.
    pub fn new(alloc: Global, address: u8, word: u8) -> SymMemory
        ensures { result ≡ memory_of address word [] [] [] }
    {
        SymMemory {
            address,
            word,
            reads: Vec::new(alloc),
            board: Vec::new(alloc),
            machine: Vec::new(alloc),
        }
    }

    /// The same memory once more. What is read or written in one of the two isn't in the other.
    ///
    /// # Errors
    ///
    /// Memory ran out.
    pub fn copy(&self, alloc: Global) -> Result<SymMemory, NoMemory>
        ensures { IfOk result (λ copy. copy ≡ self.now) }
    {
        Ok(SymMemory {
            address: self.address,
            word: self.word,
            reads: Vec::from_slice(alloc, &self.reads)?,
            board: Vec::from_slice(alloc, &self.board)?,
            machine: Vec::from_slice(alloc, &self.machine)?,
        })
    }

    /// The writes of a side, oldest first.
    fn writes(&self, side: Side) -> &[Held]
        ensures { result.now ≡ writes_of self.now side }
    {
        match side {
            Side::Board => &self.board,
            Side::Machine => &self.machine,
        }
    }

    /// The words of a read.
    #[tactic(auto, unfolding(mw_term::specs::WordList::memory_read_words))]
    fn make(
        &self,
        alloc: Global,
        side: Side,
        address: Term,
        terms: &mut Written,
        words: &mut Words,
    ) -> Result<Made, NoMemory>
        requires few { length self.now.reads < 2 ^ 32 }
        requires of { AreOf terms.old words.old }
        requires memory { IsMemory terms.old words.old self.now }
        requires address { IsOfWidth terms.old self.now.address address }
        ensures made { IfOk result (λ made.
            IsMade terms.old terms.new words.old words.new self.now side address made.base made.value) }
        ensures listed { IfOk result (λ made. ended made.value
            (list_of terms.new.ops words.new (self.now.reads ++ held address made.base ∷ []))
            ≡ memory_read_words self.now.word address (writes_of self.now side)
            (list_in terms.old words.old self.now)) }
    {
        let number = self.reads.len() as u32;
        let same = same(alloc, &self.reads, address, terms, words)?;
        let base = words.fresh(alloc, terms, WordKind::Base(number), self.word)?;
        let middle = base_value(alloc, &self.reads, &same, base, terms, words)?;
        let value = side_value(alloc, self.writes(side), address, middle, terms, words)?;
        Ok(Made { base, value })
    }

    /// What a side's memory holds at an address, over one base image. The words of the read are added to the list. The
    /// numbers of base reads stay below 2^32, the memory is one over this table and these words, and the address is a
    /// term of the memory's address width.
    ///
    /// # Errors
    ///
    /// Memory ran out: the terms, the memory and the words may only be dropped.
    pub fn read(
        &mut self,
        alloc: Global,
        side: Side,
        address: Term,
        terms: &mut Written,
        words: &mut Words,
    ) -> Result<Term, NoMemory>
        requires few { length self.old.reads < 2 ^ 32 }
        requires of { AreOf terms.old words.old }
        requires memory { IsMemory terms.old words.old self.old }
        requires address { IsOfWidth terms.old self.old.address address }
        ensures means { IfOk result (IsRead terms.new self.new side address) }
        ensures adds { OnOk result (AddsRead words.old words.new self.old) }
        ensures listed { IfOk result (ListsOver (memory_read_words self.old.word address (writes_of self.old side))
            terms.old terms.new words.old words.new self.old self.new) }
        ensures width { IfOk result (IsOfWidth terms.new self.old.word) }
        ensures reads { OnOk result ((base : ℕ) × (self.new ≡ with_read self.old (held address base))) }
        ensures memory { OnOk result (IsMemory terms.new words.new self.new) }
        ensures of { OnOk result (AreOf terms.new words.new) }
        ensures extends { OnOk result (Extends terms.old terms.new) }
        ensures keeps { OnOk result (Keeps terms.old terms.new) }
        ensures table { OnOk result (IsTable terms.new) }
    {
        let made = self.make(alloc, side, address, terms, words)?;
        self.reads.push(Held::at(address, made.base))?;
        Ok(made.value)
    }

    /// Writes a word at an address, on a side.
    ///
    /// # Errors
    ///
    /// Memory ran out: the memory is as it was.
    pub fn write(
        &mut self,
        _alloc: Global,
        side: Side,
        address: Term,
        value: Term,
    ) -> Result<(), NoMemory>
        ensures ok { OnOk result (self.new ≡ with_write self.old side (held address value)) }
        ensures err { OnErr result (self.new ≡ self.old) }
    {
        let write = Held::at(address, value);
        match side {
            Side::Board => self.board.push(write)?,
            Side::Machine => self.machine.push(write)?,
        }
        Ok(())
    }

    /// An image that the base reads fit under an assignment: at each address the word of the oldest read there, and 0
    /// elsewhere. The memory is one over this table.
    ///
    /// # Errors
    ///
    /// Memory ran out.
    pub fn image_of(
        &self,
        alloc: Global,
        terms: &Written,
        given: &Assignment,
    ) -> Result<Vec<u32>, NoMemory>
        requires table { IsTable terms.now }
        requires memory { (words : List Word) × IsMemory terms.now words self.now }
        ensures words { IfOk result (λ v. (address : ℕ) → slice_index v.items address
            ≡ base_word terms.now (given_by given.now) self.now.reads address) }
        ensures fit { IfOk result (λ v. FitImage terms.now (given_by given.now) self.now.reads v.items) }
        ensures image { IfOk result (λ v. IsImage self.now v.items) }
    {
        let image = image(alloc, self.address, &self.reads, terms, given)?;
        Ok(image)
    }
}
