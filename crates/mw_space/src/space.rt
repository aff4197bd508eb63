// What a run works on.
ghost use Rattle.std.specs.Prelude.{◌≡◌, [], IfOk};
ghost use Rattle.mw_space.specs.Spaces.{IsSpaceOf, list_of_space};
ghost use Rattle.mw_term.specs.WordList.{list_of};

use mw_base::NoMemory;
use mw_board::Board;
use mw_symmem::{SymMemory, Words, are_of_at_first, is_memory_at_first};
use mw_term::Written;
use std::alloc::Global;

/// What a run on terms works on. The runs of both sides of a case share one.
#[derive(Drop)]
pub struct Space {
    /// The terms that it writes.
    pub terms: Written,
    /// The words of the case: which of these terms are words, and the kinds of those that are variables.
    pub words: Words,
    /// The memory of both sides: the base reads of the image with which both begin, and what each side has written.
    pub memory: SymMemory,
}

impl Space {
    /// No term and no word, over the map of a board, and a memory of the board's widths that was neither read nor
    /// written.
    ///
    /// # Errors
    ///
    /// Memory ran out.
    pub fn new(alloc: Global, board: &Board) -> Result<Space, NoMemory>
        ensures space { IfOk result (λ s. IsSpaceOf board.now s.terms s.words s.memory) }
        ensures words { IfOk result (λ s. s.words ≡ []) }
        ensures reads { IfOk result (λ s. s.memory.reads ≡ []) }
        ensures unwritten { IfOk result (λ s. (s.memory.board ≡ []) × (s.memory.machine ≡ [])) }
        ensures listed { IfOk result (λ s. list_of_space s ≡ list_of [] [] []) }
    {
        // Laws for the proof: no words are those of a table without terms, and a new memory is one over them.
        are_of_at_first();
        is_memory_at_first();
        let parts = board.parts();
        Ok(Space {
            terms: Written::new(alloc, parts.map_entries.as_slice())?,
            words: Words::new(alloc),
            memory: SymMemory::new(alloc, parts.address, parts.width),
        })
    }

    /// The same once more.
    ///
    /// # Errors
    ///
    /// Memory ran out.
    pub fn copy(&self, alloc: Global) -> Result<Space, NoMemory>
        ensures { IfOk result (λ copy. copy ≡ self.now) }
    {
        Ok(Space {
            terms: self.terms.copy(alloc)?,
            words: self.words.copy(alloc)?,
            memory: self.memory.copy(alloc)?,
        })
    }
}
