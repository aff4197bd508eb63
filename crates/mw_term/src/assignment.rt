// Assignments.
ghost use Rattle.std.specs.Prelude.{◌≡◌, OnOk, OnErr};
ghost use Rattle.std.specs.FinMap as map;
ghost use Rattle.mw_term.specs.Assigned.{given_by};

use mw_base::NoMemory;
use std::alloc::Global;
use std::collections::BTreeMap;
use std::marker::Model;

/// Which value each word has, seen as a finite map from the words' numbers. A word that isn't there has 0.
#[derive(Drop)]
pub struct Assignment {
    numbers: BTreeMap<u64, u32>,
}

impl Model for Assignment {
    ghost use Rattle.std.specs.Coded.{coded_ℕ};
    ghost use Rattle.std.specs.FinMap as map;
    ghost use Rattle.mw_term.specs.Assigned.{Numbers};

    ghost Value = { Numbers };

    ghost coded = { map.code coded_ℕ coded_ℕ };

    ghost view = { λ a. map.from_entries a.numbers.entries };
}

impl Assignment {
    /// The assignment without words: each has 0.
    pub fn new(alloc: Global) -> Assignment
        ensures { result ≡ map.empty }
    {
        Assignment {
            numbers: BTreeMap::new(alloc),
        }
    }

    /// Gives a word a value, in place of one that it has.
    ///
    /// # Errors
    ///
    /// Memory ran out: the assignment is as it was.
    pub fn set(&mut self, _alloc: Global, word: u64, value: u32) -> Result<(), NoMemory>
        ensures ok { OnOk result (self.new ≡ map.insert self.old word value) }
        ensures err { OnErr result (self.new ≡ self.old) }
    {
        self.numbers.insert(word, value)?;
        Ok(())
    }

    /// The value of a word, 0 where it isn't there.
    #[tactic(auto, unfolding(crate::specs::Assigned::given_by))]
    pub fn number(&self, word: u64) -> u32
        ensures { result ≡ given_by self.now word }
    {
        self.numbers.get(&word).copied().unwrap_or(0)
    }
}
