// Files in memory, by name.
ghost use Rattle.std.specs.Prelude.{◌≡◌, ◌≢◌, List, ℕ, Some, None, OnOk, OnErr, option_map};
ghost use Rattle.mw_outside.specs.Files.{contents};

use mw_base::NoMemory;
use std::alloc::Global;
use std::collections::BTreeMap;

/// Files in memory, by name.
#[derive(Drop)]
pub(crate) struct Files {
    by_name: BTreeMap<String, Vec<u8>>,
}

impl Files {
    /// No files.
    pub(crate) fn new(alloc: Global) -> Files
        ensures { (name : List ℕ) → contents result name ≡ None }
    {
        Files {
            by_name: BTreeMap::new(alloc),
        }
    }

    /// The name's contents become the bytes. After want of memory all is as before.
    pub(crate) fn set(&mut self, alloc: Global, name: &str, bytes: &[u8]) -> Result<(), NoMemory>
        ensures ok { OnOk result (contents self.new name.now ≡ Some bytes.now) }
        ensures others { (other : List ℕ) → other ≢ name.now → contents self.new other ≡ contents self.old other }
        ensures err { OnErr result ((other : List ℕ) → contents self.new other ≡ contents self.old other) }
    {
        let key = String::from_str(alloc, name)?;
        let copy = Vec::from_slice(alloc, bytes)?;
        self.by_name.insert(key, copy)?;
        Ok(())
    }

    /// The name's contents, if they were set.
    pub(crate) fn get(&self, name: &str) -> Option<&[u8]>
        ensures { option_map (λ bytes. bytes.now) result ≡ contents self.now name.now }
    {
        match self.by_name.get(name) {
            Some(bytes) => Some(bytes.as_slice()),
            None => None,
        }
    }
}
