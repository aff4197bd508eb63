// The operations that one call has met, and their results.
ghost use Rattle.std.specs.Prelude.{◌≡◌, ◌<◌, None, length, IfOk, IfSome};
ghost use Rattle.mw_dd.specs.Links.{IsAbsent};
ghost use Rattle.mw_dd.specs.Memos.{IsCleared, AreBeside, HasResult, IsBegun, IsEnded};

use crate::dd::Dd;
use crate::nodes::Triple;
use crate::table::Table;
use mw_base::NoMemory;
use std::alloc::Global;

/// The triples that were met, each once, and beside each its result, which is anything until it is made.
#[derive(Drop)]
pub(crate) struct Memo {
    /// The operations, in the order in which they were met.
    pub triples: Table<Triple>,
    /// The result of each, at its place.
    pub results: Vec<Dd>,
}

impl Memo {
    /// Nothing met.
    pub(crate) fn new(alloc: Global) -> Result<Memo, NoMemory> {
        Ok(Memo {
            triples: Table::new(alloc)?,
            results: Vec::new(alloc),
        })
    }

    /// Forgets all that was met.
    pub(crate) fn clear(&mut self)
        ensures { IsCleared self.new }
    {
        self.triples.clear();
        self.results.clear();
    }

    /// What stands as the result of one that was met.
    pub(crate) fn get(&self, t: &Triple) -> Option<Dd>
        requires { AreBeside self.now }
        ensures met { IfSome result (HasResult self.now t.now) }
        ensures absent { result ≡ None → IsAbsent self.now.triples t.now }
    {
        match self.triples.find(t) {
            Some(place) => Some(self.results[place as usize]),
            None => None,
        }
    }

    /// One more, whose result isn't made yet, and its place.
    pub(crate) fn begin(&mut self, alloc: Global, t: Triple) -> Result<u32, NoMemory>
        ensures { IfOk result (IsBegun self.old self.new t) }
    {
        let place = self.triples.add(alloc, t)?;
        self.results.push(Dd::at(0))?;
        Ok(place)
    }

    /// The result of one.
    pub(crate) fn end(&mut self, place: u32, made: Dd)
        requires { place < length self.old.results.items }
        ensures { IsEnded self.old self.new place made }
    {
        self.results[place as usize] = made;
    }
}
