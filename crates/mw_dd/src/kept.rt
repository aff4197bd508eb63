// Values of operations that are kept from one call to the next.
ghost use Rattle.std.specs.Prelude.{◌≡◌, ◌<◌, ◌⊎◌, ℕ, length, IfOk, IfSome};
ghost use Rattle.mw_dd.specs.declared.nodes.Triple as declared;
ghost use Rattle.mw_dd.specs.Kept.{IsKept, AreNone, Adds, Stay};

use crate::dd::Dd;
use crate::hash::scatter;
use crate::nodes::Triple;
use crate::table::{Key, bucket};
use mw_base::NoMemory;
use std::alloc::Global;
use std::marker::Model;

/// An operation, and a value that is kept for it.
#[derive(Clone, Copy)]
pub(crate) struct Slot {
    pub triple: Triple,
    pub value: u32,
}

impl Slot {
    /// The slot that nothing was put into. It says that never, chosen from by never, is never (as a count: that it has
    /// no joint cofactor), which is so.
    fn none() -> Slot
        ensures f { result.triple.f ≡ 0 }
        ensures g { result.triple.g ≡ 0 }
        ensures h { result.triple.h ≡ 0 }
        ensures value { result.value ≡ 0 }
    {
        let never = Dd::at(0);
        Slot {
            triple: Triple {
                f: never,
                g: never,
                h: never,
            },
            value: 0,
        }
    }
}

/// How many slots there are at first: a power of two, as they always are.
const FIRST_SLOTS: usize = 256;

/// Values of operations, seen as the list of their slots (a computed table, or operation cache, direct-mapped). An
/// operation has one slot, by its hash, and what is put there takes the place of what was there: so one look finds a
/// value or none, and values may be lost.
#[derive(Drop)]
pub(crate) struct Kept {
    slots: Vec<Slot>,
    /// How many values were put since these slots were made, those taken over with them.
    puts: usize,
}

impl Model for Kept {
    ghost use Rattle.std.specs.Prelude.{List, ◌<◌, length};
    ghost use Rattle.mw_dd.specs.declared.kept.Slot as slot;

    ghost Value = { List slot.Slot };

    ghost view = { λ k. k.slots.items };

    ghost invariant = { λ k. 0 < length k.slots.items };
}

impl Kept {
    /// Nothing kept, in so many slots.
    fn with_slots(alloc: Global, count: usize) -> Result<Kept, NoMemory>
        requires { 0 < count }
        ensures { IfOk result AreNone }
    {
        Ok(Kept {
            slots: vec![in alloc; Slot::none(); count]?,
            puts: 0,
        })
    }

    /// Nothing kept.
    pub(crate) fn new(alloc: Global) -> Result<Kept, NoMemory>
        ensures { IfOk result AreNone }
    {
        Kept::with_slots(alloc, FIRST_SLOTS)
    }

    /// The slot of an operation.
    fn place(&self, t: &Triple) -> usize
        ensures { result < length self.now }
    {
        let hash = scatter(
            u64::from(t.f.position()),
            u64::from(t.g.position()),
            u64::from(t.h.position()),
        );
        bucket(hash, self.slots.len())
    }

    /// What is kept of an operation.
    pub(crate) fn get(&self, t: &Triple) -> Option<u32>
        ensures { IfSome result (IsKept self.now t.now) }
    {
        let slot = self.slots[self.place(t)];
        if slot.triple.is(t) {
            Some(slot.value)
        } else {
            None
        }
    }

    /// Puts a value into the slot of an operation.
    pub(crate) fn put(&mut self, slot: Slot)
        ensures { Adds self.old self.new slot.triple slot.value }
    {
        let place = self.place(&slot.triple);
        self.slots[place] = slot;
        self.puts = self.puts.saturating_add(1);
    }

    /// What is kept, in four times as many slots.
    fn grown(&self, alloc: Global) -> Result<Kept, NoMemory>
        ensures { IfOk result (Stay self.now) }
    {
        let mut grown = Kept::with_slots(alloc, self.slots.len().saturating_mul(4))?;
        for place in 0..self.slots.len() {
            grown.put(self.slots[place]);
        }
        Ok(grown)
    }

    /// Makes four times as many slots where there are fewer than wanted, or where far more values were put than there
    /// are slots: so that an operation of few nodes and many steps doesn't lose most of them. It grows once a call.
    fn make_room(&mut self, alloc: Global, wanted: usize) -> Result<(), NoMemory>
        ensures { Stay self.old self.new }
    {
        if self.slots.len() >= wanted && self.slots.len() >= self.puts / 4 {
            return Ok(());
        }
        *self = self.grown(alloc)?;
        Ok(())
    }

    /// Keeps a value of an operation, in slots that grow towards so many.
    ///
    /// # Errors
    ///
    /// Memory ran out: nothing else is kept than before.
    pub(crate) fn keep(
        &mut self,
        alloc: Global,
        t: Triple,
        value: u32,
        wanted: usize,
    ) -> Result<(), NoMemory>
        ensures { Adds self.old self.new t value }
    {
        self.make_room(alloc, wanted)?;
        self.put(Slot { triple: t, value });
        Ok(())
    }
}
