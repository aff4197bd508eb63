// Keys in the order in which they were added, each found by what it is.
ghost use Rattle.std.specs.Prelude.{◌≡◌, ◌⊎◌, ◌+◌, ◌-◌, ◌<◌, ◌≤◌, ◌^◌, ℕ, List, [], ◌∷◌, ◌++◌, ◌↔◌, length, slice_get};
ghost use Rattle.std.specs.Prelude.{Some, None, IfSome, IfOk, OnOk, OnErr, IsTrue};
ghost use Rattle.mw_dd.specs.Links.{bucket_of, IsAbsent};

use mw_base::NoMemory;
use std::alloc::Global;
use std::marker::Model;

/// What a table can find.
pub(crate) trait Key: Copy {
    /// The number by which it is found.
    ghost hash_of: { Self → ℕ };

    /// That number, of 32 bits.
    fn hash(&self) -> u32
        ensures { result ≡ hash_of self.now };

    /// Whether both are one key.
    fn is(&self, other: &Self) -> bool
        ensures { IsTrue result ↔ (self.now ≡ other.now) };
}

/// No place.
const NOWHERE: u32 = 0xffff_ffff;

/// The most keys that a table can have: less than `NOWHERE`, with room for the numbers that users put before places.
const MOST: usize = 0xffff_fff0;

/// How many buckets a new table has: a power of two, as they always are, so that a mask finds a hash's bucket, and
/// enough for the diagrams of a few words.
const FIRST_BUCKETS: usize = 2048;

/// A key, and the place of an earlier one of the same bucket.
#[derive(Clone, Copy)]
pub(crate) struct Entry<K> {
    pub key: K,
    pub next: u32,
}

/// Keys, seen as the list of them. Each bucket has the place of its last key, from which the earlier ones are linked.
#[derive(Drop)]
pub(crate) struct Table<K: Key> {
    entries: Vec<Entry<K>>,
    heads: Vec<u32>,
}

impl<K: Key> Model for Table<K> {
    ghost use Rattle.std.specs.Prelude.{List};
    ghost use Rattle.mw_dd.specs.Links.{keys_of, AreLinked};

    ghost Value = { List K };

    ghost view = { λ t. keys_of t.entries.items };

    ghost invariant = { λ t. AreLinked K.hash_of t.entries.items t.heads.items };
}

/// The bucket of a hash, among so many.
pub(crate) fn bucket(hash: u32, count: usize) -> usize
    requires { 0 < count }
    ensures exact { result ≡ bucket_of hash count }
    ensures below { result < count }
{
    hash as usize & (count - 1)
}

/// A place where it is earlier than another, and else none. It always is where it is asked for, so that the
/// invariant needn't bound the heads.
fn earlier(place: u32, other: u32) -> u32
    ensures earlier { (result < other) ⊎ (result ≡ 2 ^ 32 - 1) }
    ensures same { place < other → result ≡ place }
{
    if place < other { place } else { NOWHERE }
}

impl<K: Key> Table<K> {
    /// No keys, and so many buckets.
    fn with_buckets(alloc: Global, count: usize) -> Result<Table<K>, NoMemory>
        requires { 0 < count }
        ensures { IfOk result (λ table. table ≡ []) }
    {
        Ok(Table {
            entries: Vec::new(alloc),
            heads: vec![in alloc; NOWHERE; count]?,
        })
    }

    /// No keys.
    pub(crate) fn new(alloc: Global) -> Result<Table<K>, NoMemory>
        ensures { IfOk result (λ table. table ≡ []) }
    {
        Table::with_buckets(alloc, FIRST_BUCKETS)
    }

    /// How many keys there are.
    pub(crate) fn len(&self) -> usize
        ensures exact { result ≡ length self.now }
        ensures few { result ≤ 2 ^ 32 - 16 }
    {
        self.entries.len()
    }

    /// The key at a place.
    pub(crate) fn get(&self, place: u32) -> K
        requires { place < length self.now }
        ensures { slice_get self.now place ≡ Some result }
    {
        self.entries[place as usize].key
    }

    /// The place of a key, where it is there.
    pub(crate) fn find(&self, key: &K) -> Option<u32>
        ensures found { IfSome result (λ place. slice_get self.now place ≡ Some key.now) }
        ensures absent { result ≡ None → IsAbsent self.now key.now }
        ensures few { IfSome result (λ place. place < 2 ^ 32 - 16) }
    {
        let mut place = self.heads[bucket(key.hash(), self.heads.len())];
        while (place as usize) < self.entries.len() {
            let entry = self.entries[place as usize];
            if entry.key.is(key) {
                return Some(place);
            }
            place = entry.next;
        }
        None
    }

    /// A key more, in a bucket that is there.
    fn link(&mut self, key: K) -> Result<u32, NoMemory>
        ensures place { IfOk result (λ place. place ≡ length self.old) }
        ensures few { IfOk result (λ place. place < 2 ^ 32 - 16) }
        ensures items { OnOk result (self.new ≡ self.old ++ key ∷ []) }
        ensures err { OnErr result (self.new ≡ self.old) }
    {
        if self.entries.len() >= MOST {
            return Err(NoMemory);
        }
        let place = self.entries.len() as u32;
        let bucket = bucket(key.hash(), self.heads.len());
        let head = self.heads[bucket];
        let next = earlier(head, place);
        self.entries.push(Entry { key, next })?;
        self.heads[bucket] = place;
        Ok(place)
    }

    /// The same keys in four times as many buckets.
    fn grown(&self, alloc: Global) -> Result<Table<K>, NoMemory>
        ensures { IfOk result (λ table. table ≡ self.now) }
    {
        let mut grown = Table::with_buckets(alloc, self.heads.len().saturating_mul(4))?;
        for place in 0..self.entries.len() {
            grown.link(self.entries[place].key)?;
        }
        Ok(grown)
    }

    /// Adds a key behind the others, and answers its place.
    ///
    /// # Errors
    ///
    /// Memory ran out: the keys are as they were.
    pub(crate) fn add(&mut self, alloc: Global, key: K) -> Result<u32, NoMemory>
        ensures place { IfOk result (λ place. place ≡ length self.old) }
        ensures few { IfOk result (λ place. place < 2 ^ 32 - 16) }
        ensures items { OnOk result (self.new ≡ self.old ++ key ∷ []) }
        ensures err { OnErr result (self.new ≡ self.old) }
    {
        // At most one key for two buckets, so that mostly no other key than the right one is looked at.
        if self.entries.len() >= self.heads.len() / 2 {
            *self = self.grown(alloc)?;
        }
        self.link(key)
    }

    /// Forgets all keys. The buckets stay, and each is emptied, in time for as many as there were keys.
    pub(crate) fn clear(&mut self)
        ensures { self.new ≡ [] }
    {
        let count = self.heads.len();
        if self.entries.len() < count / 8 {
            for place in 0..self.entries.len() {
                let bucket = bucket(self.entries[place].key.hash(), self.heads.len());
                self.heads[bucket] = NOWHERE;
            }
        } else {
            self.heads.fill(NOWHERE);
        }
        self.entries.clear();
    }
}
