// Lists that contracts see as their items.
ghost use Rattle.std.specs.Prelude.{◌≡◌, List, IfOk};

use crate::memory::NoMemory;
use std::alloc::Global;
use std::marker::Model;

/// A list, seen as its items.
#[derive(Debug, Drop)]
pub struct Items<T> {
    vec: Vec<T>,
}

impl<T> Model for Items<T> {
    ghost Value = { List T };

    ghost view = { λ list. list.vec.items };
}

impl<T> Items<T> {
    /// The list of a vector's items. It takes no memory.
    pub fn from_vec(vec: Vec<T>) -> Items<T>
        ensures { result ≡ vec.items }
    {
        Items { vec }
    }

    /// The list of these items, copied.
    ///
    /// # Errors
    ///
    /// Memory ran out.
    pub fn from_slice(alloc: Global, items: &[T]) -> Result<Items<T>, NoMemory>
    where
        T: Copy,
        ensures { IfOk result (λ list. list ≡ items.now) }
    {
        Ok(Items {
            vec: Vec::from_slice(alloc, items)?,
        })
    }

    /// The vector of its items. It takes no memory.
    pub fn into_vec(self) -> Vec<T>
        ensures { result.items ≡ self }
    {
        self.vec
    }

    /// Its items.
    pub fn as_slice(&self) -> &[T]
        ensures { result.now ≡ self.now }
    {
        &self.vec
    }
}
