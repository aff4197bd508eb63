// The files of a command, one after another.
ghost use Rattle.std.specs.Prelude.{◌≡◌, ◌+◌, ◌<◌, ◌≤◌, List, ℕ, [], Result, Some, length, map, string_bytes, IfOk};
ghost use Rattle.std.specs.Prelude.{OnOk, OnErr};
ghost use Rattle.std.specs.Borrow.{Bor};
ghost use Rattle.mw_outside.specs.Views.{ShelfView, IsLater, shelf_shown};
ghost use Rattle.mw_plan.specs.Files.{IsLeft, next_name};
ghost use Rattle.mw_plan.specs.Steps.{Follows, Reads, Converts, WasReturned};
ghost use Rattle.mw_plan.specs.Plan.{Plan, first_by};

use crate::fault::{FileFault, Stop};
use mw_base::Refused;
use mw_outside::{Shelf, read_whole};
use std::alloc::Global;
use std::marker::{Model, PhantomData};

/// The files of a command: their names in order, and the contents of the first so many, which were read and accepted.
/// `W` is what commands make of their files, and `F` is what readers refuse a file for.
#[derive(Drop)]
pub struct Files<'a, W, F> {
    names: &'a [String],
    contents: Vec<Vec<u8>>,
    plan: PhantomData<(W, F)>,
}

impl<'a, W, F> Model for Files<'a, W, F> {
    ghost use Rattle.std.specs.Prelude.{map, string_bytes};
    ghost use Rattle.mw_plan.specs.Files.{FilesRead};

    ghost Value = { FilesRead };

    ghost view = { λ files. record {
      names = map string_bytes files.names.now;
      contents = map (λ v. v.items) files.contents.items;
    } };
}

impl<'a, W, F> Files<'a, W, F> {
    /// Files of which none was read yet.
    pub fn new(alloc: Global, names: &'a [String]) -> Files<'a, W, F>
        ensures names { result.names ≡ map string_bytes names.now }
        ensures none { result.contents ≡ [] }
    {
        Files {
            names,
            contents: Vec::new(alloc),
            plan: PhantomData,
        }
    }

    /// The name of the file that comes next, which is the one that stopped the command.
    pub fn next_name(&self) -> &'a str
        requires { length self.now.contents < length self.now.names }
        ensures { next_name self.now ≡ Some result.now }
    {
        self.names[self.contents.len()].as_str()
    }

    /// Reads the next file by a reader, and keeps its contents where they are accepted. The reader is given at most
    /// 1,048,576 bytes. A plan whose next file is read so goes on with what the reader makes of it, unless
    ///
    /// - `ReadFault`: the shelf failed, so the file's count of faults rose;
    /// - `Refused`: the file is too long, or the reader refuses it;
    /// - `NoMemory`: memory ran out.
    ///
    /// After each of these all is as before, so the file that stopped the plan still comes next. What is answered is
    /// what the reader returned, so what holds of that holds of it.
    pub fn next<S: Shelf, T: Drop, G: Into<F>, R: Fn(&[u8]) -> Result<T, Refused<G>>>(
        &mut self,
        alloc: Global,
        shelf: &mut S,
        read: R,
    ) -> Result<T, Stop<F>>
        requires more { length self.old.contents < length self.old.names }
        requires callable { (bytes : Bor (List ℕ)) → length bytes.now ≤ 1048576 → R.pre read bytes }
        ensures follows { (kind : G → F) (reader : List ℕ → Result T G) → Converts G.converts kind
            → Reads (R.post read) reader
            → (plan : Plan F W) (rest : T → Plan F W) (first : ShelfView)
            → IsLater first (shelf_shown S.Shelf shelf.old) → IsLeft plan first self.old (first_by kind reader rest)
            → Follows rest plan first (shelf_shown S.Shelf shelf.new) self.new result }
        ensures returned { IfOk result (WasReturned (R.post read)) }
        ensures names { self.new.names ≡ self.old.names }
        ensures one_more { OnOk result (length self.new.contents ≡ length self.old.contents + 1) }
        ensures err { OnErr result (self.new ≡ self.old) }
        ensures later { IsLater (shelf_shown S.Shelf shelf.old) (shelf_shown S.Shelf shelf.new) }
    {
        let bytes = read_whole(alloc, shelf, self.next_name())?;
        match read(&bytes) {
            Ok(x) => {
                self.contents.push(bytes)?;
                Ok(x)
            }
            Err(Refused::At(fault)) => Err(Stop::Refused(FileFault::At(fault.into()))),
            Err(Refused::NoMemory) => Err(Stop::NoMemory),
        }
    }
}
