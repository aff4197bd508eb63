// The trusted edge: a folder of files and standard output. No contract tells what they hold.
ghost use Rattle.std.specs.Prelude.{◌≡◌, ◌≤◌, ◌<◌, ◌↔◌, None, Some, IsNone, IsErr, IfOk, IfSome, OnOk, OnErr, length};
ghost use Rattle.std.specs.Prelude.{take, []};
ghost use Rattle.mw_outside.specs.Causes.{Rose, one_more};
ghost use Rattle.mw_outside.specs.Contents.{Gives, with_more};

use crate::shelf::{Failed, Shelf};
use crate::sink::Sink;
use std::fs::File;
use std::io::{self, Read, Seek, SeekFrom};
use std::marker::Model;
use std::rt::Files;

/// How many bytes were moved, or a fault, which is counted.
fn counted(faults: &mut u64, moved: Option<usize>) -> Result<usize, Failed>
    ensures moved { IfOk result (λ n. moved ≡ Some n) }
    ensures none { IsErr result ↔ IsNone moved }
    ensures ok { OnOk result (faults.new ≡ faults.old) }
    ensures err { OnErr result (faults.new ≡ one_more faults.old) }
    ensures later { faults.old ≤ faults.new }
{
    if moved.is_none() {
        *faults = faults.saturating_add(1);
    }
    moved.ok_or(Failed)
}

/// Files of the folder in which the program runs, seen as their count of faults, which is the count of
/// every name. Their contents aren't told.
#[derive(Drop)]
pub struct FolderShelf<'a, R> {
    rt: &'a R,
    faults: u64,
}

impl<'a, R> Model for FolderShelf<'a, R> {
    ghost use Rattle.std.specs.Prelude.{ℕ};

    ghost Value = { ℕ };

    ghost view = { λ shelf. shelf.faults };
}

impl<'a, R: Files> FolderShelf<'a, R> {
    /// The folder, with no fault so far.
    pub fn new(rt: &'a R) -> FolderShelf<'a, R>
        ensures { result ≡ 0 }
    {
        FolderShelf { rt, faults: 0 }
    }
}

fn bytes_at<R: Files>(rt: &R, name: &str, at: u64, into: &mut [u8]) -> io::Result<usize>
    ensures { IfOk result (λ n. n ≤ length into.old) }
{
    let mut file = File::open(rt, name)?;
    file.seek(SeekFrom::Start(at))?;
    file.read(into)
}

impl<R: Files> Shelf for FolderShelf<'_, R> {
    ghost told = { λ _ _. None };

    ghost faults = { λ shelf _. shelf };

    fn fetch(&mut self, name: &str, at: u64, into: &mut [u8]) -> Result<usize, Failed>
        ensures bound { IfOk result (λ n. n ≤ length into.old) }
        ensures bytes { IfOk result (λ n. IfSome None (λ bytes. Gives bytes at n into.old into.new)) }
        ensures later { self.old ≤ self.new }
        ensures stands { OnOk result (self.new ≡ self.old) }
        ensures cause { OnErr result (Rose self.old self.new) }

        // Beyond what every shelf promises: how much it counts.
        ensures err { OnErr result (self.new ≡ one_more self.old) }
    {
        counted(&mut self.faults, bytes_at(self.rt, name, at, into).ok())
    }
}

/// Standard output, seen as its count of faults. The bytes taken aren't told. They are written when they
/// are taken, with no buffer between.
#[derive(Drop)]
pub struct ScreenSink<'a, R> {
    rt: &'a R,
    faults: u64,
}

impl<'a, R> Model for ScreenSink<'a, R> {
    ghost use Rattle.std.specs.Prelude.{ℕ};

    ghost Value = { ℕ };

    ghost view = { λ sink. sink.faults };
}

impl<'a, R: Print> ScreenSink<'a, R> {
    /// The screen, with no fault so far.
    pub fn new(rt: &'a R) -> ScreenSink<'a, R>
        ensures { result ≡ 0 }
    {
        ScreenSink { rt, faults: 0 }
    }
}

impl<R: Print> Sink for ScreenSink<'_, R> {
    ghost taken = { λ _. None };

    ghost faults = { λ sink. sink };

    fn put(&mut self, piece: &[u8]) -> Result<usize, Failed>
        requires { 0 < length piece.now }
        ensures count { IfOk result (λ n. (1 ≤ n) × (n ≤ length piece.now)) }
        ensures bytes { IfOk result (λ n. None ≡ with_more None (take n piece.now)) }
        ensures failed { OnErr result (None ≡ with_more None []) }
        ensures later { self.old ≤ self.new }
        ensures stands { OnOk result (self.new ≡ self.old) }
        ensures cause { OnErr result (Rose self.old self.new) }

        // Beyond what every sink promises: how much it counts.
        ensures err { OnErr result (self.new ≡ one_more self.old) }
    {
        match self.rt.write_some(piece) {
            Ok(count) if count > 0 => counted(&mut self.faults, Some(count)),
            _ => counted(&mut self.faults, None),
        }
    }
}
