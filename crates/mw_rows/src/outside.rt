// What is outside of a command of a row: files and a sink in memory, or such that never fail.
use mw_outside::{MemoryShelf, MemorySink, SteadyShelf, SteadySink};
use mw_rowfile::{End, Fault, File, wrong};
use mw_term::ShortcutBook;
use mw_top::{Status, bench};
use std::alloc::Global;

/// How the outside in memory moves bytes, and which of its calls fail.
#[derive(Clone, Copy)]
pub(crate) struct Outside {
    /// The most bytes that a call moves.
    pub(crate) most: usize,
    /// The number of the fetch that fails, from 1; 0 is none.
    pub(crate) fetch: u64,
    /// The number of the put that fails, from 1; 0 is none.
    pub(crate) put: u64,
}

impl Outside {
    /// No call fails.
    pub(crate) fn moving(most: usize) -> Outside {
        Outside {
            most,
            fetch: 0,
            put: 0,
        }
    }
}

/// How the bench ends with these words over files and a sink in memory.
pub(crate) fn bench_over(
    alloc: Global,
    outside: Outside,
    words: &[String],
    files: &[File],
    book: &ShortcutBook,
) -> Result<End, Fault> {
    let Outside { most, fetch, put } = outside;
    if most == 0 {
        return Err(wrong("a call moves one byte at least"));
    }
    let mut shelf = MemoryShelf::new(alloc, most, &[fetch])?;
    let mut out = MemorySink::new(alloc, most, &[put])?;
    for file in files {
        shelf.set(alloc, &file.name, &file.contents)?;
    }
    let status = bench(alloc, words, &mut shelf, &mut out, book);
    Ok(End {
        status: status.number(),
        report: Vec::from_slice(alloc, out.bytes())?,
    })
}

/// The status of the bench with these words over files and a sink that never fail.
pub(crate) fn steady_status(
    alloc: Global,
    words: &[String],
    files: &[File],
    book: &ShortcutBook,
) -> Result<Status, Fault> {
    let mut shelf = SteadyShelf::new(alloc);
    for file in files {
        shelf.set(alloc, &file.name, &file.contents)?;
    }
    Ok(bench(alloc, words, &mut shelf, &mut SteadySink::new(), book))
}
