// The PDP-8 whose texts are constants. What commands print, and that each fetch and each put may fail, rows show.
use crate::bench_by_shortcuts;
use mw_cases::{Texts, pdp8};
use mw_outside::{MemoryShelf, MemorySink};
use std::alloc::Global;
use std::test::Fail;

/// The texts of the PDP-8, with the names b, m, k and r.
fn texts(alloc: Global) -> Result<MemoryShelf, Fail> {
    let Texts {
        board,
        micro,
        machine,
        relation,
    } = pdp8();
    let mut shelf = MemoryShelf::new(alloc, 65_536, &[])?;
    shelf.set(alloc, "b", board)?;
    shelf.set(alloc, "m", micro)?;
    shelf.set(alloc, "k", machine)?;
    shelf.set(alloc, "r", relation)?;
    Ok(shelf)
}

/// The number of the status with which a call with these words ends.
fn call(
    alloc: Global,
    words: &[&str],
    shelf: &mut MemoryShelf,
    out: &mut MemorySink,
) -> Result<u8, Fail> {
    let mut owned = Vec::new(alloc);
    for &word in words {
        owned.push(String::from_str(alloc, word)?)?;
    }
    let status = bench_by_shortcuts(alloc, &owned, shelf, out);
    Ok(status.ok().ok_or("shortcuts")?.number())
}

#[test]
fn certify_pdp8_yes(rt: HostRuntime) -> Result<(), Fail> {
    let mut shelf = texts(rt.alloc())?;
    let mut out = MemorySink::new(rt.alloc(), 4096, &[])?;
    let words = ["certify", "b", "m", "k", "r"];
    assert_eq!(rt; call(rt.alloc(), &words, &mut shelf, &mut out)?, 0);
    let yes = b"yes\nboundary 0x0 cases 31 cycles 21 machine-states all\n".as_slice();
    assert!(rt; out.bytes() == yes);
    Ok(())
}
