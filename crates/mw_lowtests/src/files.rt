ghost use Rattle.std.specs.Prelude.{◌<◌};

// Files and output in memory, failing at each call, and the real ones once.
use mw_outside::{
    Failed, FolderShelf, MemoryShelf, MemorySink, ReadRefusal, ScreenSink, Shelf, Sink,
    SteadyShelf, SteadySink, read_whole, write_all,
};
use std::test::Fail;

/// Sets files, one after the other.
fn set_all(rt: &HostRuntime, shelf: &mut MemoryShelf, files: &[(&str, &[u8])]) -> Result<(), Fail> {
    for (name, bytes) in files {
        shelf.set(rt.alloc(), name, bytes)?;
    }
    Ok(())
}

/// A shelf with these files.
fn shelf_of(
    rt: &HostRuntime,
    most: usize,
    fails: &[u64],
    files: &[(&str, &[u8])],
) -> Result<MemoryShelf, Fail>
    requires { 0 < most }
{
    let mut shelf = MemoryShelf::new(rt.alloc(), most, fails)?;
    match set_all(rt, &mut shelf, files) {
        Ok(()) => Ok(shelf),
        Err(fail) => {
            drop(shelf);
            Err(fail)
        }
    }
}

#[test]
fn files_in_memory(rt: HostRuntime) -> Result<(), Fail> {
    let files: [(&str, &[u8]); 3] = [("t", b"seven b"), ("u", b""), ("t", b"seven")];
    let mut shelf = shelf_of(&rt, 3, &[5], &files)?;
    let mut buffer = [0u8; 8];
    let cases = [
        ("t", 0, Ok(3)),
        ("t", 3, Ok(2)),
        ("t", 5, Ok(0)),
        ("u", 0, Ok(0)),
        ("t", 0, Err(Failed)),
        ("missing", 0, Err(Failed)),
        ("t", 4, Ok(1)),
    ];
    for (name, at, answer) in cases {
        assert_eq!(rt;
            shelf.fetch(name, at, &mut buffer),
            answer,
            "{name} at {at}"
        );
    }
    assert_eq!(rt; &buffer[..3], b"nnv".as_slice());
    drop(shelf);
    Ok(())
}

/// Why a file isn't read, two bytes a fetch, where these fetches fail.
fn refusal_of(rt: &HostRuntime, fails: &[u64], name: &str) -> Result<Option<ReadRefusal>, Fail> {
    let mut shelf = shelf_of(rt, 2, fails, &[("t", b"micro")])?;
    let answer = read_whole(rt.alloc(), &mut shelf, name);
    drop(shelf);
    Ok(answer.err())
}

// Two bytes a fetch: four fetches read five bytes and find their end.
#[test]
fn failing_fetches(rt: HostRuntime) -> Result<(), Fail> {
    for number in 1..6u64 {
        let answer = refusal_of(&rt, &[number], "t")?;
        let wanted = if number <= 4 {
            Some(ReadRefusal::Fault)
        } else {
            None
        };
        assert_eq!(rt; answer, wanted, "call {number} fails");
    }
    let missing = refusal_of(&rt, &[], "k")?;
    assert_eq!(rt; missing, Some(ReadRefusal::Fault));
    Ok(())
}

// One byte a call: where call n fails, the first n - 1 bytes were taken.
#[test]
fn failing_puts(rt: HostRuntime) -> Result<(), Fail> {
    let text = b"same 1";
    for number in 1..8u64 {
        let mut sink = MemorySink::new(rt.alloc(), 1, &[number])?;
        let answer = write_all(&mut sink, text);
        assert_eq!(rt; answer.is_err(), number <= 6, "call {number} fails");
        let taken = (number as usize - 1).min(text.len());
        assert_eq!(rt; sink.bytes(), &text[..taken], "call {number} fails");
        drop(sink);
    }
    Ok(())
}

// So many bytes a call.
#[test]
fn whole_texts(rt: HostRuntime) -> Result<(), Fail> {
    let text = b"same 1";
    for most in [2, 4, 100] {
        assert!(rt; most > 0);
        let mut sink = MemorySink::new(rt.alloc(), most, &[])?;
        assert_eq!(rt; sink.put(text), Ok(most.min(6)));
        assert_eq!(rt; write_all(&mut sink, b" or 2"), Ok(()));
        assert_eq!(rt; sink.bytes().len(), most.min(6) + 5, "{most} at a time");
        drop(sink);
    }
    Ok(())
}

/// Sets a file twice.
fn set_twice(rt: &HostRuntime, shelf: &mut SteadyShelf) -> Result<(), Fail> {
    shelf.set(rt.alloc(), "t", b"six")?;
    shelf.set(rt.alloc(), "t", b"seven")?;
    Ok(())
}

#[test]
fn files_that_never_fail(rt: HostRuntime) -> Result<(), Fail> {
    let mut shelf = SteadyShelf::new(rt.alloc());
    let set = set_twice(&rt, &mut shelf);
    let mut buffer = [b'-'; 8];
    assert_eq!(rt; shelf.fetch("t", 2, &mut buffer), Ok(3));
    assert_eq!(rt; &buffer, b"ven-----");
    assert_eq!(rt; shelf.fetch("unknown", 0, &mut buffer), Ok(0));
    let read = read_whole(rt.alloc(), &mut shelf, "t");
    drop(shelf);
    set?;
    assert_eq!(rt; read?.as_slice(), b"seven".as_slice());
    Ok(())
}

#[test]
fn a_sink_that_never_fails(rt: HostRuntime) {
    let mut sink = SteadySink::new();
    assert_eq!(rt; sink.put(b"same 1\n"), Ok(7));
    assert_eq!(rt; write_all(&mut sink, b"same 1\n"), Ok(()));
}

#[test]
fn folder(rt: HostRuntime) -> Result<(), Fail> {
    std::fs::write(&rt, "outside_folder_test.txt", "bundle")?;
    let mut shelf = FolderShelf::new(&rt);
    let bytes = read_whole(rt.alloc(), &mut shelf, "outside_folder_test.txt")?;
    let mut buffer = [0u8; 4];
    let count = shelf.fetch("outside_folder_test.txt", 3, &mut buffer);
    std::fs::remove_file(&rt, "outside_folder_test.txt")?;
    assert_eq!(rt; bytes.as_slice(), b"bundle".as_slice());
    assert_eq!(rt; count, Ok(3));
    assert_eq!(rt; &buffer[..3], b"dle".as_slice());
    let missing = read_whole(rt.alloc(), &mut shelf, "outside_folder_test.txt").err();
    assert_eq!(rt; missing, Some(ReadRefusal::Fault));
    Ok(())
}

#[test]
fn screen(rt: HostRuntime) {
    let mut sink = ScreenSink::new(&rt);
    assert_eq!(rt; sink.put(b"same 1\n"), Ok(7));
    assert_eq!(rt; write_all(&mut sink, b"same 1\n"), Ok(()));
}
