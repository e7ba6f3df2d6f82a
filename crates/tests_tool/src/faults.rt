//! Shelves and sinks that fail.
use crate::fixtures::{DENESTING, DENESTING_EVIDENCE, ends, shelf_of};
use kat_io::{MemShelf, MemSink};
use kat_model::NoMemory;
use std::alloc::Global;
use std::test::Fail;

// The words, the names of the two files, the call that fails, and the reply.
type ShelfRow = (
    &'static str,
    &'static str,
    &'static str,
    u64,
    (u8, &'static str),
);

const SHELVES: &[ShelfRow] = &[
    ("decide f", "g", "e", 9, (4, "cannot read f\n")),
    ("decide f", "f", "e", 0, (4, "cannot read f\n")),
    ("run f P zero 1", "g", "e", 9, (4, "cannot read f\n")),
    ("check f e", "f", "e", 0, (4, "cannot read f\n")),
    ("check f e", "f", "e", 1, (4, "cannot read e\n")),
    ("check f e", "f", "g", 9, (4, "cannot read e\n")),
    ("chain f e", "f", "e", 1, (4, "cannot read e\n")),
    ("check f e", "f", "e", 2, (0, "accepted equal\n")),
];

fn ends_over(
    alloc: Global,
    line: &str,
    shelf: &mut MemShelf,
    expected: (u8, &str),
) -> Result<bool, NoMemory> {
    let mut sink = MemSink::new(alloc, 100, 10)?;
    ends(alloc, line, shelf, &mut sink, expected)
}

fn shelf_fails(alloc: Global, row: &ShelfRow) -> Result<bool, NoMemory> {
    let (line, file, evidence, call, expected) = row;
    let first = (*file, DENESTING.as_bytes());
    let second = (*evidence, DENESTING_EVIDENCE.as_bytes());
    let mut shelf = shelf_of(alloc, first, second)?;
    shelf.fail_at(*call)?;
    ends_over(alloc, line, &mut shelf, *expected)
}

#[test]
fn a_shelf_fails(rt: HostRuntime) -> Result<(), Fail> {
    for row in SHELVES {
        assert!(rt; shelf_fails(rt.alloc(), row)?, "on {} at {}", row.0, row.3);
    }
    Ok(())
}

// The call that fails, and the reply.
const SINKS: &[(u64, (u8, &str))] = &[
    (0, (5, "")),
    (1, (5, "kat 1 diff")),
    (2, (5, "kat 1 different\nA 10")),
    (3, (1, "kat 1 different\nA 10\nend\n")),
];

fn ends_into(
    alloc: Global,
    shelf: &mut MemShelf,
    call: u64,
    expected: (u8, &str),
) -> Result<bool, NoMemory> {
    let mut sink = MemSink::new(alloc, 100, 10)?;
    sink.fail_at(call)?;
    ends(alloc, "decide f", shelf, &mut sink, expected)
}

fn sink_fails(alloc: Global, call: u64, expected: (u8, &str)) -> Result<bool, NoMemory> {
    let text = b"test b, c; goal equal [b && c], b;";
    let mut shelf = shelf_of(alloc, ("f", text), ("e", b""))?;
    ends_into(alloc, &mut shelf, call, expected)
}

#[test]
fn a_sink_fails(rt: HostRuntime) -> Result<(), Fail> {
    for (call, expected) in SINKS {
        assert!(rt; sink_fails(rt.alloc(), *call, *expected)?, "at {call}");
    }
    Ok(())
}
