//! Calls of `run` with a shelf and a sink in memory.
//!
//! The contract of `run` is long, and every fact of a call slows the proof of what follows it. So one function calls it.
use kat_io::{MemShelf, MemSink};
use kat_model::NoMemory;
use kat_tool::{Words, run};
use std::alloc::Global;

// Appends the words between single spaces. An empty line has no words.
fn push_words(words: &mut Words, line: &str) -> Result<(), NoMemory> {
    if line.is_empty() {
        return Ok(());
    }
    for word in line.split(' ') {
        words.push(word)?;
    }
    Ok(())
}

fn words_of(alloc: Global, line: &str) -> Result<Words, NoMemory> {
    let mut words = Words::new(alloc);
    push_words(&mut words, line)?;
    Ok(words)
}

// Runs the words of a line and returns the status.
fn status_of(
    alloc: Global,
    line: &str,
    shelf: &mut MemShelf,
    sink: &mut MemSink,
) -> Result<u8, NoMemory> {
    let words = words_of(alloc, line)?;
    Ok(run(alloc, &words, shelf, sink))
}

// Whether the line ends with this status, when the sink has taken exactly these bytes.
pub(crate) fn ends(
    alloc: Global,
    line: &str,
    shelf: &mut MemShelf,
    sink: &mut MemSink,
    expected: (u8, &str),
) -> Result<bool, NoMemory> {
    let status = status_of(alloc, line, shelf, sink)?;
    Ok(status == expected.0 && sink.taken() == expected.1.as_bytes())
}

// The same with a sink that never fails.
fn ends_in_full(
    alloc: Global,
    line: &str,
    shelf: &mut MemShelf,
    expected: (u8, &str),
) -> Result<bool, NoMemory> {
    let mut sink = MemSink::new(alloc, 100_000, 10_000)?;
    ends(alloc, line, shelf, &mut sink, expected)
}

// Returns a shelf with these two files.
pub(crate) fn shelf_of(
    alloc: Global,
    first: (&str, &[u8]),
    second: (&str, &[u8]),
) -> Result<MemShelf, NoMemory> {
    let mut shelf = MemShelf::new(alloc);
    shelf.add(first.0, first.1)?;
    shelf.add(second.0, second.1)?;
    Ok(shelf)
}

// Whether the line has this status and this output with the files `f` and `e`, when nothing fails.
pub(crate) fn replies(
    alloc: Global,
    line: &str,
    text: &[u8],
    evidence: &[u8],
    expected: (u8, &str),
) -> Result<bool, NoMemory> {
    let mut shelf = shelf_of(alloc, ("f", text), ("e", evidence))?;
    ends_in_full(alloc, line, &mut shelf, expected)
}

pub(crate) const DENESTING: &str = "action p, q; goal equal (p+q)*, (p*.q)*.p*;";

pub(crate) const DENESTING_EVIDENCE: &str =
    "kat 1 equal\nE act 0\nE act 1\nE sum 0 1\nE star 2\nE star 0\nE seq 4 1\nE star 5\nE seq 6 4\nE seq 5 6\nE seq 8 4\nP 3 | 7\nP 3 | 4 9\nend\n";

pub(crate) const STAR_TWICE: &str = "action p; goal equal p*, p*.p*;";
