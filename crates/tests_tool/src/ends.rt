//! The current folder and the standard output.
use kat_io::{FolderShelf, GetFault, Shelf, Sink, StdoutSink};
use std::alloc::Global;
use std::fs;
use std::test::Fail;

// Whether the shelf gives exactly these bytes for the name, with a limit of `most` bytes.
fn gives<S: Shelf>(alloc: Global, shelf: &mut S, name: &str, most: u64, expected: &[u8]) -> bool {
    match shelf.get(alloc, name, Some(most)) {
        Ok(bytes) => bytes.as_slice() == expected,
        Err(_) => false,
    }
}

fn fault_of<S: Shelf>(
    alloc: Global,
    shelf: &mut S,
    name: &str,
    most: Option<u64>,
) -> Option<GetFault> {
    match shelf.get(alloc, name, most) {
        Ok(_) => None,
        Err(fault) => Some(fault),
    }
}

#[test]
fn a_folder_gives_its_files(rt: HostRuntime) -> Result<(), Fail> {
    fs::write(&rt, "held", "abc")?;
    let mut shelf = FolderShelf::new(&rt);
    assert!(rt; gives(rt.alloc(), &mut shelf, "held", 3, b"abc"));
    let past = fault_of(rt.alloc(), &mut shelf, "held", Some(2));
    assert!(rt; past == Some(GetFault::TooLong));
    let missing = fault_of(rt.alloc(), &mut shelf, "none", None);
    assert!(rt; missing == Some(GetFault::Failed));
    Ok(())
}

#[test]
fn standard_output_takes_bytes(rt: HostRuntime) {
    let mut sink = StdoutSink::new(&rt);
    assert_eq!(rt; sink.put(b"abc"), Ok(3));
    assert_eq!(rt; sink.put(b""), Ok(0));
}
