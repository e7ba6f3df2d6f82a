//! Reads evidence and writes it again.
use certificate::{EvidenceFault, read, write};
use std::alloc::Global;
use std::test::Fail;

fn written(alloc: Global, text: &str) -> Result<Vec<u8>, EvidenceFault> {
    let evidence = read(alloc, text.as_bytes())?;
    Ok(write(alloc, &evidence)?)
}

fn is_kept(alloc: Global, text: &str) -> Result<bool, EvidenceFault> {
    Ok(written(alloc, text)?.as_slice() == text.as_bytes())
}

const UNDER: &str =
    "kat 1 equal under\nT prim 0\nT not 0\nE one\nE act 0\nP | | 1\nP 0 1 | 0 | 0\nend\n";

const STRING: &str = "kat 1 different\nA 10\nM 0 00\nM 18446744073709551615 01\nend\n";

#[test]
fn evidence_is_written_as_it_was_read(rt: HostRuntime) -> Result<(), Fail> {
    assert!(rt; is_kept(rt.alloc(), UNDER)?);
    assert!(rt; is_kept(rt.alloc(), STRING)?);
    let fault = is_kept(rt.alloc(), "kat 1 equal\nE star 0\nend\n");
    assert!(rt; fault == Err(EvidenceFault::NodeOrder(2)));
    Ok(())
}
