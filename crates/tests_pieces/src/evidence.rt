//! Writes and reads evidence for pieces.
use kat_model::NoMemory;
use piece_evidence::{Section, SectionFault, put_end, put_header, put_section, read_sections};
use std::alloc::Global;
use std::test::Fail;

// Two texts, one after the other. The second has no section.
const TWO_TEXTS: &str =
    "kat 1 agree\npiece 7\nkat 2 equal\nE act 0\nP 0 | 0\nend\npiece 2\nsame text\nend\n\
    kat 1 agree\nend\n";

fn put_two_texts(alloc: Global, out: &mut Vec<u8>) -> Result<(), NoMemory> {
    put_header(out)?;
    put_section(alloc, out, 7, b"kat 2 equal\nE act 0\nP 0 | 0\nend\n")?;
    put_section(alloc, out, 2, b"same text\n")?;
    put_end(out)?;
    put_header(out)?;
    put_end(out)
}

#[test]
fn texts_are_written(rt: HostRuntime) -> Result<(), Fail> {
    let mut out = Vec::new(rt.alloc());
    let written = put_two_texts(rt.alloc(), &mut out);
    assert!(rt; written.is_ok());
    assert!(rt; out.as_slice() == TWO_TEXTS.as_bytes());
    Ok(())
}

fn is_section(section: Section<'_>, piece: usize, text: &str) -> bool {
    section.piece == piece && section.text == text.as_bytes()
}

#[test]
fn sections_are_read(rt: HostRuntime) -> Result<(), Fail> {
    match read_sections(rt.alloc(), TWO_TEXTS.as_bytes()) {
        Err(_) => assert!(rt; false),
        Ok(sections) => {
            assert!(rt; sections.len() == 2);
            assert!(rt; is_section(sections[0], 7, "kat 2 equal\nE act 0\nP 0 | 0\nend\n"));
            assert!(rt; is_section(sections[1], 2, "same text\n"));
        }
    }
    Ok(())
}

fn fault_of(alloc: Global, text: &str) -> Option<SectionFault> {
    match read_sections(alloc, text.as_bytes()) {
        Ok(_sections) => None,
        Err(fault) => Some(fault),
    }
}

#[test]
fn faults_are_first(rt: HostRuntime) -> Result<(), Fail> {
    let rows: [(&str, Option<SectionFault>); 8] = [
        ("kat 1 agree\nend\n", None),
        ("kat 1 equal\nend\n", Some(SectionFault::Header)),
        ("kat 1 agree\nsame text\nend\n", Some(SectionFault::Line(2))),
        (
            "kat 1 agree\npiece 01\nsame text\nend\n",
            Some(SectionFault::Line(2)),
        ),
        (
            "kat 1 agree\npiece 1\nsame text\npiece 18446744073709551616\n",
            Some(SectionFault::NumberTooWide(4)),
        ),
        ("kat 1 agree\nend\nend\n", Some(SectionFault::Line(3))),
        (
            "kat 1 agree\npiece 1\nkat 2 equal\nend\n",
            Some(SectionFault::Truncated),
        ),
        ("", Some(SectionFault::Truncated)),
    ];
    for (text, want) in &rows {
        assert!(rt; fault_of(rt.alloc(), text) == *want, "on {text}");
    }
    Ok(())
}
