//! Command lines over large files.
use crate::fixtures::{STAR_TWICE, replies};
use kat_model::NoMemory;
use std::alloc::Global;
use std::test::Fail;

fn spaces_are(alloc: Global, count: usize, expected: (u8, &str)) -> Result<bool, NoMemory> {
    let text = vec![in alloc; b' '; count]?;
    replies(alloc, "decide f", &text, b"", expected)
}

#[test]
fn texts_have_at_most_a_mebibyte(rt: HostRuntime) -> Result<(), Fail> {
    assert!(rt; spaces_are(rt.alloc(), 1_048_576, (2, "refused: NoGoal\n"))?);
    assert!(rt; spaces_are(rt.alloc(), 1_048_577, (2, "refused: TooLong\n"))?);
    Ok(())
}

// Nested stars up to node `last`, with pairs that are all correct except the last.
fn long_chain(alloc: Global, last: usize) -> Result<String, NoMemory> {
    let mut text = String::from_str(alloc, "kat 1 equal\nE act 0\nE star 0\nE seq 1 1\n")?;
    for i in 2..last {
        write!(text, "E star {i}\n")?;
    }
    write!(text, "P 1 | 2\nP 1 | 1 2\nP {last} | {last}\nend\n")?;
    Ok(text)
}

fn long_chain_is(alloc: Global, last: usize, expected: (u8, &str)) -> Result<bool, NoMemory> {
    let evidence = long_chain(alloc, last)?;
    replies(
        alloc,
        "check f e",
        STAR_TWICE.as_bytes(),
        evidence.as_bytes(),
        expected,
    )
}

#[test]
fn long_chains_cost_no_stack(rt: HostRuntime) -> Result<(), Fail> {
    let missing = (3, "rejected: Missing pair 2 atom - action 0\n");
    assert!(rt; long_chain_is(rt.alloc(), 50_000, missing)?);
    Ok(())
}

// Returns the text of a program with `count` statements.
fn with_statements(alloc: Global, count: usize) -> Result<String, NoMemory> {
    let mut text = String::from_str(alloc, "width 8; var x; prog P { ")?;
    for _ in 0..count {
        text.push_str("skip;")?;
    }
    text.push_str(" } goal equal P, P;")?;
    Ok(text)
}

// Returns a text of programs over `count` variables.
fn with_variables(alloc: Global, count: usize) -> Result<String, NoMemory> {
    let mut text = String::from_str(alloc, "width 8; test b; var v0")?;
    for k in 1..count {
        write!(text, ", v{k}")?;
    }
    text.push_str("; prog P { v0 := v0 + 1; } prog T { assert b; } goal equal P, P;")?;
    Ok(text)
}

fn statements_are(alloc: Global, count: usize, expected: (u8, &str)) -> Result<bool, NoMemory> {
    let text = with_statements(alloc, count)?;
    replies(alloc, "oneloop f P", text.as_bytes(), b"", expected)
}

fn variables_are(
    alloc: Global,
    count: usize,
    line: &str,
    expected: (u8, &str),
) -> Result<bool, NoMemory> {
    let text = with_variables(alloc, count)?;
    replies(alloc, line, text.as_bytes(), b"", expected)
}

#[test]
fn some_programs_have_no_form(rt: HostRuntime) -> Result<(), Fail> {
    assert!(rt; statements_are(rt.alloc(), 256, (2, "refused: TooManyStatements 256\n"))?);
    assert!(rt; variables_are(rt.alloc(), 64, "oneloop f P", (2, "refused: TooManyVars\n"))?);
    assert!(rt; variables_are(rt.alloc(), 2, "oneloop f T", (7, "refused: words\n"))?);
    Ok(())
}
