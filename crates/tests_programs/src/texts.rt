//! Reads and prints texts of GKAT.
use gkat_front::{GkatFile, kat_of, print_gkat, read_gkat};
use kat_model::NoMemory;
use std::alloc::Global;
use std::test::Fail;
use text_parser::TextFault;
use text_print::print_term;

// Prints the left side, and the term of the right side on the next line.
fn shown(alloc: Global, file: &GkatFile) -> Result<Vec<u8>, NoMemory> {
    let term = kat_of(alloc, &file.right)?;
    let mut out = print_gkat(alloc, &file.left, &file.scope)?;
    out.push(b'\n')?;
    let second = print_term(alloc, &term, &file.scope)?;
    out.extend_from_slice(&second)?;
    Ok(out)
}

fn is_file_shown(alloc: Global, file: &GkatFile, expected: &[u8]) -> Result<bool, NoMemory> {
    Ok(shown(alloc, file)?.as_slice() == expected)
}

fn is_shown(alloc: Global, text: &[u8], expected: &[u8]) -> Result<bool, TextFault> {
    let file = read_gkat(alloc, text)?;
    Ok(is_file_shown(alloc, &file, expected)?)
}

fn fault(alloc: Global, text: &[u8]) -> Option<TextFault> {
    match read_gkat(alloc, text) {
        Ok(_) => None,
        Err(fault) => Some(fault),
    }
}

#[test]
fn expressions_are_read_and_printed(rt: HostRuntime) -> Result<(), Fail> {
    let text = b"test b, c; action p, q; equal [b && !c] +[b] 1 . (p^[b])^[c] . 0, p^[b] +[!c] q;";
    let expected = b"([(b && !c)] +[b] (1.((p^[b])^[c].0)))\n(([!c].((b.p)*.[!b])) + ([!!c].q))";
    assert!(rt; is_shown(rt.alloc(), text, expected)?);
    Ok(())
}

#[test]
fn texts_are_refused(rt: HostRuntime) {
    let expected = Some(TextFault::TwoGoals(20));
    assert!(rt; fault(rt.alloc(), b"test b; equal b, b; equal b, b;") == expected);
}
