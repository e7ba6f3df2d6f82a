//! Writing evidence.
ghost use Rattle.std.specs.Prelude.{◌≡◌, ◌∷◌, ◌++◌, if◌then◌else◌, map, IfOk, OnOk};
ghost use Rattle.std.specs.Fmt.{decimal};
ghost use Rattle.line_format.specs.Lines.{line_of, after_blanks, with_feed};
ghost use Rattle.certificate.specs.Texts.{last_words, entry_words, atom_words, move_words, bit_words, heading, entries_of, text_of};
ghost use Rattle.certificate.specs.Working.Writings.{entry_lines, move_lines, string_lines, body_of};
ghost use Rattle.certificate.specs.declared.entry.Entry.TheVariants.{TestLine, TermLine, PairLine};

use crate::cert::Cert;
use crate::evidence::Evidence;
use crate::nodes::{Pair, Style, TermNode, TestNode};
use kat_model::NoMemory;
use line_format::{put_form, put_line, put_numbers};
use std::alloc::Global;
use string_tables::{GString, Move};

fn put_test(alloc: Global, out: &mut Vec<u8>, node: TestNode) -> Result<(), NoMemory>
    ensures { OnOk result (out.new.items ≡ out.old.items ++ with_feed (line_of (entry_words (TestLine node)))) }
{
    match node {
        TestNode::False => put_line(out, b"T false"),
        TestNode::True => put_line(out, b"T true"),
        TestNode::Prim(k) => put_form(alloc, out, b"T prim", &[k]),
        TestNode::Not(x) => put_form(alloc, out, b"T not", &[x]),
        TestNode::And(x, y) => put_form(alloc, out, b"T and", &[x, y]),
        TestNode::Or(x, y) => put_form(alloc, out, b"T or", &[x, y]),
    }
}

fn put_term(alloc: Global, out: &mut Vec<u8>, node: TermNode) -> Result<(), NoMemory>
    ensures { OnOk result (out.new.items ≡ out.old.items ++ with_feed (line_of (entry_words (TermLine node)))) }
{
    match node {
        TermNode::Zero => put_line(out, b"E zero"),
        TermNode::One => put_line(out, b"E one"),
        TermNode::Test(x) => put_form(alloc, out, b"E test", &[x]),
        TermNode::Act(a) => put_form(alloc, out, b"E act", &[a]),
        TermNode::Sum(x, y) => put_form(alloc, out, b"E sum", &[x, y]),
        TermNode::Seq(x, y) => put_form(alloc, out, b"E seq", &[x, y]),
        TermNode::Star(x) => put_form(alloc, out, b"E star", &[x]),
    }
}

// Appends the end of the line of a pair: its test, if it has one.
fn put_last(alloc: Global, out: &mut Vec<u8>, test: Option<usize>) -> Result<(), NoMemory>
    ensures { OnOk result (out.new.items ≡ out.old.items ++ with_feed (after_blanks (last_words test))) }
{
    match test {
        None => put_line(out, b""),
        Some(k) => put_form(alloc, out, b" |", &[k]),
    }
}

fn put_pair(alloc: Global, out: &mut Vec<u8>, pair: &Pair) -> Result<(), NoMemory>
    ensures { OnOk result (out.new.items ≡ out.old.items ++ with_feed (line_of (entry_words (PairLine pair.now)))) }
{
    out.push(b'P')?;
    put_numbers(alloc, out, pair.left.as_slice())?;
    out.extend_from_slice(b" |")?;
    put_numbers(alloc, out, pair.right.as_slice())?;
    put_last(alloc, out, pair.test)
}

fn put_tests(alloc: Global, out: &mut Vec<u8>, nodes: &[TestNode]) -> Result<(), NoMemory>
    ensures { OnOk result (out.new.items ≡ out.old.items ++ entry_lines (map TestLine nodes.now)) }
{
    for node in nodes {
        put_test(alloc, out, *node)?;
    }
    Ok(())
}

fn put_terms(alloc: Global, out: &mut Vec<u8>, nodes: &[TermNode]) -> Result<(), NoMemory>
    ensures { OnOk result (out.new.items ≡ out.old.items ++ entry_lines (map TermLine nodes.now)) }
{
    for node in nodes {
        put_term(alloc, out, *node)?;
    }
    Ok(())
}

fn put_pairs(alloc: Global, out: &mut Vec<u8>, pairs: &[Pair]) -> Result<(), NoMemory>
    ensures { OnOk result (out.new.items ≡ out.old.items ++ entry_lines (map PairLine pairs.now)) }
{
    for pair in pairs {
        put_pair(alloc, out, pair)?;
    }
    Ok(())
}

fn put_heading(out: &mut Vec<u8>, style: Style) -> Result<(), NoMemory>
    ensures { OnOk result (out.new.items ≡ out.old.items ++ with_feed (heading style)) }
{
    match style {
        Style::Plain => put_line(out, b"kat 1 equal"),
        Style::UpTo => put_line(out, b"kat 2 equal"),
        Style::Under => put_line(out, b"kat 1 equal under"),
    }
}

fn put_cert(alloc: Global, out: &mut Vec<u8>, cert: &Cert) -> Result<(), NoMemory>
    ensures { OnOk result (out.new.items ≡ out.old.items ++ (with_feed (heading cert.now.style) ++ entry_lines (entries_of cert.now))) }
{
    put_heading(out, cert.style())?;
    put_tests(alloc, out, cert.test_nodes())?;
    put_terms(alloc, out, cert.term_nodes())?;
    put_pairs(alloc, out, cert.pairs())
}

fn bit(value: bool) -> u8
    ensures { result ≡ (if value then 49 else 48) }
{
    if value { b'1' } else { b'0' }
}

// Appends the bits of an atom after a blank, or nothing if there are no tests.
fn put_bits(out: &mut Vec<u8>, atom: &[bool]) -> Result<(), NoMemory>
    ensures { OnOk result (out.new.items ≡ out.old.items ++ after_blanks (bit_words atom.now)) }
{
    if atom.is_empty() {
        return Ok(());
    }
    out.push(b' ')?;
    for value in atom {
        out.push(bit(*value))?;
    }
    Ok(())
}

fn put_move(alloc: Global, out: &mut Vec<u8>, step: &Move) -> Result<(), NoMemory>
    ensures { OnOk result (out.new.items ≡ out.old.items ++ with_feed (line_of (move_words step.now))) }
{
    out.push(b'M')?;
    put_numbers(alloc, out, &[step.act])?;
    put_bits(out, step.atom.as_slice())?;
    out.push(b'\n')?;
    Ok(())
}

fn put_first(out: &mut Vec<u8>, atom: &[bool]) -> Result<(), NoMemory>
    ensures { OnOk result (out.new.items ≡ out.old.items ++ with_feed (line_of (atom_words atom.now))) }
{
    out.push(b'A')?;
    put_bits(out, atom)?;
    out.push(b'\n')?;
    Ok(())
}

fn put_moves(alloc: Global, out: &mut Vec<u8>, moves: &[Move]) -> Result<(), NoMemory>
    ensures { OnOk result (out.new.items ≡ out.old.items ++ move_lines moves.now) }
{
    for step in moves {
        put_move(alloc, out, step)?;
    }
    Ok(())
}

fn put_string(alloc: Global, out: &mut Vec<u8>, string: &GString) -> Result<(), NoMemory>
    ensures { OnOk result (out.new.items ≡ out.old.items ++ string_lines string.now) }
{
    put_line(out, b"kat 1 different")?;
    put_first(out, string.first.as_slice())?;
    put_moves(alloc, out, string.rest.as_slice())
}

// Appends all lines but the last.
fn put_body(alloc: Global, out: &mut Vec<u8>, evidence: &Evidence) -> Result<(), NoMemory>
    ensures { OnOk result (out.new.items ≡ out.old.items ++ body_of evidence.now) }
{
    match evidence {
        Evidence::Equal(cert) => put_cert(alloc, out, cert),
        Evidence::Different(string) => put_string(alloc, out, string),
    }
}

/// Returns the text of evidence, which is unique. Fails only when out of memory.
pub fn write(alloc: Global, evidence: &Evidence) -> Result<Vec<u8>, NoMemory>
    ensures { IfOk result (λ text. text.items ≡ text_of evidence.now) }
{
    let mut out = Vec::new(alloc);
    put_body(alloc, &mut out, evidence)?;
    put_line(&mut out, b"end")?;
    Ok(out)
}
