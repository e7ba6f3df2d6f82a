//! Writing evidence for pieces.
ghost use Rattle.std.specs.Prelude.{◌≡◌, ◌++◌, OnOk};
ghost use Rattle.line_format.specs.Lines.{with_feed};
ghost use Rattle.piece_evidence.specs.Sections.{header_line, end_line, piece_line, section_of, section_text};

use kat_model::NoMemory;
use line_format::{put_line, put_number};
use std::alloc::Global;

/// Appends the line before the first section. Fails only when out of memory.
pub fn put_header(out: &mut Vec<u8>) -> Result<(), NoMemory>
    ensures { OnOk result (out.new.items ≡ out.old.items ++ with_feed header_line) }
{
    put_line(out, b"kat 1 agree")
}

// Appends the first line of the section of a piece.
fn put_piece(alloc: Global, out: &mut Vec<u8>, piece: usize) -> Result<(), NoMemory>
    ensures { OnOk result (out.new.items ≡ out.old.items ++ with_feed (piece_line piece)) }
{
    out.extend_from_slice(b"piece")?;
    put_number(alloc, out, piece)?;
    out.push(b'\n')?;
    Ok(())
}

/// Appends the section of a piece. Fails only when out of memory.
pub fn put_section(
    alloc: Global,
    out: &mut Vec<u8>,
    piece: usize,
    text: &[u8],
) -> Result<(), NoMemory>
    ensures { OnOk result (out.new.items ≡ out.old.items ++ section_text (section_of piece text.now)) }
{
    put_piece(alloc, out, piece)?;
    out.extend_from_slice(text)?;
    Ok(())
}

/// Appends the line after the last section. Fails only when out of memory.
pub fn put_end(out: &mut Vec<u8>) -> Result<(), NoMemory>
    ensures { OnOk result (out.new.items ≡ out.old.items ++ with_feed end_line) }
{
    put_line(out, b"end")
}
