//! The sections so far of evidence for pieces.
ghost use Rattle.std.specs.Prelude.{◌≡◌, ◌≤◌, ◌∷◌, ◌++◌, [], ℕ, List, OnOk, map, length};
ghost use Rattle.std.specs.Str.{bytes_eq};
ghost use Rattle.piece_evidence.specs.Sections.{section_parts};
ghost use Rattle.piece_evidence.specs.Faults.{reading, at_start, piece_word, is_last};
ghost use Rattle.piece_evidence.specs.Readings.{Gives};
ghost use Rattle.piece_evidence.specs.Working.Drafts.{draft_read, AddsHeader, AddsPiece, AddsTextLine, AddsSection, AddsSectionLine, AddsLine, answer_at_end, IsAt, IsInSection, IsPieceWord};

use crate::fault::SectionFault;
use crate::section::Section;
use line_format::{is_numeral, number_of};
use std::alloc::Global;

// Where the next line is.
#[derive(Clone, Copy)]
enum Stage {
    // Before the first line.
    Start,
    // After the header or a section of a text.
    Text,
    // In the text of a section.
    Section,
    // After the line `end` of a text.
    End,
}

// The sections that were read and, in a section, its piece, what follows its first line, and the length of what was read
// of it.
pub(crate) struct Draft<'a> {
    sections: Vec<Section<'a>>,
    stage: Stage,
    piece: usize,
    begin: &'a [u8],
    length: usize,
}

// Explicit, so that it is proved once.
impl Drop for Draft<'_> {
    fn drop(self) {
        let Draft {
            sections: _sections,
            stage: _,
            piece: _,
            begin: _,
            length: _,
        } = self;
    }
}

// Whether the bytes are this text.
fn is_text(bytes: &[u8], text: &[u8]) -> bool
    ensures { result ≡ bytes_eq bytes.now text.now }
{
    bytes == text
}

// Returns what follows `piece ` in a line.
fn piece_word(line: &[u8]) -> Option<&[u8]>
    ensures { IsPieceWord (piece_word line.now) result }
{
    line.strip_prefix(b"piece ".as_slice())
}

// Whether a line is the last one of the text of a section, of which `read` bytes precede it.
fn is_last(read: usize, line: &[u8]) -> bool
    ensures { result ≡ is_last read line.now }
{
    is_text(line, b"end") || (read == 0 && is_text(line, b"same text"))
}

impl<'a> Draft<'a> {
    pub(crate) fn new(alloc: Global, bytes: &'a [u8]) -> Draft<'a>
        ensures read { draft_read result ≡ reading [] at_start }
        ensures at { IsAt result bytes.now }
    {
        Draft {
            sections: Vec::new(alloc),
            stage: Stage::Start,
            piece: 0,
            begin: bytes,
            length: 0,
        }
    }

    // Adds a header, or returns this fault of the line.
    fn add_header(&mut self, line: &[u8], fault: SectionFault) -> Result<(), SectionFault>
        ensures read { AddsHeader self.old fault line.now self.new result }
        ensures at { (rest : List ℕ) → OnOk result (IsAt self.new rest) }
    {
        if is_text(line, b"kat 1 agree") {
            self.stage = Stage::Text;
            return Ok(());
        }
        Err(fault)
    }

    // Begins the section of a piece, whose text follows its first line.
    fn add_piece(&mut self, line: &[u8], number: u64, after: &'a [u8]) -> Result<(), SectionFault>
        ensures read { AddsPiece self.old number line.now self.new result }
        ensures at { OnOk result (IsAt self.new after.now) }
    {
        let Some(word) = piece_word(line) else {
            return Err(SectionFault::Line(number));
        };
        if !is_numeral(word) {
            return Err(SectionFault::Line(number));
        }
        let Some(piece) = number_of(word) else {
            return Err(SectionFault::NumberTooWide(number));
        };
        self.stage = Stage::Section;
        self.piece = piece;
        self.begin = after;
        self.length = 0;
        Ok(())
    }

    // Adds a line after the header or a section.
    fn add_text_line(
        &mut self,
        line: &[u8],
        number: u64,
        after: &'a [u8],
    ) -> Result<(), SectionFault>
        ensures read { AddsTextLine self.old number line.now self.new result }
        ensures at { OnOk result (IsAt self.new after.now) }
    {
        if is_text(line, b"end") {
            self.stage = Stage::End;
            return Ok(());
        }
        self.add_piece(line, number, after)
    }

    // Ends the section, whose text was read.
    fn end_section(&mut self) -> Result<(), SectionFault>
        requires { self.old.length ≤ length self.old.begin.now }
        ensures read { AddsSection self.old self.new result }
        ensures at { (rest : List ℕ) → OnOk result (IsAt self.new rest) }
    {
        let text = &self.begin[..self.length];
        self.sections.push(Section {
            piece: self.piece,
            text,
        })?;
        self.stage = Stage::Text;
        Ok(())
    }

    // Adds a line of a section.
    fn add_section_line(&mut self, line: &[u8], after: &[u8]) -> Result<(), SectionFault>
        requires { IsInSection self.old line.now after.now }
        ensures read { AddsSectionLine self.old line.now self.new result }
        ensures at { OnOk result (IsAt self.new after.now) }
    {
        let ends = is_last(self.length, line);
        self.length += line.len() + 1;
        if ends {
            return self.end_section();
        }
        Ok(())
    }

    // Adds the next line, after which this follows. After a fault the value must not be used.
    pub(crate) fn add(
        &mut self,
        line: &[u8],
        number: u64,
        after: &'a [u8],
    ) -> Result<(), SectionFault>
        requires { IsAt self.old (line.now ++ 10 ∷ after.now) }
        ensures read { AddsLine self.old number line.now self.new result }
        ensures at { OnOk result (IsAt self.new after.now) }
    {
        match self.stage {
            Stage::Start => self.add_header(line, SectionFault::Header),
            Stage::Text => self.add_text_line(line, number, after),
            Stage::Section => self.add_section_line(line, after),
            Stage::End => self.add_header(line, SectionFault::Line(number)),
        }
    }

    // Returns the sections of bytes that end with `last` after the last line feed.
    pub(crate) fn finish(self, last: &[u8]) -> Result<Vec<Section<'a>>, SectionFault>
        ensures { Gives (answer_at_end self.entry last.now) result (λ v. map section_parts v.items) }
    {
        let Draft {
            sections,
            stage,
            piece: _,
            begin: _,
            length: _,
        } = self;
        if !last.is_empty() {
            return Err(SectionFault::Truncated);
        }
        match stage {
            Stage::End => Ok(sections),
            _ => Err(SectionFault::Truncated),
        }
    }
}
