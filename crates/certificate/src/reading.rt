//! Reading evidence.
ghost use Rattle.std.specs.Prelude.{◌≡◌, ◌+◌, ◌<◌, ◌^◌, length, IfOk, IfErr};
ghost use Rattle.line_format.specs.Lines.{parts_of};
ghost use Rattle.certificate.specs.Texts.{text_of, IsEvidence};
ghost use Rattle.certificate.specs.Faults.{string_from, answer_of};
ghost use Rattle.certificate.specs.Readings.{IsFault, Gives};
ghost use Rattle.certificate.specs.Working.Readings.{Reads};
ghost use Rattle.certificate.specs.declared.evidence.Evidence.{Evidence};

use crate::draft::Draft;
use crate::evidence::{Evidence, EvidenceFault};
use crate::moves::read_first;
use crate::nodes::Style;
use crate::string_draft::StringDraft;
use crate::texts::is_text;
use line_format::{first_line, read_lines};
use std::alloc::Global;

// Reads a string from line 2 on.
fn read_string(alloc: Global, bytes: &[u8]) -> Result<Evidence, EvidenceFault>
    requires { length bytes.now + 4 < 2 ^ 64 }
    ensures { Reads (string_from (parts_of bytes.now)) result }
{
    let Some((line, rest)) = first_line(bytes) else {
        return Err(EvidenceFault::Truncated);
    };
    match read_first(alloc, line)? {
        Some(first) => read_lines(alloc, StringDraft::new(alloc, first), 3, rest),
        None => Err(EvidenceFault::Line(2)),
    }
}

fn read_all(alloc: Global, bytes: &[u8]) -> Result<Evidence, EvidenceFault>
    ensures { Reads (answer_of bytes.now) result }
{
    let Some((line, rest)) = first_line(bytes) else {
        return Err(EvidenceFault::Truncated);
    };
    if is_text(line, b"kat 1 equal") {
        return read_lines(alloc, Draft::new(alloc, Style::Plain), 2, rest);
    }
    if is_text(line, b"kat 2 equal") {
        return read_lines(alloc, Draft::new(alloc, Style::UpTo), 2, rest);
    }
    if is_text(line, b"kat 1 equal under") {
        return read_lines(alloc, Draft::new(alloc, Style::Under), 2, rest);
    }
    if is_text(line, b"kat 1 different") {
        return read_string(alloc, rest);
    }
    Err(EvidenceFault::Header)
}

/// Reads the evidence whose text is `bytes`. Bytes that are not the text of evidence have a first fault, on the first
/// faulty line. On one line the order of checks is: form, width of numerals, order of nodes, equal nodes, order of
/// sets. The only limit is memory.
pub fn read(alloc: Global, bytes: &[u8]) -> Result<Evidence, EvidenceFault>
    // The result is evidence, and the bytes are its text.
    ensures evidence { IfOk result (λ e. IsEvidence e × (bytes.now ≡ text_of e)) }

    // The text of evidence is read as this evidence, unless memory runs out.
    ensures only { (e : Evidence) → IsEvidence e → bytes.now ≡ text_of e → Gives e result }

    // An error is the first fault of the bytes, unless memory runs out.
    ensures fault { IfErr result (λ fault. IsFault bytes.now fault) }
{
    read_all(alloc, bytes)
}
