//! Reading notes.
ghost use Rattle.std.specs.Prelude.{◌≡◌, IfOk, IfErr};
ghost use Rattle.outline_rules.specs.NoteLists.{NotesParts};
ghost use Rattle.outline_rules.specs.Texts.{text_of, AreNarrowNotes};
ghost use Rattle.outline_rules.specs.Faults.{answer_of};
ghost use Rattle.outline_rules.specs.Readings.{IsFault, Gives};
ghost use Rattle.outline_rules.specs.Working.Readings.{Reads};

use crate::draft::Draft;
use crate::fault::NotesFault;
use crate::notes::Notes;
use line_format::{first_line, read_lines};
use std::alloc::Global;

fn read_all(alloc: Global, bytes: &[u8]) -> Result<Notes, NotesFault>
    ensures { Reads (answer_of bytes.now) result }
{
    let Some((line, rest)) = first_line(bytes) else {
        return Err(NotesFault::Truncated);
    };
    if line == b"kat 1 outline".as_slice() {
        return read_lines(alloc, Draft::new(alloc), 2, rest);
    }
    Err(NotesFault::Header)
}

/// Reads notes from their text. Bytes that are not the text of notes have a first fault, that of the first line with an
/// error. On one line the checks are, in this order: form, width of numerals, order of nodes, equal nodes. There is no
/// limit except memory.
pub fn read_notes(alloc: Global, bytes: &[u8]) -> Result<Notes, NotesFault>
    // `bytes` is the text of the notes read.
    ensures notes { IfOk result (λ n. AreNarrowNotes n × (bytes.now ≡ text_of n)) }

    // The text of notes is read as these notes, unless memory runs out.
    ensures only { (n : NotesParts) → AreNarrowNotes n → bytes.now ≡ text_of n → Gives n result }

    // An error is the first fault of `bytes`, unless memory runs out.
    ensures fault { IfErr result (λ fault. IsFault bytes.now fault) }
{
    read_all(alloc, bytes)
}
