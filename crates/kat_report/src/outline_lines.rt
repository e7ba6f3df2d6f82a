//! The lines with the reasons why `outline` refuses a file or notes, or rejects notes.
ghost use Rattle.std.specs.Prelude.{◌≡◌, IfOk};
ghost use Rattle.kat_report.specs.OutlineLines.{not_a_triple_line, not_simple_line, notes_fault_line, note_reason_line};

use crate::writing::numbered_line;
use kat_model::NoMemory;
use outline_rules::{NoteReason, NotesFault};
use std::alloc::Global;

/// Returns the line `refused: NotATriple`: the goal is not a triple of a program.
pub fn not_a_triple_line() -> &'static [u8]
    ensures { result.now ≡ not_a_triple_line }
{
    b"refused: NotATriple\n"
}

/// Returns the line `refused: NotSimple N`: hypothesis N is not simple. Fails only when out of memory.
pub fn not_simple_line(alloc: Global, hyp: usize) -> Result<Vec<u8>, NoMemory>
    ensures { IfOk result (λ line. line.items ≡ not_simple_line hyp) }
{
    numbered_line(alloc, b"refused: NotSimple ", hyp as u64)
}

/// Returns the line with the reason why a text of notes is refused: `refused: outline WORD` with the name of the fault,
/// and a space and the line number, if the fault is in a line. The fault `NoMemory` has no line; its text is empty. Fails
/// only when out of memory.
pub fn notes_fault_line(alloc: Global, fault: NotesFault) -> Result<Vec<u8>, NoMemory>
    ensures { IfOk result (λ line. line.items ≡ notes_fault_line fault) }
{
    match fault {
        NotesFault::NoMemory => Ok(Vec::new(alloc)),
        NotesFault::Header => Ok(b"refused: outline Header\n".to_vec(alloc)?),
        NotesFault::Line(n) => numbered_line(alloc, b"refused: outline Line ", n),
        NotesFault::NodeOrder(n) => numbered_line(alloc, b"refused: outline NodeOrder ", n),
        NotesFault::DoubleNode(n) => numbered_line(alloc, b"refused: outline DoubleNode ", n),
        NotesFault::NumberTooWide(n) => {
            numbered_line(alloc, b"refused: outline NumberTooWide ", n)
        }
        NotesFault::Truncated => Ok(b"refused: outline Truncated\n".to_vec(alloc)?),
        NotesFault::Trailing(n) => numbered_line(alloc, b"refused: outline Trailing ", n),
    }
}

/// Returns the line with the reason why notes are rejected: `rejected: outline WORD N` with the name of the reason and the
/// number of the node, of the places, or of the target. Fails only when out of memory.
pub fn note_reason_line(alloc: Global, reason: NoteReason) -> Result<Vec<u8>, NoMemory>
    ensures { IfOk result (λ line. line.items ≡ note_reason_line reason) }
{
    match reason {
        NoteReason::Range(n) => numbered_line(alloc, b"rejected: outline Range ", n as u64),
        NoteReason::Count(n) => numbered_line(alloc, b"rejected: outline Count ", n as u64),
        NoteReason::Step(n) => numbered_line(alloc, b"rejected: outline Step ", n as u64),
    }
}
