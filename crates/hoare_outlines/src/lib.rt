//! Finds the notes of a Hoare triple that holds.
//!
//! An outline is the proof of a triple in its usual form, with a note at every place of the program. The rules, their
//! checker and the text of notes are in `outline_rules`, and the meaning of hypotheses is in `goal_forms`.
#![tactic(auto)]

mod finding;
mod noting;

pub use finding::outline;
pub use goal_forms::not_simple;
pub use outline_rules::{
    NoteAnswer, NoteNode, NoteReason, Notes, NotesFault, Task, check_notes, follows_is_same,
    read_notes, reasons_are_against, write_notes,
};
