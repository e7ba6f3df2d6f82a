//! The rules of proof outlines, and a checker of notes by them.
//!
//! An outline is an annotated program as a proof of a Hoare triple. The checker decides whether notes follow by the
//! rules, and finds none. The notes of an outline are one set of atoms for each place of a program, as branching nodes,
//! and have a text. The checker uses diagrams over two copies of the tests, one for the atom before a step and one for
//! the atom after it, and the diagrams of what hypotheses allow.
#![tactic(auto)]

mod answer;
mod checking;
mod checks;
mod draft;
mod fault;
mod hypotheses;
mod laws;
mod line;
mod moments;
mod note_laws;
mod notes;
mod reading;
mod steps;
mod task;
mod writing;

pub use answer::{NoteAnswer, NoteReason};
pub use checking::check_notes;
pub use fault::NotesFault;
pub use hypotheses::{allowed_atoms, ruled_out_steps};
pub use laws::{follows_is_same, reasons_are_against};
pub use moments::Moment;
pub use note_laws::{faults_are_first, is_text_or_faulty, lines_have_one_spelling, texts_differ};
pub use notes::{NoteNode, Notes};
pub use reading::read_notes;
pub use steps::StepDiagrams;
pub use task::Task;
pub use test_diagrams::DiagramId;
pub use writing::write_notes;
