//! The lines and texts that the program prints.
#![tactic(auto)]

mod abstract_refusal;
mod accepted;
mod answer;
mod evidence;
mod forms;
mod hyps;
mod input_lines;
mod outline_lines;
mod paths;
mod reason;
mod refusal;
mod replay;
mod rows;
mod run_text;
mod show;
mod writing;

pub use abstract_refusal::abstract_fault_line;
pub use accepted::{accepted_line, accepted_outline_line};
pub use answer::json_report;
pub use evidence::evidence_fault_line;
pub use input_lines::{too_long_line, unread_line, words_line};
pub use outline_lines::{not_a_triple_line, not_simple_line, note_reason_line, notes_fault_line};
pub use paths::put_path;
pub use reason::{no_string_line, reason_line};
pub use refusal::{put_fault, text_fault_line};
pub use replay::replay_text;
pub use run_text::outcome_line;
pub use show::show_text;
pub use writing::numbered_line;
