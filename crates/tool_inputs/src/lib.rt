//! The common steps of replies: from files to problems and evidence.
//!
//! A step that cannot continue stops with a reply. The traits `TextCommand`, `FileCommand` and `PairCommand` give the
//! replies to bytes and to files from one method of a command.
#![tactic(auto)]

mod evidence;
mod file_command;
mod file_problem;
mod getting;
mod pair_command;
mod reply;
mod text_command;
mod text_problem;
mod text_question;

pub use evidence::evidence_in;
pub use file_command::{FileCommand, reply_to_bytes, reply_to_file};
pub use file_problem::{abstract_for, abstract_in};
pub use getting::{file_bytes, file_text};
pub use pair_command::{PairCommand, reply_to_files, reply_to_pair};
pub use reply::{EarlyEnd, Reply, into_reply, line, refusal, unfit_end};
pub use text_command::{TextCommand, reply_to_text, reply_to_text_file};
pub use text_problem::{file_of, problem_in, text_fault_end};
pub use text_question::TextQuestion;
