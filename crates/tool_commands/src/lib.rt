//! The words of a command line, and their meaning in a file.
#![tactic(auto)]

mod numbers;
mod program_words;
mod store_words;
mod words;

pub use numbers::ProblemCount;
pub use program_words::program_of;
pub use store_words::store_of;
pub use words::{Command, DEFAULT_STEPS, Words};
