//! Reads and writes texts of lines: their lines, words and numerals.
#![tactic(auto)]

mod lines;
mod numbered;
mod numerals;
mod writing;

pub use lines::{first_line, words_of};
pub use numbered::{LineDraft, read_lines};
pub use numerals::{Numbers, is_numeral, number_of, read_numbers};
pub use writing::{put_form, put_line, put_number, put_numbers};
