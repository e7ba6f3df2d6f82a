//! Prints terms, conditions and expressions, and appends words and numbers.
#![tactic(auto)]

mod laws;
mod print;
mod writing;

pub use laws::printed_reads_back;
pub use print::{name_of, print_cond, print_expr, print_term, put_name, put_test};
pub use writing::{put, put_number, put_numbered, put_word};
