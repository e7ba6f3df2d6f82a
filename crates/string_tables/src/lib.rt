//! Guarded strings, finite tables, and what a term relates in them.
//!
//! A table is evaluated state by state, and a string is read in passes over it. Functions that return a `Result` fail
//! only when out of memory.
#![tactic(auto)]

mod bench;
mod broken;
mod evaluation;
mod finding;
mod first_parts;
mod following;
mod laws;
mod leaves;
mod levels;
mod marks;
mod matrix;
mod operations;
mod shape;
mod string;
mod table;

pub use bench::Bench;
pub use finding::{Finding, refutes, verdict};
pub use laws::{has_one_finding, refuted_are_not_same, refutes_by_closed, relates_by_parts};
pub use string::{GString, Move};
pub use table::{Step, Table, table_of};
