//! The reply of `explain`: evidence in the words of its file.
//!
//! No dependency of this crate is a prover. Where a program over tests and actions is after a string is the residual of
//! the program along the string (the derivatives of guarded programs: Smolka, Foster, Hsu, Kappé, Kozen and Silva
//! 2020), with the paths of its statements.
#![tactic(auto)]

mod certificates;
mod cursor;
mod explain;
mod laws;
mod place;
mod shown;
mod sides;
mod signed;
mod states;
mod used;
mod walking;

pub use explain::{ExplainCommand, explain_bytes};
pub use laws::{accepted_strings_end, places_are_statements};
pub use place::{Place, place_of};
pub use shown::ShownFile;
