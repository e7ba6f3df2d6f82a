//! The checker of evidence; it depends on no part of a prover.
//!
//! The crates that it shares with a prover are below both: terms and their steps (`kat_model`), the closed sides of a
//! problem and which hypotheses are short (`goal_forms`), guarded strings and their tables (`string_tables`), nodes of
//! terms (`term_nodes`), and certificates and their acceptance (`certificate`).
//!
//! The checker traverses a certificate in its own order: the ranges of its nodes, its first pair, and then, for the
//! outputs and for each action, each pair. It checks a pair by cases on the tests of an atom and, in the style of
//! tests, of the atom after a move. The terms that steps lead to are numbers of one table (`Tables`), so long chains and
//! shared nodes cost neither stack nor the size of the trees. The table has the tests that are true where a term accepts
//! and where a step leads from it to another term (symbolic partial derivatives: Antimirov 1996; with tests Pous 2015).
#![tactic(auto)]

mod answer;
mod cases;
mod checking;
mod derivatives;
mod first_pairs;
mod index;
mod known;
mod laws;
mod matching;
mod moves;
mod pass;
mod places;
mod queried;
mod question;
mod range;
mod relevant;
mod saturation;
mod sides;
mod tables;
mod waiting;

pub use answer::{Answer, Reason};
pub use checking::check;
pub use laws::{has_one_answer, shown_is_so};
