//! Symbolic derivatives of sets of terms, as decision diagrams over tests.
//!
//! What a set accepts and where it moves (Antimirov, *Partial derivatives of regular expressions*, 1996; Pous, *Symbolic
//! algorithms for language equivalence and Kleene algebra with tests*, 2015).
#![tactic(auto)]

mod derivatives;
mod forms;
mod gathered;
mod laws;
mod moves;
mod sets;

pub use derivatives::{Derivatives, step};
pub use laws::derivatives_stay_right;
pub use moves::{Guarded, Steps};
