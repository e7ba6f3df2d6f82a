//! Chains of equations by the axioms of Kleene algebra with tests.
//!
//! A chain turns one side of an equation into the other line by line.
#![tactic(auto)]

mod answer;
mod axioms;
mod chain;
mod checking;
mod equality;
mod fixed_points;
mod laws;
mod lines;
mod place;
mod test_terms;

pub use answer::{ChainAnswer, ChainReason};
pub use chain::{Axiom, Chain, Line};
pub use checking::check_chain;
pub use laws::chained_are_same;
