//! The axioms of Kleene algebra with tests are sound and complete.
//!
//! Both sides of a problem are the same exactly where a chain of equations by the axioms and the hypotheses leads from one
//! to the other. What has a chain holds in every Kleene algebra with tests in which the hypotheses are 0.
#![tactic(auto)]

mod algebras;
mod laws;

pub use algebras::Interprets;
pub use laws::{chains_hold_in_algebras, same_accept_alike, same_have_chains};
