//! Reads and checks LRAT proofs that clauses have no satisfying assignment.
//!
//! Each line of a proof adds a clause that follows by unit propagation, or deletes clauses (Cruz-Filipe, Heule, Hunt,
//! Kaufmann and Schneider-Kamp, *Efficient certified RAT verification*, 2017).
#![tactic(auto)]

mod answer;
mod checking;
mod cnf;
mod cnf_text;
mod copies;
mod falses;
mod fault;
mod known;
mod laws;
mod literal;
mod proof;
mod proof_text;
mod propagation;
mod status;
mod words;

pub use answer::{Answer, Reason};
pub use checking::check;
pub use cnf::Cnf;
pub use cnf_text::read_clauses;
pub use fault::{CnfFault, ProofFault};
pub use laws::accepted_are_unsatisfiable;
pub use literal::{Clause, Literal, MAX_VARIABLE};
pub use proof::{Ids, Line, Proof};
pub use proof_text::read_proof;
