//! Reads the texts of equational proofs as chains.
//!
//! The crate below checks them.
#![tactic(auto)]

mod chain_reading;
mod laws;
mod making;
mod reading;
mod scan;
mod walk;
mod words;

pub use chain_rules::{
    Axiom, Chain, ChainAnswer, ChainReason, Line, chained_are_same, check_chain,
};
pub use laws::{chains_are_made, chains_are_scanned, have_one_answer};
pub use reading::read_chain;
