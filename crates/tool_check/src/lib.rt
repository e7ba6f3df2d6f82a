//! The replies of `check`, `replay` and `chain`.
//!
//! They check evidence and proofs from any source. No dependency of this crate is a prover.
#![tactic(auto)]

mod chain;
mod check;
mod replay;

pub use chain::{ChainCommand, chain_bytes};
pub use check::{CheckCommand, check_bytes};
pub use replay::{ReplayCommand, replay_bytes};
