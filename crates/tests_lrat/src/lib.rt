//! Tests of the checker of LRAT proofs.
#![tactic(auto)]

#[cfg(test)]
mod proofs;
