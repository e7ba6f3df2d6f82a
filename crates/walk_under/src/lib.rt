//! The walk over pairs under tests, and which short hypotheses it counts.
#![tactic(auto)]

mod counting;
mod deciding;
mod laws;
mod smoothing;
mod walk;

pub use deciding::{decide_under, is_same_under};
pub use laws::{ended_walks_are_accepted, merged_pairs_are_few, walk_goes_on, walks_are_few};
