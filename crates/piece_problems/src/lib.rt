//! The problem of each piece of matched graphs.
#![tactic(auto)]

mod graphs;
mod laws;
mod problem;

pub use graphs::MatchedGraphs;
pub use laws::same_pieces_agree;
pub use problem::PieceProblem;
