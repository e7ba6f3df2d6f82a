//! Matched places of two flow graphs, and that pieces are enough.
//!
//! A match pairs a block of each graph and says how the states there are related. From each match, runs of both graphs to
//! the next matched blocks are a piece. If all pieces hold, both graphs always return the same. A piece is also a question
//! about two flow graphs of its own.
#![tactic(auto)]

mod laws;

pub use laws::{agreed_pieces_are_enough, matched_graphs_agree, pieces_are_enough};
