//! The pieces of matched graphs as questions about two flow graphs.
//!
//! From each match, runs of both graphs to the next matched blocks are a piece. A piece has the same text on both sides,
//! or it becomes a question about two flow graphs of its own.
#![tactic(auto)]

mod copies;
mod exits;
mod fault;
mod interface;
mod leaves;
mod piece;
mod same;
mod same_lists;
mod side;
mod tables;
mod text;

pub use fault::MatchFault;
pub use piece::{Piece, piece_of};
pub use tables::{MatchTables, is_live_after, is_live_before, match_tables};
