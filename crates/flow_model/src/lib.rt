//! Flow graphs: blocks and jumps over values, with unknown functions.
//!
//! The values are of several sorts, and nothing is known of the functions.
#![tactic(auto)]

mod block_match;
mod conversion;
mod graph;
mod laws;
mod sort;

pub use block_match::{BlockMatch, Equation};
pub use conversion::convert_number;
pub use graph::{Block, CondNode, ExprNode, Jump, Statement};
pub use laws::{runs_are_determined, signed_comparisons};
pub use sort::Sort;
