//! Terms and tests as ids of a hash-consed store.
//!
//! No node occurs twice, so equal ids mean equal trees.
#![tactic(auto)]

mod laws;
mod nodes;
mod store;

pub use laws::{equal_ids_are_equal_trees, trees_by_node};
pub use nodes::{Shape, TermId, TestId, TestShape};
pub use store::Store;
