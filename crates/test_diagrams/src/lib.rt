//! Boolean functions of tests as reduced ordered binary decision diagrams.
//!
//! Source: Bryant, *Graph-based algorithms for Boolean function manipulation*, 1986.
#![tactic(auto)]

mod diagrams;
mod laws;

pub use diagrams::{DiagramId, Diagrams};
pub use laws::equal_ids_are_equal_functions;
