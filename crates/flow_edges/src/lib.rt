//! The ways of a flow graph as edges, and its term.
//!
//! Each way from a place is an edge, with its tests, the action that ends it, and the place that it leads to. The tests
//! and actions of the edges have tables, and the graphs have terms over them. Edges are split by the tests that say
//! that a cell is a number.
#![tactic(auto)]

mod action;
mod actions;
mod comparisons;
mod edge;
mod edge_table;
mod edges;
mod fault;
mod graph;
mod rows;
mod splits;
mod term;

pub use action::FlowAction;
pub use actions::action_rows;
pub use comparisons::test_rows;
pub use edge::FlowEdge;
pub use edges::edges_from;
pub use fault::TableFault;
pub use graph::graph_term;
pub use splits::split_edges;
pub use splits::split_fault::SplitFault;
pub use term::edge_term;
