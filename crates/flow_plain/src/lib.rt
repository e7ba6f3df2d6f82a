//! Plainest texts of flow graphs, which are read as these graphs.
#![tactic(auto)]

mod laws;

pub use laws::plain_graphs_read_back;
