//! The problem of two flow graphs as a file with comments.
//!
//! The comments give the comparison of each test, the assignment of each action, and the reason for each hypothesis.
#![tactic(auto)]

mod actions;
mod comparisons;
mod forms;
mod laws;
mod limits;
mod names;
mod numbers;
mod reasons;
mod rows;
mod text;
mod writing;

pub use laws::flow_texts_read_back;
pub use limits::MAX_SHOWN_NODES;
pub use names::FlowNames;
pub use text::flow_text;
