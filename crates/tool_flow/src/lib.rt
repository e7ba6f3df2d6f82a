//! The reply of `flow`: two flow graphs as a problem file.
#![tactic(auto)]

mod fault;
mod flow;
mod printable;

pub use flow::{FlowCommand, flow_bytes};
