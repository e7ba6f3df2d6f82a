//! Edges between places.
use crate::action::FlowAction;
use flow_ways::FlowCond;

/// A way from a place: its tests in order, the action that ends it, and the block of the place that it leads to, or
/// `None` where it leads to the end of the graph.
#[derive(Drop)]
pub struct FlowEdge {
    pub tests: Vec<FlowCond>,
    pub action: FlowAction,
    pub target: Option<usize>,
}
