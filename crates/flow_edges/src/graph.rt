//! The terms of graphs over their places.
ghost use Rattle.std.specs.Prelude.{◌≡◌, ◌<◌, ◌-◌, [], ℕ, List, map, length, true, false, IfOk, IfErr};
ghost use Rattle.kat_model.specs.Trees.{kat_tree};
ghost use Rattle.flow_forms.specs.Comparisons.{comparison_tree};
ghost use Rattle.flow_problem.specs.Edges.{Edge};
ghost use Rattle.flow_problem.specs.EdgeTerms.{graph_term as term_of_graph};
ghost use Rattle.flow_places.specs.Rows.{row_tree, rows_fit};
ghost use Rattle.flow_edges.specs.EdgeViews.{flow_action, flow_edge};
ghost use Rattle.flow_edges.specs.GraphRows.{row_edges, leads_to as has_target, edge_rows};
ghost use Rattle.flow_edges.specs.Working.Views.{AddsTerms, Makes, MakesList};
ghost use Rattle.flow_edges.specs.Working.Terms.{terms_to, sum_to, row_from, rows_from, steps_from};

use crate::action::FlowAction;
use crate::edge::FlowEdge;
use crate::term::edge_term;
use flow_forms::FlowComparison;
use flow_places::{Row, TermFault, eliminated};
use kat_model::{Kat, NoMemory, append, sum_of};
use std::alloc::Global;

// Returns whether an edge leads to a block, or to the end.
fn leads_to(edge: &FlowEdge, target: Option<usize>) -> bool
    ensures { result ≡ has_target target (flow_edge edge.now).target }
{
    match (target, edge.target) {
        (None, None) => true,
        (Some(block), Some(other)) => other == block,
        _ => false,
    }
}

// Appends the term of an edge, if it leads to a block, or to the end.
fn push_edge(
    alloc: Global,
    tests: &[FlowComparison],
    actions: &[FlowAction],
    edge: &FlowEdge,
    target: Option<usize>,
    list: &mut Vec<Kat>,
) -> Result<(), NoMemory>
    ensures { AddsTerms result list.old list.new (terms_to target tests.now actions.now edge.now) }
{
    if !leads_to(edge, target) {
        return Ok(());
    }
    let term = edge_term(alloc, tests, actions, edge)?;
    append(list, term)
}

// Returns the sum of the edges that lead to a block, or to the end.
fn edges_term(
    alloc: Global,
    tests: &[FlowComparison],
    actions: &[FlowAction],
    edges: &[FlowEdge],
    target: Option<usize>,
) -> Result<Kat, NoMemory>
    ensures { Makes kat_tree result (sum_to target tests.now actions.now edges.now) }
{
    let mut list = Vec::new(alloc);
    for edge in edges {
        push_edge(alloc, tests, actions, edge, target, &mut list)?;
    }
    sum_of(alloc, list)
}

// Returns the terms of the edges to the places, the last one first.
fn steps_of(
    alloc: Global,
    tests: &[FlowComparison],
    actions: &[FlowAction],
    places: &[usize],
    edges: &[FlowEdge],
) -> Result<Vec<Kat>, NoMemory>
    ensures { MakesList kat_tree result (steps_from tests.now actions.now places.now edges.now) }
{
    let mut steps = Vec::new(alloc);
    for place in places.iter().rev() {
        let term = edges_term(alloc, tests, actions, edges, Some(*place))?;
        append(&mut steps, term)?;
    }
    Ok(steps)
}

fn row_of(
    alloc: Global,
    tests: &[FlowComparison],
    actions: &[FlowAction],
    places: &[usize],
    edges: &[FlowEdge],
) -> Result<Row, NoMemory>
    ensures { Makes row_tree result (row_from tests.now actions.now places.now edges.now) }
{
    let steps = steps_of(alloc, tests, actions, places, edges)?;
    let end = edges_term(alloc, tests, actions, edges, None)?;
    Ok(Row { steps, end })
}

// Returns the rows of the places, the last one first.
fn rows_of(
    alloc: Global,
    tests: &[FlowComparison],
    actions: &[FlowAction],
    places: &[usize],
    list: &[Vec<FlowEdge>],
) -> Result<Vec<Row>, NoMemory>
    ensures { MakesList row_tree result (rows_from tests.now actions.now places.now list.now) }
{
    let mut rows = Vec::new(alloc);
    for edges in list.iter().rev() {
        append(&mut rows, row_of(alloc, tests, actions, places, edges)?)?;
    }
    Ok(rows)
}

/// Returns the term of a graph over tests and actions. `places` are the blocks of its places, the entry first, and
/// `edges` has the edges from each of them, in the same order. Places are eliminated from the last to the second.
/// Fails with `TooLarge` exactly if after some place the terms between the others have more than `MAX_TERM_NODES` nodes
/// together.
pub fn graph_term(
    alloc: Global,
    tests: &[FlowComparison],
    actions: &[FlowAction],
    places: &[usize],
    edges: &[Vec<FlowEdge>],
) -> Result<Kat, TermFault>
    // The edges from each place make the term of the graph; where there is no place, there is no edge.
    ensures made { IfOk result (λ e. (from : ℕ → List Edge) → (places.now ≡ [] → from 0 ≡ []) → map row_edges edges.now ≡ map from places.now → kat_tree e ≡ term_of_graph (map comparison_tree tests.now) (map flow_action actions.now) places.now from) }
    ensures fits { IfOk result (λ _. rows_fit (length edges.now - 1) (edge_rows (map comparison_tree tests.now) (map flow_action actions.now) places.now (map row_edges edges.now)) ≡ true) }
    ensures refused { IfErr result (λ f. f ≡ TermFault.TooLarge → rows_fit (length edges.now - 1) (edge_rows (map comparison_tree tests.now) (map flow_action actions.now) places.now (map row_edges edges.now)) ≡ false) }
{
    let rows = rows_of(alloc, tests, actions, places, edges)?;
    eliminated(alloc, rows)
}
