//! Edges split by tests of cells.
ghost use Rattle.std.specs.Prelude.{◌≡◌, ◌≤◌, ◌<◌, ◌∷◌, [], IfOk, IfErr, map, length, Option};
ghost use Rattle.flow_forms.specs.Comparisons.{comparison_tree};
ghost use Rattle.flow_ways.specs.Conditions.{atom, negation};
ghost use Rattle.flow_ways.specs.CondTrees.{cond_tree};
ghost use Rattle.flow_edges.specs.EdgeViews.{flow_action, flow_edge};
ghost use Rattle.flow_ways.specs.declared.limits.TheConstants.{MAX_WAYS as MOST};
ghost use Rattle.flow_problem.specs.Splits.{cell_tests as tests_of, split_edges as all_split};
ghost use Rattle.flow_edges.specs.Numbers.{with_action};
ghost use Rattle.flow_edges.specs.Working.Views.{AddsEdges, AddsConds, Makes, MakesList};
ghost use Rattle.flow_edges.specs.Working.Splitting.{IsNumbered, edges_by, where_holds, where_fails, both_edges, edges_by_value, split_by_test, split_all, TooManyOnlyIf};

mod cell;
mod cell_test;
mod known;
mod number;
mod number_action;
pub(crate) mod split_fault;

use crate::action::FlowAction;
use crate::edge::FlowEdge;
use crate::splits::cell_test::{CellTest, cell_tests};
use crate::splits::known::value_by_tests;
use crate::splits::number::{Split, variables_with};
use crate::splits::number_action::number_action;
use crate::splits::split_fault::SplitFault;
use flow_forms::FlowComparison;
use flow_model::Sort;
use flow_ways::{FlowCond, MAX_WAYS, copy_conds};
use kat_model::{NoMemory, append};
use std::alloc::Global;

#[tactic(auto, using(flow_ways::proofs::CourseLists::map_pushed))]
fn push_edge(list: &mut Vec<FlowEdge>, edge: FlowEdge) -> Result<(), NoMemory>
    ensures { AddsEdges result list.old list.new (flow_edge edge ∷ []) }
{
    append(list, edge)
}

#[tactic(auto, using(flow_ways::proofs::CourseLists::map_pushed))]
fn push_test(list: &mut Vec<FlowCond>, test: FlowCond) -> Result<(), NoMemory>
    ensures { AddsConds result list.old list.new (cond_tree test ∷ []) }
{
    append(list, test)
}

// Returns the condition that a comparison does not hold.
fn opposite_of(alloc: Global, comparison: &FlowComparison) -> Result<FlowCond, NoMemory>
    ensures { IfOk result (λ b. cond_tree b ≡ negation (atom (comparison_tree comparison.now))) }
{
    let same = FlowCond::Atom(comparison.copy(alloc)?);
    Ok(FlowCond::Negation(Box::new(alloc, same)?))
}

// Returns a copy of an edge where a comparison holds too, with an action in place of its own.
fn where_equal(
    alloc: Global,
    comparison: &FlowComparison,
    edge: &FlowEdge,
    action: FlowAction,
) -> Result<FlowEdge, NoMemory>
    ensures { Makes flow_edge result (where_holds comparison.now action edge.now) }
{
    let holds = FlowCond::Atom(comparison.copy(alloc)?);
    let mut tests = copy_conds(alloc, &edge.tests)?;
    push_test(&mut tests, holds)?;
    Ok(FlowEdge {
        tests,
        action,
        target: edge.target,
    })
}

// Returns an edge where a comparison does not hold.
#[tactic(auto, using(crate::proofs::SplitLists::more_tests))]
fn where_other(
    alloc: Global,
    comparison: &FlowComparison,
    edge: FlowEdge,
) -> Result<FlowEdge, NoMemory>
    ensures { Makes flow_edge result (where_fails comparison.now edge) }
{
    let fails = opposite_of(alloc, comparison)?;
    let FlowEdge {
        tests,
        action,
        target,
    } = edge;
    let mut tests = tests;
    push_test(&mut tests, fails)?;
    Ok(FlowEdge {
        tests,
        action,
        target,
    })
}

// Appends both ways of an edge: with a test and an action, and with the opposite of the test.
#[tactic(auto, using(crate::proofs::SplitLists::both_pushed))]
fn push_both(
    alloc: Global,
    comparison: &FlowComparison,
    edge: FlowEdge,
    action: FlowAction,
    list: &mut Vec<FlowEdge>,
) -> Result<(), NoMemory>
    ensures { AddsEdges result list.old list.new (both_edges comparison.now action edge) }
{
    let equal = where_equal(alloc, comparison, &edge, action)?;
    push_edge(list, equal)?;
    let other = where_other(alloc, comparison, edge)?;
    push_edge(list, other)
}

// Returns an edge with another action.
#[tactic(auto, using(crate::proofs::SplitLists::no_tests))]
fn with_other_action(edge: FlowEdge, action: FlowAction) -> FlowEdge
    ensures { flow_edge result ≡ with_action [] (flow_action action) (flow_edge edge) }
{
    let FlowEdge { tests, target, .. } = edge;
    FlowEdge {
        tests,
        action,
        target,
    }
}

// Appends what an edge becomes by what its tests say of a comparison.
fn push_known(
    alloc: Global,
    comparison: &FlowComparison,
    known: Option<bool>,
    edge: FlowEdge,
    action: FlowAction,
    list: &mut Vec<FlowEdge>,
) -> Result<(), NoMemory>
    ensures { AddsEdges result list.old list.new (edges_by_value comparison.now action edge known) }
{
    match known {
        None => push_both(alloc, comparison, edge, action, list),
        Some(true) => push_edge(list, with_other_action(edge, action)),
        Some(false) => push_edge(list, edge),
    }
}

// Appends the edges that an edge is split into.
#[tactic(auto, using(crate::proofs::Numbered::whole_edge, crate::proofs::Numbered::known_edges))]
fn push_split(
    alloc: Global,
    split: &Split,
    edge: FlowEdge,
    list: &mut Vec<FlowEdge>,
) -> Result<(), NoMemory>
    requires { IsNumbered split.now }
    ensures { AddsEdges result list.old list.new (edges_by split.now edge) }
{
    match number_action(alloc, split, &edge.action)? {
        None => push_edge(list, edge),
        Some(action) => {
            let known = value_by_tests(&edge.tests, &split.test.comparison);
            push_known(alloc, &split.test.comparison, known, edge, action, list)
        }
    }
}

// Splits edges by one test.
fn split_once(
    alloc: Global,
    sorts: &[Sort],
    test: &CellTest,
    edges: Vec<FlowEdge>,
) -> Result<Vec<FlowEdge>, NoMemory>
    ensures { MakesList flow_edge result (split_by_test sorts.now test.now edges) }
{
    let variables = variables_with(alloc, sorts, test)?;
    let split = Split {
        sorts,
        test,
        variables,
    };
    let mut list = Vec::new(alloc);
    for edge in edges {
        push_split(alloc, &split, edge, &mut list)?;
    }
    Ok(list)
}

// Splits edges by each of the tests in turn.
#[cycle(split_by)]
#[tactic(auto, using(crate::proofs::SplitCounts::splits_grow, flow_ways::proofs::CourseLists::mapped_length))]
fn split_by(
    alloc: Global,
    sorts: &[Sort],
    tests: &[CellTest],
    edges: Vec<FlowEdge>,
) -> Result<Vec<FlowEdge>, SplitFault>
    ensures found { MakesList flow_edge result (split_all sorts.now tests.now edges) }
    ensures few { IfOk result (λ list. length (map flow_edge list.items) ≤ MOST) }
    ensures many { TooManyOnlyIf result (split_all sorts.now tests.now edges) }
{
    if edges.len() as u64 > MAX_WAYS {
        return Err(SplitFault::TooManyPaths);
    }
    match tests {
        [] => Ok(edges),
        [test, rest @ ..] => split_by_from(alloc, sorts, test, rest, edges),
    }
}

#[cycle(split_by)]
fn split_by_from(
    alloc: Global,
    sorts: &[Sort],
    test: &CellTest,
    rest: &[CellTest],
    edges: Vec<FlowEdge>,
) -> Result<Vec<FlowEdge>, SplitFault>
    ensures found { MakesList flow_edge result (split_all sorts.now (test.now ∷ rest.now) edges) }
    ensures few { IfOk result (λ list. length (map flow_edge list.items) ≤ MOST) }
    ensures many { TooManyOnlyIf result (split_all sorts.now (test.now ∷ rest.now) edges) }
{
    let edges = split_once(alloc, sorts, test, edges)?;
    split_by(alloc, sorts, rest, edges)
}

/// Returns the edges from a place, split by each of the tests that says that a cell is a number, in their order. An edge
/// is split if its action reads the cell and its tests do not say whether the test holds: into the edge with the test,
/// whose action has the number in the place of the cell, and the edge with the opposite of the test. If its tests say
/// that the test holds, the action has the number; if they say that it does not, the edge stays. It stays too where a
/// form would become too large. Fails with `TooManyPaths` exactly if there would be more than `MAX_WAYS` edges.
pub fn split_edges(
    alloc: Global,
    sorts: &[Sort],
    tests: &[FlowComparison],
    edges: Vec<FlowEdge>,
) -> Result<Vec<FlowEdge>, SplitFault>
    ensures found { IfOk result (λ list. map flow_edge list.items ≡ all_split sorts.now (tests_of sorts.now (map comparison_tree tests.now)) (map flow_edge edges.items)) }
    ensures few { IfOk result (λ list. length (map flow_edge list.items) ≤ MOST) }
    ensures many { IfErr result (λ e. e ≡ SplitFault.TooManyPaths → MOST < length (all_split sorts.now (tests_of sorts.now (map comparison_tree tests.now)) (map flow_edge edges.items))) }
{
    let tests = cell_tests(alloc, sorts, tests)?;
    split_by(alloc, sorts, &tests, edges)
}
