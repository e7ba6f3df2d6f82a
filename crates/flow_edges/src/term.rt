//! The terms of edges.
ghost use Rattle.std.specs.Prelude.{◌≡◌, map, IfOk};
ghost use Rattle.kat_model.specs.Trees.{test, test_tree, kat_tree};
ghost use Rattle.flow_forms.specs.Comparisons.{comparison_tree};
ghost use Rattle.flow_ways.specs.CondTrees.{cond_tree};
ghost use Rattle.flow_problem.specs.EdgeTerms.{test_of_cond as test_for, edge_term as term_of};
ghost use Rattle.flow_edges.specs.EdgeViews.{flow_action, flow_edge};
ghost use Rattle.flow_edges.specs.Working.Views.{comparison_trees, AddsTerms, Makes, MakesList};
ghost use Rattle.flow_edges.specs.Working.Terms.{tests_of_conds, number_of_test, number_of_action, terms_of_action};

use crate::action::{FlowAction, is_idle};
use crate::edge::FlowEdge;
use flow_forms::FlowComparison;
use flow_ways::FlowCond;
use kat_model::{Kat, NoMemory, Test, append, place_of, seq_of};
use std::alloc::Global;

// The number of a comparison among the tests.
fn test_number(tests: &[FlowComparison], comparison: &FlowComparison) -> usize
    ensures { result ≡ number_of_test tests.now comparison.now }
{
    place_of(tests, comparison).unwrap_or(0)
}

// The number of an action among the actions.
fn action_number(actions: &[FlowAction], action: &FlowAction) -> usize
    ensures { result ≡ number_of_action actions.now action.now }
{
    place_of(actions, action).unwrap_or(0)
}

fn test_of_cond(alloc: Global, tests: &[FlowComparison], cond: &FlowCond) -> Result<Test, NoMemory>
    ensures { Makes test_tree result (test_for (comparison_trees tests.now) (cond_tree cond.now)) }
{
    match cond {
        FlowCond::Constantly(holds) => Ok(if *holds { Test::True } else { Test::False }),
        FlowCond::Atom(comparison) => Ok(Test::Prim(test_number(tests, comparison))),
        FlowCond::Negation(cond) => {
            let inner = test_of_cond(alloc, tests, cond)?;
            Test::new_not(alloc, inner)
        }
        FlowCond::Both(left, right) => {
            let left = test_of_cond(alloc, tests, left)?;
            let right = test_of_cond(alloc, tests, right)?;
            Test::new_and(alloc, left, right)
        }
        FlowCond::Either(left, right) => {
            let left = test_of_cond(alloc, tests, left)?;
            let right = test_of_cond(alloc, tests, right)?;
            Test::new_or(alloc, left, right)
        }
    }
}

// Returns the tests of conditions, in order.
fn cond_terms(
    alloc: Global,
    tests: &[FlowComparison],
    conds: &[FlowCond],
) -> Result<Vec<Kat>, NoMemory>
    ensures { MakesList kat_tree result (tests_of_conds tests.now conds.now) }
{
    let mut list = Vec::new(alloc);
    for cond in conds {
        let test = test_of_cond(alloc, tests, cond)?;
        append(&mut list, Kat::Test(test))?;
    }
    Ok(list)
}

// Appends an action, if it changes something.
fn push_action(
    actions: &[FlowAction],
    action: &FlowAction,
    list: &mut Vec<Kat>,
) -> Result<(), NoMemory>
    ensures { AddsTerms result list.old list.new (terms_of_action actions.now action.now) }
{
    if is_idle(action) {
        return Ok(());
    }
    append(list, Kat::Act(action_number(actions, action)))
}

/// Returns the term of an edge over tests and actions: its tests in order, then its action if that changes something, as
/// a balanced product. Fails only when out of memory.
pub fn edge_term(
    alloc: Global,
    tests: &[FlowComparison],
    actions: &[FlowAction],
    edge: &FlowEdge,
) -> Result<Kat, NoMemory>
    ensures { IfOk result (λ e. kat_tree e ≡ term_of (map comparison_tree tests.now) (map flow_action actions.now) (flow_edge edge.now)) }
{
    let mut list = cond_terms(alloc, tests, &edge.tests)?;
    push_action(actions, &edge.action, &mut list)?;
    seq_of(alloc, list)
}
