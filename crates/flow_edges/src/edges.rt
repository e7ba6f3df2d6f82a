//! The edges from a place, from its ways.
ghost use Rattle.std.specs.Prelude.{◌≡◌, ◌<◌, ◌≤◌, [], true, false, map, slice_index_or, IfOk, IfErr};
ghost use Rattle.flow_model.specs.Polish.{graph_of};
ghost use Rattle.flow_ways.specs.Ways.{ways as ways_of};
ghost use Rattle.flow_ways.specs.ActionTrees.{set_tree};
ghost use Rattle.flow_ways.specs.Outcomes.{all_ways};
ghost use Rattle.flow_ways.specs.WayTrees.{end_tree, way_tree};
ghost use Rattle.flow_ways.specs.declared.limits.TheConstants.{MAX_WAYS};
ghost use Rattle.flow_problem.specs.Edges.{edge_of as edge_for, end_target as target_of_end};
ghost use Rattle.flow_edges.specs.EdgeViews.{flow_action, flow_edge};
ghost use Rattle.flow_edges.specs.EdgeTables.{table_marks};
ghost use Rattle.flow_edges.specs.Working.Views.{Makes, MakesList};
ghost use Rattle.flow_edges.specs.Working.WayEdges.{assignment_at_block, edges_of_ways, action_of_end};

use crate::action::FlowAction;
use crate::edge::FlowEdge;
use flow_forms::FlowForm;
use flow_model::{Block, Sort};
use flow_ways::{Way, WayEnd, WayFault, action_of, ways};
use kat_model::{NoMemory, append};
use std::alloc::Global;

// Returns the parallel assignment of a way that ends at a block with forms of the variables.
fn assignment_at(
    alloc: Global,
    sorts: &[Sort],
    live: &[Vec<bool>],
    block: usize,
    forms: &[FlowForm],
) -> Result<Vec<Option<FlowForm>>, NoMemory>
    ensures { MakesList set_tree result (assignment_at_block sorts.now live.now block forms.now) }
{
    match live.get(block) {
        Some(row) => action_of(alloc, row, sorts, forms),
        None => action_of(alloc, &[], sorts, forms),
    }
}

// Returns the action of the end of a way.
fn end_action(
    alloc: Global,
    sorts: &[Sort],
    live: &[Vec<bool>],
    end: WayEnd,
) -> Result<FlowAction, NoMemory>
    ensures { Makes flow_action result (action_of_end sorts.now live.now end) }
{
    match end {
        WayEnd::AtPlace(block, forms) => Ok(FlowAction::Assigned(assignment_at(
            alloc, sorts, live, block, &forms,
        )?)),
        WayEnd::AtReturn(results) => Ok(FlowAction::Given(results)),
    }
}

// Returns the block of the place at the end of a way.
fn end_target(end: &WayEnd) -> Option<usize>
    ensures { result ≡ target_of_end (end_tree end.now) }
{
    match end {
        WayEnd::AtPlace(block, _) => Some(*block),
        WayEnd::AtReturn(_) => None,
    }
}

fn edge_of(
    alloc: Global,
    sorts: &[Sort],
    live: &[Vec<bool>],
    way: Way,
) -> Result<FlowEdge, NoMemory>
    ensures { Makes flow_edge result (edge_for (table_marks [] live.now) sorts.now (way_tree way)) }
{
    let Way { tests, end } = way;
    let target = end_target(&end);
    let action = end_action(alloc, sorts, live, end)?;
    Ok(FlowEdge {
        tests,
        action,
        target,
    })
}

fn edges_of(
    alloc: Global,
    sorts: &[Sort],
    live: &[Vec<bool>],
    list: Vec<Way>,
) -> Result<Vec<FlowEdge>, NoMemory>
    ensures { MakesList flow_edge result (edges_of_ways sorts.now live.now list) }
{
    let mut edges = Vec::new(alloc);
    for way in list {
        append(&mut edges, edge_of(alloc, sorts, live, way)?)?;
    }
    Ok(edges)
}

/// Returns the edges from a place: its ways, in the order of a depth-first walk that takes the first target of a branch
/// first, each with the parallel assignment of the variables that are live where it ends. `places` says for each block
/// whether it is a place, `live` which variables are live there. Fails with `TooLarge` or `TooManyPaths` if a form on a
/// way is too large, or if there are more than `MAX_WAYS` ways, those that abort included; one of them is named if both
/// hold.
pub fn edges_from(
    alloc: Global,
    blocks: &[Block],
    sorts: &[Sort],
    places: &[bool],
    live: &[Vec<bool>],
    block: usize,
) -> Result<Vec<FlowEdge>, WayFault>
    ensures found { IfOk result (λ list. map flow_edge list.items ≡ map (edge_for (table_marks places.now live.now) sorts.now) (ways_of (graph_of blocks.now) sorts.now (λ l. slice_index_or places.now l false) block)) }
    ensures few { IfOk result (λ _. (all_ways blocks.now sorts.now (λ l. slice_index_or places.now l false) block).count ≤ MAX_WAYS) }
    ensures fits { IfOk result (λ _. (all_ways blocks.now sorts.now (λ l. slice_index_or places.now l false) block).fits ≡ true) }
    ensures large { IfErr result (λ e. e ≡ WayFault.TooLarge → (all_ways blocks.now sorts.now (λ l. slice_index_or places.now l false) block).fits ≡ false) }
    ensures many { IfErr result (λ e. e ≡ WayFault.TooManyPaths → MAX_WAYS < (all_ways blocks.now sorts.now (λ l. slice_index_or places.now l false) block).count) }
{
    let list = ways(alloc, blocks, sorts, places, block)?;
    Ok(edges_of(alloc, sorts, live, list)?)
}
