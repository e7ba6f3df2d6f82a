//! The actions of flow graphs: those of their edges that change something.
ghost use Rattle.std.specs.Prelude.{◌≡◌, ◌<◌, ◌≤◌, [], ◌++◌, map, length, vec_len, IfOk, IfErr};
ghost use Rattle.std.specs.List.{flat_map};
ghost use Rattle.kat_model.specs.declared.limits.TheConstants.{MAX_ACTIONS};
ghost use Rattle.kat_model.specs.UniqueRows.{with_all_new};
ghost use Rattle.flow_problem.specs.Edges.{is_same_action};
ghost use Rattle.flow_problem.specs.EdgeTerms.{edge_actions};
ghost use Rattle.flow_edges.specs.EdgeViews.{flow_action};
ghost use Rattle.flow_edges.specs.GraphRows.{row_edges};
ghost use Rattle.flow_edges.specs.Working.Views.{MakesList};
ghost use Rattle.flow_edges.specs.Working.Tables.{AddsAction, first_actions};

use crate::action::{FlowAction, is_idle};
use crate::edge::FlowEdge;
use crate::edge_table::{EdgeTable, add_graphs};
use crate::fault::TableFault;
use crate::rows::is_left_out;
use kat_model::{MAX_ACTIONS, NoMemory, append};
use std::alloc::Global;

// Adds an action, unless the table has it already or has too many.
fn add_action(
    alloc: Global,
    action: &FlowAction,
    rows: &mut Vec<FlowAction>,
) -> Result<(), NoMemory>
    ensures { AddsAction result rows.old rows.new (flow_action action.now) }
{
    if is_left_out(rows, MAX_ACTIONS, action) {
        return Ok(());
    }
    let row = action.copy(alloc)?;
    append(rows, row)
}

impl EdgeTable for Vec<FlowAction> {
    ghost use Rattle.std.specs.Prelude.{map};
    ghost use Rattle.kat_model.specs.declared.limits.TheConstants.{MAX_ACTIONS};
    ghost use Rattle.flow_problem.specs.Edges.{FlowActionTree, is_same_action};
    ghost use Rattle.flow_problem.specs.EdgeTerms.{edge_actions};
    ghost use Rattle.flow_edges.specs.EdgeViews.{flow_action};

    ghost Row = { FlowActionTree };

    ghost rows = { λ v. map flow_action v.items };

    ghost same = { is_same_action };

    ghost most = { MAX_ACTIONS };

    ghost edge_rows = { edge_actions };

    fn add_edge(&mut self, alloc: Global, edge: &FlowEdge) -> Result<(), NoMemory> {
        if is_idle(&edge.action) {
            return Ok(());
        }
        add_action(alloc, &edge.action, self)
    }
}

// Returns the actions of the edges of two graphs, each once; stops at `MAX_ACTIONS` + 1 of them.
fn first_rows(
    alloc: Global,
    before: &[Vec<FlowEdge>],
    after: &[Vec<FlowEdge>],
) -> Result<Vec<FlowAction>, NoMemory>
    ensures { MakesList flow_action result (first_actions before.now after.now) }
{
    let mut rows = Vec::new(alloc);
    add_graphs(alloc, before, after, &mut rows)?;
    Ok(rows)
}

/// Returns the actions of the edges of two graphs, each once, in the order in which they are met; those that change
/// nothing are left out. The edges of a graph are given for each of its places, in the order of the places. Fails with
/// `TooManyActions` exactly if there are more than `MAX_ACTIONS`.
pub fn action_rows(
    alloc: Global,
    before: &[Vec<FlowEdge>],
    after: &[Vec<FlowEdge>],
) -> Result<Vec<FlowAction>, TableFault>
    ensures made { IfOk result (λ rows. map flow_action rows.items ≡ with_all_new is_same_action [] (flat_map edge_actions (flat_map row_edges before.now ++ flat_map row_edges after.now))) }
    ensures few { IfOk result (λ rows. vec_len rows ≤ MAX_ACTIONS) }
    ensures many { IfErr result (λ f. f ≡ TableFault.TooManyActions → MAX_ACTIONS < length (with_all_new is_same_action [] (flat_map edge_actions (flat_map row_edges before.now ++ flat_map row_edges after.now)))) }
    ensures actions_alone { IfErr result (λ f. f ≡ TableFault.TooManyTests → ⊥) }
{
    let rows = first_rows(alloc, before, after)?;
    if rows.len() > MAX_ACTIONS {
        return Err(TableFault::TooManyActions);
    }
    Ok(rows)
}
