//! Tables of what edges have, to which the edges of two graphs are added in turn.
ghost use Rattle.std.specs.Prelude.{◌≡◌, ◌++◌, map, OnOk};
ghost use Rattle.std.specs.List.{flat_map};
ghost use Rattle.kat_model.specs.UniqueRows.{with_all_new_within};
ghost use Rattle.flow_edges.specs.EdgeViews.{flow_edge};
ghost use Rattle.flow_edges.specs.GraphRows.{row_edges};

use crate::edge::FlowEdge;
use kat_model::NoMemory;
use std::alloc::Global;

/// A table that has each row once, and accepts no more when it has more than `most` rows.
pub(crate) trait EdgeTable {
    ghost use Rattle.std.specs.Prelude.{ℕ, List, Bool};
    ghost use Rattle.flow_problem.specs.Edges.{Edge};

    // A row in contracts.
    ghost Row: { Type 0 };

    ghost rows: { Self → List Row };

    ghost same: { Row → Row → Bool };

    ghost most: { ℕ };

    // The rows of an edge.
    ghost edge_rows: { Edge → List Row };

    /// Adds the rows of an edge. Fails only when out of memory.
    fn add_edge(&mut self, alloc: Global, edge: &FlowEdge) -> Result<(), NoMemory>
        ensures { OnOk result (rows self.new ≡ with_all_new_within most same (rows self.old) (edge_rows (flow_edge edge.now))) };
}

#[cycle(add_edges)]
fn add_edges<T: EdgeTable>(alloc: Global, edges: &[FlowEdge], table: &mut T) -> Result<(), NoMemory>
    ensures { OnOk result (T.rows table.new ≡ with_all_new_within T.most T.same (T.rows table.old) (flat_map T.edge_rows (map flow_edge edges.now))) }
{
    match edges {
        [] => Ok(()),
        [edge, rest @ ..] => add_edges_from(alloc, edge, rest, table),
    }
}

#[cycle(add_edges)]
fn add_edges_from<T: EdgeTable>(
    alloc: Global,
    edge: &FlowEdge,
    rest: &[FlowEdge],
    table: &mut T,
) -> Result<(), NoMemory>
    ensures { OnOk result (T.rows table.new ≡ with_all_new_within T.most T.same (T.rows table.old) (T.edge_rows (flow_edge edge.now) ++ flat_map T.edge_rows (map flow_edge rest.now))) }
{
    table.add_edge(alloc, edge)?;
    add_edges(alloc, rest, table)
}

#[cycle(add_places)]
fn add_places<T: EdgeTable>(
    alloc: Global,
    list: &[Vec<FlowEdge>],
    table: &mut T,
) -> Result<(), NoMemory>
    ensures { OnOk result (T.rows table.new ≡ with_all_new_within T.most T.same (T.rows table.old) (flat_map T.edge_rows (flat_map row_edges list.now))) }
{
    match list {
        [] => Ok(()),
        [edges, rest @ ..] => add_places_from(alloc, edges, rest, table),
    }
}

#[cycle(add_places)]
fn add_places_from<T: EdgeTable>(
    alloc: Global,
    edges: &Vec<FlowEdge>,
    rest: &[Vec<FlowEdge>],
    table: &mut T,
) -> Result<(), NoMemory>
    ensures { OnOk result (T.rows table.new ≡ with_all_new_within T.most T.same (T.rows table.old) (flat_map T.edge_rows (row_edges edges.now ++ flat_map row_edges rest.now))) }
{
    add_edges(alloc, edges, table)?;
    add_places(alloc, rest, table)
}

/// Adds the rows of the edges of two graphs, which are given for each of their places. Fails only when out of memory.
#[tactic(auto, using(crate::proofs::TableRows::parts_then))]
pub(crate) fn add_graphs<T: EdgeTable>(
    alloc: Global,
    before: &[Vec<FlowEdge>],
    after: &[Vec<FlowEdge>],
    table: &mut T,
) -> Result<(), NoMemory>
    ensures { OnOk result (T.rows table.new ≡ with_all_new_within T.most T.same (T.rows table.old) (flat_map T.edge_rows (flat_map row_edges before.now ++ flat_map row_edges after.now))) }
{
    add_places(alloc, before, table)?;
    add_places(alloc, after, table)
}
