//! The edges from the places of a graph.
ghost use Rattle.std.specs.Prelude.{◌≡◌, ◌∷◌, ◌++◌, [], true, false, map, slice_index_or, IfOk, IfErr, OnOk};
ghost use Rattle.flow_edges.specs.GraphRows.{row_edges};
ghost use Rattle.flow_abstraction.specs.Working.Placed.{AllAre, IsSound, HasGraphFault};
ghost use Rattle.flow_abstraction.specs.Working.Splits.{AreShort};
ghost use Rattle.flow_abstraction.specs.Working.Questions.{HasWayEdges, place_if_any, places_of, rows_at, AreFewAt, HasFaultAt, rows_if_split, IsSplit, LongRowOnlyIf};
ghost use Rattle.flow_edges.specs.Working.Views.{Appends, MakesList};

use crate::fault::FlowFault;
use crate::split::split_rows;
use flow_edges::{FlowEdge, SplitFault, edges_from};
use flow_forms::FlowComparison;
use flow_model::{Block, Sort};
use flow_places::{live_sets, places};
use flow_ways::WayFault;
use kat_model::{NoMemory, append};
use std::alloc::Global;

/// The places of a graph, by their blocks, and the edges from each of them.
pub(crate) struct PlacedEdges {
    pub(crate) places: Vec<usize>,
    pub(crate) edges: Vec<Vec<FlowEdge>>,
}

// Explicit, so that it is proved once and not at each end of each function that owns the edges of a graph.
impl Drop for PlacedEdges {
    fn drop(self) {
        let PlacedEdges {
            places: _places,
            edges: _edges,
        } = self;
    }
}

impl PlacedEdges {
    /// Returns the edges from the places of a graph, split by tests if `splits`. Fails with `TooManyPaths` exactly if
    /// there would be more than `MAX_WAYS` edges from some place.
    #[tactic(auto, using(crate::proofs::SplitRows::rows_kept, crate::proofs::SplitRows::made_split))]
    pub(crate) fn with_splits(
        self,
        alloc: Global,
        sorts: &[Sort],
        tests: &[FlowComparison],
        splits: bool,
    ) -> Result<PlacedEdges, SplitFault>
        ensures places { IfOk result (λ p. p.places.items ≡ self.places.items) }
        ensures made { IfOk result (IsSplit splits sorts.now tests.now self) }
        ensures few { IfOk result (λ p. splits ≡ true → AreShort (map row_edges p.edges.items)) }
        ensures splits { IfErr result (λ e. e ≡ SplitFault.TooManyPaths → splits ≡ true) }
        ensures many { LongRowOnlyIf result (rows_if_split splits sorts.now tests.now self) }
    {
        if !splits {
            return Ok(self);
        }
        let PlacedEdges { places, edges } = self;
        let edges = split_rows(alloc, sorts, tests, edges)?;
        Ok(PlacedEdges { places, edges })
    }
}

// A graph over variables of these sorts, with its places and live variables.
#[derive(Clone, Copy)]
struct Marked<'a> {
    blocks: &'a [Block],
    sorts: &'a [Sort],
    places: &'a [bool],
    live: &'a [Vec<bool>],
}

fn is_place(places: &[bool], block: usize) -> bool
    ensures { result ≡ slice_index_or places.now block false }
{
    places.get(block).copied().unwrap_or(false)
}

// Appends a block if it is a place.
#[tactic(auto, using(flow_ways::proofs::CourseLists::none_then))]
fn push_place(places: &[bool], block: usize, list: &mut Vec<usize>) -> Result<(), NoMemory>
    ensures { OnOk result (list.new.items ≡ list.old.items ++ place_if_any places.now block) }
{
    if is_place(places, block) {
        list.push(block)?;
    }
    Ok(())
}

// Returns the blocks that are places, in order.
fn place_list(alloc: Global, places: &[bool]) -> Result<Vec<usize>, NoMemory>
    ensures { IfOk result (λ v. v.items ≡ places_of places.now) }
{
    let mut list = Vec::new(alloc);
    for block in 0..places.len() {
        push_place(places, block, &mut list)?;
    }
    Ok(list)
}

/// Appends the edges from one more place.
#[tactic(auto, using(flow_ways::proofs::CourseLists::map_pushed))]
pub(crate) fn push_row(list: &mut Vec<Vec<FlowEdge>>, row: Vec<FlowEdge>) -> Result<(), NoMemory>
    ensures { Appends row_edges result list.old list.new (row_edges row ∷ []) }
{
    append(list, row)
}

// Appends the edges from each of some blocks.
#[cycle(push_rows)]
#[tactic(auto, using(flow_ways::proofs::CourseLists::none_then))]
fn push_rows(
    alloc: Global,
    graph: &Marked,
    blocks: &[usize],
    list: &mut Vec<Vec<FlowEdge>>,
) -> Result<(), WayFault>
    ensures made { Appends row_edges result list.old list.new (rows_at graph.now blocks.now) }
    ensures few { OnOk result (AllAre (AreFewAt graph.now) blocks.now) }
    ensures refused { IfErr result (HasFaultAt graph.now blocks.now) }
{
    match blocks {
        [] => Ok(()),
        [block, rest @ ..] => push_rows_from(alloc, graph, *block, rest, list),
    }
}

#[cycle(push_rows)]
#[tactic(auto, using(crate::proofs::PlacedRows::here_refused))]
fn push_rows_from(
    alloc: Global,
    graph: &Marked,
    block: usize,
    rest: &[usize],
    list: &mut Vec<Vec<FlowEdge>>,
) -> Result<(), WayFault>
    ensures made { Appends row_edges result list.old list.new (rows_at graph.now (block ∷ rest.now)) }
    ensures few { OnOk result (AllAre (AreFewAt graph.now) (block ∷ rest.now)) }
    ensures refused { IfErr result (HasFaultAt graph.now (block ∷ rest.now)) }
{
    let row = edges_from(
        alloc,
        graph.blocks,
        graph.sorts,
        graph.places,
        graph.live,
        block,
    )?;
    push_row(list, row)?;
    push_rows(alloc, graph, rest, list)
}

fn rows_of(alloc: Global, graph: &Marked, blocks: &[usize]) -> Result<Vec<Vec<FlowEdge>>, WayFault>
    ensures made { MakesList row_edges result (rows_at graph.now blocks.now) }
    ensures few { IfOk result (λ _. AllAre (AreFewAt graph.now) blocks.now) }
    ensures refused { IfErr result (HasFaultAt graph.now blocks.now) }
{
    let mut list = Vec::new(alloc);
    push_rows(alloc, graph, blocks, &mut list)?;
    Ok(list)
}

/// Returns the edges from each place of a graph, in the order of its places. Fails with `UncutLoop` exactly if a loop
/// that is reached has no place, and otherwise with `TooManyPaths` or `TooLarge` exactly if there are too many ways from
/// some place, or a form on a way is too large; one of them is named if both hold.
pub(crate) fn placed_edges(
    alloc: Global,
    sorts: &[Sort],
    blocks: &[Block],
) -> Result<PlacedEdges, FlowFault>
    ensures made { IfOk result (HasWayEdges sorts.now blocks.now) }
    ensures sound { IfOk result (λ _. IsSound sorts.now blocks.now) }
    ensures refused { IfErr result (HasGraphFault sorts.now blocks.now) }
{
    let marks = places(alloc, blocks)?;
    let live = live_sets(alloc, blocks, sorts.len())?;
    let list = place_list(alloc, &marks)?;
    let graph = Marked {
        blocks,
        sorts,
        places: &marks,
        live: &live,
    };
    let edges = rows_of(alloc, &graph, &list)?;
    Ok(PlacedEdges {
        places: list,
        edges,
    })
}
