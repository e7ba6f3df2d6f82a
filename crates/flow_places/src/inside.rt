//! The blocks of a graph between marked ones.
ghost use Rattle.std.specs.Prelude.{◌≡◌, false, IfOk, slice_index_or};
ghost use Rattle.flow_model.specs.Polish.{graph_of};
ghost use Rattle.flow_places.specs.Walks.{blocks_from as left_from};

use crate::walk::{Walk, new_walk, walk_from};
use flow_model::Block;
use kat_model::NoMemory;
use std::alloc::Global;

/// Returns the blocks that a run from a block may enter before it jumps to a block that has a mark in `stops`, the first
/// block first. Fails only when out of memory.
#[tactic(auto, using(crate::proofs::PlaceMarks::depth_is))]
pub fn blocks_from(
    alloc: Global,
    blocks: &[Block],
    stops: &[bool],
    first: usize,
) -> Result<Vec<usize>, NoMemory>
    ensures { IfOk result (λ found. found.items ≡ left_from (graph_of blocks.now) (λ k. slice_index_or stops.now k false) first) }
{
    let mut walk = new_walk(alloc);
    let mut path = Vec::new(alloc);
    walk_from(blocks, stops, blocks.len() + 1, &mut path, first, &mut walk)?;
    let Walk {
        left: mut found,
        heads: _heads,
    } = walk;
    found.reverse();
    Ok(found)
}
