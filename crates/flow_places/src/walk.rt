//! Depth-first walks along the jumps of a graph.
ghost use Rattle.std.specs.Prelude.{◌≡◌, ◌∷◌, [], false, reverse, OnOk, slice_index_or, if◌then◌else◌};
ghost use Rattle.flow_model.specs.Polish.{jump_of, graph_of};
ghost use Rattle.flow_ways.specs.Liveness.{jump_targets};
ghost use Rattle.flow_places.specs.Walks.{is_among as among, with_head, with_left, walk_all, walk_from as walked_from, walk_on as walked_on, walk_of, no_walk};

use flow_model::{Block, Jump};
use kat_model::NoMemory;
use std::alloc::Global;

/// A depth-first walk: the blocks that it has left, the first one first, and the targets of the back edges that it has
/// met.
#[derive(Drop)]
pub(crate) struct Walk {
    pub(crate) left: Vec<usize>,
    pub(crate) heads: Vec<usize>,
}

/// Returns a walk that has reached no block.
pub(crate) fn new_walk(alloc: Global) -> Walk
    ensures { walk_of result ≡ no_walk }
{
    let left = Vec::new(alloc);
    let heads = Vec::new(alloc);
    Walk { left, heads }
}

/// Returns whether a block is among some.
#[tactic(auto, using(crate::proofs::Walks::among_reversed))]
pub(crate) fn is_among(blocks: &[usize], block: usize) -> bool
    ensures { result ≡ among (reverse blocks.now) block }
{
    blocks.contains(&block)
}

/// Returns whether a block has a mark.
pub(crate) fn has_mark(marks: &[bool], block: usize) -> bool
    ensures { result ≡ slice_index_or marks.now block false }
{
    marks.get(block).copied().unwrap_or(false)
}

// Notes the target of a back edge.
#[tactic(auto, using(crate::proofs::Walks::reverse_pushed))]
fn note_head(walk: &mut Walk, block: usize) -> Result<(), NoMemory>
    ensures { OnOk result (walk_of walk.new ≡ with_head block (walk_of walk.old)) }
{
    walk.heads.push(block)?;
    Ok(())
}

// Leaves a block.
#[tactic(auto, using(crate::proofs::Walks::reverse_pushed))]
fn leave(walk: &mut Walk, block: usize) -> Result<(), NoMemory>
    ensures { OnOk result (walk_of walk.new ≡ with_left block (walk_of walk.old)) }
{
    walk.left.push(block)?;
    Ok(())
}

/// Walks on to a block. The walk goes at most `depth` blocks deep, and not along jumps to blocks that have a mark in
/// `stops`. `path` has the blocks on the path to the block, the first one first. Fails only when out of memory.
#[cycle(walk)]
pub(crate) fn walk_from(
    blocks: &[Block],
    stops: &[bool],
    depth: usize,
    path: &mut Vec<usize>,
    block: usize,
    walk: &mut Walk,
) -> Result<(), NoMemory>
    ensures walk { OnOk result (walk_of walk.new ≡ walked_from (graph_of blocks.now) (λ l. slice_index_or stops.now l false) depth (reverse path.old.items) block (walk_of walk.old)) }
    ensures path { OnOk result (path.new.items ≡ path.old.items) }
{
    if depth == 0 {
        return Ok(());
    }
    if is_among(path, block) {
        return note_head(walk, block);
    }
    if is_among(&walk.left, block) {
        return Ok(());
    }
    match blocks.get(block) {
        Some(found) => walk_into(blocks, stops, depth - 1, path, block, found, walk),
        None => Ok(()),
    }
}

// Walks through a block to the targets of its jump.
#[cycle(walk)]
fn walk_into(
    blocks: &[Block],
    stops: &[bool],
    depth: usize,
    path: &mut Vec<usize>,
    block: usize,
    found: &Block,
    walk: &mut Walk,
) -> Result<(), NoMemory>
    ensures walk { OnOk result (walk_of walk.new ≡ with_left block (walk_all (walked_on (graph_of blocks.now) (λ l. slice_index_or stops.now l false) depth (block ∷ reverse path.old.items)) (jump_targets (jump_of found.now.jump)) (walk_of walk.old))) }
    ensures path { OnOk result (path.new.items ≡ path.old.items) }
{
    let count = path.len();
    path.push(block)?;
    walk_jump(blocks, stops, depth, path, &found.jump, walk)?;
    path.truncate(count);
    leave(walk, block)
}

// Walks to the targets of a jump.
#[cycle(walk)]
fn walk_jump(
    blocks: &[Block],
    stops: &[bool],
    depth: usize,
    path: &mut Vec<usize>,
    jump: &Jump,
    walk: &mut Walk,
) -> Result<(), NoMemory>
    ensures walk { OnOk result (walk_of walk.new ≡ walk_all (walked_on (graph_of blocks.now) (λ l. slice_index_or stops.now l false) depth (reverse path.old.items)) (jump_targets (jump_of jump.now)) (walk_of walk.old)) }
    ensures path { OnOk result (path.new.items ≡ path.old.items) }
{
    match jump {
        Jump::Goto(k) => walk_on(blocks, stops, depth, path, *k, walk),
        Jump::Branch(_, k, l) => {
            walk_on(blocks, stops, depth, path, *k, walk)?;
            walk_on(blocks, stops, depth, path, *l, walk)
        }
        Jump::Return(_) | Jump::Abort => Ok(()),
    }
}

// Walks to the target of a jump, unless it has a mark.
#[cycle(walk)]
fn walk_on(
    blocks: &[Block],
    stops: &[bool],
    depth: usize,
    path: &mut Vec<usize>,
    block: usize,
    walk: &mut Walk,
) -> Result<(), NoMemory>
    ensures walk { OnOk result (walk_of walk.new ≡ walked_on (graph_of blocks.now) (λ l. slice_index_or stops.now l false) depth (reverse path.old.items) block (walk_of walk.old)) }
    ensures path { OnOk result (path.new.items ≡ path.old.items) }
{
    if has_mark(stops, block) {
        return Ok(());
    }
    walk_from(blocks, stops, depth, path, block, walk)
}
