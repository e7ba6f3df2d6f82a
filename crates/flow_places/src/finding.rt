//! Places of flow graphs.
ghost use Rattle.std.specs.Prelude.{◌≡◌, ◌↔◌, ◌||◌, suc, length, false, nat_eq, reverse, IsTrue, IfOk, IfErr, OnOk, slice_index_or, if◌then◌else◌};
ghost use Rattle.std.specs.List.{list_any};
ghost use Rattle.flow_model.specs.Polish.{graph_of};
ghost use Rattle.flow_places.specs.Walks.{is_among as among, walk_from as walked_from, walk_of};
ghost use Rattle.flow_places.specs.Places.{entry_walk as walk_of_entry, is_marked as marked_block, place_test, place_marks as marks_of_places, cut_walk as walk_of_places};
ghost use Rattle.flow_places.specs.Loops.{HasUncutLoop};

use crate::fault::PlaceFault;
use crate::walk::{Walk, has_mark, is_among, new_walk, walk_from};
use flow_model::Block;
use kat_model::NoMemory;
use std::alloc::Global;

#[tactic(auto, using(crate::proofs::PlaceMarks::depth_is))]
fn entry_walk(alloc: Global, blocks: &[Block]) -> Result<Walk, NoMemory>
    ensures { IfOk result (λ w. walk_of w ≡ walk_of_entry (graph_of blocks.now)) }
{
    let mut walk = new_walk(alloc);
    let mut path = Vec::new(alloc);
    walk_from(blocks, &[], blocks.len() + 1, &mut path, 0, &mut walk)?;
    Ok(walk)
}

#[tactic(auto, using(crate::proofs::PlaceMarks::mark_there, crate::proofs::PlaceMarks::no_mark_there))]
fn is_marked(blocks: &[Block], block: usize) -> bool
    ensures { result ≡ marked_block (graph_of blocks.now) block }
{
    match blocks.get(block) {
        Some(found) => found.is_cut,
        None => false,
    }
}

// Returns whether one of the blocks is marked.
fn has_marks(blocks: &[Block], reached: &[usize]) -> bool
    ensures { result ≡ list_any (marked_block (graph_of blocks.now)) reached.now }
{
    reached.iter().any(|block| is_marked(blocks, *block))
}

// Returns whether a block that is reached is cut.
fn is_cut(blocks: &[Block], walk: &Walk, marked: bool, block: usize) -> bool
    ensures { result ≡ (nat_eq block 0 || (if marked then marked_block (graph_of blocks.now) block else among (walk_of walk.now).heads block)) }
{
    if block == 0 {
        return true;
    }
    if marked {
        is_marked(blocks, block)
    } else {
        is_among(&walk.heads, block)
    }
}

fn is_place(blocks: &[Block], walk: &Walk, marked: bool, block: usize) -> bool
    ensures { result ≡ place_test (walk_of walk.now) marked (graph_of blocks.now) block }
{
    is_among(&walk.left, block) && is_cut(blocks, walk, marked, block)
}

// Returns for each block whether it is a place.
fn place_marks(alloc: Global, blocks: &[Block]) -> Result<Vec<bool>, NoMemory>
    ensures { IfOk result (λ marks. marks.items ≡ marks_of_places (graph_of blocks.now)) }
{
    let walk = entry_walk(alloc, blocks)?;
    let marked = has_marks(blocks, &walk.left);
    let mut marks = Vec::new(alloc);
    for block in 0..blocks.len() {
        marks.push(is_place(blocks, &walk, marked, block))?;
    }
    Ok(marks)
}

// Walks from a block if it is a place.
#[tactic(auto, using(crate::proofs::PlaceMarks::depth_is))]
fn walk_from_place(
    blocks: &[Block],
    marks: &[bool],
    path: &mut Vec<usize>,
    block: usize,
    walk: &mut Walk,
) -> Result<(), NoMemory>
    ensures walk { OnOk result (walk_of walk.new ≡ (if slice_index_or marks.now block false then walked_from (graph_of blocks.now) (λ k. slice_index_or marks.now k false) (suc (length (graph_of blocks.now))) (reverse path.old.items) block (walk_of walk.old) else walk_of walk.old)) }
    ensures path { OnOk result (path.new.items ≡ path.old.items) }
{
    if has_mark(marks, block) {
        walk_from(blocks, marks, blocks.len() + 1, path, block, walk)?;
    }
    Ok(())
}

// Walks from each place, and stops at places.
fn cut_walk(alloc: Global, blocks: &[Block], marks: &[bool]) -> Result<Walk, NoMemory>
    requires { marks.now ≡ marks_of_places (graph_of blocks.now) }
    ensures { IfOk result (λ w. walk_of w ≡ walk_of_places (graph_of blocks.now)) }
{
    let mut walk = new_walk(alloc);
    let mut path = Vec::new(alloc);
    for block in 0..blocks.len() {
        walk_from_place(blocks, marks, &mut path, block, &mut walk)?;
    }
    Ok(walk)
}

// Returns whether a loop that is reached has no place.
fn leaves_loop(alloc: Global, blocks: &[Block], marks: &[bool]) -> Result<bool, NoMemory>
    requires { marks.now ≡ marks_of_places (graph_of blocks.now) }
    ensures { IfOk result (λ left. IsTrue left ↔ HasUncutLoop (graph_of blocks.now)) }
{
    let walk = cut_walk(alloc, blocks, marks)?;
    Ok(!walk.heads.is_empty())
}

/// Returns for each block whether it is a place: the entry, and the blocks that are marked as cuts, or, where none is
/// marked, the targets of back edges of the depth-first walk from the entry. Only blocks that are reached count. Fails
/// with `UncutLoop` exactly if a loop that is reached has no place.
pub fn places(alloc: Global, blocks: &[Block]) -> Result<Vec<bool>, PlaceFault>
    ensures marks { IfOk result (λ marks. marks.items ≡ marks_of_places (graph_of blocks.now)) }
    ensures cut { IfOk result (λ _. HasUncutLoop (graph_of blocks.now) → ⊥) }
    ensures uncut { IfErr result (λ e. e ≡ PlaceFault.UncutLoop → HasUncutLoop (graph_of blocks.now)) }
{
    let marks = place_marks(alloc, blocks)?;
    if leaves_loop(alloc, blocks, &marks)? {
        return Err(PlaceFault::UncutLoop);
    }
    Ok(marks)
}
