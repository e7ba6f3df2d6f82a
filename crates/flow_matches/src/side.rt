//! The graph of one side of a piece.
ghost use Rattle.std.specs.Prelude.{◌≡◌, ◌∷◌, true, false, [], IfOk, OnOk, List, Some, map, length, replicate, unwrap_or, slice_get, slice_set, slice_index_or};
ghost use Rattle.flow_model.specs.declared.graph.Block.{Block as ABlock};
ghost use Rattle.flow_model.specs.Polish.{values_of, statement_of, jump_of, block_of, graph_of};
ghost use Rattle.flow_model.specs.WholeGraphs.{are_whole_exprs, is_whole_jump, is_whole_block, are_whole_blocks};
ghost use Rattle.flow_pieces.specs.PieceGraphs.{Side as ASide, inside, side_blocks, number_of, block_at, block_inside, jump_of as jump_of_side, mark as a_mark, side_graph as graph_of_side};
ghost use Rattle.flow_matches.specs.Tables.{AreMarks};
ghost use Rattle.flow_matches.specs.Working.SideViews.{AreBelowIf, leave_tree, leave_trees, side_arrivals, AddsBlocks, leave_blocks, arrival_blocks, blocks_of_arrivals, after_arrival as number_after, after_arrivals, numbers_of_leaves, number_blocks, number_all_arrivals, IsSide};
ghost use Rattle.flow_matches.specs.Working.WholeSides.{are_whole_statements, is_whole_leave, are_whole_leaves, are_all_whole_leaves, IsWholeSide, AddsWholeBlocks};

use crate::copies::{copy_cond, copy_exprs, copy_statements, push_exprs};
use crate::interface::mark;
use crate::leaves::Leave;
use crate::tables::has_mark;
use flow_model::{Block, ExprNode, Jump, Statement};
use kat_model::NoMemory;
use std::alloc::Global;

/// One side of a piece. Its points are numbered: the start, the blocks inside, and for each matched block where runs
/// arrive, two for each exit that is tried there, and one where none of them is taken.
#[derive(Drop)]
pub(crate) struct Side {
    /// What is known at first.
    pub(crate) opening: Vec<Statement>,
    /// The blocks inside, the first one first.
    pub(crate) inside: Vec<usize>,
    /// The exits at each matched block where runs arrive.
    pub(crate) leaves: Vec<Vec<Leave>>,
    /// The number of the point to which a jump to each block of the graph leads.
    pub(crate) targets: Vec<usize>,
    /// The number of points, to which a jump leads that leads to no block.
    pub(crate) count: usize,
    /// The mark that is returned where no exit is taken.
    pub(crate) otherwise: u64,
}

// Sets the number of a block, if there is a place for it.
fn set_number(block: usize, number: usize, targets: &mut Vec<usize>)
    ensures { targets.new.items ≡ slice_set targets.old.items block number }
{
    if block < targets.len() {
        targets[block] = number;
    }
}

// Sets the number of the point of each block inside. A jump to a matched block leads to an arrival.
fn number_inside(stops: &[bool], inside: &[usize], targets: &mut Vec<usize>)
    ensures { targets.new.items ≡ number_blocks (λ k. slice_index_or stops.now k false) 1 inside.now targets.old.items }
{
    for place in 0..inside.len() {
        let block = inside[place];
        if !has_mark(stops, block) {
            set_number(block, place + 1, targets);
        }
    }
}

// Returns the number of points that an arrival with some exits has, after others.
fn after_arrival(number: usize, leaves: usize) -> Result<usize, NoMemory>
    ensures { IfOk result (λ n. n ≡ number_after number leaves) }
{
    match number.checked_add(leaves) {
        Some(half) => match half.checked_add(leaves) {
            Some(all) => all.checked_add(1).ok_or(NoMemory),
            None => Err(NoMemory),
        },
        None => Err(NoMemory),
    }
}

// Sets the number of the first point of each arrival.
fn number_arrivals(
    first: usize,
    arrivals: &[usize],
    leaves: &[Vec<Leave>],
    targets: &mut Vec<usize>,
) -> Result<(), NoMemory>
    ensures { OnOk result (targets.new.items ≡ number_all_arrivals first arrivals.now (numbers_of_leaves leaves.now) targets.old.items) }
{
    let mut number = first;
    for (block, exits) in arrivals.iter().zip(leaves) {
        set_number(*block, number, targets);
        number = after_arrival(number, exits.len())?;
    }
    Ok(())
}

// Returns the number of all points.
fn count_points(first: usize, leaves: &[Vec<Leave>]) -> Result<usize, NoMemory>
    ensures { IfOk result (λ n. n ≡ after_arrivals first (numbers_of_leaves leaves.now)) }
{
    let mut number = first;
    for exits in leaves {
        number = after_arrival(number, exits.len())?;
    }
    Ok(number)
}

fn same_numbers(alloc: Global, number: usize, count: usize) -> Result<Vec<usize>, NoMemory>
    ensures { IfOk result (λ numbers. numbers.items ≡ replicate count number) }
{
    Ok(vec![in alloc; number; count]?)
}

/// Returns a side with these parts, and numbers its points.
pub(crate) fn new_side(
    alloc: Global,
    blocks: &[Block],
    stops: &[bool],
    inside: Vec<usize>,
    arrivals: &[usize],
    leaves: Vec<Vec<Leave>>,
    opening: Vec<Statement>,
    otherwise: u64,
) -> Result<Side, NoMemory>
    requires { AreBelowIf (length blocks.now) (λ k. slice_index_or stops.now k false) }
    ensures side { IfOk result (λ side. (s : ASide) → s.graph ≡ graph_of blocks.now → AreMarks stops.now s.is_matched → inside.items ≡ side_blocks s → arrivals.now ≡ side_arrivals s → map (λ l. leave_trees l.items) leaves.items ≡ map s.leaves (side_arrivals s) → map statement_of opening.items ≡ s.opening → s.otherwise ≡ a_mark otherwise ∷ [] → IsSide side blocks.now s) }
    ensures whole { IfOk result (λ side. are_whole_statements opening.items ≡ true → are_all_whole_leaves leaves.items ≡ true → IsWholeSide side) }
{
    let count = count_points(inside.len() + 1, &leaves)?;
    let mut targets = same_numbers(alloc, count, blocks.len())?;
    number_inside(stops, &inside, &mut targets);
    number_arrivals(inside.len() + 1, arrivals, &leaves, &mut targets)?;
    Ok(Side {
        opening,
        inside,
        leaves,
        targets,
        count,
        otherwise,
    })
}

// Returns the number of the point to which a jump to a block leads.
fn target(side: &Side, block: usize) -> usize
    ensures { result ≡ unwrap_or (slice_get side.now.targets.items block) side.now.count }
{
    side.targets.get(block).copied().unwrap_or(side.count)
}

fn one_value(alloc: Global, number: u64) -> Result<Vec<Vec<ExprNode>>, NoMemory>
    ensures trees { IfOk result (λ values. values_of values.items ≡ a_mark number ∷ []) }
    ensures whole { IfOk result (λ values. are_whole_exprs values.items ≡ true) }
{
    let mut values = Vec::new(alloc);
    values.push(mark(alloc, number)?)?;
    Ok(values)
}

// Returns the jump of a block inside: a return begins with its mark.
fn jump_inside(alloc: Global, side: &Side, jump: &Jump) -> Result<Jump, NoMemory>
    ensures jump { IfOk result (λ copy. (s : ASide) (blocks : List ABlock) → IsSide side.now blocks s → jump_of copy ≡ jump_of_side s (jump_of jump.now)) }
    ensures whole { IfOk result (λ copy. is_whole_jump copy ≡ is_whole_jump jump.now) }
{
    match jump {
        Jump::Goto(k) => Ok(Jump::Goto(target(side, *k))),
        Jump::Branch(cond, k, l) => Ok(Jump::Branch(
            copy_cond(alloc, cond)?,
            target(side, *k),
            target(side, *l),
        )),
        Jump::Return(results) => {
            let mut values = one_value(alloc, 0)?;
            push_exprs(results, &mut values)?;
            Ok(Jump::Return(values))
        }
        Jump::Abort => Ok(Jump::Abort),
    }
}

fn push_block(
    is_cut: bool,
    statements: Vec<Statement>,
    jump: Jump,
    list: &mut Vec<Block>,
) -> Result<(), NoMemory>
    ensures added { OnOk result (AddsBlocks list.old list.new (record { is_cut = is_cut; statements = map statement_of statements.items; jump = jump_of jump } ∷ [])) }
    ensures whole { OnOk result (are_whole_statements statements.items ≡ true → is_whole_jump jump ≡ true → AddsWholeBlocks list.old list.new) }
{
    list.push(Block {
        is_cut,
        statements,
        jump,
    })?;
    Ok(())
}

// Adds a copy of a block inside, with jumps to points.
fn push_copy(
    alloc: Global,
    block: &Block,
    side: &Side,
    list: &mut Vec<Block>,
) -> Result<(), NoMemory>
    ensures added { OnOk result ((s : ASide) (blocks : List ABlock) → IsSide side.now blocks s → AddsBlocks list.old list.new (block_inside s (Some (block_of block.now)) ∷ [])) }
    ensures whole { OnOk result (is_whole_block block.now ≡ true → AddsWholeBlocks list.old list.new) }
{
    let statements = copy_statements(alloc, &block.statements)?;
    let jump = jump_inside(alloc, side, &block.jump)?;
    push_block(block.is_cut, statements, jump, list)?;
    Ok(())
}

// Adds the blocks inside.
fn push_inside(
    alloc: Global,
    blocks: &[Block],
    side: &Side,
    list: &mut Vec<Block>,
) -> Result<(), NoMemory>
    ensures added { OnOk result ((s : ASide) → IsSide side.now blocks.now s → AddsBlocks list.old list.new (map (λ k. block_at s (inside k)) (side_blocks s))) }
    ensures whole { OnOk result (are_whole_blocks blocks.now ≡ true → AddsWholeBlocks list.old list.new) }
{
    for number in &side.inside {
        if let Some(block) = blocks.get(*number) {
            push_copy(alloc, block, side, list)?;
        }
    }
    Ok(())
}

// Adds the two points of an exit: the second is there only if its condition holds.
fn push_leave(alloc: Global, leave: &Leave, list: &mut Vec<Block>) -> Result<(), NoMemory>
    ensures added { OnOk result (AddsBlocks list.old list.new (leave_blocks (length (graph_of list.old.items)) (leave_tree leave.now))) }
    ensures whole { OnOk result (is_whole_leave leave.now ≡ true → AddsWholeBlocks list.old list.new) }
{
    let number = list.len();
    let cond = copy_cond(alloc, &leave.condition)?;
    let jump = Jump::Branch(cond, number + 1, number + 2);
    push_block(false, Vec::new(alloc), jump, list)?;
    let results = copy_exprs(alloc, &leave.results)?;
    push_block(false, Vec::new(alloc), Jump::Return(results), list)?;
    Ok(())
}

// Adds the points of an arrival: each exit is tried in turn.
fn push_arrival(
    alloc: Global,
    leaves: &[Leave],
    otherwise: u64,
    list: &mut Vec<Block>,
) -> Result<(), NoMemory>
    ensures added { OnOk result (AddsBlocks list.old list.new (arrival_blocks (length (graph_of list.old.items)) (leave_trees leaves.now) (a_mark otherwise ∷ []))) }
    ensures whole { OnOk result (are_whole_leaves leaves.now ≡ true → AddsWholeBlocks list.old list.new) }
{
    for leave in leaves {
        push_leave(alloc, leave, list)?;
    }
    let values = one_value(alloc, otherwise)?;
    push_block(false, Vec::new(alloc), Jump::Return(values), list)?;
    Ok(())
}

// Returns the number of the point of the first block.
fn first_point(side: &Side) -> usize
    ensures { (s : ASide) (blocks : List ABlock) → IsSide side.now blocks s → result ≡ number_of s (inside s.first) }
{
    if side.inside.is_empty() {
        side.count
    } else {
        1
    }
}

// Adds the blocks of all arrivals.
fn push_arrivals(alloc: Global, side: &Side, list: &mut Vec<Block>) -> Result<(), NoMemory>
    ensures added { OnOk result (AddsBlocks list.old list.new (blocks_of_arrivals (length (graph_of list.old.items)) (map (λ l. leave_trees l.items) side.now.leaves.items) (a_mark side.now.otherwise ∷ []))) }
    ensures whole { OnOk result (are_all_whole_leaves side.now.leaves.items ≡ true → AddsWholeBlocks list.old list.new) }
{
    for leaves in &side.leaves {
        push_arrival(alloc, leaves, side.otherwise, list)?;
    }
    Ok(())
}

/// Returns the graph of a side. Fails only when out of memory.
pub(crate) fn side_graph(
    alloc: Global,
    blocks: &[Block],
    side: &Side,
) -> Result<Vec<Block>, NoMemory>
    ensures graph { IfOk result (λ list. (s : ASide) → IsSide side.now blocks.now s → graph_of list.items ≡ graph_of_side s) }
    ensures whole { IfOk result (λ list. are_whole_blocks blocks.now ≡ true → IsWholeSide side.now → are_whole_blocks list.items ≡ true) }
{
    let mut list = Vec::new(alloc);
    let statements = copy_statements(alloc, &side.opening)?;
    push_block(false, statements, Jump::Goto(first_point(side)), &mut list)?;
    push_inside(alloc, blocks, side, &mut list)?;
    push_arrivals(alloc, side, &mut list)?;
    Ok(list)
}
