//! The exits of one side of a piece, at each matched block where it arrives.
ghost use Rattle.std.specs.Prelude.{◌≡◌, ◌+◌, ◌<◌, ◌^◌, true, All, IfOk, length};
ghost use Rattle.flow_model.specs.WholeMatches.{is_whole_match, IsWholeMatch};
ghost use Rattle.flow_pieces.specs.PieceGraphs.{leaves_from, has_block, leave_before as first_leave, leave_after as second_leave};
ghost use Rattle.flow_model.specs.Matches.{match_of};
ghost use Rattle.flow_matches.specs.Tables.{AreBelow};
ghost use Rattle.flow_matches.specs.Working.ExitViews.{exit_with, exit_trees, AreExitsOf};
ghost use Rattle.flow_matches.specs.Working.SideViews.{leave_tree, leave_trees};
ghost use Rattle.flow_matches.specs.Working.WholeSides.{is_whole_leave, are_whole_leaves};

use crate::exits::Exit;
use crate::interface::{holding, results_after, results_before};
use flow_model::{BlockMatch, CondNode, ExprNode};
use kat_model::{NoMemory, append};
use std::alloc::Global;

/// An exit at a matched block: where the condition holds, the run returns the results.
#[derive(Drop)]
pub(crate) struct Leave {
    pub(crate) condition: Vec<CondNode>,
    pub(crate) results: Vec<Vec<ExprNode>>,
}

// Returns an exit of the first graph.
fn leave_before(
    alloc: Global,
    variables: usize,
    exit: &Exit,
    own: &BlockMatch,
    place: usize,
) -> Result<Leave, NoMemory>
    requires place { place + 3 < 2 ^ 64 }
    requires live { AreBelow variables exit.now.live.items }
    ensures tree { IfOk result (λ leave. leave_tree leave ≡ first_leave place (exit_with (match_of own.now) exit.now)) }
    ensures whole { IfOk result (λ leave. is_whole_match own.now ≡ true → is_whole_leave leave ≡ true) }
{
    let condition = holding(alloc, &own.keeping, &own.condition)?;
    let results = results_before(alloc, variables, exit, own, place)?;
    Ok(Leave { condition, results })
}

// Returns an exit of the second graph.
fn leave_after(
    alloc: Global,
    variables: usize,
    exit: &Exit,
    own: &BlockMatch,
    place: usize,
) -> Result<Leave, NoMemory>
    requires place { place + 3 < 2 ^ 64 }
    requires live { AreBelow variables exit.now.live.items }
    ensures tree { IfOk result (λ leave. leave_tree leave ≡ second_leave place (exit_with (match_of own.now) exit.now)) }
    ensures whole { IfOk result (λ leave. is_whole_match own.now ≡ true → is_whole_leave leave ≡ true) }
{
    let mut condition = Vec::new(alloc);
    append(&mut condition, CondNode::Always)?;
    let results = results_after(alloc, variables, exit, own, place)?;
    Ok(Leave { condition, results })
}

/// Returns the exits of the first graph at a block.
pub(crate) fn leaves_before(
    alloc: Global,
    variables: usize,
    matches: &[BlockMatch],
    exits: &[Exit],
    block: usize,
) -> Result<Vec<Leave>, NoMemory>
    requires { AreExitsOf (length matches.now) variables exits.now }
    ensures trees { IfOk result (λ leaves. leave_trees leaves.items ≡ leaves_from first_leave (λ e. has_block e.rows block) 0 (exit_trees matches.now exits.now)) }
    ensures whole { IfOk result (λ leaves. All IsWholeMatch matches.now → are_whole_leaves leaves.items ≡ true) }
{
    let mut leaves = Vec::new(alloc);
    for place in 0..exits.len() {
        let exit = &exits[place];
        if exit.rows.contains(&block) {
            let own = &matches[exit.number];
            append(
                &mut leaves,
                leave_before(alloc, variables, exit, own, place)?,
            )?;
        }
    }
    Ok(leaves)
}

/// Returns the exits of the second graph at a block.
pub(crate) fn leaves_after(
    alloc: Global,
    variables: usize,
    matches: &[BlockMatch],
    exits: &[Exit],
    block: usize,
) -> Result<Vec<Leave>, NoMemory>
    requires { AreExitsOf (length matches.now) variables exits.now }
    ensures trees { IfOk result (λ leaves. leave_trees leaves.items ≡ leaves_from second_leave (λ e. has_block e.columns block) 0 (exit_trees matches.now exits.now)) }
    ensures whole { IfOk result (λ leaves. All IsWholeMatch matches.now → are_whole_leaves leaves.items ≡ true) }
{
    let mut leaves = Vec::new(alloc);
    for place in 0..exits.len() {
        let exit = &exits[place];
        if exit.columns.contains(&block) {
            let own = &matches[exit.number];
            append(
                &mut leaves,
                leave_after(alloc, variables, exit, own, place)?,
            )?;
        }
    }
    Ok(leaves)
}
