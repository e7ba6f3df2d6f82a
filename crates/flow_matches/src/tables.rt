//! Tables that the pieces of all matches need: which blocks are matched, and what is live at each block.
ghost use Rattle.std.specs.Prelude.{◌≡◌, true, false, IfOk, length, slice_index_or, slice_set};
ghost use Rattle.flow_places.specs.Tables.{noted};
ghost use Rattle.flow_pieces.specs.Pieces.{is_matched_before, is_matched_after};
ghost use Rattle.flow_model.specs.Matches.{matches_of};
ghost use Rattle.flow_matches.specs.Tables.{AreMarks, AreBelow, blocks_before, blocks_after, AreTables, AreInside};

use flow_model::{Block, BlockMatch, Sort};
use flow_places::live_sets;
use kat_model::NoMemory;
use std::alloc::Global;

/// Which blocks of both graphs are matched, and which variables are live at each block.
#[derive(Drop)]
pub struct MatchTables {
    pub(crate) stops_before: Vec<bool>,
    pub(crate) stops_after: Vec<bool>,
    pub(crate) live_before: Vec<Vec<bool>>,
    pub(crate) live_after: Vec<Vec<bool>>,
}

/// Returns whether a block has a mark.
pub(crate) fn has_mark(marks: &[bool], block: usize) -> bool
    ensures { result ≡ slice_index_or marks.now block false }
{
    marks.get(block).copied().unwrap_or(false)
}

/// Returns whether a variable is live at a block of the first graph.
pub fn is_live_before(tables: &MatchTables, block: usize, variable: usize) -> bool
    ensures { result ≡ noted tables.now.live_before.items variable block }
{
    match tables.live_before.get(block) {
        Some(row) => has_mark(row, variable),
        None => false,
    }
}

/// Returns whether a variable is live at a block of the second graph.
pub fn is_live_after(tables: &MatchTables, block: usize, variable: usize) -> bool
    ensures { result ≡ noted tables.now.live_after.items variable block }
{
    match tables.live_after.get(block) {
        Some(row) => has_mark(row, variable),
        None => false,
    }
}

// Marks a block, if there is a place for its mark.
pub(crate) fn mark(marks: &mut Vec<bool>, block: usize)
    ensures { marks.new.items ≡ slice_set marks.old.items block true }
{
    if block < marks.len() {
        marks[block] = true;
    }
}

// Returns the marks of the blocks of the first graph that are matched.
fn marks_before(
    alloc: Global,
    blocks: &[Block],
    matches: &[BlockMatch],
) -> Result<Vec<bool>, NoMemory>
    requires { AreBelow (length blocks.now) (blocks_before matches.now) }
    ensures { IfOk result (λ marks. AreMarks marks.items (is_matched_before (matches_of matches.now))) }
{
    let mut marks = vec![in alloc; false; blocks.len()]?;
    for one in matches {
        mark(&mut marks, one.before);
    }
    Ok(marks)
}

// Returns the marks of the blocks of the second graph that are matched.
fn marks_after(
    alloc: Global,
    blocks: &[Block],
    matches: &[BlockMatch],
) -> Result<Vec<bool>, NoMemory>
    requires { AreBelow (length blocks.now) (blocks_after matches.now) }
    ensures { IfOk result (λ marks. AreMarks marks.items (is_matched_after (matches_of matches.now))) }
{
    let mut marks = vec![in alloc; false; blocks.len()]?;
    for one in matches {
        mark(&mut marks, one.after);
    }
    Ok(marks)
}

/// Returns the tables of two graphs and matches of their blocks. Fails only when out of memory.
pub fn match_tables(
    alloc: Global,
    sorts: &[Sort],
    before: &[Block],
    after: &[Block],
    matches: &[BlockMatch],
) -> Result<MatchTables, NoMemory>
    requires { AreInside before.now after.now matches.now }
    ensures { IfOk result (λ tables. AreTables tables sorts.now before.now after.now matches.now) }
{
    let stops_before = marks_before(alloc, before, matches)?;
    let stops_after = marks_after(alloc, after, matches)?;
    let live_before = live_sets(alloc, before, sorts.len())?;
    let live_after = live_sets(alloc, after, sorts.len())?;
    Ok(MatchTables {
        stops_before,
        stops_after,
        live_before,
        live_after,
    })
}
