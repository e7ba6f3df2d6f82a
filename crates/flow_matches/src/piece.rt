//! The piece of a match as a question.
ghost use Rattle.std.specs.Prelude.{◌≡◌, ◌<◌, true, All, IfOk, IfErr, List, length};
ghost use Rattle.flow_model.specs.declared.sort.Sort.{Sort};
ghost use Rattle.flow_model.specs.declared.graph.Block.{Block as ABlock};
ghost use Rattle.flow_model.specs.Polish.{graph_of};
ghost use Rattle.flow_model.specs.WholeGraphs.{are_whole_blocks};
ghost use Rattle.flow_model.specs.WholeMatches.{IsWholeMatch};
ghost use Rattle.flow_pieces.specs.PieceGraphs.{side_before as first_side, side_after as second_side, side_graph as graph_of_side};
ghost use Rattle.flow_model.specs.Matches.{matches_of};
ghost use Rattle.flow_matches.specs.MatchViews.{match_at, pair_of};
ghost use Rattle.flow_pieces.specs.Pieces.{is_matched_before, is_matched_after};
ghost use Rattle.flow_matches.specs.Tables.{AreMarks, AreBelow, blocks_before, blocks_after, AreTables, AreInside};
ghost use Rattle.flow_matches.specs.Outcomes.{IsPieceOf, IsWholePiece, IsRefusalOf};
ghost use Rattle.flow_matches.specs.Working.ExitViews.{exit_trees, AreExitsOf};

use crate::exits::{Exit, arrivals_from, piece_exits, shared_column};
use crate::fault::MatchFault;
use crate::interface::opening;
use crate::leaves::{leaves_after, leaves_before};
use crate::side::{new_side, side_graph};
use crate::tables::MatchTables;
use crate::text::has_same_text;
use flow_model::{Block, BlockMatch, Sort};
use flow_places::blocks_from;
use kat_model::{NoMemory, append};
use std::alloc::Global;

/// The piece of a match.
pub enum Piece {
    /// Both graphs have the same text from the match to the next matched blocks.
    SameText,
    /// Two graphs, that of the first graph first: the match holds of its piece if they always return the same.
    Graphs(Vec<Block>, Vec<Block>),
}

// Explicit, so that it is proved once and not at each end of each function that owns one.
impl Drop for Piece {
    fn drop(self) {
        match self {
            Piece::SameText => {}
            Piece::Graphs(_before, _after) => {}
        }
    }
}

/// Returns the piece of the match of a number, with the tables of the graphs and the matches. The piece has the same text,
/// or two graphs with the exits that the matches give. Fails with `Ambiguous` exactly if the text is not the same and two
/// exits share a block of the second graph.
pub fn piece_of(
    alloc: Global,
    tables: &MatchTables,
    sorts: &[Sort],
    before: &[Block],
    after: &[Block],
    matches: &[BlockMatch],
    number: usize,
) -> Result<Piece, MatchFault>
    requires tables { AreTables tables.now sorts.now before.now after.now matches.now }
    requires inside { AreInside before.now after.now matches.now }
    requires number { number < length matches.now }
    ensures piece { IfOk result (λ piece. IsPieceOf (pair_of sorts.now before.now after.now) (matches_of matches.now) (match_at matches.now number) piece) }
    ensures whole { are_whole_blocks before.now ≡ true → are_whole_blocks after.now ≡ true → All IsWholeMatch matches.now → IfOk result IsWholePiece }
    ensures refused { IfErr result (λ fault. IsRefusalOf (pair_of sorts.now before.now after.now) (matches_of matches.now) (match_at matches.now number) fault) }
{
    if has_same_text(alloc, tables, before, after, matches, number)? {
        return Ok(Piece::SameText);
    }
    let exits = piece_exits(alloc, tables, sorts.len(), before, after, matches, number)?;
    match shared_column(&exits) {
        Some((first, second)) => Err(MatchFault::Ambiguous(
            exits[first].number,
            exits[second].number,
        )),
        None => {
            let variables = sorts.len();
            let first = first_graph(alloc, tables, variables, before, matches, number, &exits)?;
            let second = second_graph(alloc, tables, variables, after, matches, number, &exits)?;
            Ok(Piece::Graphs(first, second))
        }
    }
}

// Returns the graph of the first side of a piece.
fn first_graph(
    alloc: Global,
    tables: &MatchTables,
    variables: usize,
    blocks: &[Block],
    matches: &[BlockMatch],
    number: usize,
    exits: &[Exit],
) -> Result<Vec<Block>, NoMemory>
    requires number { number < length matches.now }
    requires below { AreBelow (length blocks.now) (blocks_before matches.now) }
    requires marked { AreMarks tables.now.stops_before.items (is_matched_before (matches_of matches.now)) }
    requires exits { AreExitsOf (length matches.now) variables exits.now }
    ensures graph { IfOk result (λ graph. (sorts : List Sort) (after : List ABlock) → graph_of graph.items ≡ graph_of_side (first_side (pair_of sorts blocks.now after) (matches_of matches.now) (match_at matches.now number) (exit_trees matches.now exits.now))) }
    ensures whole { IfOk result (λ graph. are_whole_blocks blocks.now ≡ true → All IsWholeMatch matches.now → are_whole_blocks graph.items ≡ true) }
{
    let own = &matches[number];
    let inside = blocks_from(alloc, blocks, &tables.stops_before, own.before)?;
    let arrivals = arrivals_from(alloc, blocks, &tables.stops_before, &inside)?;
    let mut leaves = Vec::new(alloc);
    for block in &arrivals.blocks {
        append(
            &mut leaves,
            leaves_before(alloc, variables, matches, exits, *block)?,
        )?;
    }
    let opening = opening(alloc, own, &own.back)?;
    let stops = &tables.stops_before;
    let side = new_side(
        alloc,
        blocks,
        stops,
        inside,
        &arrivals.blocks,
        leaves,
        opening,
        1,
    )?;
    let graph = side_graph(alloc, blocks, &side)?;
    Ok(graph)
}

// Returns the graph of the second side of a piece.
fn second_graph(
    alloc: Global,
    tables: &MatchTables,
    variables: usize,
    blocks: &[Block],
    matches: &[BlockMatch],
    number: usize,
    exits: &[Exit],
) -> Result<Vec<Block>, NoMemory>
    requires number { number < length matches.now }
    requires below { AreBelow (length blocks.now) (blocks_after matches.now) }
    requires marked { AreMarks tables.now.stops_after.items (is_matched_after (matches_of matches.now)) }
    requires exits { AreExitsOf (length matches.now) variables exits.now }
    ensures graph { IfOk result (λ graph. (sorts : List Sort) (before : List ABlock) → graph_of graph.items ≡ graph_of_side (second_side (pair_of sorts before blocks.now) (matches_of matches.now) (match_at matches.now number) (exit_trees matches.now exits.now))) }
    ensures whole { IfOk result (λ graph. are_whole_blocks blocks.now ≡ true → All IsWholeMatch matches.now → are_whole_blocks graph.items ≡ true) }
{
    let own = &matches[number];
    let inside = blocks_from(alloc, blocks, &tables.stops_after, own.after)?;
    let arrivals = arrivals_from(alloc, blocks, &tables.stops_after, &inside)?;
    let mut leaves = Vec::new(alloc);
    for block in &arrivals.blocks {
        append(
            &mut leaves,
            leaves_after(alloc, variables, matches, exits, *block)?,
        )?;
    }
    let opening = opening(alloc, own, &own.forth)?;
    let stops = &tables.stops_after;
    let side = new_side(
        alloc,
        blocks,
        stops,
        inside,
        &arrivals.blocks,
        leaves,
        opening,
        2,
    )?;
    let graph = side_graph(alloc, blocks, &side)?;
    Ok(graph)
}
