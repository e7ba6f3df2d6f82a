//! Matched graphs, and the problem of each of their pieces.
ghost use Rattle.std.specs.Prelude.{◌≡◌, ◌<◌, IfOk, length};
ghost use Rattle.flow_matches.specs.Tables.{AreTables, AreInside};
ghost use Rattle.piece_problems.specs.MatchedBlocks.{matched_blocks, graphs_of, trees_of, AreWhole, asked_match};
ghost use Rattle.piece_problems.specs.Outcomes.{IsProblemOf, HasRules};

use crate::problem::{PieceProblem, problem_between};
use flow_matches::{MatchFault, MatchTables, Piece, match_tables, piece_of};
use flow_model::{Block, BlockMatch, Sort};
use kat_model::NoMemory;
use std::alloc::Global;
use std::marker::Model;

/// Two graphs over variables of these sorts, with matches of their blocks.
pub struct MatchedGraphs<'a> {
    sorts: &'a [Sort],
    before: &'a [Block],
    after: &'a [Block],
    matches: &'a [BlockMatch],
    tables: MatchTables,
}

// Explicit, as for the problem of a piece.
impl Drop for MatchedGraphs<'_> {
    fn drop(self) {
        let MatchedGraphs {
            sorts: _,
            before: _,
            after: _,
            matches: _,
            tables: _tables,
        } = self;
    }
}

impl<'a> Model for MatchedGraphs<'a> {
    ghost use Rattle.piece_problems.specs.MatchedBlocks.{MatchedBlocks, matched_blocks};
    ghost use Rattle.piece_problems.specs.Working.Kept.{AreKept};

    ghost Value = { MatchedBlocks };

    ghost view = { λ g. matched_blocks g.sorts.now g.before.now g.after.now g.matches.now };

    ghost invariant = { λ g. AreKept g.tables (matched_blocks g.sorts.now g.before.now g.after.now g.matches.now) };
}

impl<'a> MatchedGraphs<'a> {
    /// Returns graphs with their matches. Fails only when out of memory.
    pub fn new(
        alloc: Global,
        sorts: &'a [Sort],
        before: &'a [Block],
        after: &'a [Block],
        matches: &'a [BlockMatch],
    ) -> Result<MatchedGraphs<'a>, NoMemory>
        requires inside { AreInside before.now after.now matches.now }
        requires whole { AreWhole (matched_blocks sorts.now before.now after.now matches.now) }
        ensures { IfOk result (λ g. g ≡ matched_blocks sorts.now before.now after.now matches.now) }
    {
        let tables = match_tables(alloc, sorts, before, after, matches)?;
        Ok(MatchedGraphs {
            sorts,
            before,
            after,
            matches,
            tables,
        })
    }

    /// Returns which blocks are matched, and what is live at each block.
    pub fn tables(&self) -> &MatchTables
        ensures { AreTables result.now self.now.sorts self.now.before self.now.after self.now.matches }
    {
        &self.tables
    }

    /// Returns the problem of the piece of the match of a number, or the reason why it has none. Fails only when out of
    /// memory.
    pub fn problem(
        &self,
        alloc: Global,
        number: usize,
        rounds: usize,
        splits: bool,
    ) -> Result<PieceProblem, NoMemory>
        requires { number < length self.now.matches }
        ensures problem { IfOk result (IsProblemOf (graphs_of self.now) (trees_of self.now) (asked_match self.now number rounds splits)) }
        ensures rules { IfOk result (HasRules self.now.sorts) }
    {
        match piece_of(
            alloc,
            &self.tables,
            self.sorts,
            self.before,
            self.after,
            self.matches,
            number,
        ) {
            Ok(piece) => match &piece {
                Piece::SameText => Ok(PieceProblem::SameText),
                Piece::Graphs(before, after) => {
                    problem_between(alloc, self.sorts, before, after, rounds, splits)
                }
            },
            Err(MatchFault::Ambiguous(i, j)) => Ok(PieceProblem::Ambiguous(i, j)),
            Err(MatchFault::NoMemory) => Err(NoMemory),
        }
    }
}
