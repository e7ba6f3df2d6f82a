//! The problem of a piece, or the reason why it has none.
ghost use Rattle.std.specs.Prelude.{IfOk};
ghost use Rattle.flow_abstraction.specs.PosedQuestion.{posed};
ghost use Rattle.piece_problems.specs.Outcomes.{HasRules};
ghost use Rattle.piece_problems.specs.Working.Posed.{IsProblemBetween};

use flow_abstraction::{FlowAbstract, FlowFault, problem_of};
use flow_model::{Block, Sort};
use kat_model::NoMemory;
use std::alloc::Global;

/// The problem of a piece, or the reason why it has none.
pub enum PieceProblem {
    /// None is needed: both sides have the same text from the match to the next matched blocks, so the piece holds.
    SameText,
    /// The problem of the question: the piece holds if both sides of the problem are the same.
    Found(FlowAbstract),
    /// Two exits, of the matches of these numbers, share a block of the second graph, so there is no question.
    Ambiguous(usize, usize),
    /// The question has no problem, for this reason, which is never a lack of memory.
    Refused(FlowFault),
}

// Explicit, so that it is proved once and not at each end of each function that owns one.
impl Drop for PieceProblem {
    fn drop(self) {
        match self {
            PieceProblem::SameText => {}
            PieceProblem::Found(_found) => {}
            PieceProblem::Ambiguous(_first, _second) => {}
            PieceProblem::Refused(_fault) => {}
        }
    }
}

/// Returns the problem of the question if two graphs always return the same, or why the question has none. Fails only
/// when out of memory.
pub(crate) fn problem_between(
    alloc: Global,
    sorts: &[Sort],
    before: &[Block],
    after: &[Block],
    rounds: usize,
    splits: bool,
) -> Result<PieceProblem, NoMemory>
    ensures problem { IfOk result (IsProblemBetween (posed sorts.now before.now after.now rounds splits)) }
    ensures rules { IfOk result (HasRules sorts.now) }
{
    match problem_of(alloc, sorts, before, after, rounds, splits) {
        Ok(found) => Ok(PieceProblem::Found(found)),
        Err(FlowFault::NoMemory) => Err(NoMemory),
        Err(fault) => Ok(PieceProblem::Refused(fault)),
    }
}
