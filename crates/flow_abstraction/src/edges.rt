//! The first tests of a question, and the edges of both graphs.
ghost use Rattle.std.specs.Prelude.{◌≤◌, length, IfOk, IfErr};
ghost use Rattle.kat_model.specs.declared.limits.TheConstants.{MAX_TESTS};
ghost use Rattle.flow_forms.specs.Comparisons.{comparison_tree};
ghost use Rattle.flow_abstraction.specs.PosedQuestion.{HasFault};
ghost use Rattle.flow_abstraction.specs.Working.Stages.{posed_by, HasPairEdges};
ghost use Rattle.flow_abstraction.specs.Working.Questions.{first_tests_of, HasWaysBefore, HasWaysAfter};
ghost use Rattle.flow_edges.specs.Working.Views.{MakesList};

use crate::fault::FlowFault;
use crate::placed::{PlacedEdges, placed_edges};
use flow_edges::test_rows;
use flow_forms::FlowComparison;
use flow_model::{Block, Sort};
use std::alloc::Global;

/// What is asked of two graphs over variables of these sorts.
#[derive(Clone, Copy)]
pub(crate) struct Question<'a> {
    pub(crate) sorts: &'a [Sort],
    pub(crate) before: &'a [Block],
    pub(crate) after: &'a [Block],
    pub(crate) rounds: usize,
    pub(crate) splits: bool,
}

/// The tests of two graphs before the rounds, and the edges of both, split where the question says so.
#[derive(Drop)]
pub(crate) struct PairEdges {
    pub(crate) tests: Vec<FlowComparison>,
    pub(crate) before: PlacedEdges,
    pub(crate) after: PlacedEdges,
}

// Returns the first tests of a question.
fn tests_of(
    alloc: Global,
    question: &Question,
    first: &PlacedEdges,
    second: &PlacedEdges,
) -> Result<Vec<FlowComparison>, FlowFault>
    requires first { HasWaysBefore question.now first.now }
    requires second { HasWaysAfter question.now second.now }
    ensures made { MakesList comparison_tree result (first_tests_of question.now) }
    ensures few { IfOk result (λ _. length (first_tests_of question.now) ≤ MAX_TESTS) }
    ensures refused { IfErr result (HasFault (posed_by question.now)) }
{
    Ok(test_rows(alloc, &first.edges, &second.edges)?)
}

/// Returns the tests and edges of both graphs, or the reason why there are none.
pub(crate) fn pair_edges(alloc: Global, question: &Question) -> Result<PairEdges, FlowFault>
    ensures made { IfOk result (HasPairEdges (posed_by question.now)) }
    ensures refused { IfErr result (HasFault (posed_by question.now)) }
{
    let sorts = question.sorts;
    let splits = question.splits;
    let first = placed_edges(alloc, sorts, question.before)?;
    let second = placed_edges(alloc, sorts, question.after)?;
    let tests = tests_of(alloc, question, &first, &second)?;
    let before = first.with_splits(alloc, sorts, &tests, splits)?;
    let after = second.with_splits(alloc, sorts, &tests, splits)?;
    Ok(PairEdges {
        tests,
        before,
        after,
    })
}
