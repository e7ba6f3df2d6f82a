//! All hypotheses of a flow problem.
ghost use Rattle.std.specs.Prelude.{◌<◌, ◌≤◌, IfOk, length};
ghost use Rattle.flow_abstraction.specs.Working.Adding.{Adds, MakesFacts};
ghost use Rattle.flow_abstraction.specs.Working.Questions.{TooManyOnlyIf};
ghost use Rattle.flow_abstraction.specs.Working.Assignments.{all_hypotheses};

use crate::assignment::add_assignments_facts;
use crate::facts::add_facts_between;
use crate::hypothesis::FlowHypothesis;
use crate::hypothesis_fault::HypothesisFault;
use flow_edges::FlowAction;
use flow_forms::FlowComparison;
use flow_model::Sort;
use kat_model::{MAX_HYPS, NoMemory};
use std::alloc::Global;

// Appends all hypotheses, until there are more than `MAX_HYPS`.
#[tactic(auto, using(crate::proofs::ActionFacts::all_hypotheses))]
fn add_hypotheses(
    alloc: Global,
    sorts: &[Sort],
    tests: &[FlowComparison],
    actions: &[FlowAction],
    list: &mut Vec<FlowHypothesis>,
) -> Result<(), NoMemory>
    ensures { Adds result list.old list.new (all_hypotheses sorts.now tests.now actions.now) }
{
    add_assignments_facts(alloc, sorts, tests, actions, list)?;
    add_facts_between(alloc, tests, list)
}

/// Returns the hypotheses of a flow problem in their order: those of assignments, then the facts between tests. Fails
/// with `TooMany` exactly if there are more than `MAX_HYPS`.
#[tactic(auto, using(crate::proofs::CappedHypotheses::all_within, crate::proofs::CappedHypotheses::more_than_limit))]
pub(crate) fn hypotheses(
    alloc: Global,
    sorts: &[Sort],
    tests: &[FlowComparison],
    actions: &[FlowAction],
) -> Result<Vec<FlowHypothesis>, HypothesisFault>
    ensures made { MakesFacts result (all_hypotheses sorts.now tests.now actions.now) }
    ensures few { IfOk result (λ v. length v.items ≤ MAX_HYPS) }
    ensures many { TooManyOnlyIf result (all_hypotheses sorts.now tests.now actions.now) }
{
    let mut list = Vec::new(alloc);
    add_hypotheses(alloc, sorts, tests, actions, &mut list)?;
    if list.len() > MAX_HYPS {
        return Err(HypothesisFault::TooMany);
    }
    Ok(list)
}
