//! Hypotheses of a flow problem, each with the rule that gives it.
ghost use Rattle.std.specs.Prelude.{[], ◌∷◌};
ghost use Rattle.flow_abstraction.specs.Working.Adding.{Adds, hypothesis_of};

use kat_model::{Kat, MAX_HYPS, NoMemory, append};

/// Why a term relates no states. The numbers are those of tests, but the first one of `Assignment` is that of an action.
#[derive(Clone, Copy)]
pub enum FlowRule {
    /// A test holds after an action exactly where a condition holds before it.
    Assignment(usize, usize),
    /// F2: `f < g` and `g < f` exclude one another.
    Order(usize, usize),
    /// F3: `f < g` and `f == g` exclude one another.
    Equality(usize, usize),
    /// F6: one of `f < g`, `g < f` and `f == g` holds.
    ThreeWays(usize, usize, usize),
    /// F9: no number satisfies both tests, or both with one or two of them replaced by their opposites.
    TwoIntervals(usize, usize),
    /// F9 of three tests.
    ThreeIntervals(usize, usize, usize),
    /// F10: `f < g` and not `f + 1 < g` give `f + 1 == g`.
    NextNumber(usize, usize, usize),
}

/// A term that relates no states, and why.
#[derive(Drop)]
pub struct FlowHypothesis {
    pub rule: FlowRule,
    pub term: Kat,
}

/// Appends a hypothesis, unless there are more than `MAX_HYPS` already. Fails only when out of memory.
#[tactic(auto, using(crate::proofs::CappedHypotheses::past_limit, crate::proofs::CappedHypotheses::within_limit))]
pub(crate) fn push_hypothesis(
    list: &mut Vec<FlowHypothesis>,
    rule: FlowRule,
    term: Kat,
) -> Result<(), NoMemory>
    ensures { Adds result list.old list.new (hypothesis_of rule term ∷ []) }
{
    if list.len() > MAX_HYPS {
        return Ok(());
    }
    append(list, FlowHypothesis { rule, term })
}
