//! Hypotheses that a last test completes: one that is a comparison computed from the tests before it.
ghost use Rattle.std.specs.Prelude.{◌≡◌, ◌+◌, ◌^◌, ◌<◌, ◌∷◌, IfOk, length};
ghost use Rattle.kat_model.specs.Trees.{kat_tree};
ghost use Rattle.flow_abstraction.specs.HypothesisViews.{flow_rule};
ghost use Rattle.flow_abstraction.specs.Completions.{completed_rule as rule_of, completed_term as term_of};
ghost use Rattle.flow_abstraction.specs.Working.Adding.{Adds};
ghost use Rattle.flow_abstraction.specs.Working.Facts.{completed_by, completed_all};

use crate::hypothesis::{FlowHypothesis, FlowRule, push_hypothesis};
use crate::sameness::is_comparison;
use crate::terms::{never_both, none_of_three, opposite_of};
use flow_forms::{FlowComparison, FlowLiteral};
use kat_model::{Kat, MAX_HYPS, NoMemory, Test};
use std::alloc::Global;

/// The tests of a hypothesis before its last one, and its rule.
#[derive(Clone, Copy)]
pub(crate) enum Pending {
    Equality(usize),
    ThreeWays(usize, usize),
    NextNumber(usize, usize),
}

fn completed_rule(pending: Pending, number: usize) -> FlowRule
    ensures { flow_rule result ≡ rule_of pending number }
{
    match pending {
        Pending::Equality(i) => FlowRule::Equality(i, number),
        Pending::ThreeWays(i, j) => FlowRule::ThreeWays(i, j, number),
        Pending::NextNumber(i, j) => FlowRule::NextNumber(i, j, number),
    }
}

fn completed_term(alloc: Global, pending: Pending, number: usize) -> Result<Kat, NoMemory>
    ensures { IfOk result (λ e. kat_tree e ≡ term_of pending number) }
{
    match pending {
        Pending::Equality(i) => never_both(alloc, i, number),
        Pending::ThreeWays(i, j) => {
            let first = opposite_of(alloc, i)?;
            let second = opposite_of(alloc, j)?;
            let third = opposite_of(alloc, number)?;
            none_of_three(alloc, first, second, third)
        }
        Pending::NextNumber(i, j) => {
            let second = opposite_of(alloc, j)?;
            let third = opposite_of(alloc, number)?;
            none_of_three(alloc, Test::Prim(i), second, third)
        }
    }
}

// Appends the hypothesis that a test completes, if it is the comparison.
fn add_completed_by(
    alloc: Global,
    pending: Pending,
    literal: &FlowLiteral,
    number: usize,
    test: &FlowComparison,
    list: &mut Vec<FlowHypothesis>,
) -> Result<(), NoMemory>
    ensures { Adds result list.old list.new (completed_by pending literal.now number test.now) }
{
    if !is_comparison(literal, test) {
        return Ok(());
    }
    let term = completed_term(alloc, pending, number)?;
    push_hypothesis(list, completed_rule(pending, number), term)
}

/// Appends the hypotheses that some tests complete, which are numbered from `number`.
#[cycle(add_completed)]
pub(crate) fn add_completed(
    alloc: Global,
    pending: Pending,
    literal: &FlowLiteral,
    number: usize,
    tests: &[FlowComparison],
    list: &mut Vec<FlowHypothesis>,
) -> Result<(), NoMemory>
    requires { number + length tests.now < 2 ^ 64 }
    ensures { Adds result list.old list.new (completed_all pending literal.now number tests.now) }
{
    match tests {
        [] => Ok(()),
        [test, rest @ ..] => {
            add_completed_from(alloc, pending, literal, number, test, rest, list)
        }
    }
}

#[cycle(add_completed)]
fn add_completed_from(
    alloc: Global,
    pending: Pending,
    literal: &FlowLiteral,
    number: usize,
    test: &FlowComparison,
    rest: &[FlowComparison],
    list: &mut Vec<FlowHypothesis>,
) -> Result<(), NoMemory>
    requires { number + length rest.now + 1 < 2 ^ 64 }
    ensures { Adds result list.old list.new (completed_all pending literal.now number (test.now ∷ rest.now)) }
{
    add_completed_by(alloc, pending, literal, number, test, list)?;
    add_completed(alloc, pending, literal, number + 1, rest, list)
}
