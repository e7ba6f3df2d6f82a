//! Checking one line of a chain.
ghost use Rattle.std.specs.Prelude.{◌≡◌, ◌↔◌, ◌⊎◌, IsTrue, IfOk, None, Some, slice_get};
ghost use Rattle.std.specs.Option.{option_map};
ghost use Rattle.kat_model.specs.Trees.{kat_tree, zero};
ghost use Rattle.kat_model.specs.Problems.{HasTestsBelow, IsInRange};
ghost use Rattle.chain_rules.specs.Chains.{equation, last_term, ends_of};
ghost use Rattle.chain_rules.specs.ChainViews.{unboxed};
ghost use Rattle.chain_rules.specs.Axioms.{IsInstance};
ghost use Rattle.chain_rules.specs.Chained.{Holds};
ghost use Rattle.chain_rules.specs.Working.LineViews.{equation_of, line_parts};

use crate::axioms::fits;
use crate::chain::{Axiom, Chain, Line};
use crate::equality::{is_zero, same_term};
use crate::fixed_points::{ChainEnds, fits_lfp, fits_rfp};
use crate::place::{are_equal_outside, subterm};
use crate::test_terms::are_equal_tests;
use kat_model::{Kat, NoMemory, Problem};
use std::alloc::Global;

/// Returns the last term of a chain.
pub(crate) fn last_term(chain: &Chain) -> &Kat
    ensures { kat_tree result.now ≡ last_term chain.now }
{
    match chain.lines.last() {
        Some(line) => &line.next,
        None => &chain.first,
    }
}

fn ends(chain: &Chain) -> ChainEnds<'_>
    ensures { equation_of result ≡ ends_of chain.now }
{
    ChainEnds {
        first: &chain.first,
        last: last_term(chain),
    }
}

fn premise_of(inner: &Option<Box<Chain>>) -> Option<ChainEnds<'_>>
    ensures { option_map equation_of result ≡ option_map ends_of (unboxed inner.now) }
{
    match inner {
        Some(chain) => Some(ends(chain)),
        None => None,
    }
}

// Whether `left` is hypothesis `number` of the problem, and `right` is 0.
fn fits_hyp(problem: &Problem, number: u64, left: &Kat, right: &Kat) -> bool
    ensures { IsTrue result ↔ ((slice_get problem.now.hyps number ≡ Some (kat_tree left.now)) × (kat_tree right.now ≡ zero)) }
{
    match problem.hyps().get(number as usize) {
        Some(hyp) => same_term(hyp, left) && is_zero(right),
        None => false,
    }
}

// Whether the terms, from left to right, are an instance of the axiom without an inner chain.
fn is_plain_instance(
    alloc: Global,
    problem: &Problem,
    rule: Axiom,
    left: &Kat,
    right: &Kat,
) -> Result<bool, NoMemory>
    requires left { HasTestsBelow problem.now.tests (kat_tree left.now) }
    requires right { HasTestsBelow problem.now.tests (kat_tree right.now) }
    ensures { IfOk result (λ fits. IsTrue fits ↔ IsInstance problem.now rule None (equation (kat_tree left.now) (kat_tree right.now))) }
{
    match rule {
        Axiom::Bool => are_equal_tests(alloc, problem.tests(), left, right),
        Axiom::Hyp(number) => Ok(fits_hyp(problem, number, left, right)),
        _ => Ok(fits(rule, left, right)),
    }
}

// Whether the terms, from left to right, are an instance of the axiom with this premise.
fn is_instance(
    alloc: Global,
    problem: &Problem,
    rule: Axiom,
    premise: Option<ChainEnds>,
    left: &Kat,
    right: &Kat,
) -> Result<bool, NoMemory>
    requires left { HasTestsBelow problem.now.tests (kat_tree left.now) }
    requires right { HasTestsBelow problem.now.tests (kat_tree right.now) }
    ensures { IfOk result (λ fits. IsTrue fits ↔ IsInstance problem.now rule (option_map equation_of premise.entry) (equation (kat_tree left.now) (kat_tree right.now))) }
{
    match rule {
        Axiom::Lfp => Ok(fits_lfp(premise, left, right)),
        Axiom::Rfp => Ok(fits_rfp(premise, left, right)),
        _ if premise.is_some() => Ok(false),
        _ => is_plain_instance(alloc, problem, rule, left, right),
    }
}

// Whether the terms are an instance of the axiom with this premise, in one order or the other.
fn is_instance_either_way(
    alloc: Global,
    problem: &Problem,
    rule: Axiom,
    premise: Option<ChainEnds>,
    x: &Kat,
    y: &Kat,
) -> Result<bool, NoMemory>
    requires x { HasTestsBelow problem.now.tests (kat_tree x.now) }
    requires y { HasTestsBelow problem.now.tests (kat_tree y.now) }
    ensures { IfOk result (λ fits. IsTrue fits ↔
        (IsInstance problem.now rule (option_map equation_of premise.entry) (equation (kat_tree x.now) (kat_tree y.now))
        ⊎ IsInstance problem.now rule (option_map equation_of premise.entry) (equation (kat_tree y.now) (kat_tree x.now)))) }
{
    if is_instance(alloc, problem, rule, premise, x, y)? {
        return Ok(true);
    }
    is_instance(alloc, problem, rule, premise, y, x)
}

/// Whether the line holds after the term `before`.
pub(crate) fn holds(
    alloc: Global,
    problem: &Problem,
    before: &Kat,
    line: &Line,
) -> Result<bool, NoMemory>
    requires before { IsInRange problem.now.tests problem.now.actions (kat_tree before.now) }
    requires after { IsInRange problem.now.tests problem.now.actions (kat_tree line.now.next) }
    ensures { IfOk result (λ holds. IsTrue holds ↔ Holds problem.now (line_parts (kat_tree before.now) line.now)) }
{
    if !are_equal_outside(before, &line.next, &line.path) {
        return Ok(false);
    }
    let Some(x) = subterm(before, &line.path) else {
        return Ok(false);
    };
    let Some(y) = subterm(&line.next, &line.path) else {
        return Ok(false);
    };
    is_instance_either_way(alloc, problem, line.rule, premise_of(&line.inner), x, y)
}
