//! A problem: two terms, and the hypotheses under which they are compared.
ghost use Rattle.std.specs.Prelude.{◌≡◌, ◌+◌, map, IfOk, IfErr, Some};
ghost use Rattle.std.specs.Option.{option_or};
ghost use Rattle.kat_model.specs.Trees.{kat_tree, test_tree, term_size};
ghost use Rattle.kat_model.specs.Problems.{IsProblem, first_test_out, first_out, first_out_of_all, terms_size, counted, bad_above, problem_parts, problem_fault};
ghost use Rattle.kat_model.specs.declared.limits.TheConstants.{MAX_TERM_NODES};
ghost use Rattle.kat_model.specs.declared.problem.BadProblem.TheVariants.{TooLarge};

use crate::limits::{MAX_ACTIONS, MAX_TERM_NODES, MAX_TESTS};
use crate::tree::{Kat, Test};
use std::marker::Model;

/// Why the parts do not form a problem: the first reason that applies, in this order.
#[derive(Clone, Copy)]
pub enum BadProblem {
    /// There are more than `MAX_TESTS` tests: this many.
    TooManyTests(usize),
    /// There are more than `MAX_ACTIONS` actions: this many.
    TooManyActions(usize),
    /// This number of a primitive test is not below the number of tests. It is the first number out of
    /// range, in preorder over the hypotheses, left and right.
    TestRange(usize),
    /// This number of an action is not below the number of actions. It is also the first number out of range.
    ActionRange(usize),
    /// There are more than `MAX_TERM_NODES` nodes in hypotheses, left and right: this many, saturated at `u64::MAX`.
    TooLarge(u64),
}

/// A question within the limits: do `left` and `right` denote one relation in every table in which no hypothesis
/// relates any states? Tests and actions are numbered from 0.
pub struct Problem {
    tests: usize,
    actions: usize,
    hyps: Vec<Kat>,
    left: Kat,
    right: Kat,
}

// Explicit, as for tests.
impl Drop for Problem {
    fn drop(self) {
        let Problem {
            tests: _,
            actions: _,
            hyps: _hyps,
            left: _left,
            right: _right,
        } = self;
    }
}

impl Model for Problem {
    ghost use Rattle.std.specs.Prelude.{◌≡◌, None};
    ghost use Rattle.std.specs.Coded.{codes};
    ghost use Rattle.kat_model.specs.Problems.{ProblemParts, problem_parts, problem_fault};
    ghost use Rattle.kat_model.specs.Codes.{coded_term};

    ghost Value = { ProblemParts };

    ghost coded = { Prim.hlevel (codes, coded_term) };

    ghost view = { λ p. problem_parts p.tests p.actions p.hyps.items p.left p.right };

    ghost invariant = { λ p. problem_fault (problem_parts p.tests p.actions p.hyps.items p.left p.right) ≡ None };
}

fn test_out(test: &Test, tests: usize) -> Option<usize>
    ensures { result ≡ first_test_out tests (test_tree test.now) }
{
    match test {
        Test::False | Test::True => None,
        Test::Prim(k) => { if *k < tests { None } else { Some(*k) } }
        Test::Not(b) => test_out(b, tests),
        Test::And(b, c) | Test::Or(b, c) => match test_out(b, tests) {
            Some(k) => Some(k),
            None => test_out(c, tests),
        },
    }
}

fn term_out(term: &Kat, tests: usize, actions: usize) -> Option<BadProblem>
    ensures { result ≡ first_out tests actions (kat_tree term.now) }
{
    match term {
        Kat::Zero | Kat::One => None,
        Kat::Test(b) => match test_out(b, tests) {
            Some(k) => Some(BadProblem::TestRange(k)),
            None => None,
        },
        Kat::Act(a) => {
            if *a < actions {
                None
            } else {
                Some(BadProblem::ActionRange(*a))
            }
        }
        Kat::Sum(e, f) | Kat::Seq(e, f) => match term_out(e, tests, actions) {
            Some(bad) => Some(bad),
            None => term_out(f, tests, actions),
        },
        Kat::Star(e) => term_out(e, tests, actions),
    }
}

fn terms_out(terms: &[Kat], tests: usize, actions: usize) -> Option<BadProblem>
    ensures { result ≡ first_out_of_all tests actions (map kat_tree terms.now) }
{
    for term in terms {
        if let Some(bad) = term_out(term, tests, actions) {
            return Some(bad);
        }
    }
    None
}

fn total_size(terms: &[Kat]) -> u64
    ensures { result ≡ counted (terms_size (map kat_tree terms.now)) }
{
    let mut total: u64 = 0;
    for term in terms {
        total = total.saturating_add(term.size());
    }
    total
}

// Returns the first number out of range, in preorder over the hypotheses, left and right.
fn number_out(
    tests: usize,
    actions: usize,
    hyps: &[Kat],
    left: &Kat,
    right: &Kat,
) -> Option<BadProblem>
    ensures { result ≡ option_or (first_out_of_all tests actions (map kat_tree hyps.now)) (option_or (first_out tests actions (kat_tree left.now)) (first_out tests actions (kat_tree right.now))) }
{
    if let Some(bad) = terms_out(hyps, tests, actions) {
        return Some(bad);
    }
    match term_out(left, tests, actions) {
        Some(bad) => Some(bad),
        None => term_out(right, tests, actions),
    }
}

// Returns `TooLarge` if the terms have too many nodes.
fn too_large(hyps: &[Kat], left: &Kat, right: &Kat) -> Option<BadProblem>
    ensures { let size = terms_size (map kat_tree hyps.now) + term_size (kat_tree left.now) + term_size (kat_tree right.now) in
        result ≡ bad_above MAX_TERM_NODES size (TooLarge (counted size)) }
{
    let total = total_size(hyps)
        .saturating_add(left.size())
        .saturating_add(right.size());
    if total > MAX_TERM_NODES {
        return Some(BadProblem::TooLarge(total));
    }
    None
}

// Returns the first reason why these parts do not form a problem.
fn fault_of(
    tests: usize,
    actions: usize,
    hyps: &[Kat],
    left: &Kat,
    right: &Kat,
) -> Option<BadProblem>
    ensures { result ≡ problem_fault (problem_parts tests actions hyps.now left.now right.now) }
{
    if tests > MAX_TESTS {
        return Some(BadProblem::TooManyTests(tests));
    }
    if actions > MAX_ACTIONS {
        return Some(BadProblem::TooManyActions(actions));
    }
    match number_out(tests, actions, hyps, left, right) {
        Some(bad) => Some(bad),
        None => too_large(hyps, left, right),
    }
}

// Drops the terms of a refused problem. In one function that either drops them or builds a value from them, the proof
// takes long.
fn drop_terms(_hyps: Vec<Kat>, _left: Kat, _right: Kat) {}

impl Problem {
    /// Returns the problem with these parts if they are within the limits, and otherwise the first reason why not; the
    /// trees are dropped then. Takes no memory.
    pub fn new(
        tests: usize,
        actions: usize,
        hyps: Vec<Kat>,
        left: Kat,
        right: Kat,
    ) -> Result<Problem, BadProblem>
        ensures made { IfOk result (λ p. p ≡ problem_parts tests actions hyps.items left right) }
        ensures within { IfOk result IsProblem }
        ensures refused { IfErr result (λ bad. problem_fault (problem_parts tests actions hyps.items left right) ≡ Some bad) }
    {
        if let Some(bad) = fault_of(tests, actions, &hyps, &left, &right) {
            drop_terms(hyps, left, right);
            return Err(bad);
        }
        Ok(Problem {
            tests,
            actions,
            hyps,
            left,
            right,
        })
    }

    /// Returns the number of tests, at most `MAX_TESTS`.
    pub fn tests(&self) -> usize
        ensures value { result ≡ self.now.tests }
        ensures within { IsProblem self.now }
    {
        self.tests
    }

    /// Returns the number of actions, at most `MAX_ACTIONS`.
    pub fn actions(&self) -> usize
        ensures value { result ≡ self.now.actions }
        ensures within { IsProblem self.now }
    {
        self.actions
    }

    /// Returns the hypotheses. Each states that a term is 0.
    pub fn hyps(&self) -> &[Kat]
        ensures value { map kat_tree result.now ≡ self.now.hyps }
        ensures within { IsProblem self.now }
    {
        &self.hyps
    }

    /// Returns the left side.
    pub fn left(&self) -> &Kat
        ensures value { kat_tree result.now ≡ self.now.left }
        ensures within { IsProblem self.now }
    {
        &self.left
    }

    /// Returns the right side.
    pub fn right(&self) -> &Kat
        ensures value { kat_tree result.now ≡ self.now.right }
        ensures within { IsProblem self.now }
    {
        &self.right
    }
}
