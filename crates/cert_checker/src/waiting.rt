//! Undecided tests that a question depends on.
ghost use Rattle.std.specs.Prelude.{◌≡◌, None, MatchOption, IfSome};
ghost use Rattle.cert_checker.specs.Sides.{IsWaitedBy, IsWaitedByOne, AreTargetSides};
ghost use Rattle.cert_checker.specs.Waiting.{IsWaited, AreTestsSettled};

use crate::derivatives::Targets;
use crate::known::{TestCase, Truth, test_value, value_of};
use crate::question::Question;
use crate::sides::{TargetSides, is_sure};

// Whether all of the terms are surely among the targets.
fn has_surely_all(targets: &Targets, terms: &[usize], known: &[Truth]) -> bool {
    for term in terms {
        if !is_sure(targets, *term, known) {
            return false;
        }
    }
    true
}

/// Returns an undecided test that a listed pair depends on, preferably of a pair whose sets are surely subsets of the
/// two sets.
pub(crate) fn undecided_test_of_pairs(question: &Question, case: &TestCase) -> Option<usize>
    ensures { MatchOption result (AreTestsSettled case.now.end.items question.now.action_pass.pairs) (IsWaited question.now case.now) }
{
    let (action_pass, mut waiting) = (question.action_pass, None);
    for pair in action_pass.pairs {
        if let Truth::Undecided(test) = test_value(&case.end, pair.test) {
            if has_surely_all(&question.left, pair.left.as_slice(), &case.begin)
                && has_surely_all(&question.right, pair.right.as_slice(), &case.begin)
            {
                return Some(test);
            }
            waiting = Some(test);
        }
    }
    waiting
}

// Returns an undecided test that the guard of the universal term depends on.
fn waiting_universal(targets: &Targets, universal: Option<usize>, known: &[Truth]) -> Option<usize>
    ensures { IfSome result (IsWaitedBy known.now targets.now.entries) }
{
    match value_of(known, *targets.get(&universal?)?) {
        Truth::Known(_) => None,
        Truth::Undecided(test) => Some(test),
    }
}

/// Returns an undecided test that some guard depends on: preferably that of the universal term, then that of an open
/// term.
pub(crate) fn waiting_guard(
    question: &Question,
    known: &[Truth],
    sides: &TargetSides,
) -> Option<usize>
    requires { AreTargetSides known.now question.now.left question.now.right sides.now }
    ensures { MatchOption result ((sides.now.left.waits ≡ None) × (sides.now.right.waits ≡ None)) (IsWaitedByOne known.now question.now.left question.now.right) }
{
    let action_pass = question.action_pass;
    waiting_universal(&question.left, action_pass.universal, known)
        .or(waiting_universal(&question.right, action_pass.universal, known))
        .or(sides.left.alone_waits)
        .or(sides.right.alone_waits)
        .or(sides.left.waits)
        .or(sides.right.waits)
}
