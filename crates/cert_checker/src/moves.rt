//! What is known of the move of a question, as far as the decided tests determine it.
ghost use Rattle.std.specs.Prelude.{◌≡◌, IsTrue, MatchOption};
ghost use Rattle.cert_checker.specs.Moves.{is_excluded, IsMoveStatus};
ghost use Rattle.cert_checker.specs.Working.MoveTests.{loose_by as loose_by', tied_by as tied_by', undecided_in as undecided_in'};

use crate::known::{TestCase, Truth, conjunction, is_false, is_true, test_value, value_of};
use crate::question::Question;

/// What is known of a move that may count.
#[derive(Clone, Copy)]
pub(crate) enum MoveStatus {
    /// It counts.
    Counts,
    /// Only this test decides whether some pair of tests forbids the move.
    Tied(usize),
    /// Whether it counts may depend on this test.
    Undecided(usize),
}

// Returns the test that an unknown value depends on.
fn undecided_in(known: Truth) -> Option<usize>
    ensures { result ≡ undecided_in' known }
{
    match known {
        Truth::Known(_) => None,
        Truth::Undecided(test) => Some(test),
    }
}

// Returns the test that alone decides whether both are true: one is true, and the other depends on the test.
fn tied_by(first: Truth, second: Truth) -> Option<usize>
    ensures { result ≡ tied_by' first second }
{
    if is_true(first) {
        return undecided_in(second);
    }
    if is_true(second) {
        return undecided_in(first);
    }
    None
}

// Returns a test that decides whether both are true, if neither is known to be true.
fn loose_by(first: Truth, second: Truth) -> Option<usize>
    ensures { result ≡ loose_by' first second }
{
    if is_true(first) || is_true(second) {
        return None;
    }
    undecided_in(conjunction(first, second))
}

/// Returns what is known of the move, or `None` if it does not count: the test of the pair is false at its beginning, or
/// the move is forbidden.
pub(crate) fn move_status(question: &Question, case: &TestCase) -> Option<MoveStatus>
    ensures { MatchOption result (IsTrue (is_excluded question.now case.now)) (IsMoveStatus question.now case.now) }
{
    let action_pass = question.action_pass;
    let (begin, end) = (case.begin.as_slice(), case.end.as_slice());
    let own = test_value(begin, question.pair_test);
    if is_false(own) {
        return None;
    }
    let mut waiting = undecided_in(own);
    let mut tied = None;
    for (from, to) in &action_pass.forbidden {
        let (first, second) = (value_of(begin, *from), value_of(end, *to));
        if is_true(conjunction(first, second)) {
            return None;
        }
        tied = tied.or(tied_by(first, second));
        waiting = waiting.or(loose_by(first, second));
    }
    if let Some(test) = tied {
        return Some(MoveStatus::Tied(test));
    }
    if let Some(test) = waiting {
        return Some(MoveStatus::Undecided(test));
    }
    Some(MoveStatus::Counts)
}
