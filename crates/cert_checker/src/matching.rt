//! Whether the listed pairs match the sets that an action leads to, as far as the decided tests determine it.
ghost use Rattle.std.specs.Prelude.{◌≡◌, ◌↔◌, ◌⊎◌, ◌&&◌, nat_eq, false, None, slice_get, IsTrue, IfOk};
ghost use Rattle.std.specs.Cmp.Lexicographic.{pointwise};
ghost use Rattle.std.specs.Option.{option_map_or};
ghost use Rattle.kat_model.specs.Members.{IsSubset};
ghost use Rattle.certificate.specs.PairParts.{PairParts};
ghost use Rattle.cert_checker.specs.Questions.{IsPosed, IsTestCase, MatchAt};
ghost use Rattle.cert_checker.specs.Sides.{AreTargetSides, is_sure as is_sure'};
ghost use Rattle.cert_checker.specs.Moves.{IsMoveStatus};
ghost use Rattle.cert_checker.specs.Working.Outcomes.{IsOutcome};
ghost use Rattle.cert_checker.specs.Working.Matching.{does_count, lists, AreCovered, AreSurelyMatched};
ghost use Rattle.cert_checker.specs.Working.Reaching.{AreReached, IsReachedByBoth};
ghost use Rattle.cert_checker.specs.Working.Rounds.{counting_in, IsIndexed};

use crate::known::{TestCase, Truth};
use crate::moves::{MoveStatus, move_status};
use crate::question::Question;
use crate::saturation::{Counted, counts, reaches};
use crate::sides::{TargetSides, is_sure, side_of};
use crate::waiting::{undecided_test_of_pairs, waiting_guard};
use certificate::{Pair, Style};
use kat_model::NoMemory;

/// What is known of a question at all values of two atoms that extend the decided tests.
pub(crate) enum Outcome {
    /// It holds at all of these values.
    Holds,
    /// It fails at all of these values.
    Fails,
    /// It may depend on this test, which is not decided.
    Undecided(usize),
}

// Whether the pair has exactly these terms as its sets.
fn has_both(pair: &Pair, left: &[usize], right: &[usize]) -> bool
    ensures { result ≡ (pointwise nat_eq pair.now.left left.now && pointwise nat_eq pair.now.right right.now) }
{
    pair.left.as_slice() == left && pair.right.as_slice() == right
}

// Whether the pair at the place counts and has exactly these terms as its sets.
fn has_sets(counted: &Counted, place: usize, left: &[usize], right: &[usize]) -> bool
    ensures { result ≡ option_map_or (λ (p : PairParts). does_count counted.now.also_open counted.now.known.now p && (pointwise nat_eq p.left left.now && pointwise nat_eq p.right right.now)) (slice_get counted.now.action_pass.now.pairs place) false }
{
    let action_pass = counted.action_pass;
    let Some(pair) = action_pass.pairs.get(place) else {
        return false;
    };
    counts(counted, pair) && has_both(pair, left, right)
}

// Returns the shorter of two lists of places.
fn shorter<'a>(lefts: &'a [usize], rights: &'a [usize]) -> &'a [usize]
    ensures { (result.now ≡ lefts.now) ⊎ (result.now ≡ rights.now) }
{
    if rights.len() < lefts.len() {
        rights
    } else {
        lefts
    }
}

// Whether some pair that counts has exactly the surely present terms as its sets. Looks only at pairs that the index
// has under the last member of a set, of the two sets the one with fewer pairs, and compares these whole.
fn are_listed(counted: &Counted, sides: &TargetSides) -> bool
    requires { IsIndexed counted.now }
    ensures { result ≡ lists (counting_in counted.now) sides.now.left.sure.items sides.now.right.sure.items }
{
    let action_pass = counted.action_pass;
    let (left, right) = (sides.left.sure.as_slice(), sides.right.sure.as_slice());
    let lefts = action_pass.index.places(left.last().copied());
    let rights = action_pass.index.places(right.last().copied());
    let places = shorter(lefts, rights);
    for place in places {
        if has_sets(counted, *place, left, right) {
            return true;
        }
    }
    false
}

// Whether the pairs that count make each open term reachable from the surely present terms of the other set.
fn are_joined(counted: &Counted, sides: &TargetSides) -> Result<bool, NoMemory>
    requires { IsIndexed counted.now }
    ensures { IfOk result (λ b. IsTrue b ↔ (AreReached (counting_in counted.now) sides.now.right.sure.items sides.now.left.alone.items × AreReached (counting_in counted.now) sides.now.left.sure.items sides.now.right.alone.items)) }
{
    let left = reaches(counted, &sides.right.sure, &sides.left.alone)?;
    if !left {
        return Ok(false);
    }
    reaches(counted, &sides.left.sure, &sides.right.alone)
}

// Whether there is a universal term, and the pairs that count make it reachable from both sets.
fn reach_universal(counted: &Counted, sides: &TargetSides) -> Result<bool, NoMemory>
    requires { IsIndexed counted.now }
    ensures { IfOk result (λ b. IsTrue b ↔ IsReachedByBoth (counting_in counted.now) counted.now.action_pass.now.universal sides.now.left.sure.items sides.now.right.sure.items) }
{
    let action_pass = counted.action_pass;
    let Some(term) = action_pass.universal else {
        return Ok(false);
    };
    let left = reaches(counted, &sides.left.sure, &[term])?;
    if !left {
        return Ok(false);
    }
    reaches(counted, &sides.right.sure, &[term])
}

// Whether the pairs that count make each open term reachable from the surely present terms of the other set, or the
// universal term from both sets. Open terms must be surely present in their own set.
fn are_covered(counted: &Counted, sides: &TargetSides) -> Result<bool, NoMemory>
    requires indexed { IsIndexed counted.now }
    requires left { IsSubset sides.now.left.alone.items sides.now.left.sure.items }
    requires right { IsSubset sides.now.right.alone.items sides.now.right.sure.items }
    ensures { IfOk result (λ b. IsTrue b ↔ AreCovered (counting_in counted.now) counted.now.action_pass.now.universal sides.now) }
{
    if are_listed(counted, sides) {
        return Ok(true);
    }
    let joined = are_joined(counted, sides)?;
    if joined {
        return Ok(true);
    }
    reach_universal(counted, sides)
}

// Whether the pairs that count surely match the sets.
fn are_matched(counted: &Counted, sides: &TargetSides) -> Result<bool, NoMemory>
    requires indexed { IsIndexed counted.now }
    requires left { sides.now.left.alone_waits ≡ None → IsSubset sides.now.left.alone.items sides.now.left.sure.items }
    requires right { sides.now.right.alone_waits ≡ None → IsSubset sides.now.right.alone.items sides.now.right.sure.items }
    ensures { IfOk result (λ b. IsTrue b ↔ AreSurelyMatched counted.now.action_pass.now.style (counting_in counted.now) counted.now.action_pass.now.universal sides.now) }
{
    let (action_pass, left, right) = (counted.action_pass, &sides.left, &sides.right);
    match action_pass.style {
        Style::Plain => Ok(left.waits.or(right.waits).is_none() && are_listed(counted, sides)),
        Style::UpTo | Style::Under => {
            let waits = left.alone_waits.or(right.alone_waits);
            Ok(waits.is_none() && are_covered(counted, sides)?)
        }
    }
}

// Whether both sets surely contain the universal term.
fn are_universal(question: &Question, known: &[Truth]) -> bool
    ensures { result ≡ option_map_or (λ u. is_sure' known.now question.now.left u && is_sure' known.now question.now.right u) question.now.action_pass.universal false }
{
    let action_pass = question.action_pass;
    let Some(term) = action_pass.universal else {
        return false;
    };
    is_sure(&question.left, term, known) && is_sure(&question.right, term, known)
}

// Returns what is known of the question about a move that may count, given what is known of the targets of both sides.
fn outcome_by(
    question: &Question,
    case: &TestCase,
    the_move: MoveStatus,
    sides: &TargetSides,
) -> Result<Outcome, NoMemory>
    requires question { IsPosed question.now }
    requires case { IsTestCase question.now.tables question.now question.now.queried case.now.decided.items case.now }
    requires the_move { IsMoveStatus question.now case.now the_move }
    requires sides { AreTargetSides case.now.begin.items question.now.left question.now.right sides.now }
    ensures { IfOk result (IsOutcome (MatchAt question.now.tables question.now) case.now.decided.items) }
{
    let known = case.begin.as_slice();
    if are_universal(question, known) || are_matched(&Counted::of(question, case, false), sides)? {
        return Ok(Outcome::Holds);
    }
    if let MoveStatus::Tied(test) = the_move {
        return Ok(Outcome::Undecided(test));
    }
    if let Some(test) = waiting_guard(question, known, sides) {
        return Ok(Outcome::Undecided(test));
    }
    if are_covered(&Counted::of(question, case, true), sides)? {
        if let Some(test) = undecided_test_of_pairs(question, case) {
            return Ok(Outcome::Undecided(test));
        }
    }
    match the_move {
        MoveStatus::Counts => Ok(Outcome::Fails),
        MoveStatus::Tied(test) | MoveStatus::Undecided(test) => Ok(Outcome::Undecided(test)),
    }
}

/// Returns what is known of the question in this case. If it is not known, the returned test is chosen to keep the
/// number of cases low: first a test that is tied to decided ones; then a test of a guard, preferably of one where the
/// sides differ; then a test of a pair, if the pairs that may count cover the sets; then a test that decides whether
/// the move counts. A branch ends as soon as three-valued truth settles the answer, or both sets certainly have the
/// universal term. Exact dependence would end some branches earlier; the least place is the same.
pub(crate) fn outcome_of(question: &Question, case: &TestCase) -> Result<Outcome, NoMemory>
    requires question { IsPosed question.now }
    requires case { IsTestCase question.now.tables question.now question.now.queried case.now.decided.items case.now }
    ensures { IfOk result (IsOutcome (MatchAt question.now.tables question.now) case.now.decided.items) }
{
    let (alloc, known) = (question.tables.alloc(), case.begin.as_slice());
    let Some(the_move) = move_status(question, case) else {
        return Ok(Outcome::Holds);
    };
    let left = side_of(alloc, &question.left, &question.right, known)?;
    let right = side_of(alloc, &question.right, &question.left, known)?;
    outcome_by(question, case, the_move, &TargetSides { left, right })
}
