//! The first place at which the pairs of a certificate fail.
ghost use Rattle.std.specs.Prelude.{◌≡◌, ◌<◌, ◌≤◌, ◌+◌, length, take, drop, IfOk, OnOk};
ghost use Rattle.std.specs.Option.{option_map};
ghost use Rattle.kat_model.specs.Members.{Has};
ghost use Rattle.cert_checker.specs.Cases.{undecided};
ghost use Rattle.cert_checker.specs.Passes.{IsPass, PassGrows, IsActionPass};
ghost use Rattle.cert_checker.specs.LeastFailures.{IsFirstFailure};
ghost use Rattle.cert_checker.specs.Working.Places.{IsFirstOf, IsLeastOf, PairHolds, place_reason, turn_number};

use crate::cases::least_failure;
use crate::derivatives::of_set;
use crate::known::TestCase;
use crate::pass::Pass;
use crate::question::{ActionPass, Question};
use certificate::Pair;
use kat_model::NoMemory;
use std::alloc::Global;

/// A pair and an atom at which the pair fails: without an action, its sets do not accept alike; with an action, the
/// sets that the action leads to are not matched at the atom after it. Places are ordered by pair, atom, action and the
/// atom after it. The order is the derived one. No clause needs equal places to be one place. Every style has the atom
/// that the move leads to; `Reason` omits it in styles that do not show it.
#[derive(PartialEq, Eq, PartialOrd, Ord, Drop)]
pub(crate) struct Place {
    pub pair: usize,
    pub atom: Vec<bool>,
    pub action: Option<usize>,
    pub to: Vec<bool>,
}

// Returns the least values of two atoms at which the pair fails.
fn pair_failure(
    pass: &mut Pass,
    action_pass: &ActionPass,
    case: &mut TestCase,
    pair: &Pair,
) -> Result<Option<Vec<bool>>, NoMemory>
    requires pass { IsPass pass.old }
    requires action_pass { IsActionPass pass.old action_pass.now }
    requires pair { Has pass.old.cert.pairs pair.now }
    requires undecided { case.old.decided.items ≡ undecided (pass.old.tables.width + pass.old.tables.width) }
    ensures failure { IfOk result (λ o. IsFirstFailure (PairHolds pass.old.problem pass.old.cert action_pass.now.action pair.now) (undecided (pass.old.problem.tests + pass.old.problem.tests)) (option_map (λ v. v.items) o)) }
    ensures undecided { OnOk result (case.new.decided.items ≡ case.old.decided.items) }
    ensures grows { PassGrows pass.old pass.new }
{
    let tables = &mut pass.tables;
    let left = of_set(
        tables,
        &action_pass.steps,
        pair.left.as_slice(),
        action_pass.action,
    )?;
    let right = of_set(
        tables,
        &action_pass.steps,
        pair.right.as_slice(),
        action_pass.action,
    )?;
    let question = Question::of(&pass.tables, action_pass, pair.test, left, right)?;
    least_failure(&question, case, None)
}

// Returns the place of a pair that fails at these values of two atoms. The first atom has `width` values.
fn place_of(
    alloc: Global,
    width: usize,
    pair: usize,
    action: Option<usize>,
    values: &[bool],
) -> Result<Place, NoMemory>
    requires { width ≤ length values.now }
    ensures { IfOk result (λ p. (p.pair ≡ pair) × (p.action ≡ action) × (p.atom.items ≡ take width values.now) × (p.to.items ≡ drop width values.now)) }
{
    let (first, second) = values.split_at(width);
    let atom = first.to_vec(alloc)?;
    let to = second.to_vec(alloc)?;
    Ok(Place {
        pair,
        atom,
        action,
        to,
    })
}

// Returns the first pair that fails in the pass, with its least atoms.
fn failure_in(
    pass: &mut Pass,
    action_pass: &ActionPass,
    case: &mut TestCase,
) -> Result<Option<Place>, NoMemory>
    requires pass { IsPass pass.old }
    requires action_pass { IsActionPass pass.old action_pass.now }
    requires action { turn_number action_pass.now.action < pass.old.problem.actions + 1 }
    requires undecided { case.old.decided.items ≡ undecided (pass.old.tables.width + pass.old.tables.width) }
    ensures first { IfOk result (λ o. IsFirstOf pass.old.problem pass.old.cert (λ n. n ≡ turn_number action_pass.now.action) (option_map (place_reason pass.old.cert.style) o)) }
    ensures grows { PassGrows pass.old pass.new }
{
    let (alloc, width) = (pass.tables.alloc(), pass.tables.width());
    let cert = pass.cert;
    for (pair, sets) in cert.pairs().iter().enumerate() {
        if let Some(values) = pair_failure(pass, action_pass, case, sets)? {
            let place = place_of(alloc, width, pair, action_pass.action, &values)?;
            return Ok(Some(place));
        }
    }
    Ok(None)
}

// Returns the first pair that fails by its outputs or by the action, with its least atom.
fn first_failure(pass: &mut Pass, action: Option<usize>) -> Result<Option<Place>, NoMemory>
    requires pass { IsPass pass.old }
    requires action { turn_number action < pass.old.problem.actions + 1 }
    ensures first { IfOk result (λ o. IsFirstOf pass.old.problem pass.old.cert (λ n. n ≡ turn_number action) (option_map (place_reason pass.old.cert.style) o)) }
    ensures grows { PassGrows pass.old pass.new }
{
    let (alloc, width) = (pass.tables.alloc(), pass.tables.width());
    let action_pass = pass.action_pass(action)?;
    let mut case = TestCase::new(alloc, width)?;
    failure_in(pass, &action_pass, &mut case)
}

/// Returns the first place at which the pairs fail. Checks outputs and each action separately.
pub(crate) fn first_place(pass: &mut Pass) -> Result<Option<Place>, NoMemory>
    requires { IsPass pass.old }
    ensures { IfOk result (λ o. IsFirstOf pass.old.problem pass.old.cert (λ n. n < pass.old.problem.actions + 1) (option_map (place_reason pass.old.cert.style) o)) }
{
    let mut place = first_failure(pass, None)?;
    for action in 0..pass.problem.actions() {
        place = least_place(place, first_failure(pass, Some(action))?);
    }
    Ok(place)
}

// Returns the lesser of the given places. `Option::min` would return `None` for one missing place, where the checker
// needs the place that exists.
fn least_place(first: Option<Place>, second: Option<Place>) -> Option<Place>
    ensures { IsLeastOf first second result }
{
    match (first, second) {
        (Some(first), Some(second)) => Some(first.min(second)),
        (first, second) => first.or(second),
    }
}
