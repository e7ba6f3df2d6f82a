//! The least values of two atoms at which a question fails, by cases on tests, false first.
ghost use Rattle.std.specs.Prelude.{◌≡◌, ◌+◌, length, IfOk, IfSome, MatchBool, OnOk};
ghost use Rattle.std.specs.Option.{option_map};
ghost use Rattle.cert_checker.specs.Cases.{IsOpen};
ghost use Rattle.cert_checker.specs.LeastFailures.{least_of, IsBelow, IsFirstFailure};
ghost use Rattle.cert_checker.specs.Questions.{IsPosed, MatchAt};
ghost use Rattle.cert_checker.specs.Working.Outcomes.{IsOutcome};

use crate::known::TestCase;
use crate::matching::{Outcome, outcome_of};
use crate::question::Question;
use kat_model::NoMemory;
use std::alloc::Global;

// Returns the least values that extend the decided tests.
fn least_values(alloc: Global, decided: &[Option<bool>]) -> Result<Vec<bool>, NoMemory>
    ensures { IfOk result (λ v. v.items ≡ least_of decided.now) }
{
    let mut values = Vec::new(alloc);
    for value in decided {
        values.push(value.unwrap_or(false))?;
    }
    Ok(values)
}

// Whether no values that extend the decided tests are below the bound.
fn are_past(
    alloc: Global,
    decided: &[Option<bool>],
    bound: Option<&Vec<bool>>,
) -> Result<bool, NoMemory>
    requires { IfSome bound (λ b. length b.now.items ≡ length decided.now) }
    ensures { IfOk result (λ past. MatchBool past (IsBelow (option_map (λ b. b.now.items) bound.entry) (least_of decided.now) → ⊥) (IsBelow (option_map (λ b. b.now.items) bound.entry) (least_of decided.now))) }
{
    let Some(bound) = bound else {
        return Ok(false);
    };
    let least = least_values(alloc, decided)?;
    Ok(*bound <= least)
}

// Returns what is known of the question in this case.
fn outcome_in(question: &Question, case: &mut TestCase) -> Result<Outcome, NoMemory>
    requires question { IsPosed question.now }
    requires decided { length case.old.decided.items ≡ question.now.tables.width + question.now.tables.width }
    ensures outcome { IfOk result (IsOutcome (MatchAt question.now.tables question.now) case.old.decided.items) }
    ensures decided { case.new.decided ≡ case.old.decided }
{
    case.evaluate(question)?;
    outcome_of(question, case)
}

/// Returns the least values of two atoms, those of the first atom followed by those of the second, that extend the
/// decided tests, are below the bound, and at which the question fails.
#[cycle(least_failure)]
pub(crate) fn least_failure(
    question: &Question,
    case: &mut TestCase,
    bound: Option<&Vec<bool>>,
) -> Result<Option<Vec<bool>>, NoMemory>
    requires question { IsPosed question.now }
    requires decided { length case.old.decided.items ≡ question.now.tables.width + question.now.tables.width }
    requires bound { IfSome bound (λ b. length b.now.items ≡ length case.old.decided.items) }
    ensures failure { IfOk result (λ o. IsFirstFailure (λ x. IsBelow (option_map (λ b. b.now.items) bound.entry) x → MatchAt question.now.tables question.now x) case.old.decided.items (option_map (λ v. v.items) o)) }
    ensures decided { OnOk result (case.new.decided.items ≡ case.old.decided.items) }
{
    let alloc = question.tables.alloc();
    let past = are_past(alloc, &case.decided, bound)?;
    if past {
        return Ok(None);
    }
    match outcome_in(question, case)? {
        Outcome::Holds => Ok(None),
        Outcome::Fails => Ok(Some(least_values(alloc, &case.decided)?)),
        Outcome::Undecided(test) => failure_by(question, case, bound, test),
    }
}

// Returns what `least_failure` does, by the two values of an open test.
#[cycle(least_failure)]
fn failure_by(
    question: &Question,
    case: &mut TestCase,
    bound: Option<&Vec<bool>>,
    test: usize,
) -> Result<Option<Vec<bool>>, NoMemory>
    requires question { IsPosed question.now }
    requires decided { length case.old.decided.items ≡ question.now.tables.width + question.now.tables.width }
    requires bound { IfSome bound (λ b. length b.now.items ≡ length case.old.decided.items) }
    requires open { IsOpen case.old.decided.items test }
    ensures failure { IfOk result (λ o. IsFirstFailure (λ x. IsBelow (option_map (λ b. b.now.items) bound.entry) x → MatchAt question.now.tables question.now x) case.old.decided.items (option_map (λ v. v.items) o)) }
    ensures decided { OnOk result (case.new.decided.items ≡ case.old.decided.items) }
{
    case.decide(test, Some(false));
    let low = least_failure(question, case, bound)?;
    case.decide(test, Some(true));
    let high = least_failure(question, case, low.as_ref().or(bound))?;
    case.decide(test, None);
    Ok(high.or(low))
}
