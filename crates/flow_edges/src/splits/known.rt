//! What tests say of a comparison.
ghost use Rattle.std.specs.Prelude.{◌≡◌, ◌∷◌};
ghost use Rattle.std.specs.Option.{option_or};
ghost use Rattle.flow_forms.specs.Comparisons.{comparison_tree, is_same_comparison};
ghost use Rattle.flow_edges.specs.Working.Splitting.{value_by_cond, value_by_conds};

use flow_forms::{FlowComparison, same_comparison};
use flow_ways::FlowCond;

fn is_same(left: &FlowComparison, right: &FlowComparison) -> bool
    ensures { result ≡ is_same_comparison (comparison_tree left.now) (comparison_tree right.now) }
{
    same_comparison(left, right)
}

// Returns the first of two answers that is one.
fn first_of(first: Option<bool>, second: Option<bool>) -> Option<bool>
    ensures { result ≡ option_or first second }
{
    match first {
        Some(holds) => Some(holds),
        None => second,
    }
}

// Returns whether a comparison holds, if that follows without further cases from whether a condition holds.
#[tactic(auto, using(crate::proofs::KnownFacts::known_first))]
fn value_by(cond: &FlowCond, holds: bool, comparison: &FlowComparison) -> Option<bool>
    ensures { result ≡ value_by_cond cond.now holds comparison.now }
{
    match cond {
        FlowCond::Constantly(_) => None,
        FlowCond::Atom(own) => {
            if is_same(own, comparison) {
                return Some(holds);
            }
            None
        }
        FlowCond::Negation(inner) => value_by(inner, !holds, comparison),
        FlowCond::Both(left, right) => {
            if !holds {
                return None;
            }
            first_of(
                value_by(left, true, comparison),
                value_by(right, true, comparison),
            )
        }
        FlowCond::Either(left, right) => {
            if holds {
                return None;
            }
            first_of(
                value_by(left, false, comparison),
                value_by(right, false, comparison),
            )
        }
    }
}

/// Returns whether a comparison holds, if that follows without further cases from the tests that hold.
#[cycle(value_by_tests)]
pub(crate) fn value_by_tests(tests: &[FlowCond], comparison: &FlowComparison) -> Option<bool>
    ensures { result ≡ value_by_conds tests.now comparison.now }
{
    match tests {
        [] => None,
        [test, rest @ ..] => value_by_tests_from(test, rest, comparison),
    }
}

#[cycle(value_by_tests)]
#[tactic(auto, using(crate::proofs::KnownFacts::known_first))]
fn value_by_tests_from(
    test: &FlowCond,
    rest: &[FlowCond],
    comparison: &FlowComparison,
) -> Option<bool>
    ensures { result ≡ value_by_conds (test.now ∷ rest.now) comparison.now }
{
    let first = value_by(test, true, comparison);
    first_of(first, value_by_tests(rest, comparison))
}
