//! Hypotheses of assignments: a test holds after an action exactly where a condition holds before it.
ghost use Rattle.std.specs.Prelude.{◌≡◌, ◌+◌, ◌^◌, ◌<◌, [], ◌∷◌, IfOk, length, map};
ghost use Rattle.kat_model.specs.Trees.{test_tree, kat_tree};
ghost use Rattle.flow_forms.specs.Comparisons.{comparison_tree};
ghost use Rattle.flow_problem.specs.Substitutions.{prim_of};
ghost use Rattle.flow_problem.specs.FlowFacts.{ends_in as no_end_outside, ends_outside as no_end_in, keeps_test};
ghost use Rattle.flow_abstraction.specs.Working.Adding.{Adds, wrong_end_of, leaving_fact, entering_fact};
ghost use Rattle.flow_abstraction.specs.Working.Assignments.{literal_facts, test_facts, tests_facts, assignment_facts, action_facts, actions_facts, assignments_facts};
ghost use Rattle.flow_edges.specs.Working.Views.{Makes};

use crate::after::literal_with;
use crate::assigned_forms::forms_after;
use crate::hypothesis::{FlowHypothesis, FlowRule, push_hypothesis};
use flow_edges::FlowAction;
use flow_forms::{FlowComparison, FlowForm, FlowLiteral};
use flow_model::Sort;
use kat_model::{Kat, MAX_HYPS, NoMemory, Test, place_of};
use std::alloc::Global;

// Returns that an action ends outside a test.
fn ends_in(alloc: Global, action: usize, test: usize) -> Result<Kat, NoMemory>
    ensures { IfOk result (λ e. kat_tree e ≡ no_end_outside action test) }
{
    let outside = Test::new_not(alloc, Test::Prim(test))?;
    Kat::new_seq(alloc, Kat::Act(action), Kat::Test(outside))
}

// Returns that an action ends in a test.
fn ends_outside(alloc: Global, action: usize, test: usize) -> Result<Kat, NoMemory>
    ensures { IfOk result (λ e. kat_tree e ≡ no_end_in action test) }
{
    Kat::new_seq(alloc, Kat::Act(action), Kat::Test(Test::Prim(test)))
}

// Returns that an action ends outside a test that always holds after it, or in one that never does.
fn wrong_end(alloc: Global, action: usize, test: usize, holds: bool) -> Result<Kat, NoMemory>
    ensures { Makes kat_tree result (wrong_end_of holds action test) }
{
    if holds {
        return ends_in(alloc, action, test);
    }
    ends_outside(alloc, action, test)
}

// Appends that a test holds after an action wherever a condition holds before it.
fn add_leaving(
    alloc: Global,
    action: usize,
    test: usize,
    before: &Test,
    list: &mut Vec<FlowHypothesis>,
) -> Result<(), NoMemory>
    ensures { Adds result list.old list.new (leaving_fact action test before.now ∷ []) }
{
    let holds = before.copy(alloc)?;
    let leaving = ends_in(alloc, action, test)?;
    let term = Kat::new_seq(alloc, Kat::Test(holds), leaving)?;
    push_hypothesis(list, FlowRule::Assignment(action, test), term)
}

// Appends that a test holds after an action only where a condition holds before it.
fn add_entering(
    alloc: Global,
    action: usize,
    test: usize,
    before: Test,
    list: &mut Vec<FlowHypothesis>,
) -> Result<(), NoMemory>
    ensures { Adds result list.old list.new (entering_fact action test before ∷ []) }
{
    let fails = Test::new_not(alloc, before)?;
    let entering = ends_outside(alloc, action, test)?;
    let term = Kat::new_seq(alloc, Kat::Test(fails), entering)?;
    push_hypothesis(list, FlowRule::Assignment(action, test), term)
}

// Appends that a test holds after an action exactly where a condition holds before it.
#[tactic(auto, using(crate::proofs::CappedHypotheses::capped_two))]
fn add_kept(
    alloc: Global,
    action: usize,
    test: usize,
    before: Test,
    list: &mut Vec<FlowHypothesis>,
) -> Result<(), NoMemory>
    ensures { Adds result list.old list.new (keeps_test action test (test_tree before)) }
{
    add_leaving(alloc, action, test, &before, list)?;
    add_entering(alloc, action, test, before, list)
}

#[tactic(auto, using(crate::proofs::ActionFacts::place_is_prim))]
fn prim_place(tests: &[FlowComparison], comparison: &FlowComparison) -> Option<usize>
    ensures { result ≡ prim_of (map comparison_tree tests.now) (comparison_tree comparison.now) }
{
    place_of(tests, comparison)
}

// Appends the hypotheses of an action and a test whose condition before the action is known.
fn add_literal_facts(
    alloc: Global,
    tests: &[FlowComparison],
    action: usize,
    test: usize,
    literal: &FlowLiteral,
    list: &mut Vec<FlowHypothesis>,
) -> Result<(), NoMemory>
    ensures { Adds result list.old list.new (literal_facts tests.now action test literal.now) }
{
    match literal {
        FlowLiteral::Decided(holds) => {
            let term = wrong_end(alloc, action, test, *holds)?;
            push_hypothesis(list, FlowRule::Assignment(action, test), term)
        }
        FlowLiteral::Holds(comparison) => match prim_place(tests, comparison) {
            Some(k) => add_kept(alloc, action, test, Test::Prim(k), list),
            None => Ok(()),
        },
        FlowLiteral::Fails(comparison) => match prim_place(tests, comparison) {
            Some(k) => {
                let opposite = Test::new_not(alloc, Test::Prim(k))?;
                add_kept(alloc, action, test, opposite, list)
            }
            None => Ok(()),
        },
    }
}

// An assignment with its number, and the forms of the variables after it.
#[derive(Clone, Copy)]
struct Assignment<'a> {
    number: usize,
    sets: &'a [Option<FlowForm>],
    forms: &'a [FlowForm],
}

// What hypotheses are made of.
#[derive(Clone, Copy)]
struct Setting<'a> {
    alloc: Global,
    sorts: &'a [Sort],
    tests: &'a [FlowComparison],
}

fn add_test_facts(
    setting: &Setting<'_>,
    action: &Assignment<'_>,
    number: usize,
    test: &FlowComparison,
    list: &mut Vec<FlowHypothesis>,
) -> Result<(), NoMemory>
    ensures { Adds result list.old list.new (test_facts setting.now action.now number test.now) }
{
    let alloc = setting.alloc;
    let known = literal_with(alloc, setting.sorts, action.sets, action.forms, test)?;
    match known {
        Some(literal) => add_literal_facts(
            alloc,
            setting.tests,
            action.number,
            number,
            &literal,
            list,
        ),
        None => Ok(()),
    }
}

// Appends the hypotheses of an assignment and each of some tests, which are numbered from `number`.
#[cycle(add_tests_facts)]
fn add_tests_facts(
    setting: &Setting<'_>,
    action: &Assignment<'_>,
    number: usize,
    tests: &[FlowComparison],
    list: &mut Vec<FlowHypothesis>,
) -> Result<(), NoMemory>
    requires { number + length tests.now < 2 ^ 64 }
    ensures { Adds result list.old list.new (tests_facts setting.now action.now number tests.now) }
{
    match tests {
        [] => Ok(()),
        [test, rest @ ..] => add_tests_facts_from(setting, action, number, test, rest, list),
    }
}

#[cycle(add_tests_facts)]
fn add_tests_facts_from(
    setting: &Setting<'_>,
    action: &Assignment<'_>,
    number: usize,
    test: &FlowComparison,
    rest: &[FlowComparison],
    list: &mut Vec<FlowHypothesis>,
) -> Result<(), NoMemory>
    requires { number + length rest.now + 1 < 2 ^ 64 }
    ensures { Adds result list.old list.new (tests_facts setting.now action.now number (test.now ∷ rest.now)) }
{
    add_test_facts(setting, action, number, test, list)?;
    add_tests_facts(setting, action, number + 1, rest, list)
}

// Appends the hypotheses of an assignment and each test.
#[tactic(auto, using(crate::proofs::ActionFacts::assigned_facts))]
fn add_assignment_facts(
    setting: &Setting<'_>,
    number: usize,
    sets: &[Option<FlowForm>],
    list: &mut Vec<FlowHypothesis>,
) -> Result<(), NoMemory>
    ensures { Adds result list.old list.new (assignment_facts setting.now number sets.now) }
{
    let forms = forms_after(setting.alloc, setting.sorts, sets)?;
    let tests = setting.tests;
    let _known = tests.len();
    let action = Assignment {
        number,
        sets,
        forms: &forms,
    };
    add_tests_facts(setting, &action, 0, tests, list)
}

// Appends the hypotheses of an action and each test, unless there are too many already.
#[tactic(auto, using(crate::proofs::CappedHypotheses::past_limit))]
fn add_action_facts(
    setting: &Setting<'_>,
    number: usize,
    action: &FlowAction,
    list: &mut Vec<FlowHypothesis>,
) -> Result<(), NoMemory>
    ensures { Adds result list.old list.new (action_facts setting.now number action.now) }
{
    if list.len() > MAX_HYPS {
        return Ok(());
    }
    match action {
        FlowAction::Assigned(sets) => add_assignment_facts(setting, number, sets, list),
        FlowAction::Given(_) => Ok(()),
    }
}

// Appends the hypotheses of some actions, which are numbered from `number`, and each test.
#[cycle(add_actions_facts)]
fn add_actions_facts(
    setting: &Setting<'_>,
    number: usize,
    actions: &[FlowAction],
    list: &mut Vec<FlowHypothesis>,
) -> Result<(), NoMemory>
    requires { number + length actions.now < 2 ^ 64 }
    ensures { Adds result list.old list.new (actions_facts setting.now number actions.now) }
{
    match actions {
        [] => Ok(()),
        [action, rest @ ..] => add_actions_facts_from(setting, number, action, rest, list),
    }
}

#[cycle(add_actions_facts)]
fn add_actions_facts_from(
    setting: &Setting<'_>,
    number: usize,
    action: &FlowAction,
    rest: &[FlowAction],
    list: &mut Vec<FlowHypothesis>,
) -> Result<(), NoMemory>
    requires { number + length rest.now + 1 < 2 ^ 64 }
    ensures { Adds result list.old list.new (actions_facts setting.now number (action.now ∷ rest.now)) }
{
    add_action_facts(setting, number, action, list)?;
    add_actions_facts(setting, number + 1, rest, list)
}

/// Appends the hypotheses of assignments, until there are more than `MAX_HYPS`.
pub(crate) fn add_assignments_facts(
    alloc: Global,
    sorts: &[Sort],
    tests: &[FlowComparison],
    actions: &[FlowAction],
    list: &mut Vec<FlowHypothesis>,
) -> Result<(), NoMemory>
    ensures { Adds result list.old list.new (assignments_facts sorts.now tests.now actions.now) }
{
    let _known = actions.len();
    let setting = Setting {
        alloc,
        sorts,
        tests,
    };
    add_actions_facts(&setting, 0, actions, list)
}
