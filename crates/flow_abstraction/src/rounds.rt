//! Rounds: the comparisons that hold before an action exactly where tests hold after it become tests.
ghost use Rattle.std.specs.Prelude.{◌≡◌, ◌∷◌, IfOk, OnOk, map};
ghost use Rattle.flow_forms.specs.Comparisons.{comparison_tree};
ghost use Rattle.flow_abstraction.specs.Working.Rounds.{Adds, AddsOne, comparisons_in, before_one, before_all, before_sets, before_action, before_actions, IsRound, AreRounds};

use crate::after::literal_with;
use crate::assigned_forms::forms_after;
use flow_edges::FlowAction;
use flow_forms::{FlowComparison, FlowForm, FlowLiteral};
use flow_model::Sort;
use kat_model::{MAX_TESTS, NoMemory, append, has_row};
use std::alloc::Global;

// Appends a comparison, unless it is in the table already or the table is full.
#[tactic(auto, using(crate::proofs::GrownTables::full_table, crate::proofs::GrownTables::row_there, crate::proofs::GrownTables::row_added))]
fn add_comparison(
    table: &mut Vec<FlowComparison>,
    comparison: FlowComparison,
) -> Result<(), NoMemory>
    ensures { AddsOne result table.old table.new (comparison_tree comparison) }
{
    if table.len() >= MAX_TESTS || has_row(table, &comparison) {
        return Ok(());
    }
    append(table, comparison)
}

// Appends the comparison of a condition, if it has one.
fn add_literal(
    table: &mut Vec<FlowComparison>,
    literal: Option<FlowLiteral>,
) -> Result<(), NoMemory>
    ensures { Adds result table.old table.new (comparisons_in literal) }
{
    match literal {
        None => Ok(()),
        Some(FlowLiteral::Decided(_)) => Ok(()),
        Some(FlowLiteral::Holds(comparison)) => add_comparison(table, comparison),
        Some(FlowLiteral::Fails(comparison)) => add_comparison(table, comparison),
    }
}

// Appends what an assignment makes of a comparison.
#[tactic(auto, using(crate::proofs::GrownTables::full_tables))]
fn add_before(
    alloc: Global,
    sorts: &[Sort],
    sets: &[Option<FlowForm>],
    forms: &[FlowForm],
    comparison: &FlowComparison,
    table: &mut Vec<FlowComparison>,
) -> Result<(), NoMemory>
    ensures { Adds result table.old table.new (before_one sorts.now sets.now forms.now comparison.now) }
{
    if table.len() >= MAX_TESTS {
        return Ok(());
    }
    let literal = literal_with(alloc, sorts, sets, forms, comparison)?;
    add_literal(table, literal)
}

// Appends what an assignment makes of each of some comparisons.
#[cycle(add_all_before)]
fn add_all_before(
    alloc: Global,
    sorts: &[Sort],
    sets: &[Option<FlowForm>],
    forms: &[FlowForm],
    comparisons: &[FlowComparison],
    table: &mut Vec<FlowComparison>,
) -> Result<(), NoMemory>
    ensures { Adds result table.old table.new (before_all sorts.now sets.now forms.now comparisons.now) }
{
    match comparisons {
        [] => Ok(()),
        [first, rest @ ..] => add_all_before_from(alloc, sorts, sets, forms, first, rest, table),
    }
}

#[cycle(add_all_before)]
fn add_all_before_from(
    alloc: Global,
    sorts: &[Sort],
    sets: &[Option<FlowForm>],
    forms: &[FlowForm],
    first: &FlowComparison,
    rest: &[FlowComparison],
    table: &mut Vec<FlowComparison>,
) -> Result<(), NoMemory>
    ensures { Adds result table.old table.new (before_all sorts.now sets.now forms.now (first.now ∷ rest.now)) }
{
    add_before(alloc, sorts, sets, forms, first, table)?;
    add_all_before(alloc, sorts, sets, forms, rest, table)
}

// Appends what an assignment makes of each of some comparisons.
#[tactic(auto, using(crate::proofs::AssignedForms::assigned_before))]
fn add_assigned(
    alloc: Global,
    sorts: &[Sort],
    comparisons: &[FlowComparison],
    sets: &[Option<FlowForm>],
    table: &mut Vec<FlowComparison>,
) -> Result<(), NoMemory>
    ensures { Adds result table.old table.new (before_sets sorts.now comparisons.now sets.now) }
{
    let forms = forms_after(alloc, sorts, sets)?;
    add_all_before(alloc, sorts, sets, &forms, comparisons, table)
}

// Appends what an action makes of each of some comparisons.
fn add_before_action(
    alloc: Global,
    sorts: &[Sort],
    comparisons: &[FlowComparison],
    action: &FlowAction,
    table: &mut Vec<FlowComparison>,
) -> Result<(), NoMemory>
    ensures { Adds result table.old table.new (before_action sorts.now comparisons.now action.now) }
{
    match action {
        FlowAction::Assigned(sets) => add_assigned(alloc, sorts, comparisons, sets, table),
        FlowAction::Given(_) => Ok(()),
    }
}

// Appends what each action makes of each of some comparisons.
#[cycle(add_before_actions)]
fn add_before_actions(
    alloc: Global,
    sorts: &[Sort],
    comparisons: &[FlowComparison],
    actions: &[FlowAction],
    table: &mut Vec<FlowComparison>,
) -> Result<(), NoMemory>
    ensures { Adds result table.old table.new (before_actions sorts.now comparisons.now actions.now) }
{
    match actions {
        [] => Ok(()),
        [first, rest @ ..] => {
            add_before_actions_from(alloc, sorts, comparisons, first, rest, table)
        }
    }
}

#[cycle(add_before_actions)]
fn add_before_actions_from(
    alloc: Global,
    sorts: &[Sort],
    comparisons: &[FlowComparison],
    first: &FlowAction,
    rest: &[FlowAction],
    table: &mut Vec<FlowComparison>,
) -> Result<(), NoMemory>
    ensures { Adds result table.old table.new (before_actions sorts.now comparisons.now (first.now ∷ rest.now)) }
{
    add_before_action(alloc, sorts, comparisons, first, table)?;
    add_before_actions(alloc, sorts, comparisons, rest, table)
}

fn copies(alloc: Global, comparisons: &[FlowComparison]) -> Result<Vec<FlowComparison>, NoMemory>
    ensures { IfOk result (λ v. map comparison_tree v.items ≡ map comparison_tree comparisons.now) }
{
    let mut list = Vec::new(alloc);
    for comparison in comparisons {
        append(&mut list, comparison.copy(alloc)?)?;
    }
    Ok(list)
}

// Runs one round, over the comparisons that are in the table now.
fn add_round(
    alloc: Global,
    sorts: &[Sort],
    actions: &[FlowAction],
    table: &mut Vec<FlowComparison>,
) -> Result<(), NoMemory>
    ensures { OnOk result (IsRound sorts.now actions.now table.old table.new) }
{
    let comparisons = copies(alloc, table)?;
    add_before_actions(alloc, sorts, &comparisons, actions, table)
}

// Runs the rounds, until one adds nothing: then the others add nothing either.
#[tactic(auto, using(crate::proofs::GrownTables::no_rounds, crate::proofs::GrownTables::rounds_stop, crate::proofs::GrownTables::rounds_go_on))]
fn add_rounds(
    alloc: Global,
    rounds: usize,
    sorts: &[Sort],
    actions: &[FlowAction],
    table: &mut Vec<FlowComparison>,
) -> Result<(), NoMemory>
    ensures { OnOk result (AreRounds rounds sorts.now actions.now table.old table.new) }
{
    if rounds == 0 {
        return Ok(());
    }
    let count = table.len();
    add_round(alloc, sorts, actions, table)?;
    if table.len() == count {
        return Ok(());
    }
    add_rounds(alloc, rounds - 1, sorts, actions, table)
}

/// Returns a table of tests with those that the rounds add: for each action and each test that was there when the round
/// began, the comparison that holds before the action exactly where the test, or its opposite, holds after it. The table
/// grows up to `MAX_TESTS`. Fails only when out of memory; the table is dropped then.
pub(crate) fn with_rounds(
    alloc: Global,
    rounds: usize,
    sorts: &[Sort],
    actions: &[FlowAction],
    table: Vec<FlowComparison>,
) -> Result<Vec<FlowComparison>, NoMemory>
    ensures { IfOk result (AreRounds rounds sorts.now actions.now table) }
{
    let mut tests = table;
    add_rounds(alloc, rounds, sorts, actions, &mut tests)?;
    Ok(tests)
}
