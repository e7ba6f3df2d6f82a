//! Actions with a number in the place of a cell.
ghost use Rattle.std.specs.Prelude.{◌≡◌, ◌+◌, ◌^◌, ◌<◌, ◌∷◌, [], suc, true, false, IfOk, OnOk, Some, length, option_map};
ghost use Rattle.std.specs.List.{list_any};
ghost use Rattle.flow_forms.specs.Forms.{form_tree};
ghost use Rattle.flow_ways.specs.ActionTrees.{set_tree};
ghost use Rattle.flow_ways.specs.WayTrees.{sorted_form};
ghost use Rattle.flow_edges.specs.EdgeViews.{flow_action};
ghost use Rattle.flow_problem.specs.Splits.{set_has as set_has_cell, action_reads as action_reads_cell};
ghost use Rattle.flow_edges.specs.Numbers.{has_in};
ghost use Rattle.flow_edges.specs.Working.Views.{set_trees, sorted_forms, AddsSets, AddsResults, MakesList};
ghost use Rattle.flow_edges.specs.Working.Splitting.{IsNumbered, form_fits, set_by, set_fits_by, sets_by, sets_fit_by, result_by, result_fits_by, results_by, results_fit_by, action_by, action_fits_by, OkOnlyIf, LargeOnlyIfNot, read_action_by};

use crate::action::FlowAction;
use crate::splits::cell::{has_cell, is_same_cell};
use crate::splits::number::{Split, with_number};
use flow_forms::{FlowForm, FormFault};
use flow_model::Sort;
use flow_ways::{SortedForm, own_form};
use kat_model::{NoMemory, append};
use std::alloc::Global;

fn set_has(cell: &FlowForm, set: &Option<FlowForm>) -> bool
    ensures { result ≡ set_has_cell (form_tree cell.now) (set_tree set.now) }
{
    match set {
        None => false,
        Some(form) => has_cell(cell, form),
    }
}

#[cycle(sets_have)]
fn sets_have(cell: &FlowForm, sets: &[Option<FlowForm>]) -> bool
    ensures { result ≡ list_any (set_has_cell (form_tree cell.now)) (set_trees sets.now) }
{
    match sets {
        [] => false,
        [set, rest @ ..] => sets_have_from(cell, set, rest),
    }
}

#[cycle(sets_have)]
fn sets_have_from(cell: &FlowForm, set: &Option<FlowForm>, rest: &[Option<FlowForm>]) -> bool
    ensures { result ≡ list_any (set_has_cell (form_tree cell.now)) (set_trees (set.now ∷ rest.now)) }
{
    set_has(cell, set) || sets_have(cell, rest)
}

#[cycle(results_have)]
fn results_have(cell: &FlowForm, results: &[SortedForm]) -> bool
    ensures { result ≡ list_any (has_in (form_tree cell.now)) (sorted_forms results.now) }
{
    match results {
        [] => false,
        [first, rest @ ..] => results_have_from(cell, first, rest),
    }
}

#[cycle(results_have)]
fn results_have_from(cell: &FlowForm, first: &SortedForm, rest: &[SortedForm]) -> bool
    ensures { result ≡ list_any (has_in (form_tree cell.now)) (sorted_forms (first.now ∷ rest.now)) }
{
    has_cell(cell, &first.form) || results_have(cell, rest)
}

// Returns whether an action reads the cell.
fn action_reads(cell: &FlowForm, action: &FlowAction) -> bool
    ensures { result ≡ action_reads_cell (form_tree cell.now) (flow_action action.now) }
{
    match action {
        FlowAction::Assigned(sets) => sets_have(cell, sets),
        FlowAction::Given(results) => results_have(cell, results),
    }
}

// Returns what a variable that is set to a form is set to where the cell is the number.
#[tactic(auto, using(crate::proofs::Numbered::own_not_large))]
fn set_with(
    alloc: Global,
    split: &Split,
    number: usize,
    sort: Sort,
    form: &FlowForm,
) -> Result<Option<FlowForm>, FormFault>
    requires { IsNumbered split.now }
    ensures made { IfOk result (λ o. set_tree o ≡ set_by split.now number sort (Some form.now)) }
    ensures fits { OkOnlyIf result (form_fits split.now sort form.now) }
    ensures refused { LargeOnlyIfNot result (form_fits split.now sort form.now) }
{
    let new = with_number(alloc, split, sort, form)?;
    let own = own_form(alloc, sort, number)?;
    let own = with_number(alloc, split, sort, &own)?;
    if is_same_cell(&new, &own) {
        return Ok(None);
    }
    Ok(Some(new))
}

// The same of a variable that may not be set.
fn set_if_any(
    alloc: Global,
    split: &Split,
    number: usize,
    sort: Sort,
    set: &Option<FlowForm>,
) -> Result<Option<FlowForm>, FormFault>
    requires { IsNumbered split.now }
    ensures made { IfOk result (λ o. set_tree o ≡ set_by split.now number sort set.now) }
    ensures fits { OkOnlyIf result (set_fits_by split.now sort set.now) }
    ensures refused { LargeOnlyIfNot result (set_fits_by split.now sort set.now) }
{
    match set {
        None => Ok(None),
        Some(form) => set_with(alloc, split, number, sort, form),
    }
}

#[tactic(auto, using(flow_ways::proofs::CourseLists::map_pushed))]
fn push_set(list: &mut Vec<Option<FlowForm>>, set: Option<FlowForm>) -> Result<(), NoMemory>
    ensures { AddsSets result list.old list.new (set_tree set ∷ []) }
{
    append(list, set)
}

// Appends what the variables from `number` on, whose sorts are `own`, are set to.
#[cycle(push_sets)]
#[tactic(auto, using(flow_ways::proofs::CourseLists::none_then))]
fn push_sets(
    alloc: Global,
    split: &Split,
    number: usize,
    own: &[Sort],
    sets: &[Option<FlowForm>],
    list: &mut Vec<Option<FlowForm>>,
) -> Result<(), FormFault>
    requires number { IsNumbered split.now }
    requires within { number + length own.now < 2 ^ 64 }
    ensures made { AddsSets result list.old list.new (sets_by split.now number own.now sets.now) }
    ensures fits { OnOk result (sets_fit_by split.now own.now sets.now ≡ true) }
    ensures refused { LargeOnlyIfNot result (sets_fit_by split.now own.now sets.now) }
{
    match own {
        [] => Ok(()),
        [sort, others @ ..] => push_sets_of(alloc, split, number, *sort, others, sets, list),
    }
}

#[cycle(push_sets)]
#[tactic(auto, using(flow_ways::proofs::CourseLists::none_then, crate::proofs::Numbered::no_second))]
fn push_sets_of(
    alloc: Global,
    split: &Split,
    number: usize,
    sort: Sort,
    others: &[Sort],
    sets: &[Option<FlowForm>],
    list: &mut Vec<Option<FlowForm>>,
) -> Result<(), FormFault>
    requires number { IsNumbered split.now }
    requires within { number + length others.now + 1 < 2 ^ 64 }
    ensures made { AddsSets result list.old list.new (sets_by split.now number (sort ∷ others.now) sets.now) }
    ensures fits { OnOk result (sets_fit_by split.now (sort ∷ others.now) sets.now ≡ true) }
    ensures refused { LargeOnlyIfNot result (sets_fit_by split.now (sort ∷ others.now) sets.now) }
{
    match sets {
        [] => Ok(()),
        [set, rest @ ..] => {
            let new = set_if_any(alloc, split, number, sort, set)?;
            push_sets_then(alloc, split, number, new, others, rest, list)
        }
    }
}

// Appends what a variable is set to, and what the variables after it are set to.
#[cycle(push_sets)]
fn push_sets_then(
    alloc: Global,
    split: &Split,
    number: usize,
    new: Option<FlowForm>,
    others: &[Sort],
    rest: &[Option<FlowForm>],
    list: &mut Vec<Option<FlowForm>>,
) -> Result<(), FormFault>
    requires number { IsNumbered split.now }
    requires within { number + length others.now + 1 < 2 ^ 64 }
    ensures made { AddsSets result list.old list.new (set_tree new ∷ sets_by split.now (suc number) others.now rest.now) }
    ensures fits { OnOk result (sets_fit_by split.now others.now rest.now ≡ true) }
    ensures refused { LargeOnlyIfNot result (sets_fit_by split.now others.now rest.now) }
{
    push_set(list, new)?;
    push_sets(alloc, split, number + 1, others, rest, list)
}

fn sets_of(
    alloc: Global,
    split: &Split,
    sets: &[Option<FlowForm>],
) -> Result<Vec<Option<FlowForm>>, FormFault>
    requires { IsNumbered split.now }
    ensures made { MakesList set_tree result (sets_by split.now 0 split.now.sorts.now sets.now) }
    ensures fits { OkOnlyIf result (sets_fit_by split.now split.now.sorts.now sets.now) }
    ensures refused { LargeOnlyIfNot result (sets_fit_by split.now split.now.sorts.now sets.now) }
{
    let own = split.sorts;
    let _known = own.len();
    let mut list = Vec::new(alloc);
    push_sets(alloc, split, 0, own, sets, &mut list)?;
    Ok(list)
}

fn result_with(alloc: Global, split: &Split, sorted: &SortedForm) -> Result<SortedForm, FormFault>
    requires { IsNumbered split.now }
    ensures made { IfOk result (λ r. sorted_form r ≡ result_by split.now sorted.now) }
    ensures fits { OkOnlyIf result (result_fits_by split.now sorted.now) }
    ensures refused { LargeOnlyIfNot result (result_fits_by split.now sorted.now) }
{
    let form = with_number(alloc, split, sorted.sort, &sorted.form)?;
    Ok(SortedForm {
        sort: sorted.sort,
        form,
    })
}

#[tactic(auto, using(flow_ways::proofs::CourseLists::map_pushed))]
fn push_result(list: &mut Vec<SortedForm>, sorted: SortedForm) -> Result<(), NoMemory>
    ensures { AddsResults result list.old list.new (sorted_form sorted ∷ []) }
{
    append(list, sorted)
}

// Appends results with the number in the place of the cell.
#[cycle(push_results)]
#[tactic(auto, using(flow_ways::proofs::CourseLists::none_then))]
fn push_results(
    alloc: Global,
    split: &Split,
    results: &[SortedForm],
    list: &mut Vec<SortedForm>,
) -> Result<(), FormFault>
    requires { IsNumbered split.now }
    ensures made { AddsResults result list.old list.new (results_by split.now results.now) }
    ensures fits { OnOk result (results_fit_by split.now results.now ≡ true) }
    ensures refused { LargeOnlyIfNot result (results_fit_by split.now results.now) }
{
    match results {
        [] => Ok(()),
        [first, rest @ ..] => push_results_from(alloc, split, first, rest, list),
    }
}

#[cycle(push_results)]
#[tactic(auto, using(crate::proofs::Numbered::no_second))]
fn push_results_from(
    alloc: Global,
    split: &Split,
    first: &SortedForm,
    rest: &[SortedForm],
    list: &mut Vec<SortedForm>,
) -> Result<(), FormFault>
    requires { IsNumbered split.now }
    ensures made { AddsResults result list.old list.new (results_by split.now (first.now ∷ rest.now)) }
    ensures fits { OnOk result (results_fit_by split.now (first.now ∷ rest.now) ≡ true) }
    ensures refused { LargeOnlyIfNot result (results_fit_by split.now (first.now ∷ rest.now)) }
{
    let new = result_with(alloc, split, first)?;
    push_result(list, new)?;
    push_results(alloc, split, rest, list)
}

fn results_of(
    alloc: Global,
    split: &Split,
    results: &[SortedForm],
) -> Result<Vec<SortedForm>, FormFault>
    requires { IsNumbered split.now }
    ensures made { MakesList sorted_form result (results_by split.now results.now) }
    ensures fits { OkOnlyIf result (results_fit_by split.now results.now) }
    ensures refused { LargeOnlyIfNot result (results_fit_by split.now results.now) }
{
    let mut list = Vec::new(alloc);
    push_results(alloc, split, results, &mut list)?;
    Ok(list)
}

fn action_with(alloc: Global, split: &Split, action: &FlowAction) -> Result<FlowAction, FormFault>
    requires { IsNumbered split.now }
    ensures made { IfOk result (λ a. flow_action a ≡ action_by split.now action.now) }
    ensures fits { OkOnlyIf result (action_fits_by split.now action.now) }
    ensures refused { LargeOnlyIfNot result (action_fits_by split.now action.now) }
{
    match action {
        FlowAction::Assigned(sets) => Ok(FlowAction::Assigned(sets_of(alloc, split, sets)?)),
        FlowAction::Given(results) => Ok(FlowAction::Given(results_of(alloc, split, results)?)),
    }
}

/// Returns the action with the number in the place of the cell, if it reads the cell and no form becomes too large. Fails
/// only when out of memory.
#[tactic(auto, using(crate::proofs::Numbered::read_and_fits, crate::proofs::Numbered::not_read, crate::proofs::Numbered::too_large))]
pub(crate) fn number_action(
    alloc: Global,
    split: &Split,
    action: &FlowAction,
) -> Result<Option<FlowAction>, NoMemory>
    requires { IsNumbered split.now }
    ensures { IfOk result (λ o. option_map flow_action o ≡ read_action_by split.now action.now) }
{
    if !action_reads(&split.test.cell, action) {
        return Ok(None);
    }
    match action_with(alloc, split, action) {
        Ok(new) => Ok(Some(new)),
        Err(FormFault::TooLarge) => Ok(None),
        Err(FormFault::NoMemory) => Err(NoMemory),
    }
}
