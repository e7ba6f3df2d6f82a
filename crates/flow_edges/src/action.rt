//! Actions: parallel assignments, and the results of a `return`.
ghost use Rattle.std.specs.Prelude.{◌≡◌, ◌&&◌, IfOk, map};
ghost use Rattle.std.specs.Ordering.{is_eq};
ghost use Rattle.flow_forms.specs.Forms.{form_tree};
ghost use Rattle.flow_forms.specs.Order.{sort_cmp, form_cmp};
ghost use Rattle.flow_ways.specs.ActionTrees.{set_tree};
ghost use Rattle.flow_ways.specs.WayTrees.{sorted_form};
ghost use Rattle.flow_problem.specs.Edges.{given, is_same_set, are_same_sets, are_same_results, sets_nothing, is_idle as is_idle_action, is_same_action};
ghost use Rattle.flow_edges.specs.EdgeViews.{flow_action};
ghost use Rattle.flow_edges.specs.Working.Views.{is_one_result};

use flow_forms::{FlowForm, same_form};
use flow_model::Sort;
use flow_ways::SortedForm;
use kat_model::{NoMemory, TableRow, append};
use std::alloc::Global;

/// An action: for each variable the form that it is set to, if any; or the results of a `return`.
pub enum FlowAction {
    Assigned(Vec<Option<FlowForm>>),
    Given(Vec<SortedForm>),
}

// Explicit, so that this crate proves it once and not at each end of each function that owns an action.
impl Drop for FlowAction {
    fn drop(self) {
        match self {
            FlowAction::Assigned(_forms) => {}
            FlowAction::Given(_results) => {}
        }
    }
}

fn copy_set(alloc: Global, set: &Option<FlowForm>) -> Result<Option<FlowForm>, NoMemory>
    ensures { IfOk result (λ o. set_tree o ≡ set_tree set.now) }
{
    match set {
        None => Ok(None),
        Some(form) => Ok(Some(form.copy(alloc)?)),
    }
}

fn copy_sets(alloc: Global, sets: &[Option<FlowForm>]) -> Result<Vec<Option<FlowForm>>, NoMemory>
    ensures { IfOk result (λ list. map set_tree list.items ≡ map set_tree sets.now) }
{
    let mut list = Vec::new(alloc);
    for set in sets {
        append(&mut list, copy_set(alloc, set)?)?;
    }
    Ok(list)
}

fn copy_result(alloc: Global, sorted: &SortedForm) -> Result<SortedForm, NoMemory>
    ensures { IfOk result (λ r. sorted_form r ≡ sorted_form sorted.now) }
{
    let form = sorted.form.copy(alloc)?;
    Ok(SortedForm {
        sort: sorted.sort,
        form,
    })
}

fn copy_results(alloc: Global, results: &[SortedForm]) -> Result<Vec<SortedForm>, NoMemory>
    ensures { IfOk result (λ list. map sorted_form list.items ≡ map sorted_form results.now) }
{
    let mut list = Vec::new(alloc);
    for sorted in results {
        append(&mut list, copy_result(alloc, sorted)?)?;
    }
    Ok(list)
}

impl FlowAction {
    /// Returns a copy of the action. Fails only when out of memory.
    pub fn copy(&self, alloc: Global) -> Result<FlowAction, NoMemory>
        ensures { IfOk result (λ a. flow_action a ≡ flow_action self.now) }
    {
        match self {
            FlowAction::Assigned(sets) => Ok(FlowAction::Assigned(copy_sets(alloc, sets)?)),
            FlowAction::Given(results) => Ok(FlowAction::Given(copy_results(alloc, results)?)),
        }
    }
}

fn sets_nothing(forms: &[Option<FlowForm>]) -> bool
    ensures { result ≡ sets_nothing (map set_tree forms.now) }
{
    match forms {
        [] => true,
        [None, rest @ ..] => sets_nothing(rest),
        [Some(_), ..] => false,
    }
}

fn gives_nothing(results: &[SortedForm]) -> bool
    ensures { result ≡ is_idle_action (given (map sorted_form results.now)) }
{
    match results {
        [] => true,
        [_, ..] => false,
    }
}

/// Whether an action changes nothing.
pub(crate) fn is_idle(action: &FlowAction) -> bool
    ensures { result ≡ is_idle_action (flow_action action.now) }
{
    match action {
        FlowAction::Assigned(forms) => sets_nothing(forms),
        FlowAction::Given(results) => gives_nothing(results),
    }
}

fn is_one_form(left: &FlowForm, right: &FlowForm) -> bool
    ensures { result ≡ is_eq (form_cmp (form_tree left.now) (form_tree right.now)) }
{
    same_form(left, right)
}

#[tactic(auto, using(crate::proofs::SameActions::sort_answers))]
fn is_one_sort(left: Sort, right: Sort) -> bool
    ensures { result ≡ is_eq (sort_cmp left right) }
{
    left == right
}

fn same_set(left: &Option<FlowForm>, right: &Option<FlowForm>) -> bool
    ensures { result ≡ is_same_set (set_tree left.now) (set_tree right.now) }
{
    match (left, right) {
        (None, None) => true,
        (Some(f), Some(g)) => is_one_form(f, g),
        _ => false,
    }
}

fn same_sets(left: &[Option<FlowForm>], right: &[Option<FlowForm>]) -> bool
    ensures { result ≡ are_same_sets (map set_tree left.now) (map set_tree right.now) }
{
    match left {
        [] => match right {
            [] => true,
            [_, ..] => false,
        },
        [first, rest @ ..] => match right {
            [] => false,
            [other, others @ ..] => same_set(first, other) && same_sets(rest, others),
        },
    }
}

fn same_result(left: &SortedForm, right: &SortedForm) -> bool
    ensures { result ≡ is_one_result left.now right.now }
{
    is_one_sort(left.sort, right.sort) && is_one_form(&left.form, &right.form)
}

fn same_results(left: &[SortedForm], right: &[SortedForm]) -> bool
    ensures { result ≡ are_same_results (map sorted_form left.now) (map sorted_form right.now) }
{
    match left {
        [] => match right {
            [] => true,
            [_, ..] => false,
        },
        [first, rest @ ..] => match right {
            [] => false,
            [other, others @ ..] => same_result(first, other) && same_results(rest, others),
        },
    }
}

/// Whether two actions are one. Takes no memory.
pub(crate) fn same_action(left: &FlowAction, right: &FlowAction) -> bool
    ensures { result ≡ is_same_action (flow_action left.now) (flow_action right.now) }
{
    match left {
        FlowAction::Assigned(forms) => match right {
            FlowAction::Assigned(others) => same_sets(forms, others),
            FlowAction::Given(_) => false,
        },
        FlowAction::Given(results) => match right {
            FlowAction::Assigned(_) => false,
            FlowAction::Given(others) => same_results(results, others),
        },
    }
}

impl TableRow for FlowAction {
    ghost use Rattle.flow_problem.specs.Edges.{is_same_action};
    ghost use Rattle.flow_edges.specs.EdgeViews.{flow_action};

    ghost same = { λ a b. is_same_action (flow_action a) (flow_action b) };

    fn is_same(&self, other: &FlowAction) -> bool {
        same_action(self, other)
    }
}
