//! The parallel assignment that ends a way at a place.
ghost use Rattle.std.specs.Prelude.{◌≡◌, ◌+◌, ◌^◌, ◌<◌, [], ◌∷◌, ◌++◌, suc, false, IfOk, OnOk, map, length, slice_index_or};
ghost use Rattle.flow_forms.specs.Forms.{form_tree};
ghost use Rattle.flow_ways.specs.Actions.{is_own as is_own_form, set_form as form_set, action_from, action_of as action_for};
ghost use Rattle.flow_ways.specs.ActionTrees.{set_tree};

use crate::own::own_form;
use flow_forms::{FlowForm, same_form};
use flow_model::Sort;
use kat_model::{NoMemory, append};
use std::alloc::Global;

// Returns whether the form of a variable is the variable itself.
#[tactic(auto, using(crate::proofs::ActionForms::own_answers))]
fn is_own(alloc: Global, sort: Sort, number: usize, form: &FlowForm) -> Result<bool, NoMemory>
    ensures { IfOk result (λ own. own ≡ is_own_form number sort (form_tree form.now)) }
{
    let own = own_form(alloc, sort, number)?;
    Ok(same_form(form, &own))
}

fn is_live(live: &[bool], number: usize) -> bool
    ensures { result ≡ slice_index_or live.now number false }
{
    live.get(number).copied().unwrap_or(false)
}

// Returns what a variable is set to, if it is live and its form is not itself.
fn set_form(
    alloc: Global,
    live: &[bool],
    sort: Sort,
    number: usize,
    form: &FlowForm,
) -> Result<Option<FlowForm>, NoMemory>
    ensures { IfOk result (λ o. set_tree o ≡ form_set number (λ x. slice_index_or live.now x false) sort (form_tree form.now)) }
{
    if !is_live(live, number) {
        return Ok(None);
    }
    let own = is_own(alloc, sort, number, form)?;
    if own {
        return Ok(None);
    }
    Ok(Some(form.copy(alloc)?))
}

#[tactic(auto, using(crate::proofs::CourseLists::map_pushed))]
fn push_set(list: &mut Vec<Option<FlowForm>>, set: Option<FlowForm>) -> Result<(), NoMemory>
    ensures { OnOk result (map set_tree list.new.items ≡ map set_tree list.old.items ++ set_tree set ∷ []) }
{
    append(list, set)
}

#[cycle(push_action)]
#[tactic(auto, using(crate::proofs::CourseLists::none_then))]
fn push_action(
    alloc: Global,
    live: &[bool],
    sorts: &[Sort],
    number: usize,
    forms: &[FlowForm],
    list: &mut Vec<Option<FlowForm>>,
) -> Result<(), NoMemory>
    requires { number + length sorts.now < 2 ^ 64 }
    ensures { OnOk result (map set_tree list.new.items ≡ map set_tree list.old.items ++ action_from number (λ x. slice_index_or live.now x false) sorts.now (map form_tree forms.now)) }
{
    match sorts {
        [] => Ok(()),
        [sort, others @ ..] => push_action_of(alloc, live, *sort, others, number, forms, list),
    }
}

#[cycle(push_action)]
#[tactic(auto, using(crate::proofs::CourseLists::none_then))]
fn push_action_of(
    alloc: Global,
    live: &[bool],
    sort: Sort,
    others: &[Sort],
    number: usize,
    forms: &[FlowForm],
    list: &mut Vec<Option<FlowForm>>,
) -> Result<(), NoMemory>
    requires { number + length others.now + 1 < 2 ^ 64 }
    ensures { OnOk result (map set_tree list.new.items ≡ map set_tree list.old.items ++ action_from number (λ x. slice_index_or live.now x false) (sort ∷ others.now) (map form_tree forms.now)) }
{
    match forms {
        [] => Ok(()),
        [form, rest @ ..] => {
            let set = set_form(alloc, live, sort, number, form)?;
            push_action_then(alloc, live, others, number, set, rest, list)
        }
    }
}

// Appends what a variable is set to, and what the variables after it are set to.
#[cycle(push_action)]
#[tactic(auto, using(crate::proofs::ActionForms::set_then))]
fn push_action_then(
    alloc: Global,
    live: &[bool],
    others: &[Sort],
    number: usize,
    set: Option<FlowForm>,
    rest: &[FlowForm],
    list: &mut Vec<Option<FlowForm>>,
) -> Result<(), NoMemory>
    requires { number + length others.now + 1 < 2 ^ 64 }
    ensures { OnOk result (map set_tree list.new.items ≡ map set_tree list.old.items ++ set_tree set ∷ action_from (suc number) (λ x. slice_index_or live.now x false) others.now (map form_tree rest.now)) }
{
    push_set(list, set)?;
    push_action(alloc, live, others, number + 1, rest, list)
}

/// Returns the parallel assignment of a way that ends at a place with forms of the variables: for each variable the form
/// that it is set to, if it is live and its form is not itself. Fails only when out of memory.
pub fn action_of(
    alloc: Global,
    live: &[bool],
    sorts: &[Sort],
    forms: &[FlowForm],
) -> Result<Vec<Option<FlowForm>>, NoMemory>
    ensures { IfOk result (λ list. map set_tree list.items ≡ action_for (λ x. slice_index_or live.now x false) sorts.now (map form_tree forms.now)) }
{
    let _known = sorts.len();
    let mut list = Vec::new(alloc);
    push_action(alloc, live, sorts, 0, forms, &mut list)?;
    Ok(list)
}
