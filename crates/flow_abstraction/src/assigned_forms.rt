//! The forms of the variables after a parallel assignment.
ghost use Rattle.std.specs.Prelude.{◌≡◌, ◌+◌, ◌<◌, ◌^◌, ◌∷◌, IfOk, length};
ghost use Rattle.flow_forms.specs.Forms.{form_tree};
ghost use Rattle.flow_ways.specs.ActionTrees.{set_tree};
ghost use Rattle.flow_problem.specs.Substitutions.{set_or_own as form_set_or_own, forms_after as forms_after_set};
ghost use Rattle.flow_abstraction.specs.Working.Substituted.{AddsForms, forms_at, forms_then};
ghost use Rattle.flow_edges.specs.Working.Views.{set_trees, MakesList};

use flow_forms::FlowForm;
use flow_model::Sort;
use flow_ways::{own_form, push_form};
use kat_model::NoMemory;
use std::alloc::Global;

fn set_or_own(
    alloc: Global,
    sort: Sort,
    number: usize,
    set: &Option<FlowForm>,
) -> Result<FlowForm, NoMemory>
    ensures { IfOk result (λ f. form_tree f ≡ form_set_or_own number sort (set_tree set.now)) }
{
    match set {
        None => own_form(alloc, sort, number),
        Some(form) => form.copy(alloc),
    }
}

// Appends the forms of the variables from `number` on.
#[cycle(push_forms)]
#[tactic(auto, using(flow_ways::proofs::CourseLists::none_then))]
fn push_forms(
    alloc: Global,
    sorts: &[Sort],
    number: usize,
    sets: &[Option<FlowForm>],
    list: &mut Vec<FlowForm>,
) -> Result<(), NoMemory>
    requires { number + length sorts.now < 2 ^ 64 }
    ensures { AddsForms result list.old list.new (forms_at number sorts.now sets.now) }
{
    match sorts {
        [] => Ok(()),
        [sort, others @ ..] => push_forms_from(alloc, *sort, others, number, sets, list),
    }
}

#[cycle(push_forms)]
fn push_forms_from(
    alloc: Global,
    sort: Sort,
    others: &[Sort],
    number: usize,
    sets: &[Option<FlowForm>],
    list: &mut Vec<FlowForm>,
) -> Result<(), NoMemory>
    requires { number + length others.now + 1 < 2 ^ 64 }
    ensures { AddsForms result list.old list.new (forms_at number (sort ∷ others.now) sets.now) }
{
    match sets {
        [] => {
            let form = own_form(alloc, sort, number)?;
            push_forms_then(alloc, others, number, form, sets, list)
        }
        [set, rest @ ..] => {
            let form = set_or_own(alloc, sort, number, set)?;
            push_forms_then(alloc, others, number, form, rest, list)
        }
    }
}

// Appends the form of a variable, and those of the variables after it.
#[cycle(push_forms)]
fn push_forms_then(
    alloc: Global,
    others: &[Sort],
    number: usize,
    form: FlowForm,
    sets: &[Option<FlowForm>],
    list: &mut Vec<FlowForm>,
) -> Result<(), NoMemory>
    requires { number + length others.now + 1 < 2 ^ 64 }
    ensures { AddsForms result list.old list.new (forms_then form number others.now sets.now) }
{
    push_form(list, form)?;
    push_forms(alloc, others, number + 1, sets, list)
}

/// Returns the forms of the variables after a parallel assignment: those that are set have theirs, the others stand for
/// themselves. Fails only when out of memory.
pub(crate) fn forms_after(
    alloc: Global,
    sorts: &[Sort],
    sets: &[Option<FlowForm>],
) -> Result<Vec<FlowForm>, NoMemory>
    ensures { MakesList form_tree result (forms_after_set sorts.now (set_trees sets.now)) }
{
    let _known = sorts.len();
    let mut list = Vec::new(alloc);
    push_forms(alloc, sorts, 0, sets, &mut list)?;
    Ok(list)
}
