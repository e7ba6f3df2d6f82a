//! Lists of forms, and parallel assignments of them.
ghost use Rattle.std.specs.Prelude.{◌≡◌, ◌&&◌, [], ◌∷◌, ◌++◌, true, false, IfOk, IfErr, OnOk, map, slice_set};
ghost use Rattle.flow_model.specs.Polish.{expr_of, exprs_of, values_of};
ghost use Rattle.flow_forms.specs.Forms.{form_tree};
ghost use Rattle.flow_forms.specs.Expressions.{form_of};
ghost use Rattle.flow_forms.specs.Evaluation.{all_fit};
ghost use Rattle.flow_ways.specs.Ways.{with_forms};
ghost use Rattle.flow_ways.specs.Outcomes.{values_fit};
ghost use Rattle.flow_ways.specs.CourseTrees.{list_forms};

use flow_forms::{FlowForm, FormFault, expression_form};
use flow_model::{ExprNode, Sort};
use kat_model::{NoMemory, append};
use std::alloc::Global;

/// A list of forms.
#[derive(Drop)]
pub(crate) enum FormList {
    Empty,
    Listed(Box<FlowForm>, Box<FormList>),
}

fn listed(alloc: Global, form: FlowForm, rest: FormList) -> Result<FormList, NoMemory>
    ensures { IfOk result (λ l. list_forms l ≡ form_tree form ∷ list_forms rest) }
{
    let form = Box::new(alloc, form)?;
    let rest = Box::new(alloc, rest)?;
    Ok(FormList::Listed(form, rest))
}

/// Returns the forms of expressions. Fails with `TooLarge` exactly if one of them is too large.
#[cycle(forms_of_values)]
pub(crate) fn forms_of_values(
    alloc: Global,
    sorts: &[Sort],
    forms: &[FlowForm],
    values: &[Vec<ExprNode>],
) -> Result<FormList, FormFault>
    ensures made { IfOk result (λ l. list_forms l ≡ map (form_of sorts.now (map form_tree forms.now)) (values_of values.now)) }
    ensures fits { IfOk result (λ _. values_fit sorts.now (map form_tree forms.now) values.now ≡ true) }
    ensures refused { IfErr result (λ e. e ≡ FormFault.TooLarge → values_fit sorts.now (map form_tree forms.now) values.now ≡ false) }
{
    match values {
        [] => Ok(FormList::Empty),
        [value, rest @ ..] => forms_of_values_from(alloc, sorts, forms, value, rest),
    }
}

#[cycle(forms_of_values)]
#[tactic(auto, using(crate::proofs::CondForms::no_second))]
fn forms_of_values_from(
    alloc: Global,
    sorts: &[Sort],
    forms: &[FlowForm],
    value: &Vec<ExprNode>,
    rest: &[Vec<ExprNode>],
) -> Result<FormList, FormFault>
    ensures made { IfOk result (λ l. list_forms l ≡ form_of sorts.now (map form_tree forms.now) (expr_of value.now.items) ∷ map (form_of sorts.now (map form_tree forms.now)) (values_of rest.now)) }
    ensures fits { IfOk result (λ _. (all_fit sorts.now (map form_tree forms.now) (exprs_of value.now.items) && values_fit sorts.now (map form_tree forms.now) rest.now) ≡ true) }
    ensures refused { IfErr result (λ e. e ≡ FormFault.TooLarge → (all_fit sorts.now (map form_tree forms.now) (exprs_of value.now.items) && values_fit sorts.now (map form_tree forms.now) rest.now) ≡ false) }
{
    let (_, form) = expression_form(alloc, sorts, forms, value)?;
    let others = forms_of_values(alloc, sorts, forms, rest)?;
    Ok(listed(alloc, form, others)?)
}

// Sets the form of a variable, if there is one.
#[tactic(auto, using(crate::proofs::CourseLists::map_put, crate::proofs::CourseLists::put_past))]
fn put(forms: &mut [FlowForm], variable: usize, form: FlowForm)
    ensures { map form_tree forms.new ≡ slice_set (map form_tree forms.old) variable (form_tree form) }
{
    if variable < forms.len() {
        forms[variable] = form;
    }
}

/// Sets the forms of variables, the first ones first.
#[cycle(set_forms)]
pub(crate) fn set_forms(targets: &[usize], values: FormList, forms: &mut [FlowForm])
    ensures { map form_tree forms.new ≡ with_forms (map form_tree forms.old) targets.now (list_forms values) }
{
    match targets {
        [] => {}
        [target, rest @ ..] => set_forms_from(*target, rest, values, forms),
    }
}

#[cycle(set_forms)]
fn set_forms_from(target: usize, rest: &[usize], values: FormList, forms: &mut [FlowForm])
    ensures { map form_tree forms.new ≡ with_forms (map form_tree forms.old) (target ∷ rest.now) (list_forms values) }
{
    match values {
        FormList::Empty => {}
        FormList::Listed(form, others) => {
            put(forms, target, Box::into_inner(form));
            set_forms(rest, Box::into_inner(others), forms);
        }
    }
}

/// Appends a form. Fails only when out of memory.
#[tactic(auto, using(crate::proofs::CourseLists::map_pushed))]
pub fn push_form(list: &mut Vec<FlowForm>, form: FlowForm) -> Result<(), NoMemory>
    ensures { OnOk result (map form_tree list.new.items ≡ map form_tree list.old.items ++ form_tree form ∷ []) }
{
    append(list, form)
}
