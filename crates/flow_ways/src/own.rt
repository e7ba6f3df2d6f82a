//! Forms of variables that stand for themselves.
ghost use Rattle.std.specs.Prelude.{◌≡◌, ◌+◌, ◌^◌, ◌<◌, ◌∷◌, ◌++◌, IfOk, OnOk, map, length};
ghost use Rattle.flow_forms.specs.Forms.{variable, form_tree};
ghost use Rattle.flow_forms.specs.Expressions.{form_of_cell};
ghost use Rattle.flow_ways.specs.Ways.{own_forms_from};

use crate::form_list::push_form;
use flow_forms::FlowForm;
use flow_model::Sort;
use kat_model::NoMemory;
use std::alloc::Global;

/// Returns the form of a variable that stands for itself. Fails only when out of memory.
pub fn own_form(alloc: Global, sort: Sort, number: usize) -> Result<FlowForm, NoMemory>
    ensures { IfOk result (λ f. form_tree f ≡ form_of_cell sort (variable number)) }
{
    match sort {
        Sort::Number(_) => FlowForm::of_cell(alloc, FlowForm::Variable(number)),
        Sort::Opaque(_) => Ok(FlowForm::Variable(number)),
    }
}

#[cycle(push_own)]
#[tactic(auto, using(crate::proofs::CourseLists::none_then))]
fn push_own(
    alloc: Global,
    sorts: &[Sort],
    number: usize,
    list: &mut Vec<FlowForm>,
) -> Result<(), NoMemory>
    requires { number + length sorts.now < 2 ^ 64 }
    ensures { OnOk result (map form_tree list.new.items ≡ map form_tree list.old.items ++ own_forms_from number sorts.now) }
{
    match sorts {
        [] => Ok(()),
        [sort, rest @ ..] => push_own_from(alloc, *sort, rest, number, list),
    }
}

#[cycle(push_own)]
#[tactic(auto, using(crate::proofs::CourseLists::own_then))]
fn push_own_from(
    alloc: Global,
    sort: Sort,
    rest: &[Sort],
    number: usize,
    list: &mut Vec<FlowForm>,
) -> Result<(), NoMemory>
    requires { number + length rest.now + 1 < 2 ^ 64 }
    ensures { OnOk result (map form_tree list.new.items ≡ map form_tree list.old.items ++ own_forms_from number (sort ∷ rest.now)) }
{
    let form = own_form(alloc, sort, number)?;
    push_form(list, form)?;
    push_own(alloc, rest, number + 1, list)
}

/// Returns the forms of variables that stand for themselves. Fails only when out of memory.
pub fn initial_forms(alloc: Global, sorts: &[Sort]) -> Result<Vec<FlowForm>, NoMemory>
    ensures { IfOk result (λ list. map form_tree list.items ≡ own_forms_from 0 sorts.now) }
{
    let _known = sorts.len();
    let mut list = Vec::new(alloc);
    push_own(alloc, sorts, 0, &mut list)?;
    Ok(list)
}
