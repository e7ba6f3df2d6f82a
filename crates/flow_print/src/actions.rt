//! Actions, as text.
ghost use Rattle.std.specs.Prelude.{◌≡◌, true};
ghost use Rattle.flow_ways.specs.ActionTrees.{set_tree};
ghost use Rattle.flow_print.specs.ActionTexts.{stays_first as is_still_first};
ghost use Rattle.flow_print.specs.Working.Written.{Writes, target_of, targets_of, value_of, values_of, results_of, action_of};

use crate::forms::put_form;
use crate::names::{FlowNames, put_variable, sort_width, variable_width};
use crate::writing::put_comma;
use flow_edges::FlowAction;
use flow_forms::FlowForm;
use flow_ways::SortedForm;
use kat_model::NoMemory;
use std::alloc::Global;
use text_print::put;

// Returns whether the next part of a list is the first still.
fn stays_first(first: bool, form: &Option<FlowForm>) -> bool
    ensures { result ≡ is_still_first first (set_tree form.now) }
{
    match form {
        None => first,
        Some(_) => false,
    }
}

// Appends a variable if it is set.
fn put_target(
    alloc: Global,
    out: &mut Vec<u8>,
    names: &FlowNames,
    number: usize,
    first: bool,
    form: &Option<FlowForm>,
) -> Result<(), NoMemory>
    ensures { Writes result out.old out.new (target_of names.now number first form.now) }
{
    match form {
        None => Ok(()),
        Some(_) => {
            put_comma(out, first)?;
            put_variable(alloc, out, names, number)
        }
    }
}

// Appends the variables that are set.
fn put_targets(
    alloc: Global,
    out: &mut Vec<u8>,
    names: &FlowNames,
    forms: &[Option<FlowForm>],
) -> Result<(), NoMemory>
    ensures { Writes result out.old out.new (targets_of names.now forms.now) }
{
    let mut first = true;
    for (number, form) in forms.iter().enumerate() {
        put_target(alloc, out, names, number, first, form)?;
        first = stays_first(first, form);
    }
    Ok(())
}

// Appends the form that a variable is set to, if any.
fn put_value(
    alloc: Global,
    out: &mut Vec<u8>,
    names: &FlowNames,
    number: usize,
    first: bool,
    form: &Option<FlowForm>,
) -> Result<(), NoMemory>
    ensures { Writes result out.old out.new (value_of names.now number first form.now) }
{
    match form {
        None => Ok(()),
        Some(form) => {
            put_comma(out, first)?;
            put_form(alloc, out, names, variable_width(names, number), true, form)
        }
    }
}

// Appends the forms that variables are set to.
fn put_values(
    alloc: Global,
    out: &mut Vec<u8>,
    names: &FlowNames,
    forms: &[Option<FlowForm>],
) -> Result<(), NoMemory>
    ensures { Writes result out.old out.new (values_of names.now forms.now) }
{
    let mut first = true;
    for (number, form) in forms.iter().enumerate() {
        put_value(alloc, out, names, number, first, form)?;
        first = stays_first(first, form);
    }
    Ok(())
}

// Appends the results of a `return`.
fn put_results(
    alloc: Global,
    out: &mut Vec<u8>,
    names: &FlowNames,
    results: &[SortedForm],
) -> Result<(), NoMemory>
    ensures { Writes result out.old out.new (results_of names.now results.now) }
{
    let mut first = true;
    for entry in results {
        put_comma(out, first)?;
        put_form(alloc, out, names, sort_width(entry.sort), true, &entry.form)?;
        first = false;
    }
    Ok(())
}

/// Appends an action.
pub(crate) fn put_action(
    alloc: Global,
    out: &mut Vec<u8>,
    names: &FlowNames,
    action: &FlowAction,
) -> Result<(), NoMemory>
    ensures { Writes result out.old out.new (action_of names.now action.now) }
{
    match action {
        FlowAction::Assigned(forms) => {
            put_targets(alloc, out, names, forms)?;
            put(out, b" := ")?;
            put_values(alloc, out, names, forms)
        }
        FlowAction::Given(results) => {
            put(out, b"return ")?;
            put_results(alloc, out, names, results)
        }
    }
}
