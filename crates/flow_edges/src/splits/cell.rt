//! Cells of forms, and a new variable in the place of one.
ghost use Rattle.std.specs.Prelude.{◌≡◌};
ghost use Rattle.flow_forms.specs.Forms.{form_tree, variable};
ghost use Rattle.flow_problem.specs.Splits.{is_same_cell as are_one_cell, has_cell as has_same_cell, named as named_form};
ghost use Rattle.flow_edges.specs.Working.Views.{Makes};

use flow_forms::{FlowForm, same_form};
use kat_model::NoMemory;
use std::alloc::Global;

/// Returns whether two forms are the same.
pub(crate) fn is_same_cell(left: &FlowForm, right: &FlowForm) -> bool
    ensures { result ≡ are_one_cell (form_tree left.now) (form_tree right.now) }
{
    same_form(left, right)
}

/// Returns whether a form or a part of it has the cell.
pub(crate) fn has_cell(cell: &FlowForm, form: &FlowForm) -> bool
    ensures { result ≡ has_same_cell (form_tree cell.now) (form_tree form.now) }
{
    match form {
        FlowForm::Constant(_) | FlowForm::One | FlowForm::NoArguments => false,
        FlowForm::Term(_, part, rest) => has_cell(cell, part) || has_cell(cell, rest),
        FlowForm::Factor(part, rest) => has_cell(cell, part) || has_cell(cell, rest),
        FlowForm::Argument(_, part, rest) => has_cell(cell, part) || has_cell(cell, rest),
        FlowForm::Variable(_) => is_same_cell(cell, form),
        FlowForm::Applied(_, _, arguments) => {
            is_same_cell(cell, form) || has_cell(cell, arguments)
        }
        FlowForm::Converted(_, _, _, inner) => is_same_cell(cell, form) || has_cell(cell, inner),
    }
}

fn named_variable(cell: &FlowForm, number: usize, k: usize) -> FlowForm
    ensures { form_tree result ≡ named_form (form_tree cell.now) number (variable k) }
{
    let own = FlowForm::Variable(k);
    if is_same_cell(cell, &own) {
        return FlowForm::Variable(number);
    }
    if k < number {
        return own;
    }
    FlowForm::Constant(0)
}

/// Returns a form with variable `number` in the place of the cell. A variable from this number on becomes 0. Fails only
/// when out of memory.
pub(crate) fn named(
    alloc: Global,
    cell: &FlowForm,
    number: usize,
    form: &FlowForm,
) -> Result<FlowForm, NoMemory>
    ensures { Makes form_tree result (named_form (form_tree cell.now) number (form_tree form.now)) }
{
    match form {
        FlowForm::Constant(c) => Ok(FlowForm::Constant(*c)),
        FlowForm::Term(times, product, rest) => {
            let product = named(alloc, cell, number, product)?;
            let rest = named(alloc, cell, number, rest)?;
            FlowForm::new_term(alloc, *times, product, rest)
        }
        FlowForm::One => Ok(FlowForm::One),
        FlowForm::Factor(part, rest) => {
            let part = named(alloc, cell, number, part)?;
            let rest = named(alloc, cell, number, rest)?;
            FlowForm::new_factor(alloc, part, rest)
        }
        FlowForm::Variable(k) => Ok(named_variable(cell, number, *k)),
        FlowForm::Applied(function, sort, arguments) => {
            if is_same_cell(cell, form) {
                return Ok(FlowForm::Variable(number));
            }
            let arguments = named(alloc, cell, number, arguments)?;
            FlowForm::new_applied(alloc, *function, *sort, arguments)
        }
        FlowForm::Converted(signed, from, to, inner) => {
            if is_same_cell(cell, form) {
                return Ok(FlowForm::Variable(number));
            }
            let inner = named(alloc, cell, number, inner)?;
            FlowForm::new_converted(alloc, *signed, *from, *to, inner)
        }
        FlowForm::NoArguments => Ok(FlowForm::NoArguments),
        FlowForm::Argument(sort, part, rest) => {
            let part = named(alloc, cell, number, part)?;
            let rest = named(alloc, cell, number, rest)?;
            FlowForm::new_argument(alloc, *sort, part, rest)
        }
    }
}
