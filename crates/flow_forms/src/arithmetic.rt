//! Sums, differences, multiples and products of forms.
ghost use Rattle.std.specs.Prelude.{◌≡◌, IfOk};
ghost use Rattle.kat_model.specs.Stores.{modulus};
ghost use Rattle.flow_forms.specs.Forms.{constant, form_tree};
ghost use Rattle.flow_forms.specs.Arithmetic.{form_sum, multiple as form_multiple, negative as form_negative, form_difference, nonzero_term as term_unless_zero, joined as joined_products, term_times as form_times_term, form_product};

use crate::form::merging::{nonzero_term, one_cell};
use crate::form::{FlowForm, copy_both};
use kat_model::{NoMemory, Width};
use std::alloc::Global;

/// Returns the sum of two forms. Fails only when out of memory; the forms are dropped then.
pub fn sum(
    alloc: Global,
    width: Width,
    left: FlowForm,
    right: FlowForm,
) -> Result<FlowForm, NoMemory>
    ensures { IfOk result (λ f. form_tree f ≡ form_sum (modulus width) (form_tree left) (form_tree right)) }
{
    left.plus(alloc, width, right)
}

/// Returns a form multiplied by a number. Fails only when out of memory; the form is dropped then.
pub fn multiple(
    alloc: Global,
    width: Width,
    number: u64,
    form: FlowForm,
) -> Result<FlowForm, NoMemory>
    ensures { IfOk result (λ f. form_tree f ≡ form_multiple (modulus width) number (form_tree form)) }
{
    form.times(alloc, width, number)
}

/// Returns a form multiplied by a number, plus another form.
pub(crate) fn multiple_plus(
    alloc: Global,
    width: Width,
    number: u64,
    form: FlowForm,
    rest: FlowForm,
) -> Result<FlowForm, NoMemory>
    ensures { IfOk result (λ f. form_tree f ≡ form_sum (modulus width) (form_multiple (modulus width) number (form_tree form)) (form_tree rest)) }
{
    let first = multiple(alloc, width, number, form)?;
    sum(alloc, width, first, rest)
}

/// Returns the negative of a form.
pub fn negative(alloc: Global, width: Width, form: FlowForm) -> Result<FlowForm, NoMemory>
    ensures { IfOk result (λ f. form_tree f ≡ form_negative (modulus width) (form_tree form)) }
{
    multiple(alloc, width, width.greatest(), form)
}

/// Returns the difference of two forms.
pub fn difference(
    alloc: Global,
    width: Width,
    left: FlowForm,
    right: FlowForm,
) -> Result<FlowForm, NoMemory>
    ensures { IfOk result (λ f. form_tree f ≡ form_difference (modulus width) (form_tree left) (form_tree right)) }
{
    let right = negative(alloc, width, right)?;
    sum(alloc, width, left, right)
}

// Returns a number times the product of two products.
fn joined_times(
    alloc: Global,
    times: u64,
    left: &FlowForm,
    right: &FlowForm,
) -> Result<FlowForm, NoMemory>
    ensures { IfOk result (λ f. form_tree f ≡ term_unless_zero times (joined_products (form_tree left.now) (form_tree right.now)) (constant 0)) }
{
    let (left, right) = copy_both(alloc, left, right)?;
    let both = left.joined(alloc, right)?;
    nonzero_term(alloc, times, both, FlowForm::Constant(0))
}

// Returns a term times a sum.
fn term_times(
    alloc: Global,
    width: Width,
    times: u64,
    product: &FlowForm,
    form: &FlowForm,
) -> Result<FlowForm, NoMemory>
    ensures { IfOk result (λ f. form_tree f ≡ form_times_term (modulus width) times (form_tree product.now) (form_tree form.now)) }
{
    match form {
        FlowForm::Constant(d) => {
            let product = product.copy(alloc)?;
            nonzero_term(alloc, width.mul(times, *d), product, FlowForm::Constant(0))
        }
        FlowForm::Term(u, other, rest) => {
            let rest = term_times(alloc, width, times, product, rest)?;
            let first = joined_times(alloc, width.mul(times, *u), product, other)?;
            sum(alloc, width, first, rest)
        }
        cell => {
            let other = one_cell(alloc, cell.copy(alloc)?)?;
            joined_times(alloc, width.residue(times), product, &other)
        }
    }
}

/// Returns the product of two forms, multiplied out.
pub fn product(
    alloc: Global,
    width: Width,
    left: &FlowForm,
    right: &FlowForm,
) -> Result<FlowForm, NoMemory>
    ensures { IfOk result (λ f. form_tree f ≡ form_product (modulus width) (form_tree left.now) (form_tree right.now)) }
{
    match left {
        FlowForm::Constant(c) => multiple(alloc, width, *c, right.copy(alloc)?),
        FlowForm::Term(t, cells, rest) => {
            let rest = product(alloc, width, rest, right)?;
            let first = term_times(alloc, width, *t, cells, right)?;
            sum(alloc, width, first, rest)
        }
        cell => {
            let cells = one_cell(alloc, cell.copy(alloc)?)?;
            term_times(alloc, width, 1, &cells, right)
        }
    }
}
