//! Forms in place of variables.
ghost use Rattle.std.specs.Prelude.{◌≡◌, ◌&&◌, true, false, IfOk, IfErr, map, slice_get};
ghost use Rattle.flow_forms.specs.Forms.{applied as applied_form, form_tree};
ghost use Rattle.flow_forms.specs.Conversions.{form_conversion};
ghost use Rattle.flow_forms.specs.Expressions.{or_number, or_zero, form_of_cell};
ghost use Rattle.flow_forms.specs.Sizes.{is_small as is_small_form, conversion_fits};
ghost use Rattle.flow_forms.specs.Substitution.{place_of as place_of_sort, cell_in as cell_in_place, sum_in as sum_in_place, one_in as one_in_place, product_in as product_in_place, substituted, product_fits_in, cell_fits_in, substitution_fits};

use crate::arithmetic::multiple_plus;
use crate::checked::{checked_conversion, checked_product, small};
use crate::conversion::is_same_width;
use crate::expression::{cell_of, form_at, sort_at, stacked};
use crate::fault::FormFault;
use crate::form::FlowForm;
use flow_model::Sort;
use kat_model::{NoMemory, Width};
use std::alloc::Global;

/// Where a form stands: in a number of a width, as an opaque value, or among the arguments of a function.
#[derive(Clone, Copy)]
pub enum Place {
    InNumber(Width),
    AsValue,
    AsArgument,
}

/// Returns where a form of a sort stands.
pub fn place_of(sort: Sort) -> Place
    ensures { result ≡ place_of_sort sort }
{
    match sort {
        Sort::Number(width) => Place::InNumber(width),
        Sort::Opaque(_) => Place::AsValue,
    }
}

fn in_number(alloc: Global, width: Width, own: Width, form: FlowForm) -> Result<FlowForm, FormFault>
    ensures made { IfOk result (λ f. form_tree f ≡ cell_in_place (Place.InNumber width) (Sort.Number own) (form_tree form)) }
    ensures fits { IfOk result (λ _. cell_fits_in (Place.InNumber width) (Sort.Number own) (form_tree form) ≡ true) }
    ensures refused { IfErr result (λ e. e ≡ FormFault.TooLarge → cell_fits_in (Place.InNumber width) (Sort.Number own) (form_tree form) ≡ false) }
{
    if is_same_width(own, width) {
        return Ok(form);
    }
    checked_conversion(alloc, false, own, width, &form)
}

// Returns a form of a sort in the place of a cell of this sort.
fn cell_in(alloc: Global, place: Place, sort: Sort, form: FlowForm) -> Result<FlowForm, FormFault>
    ensures made { IfOk result (λ f. form_tree f ≡ cell_in_place place sort (form_tree form)) }
    ensures fits { IfOk result (λ _. cell_fits_in place sort (form_tree form) ≡ true) }
    ensures refused { IfErr result (λ e. e ≡ FormFault.TooLarge → cell_fits_in place sort (form_tree form) ≡ false) }
{
    match place {
        Place::InNumber(width) => match sort {
            Sort::Number(own) => in_number(alloc, width, own, form),
            Sort::Opaque(_) => Ok(form),
        },
        Place::AsValue => match sort {
            Sort::Number(_) => stacked(alloc, sort, form, FlowForm::NoArguments),
            Sort::Opaque(_) => Ok(form),
        },
        Place::AsArgument => stacked(alloc, sort, form, FlowForm::NoArguments),
    }
}

fn unchecked_sum(
    alloc: Global,
    place: Place,
    times: u64,
    product: FlowForm,
    rest: FlowForm,
) -> Result<FlowForm, NoMemory>
    ensures { IfOk result (λ f. form_tree f ≡ sum_in_place place times (form_tree product) (form_tree rest)) }
{
    match place {
        Place::InNumber(width) => multiple_plus(alloc, width, times, product, rest),
        Place::AsValue | Place::AsArgument => FlowForm::new_term(alloc, times, product, rest),
    }
}

fn sum_in(
    alloc: Global,
    place: Place,
    times: u64,
    product: FlowForm,
    rest: FlowForm,
) -> Result<FlowForm, FormFault>
    ensures made { IfOk result (λ f. form_tree f ≡ sum_in_place place times (form_tree product) (form_tree rest)) }
    ensures fits { IfOk result (λ _. is_small_form (sum_in_place place times (form_tree product) (form_tree rest)) ≡ true) }
    ensures refused { IfErr result (λ e. e ≡ FormFault.TooLarge → is_small_form (sum_in_place place times (form_tree product) (form_tree rest)) ≡ false) }
{
    let form = unchecked_sum(alloc, place, times, product, rest)?;
    small(form)
}

fn one_in(place: Place) -> FlowForm
    ensures { form_tree result ≡ one_in_place place }
{
    match place {
        Place::InNumber(_) => FlowForm::Constant(1),
        Place::AsValue | Place::AsArgument => FlowForm::One,
    }
}

fn one_factor(alloc: Global, cell: FlowForm, rest: FlowForm) -> Result<FlowForm, FormFault>
    ensures made { IfOk result (λ f. form_tree f ≡ product_in_place Place.AsValue (form_tree cell) (form_tree rest)) }
    ensures fits { IfOk result (λ _. product_fits_in Place.AsValue (form_tree cell) (form_tree rest) ≡ true) }
    ensures refused { IfErr result (λ e. e ≡ FormFault.TooLarge → product_fits_in Place.AsValue (form_tree cell) (form_tree rest) ≡ false) }
{
    let form = FlowForm::new_factor(alloc, cell, rest)?;
    small(form)
}

fn product_in(
    alloc: Global,
    place: Place,
    cell: FlowForm,
    rest: FlowForm,
) -> Result<FlowForm, FormFault>
    ensures made { IfOk result (λ f. form_tree f ≡ product_in_place place (form_tree cell) (form_tree rest)) }
    ensures fits { IfOk result (λ _. product_fits_in place (form_tree cell) (form_tree rest) ≡ true) }
    ensures refused { IfErr result (λ e. e ≡ FormFault.TooLarge → product_fits_in place (form_tree cell) (form_tree rest) ≡ false) }
{
    match place {
        Place::InNumber(width) => checked_product(alloc, width, &cell, &rest),
        Place::AsValue | Place::AsArgument => one_factor(alloc, cell, rest),
    }
}

fn variable_in(
    alloc: Global,
    sorts: &[Sort],
    forms: &[FlowForm],
    place: Place,
    k: usize,
) -> Result<FlowForm, FormFault>
    ensures made { IfOk result (λ f. form_tree f ≡ cell_in_place place (or_number (slice_get sorts.now k)) (or_zero (slice_get (map form_tree forms.now) k))) }
    ensures fits { IfOk result (λ _. cell_fits_in place (or_number (slice_get sorts.now k)) (or_zero (slice_get (map form_tree forms.now) k)) ≡ true) }
    ensures refused { IfErr result (λ e. e ≡ FormFault.TooLarge → cell_fits_in place (or_number (slice_get sorts.now k)) (or_zero (slice_get (map form_tree forms.now) k)) ≡ false) }
{
    let sort = sort_at(sorts, k);
    let form = form_at(alloc, forms, k)?;
    cell_in(alloc, place, sort, form)
}

fn application_in(
    alloc: Global,
    place: Place,
    function: usize,
    sort: Sort,
    arguments: FlowForm,
) -> Result<FlowForm, FormFault>
    ensures made { IfOk result (λ f. form_tree f ≡ cell_in_place place sort (form_of_cell sort (applied_form function sort (form_tree arguments)))) }
    ensures fits { IfOk result (λ _. (is_small_form (form_of_cell sort (applied_form function sort (form_tree arguments))) && cell_fits_in place sort (form_of_cell sort (applied_form function sort (form_tree arguments)))) ≡ true) }
    ensures refused { IfErr result (λ e. e ≡ FormFault.TooLarge → (is_small_form (form_of_cell sort (applied_form function sort (form_tree arguments))) && cell_fits_in place sort (form_of_cell sort (applied_form function sort (form_tree arguments)))) ≡ false) }
{
    let cell = FlowForm::new_applied(alloc, function, sort, arguments)?;
    let form = small(cell_of(alloc, sort, cell)?)?;
    cell_in(alloc, place, sort, form)
}

fn conversion_in(
    alloc: Global,
    place: Place,
    signed: bool,
    from: Width,
    to: Width,
    form: FlowForm,
) -> Result<FlowForm, FormFault>
    ensures made { IfOk result (λ f. form_tree f ≡ cell_in_place place (Sort.Number to) (form_conversion signed from to (form_tree form))) }
    ensures fits { IfOk result (λ _. (conversion_fits signed from to (form_tree form) && cell_fits_in place (Sort.Number to) (form_conversion signed from to (form_tree form))) ≡ true) }
    ensures refused { IfErr result (λ e. e ≡ FormFault.TooLarge → (conversion_fits signed from to (form_tree form) && cell_fits_in place (Sort.Number to) (form_conversion signed from to (form_tree form))) ≡ false) }
{
    let form = checked_conversion(alloc, signed, from, to, &form)?;
    cell_in(alloc, place, Sort::Number(to), form)
}

/// Returns a form with forms in place of its variables, whose sorts are given. Fails with `TooLarge` exactly if the form
/// or a part of it becomes too large, or too large to be multiplied out.
#[tactic(auto, using(crate::proofs::Evaluated::no_second, crate::proofs::Evaluated::first_two))]
#[cycle(substituted)]
pub fn substitute(
    alloc: Global,
    sorts: &[Sort],
    forms: &[FlowForm],
    place: Place,
    form: &FlowForm,
) -> Result<FlowForm, FormFault>
    ensures made { IfOk result (λ f. form_tree f ≡ substituted sorts.now (map form_tree forms.now) place (form_tree form.now)) }
    ensures fits { IfOk result (λ _. substitution_fits sorts.now (map form_tree forms.now) place (form_tree form.now) ≡ true) }
    ensures refused { IfErr result (λ e. e ≡ FormFault.TooLarge → substitution_fits sorts.now (map form_tree forms.now) place (form_tree form.now) ≡ false) }
{
    match form {
        FlowForm::Constant(c) => Ok(FlowForm::Constant(*c)),
        FlowForm::Term(times, product, rest) => {
            let (product, rest) = substitute_both(
                alloc, sorts, forms, place, product, place, rest,
            )?;
            sum_in(alloc, place, *times, product, rest)
        }
        FlowForm::One => Ok(one_in(place)),
        FlowForm::Factor(cell, rest) => {
            let (cell, rest) = substitute_both(alloc, sorts, forms, place, cell, place, rest)?;
            product_in(alloc, place, cell, rest)
        }
        FlowForm::Variable(k) => variable_in(alloc, sorts, forms, place, *k),
        FlowForm::Applied(function, sort, arguments) => {
            let arguments = substitute(alloc, sorts, forms, Place::AsArgument, arguments)?;
            application_in(alloc, place, *function, *sort, arguments)
        }
        FlowForm::Converted(signed, from, to, inner) => {
            let inner = substitute(alloc, sorts, forms, Place::InNumber(*from), inner)?;
            conversion_in(alloc, place, *signed, *from, *to, inner)
        }
        FlowForm::NoArguments => Ok(FlowForm::NoArguments),
        FlowForm::Argument(sort, part, rest) => {
            let own = place_of(*sort);
            let (part, rest) = substitute_both(
                alloc,
                sorts,
                forms,
                own,
                part,
                Place::AsArgument,
                rest,
            )?;
            stacked(alloc, *sort, part, rest)
        }
    }
}

// Returns both forms with forms in place of their variables, each for its own place.
#[tactic(auto, using(crate::proofs::Evaluated::no_second))]
#[cycle(substituted)]
fn substitute_both(
    alloc: Global,
    sorts: &[Sort],
    forms: &[FlowForm],
    first_place: Place,
    first: &FlowForm,
    second_place: Place,
    second: &FlowForm,
) -> Result<(FlowForm, FlowForm), FormFault>
    ensures first { IfOk result (λ both. form_tree both.0 ≡ substituted sorts.now (map form_tree forms.now) first_place (form_tree first.now)) }
    ensures second { IfOk result (λ both. form_tree both.1 ≡ substituted sorts.now (map form_tree forms.now) second_place (form_tree second.now)) }
    ensures first_fits { IfOk result (λ _. substitution_fits sorts.now (map form_tree forms.now) first_place (form_tree first.now) ≡ true) }
    ensures second_fits { IfOk result (λ _. substitution_fits sorts.now (map form_tree forms.now) second_place (form_tree second.now) ≡ true) }
    ensures refused { IfErr result (λ e. e ≡ FormFault.TooLarge → (substitution_fits sorts.now (map form_tree forms.now) first_place (form_tree first.now) && substitution_fits sorts.now (map form_tree forms.now) second_place (form_tree second.now)) ≡ false) }
{
    let first = substitute(alloc, sorts, forms, first_place, first)?;
    let second = substitute(alloc, sorts, forms, second_place, second)?;
    Ok((first, second))
}
