//! Conversions of forms from one width to another.
ghost use Rattle.std.specs.Prelude.{◌≡◌, false, IfOk};
ghost use Rattle.flow_forms.specs.Forms.{converted as converted_form, form_tree, cell_form};
ghost use Rattle.flow_forms.specs.Conversions.{is_narrower as has_fewer_bits, is_same_width as has_same_bits, shortened as shortened_form, truncated as truncated_form, is_one as has_no_cells, is_zero as is_zero_form, is_alone as is_product_alone, is_kept as keeps_form, widened_cell as widened_from_cell, widened_product as widened_from_product, widened as widened_form, sum_conversion as converted_sum, form_conversion};

use crate::arithmetic::{multiple_plus, product};
use crate::form::FlowForm;
use crate::order::bits as bits_of;
use flow_model::convert_number;
use kat_model::{NoMemory, Width};
use std::alloc::Global;

pub(crate) fn is_narrower(left: Width, right: Width) -> bool
    ensures { result ≡ has_fewer_bits left right }
{
    bits_of(left) < bits_of(right)
}

pub(crate) fn is_same_width(left: Width, right: Width) -> bool
    ensures { result ≡ has_same_bits left right }
{
    bits_of(left) == bits_of(right)
}

// Returns the sum that is one conversion.
fn conversion_cell(
    alloc: Global,
    signed: bool,
    from: Width,
    to: Width,
    form: FlowForm,
) -> Result<FlowForm, NoMemory>
    ensures { IfOk result (λ f. form_tree f ≡ cell_form (converted_form signed from to (form_tree form))) }
{
    let cell = FlowForm::new_converted(alloc, signed, from, to, form)?;
    FlowForm::of_cell(alloc, cell)
}

// Returns the sum that is one conversion of a copy of a form.
fn copied_conversion(
    alloc: Global,
    signed: bool,
    from: Width,
    to: Width,
    form: &FlowForm,
) -> Result<FlowForm, NoMemory>
    ensures { IfOk result (λ f. form_tree f ≡ cell_form (converted_form signed from to (form_tree form.now))) }
{
    let form = form.copy(alloc)?;
    conversion_cell(alloc, signed, from, to, form)
}

// Returns a cell, converted without sign.
fn truncated_cell(
    alloc: Global,
    from: Width,
    to: Width,
    cell: &FlowForm,
) -> Result<FlowForm, NoMemory>
    ensures { IfOk result (λ f. form_tree f ≡ cell_form (converted_form false from to (cell_form (form_tree cell.now)))) }
{
    let form = FlowForm::of_cell(alloc, cell.copy(alloc)?)?;
    conversion_cell(alloc, false, from, to, form)
}

// Returns a form with the bits of a width of fewer bits.
#[cycle(truncated)]
fn truncated(alloc: Global, from: Width, to: Width, form: &FlowForm) -> Result<FlowForm, NoMemory>
    ensures { IfOk result (λ f. form_tree f ≡ truncated_form from to (form_tree form.now)) }
{
    match form {
        FlowForm::Constant(c) => Ok(FlowForm::Constant(to.residue(*c))),
        FlowForm::Term(t, cells, rest) => {
            let rest = truncated(alloc, from, to, rest)?;
            let cells = truncated(alloc, from, to, cells)?;
            multiple_plus(alloc, to, *t, cells, rest)
        }
        FlowForm::One => Ok(FlowForm::Constant(1)),
        FlowForm::Factor(cell, rest) => {
            let cell = truncated(alloc, from, to, cell)?;
            let rest = truncated(alloc, from, to, rest)?;
            product(alloc, to, &cell, &rest)
        }
        FlowForm::Converted(signed, v, w, inner) => {
            if is_same_width(*w, from) {
                return shortened(alloc, *signed, *v, to, inner);
            }
            truncated_cell(alloc, from, to, form)
        }
        _ => truncated_cell(alloc, from, to, form),
    }
}

// Returns the conversion of a form, of which only the bits of a third width are kept.
#[cycle(truncated)]
fn shortened(
    alloc: Global,
    signed: bool,
    from: Width,
    to: Width,
    form: &FlowForm,
) -> Result<FlowForm, NoMemory>
    ensures { IfOk result (λ f. form_tree f ≡ shortened_form signed from to (form_tree form.now) (truncated_form from to (form_tree form.now))) }
{
    if is_narrower(to, from) {
        return truncated(alloc, from, to, form);
    }
    if is_narrower(from, to) {
        return copied_conversion(alloc, signed, from, to, form);
    }
    form.copy(alloc)
}

pub(crate) fn is_one(product: &FlowForm) -> bool
    ensures { result ≡ has_no_cells (form_tree product.now) }
{
    match product {
        FlowForm::One => true,
        _ => false,
    }
}

pub(crate) fn is_zero(form: &FlowForm) -> bool
    ensures { result ≡ is_zero_form (form_tree form.now) }
{
    match form {
        FlowForm::Constant(c) => *c == 0,
        _ => false,
    }
}

// Returns whether a term with this coefficient before this sum is its product alone.
pub(crate) fn is_alone(times: u64, rest: &FlowForm) -> bool
    ensures { result ≡ is_product_alone times (form_tree rest.now) }
{
    times == 1 && is_zero(rest)
}

// Returns whether a conversion may be converted from its own form.
fn is_kept(signed: bool, from: Width, inner: bool, v: Width, w: Width) -> bool
    ensures { result ≡ keeps_form signed from inner v w }
{
    is_same_width(w, from) && is_narrower(v, w) && (signed || !inner)
}

// Returns the conversion of a form that is one cell to a width of more bits.
fn widened_cell(
    alloc: Global,
    signed: bool,
    from: Width,
    to: Width,
    form: &FlowForm,
    cell: &FlowForm,
) -> Result<FlowForm, NoMemory>
    ensures { IfOk result (λ f. form_tree f ≡ widened_from_cell signed from to (form_tree form.now) (form_tree cell.now)) }
{
    match cell {
        FlowForm::Converted(inner, v, w, part) => {
            if is_kept(signed, from, *inner, *v, *w) {
                return copied_conversion(alloc, *inner, *v, to, part);
            }
            copied_conversion(alloc, signed, from, to, form)
        }
        _ => copied_conversion(alloc, signed, from, to, form),
    }
}

// Returns the conversion of a form that is one product to a width of more bits.
fn widened_product(
    alloc: Global,
    signed: bool,
    from: Width,
    to: Width,
    form: &FlowForm,
    product: &FlowForm,
) -> Result<FlowForm, NoMemory>
    ensures { IfOk result (λ f. form_tree f ≡ widened_from_product signed from to (form_tree form.now) (form_tree product.now)) }
{
    match product {
        FlowForm::Factor(cell, rest) => {
            if is_one(rest) {
                return widened_cell(alloc, signed, from, to, form, cell);
            }
            copied_conversion(alloc, signed, from, to, form)
        }
        _ => copied_conversion(alloc, signed, from, to, form),
    }
}

// Returns the conversion of a form to a width of more bits.
fn widened(
    alloc: Global,
    signed: bool,
    from: Width,
    to: Width,
    form: &FlowForm,
) -> Result<FlowForm, NoMemory>
    ensures { IfOk result (λ f. form_tree f ≡ widened_form signed from to (form_tree form.now)) }
{
    match form {
        FlowForm::Term(times, product, rest) => {
            if is_alone(*times, rest) {
                return widened_product(alloc, signed, from, to, form, product);
            }
            copied_conversion(alloc, signed, from, to, form)
        }
        _ => copied_conversion(alloc, signed, from, to, form),
    }
}

// Returns the conversion of a form that is not a constant.
fn sum_conversion(
    alloc: Global,
    signed: bool,
    from: Width,
    to: Width,
    form: &FlowForm,
) -> Result<FlowForm, NoMemory>
    ensures { IfOk result (λ f. form_tree f ≡ converted_sum signed from to (form_tree form.now)) }
{
    if is_narrower(to, from) {
        return truncated(alloc, from, to, form);
    }
    if is_narrower(from, to) {
        return widened(alloc, signed, from, to, form);
    }
    form.copy(alloc)
}

/// Returns a form converted from the width `from` to the width `to`, as two's complement if `signed`. Fails only when
/// out of memory.
pub fn convert(
    alloc: Global,
    signed: bool,
    from: Width,
    to: Width,
    form: &FlowForm,
) -> Result<FlowForm, NoMemory>
    ensures { IfOk result (λ f. form_tree f ≡ form_conversion signed from to (form_tree form.now)) }
{
    match form {
        FlowForm::Constant(c) => {
            let number = convert_number(signed, from, to, from.residue(*c));
            Ok(FlowForm::Constant(number))
        }
        _ => sum_conversion(alloc, signed, from, to, form),
    }
}
