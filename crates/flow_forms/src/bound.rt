//! Comparisons of forms with numbers and with one another.
ghost use Rattle.std.specs.Prelude.{◌≡◌, ◌+◌, ◌<◌, IfOk};
ghost use Rattle.kat_model.specs.Stores.{modulus};
ghost use Rattle.flow_forms.specs.Forms.{form_tree};
ghost use Rattle.flow_forms.specs.Comparisons.{literal_tree, bounded_conversion as bound_of_conversion, is_unsigned_widening as is_unsigned_widening_to, bounded_cell as with_bounded_cell, bounded_product as with_bounded_product, narrower_bound as narrower_form_bound, varying_bound as varying_form_bound, settled_bound as settled_form_bound, below_number as form_below_number, above_number as form_above_number, varying_less as varying_form_less, less_than as form_less_than, less_literal as less_form_literal, same_literal as same_form_literal, compared_numbers as compared_forms, biased_form as biased, compared_signed as compared_signed_forms};
ghost use Rattle.flow_forms.specs.Equations.{bound_tree};

use crate::arithmetic::{difference, sum};
use crate::comparison::{FlowComparison, FlowLiteral, opposite};
use crate::conversion::{is_alone, is_one};
use crate::equation::{is_widening, zero_literal};
use crate::form::FlowForm;
use crate::order::cmp_form;
use kat_model::{NoMemory, Rel, Width};
use std::alloc::Global;
use std::cmp::Ordering;

// That a form of a width is less than a number.
#[derive(Drop)]
struct Bound {
    width: Width,
    form: FlowForm,
    number: u64,
}

fn copy_bound(alloc: Global, bound: &Bound) -> Result<Bound, NoMemory>
    ensures { IfOk result (λ b. bound_tree b ≡ bound_tree bound.now) }
{
    let form = bound.form.copy(alloc)?;
    let width = bound.width;
    let number = bound.number;
    Ok(Bound {
        width,
        form,
        number,
    })
}

// Returns the bound of a conversion without sign.
fn bounded_conversion(
    alloc: Global,
    bound: &Bound,
    from: Width,
    form: &FlowForm,
) -> Result<Bound, NoMemory>
    ensures { IfOk result (λ b. bound_tree b ≡ bound_of_conversion (bound_tree bound.now) from (form_tree form.now)) }
{
    let number = bound.number;
    if number <= from.greatest() {
        let form = form.copy(alloc)?;
        return Ok(Bound {
            width: from,
            form,
            number,
        });
    }
    Ok(Bound {
        width: bound.width,
        form: FlowForm::Constant(0),
        number: 1,
    })
}

fn is_unsigned_widening(signed: bool, from: Width, to: Width, width: Width) -> bool
    ensures { result ≡ is_unsigned_widening_to signed from to width }
{
    !signed && is_widening(from, to, width)
}

fn bounded_cell(alloc: Global, bound: &Bound, cell: &FlowForm) -> Result<Bound, NoMemory>
    ensures { IfOk result (λ b. bound_tree b ≡ with_bounded_cell (bound_tree bound.now) (form_tree cell.now)) }
{
    match cell {
        FlowForm::Converted(signed, from, to, form) => {
            if is_unsigned_widening(*signed, *from, *to, bound.width) {
                return bounded_conversion(alloc, bound, *from, form);
            }
            copy_bound(alloc, bound)
        }
        _ => copy_bound(alloc, bound),
    }
}

fn bounded_product(alloc: Global, bound: &Bound, product: &FlowForm) -> Result<Bound, NoMemory>
    ensures { IfOk result (λ b. bound_tree b ≡ with_bounded_product (bound_tree bound.now) (form_tree product.now)) }
{
    match product {
        FlowForm::Factor(cell, rest) => {
            if is_one(rest) {
                return bounded_cell(alloc, bound, cell);
            }
            copy_bound(alloc, bound)
        }
        _ => copy_bound(alloc, bound),
    }
}

// Returns a bound of a conversion without sign that keeps all bits as one of its own form.
fn narrower(alloc: Global, bound: Bound) -> Result<Bound, NoMemory>
    ensures { IfOk result (λ b. bound_tree b ≡ narrower_form_bound bound.width (form_tree bound.form) bound.number) }
{
    match &bound.form {
        FlowForm::Term(times, product, rest) => {
            if is_alone(*times, rest) {
                return bounded_product(alloc, &bound, product);
            }
            Ok(bound)
        }
        _ => Ok(bound),
    }
}

fn varying(alloc: Global, bound: Bound) -> Result<FlowLiteral, NoMemory>
    ensures { IfOk result (λ l. literal_tree l ≡ varying_form_bound bound.width (form_tree bound.form) bound.number) }
{
    let Bound {
        width,
        form,
        number,
    } = bound;
    if number == 0 {
        return Ok(FlowLiteral::Decided(false));
    }
    if number == 1 {
        return zero_literal(alloc, width, form);
    }
    if number == width.greatest() {
        let next = sum(alloc, width, form, FlowForm::Constant(1))?;
        return Ok(opposite(zero_literal(alloc, width, next)?));
    }
    let comparison = FlowComparison::Less(width, form, FlowForm::Constant(number));
    Ok(FlowLiteral::Holds(comparison))
}

fn settled(alloc: Global, bound: Bound) -> Result<FlowLiteral, NoMemory>
    ensures { IfOk result (λ l. literal_tree l ≡ settled_form_bound bound.width (form_tree bound.form) bound.number) }
{
    match &bound.form {
        FlowForm::Constant(c) => {
            let holds = bound.width.residue(*c) < bound.number;
            Ok(FlowLiteral::Decided(holds))
        }
        _ => varying(alloc, bound),
    }
}

// Returns the condition that a form is less than a number.
fn below_number(
    alloc: Global,
    width: Width,
    form: FlowForm,
    number: u64,
) -> Result<FlowLiteral, NoMemory>
    ensures { IfOk result (λ l. literal_tree l ≡ form_below_number width (form_tree form) number) }
{
    let bound = Bound {
        width,
        form,
        number,
    };
    let first = narrower(alloc, bound)?;
    let second = narrower(alloc, first)?;
    let third = narrower(alloc, second)?;
    settled(alloc, third)
}

// Returns the condition that a number of the width is less than a form.
fn above_number(
    alloc: Global,
    width: Width,
    number: u64,
    form: FlowForm,
) -> Result<FlowLiteral, NoMemory>
    requires { number < modulus width }
    ensures { IfOk result (λ l. literal_tree l ≡ form_above_number width number (form_tree form)) }
{
    if number == width.greatest() {
        return Ok(FlowLiteral::Decided(false));
    }
    Ok(opposite(below_number(alloc, width, form, number + 1)?))
}

fn varying_less(width: Width, left: FlowForm, right: FlowForm) -> FlowLiteral
    ensures { literal_tree result ≡ varying_form_less width (form_tree left) (form_tree right) }
{
    if cmp_form(&left, &right) == Ordering::Equal {
        return FlowLiteral::Decided(false);
    }
    FlowLiteral::Holds(FlowComparison::Less(width, left, right))
}

fn less_than(
    alloc: Global,
    width: Width,
    left: FlowForm,
    right: FlowForm,
) -> Result<FlowLiteral, NoMemory>
    ensures { IfOk result (λ l. literal_tree l ≡ form_less_than width (form_tree left) (form_tree right)) }
{
    match &right {
        FlowForm::Constant(d) => below_number(alloc, width, left, width.residue(*d)),
        _ => Ok(varying_less(width, left, right)),
    }
}

/// Returns the condition that a form of a width is less than another as unsigned numbers. Fails only when out of memory;
/// the forms are dropped then.
pub fn less_literal(
    alloc: Global,
    width: Width,
    left: FlowForm,
    right: FlowForm,
) -> Result<FlowLiteral, NoMemory>
    ensures { IfOk result (λ l. literal_tree l ≡ less_form_literal width (form_tree left) (form_tree right)) }
{
    match &left {
        FlowForm::Constant(c) => above_number(alloc, width, width.residue(*c), right),
        _ => less_than(alloc, width, left, right),
    }
}

/// Returns the condition that two opaque values are the same.
pub fn same_literal(left: FlowForm, right: FlowForm) -> FlowLiteral
    ensures { literal_tree result ≡ same_form_literal (form_tree left) (form_tree right) }
{
    match cmp_form(&left, &right) {
        Ordering::Less => FlowLiteral::Holds(FlowComparison::Same(left, right)),
        Ordering::Equal => FlowLiteral::Decided(true),
        Ordering::Greater => FlowLiteral::Holds(FlowComparison::Same(right, left)),
    }
}

fn equal_literal(
    alloc: Global,
    width: Width,
    left: FlowForm,
    right: FlowForm,
) -> Result<FlowLiteral, NoMemory>
    ensures { IfOk result (λ l. literal_tree l ≡ compared_forms width Rel.Eq (form_tree left) (form_tree right)) }
{
    let form = difference(alloc, width, left, right)?;
    zero_literal(alloc, width, form)
}

/// Returns the normal form of a comparison of two forms of a width as unsigned numbers. Fails only when out of memory;
/// the forms are dropped then.
pub fn compared(
    alloc: Global,
    width: Width,
    rel: Rel,
    left: FlowForm,
    right: FlowForm,
) -> Result<FlowLiteral, NoMemory>
    ensures { IfOk result (λ l. literal_tree l ≡ compared_forms width rel (form_tree left) (form_tree right)) }
{
    match rel {
        Rel::Eq => equal_literal(alloc, width, left, right),
        Rel::Ne => Ok(opposite(equal_literal(alloc, width, left, right)?)),
        Rel::Lt => less_literal(alloc, width, left, right),
        Rel::Gt => less_literal(alloc, width, right, left),
        Rel::Ge => Ok(opposite(less_literal(alloc, width, left, right)?)),
        Rel::Le => Ok(opposite(less_literal(alloc, width, right, left)?)),
    }
}

// Returns a form moved so that two's complements are compared as numbers.
fn biased_form(alloc: Global, width: Width, form: FlowForm) -> Result<FlowForm, NoMemory>
    ensures { IfOk result (λ f. form_tree f ≡ biased width (form_tree form)) }
{
    let half = match width {
        Width::W8 => 0x80,
        Width::W16 => 0x8000,
        Width::W32 => 0x8000_0000,
        Width::W64 => 0x8000_0000_0000_0000,
    };
    sum(alloc, width, form, FlowForm::Constant(half))
}

/// Returns the normal form of a comparison of two forms of a width as two's complements. Fails only when out of memory;
/// the forms are dropped then.
pub fn compared_signed(
    alloc: Global,
    width: Width,
    rel: Rel,
    left: FlowForm,
    right: FlowForm,
) -> Result<FlowLiteral, NoMemory>
    ensures { IfOk result (λ l. literal_tree l ≡ compared_signed_forms width rel (form_tree left) (form_tree right)) }
{
    let left = biased_form(alloc, width, left)?;
    let right = biased_form(alloc, width, right)?;
    compared(alloc, width, rel, left, right)
}
