//! Equations of forms with 0.
ghost use Rattle.std.specs.Prelude.{◌≡◌, ◌<◌, IfOk};
ghost use Rattle.kat_model.specs.Stores.{modulus};
ghost use Rattle.flow_forms.specs.Forms.{form_tree};
ghost use Rattle.flow_forms.specs.Comparisons.{literal_tree, canonical as canonical_form, conversion_is as conversion_equation, are_opposite as are_opposite_numbers, is_same_sign as has_same_sign, is_same_kind as has_same_kind, is_widening as is_widening_to, second_cell as with_second_cell, second_product as with_second_product, with_number as equation_with_number, after_part as equation_after_part, first_cell as with_first_cell, first_product as with_first_product, narrower_equation as narrower_form_equation, settled_equation as settled_form_equation, zero_literal as zero_form_literal};
ghost use Rattle.flow_forms.specs.Equations.{equation_tree, part_tree};

use crate::arithmetic::{difference, negative};
use crate::comparison::{FlowComparison, FlowLiteral};
use crate::conversion::{is_narrower, is_one, is_same_width, is_zero};
use crate::form::{FlowForm, copy_both};
use crate::order::{cmp_form, sign_rank};
use flow_model::convert_number;
use kat_model::{NoMemory, Width};
use std::alloc::Global;
use std::cmp::Ordering;

// The equation that a form of a width is 0.
#[derive(Drop)]
struct Equation {
    width: Width,
    form: FlowForm,
}

// A multiple of a conversion of a form, which has the width `from`.
#[derive(Drop)]
struct Part {
    times: u64,
    signed: bool,
    from: Width,
    form: FlowForm,
}

fn copy_equation(alloc: Global, equation: &Equation) -> Result<Equation, NoMemory>
    ensures { IfOk result (λ e. equation_tree e ≡ equation_tree equation.now) }
{
    let form = equation.form.copy(alloc)?;
    let width = equation.width;
    Ok(Equation { width, form })
}

/// Returns the form or its negative, whichever is less. Fails only when out of memory; the form is dropped then.
pub fn canonical(alloc: Global, width: Width, form: FlowForm) -> Result<FlowForm, NoMemory>
    ensures { IfOk result (λ f. form_tree f ≡ canonical_form (modulus width) (form_tree form)) }
{
    let other = negative(alloc, width, form.copy(alloc)?)?;
    if cmp_form(&form, &other) == Ordering::Greater {
        return Ok(other);
    }
    Ok(form)
}

// Returns the equation that the conversion of a form is a number.
fn conversion_is(alloc: Global, part: &Part, to: Width, number: u64) -> Result<Equation, NoMemory>
    ensures { IfOk result (λ e. equation_tree e ≡ conversion_equation part.now.signed part.now.from to (form_tree part.now.form) number) }
{
    let width = part.from;
    let short = width.residue(number);
    if convert_number(part.signed, width, to, short) == number {
        let form = part.form.copy(alloc)?;
        let form = difference(alloc, width, form, FlowForm::Constant(short))?;
        return Ok(Equation { width, form });
    }
    Ok(Equation {
        width: to,
        form: FlowForm::Constant(1),
    })
}

fn are_opposite(width: Width, left: u64, right: u64) -> bool
    ensures { result ≡ are_opposite_numbers (modulus width) left right }
{
    let most = width.greatest();
    (left == 1 && right == most) || (left == most && right == 1)
}

fn is_same_sign(left: bool, right: bool) -> bool
    ensures { result ≡ has_same_sign left right }
{
    sign_rank(left) == sign_rank(right)
}

// Returns whether two conversions, the first of the part to the width, are both signed or both not, and have the same
// widths.
fn is_same_kind(part: &Part, width: Width, signed: bool, from: Width, to: Width) -> bool
    ensures { result ≡ has_same_kind part.now.signed part.now.from width signed from to }
{
    is_same_sign(part.signed, signed) && is_same_width(from, part.from) && is_same_width(to, width)
}

fn second_cell(
    alloc: Global,
    equation: &Equation,
    part: &Part,
    times: u64,
    cell: &FlowForm,
) -> Result<Equation, NoMemory>
    ensures { IfOk result (λ e. equation_tree e ≡ with_second_cell (equation_tree equation.now) (part_tree part.now) times (form_tree cell.now)) }
{
    match cell {
        FlowForm::Converted(signed, from, to, form) => {
            let is_kind = is_same_kind(part, equation.width, *signed, *from, *to);
            if is_kind && are_opposite(equation.width, part.times, times) {
                let width = part.from;
                let (left, right) = copy_both(alloc, &part.form, form)?;
                let form = difference(alloc, width, left, right)?;
                return Ok(Equation { width, form });
            }
            copy_equation(alloc, equation)
        }
        _ => copy_equation(alloc, equation),
    }
}

fn second_product(
    alloc: Global,
    equation: &Equation,
    part: &Part,
    times: u64,
    product: &FlowForm,
) -> Result<Equation, NoMemory>
    ensures { IfOk result (λ e. equation_tree e ≡ with_second_product (equation_tree equation.now) (part_tree part.now) times (form_tree product.now)) }
{
    match product {
        FlowForm::Factor(cell, rest) => {
            if is_one(rest) {
                return second_cell(alloc, equation, part, times, cell);
            }
            copy_equation(alloc, equation)
        }
        _ => copy_equation(alloc, equation),
    }
}

// Returns the equation of the part and a number.
fn with_number(
    alloc: Global,
    equation: &Equation,
    part: &Part,
    number: u64,
) -> Result<Equation, NoMemory>
    ensures { IfOk result (λ e. equation_tree e ≡ equation_with_number (equation_tree equation.now) (part_tree part.now) number) }
{
    let width = equation.width;
    if part.times == 1 {
        return conversion_is(alloc, part, width, width.mul(width.greatest(), number));
    }
    if part.times == width.greatest() {
        return conversion_is(alloc, part, width, width.residue(number));
    }
    copy_equation(alloc, equation)
}

// Returns the equation of the part and the rest of a sum.
fn after_part(
    alloc: Global,
    equation: &Equation,
    part: &Part,
    rest: &FlowForm,
) -> Result<Equation, NoMemory>
    ensures { IfOk result (λ e. equation_tree e ≡ equation_after_part (equation_tree equation.now) (part_tree part.now) (form_tree rest.now)) }
{
    match rest {
        FlowForm::Constant(c) => with_number(alloc, equation, part, *c),
        FlowForm::Term(times, product, end) => {
            if is_zero(end) {
                return second_product(alloc, equation, part, *times, product);
            }
            copy_equation(alloc, equation)
        }
        _ => copy_equation(alloc, equation),
    }
}

pub(crate) fn is_widening(from: Width, to: Width, width: Width) -> bool
    ensures { result ≡ is_widening_to from to width }
{
    is_same_width(to, width) && is_narrower(from, to)
}

fn first_cell(
    alloc: Global,
    equation: &Equation,
    times: u64,
    rest: &FlowForm,
    cell: &FlowForm,
) -> Result<Equation, NoMemory>
    ensures { IfOk result (λ e. equation_tree e ≡ with_first_cell (equation_tree equation.now) times (form_tree rest.now) (form_tree cell.now)) }
{
    match cell {
        FlowForm::Converted(signed, from, to, form) => {
            if is_widening(*from, *to, equation.width) {
                let form = form.copy(alloc)?;
                let part = Part {
                    times,
                    signed: *signed,
                    from: *from,
                    form,
                };
                return after_part(alloc, equation, &part, rest);
            }
            copy_equation(alloc, equation)
        }
        _ => copy_equation(alloc, equation),
    }
}

fn first_product(
    alloc: Global,
    equation: &Equation,
    times: u64,
    rest: &FlowForm,
    product: &FlowForm,
) -> Result<Equation, NoMemory>
    ensures { IfOk result (λ e. equation_tree e ≡ with_first_product (equation_tree equation.now) times (form_tree rest.now) (form_tree product.now)) }
{
    match product {
        FlowForm::Factor(cell, end) => {
            if is_one(end) {
                return first_cell(alloc, equation, times, rest, cell);
            }
            copy_equation(alloc, equation)
        }
        _ => copy_equation(alloc, equation),
    }
}

// Returns an equation of conversions that keep all bits as one of their own forms.
fn narrower(alloc: Global, equation: Equation) -> Result<Equation, NoMemory>
    ensures { IfOk result (λ e. equation_tree e ≡ narrower_form_equation equation.width (form_tree equation.form)) }
{
    match &equation.form {
        FlowForm::Term(times, product, rest) => {
            first_product(alloc, &equation, *times, rest, product)
        }
        _ => Ok(equation),
    }
}

fn settled(alloc: Global, equation: Equation) -> Result<FlowLiteral, NoMemory>
    ensures { IfOk result (λ l. literal_tree l ≡ settled_form_equation equation.width (form_tree equation.form)) }
{
    let Equation { width, form } = equation;
    match &form {
        FlowForm::Constant(c) => Ok(FlowLiteral::Decided(width.residue(*c) == 0)),
        _ => {
            let form = canonical(alloc, width, form)?;
            Ok(FlowLiteral::Holds(FlowComparison::Zero(width, form)))
        }
    }
}

/// Returns the condition that a form of a width is 0. An equation of conversions that keep all bits is one of their own
/// forms. There are four widths, so three steps lead to the least. Fails only when out of memory; the form is dropped
/// then.
pub fn zero_literal(alloc: Global, width: Width, form: FlowForm) -> Result<FlowLiteral, NoMemory>
    ensures { IfOk result (λ l. literal_tree l ≡ zero_form_literal width (form_tree form)) }
{
    let equation = Equation { width, form };
    let first = narrower(alloc, equation)?;
    let second = narrower(alloc, first)?;
    let third = narrower(alloc, second)?;
    settled(alloc, third)
}
