//! Forms, as text.
ghost use Rattle.std.specs.Prelude.{◌≡◌, ◌++◌, true, codes};
ghost use Rattle.flow_forms.specs.Forms.{form_tree};
ghost use Rattle.flow_print.specs.FormTexts.{star_text, plus_text, minus_text, sign_text, times_text, constant_text, one_text, width_text, conversion_text, is_long as has_too_many};
ghost use Rattle.flow_print.specs.Working.Written.{Writes, factor_text, part_of, arguments_of};

use crate::limits::MAX_SHOWN_NODES;
use crate::names::{FlowNames, put_function, put_variable, sort_width};
use crate::numbers::{is_minus, magnitude};
use crate::writing::put_comma;
use flow_forms::FlowForm;
use kat_model::{NoMemory, Width};
use std::alloc::Global;
use text_print::{put, put_number};

// Appends the text before a part of a product, unless the part is the first.
fn put_star(out: &mut Vec<u8>, first: bool) -> Result<(), NoMemory>
    ensures { Writes result out.old out.new (star_text first) }
{
    if first {
        return Ok(());
    }
    put(out, b"*")
}

/// Appends the text before a part of a sum, unless the part is the first.
pub(crate) fn put_plus(out: &mut Vec<u8>, first: bool) -> Result<(), NoMemory>
    ensures { Writes result out.old out.new (plus_text first) }
{
    if first {
        return Ok(());
    }
    put(out, b" + ")
}

// Appends the text before a part with a minus.
fn put_minus(out: &mut Vec<u8>, first: bool) -> Result<(), NoMemory>
    ensures { Writes result out.old out.new (minus_text first) }
{
    if first {
        return put(out, b"0 - ");
    }
    put(out, b" - ")
}

// Appends the sign before a part of a sum.
fn put_sign(out: &mut Vec<u8>, width: Width, first: bool, number: u64) -> Result<(), NoMemory>
    ensures { Writes result out.old out.new (sign_text width first number) }
{
    if is_minus(width, number) {
        return put_minus(out, first);
    }
    put_plus(out, first)
}

/// Appends a coefficient other than 1.
pub(crate) fn put_times(alloc: Global, out: &mut Vec<u8>, times: u64) -> Result<(), NoMemory>
    ensures { Writes result out.old out.new (times_text times) }
{
    if times == 1 {
        return Ok(());
    }
    put_number(alloc, out, times)?;
    put(out, b"*")
}

// Appends the sign and the coefficient of a term of a sum.
fn put_coefficient(
    alloc: Global,
    out: &mut Vec<u8>,
    width: Width,
    first: bool,
    number: u64,
) -> Result<(), NoMemory>
    ensures { Writes result out.old out.new (factor_text width first number) }
{
    put_sign(out, width, first, number)?;
    put_times(alloc, out, magnitude(width, number))
}

// Appends the constant of a sum.
fn put_constant(
    alloc: Global,
    out: &mut Vec<u8>,
    width: Width,
    first: bool,
    number: u64,
) -> Result<(), NoMemory>
    ensures { Writes result out.old out.new (constant_text width first number) }
{
    if first {
        return put_number(alloc, out, number);
    }
    if number == 0 {
        return Ok(());
    }
    put_sign(out, width, false, number)?;
    put_number(alloc, out, magnitude(width, number))
}

// Appends the product of no cells, unless it ends a product.
fn put_one(out: &mut Vec<u8>, first: bool) -> Result<(), NoMemory>
    ensures { Writes result out.old out.new (one_text first) }
{
    if first {
        return put(out, b"1");
    }
    Ok(())
}

fn put_width(out: &mut Vec<u8>, width: Width) -> Result<(), NoMemory>
    ensures { Writes result out.old out.new (width_text width) }
{
    match width {
        Width::W8 => put(out, b"8"),
        Width::W16 => put(out, b"16"),
        Width::W32 => put(out, b"32"),
        Width::W64 => put(out, b"64"),
    }
}

// Appends the word of a conversion and an opening parenthesis.
fn put_conversion(out: &mut Vec<u8>, signed: bool, to: Width) -> Result<(), NoMemory>
    ensures { Writes result out.old out.new (conversion_text signed to ++ codes "(") }
{
    if signed {
        put(out, b"s")?;
    } else {
        put(out, b"u")?;
    }
    put_width(out, to)?;
    put(out, b"(")
}

// Returns whether an application with these arguments is written without them.
fn is_long(arguments: &FlowForm) -> bool
    ensures { result ≡ has_too_many (form_tree arguments.now) }
{
    arguments.size().saturating_add(1) > MAX_SHOWN_NODES
}

#[cycle(forms)]
fn put_arguments(
    alloc: Global,
    out: &mut Vec<u8>,
    names: &FlowNames,
    arguments: &FlowForm,
) -> Result<(), NoMemory>
    ensures { Writes result out.old out.new (arguments_of names.now arguments.now) }
{
    if is_long(arguments) {
        return put(out, b"(..)");
    }
    put(out, b"(")?;
    put_form(alloc, out, names, Width::W64, true, arguments)?;
    put(out, b")")
}

/// Appends a part of a form of a width, which may be the first of its sum, product or list of arguments.
#[cycle(forms)]
pub(crate) fn put_form(
    alloc: Global,
    out: &mut Vec<u8>,
    names: &FlowNames,
    width: Width,
    first: bool,
    form: &FlowForm,
) -> Result<(), NoMemory>
    ensures { Writes result out.old out.new (part_of names.now width first form.now) }
{
    match form {
        FlowForm::Constant(number) => put_constant(alloc, out, width, first, *number),
        FlowForm::Term(times, product, rest) => {
            put_coefficient(alloc, out, width, first, *times)?;
            put_form(alloc, out, names, width, true, product)?;
            put_form(alloc, out, names, width, false, rest)
        }
        FlowForm::One => put_one(out, first),
        FlowForm::Factor(cell, rest) => {
            put_star(out, first)?;
            put_form(alloc, out, names, width, true, cell)?;
            put_form(alloc, out, names, width, false, rest)
        }
        FlowForm::Variable(number) => put_variable(alloc, out, names, *number),
        FlowForm::Applied(function, _, arguments) => {
            put_function(alloc, out, names, *function)?;
            put_arguments(alloc, out, names, arguments)
        }
        FlowForm::Converted(signed, from, to, operand) => {
            put_conversion(out, *signed, *to)?;
            put_form(alloc, out, names, *from, true, operand)?;
            put(out, b")")
        }
        FlowForm::NoArguments => Ok(()),
        FlowForm::Argument(sort, argument, rest) => {
            put_comma(out, first)?;
            put_form(alloc, out, names, sort_width(*sort), true, argument)?;
            put_form(alloc, out, names, width, false, rest)
        }
    }
}
