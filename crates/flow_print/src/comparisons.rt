//! Comparisons, as text.
ghost use Rattle.std.specs.Prelude.{◌≡◌, true};
ghost use Rattle.flow_print.specs.FormTexts.{side_end, is_on_side as is_written_on};
ghost use Rattle.flow_print.specs.Working.Written.{Writes, compared_of, side_of, comparison_of};

use crate::forms::{put_form, put_plus, put_times};
use crate::names::FlowNames;
use crate::numbers::{is_minus, magnitude, side_number};
use flow_forms::{FlowComparison, FlowForm};
use kat_model::{NoMemory, Width};
use std::alloc::Global;
use text_print::{put, put_number};

// Appends the number at the end of a side of an equation.
fn put_side_end(alloc: Global, out: &mut Vec<u8>, first: bool, number: u64) -> Result<(), NoMemory>
    ensures { Writes result out.old out.new (side_end first number) }
{
    if !first && number == 0 {
        return Ok(());
    }
    put_plus(out, first)?;
    put_number(alloc, out, number)
}

// Returns whether a term with this coefficient is written on a side.
fn is_on_side(right: bool, minus: bool) -> bool
    ensures { result ≡ is_written_on right minus }
{
    if right { minus } else { !minus }
}

// Appends the parts of a sum that are written on a side of the equation that the sum is 0.
fn put_side(
    alloc: Global,
    out: &mut Vec<u8>,
    names: &FlowNames,
    width: Width,
    right: bool,
    first: bool,
    form: &FlowForm,
) -> Result<(), NoMemory>
    ensures { Writes result out.old out.new (side_of names.now width right first form.now) }
{
    match form {
        FlowForm::Constant(number) => {
            put_side_end(alloc, out, first, side_number(width, right, *number))
        }
        FlowForm::Term(times, product, rest) => {
            if !is_on_side(right, is_minus(width, *times)) {
                return put_side(alloc, out, names, width, right, first, rest);
            }
            put_plus(out, first)?;
            put_times(alloc, out, magnitude(width, *times))?;
            put_form(alloc, out, names, width, true, product)?;
            put_side(alloc, out, names, width, right, false, rest)
        }
        _ => put_form(alloc, out, names, width, first, form),
    }
}

// Appends two forms of a width with this sign between them.
fn put_sides(
    alloc: Global,
    out: &mut Vec<u8>,
    names: &FlowNames,
    width: Width,
    left: &FlowForm,
    sign: &[u8],
    right: &FlowForm,
) -> Result<(), NoMemory>
    ensures { Writes result out.old out.new (compared_of names.now width left.now sign.now right.now) }
{
    put_form(alloc, out, names, width, true, left)?;
    put(out, sign)?;
    put_form(alloc, out, names, width, true, right)
}

/// Appends a comparison.
pub(crate) fn put_comparison(
    alloc: Global,
    out: &mut Vec<u8>,
    names: &FlowNames,
    comparison: &FlowComparison,
) -> Result<(), NoMemory>
    ensures { Writes result out.old out.new (comparison_of names.now comparison.now) }
{
    match comparison {
        FlowComparison::Zero(width, form) => {
            put_side(alloc, out, names, *width, false, true, form)?;
            put(out, b" == ")?;
            put_side(alloc, out, names, *width, true, true, form)
        }
        FlowComparison::Less(width, left, right) => {
            put_sides(alloc, out, names, *width, left, b" < ", right)
        }
        FlowComparison::Same(left, right) => {
            put_sides(alloc, out, names, Width::W64, left, b" == ", right)
        }
    }
}
