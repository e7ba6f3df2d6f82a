//! Tests as intervals: that a form or its opposite is in an arc.
ghost use Rattle.std.specs.Prelude.{◌≡◌, ◌+◌, ◌-◌, ◌%◌, ◌<◌, IfOk, Some};
ghost use Rattle.kat_model.specs.Stores.{modulus as modulus_of};
ghost use Rattle.flow_forms.specs.Forms.{form_tree};
ghost use Rattle.flow_forms.specs.Comparisons.{comparison_tree};
ghost use Rattle.flow_problem.specs.FlowFacts.{varying_part as varying_part_of, constant_part as constant_part_of, interval_of_sum as interval_of_form, interval_below as interval_of_bound, interval_of as interval_of_test, is_same_interval_form as has_same_form};
ghost use Rattle.flow_abstraction.specs.IntervalViews.{interval_tree};
ghost use Rattle.flow_abstraction.specs.Working.IntervalFacts.{MakesInterval};
ghost use Rattle.flow_edges.specs.Working.Views.{Makes};

mod arcs;
pub(crate) mod interval_facts;

use crate::interval::arcs::{Arc, modulus};
use crate::sameness::{is_one_form, is_same_width};
use flow_forms::{FlowComparison, FlowForm, canonical};
use kat_model::{NoMemory, Width};
use std::alloc::Global;

/// That a form of a width is in an arc. The form stands for itself and its opposite.
#[derive(Drop)]
pub(crate) struct Interval {
    pub(crate) width: Width,
    pub(crate) form: FlowForm,
    pub(crate) arc: Arc,
}

// Returns a form with 0 in the place of its constant.
fn varying_part(alloc: Global, form: &FlowForm) -> Result<FlowForm, NoMemory>
    ensures { IfOk result (λ f. form_tree f ≡ varying_part_of (form_tree form.now)) }
{
    match form {
        FlowForm::Constant(_) => Ok(FlowForm::Constant(0)),
        FlowForm::Term(times, product, rest) => {
            let product = product.copy(alloc)?;
            let rest = varying_part(alloc, rest)?;
            FlowForm::new_term(alloc, *times, product, rest)
        }
        other => other.copy(alloc),
    }
}

fn constant_part(form: &FlowForm) -> u64
    ensures { result ≡ constant_part_of (form_tree form.now) }
{
    match form {
        FlowForm::Constant(c) => *c,
        FlowForm::Term(_, _, rest) => constant_part(rest),
        _ => 0,
    }
}

// Returns the start of the arc of -f where f + c < d.
fn opposite_start(width: Width, constant: u64, bound: u64) -> u64
    ensures { result ≡ (constant + 1 + (modulus_of width - bound)) % modulus_of width }
{
    let m = modulus(width);
    ((constant as u128 + 1 + m.saturating_sub(bound as u128)) % m) as u64
}

// Returns f + c < d as an interval of f or of -f, whichever is less.
fn interval_of_sum(
    alloc: Global,
    width: Width,
    form: FlowForm,
    constant: u64,
    bound: u64,
) -> Result<Interval, NoMemory>
    ensures { Makes interval_tree result (interval_of_form width (form_tree form) constant bound) }
{
    let m = modulus(width);
    let lesser = canonical(alloc, width, form.copy(alloc)?)?;
    if is_one_form(&form, &lesser) {
        let start = (m.saturating_sub(constant as u128) % m) as u64;
        let arc = Arc { start, size: bound };
        return Ok(Interval { width, form, arc });
    }
    let start = opposite_start(width, constant, bound);
    let arc = Arc { start, size: bound };
    Ok(Interval {
        width,
        form: lesser,
        arc,
    })
}

fn interval_below(
    alloc: Global,
    width: Width,
    form: &FlowForm,
    bound: u64,
) -> Result<Option<Interval>, NoMemory>
    ensures { MakesInterval result (interval_of_bound width (form_tree form.now) bound) }
{
    if bound as u128 >= modulus(width) {
        return Ok(None);
    }
    let constant = width.residue(constant_part(form));
    let varying = varying_part(alloc, form)?;
    Ok(Some(interval_of_sum(alloc, width, varying, constant, bound)?))
}

/// Returns the interval of a test, if it has one: it says that a form is 0, or less than a number of its width.
pub(crate) fn interval_of(
    alloc: Global,
    test: &FlowComparison,
) -> Result<Option<Interval>, NoMemory>
    ensures { MakesInterval result (interval_of_test (comparison_tree test.now)) }
{
    match test {
        FlowComparison::Zero(width, form) => interval_below(alloc, *width, form, 1),
        FlowComparison::Less(width, form, bound) => match bound {
            FlowForm::Constant(d) => interval_below(alloc, *width, form, *d),
            _ => Ok(None),
        },
        FlowComparison::Same(_, _) => Ok(None),
    }
}

/// Whether two intervals are of one form.
pub(crate) fn is_same_interval_form(left: &Interval, right: &Interval) -> bool
    ensures { result ≡ has_same_form (interval_tree left.now) (interval_tree right.now) }
{
    is_same_width(left.width, right.width) && is_one_form(&left.form, &right.form)
}
