//! Tests that refuse forms before they become too large.
ghost use Rattle.std.specs.Prelude.{◌≡◌};
ghost use Rattle.flow_forms.specs.Forms.{form_tree};
ghost use Rattle.flow_forms.specs.Sizes.{part_count as number_of_parts, shortened_parts as parts_of_shortened, truncated_parts as parts_of_truncated, is_small as is_small_form, can_multiply as can_multiply_forms, can_convert as can_convert_form};

use crate::conversion::{is_narrower, is_same_width};
use crate::form::FlowForm;
use crate::limits::{MAX_FORM_NODES, MAX_FORM_PARTS};
use kat_model::Width;

// Returns the number of parts of a sum.
fn part_count(form: &FlowForm) -> u64
    ensures { result ≡ number_of_parts (form_tree form.now) }
{
    match form {
        FlowForm::Term(_, _, rest) => part_count(rest).saturating_add(1),
        _ => 1,
    }
}

fn shortened_parts(from: Width, to: Width, form: &FlowForm, written: u64) -> u64
    ensures { result ≡ parts_of_shortened from to (form_tree form.now) written }
{
    if is_narrower(to, from) {
        return written;
    }
    if is_narrower(from, to) {
        return 1;
    }
    part_count(form)
}

// Returns the number of parts that are written when a form is given fewer bits.
fn truncated_parts(from: Width, to: Width, form: &FlowForm) -> u64
    ensures { result ≡ parts_of_truncated from to (form_tree form.now) }
{
    match form {
        FlowForm::Term(_, product, rest) => {
            let first = truncated_parts(from, to, product);
            first.saturating_add(truncated_parts(from, to, rest))
        }
        FlowForm::Factor(cell, rest) => {
            let first = truncated_parts(from, to, cell);
            first.saturating_mul(truncated_parts(from, to, rest))
        }
        FlowForm::Converted(_, v, w, inner) => {
            if is_same_width(*w, from) {
                let written = truncated_parts(*v, to, inner);
                return shortened_parts(*v, to, inner, written);
            }
            1
        }
        _ => 1,
    }
}

/// Returns whether a form is within the limit of nodes.
pub fn is_small(form: &FlowForm) -> bool
    ensures { result ≡ is_small_form (form_tree form.now) }
{
    form.size() <= MAX_FORM_NODES
}

/// Returns whether the product of two forms may be multiplied out.
pub fn can_multiply(left: &FlowForm, right: &FlowForm) -> bool
    ensures { result ≡ can_multiply_forms (form_tree left.now) (form_tree right.now) }
{
    part_count(left).saturating_mul(part_count(right)) <= MAX_FORM_PARTS
}

/// Returns whether a form may be converted from the width `from` to the width `to`.
pub fn can_convert(from: Width, to: Width, form: &FlowForm) -> bool
    ensures { result ≡ can_convert_form from to (form_tree form.now) }
{
    if is_narrower(to, from) {
        return truncated_parts(from, to, form) <= MAX_FORM_PARTS;
    }
    true
}
