//! Operations on forms that refuse what is too large.
ghost use Rattle.std.specs.Prelude.{◌≡◌, true, false, IfOk, IfErr};
ghost use Rattle.kat_model.specs.Stores.{modulus};
ghost use Rattle.flow_forms.specs.Forms.{form_tree};
ghost use Rattle.flow_forms.specs.Arithmetic.{form_product};
ghost use Rattle.flow_forms.specs.Conversions.{form_conversion};
ghost use Rattle.flow_forms.specs.Sizes.{is_small as is_small_form, product_fits, conversion_fits};

use crate::arithmetic::product;
use crate::conversion::convert;
use crate::fault::FormFault;
use crate::form::FlowForm;
use crate::sizes::{can_convert, can_multiply, is_small};
use kat_model::Width;
use std::alloc::Global;

/// Returns the form, or `TooLarge` if it has too many nodes.
pub(crate) fn small(form: FlowForm) -> Result<FlowForm, FormFault>
    ensures made { IfOk result (λ f. form_tree f ≡ form_tree form) }
    ensures fits { IfOk result (λ _. is_small_form (form_tree form) ≡ true) }
    ensures refused { IfErr result (λ e. e ≡ FormFault.TooLarge → is_small_form (form_tree form) ≡ false) }
{
    if is_small(&form) {
        return Ok(form);
    }
    Err(FormFault::TooLarge)
}

/// Returns the product of two forms, or `TooLarge`.
pub(crate) fn checked_product(
    alloc: Global,
    width: Width,
    left: &FlowForm,
    right: &FlowForm,
) -> Result<FlowForm, FormFault>
    ensures made { IfOk result (λ f. form_tree f ≡ form_product (modulus width) (form_tree left.now) (form_tree right.now)) }
    ensures fits { IfOk result (λ _. product_fits width (form_tree left.now) (form_tree right.now) ≡ true) }
    ensures refused { IfErr result (λ e. e ≡ FormFault.TooLarge → product_fits width (form_tree left.now) (form_tree right.now) ≡ false) }
{
    if !can_multiply(left, right) {
        return Err(FormFault::TooLarge);
    }
    let form = product(alloc, width, left, right)?;
    small(form)
}

/// Returns the conversion of a form, or `TooLarge`.
pub(crate) fn checked_conversion(
    alloc: Global,
    signed: bool,
    from: Width,
    to: Width,
    form: &FlowForm,
) -> Result<FlowForm, FormFault>
    ensures made { IfOk result (λ f. form_tree f ≡ form_conversion signed from to (form_tree form.now)) }
    ensures fits { IfOk result (λ _. conversion_fits signed from to (form_tree form.now) ≡ true) }
    ensures refused { IfErr result (λ e. e ≡ FormFault.TooLarge → conversion_fits signed from to (form_tree form.now) ≡ false) }
{
    if !can_convert(from, to, form) {
        return Err(FormFault::TooLarge);
    }
    let form = convert(alloc, signed, from, to, form)?;
    small(form)
}
