//! Whether widths, forms and comparisons are the same.
ghost use Rattle.std.specs.Prelude.{◌≡◌};
ghost use Rattle.kat_model.specs.Stores.{bits as bits_of};
ghost use Rattle.flow_forms.specs.Forms.{form_tree};
ghost use Rattle.flow_forms.specs.Conversions.{is_same_width as is_same_width_as};
ghost use Rattle.flow_forms.specs.Comparisons.{comparison_tree, literal_tree};
ghost use Rattle.flow_problem.specs.FlowFacts.{is_one_form as are_one_form, is_comparison as is_that_comparison};

use flow_forms::{FlowComparison, FlowForm, FlowLiteral, same_form};
use kat_model::{TableRow, Width};

fn bits(width: Width) -> u32
    ensures { result ≡ bits_of width }
{
    match width {
        Width::W8 => 8,
        Width::W16 => 16,
        Width::W32 => 32,
        Width::W64 => 64,
    }
}

pub(crate) fn is_same_width(left: Width, right: Width) -> bool
    ensures { result ≡ is_same_width_as left right }
{
    bits(left) == bits(right)
}

pub(crate) fn is_one_form(left: &FlowForm, right: &FlowForm) -> bool
    ensures { result ≡ are_one_form (form_tree left.now) (form_tree right.now) }
{
    same_form(left, right)
}

/// Whether a condition is that a comparison holds.
pub(crate) fn is_comparison(literal: &FlowLiteral, test: &FlowComparison) -> bool
    ensures { result ≡ is_that_comparison (literal_tree literal.now) (comparison_tree test.now) }
{
    match literal {
        FlowLiteral::Holds(comparison) => comparison.is_same(test),
        _ => false,
    }
}
