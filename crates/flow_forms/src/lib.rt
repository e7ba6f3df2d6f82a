//! Polynomials modulo 2 to a width over variables, applications and conversions.
#![tactic(auto)]

mod arithmetic;
mod bound;
mod checked;
mod comparison;
mod conversion;
mod equation;
mod expression;
mod fault;
mod form;
mod laws;
mod limits;
mod order;
mod sizes;
mod substitution;

pub use arithmetic::{difference, multiple, negative, product, sum};
pub use bound::{compared, compared_signed, less_literal, same_literal};
pub use comparison::{FlowComparison, FlowLiteral, opposite, same_comparison};
pub use conversion::convert;
pub use equation::{canonical, zero_literal};
pub use expression::expression_form;
pub use fault::FormFault;
pub use form::FlowForm;
pub use laws::{
    comparisons_keep_truth, equal_forms_are_one, expressions_have_forms, forms_keep_values,
    substitution_keeps_values,
};
pub use limits::{MAX_FORM_NODES, MAX_FORM_PARTS};
pub use order::same_form;
pub use sizes::{can_convert, can_multiply, is_small};
pub use substitution::{Place, place_of, substitute};
