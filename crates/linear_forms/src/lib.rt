//! Linear forms over opaque products, modulo 2 to a width.
//!
//! The crate has their order, sums and products, normal forms of expressions and comparisons, forms in place of
//! variables, and the laws of these.
#![tactic(auto)]

mod arithmetic;
mod comparison;
mod expression;
mod form;
mod laws;
mod order;
mod substitution;

pub use arithmetic::{minus, plus};
pub use comparison::{Atomic, CondForm, atomic_size, canon, holds, normal_cond, same_atomic};
pub use expression::{normal, value};
pub use form::{Form, Mono, Term, form_size};
pub use laws::{
    comparisons_stay_settled, forms_are_ordered, forms_go_by_coefficients, forms_have_one_sign,
    forms_keep_values,
};
pub use order::same_form;
pub use substitution::subst;
