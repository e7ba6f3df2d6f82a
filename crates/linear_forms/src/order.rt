//! The order of forms, and their equality.
ghost use Rattle.std.specs.Prelude.{◌≡◌, ◌↔◌, IsTrue};
ghost use Rattle.linear_forms.specs.Order.{form_cmp, mono_cmp};
ghost use Rattle.linear_forms.specs.Views.{mono_tree};

use crate::form::{Form, Mono};
use std::cmp::Ordering;

/// Returns the order of monomials: variables before products, by number; products by their first form, then by their
/// second.
#[cycle(orders)]
pub(crate) fn cmp_mono(left: &Mono, right: &Mono) -> Ordering
    ensures { result ≡ mono_cmp (mono_tree left.now) (mono_tree right.now) }
{
    match (left, right) {
        (Mono::Var(j), Mono::Var(k)) => j.cmp(k),
        (Mono::Var(_), Mono::Product(_, _)) => Ordering::Less,
        (Mono::Product(_, _), Mono::Var(_)) => Ordering::Greater,
        (Mono::Product(d, e), Mono::Product(f, g)) => cmp_form(d, f).then(cmp_form(e, g)),
    }
}

/// Returns the order of forms: as lists of terms, monomial before coefficient, a proper prefix being less; then by
/// constant.
#[cycle(orders)]
pub(crate) fn cmp_form(left: &Form, right: &Form) -> Ordering
    ensures { result ≡ form_cmp left.now right.now }
{
    let shorter = left.terms.len().min(right.terms.len());
    for i in 0..shorter {
        let x = &left.terms[i];
        let y = &right.terms[i];
        let order = cmp_mono(&x.mono, &y.mono).then(x.times.cmp(&y.times));
        if order != Ordering::Equal {
            return order;
        }
    }
    left.terms
        .len()
        .cmp(&right.terms.len())
        .then(left.constant.cmp(&right.constant))
}

/// Returns whether two forms are the same tree. Takes no memory.
pub fn same_form(left: &Form, right: &Form) -> bool
    ensures { IsTrue result ↔ (left.now ≡ right.now) }
{
    cmp_form(left, right) == Ordering::Equal
}
