//! The order of forms, and their equality.
ghost use Rattle.std.specs.Prelude.{◌≡◌, ◌↔◌, IsTrue};
ghost use Rattle.std.specs.Ordering.{nat_cmp};
ghost use Rattle.kat_model.specs.Stores.{bits as bits_of};
ghost use Rattle.flow_forms.specs.Forms.{form_tree};
ghost use Rattle.flow_forms.specs.Order.{sort_cmp, sign_rank as rank_of_sign, kind_rank as rank_of_kind, form_cmp};

use crate::form::FlowForm;
use flow_model::Sort;
use kat_model::Width;
use std::cmp::Ordering;

/// Returns the number of bits of a width.
pub(crate) fn bits(width: Width) -> u32
    ensures { result ≡ bits_of width }
{
    match width {
        Width::W8 => 8,
        Width::W16 => 16,
        Width::W32 => 32,
        Width::W64 => 64,
    }
}

fn cmp_width(left: Width, right: Width) -> Ordering
    ensures { result ≡ nat_cmp (bits_of left) (bits_of right) }
{
    bits(left).cmp(&bits(right))
}

fn cmp_sort(left: Sort, right: Sort) -> Ordering
    ensures { result ≡ sort_cmp left right }
{
    match left {
        Sort::Number(v) => match right {
            Sort::Number(w) => cmp_width(v, w),
            Sort::Opaque(_) => Ordering::Less,
        },
        Sort::Opaque(j) => match right {
            Sort::Number(_) => Ordering::Greater,
            Sort::Opaque(k) => j.cmp(&k),
        },
    }
}

pub(crate) fn sign_rank(signed: bool) -> u32
    ensures { result ≡ rank_of_sign signed }
{
    if signed { 1 } else { 0 }
}

fn cmp_sign(left: bool, right: bool) -> Ordering
    ensures { result ≡ nat_cmp (rank_of_sign left) (rank_of_sign right) }
{
    sign_rank(left).cmp(&sign_rank(right))
}

// Returns the number by which forms that begin differently are ordered.
fn kind_rank(form: &FlowForm) -> u32
    ensures { result ≡ rank_of_kind (form_tree form.now) }
{
    match form {
        FlowForm::Constant(_) => 0,
        FlowForm::Term(_, _, _) => 1,
        FlowForm::One => 2,
        FlowForm::Factor(_, _) => 3,
        FlowForm::Variable(_) => 4,
        FlowForm::Applied(_, _, _) => 5,
        FlowForm::Converted(_, _, _, _) => 6,
        FlowForm::NoArguments => 7,
        FlowForm::Argument(_, _, _) => 8,
    }
}

fn cmp_kind(left: &FlowForm, right: &FlowForm) -> Ordering
    ensures { result ≡ nat_cmp (rank_of_kind (form_tree left.now)) (rank_of_kind (form_tree right.now)) }
{
    kind_rank(left).cmp(&kind_rank(right))
}

/// Returns the order of forms: sums as lists of terms, product before coefficient, then by constant; products as lists
/// of cells; variables before applications and these before conversions, each in the order of its parts.
pub(crate) fn cmp_form(left: &FlowForm, right: &FlowForm) -> Ordering
    ensures { result ≡ form_cmp (form_tree left.now) (form_tree right.now) }
{
    match (left, right) {
        (FlowForm::Constant(c), FlowForm::Constant(d)) => c.cmp(d),
        (FlowForm::Term(t, p, rest), FlowForm::Term(u, q, other)) => {
            let later = t.cmp(u).then(cmp_form(rest, other));
            cmp_form(p, q).then(later)
        }
        (FlowForm::Factor(c, rest), FlowForm::Factor(d, other)) => {
            cmp_form(c, d).then(cmp_form(rest, other))
        }
        (FlowForm::Variable(j), FlowForm::Variable(k)) => j.cmp(k),
        (FlowForm::Applied(f, sort, arguments), FlowForm::Applied(g, kind, others)) => {
            let later = cmp_sort(*sort, *kind).then(cmp_form(arguments, others));
            f.cmp(g).then(later)
        }
        (FlowForm::Converted(signed, from, to, f), FlowForm::Converted(sign, v, w, g)) => {
            let later = cmp_width(*to, *w).then(cmp_form(f, g));
            let widths = cmp_width(*from, *v).then(later);
            cmp_sign(*signed, *sign).then(widths)
        }
        (FlowForm::Argument(sort, f, rest), FlowForm::Argument(kind, g, other)) => {
            let later = cmp_form(f, g).then(cmp_form(rest, other));
            cmp_sort(*sort, *kind).then(later)
        }
        _ => cmp_kind(left, right),
    }
}

/// Returns whether two forms are the same tree. Takes no memory.
pub fn same_form(left: &FlowForm, right: &FlowForm) -> bool
    ensures { IsTrue result ↔ (form_tree left.now ≡ form_tree right.now) }
{
    cmp_form(left, right) == Ordering::Equal
}
