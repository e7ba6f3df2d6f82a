//! Comparisons of forms, in normal form.
ghost use Rattle.std.specs.Prelude.{◌≡◌, ◌↔◌, ◌+◌, ◌-◌, ◌^◌, ◌<◌, min, map, IfOk, IsTrue};
ghost use Rattle.std.specs.Ordering.{nat_cmp};
ghost use Rattle.std.specs.Cmp.Lexicographic.{slice_cmp};
ghost use Rattle.kat_model.specs.Expressions.{expr_tree};
ghost use Rattle.kat_model.specs.Stores.{modulus};
ghost use Rattle.linear_forms.specs.NormalForms.{IsForm};
ghost use Rattle.linear_forms.specs.Comparisons.{atomic_holds, HoldsAs, atomic_nodes, IsCondForm, coefficients, negative_number, canonical as canonical_form, constantly as constant_cond, opposite as opposite_cond, zero_form, is_constant, varying_less_form, less_form, compared_form, comparison_form};

use crate::arithmetic::{difference, negative};
use crate::expression::{normal_of, value};
use crate::form::{Form, form_size};
use crate::order::{cmp_form, same_form};
use kat_model::{Expr, NoMemory, Rel, TableRow, Width};
use std::alloc::Global;
use std::cmp::Ordering;

/// A comparison: that a form is 0, or that the first form is less than the second, as unsigned numbers.
pub enum Atomic {
    Zero(Form),
    Less(Form, Form),
}

// Explicit, so that this crate proves it once: a derived drop is a part of the proof of each function that owns a
// comparison, with a case for each form at each of its ends.
impl Drop for Atomic {
    fn drop(self) {
        match self {
            Atomic::Zero(_form) => {}
            Atomic::Less(_left, _right) => {}
        }
    }
}

/// The normal form of a condition that compares two expressions: always true, always false, a comparison, or the
/// negation of a comparison.
#[derive(Drop)]
pub enum CondForm {
    True,
    False,
    Pos(Atomic),
    Neg(Atomic),
}

impl Atomic {
    /// Returns a copy of the comparison. Fails only when out of memory.
    pub fn copy(&self, alloc: Global) -> Result<Atomic, NoMemory>
        ensures { IfOk result (λ a. a ≡ self.now) }
    {
        match self {
            Atomic::Zero(f) => Ok(Atomic::Zero(f.copy(alloc)?)),
            Atomic::Less(f, g) => {
                let left = f.copy(alloc)?;
                let right = g.copy(alloc)?;
                Ok(Atomic::Less(left, right))
            }
        }
    }
}

/// Returns whether two comparisons are the same tree. Takes no memory.
pub fn same_atomic(left: &Atomic, right: &Atomic) -> bool
    ensures { IsTrue result ↔ (left.now ≡ right.now) }
{
    match (left, right) {
        (Atomic::Zero(d), Atomic::Zero(f)) => same_form(d, f),
        (Atomic::Less(d, e), Atomic::Less(f, g)) => same_form(d, f) && same_form(e, g),
        _ => false,
    }
}

impl TableRow for Atomic {
    ghost use Rattle.linear_forms.specs.Sameness.{is_same_comparison};

    ghost same = { is_same_comparison };

    fn is_same(&self, other: &Atomic) -> bool {
        same_atomic(self, other)
    }
}

/// Returns the number of nodes of a comparison, one plus the nodes of its forms, saturated at `u64::MAX`.
pub fn atomic_size(atomic: &Atomic) -> u64
    ensures { result ≡ min (atomic_nodes atomic.now) (2 ^ 64 - 1) }
{
    match atomic {
        Atomic::Zero(f) => form_size(f).saturating_add(1),
        Atomic::Less(f, g) => form_size(f).saturating_add(form_size(g)).saturating_add(1),
    }
}

/// Returns whether a comparison holds in a store, with values modulo 2 to the width. An undefined variable is 0.
pub fn holds(width: Width, atomic: &Atomic, store: &[u64]) -> bool
    ensures { result ≡ atomic_holds (modulus width) store.now atomic.now }
{
    match atomic {
        Atomic::Zero(f) => value(width, f, store) == 0,
        Atomic::Less(f, g) => value(width, f, store) < value(width, g, store),
    }
}

// Compares the coefficients and the constant of a form with their negatives.
fn cmp_negative(width: Width, form: &Form) -> Ordering
    ensures { result ≡ slice_cmp nat_cmp (coefficients form.now) (map (negative_number (modulus width)) (coefficients form.now)) }
{
    let most = width.greatest();
    for term in &form.terms {
        let order = term.times.cmp(&width.mul(most, term.times));
        if order != Ordering::Equal {
            return order;
        }
    }
    form.constant.cmp(&width.mul(most, form.constant))
}

// Returns the canonical one of the form and its negative.
fn canonical(alloc: Global, width: Width, form: Form) -> Result<Form, NoMemory>
    ensures { IfOk result (λ f. f ≡ canonical_form (modulus width) form) }
{
    if cmp_negative(width, &form) == Ordering::Greater {
        return negative(alloc, width, form);
    }
    Ok(form)
}

/// Returns the form or its negative, whichever has the lesser list of coefficients followed by the constant. One is 0
/// exactly when the other is. If the form satisfies the conditions at [`Form`], so does the result. Fails only when out
/// of memory.
pub fn canon(alloc: Global, width: Width, form: &Form) -> Result<Form, NoMemory>
    ensures exact { IfOk result (λ f. f ≡ canonical_form (modulus width) form.now) }
    ensures form { IsForm (modulus width) form.now → IfOk result (IsForm (modulus width)) }
{
    let form = form.copy(alloc)?;
    canonical(alloc, width, form)
}

fn constant_form(holds: bool) -> CondForm
    ensures { result ≡ constant_cond holds }
{
    if holds {
        CondForm::True
    } else {
        CondForm::False
    }
}

fn opposite_of(cond: CondForm) -> CondForm
    ensures { result ≡ opposite_cond cond }
{
    match cond {
        CondForm::True => CondForm::False,
        CondForm::False => CondForm::True,
        CondForm::Pos(atomic) => CondForm::Neg(atomic),
        CondForm::Neg(atomic) => CondForm::Pos(atomic),
    }
}

/// Returns the condition that a form is 0, in normal form modulo 2 to the width. Fails only when out of memory.
pub(crate) fn zero_cond(alloc: Global, width: Width, form: Form) -> Result<CondForm, NoMemory>
    ensures { IfOk result (λ b. b ≡ zero_form (modulus width) form) }
{
    if form.terms.is_empty() {
        return Ok(constant_form(form.constant == 0));
    }
    Ok(CondForm::Pos(Atomic::Zero(canonical(alloc, width, form)?)))
}

fn is_this(form: &Form, number: u64) -> bool
    ensures { result ≡ is_constant form.now number }
{
    form.terms.is_empty() && form.constant == number
}

// Returns the condition that one form is less than another, if one of them is not constant.
fn varying_less_cond(
    alloc: Global,
    width: Width,
    left: Form,
    right: Form,
) -> Result<CondForm, NoMemory>
    ensures { IfOk result (λ b. b ≡ varying_less_form (modulus width) left right) }
{
    if cmp_form(&left, &right) == Ordering::Equal {
        return Ok(CondForm::False);
    }
    if is_this(&right, 0) || is_this(&left, width.greatest()) {
        return Ok(CondForm::False);
    }
    if is_this(&right, 1) {
        return Ok(CondForm::Pos(Atomic::Zero(canonical(alloc, width, left)?)));
    }
    if is_this(&left, 0) {
        return Ok(CondForm::Neg(Atomic::Zero(canonical(alloc, width, right)?)));
    }
    Ok(CondForm::Pos(Atomic::Less(left, right)))
}

/// Returns the condition that one form is less than another, in normal form modulo 2 to the width. Fails only when out of
/// memory.
pub(crate) fn less_cond(
    alloc: Global,
    width: Width,
    left: Form,
    right: Form,
) -> Result<CondForm, NoMemory>
    ensures { IfOk result (λ b. b ≡ less_form (modulus width) left right) }
{
    if left.terms.is_empty() && right.terms.is_empty() {
        return Ok(constant_form(left.constant < right.constant));
    }
    varying_less_cond(alloc, width, left, right)
}

fn equal_cond(alloc: Global, width: Width, left: Form, right: Form) -> Result<CondForm, NoMemory>
    ensures { IfOk result (λ b. b ≡ compared_form (modulus width) Rel.Eq left right) }
{
    let form = difference(alloc, width, left, right)?;
    zero_cond(alloc, width, form)
}

// Returns the normal form of a comparison of two forms.
fn comparison_form(
    alloc: Global,
    width: Width,
    rel: Rel,
    left: Form,
    right: Form,
) -> Result<CondForm, NoMemory>
    ensures { IfOk result (λ b. b ≡ compared_form (modulus width) rel left right) }
{
    match rel {
        Rel::Eq => equal_cond(alloc, width, left, right),
        Rel::Ne => Ok(opposite_of(equal_cond(alloc, width, left, right)?)),
        Rel::Lt => less_cond(alloc, width, left, right),
        Rel::Gt => less_cond(alloc, width, right, left),
        Rel::Ge => Ok(opposite_of(less_cond(alloc, width, left, right)?)),
        Rel::Le => Ok(opposite_of(less_cond(alloc, width, right, left)?)),
    }
}

fn comparison_of(
    alloc: Global,
    width: Width,
    rel: Rel,
    left: &Expr,
    right: &Expr,
) -> Result<CondForm, NoMemory>
    ensures { IfOk result (λ b. b ≡ comparison_form (modulus width) rel (expr_tree left.now) (expr_tree right.now)) }
{
    let left = normal_of(alloc, width, left)?;
    let right = normal_of(alloc, width, right)?;
    comparison_form(alloc, width, rel, left, right)
}

/// Returns the normal form of a comparison of two expressions. It holds in the same stores of the width as the
/// comparison. Fails only when out of memory.
pub fn normal_cond(
    alloc: Global,
    width: Width,
    rel: Rel,
    left: &Expr,
    right: &Expr,
) -> Result<CondForm, NoMemory>
    ensures exact { IfOk result (λ b. b ≡ comparison_form (modulus width) rel (expr_tree left.now) (expr_tree right.now)) }
    ensures form { IfOk result (IsCondForm (modulus width)) }
    ensures kept { IfOk result (HoldsAs width rel (expr_tree left.now) (expr_tree right.now)) }
{
    comparison_of(alloc, width, rel, left, right)
}
