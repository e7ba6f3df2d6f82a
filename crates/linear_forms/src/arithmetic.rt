//! Sums, differences, multiples and products of forms. Inside the crate, forms are moved and not copied, so the cost of
//! an operation does not grow with the depth of the products in its forms.
ghost use Rattle.std.specs.Prelude.{◌≡◌, ◌+◌, ◌-◌, ◌%◌, ◌<◌, [], ◌∷◌, ◌++◌, length, take, drop, reverse, IfOk, OnOk};
ghost use Rattle.kat_model.specs.Stores.{modulus};
ghost use Rattle.linear_forms.specs.Forms.{constant, product_term};
ghost use Rattle.linear_forms.specs.Views.{mono_tree};
ghost use Rattle.linear_forms.specs.Arithmetic.{put_nonzero, merge, form_sum, multiple as form_multiple, negative as form_negative, form_difference, ordered_product, form_product};
ghost use Rattle.linear_forms.specs.Working.Merging.{first_order, first_joined};
ghost use Rattle.linear_forms.specs.NormalForms.{IsForm};

use crate::form::{Form, Mono, Term, form_of_mono, new_product, push_term};
use crate::order::{cmp_form, cmp_mono};
use kat_model::{NoMemory, Width};
use std::alloc::Global;
use std::cmp::Ordering;

// Appends a monomial, unless its coefficient is 0.
fn push_nonzero(terms: &mut Vec<Term>, mono: Mono, times: u64) -> Result<(), NoMemory>
    ensures { OnOk result (terms.new.items ≡ terms.old.items ++ put_nonzero (mono_tree mono) times []) }
{
    if times == 0 {
        return Ok(());
    }
    push_term(terms, mono, times)
}

// Moves the last term of one list to the end of another.
fn move_last(from: &mut Vec<Term>, to: &mut Vec<Term>) -> Result<(), NoMemory>
    ensures moved { OnOk result (to.new.items ≡ to.old.items ++ take 1 (reverse from.old.items)) }
    ensures left { OnOk result (reverse from.new.items ≡ drop 1 (reverse from.old.items)) }
{
    match from.pop() {
        Some(term) => push_term(to, term.mono, term.times),
        None => Ok(()),
    }
}

// Returns the order of the monomials of the last terms of two lists.
fn last_order(left: &[Term], right: &[Term]) -> Ordering
    requires left_some { 0 < length left.now }
    requires right_some { 0 < length right.now }
    ensures { result ≡ first_order (reverse left.now) (reverse right.now) }
{
    let x = &left[left.len() - 1];
    let y = &right[right.len() - 1];
    cmp_mono(&x.mono, &y.mono)
}

// Moves the last terms of two lists, which have the same monomial, as one term to the end of a third.
fn join_last(
    width: Width,
    left: &mut Vec<Term>,
    right: &mut Vec<Term>,
    to: &mut Vec<Term>,
) -> Result<(), NoMemory>
    ensures joined { OnOk result (to.new.items ≡ to.old.items ++ first_joined (modulus width) (reverse left.old.items) (reverse right.old.items)) }
    ensures left_rest { OnOk result (reverse left.new.items ≡ drop 1 (reverse left.old.items)) }
    ensures right_rest { OnOk result (reverse right.new.items ≡ drop 1 (reverse right.old.items)) }
{
    match (left.pop(), right.pop()) {
        (Some(x), Some(y)) => push_nonzero(to, x.mono, width.add(x.times, y.times)),
        _ => Ok(()),
    }
}

// Moves the last terms of two lists, merged, to the end of a third: the lesser one, or both as one term.
fn merge_last(
    width: Width,
    left: &mut Vec<Term>,
    right: &mut Vec<Term>,
    to: &mut Vec<Term>,
) -> Result<(), NoMemory>
    requires left_some { 0 < length left.old.items }
    requires right_some { 0 < length right.old.items }
    ensures merged { OnOk result (to.new.items ++ merge (modulus width) (reverse left.new.items) (reverse right.new.items) ≡ to.old.items ++ merge (modulus width) (reverse left.old.items) (reverse right.old.items)) }
    ensures fewer { OnOk result (length left.new.items + length right.new.items < length left.old.items + length right.old.items) }
{
    match last_order(left, right) {
        Ordering::Less => move_last(left, to),
        Ordering::Greater => move_last(right, to),
        Ordering::Equal => join_last(width, left, right, to),
    }
}

// Moves the last terms of two lists, merged, to the end of a third, until one of the two lists is empty.
fn merge_reversed(
    width: Width,
    left: &mut Vec<Term>,
    right: &mut Vec<Term>,
    to: &mut Vec<Term>,
) -> Result<(), NoMemory>
    ensures { OnOk result (to.new.items ++ (reverse left.new.items ++ reverse right.new.items) ≡ to.old.items ++ merge (modulus width) (reverse left.old.items) (reverse right.old.items)) }
{
    while !left.is_empty() && !right.is_empty() {
        merge_last(width, left, right, to)?;
    }
    Ok(())
}

// Moves two ascending lists of terms, merged, to the end of a third. Reverses both first, so that their first terms can
// be popped.
fn merge_into(
    width: Width,
    left: &mut Vec<Term>,
    right: &mut Vec<Term>,
    to: &mut Vec<Term>,
) -> Result<(), NoMemory>
    ensures { OnOk result (to.new.items ≡ to.old.items ++ merge (modulus width) left.old.items right.old.items) }
{
    left.reverse();
    right.reverse();
    merge_reversed(width, left, right, to)?;
    left.reverse();
    right.reverse();
    to.append(left)?;
    Ok(to.append(right)?)
}

// Merges two ascending lists of terms.
fn merge_of(
    alloc: Global,
    width: Width,
    mut left: Vec<Term>,
    mut right: Vec<Term>,
) -> Result<Vec<Term>, NoMemory>
    ensures { IfOk result (λ ts. ts.items ≡ merge (modulus width) left.items right.items) }
{
    let mut to: Vec<Term> = Vec::new(alloc);
    merge_into(width, &mut left, &mut right, &mut to)?;
    Ok(to)
}

/// Returns the sum of two forms modulo 2 to the width, as `plus` does, from forms that it owns. Fails only when out of
/// memory.
pub(crate) fn sum(alloc: Global, width: Width, left: Form, right: Form) -> Result<Form, NoMemory>
    ensures { IfOk result (λ f. f ≡ form_sum (modulus width) left right) }
{
    let constant = width.add(left.constant, right.constant);
    let terms = merge_of(alloc, width, left.into_terms(), right.into_terms())?;
    Ok(Form { terms, constant })
}

/// Returns a form multiplied by a number modulo 2 to the width, without the coefficients that become 0. Fails only when
/// out of memory.
pub(crate) fn multiple(
    alloc: Global,
    width: Width,
    times: u64,
    form: Form,
) -> Result<Form, NoMemory>
    ensures { IfOk result (λ f. f ≡ form_multiple (modulus width) times form) }
{
    let constant = width.mul(times, form.constant);
    let mut to: Vec<Term> = Vec::new(alloc);
    for term in form.into_terms() {
        push_nonzero(&mut to, term.mono, width.mul(times, term.times))?;
    }
    Ok(Form {
        terms: to,
        constant,
    })
}

/// Returns the negative of a form.
pub(crate) fn negative(alloc: Global, width: Width, form: Form) -> Result<Form, NoMemory>
    ensures { IfOk result (λ f. f ≡ form_negative (modulus width) form) }
{
    multiple(alloc, width, width.greatest(), form)
}

/// Returns the difference of two forms.
pub(crate) fn difference(
    alloc: Global,
    width: Width,
    left: Form,
    right: Form,
) -> Result<Form, NoMemory>
    ensures { IfOk result (λ f. f ≡ form_difference (modulus width) left right) }
{
    let right = negative(alloc, width, right)?;
    sum(alloc, width, left, right)
}

// Returns the form that is one product.
fn product_form(alloc: Global, first: Form, second: Form) -> Result<Form, NoMemory>
    ensures { IfOk result (λ f. f ≡ product_term first second 1 (constant 0)) }
{
    let mono = new_product(alloc, first, second)?;
    form_of_mono(alloc, mono)
}

// Returns the form that is one product of two forms, the lesser first.
fn opaque_product(alloc: Global, left: Form, right: Form) -> Result<Form, NoMemory>
    ensures { IfOk result (λ f. f ≡ ordered_product left right) }
{
    if cmp_form(&left, &right) == Ordering::Greater {
        return product_form(alloc, right, left);
    }
    product_form(alloc, left, right)
}

/// Returns the product of two forms modulo 2 to the width: a multiple if one of them is constant, and otherwise one
/// monomial, which is not multiplied out. Fails only when out of memory.
pub(crate) fn product(
    alloc: Global,
    width: Width,
    left: Form,
    right: Form,
) -> Result<Form, NoMemory>
    ensures { IfOk result (λ f. f ≡ form_product (modulus width) left right) }
{
    if left.terms.is_empty() {
        return multiple(alloc, width, left.constant, right);
    }
    if right.terms.is_empty() {
        return multiple(alloc, width, right.constant, left);
    }
    opaque_product(alloc, left, right)
}

/// Returns the sum of two forms modulo 2 to the width: term by term, without the coefficients that become 0. If both
/// satisfy the conditions at [`Form`], so does the sum. Fails only when out of memory.
pub fn plus(alloc: Global, width: Width, left: &Form, right: &Form) -> Result<Form, NoMemory>
    ensures exact { IfOk result (λ f. f ≡ form_sum (modulus width) left.now right.now) }
    ensures form { IsForm (modulus width) left.now → IsForm (modulus width) right.now → IfOk result (IsForm (modulus width)) }
{
    let left = left.copy(alloc)?;
    let right = right.copy(alloc)?;
    sum(alloc, width, left, right)
}

/// Returns the difference of two forms modulo 2 to the width, with the same properties as the sum.
pub fn minus(alloc: Global, width: Width, left: &Form, right: &Form) -> Result<Form, NoMemory>
    ensures exact { IfOk result (λ f. f ≡ form_difference (modulus width) left.now right.now) }
    ensures form { IsForm (modulus width) left.now → IsForm (modulus width) right.now → IfOk result (IsForm (modulus width)) }
{
    let left = left.copy(alloc)?;
    let right = right.copy(alloc)?;
    difference(alloc, width, left, right)
}
