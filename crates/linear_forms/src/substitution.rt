//! A form in place of a variable.
ghost use Rattle.std.specs.Prelude.{◌≡◌, IfOk};
ghost use Rattle.kat_model.specs.Stores.{modulus};
ghost use Rattle.linear_forms.specs.NormalForms.{IsForm};
ghost use Rattle.linear_forms.specs.Views.{mono_tree};
ghost use Rattle.linear_forms.specs.Substitution.{replaced, mono_replaced};
ghost use Rattle.linear_forms.specs.Comparisons.{HoldsWhenSet, IsCondForm, substituted};

use crate::arithmetic::{multiple, product, sum};
use crate::comparison::{Atomic, CondForm, less_cond, zero_cond};
use crate::form::{Form, Mono, variable};
use kat_model::{NoMemory, Width};
use std::alloc::Global;

#[cycle(replaced)]
fn replace_mono(
    alloc: Global,
    width: Width,
    mono: &Mono,
    var: usize,
    by: &Form,
) -> Result<Form, NoMemory>
    ensures { IfOk result (λ f. f ≡ mono_replaced (modulus width) var by.now (mono_tree mono.now)) }
{
    match mono {
        Mono::Var(k) => {
            if *k == var {
                return by.copy(alloc);
            }
            variable(alloc, *k)
        }
        Mono::Product(f, g) => {
            let left = replace(alloc, width, f, var, by)?;
            let right = replace(alloc, width, g, var, by)?;
            product(alloc, width, left, right)
        }
    }
}

// Returns the normal form of a form with another form in place of a variable. Adds the terms from the last one on.
#[cycle(replaced)]
fn replace(
    alloc: Global,
    width: Width,
    form: &Form,
    var: usize,
    by: &Form,
) -> Result<Form, NoMemory>
    ensures { IfOk result (λ f. f ≡ replaced (modulus width) var by.now form.now) }
{
    let mut total = Form {
        terms: Vec::new(alloc),
        constant: width.residue(form.constant),
    };
    let mut i = form.terms.len();
    while i > 0 {
        i -= 1;
        let term = &form.terms[i];
        let part = replace_mono(alloc, width, &term.mono, var, by)?;
        let part = multiple(alloc, width, term.times, part)?;
        total = sum(alloc, width, part, total)?;
    }
    Ok(total)
}

fn substitute_in(
    alloc: Global,
    width: Width,
    atomic: &Atomic,
    var: usize,
    by: &Form,
) -> Result<CondForm, NoMemory>
    ensures { IfOk result (λ b. b ≡ substituted (modulus width) var by.now atomic.now) }
{
    match atomic {
        Atomic::Zero(f) => zero_cond(alloc, width, replace(alloc, width, f, var, by)?),
        Atomic::Less(f, g) => {
            let left = replace(alloc, width, f, var, by)?;
            let right = replace(alloc, width, g, var, by)?;
            less_cond(alloc, width, left, right)
        }
    }
}

/// Returns the normal form of a comparison with a form in place of a variable, also in products. It holds in a store of
/// the width exactly when the comparison holds in the store in which the variable is set to the value of the form. If
/// the form in place of the variable satisfies the conditions at [`Form`], so do the forms of the result. Fails only
/// when out of memory. The use of stack grows with the depth of the products in the result: a result of a million nodes
/// with products of depth 998 is tested.
pub fn subst(
    alloc: Global,
    width: Width,
    atomic: &Atomic,
    var: usize,
    by: &Form,
) -> Result<CondForm, NoMemory>
    ensures exact { IfOk result (λ b. b ≡ substituted (modulus width) var by.now atomic.now) }
    ensures form { IsForm (modulus width) by.now → IfOk result (IsCondForm (modulus width)) }
    ensures kept { IfOk result (HoldsWhenSet (modulus width) var by.now atomic.now) }
{
    substitute_in(alloc, width, atomic, var, by)
}
