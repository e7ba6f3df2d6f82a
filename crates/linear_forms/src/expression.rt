//! The normal form of an expression, and the value of a form.
ghost use Rattle.std.specs.Prelude.{◌≡◌, ◌%◌, IfOk};
ghost use Rattle.kat_model.specs.Expressions.{expr_tree};
ghost use Rattle.kat_model.specs.Stores.{modulus};
ghost use Rattle.linear_forms.specs.Arithmetic.{normal_form};
ghost use Rattle.linear_forms.specs.NormalForms.{IsForm};
ghost use Rattle.linear_forms.specs.Values.{form_value, HasValueOf, mono_polynomial};
ghost use Rattle.linear_forms.specs.Views.{mono_tree};

use crate::arithmetic::{difference, product, sum};
use crate::form::{Form, Mono, variable};
use kat_model::{Expr, NoMemory, Width};
use std::alloc::Global;

pub(crate) fn normal_of(alloc: Global, width: Width, expr: &Expr) -> Result<Form, NoMemory>
    ensures { IfOk result (λ f. f ≡ normal_form (modulus width) (expr_tree expr.now)) }
{
    match expr {
        Expr::Num(n) => Ok(Form {
            terms: Vec::new(alloc),
            constant: width.residue(*n),
        }),
        Expr::Var(k) => variable(alloc, *k),
        Expr::Add(e, f) => {
            let left = normal_of(alloc, width, e)?;
            let right = normal_of(alloc, width, f)?;
            sum(alloc, width, left, right)
        }
        Expr::Sub(e, f) => {
            let left = normal_of(alloc, width, e)?;
            let right = normal_of(alloc, width, f)?;
            difference(alloc, width, left, right)
        }
        Expr::Mul(e, f) => {
            let left = normal_of(alloc, width, e)?;
            let right = normal_of(alloc, width, f)?;
            product(alloc, width, left, right)
        }
    }
}

/// Returns the normal form of an expression: a sum of terms, in which a product of two forms that are not constant is a
/// monomial. It has the value of the expression in every store of the width. Fails only when out of memory.
pub fn normal(alloc: Global, width: Width, expr: &Expr) -> Result<Form, NoMemory>
    ensures exact { IfOk result (λ f. f ≡ normal_form (modulus width) (expr_tree expr.now)) }
    ensures form { IfOk result (IsForm (modulus width)) }
    ensures kept { IfOk result (HasValueOf width (expr_tree expr.now)) }
{
    normal_of(alloc, width, expr)
}

#[cycle(values)]
fn mono_value(width: Width, mono: &Mono, store: &[u64]) -> u64
    ensures { result ≡ mono_polynomial store.now (mono_tree mono.now) % modulus width }
{
    match mono {
        Mono::Var(k) => width.residue(store.get(*k).copied().unwrap_or(0)),
        Mono::Product(f, g) => width.mul(value(width, f, store), value(width, g, store)),
    }
}

/// Returns the value of a form in a store, modulo 2 to the width. An undefined variable is 0.
#[cycle(values)]
pub fn value(width: Width, form: &Form, store: &[u64]) -> u64
    ensures { result ≡ form_value (modulus width) store.now form.now }
{
    let mut total = width.residue(form.constant);
    for term in &form.terms {
        let part = width.mul(term.times, mono_value(width, &term.mono, store));
        total = width.add(total, part);
    }
    total
}
