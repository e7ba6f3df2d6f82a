//! Normal forms of comparisons of expressions over x, which is variable 0, and y, which is variable 1; and sums,
//! differences and copies of forms.
use crate::fixtures::sample;
use crate::phrases::cond;
use kat_model::{Cond, Expr, NoMemory, Rel, Width};
use linear_forms::{Atomic, CondForm, Form, Mono, canon, minus, normal, normal_cond, plus, subst};
use std::alloc::Global;
use std::test::Fail;
use text_parser::TextFault;

// Whether the form is the variable plus the constant.
fn is_variable_plus(form: &Form, var: usize, constant: u64) -> bool {
    match form.terms.as_slice() {
        [term] => match term.mono {
            Mono::Var(k) => k == var && term.times == 1 && form.constant == constant,
            Mono::Product(_, _) => false,
        },
        _ => false,
    }
}

// Whether the form is of this kind, and compares the variable plus the constant with 0 if it compares.
fn is_form(cond: &CondForm, kind: &str, var: usize, constant: u64) -> bool {
    match cond {
        CondForm::True => kind == "true",
        CondForm::False => kind == "false",
        CondForm::Pos(Atomic::Zero(form)) => kind == "=" && is_variable_plus(form, var, constant),
        CondForm::Neg(Atomic::Zero(form)) => kind == "!=" && is_variable_plus(form, var, constant),
        _ => false,
    }
}

fn compares(
    alloc: Global,
    rel: Rel,
    left: &Expr,
    right: &Expr,
    kind: &str,
    constant: u64,
) -> Result<bool, NoMemory> {
    let form = normal_cond(alloc, Width::W64, rel, left, right)?;
    Ok(is_form(&form, kind, 0, constant))
}

fn is_comparison(alloc: Global, cond: &Cond, kind: &str, constant: u64) -> Result<bool, NoMemory> {
    match cond {
        Cond::Compare(rel, left, right) => compares(alloc, *rel, left, right, kind, constant),
        _ => Ok(false),
    }
}

fn cond_in(alloc: Global, text: &str) -> Result<Cond, TextFault> {
    let scope = sample(alloc)?;
    cond(alloc, text, &scope)
}

fn holds(alloc: Global, text: &str, kind: &str, constant: u64) -> Result<bool, TextFault> {
    let cond = cond_in(alloc, text)?;
    Ok(is_comparison(alloc, &cond, kind, constant)?)
}

const ROWS: &[(&str, &str, u64)] = &[
    ("x < 0", "false", 0),
    ("x < 1", "=", 0),
    ("0 < x", "!=", 0),
    ("x <= 18446744073709551615", "true", 0),
    ("3 == x", "=", 18_446_744_073_709_551_613),
    ("x + y == y + x", "true", 0),
];

#[test]
fn comparisons_have_forms(rt: HostRuntime) -> Result<(), Fail> {
    for (text, kind, constant) in ROWS {
        assert!(rt; holds(rt.alloc(), text, kind, *constant)?, "of {text}");
    }
    Ok(())
}

// Returns the form of an expression at eight bits.
fn form(alloc: Global, expr: &Expr) -> Result<Form, NoMemory> {
    normal(alloc, Width::W8, expr)
}

// Whether a copy of the sum is x + 200.
fn sum_is(alloc: Global, left: &Form, right: &Form) -> Result<bool, NoMemory> {
    let total = plus(alloc, Width::W8, left, right)?;
    let copy = total.copy(alloc)?;
    Ok(is_variable_plus(&copy, 0, 200))
}

// Whether the canonical form of the difference is x + 56.
fn difference_is(alloc: Global, left: &Form, right: &Form) -> Result<bool, NoMemory> {
    let less = minus(alloc, Width::W8, left, right)?;
    let canonical = canon(alloc, Width::W8, &less)?;
    Ok(is_variable_plus(&canonical, 0, 56))
}

fn sum_and_difference_are(alloc: Global) -> Result<bool, NoMemory> {
    let left = form(alloc, &Expr::Var(0))?;
    let right = form(alloc, &Expr::Num(200))?;
    Ok(sum_is(alloc, &left, &right)? && difference_is(alloc, &left, &right)?)
}

// Whether y in place of x in a copy of the comparison `x = 0` gives `y = 0`.
fn y_takes_the_place(alloc: Global, atomic: &Atomic, by: &Form) -> Result<bool, NoMemory> {
    let copy = atomic.copy(alloc)?;
    let cond = subst(alloc, Width::W8, &copy, 0, by)?;
    Ok(is_form(&cond, "=", 1, 0))
}

fn is_substituted(alloc: Global) -> Result<bool, NoMemory> {
    let atomic = Atomic::Zero(form(alloc, &Expr::Var(0))?);
    let by = form(alloc, &Expr::Var(1))?;
    y_takes_the_place(alloc, &atomic, &by)
}

#[test]
fn forms_are_added_and_substituted(rt: HostRuntime) -> Result<(), Fail> {
    assert!(rt; sum_and_difference_are(rt.alloc())?);
    assert!(rt; is_substituted(rt.alloc())?);
    Ok(())
}
