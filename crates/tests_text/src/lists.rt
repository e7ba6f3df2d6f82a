//! Balanced trees of lists, as printed.
use crate::fixtures::sample;
use kat_model::{Cond, Kat, NoMemory, all_of, any_of, seq_of, sum_of};
use std::alloc::Global;
use std::test::Fail;
use text_parser::{Scope, TextFault};
use text_print::{print_cond, print_term};

// Returns the actions p, q, p, .. .
fn actions(alloc: Global, count: usize) -> Result<Vec<Kat>, NoMemory> {
    let mut list = Vec::new(alloc);
    for k in 0..count {
        list.push(Kat::Act(k % 2))?;
    }
    Ok(list)
}

// Returns the tests b, c, b, .. .
fn tests(alloc: Global, count: usize) -> Result<Vec<Cond>, NoMemory> {
    let mut list = Vec::new(alloc);
    for k in 0..count {
        list.push(Cond::Test(k % 2))?;
    }
    Ok(list)
}

fn is_term(alloc: Global, term: &Kat, scope: &Scope, expected: &str) -> Result<bool, NoMemory> {
    let text = print_term(alloc, term, scope)?;
    Ok(text.as_slice() == expected.as_bytes())
}

fn is_cond(alloc: Global, cond: &Cond, scope: &Scope, expected: &str) -> Result<bool, NoMemory> {
    let text = print_cond(alloc, cond, scope)?;
    Ok(text.as_slice() == expected.as_bytes())
}

fn sum_is(alloc: Global, count: usize, scope: &Scope, expected: &str) -> Result<bool, NoMemory> {
    let term = sum_of(alloc, actions(alloc, count)?)?;
    is_term(alloc, &term, scope, expected)
}

fn product_is(
    alloc: Global,
    count: usize,
    scope: &Scope,
    expected: &str,
) -> Result<bool, NoMemory> {
    let term = seq_of(alloc, actions(alloc, count)?)?;
    is_term(alloc, &term, scope, expected)
}

fn any_is(alloc: Global, count: usize, scope: &Scope, expected: &str) -> Result<bool, NoMemory> {
    let cond = any_of(alloc, tests(alloc, count)?)?;
    is_cond(alloc, &cond, scope, expected)
}

fn all_is(alloc: Global, count: usize, scope: &Scope, expected: &str) -> Result<bool, NoMemory> {
    let cond = all_of(alloc, tests(alloc, count)?)?;
    is_cond(alloc, &cond, scope, expected)
}

fn are_balanced(alloc: Global, scope: &Scope) -> Result<bool, NoMemory> {
    Ok(
        sum_is(alloc, 5, scope, "((p + q) + (p + (q + p)))")?
            && product_is(alloc, 0, scope, "1")?
            && any_is(alloc, 3, scope, "(b || (c || b))")?
            && all_is(alloc, 4, scope, "((b && c) && (b && c))")?,
    )
}

fn lists_are_balanced(alloc: Global) -> Result<bool, TextFault> {
    let scope = sample(alloc)?;
    Ok(are_balanced(alloc, &scope)?)
}

#[test]
fn lists_have_balanced_trees(rt: HostRuntime) -> Result<(), Fail> {
    assert!(rt; lists_are_balanced(rt.alloc())?);
    Ok(())
}
