//! The closed sides of goals, as printed.
use crate::fixtures::{put, put_term, sample};
use goal_forms::{Closed, Sides, below, eliminate, triple};
use kat_model::{Kat, NoMemory, Problem, Test};
use std::alloc::Global;
use std::test::Fail;
use text_parser::{Scope, TextFault};

fn closed_text(alloc: Global, closed: &Closed, scope: &Scope) -> Result<Vec<u8>, NoMemory> {
    let mut out = Vec::new(alloc);
    put_term(alloc, &mut out, &closed.left, scope)?;
    put(&mut out, b" = ")?;
    put_term(alloc, &mut out, &closed.right, scope)?;
    Ok(out)
}

// Returns the text of the closed sides if there is a universal term exactly if there are hypotheses.
fn problem_text(alloc: Global, problem: &Problem, scope: &Scope) -> Result<Vec<u8>, NoMemory> {
    let closed = eliminate(alloc, problem)?;
    if closed.universal.is_some() == problem.hyps().is_empty() {
        return Ok(Vec::new(alloc));
    }
    closed_text(alloc, &closed, scope)
}

// Returns the text of the closed sides of a problem over two tests and two actions.
fn closed_sides(
    alloc: Global,
    hyps: Vec<Kat>,
    sides: Sides,
    scope: &Scope,
) -> Result<Vec<u8>, NoMemory> {
    match Problem::new(2, 2, hyps, sides.left, sides.right) {
        Ok(problem) => problem_text(alloc, &problem, scope),
        Err(_) => Ok(Vec::new(alloc)),
    }
}

// The hypothesis that q relates nothing, and the goal that p is below q.
fn below_text(alloc: Global, scope: &Scope) -> Result<Vec<u8>, NoMemory> {
    let sides = below(alloc, Kat::Act(0), Kat::Act(1))?;
    let mut hyps = Vec::new(alloc);
    hyps.push(Kat::Act(1))?;
    closed_sides(alloc, hyps, sides, scope)
}

fn triple_text(alloc: Global, scope: &Scope) -> Result<Vec<u8>, NoMemory> {
    let sides = triple(alloc, Test::True, Kat::Act(0), Test::Prim(0))?;
    closed_sides(alloc, Vec::new(alloc), sides, scope)
}

fn below_is(alloc: Global, scope: &Scope, expected: &str) -> Result<bool, NoMemory> {
    Ok(below_text(alloc, scope)?.as_slice() == expected.as_bytes())
}

fn triple_is(alloc: Global, scope: &Scope, expected: &str) -> Result<bool, NoMemory> {
    Ok(triple_text(alloc, scope)?.as_slice() == expected.as_bytes())
}

fn are_eliminated(alloc: Global) -> Result<bool, TextFault> {
    let scope = sample(alloc)?;
    let below = "((p + q) + ((p + q)*.(q.(p + q)*))) = (q + ((p + q)*.(q.(p + q)*)))";
    let triple = "([true].(p.[!b])) = 0";
    Ok(below_is(alloc, &scope, below)? && triple_is(alloc, &scope, triple)?)
}

#[test]
fn hypotheses_are_eliminated(rt: HostRuntime) -> Result<(), Fail> {
    assert!(rt; are_eliminated(rt.alloc())?);
    Ok(())
}
