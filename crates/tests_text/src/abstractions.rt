//! The abstraction of a goal about programs, and the terms that its rows give for a program and a condition.
ghost use Rattle.std.specs.Prelude.{IfOk};
ghost use Rattle.abstraction.specs.Abstracts.{HasNumbersInRange};

use crate::fixtures::{put, put_term};
use abstraction::{Abstract, AbstractFault, abstracted_for, flow_of, test_of};
use kat_model::{Cond, Kat, NoMemory};
use problem_file::{File, Goal, Side, plain_scope, read};
use std::alloc::Global;
use std::test::Fail;
use text_parser::{Scope, TextFault};
use while_lang::{Prog, encode};

// Reads a file. The numbers of the file are in range.
fn file_of(alloc: Global, bytes: &[u8]) -> Result<File, TextFault>
    ensures { IfOk result (λ file. HasNumbersInRange file) }
{
    match read(alloc, bytes) {
        Ok(file) => Ok(file),
        Err(fault) => Err(fault),
    }
}

fn put_prog(
    alloc: Global,
    out: &mut Vec<u8>,
    shown: &Abstract,
    prog: &Prog,
    scope: &Scope,
) -> Result<(), NoMemory> {
    let flow = flow_of(alloc, shown, prog)?;
    let term = encode(alloc, &flow)?;
    put_term(alloc, out, &term, scope)
}

fn put_cond(
    alloc: Global,
    out: &mut Vec<u8>,
    shown: &Abstract,
    cond: &Cond,
    scope: &Scope,
) -> Result<(), NoMemory> {
    let test = Kat::Test(test_of(alloc, shown, cond)?);
    put_term(alloc, out, &test, scope)
}

// Appends the first condition of a triple and its program.
fn put_triple(
    alloc: Global,
    out: &mut Vec<u8>,
    shown: &Abstract,
    goal: &Goal,
    scope: &Scope,
) -> Result<(), NoMemory> {
    match goal {
        Goal::Triple(pre, Side::Prog(prog), _) => {
            put_cond(alloc, out, shown, pre, scope)?;
            put(out, b" ")?;
            put_prog(alloc, out, shown, prog, scope)
        }
        _ => Ok(()),
    }
}

// Appends the left side of the problem, then the triple.
fn put_all(
    alloc: Global,
    out: &mut Vec<u8>,
    shown: &Abstract,
    goal: &Goal,
    scope: &Scope,
) -> Result<(), NoMemory> {
    put_term(alloc, out, shown.problem.left(), scope)?;
    put(out, b"; ")?;
    put_triple(alloc, out, shown, goal, scope)
}

fn shown_text(alloc: Global, shown: &Abstract, goal: &Goal) -> Result<Vec<u8>, NoMemory> {
    let scope = plain_scope(alloc, 3, 2)?;
    let mut out = Vec::new(alloc);
    put_all(alloc, &mut out, shown, goal, &scope)?;
    Ok(out)
}

fn abstract_text(alloc: Global, file: &File) -> Result<Vec<u8>, AbstractFault>
    requires { HasNumbersInRange file.now }
{
    let shown = abstracted_for(alloc, file, &file.goal)?;
    Ok(shown_text(alloc, &shown, &file.goal)?)
}

fn is_abstracted(alloc: Global, text: &str, expected: &str) -> Result<bool, TextFault> {
    let file = file_of(alloc, text.as_bytes())?;
    Ok(match abstract_text(alloc, &file) {
        Ok(found) => found.as_slice() == expected.as_bytes(),
        Err(_) => false,
    })
}

// In this file t0 is b, t1 is x == 3, and t2 is x + 1 == 3; a0 is p, and a1 is x := x + 1.
#[test]
fn goals_are_abstracted(rt: HostRuntime) -> Result<(), Fail> {
    let text =
        "test b; action p; var x; prog P { p; x := x + 1; assert x != 3; } goal triple {b && x == 3} P {b};";
    let expected = "([(t0 && t1)].((a0.(a1.[!t1])).[!t0])); [(t0 && t1)] (a0.(a1.[!t1]))";
    assert!(rt; is_abstracted(rt.alloc(), text, expected)?);
    Ok(())
}
