//! Programs: how they are read, printed and run.
ghost use Rattle.std.specs.Prelude.{IfOk};
ghost use Rattle.kat_model.specs.Stores.{IsStore};
ghost use Rattle.kat_model.specs.declared.expression.Width.{Width};

use crate::fixtures::{cut, is_so, sample};
use kat_model::{NoMemory, Width};
use std::alloc::Global;
use std::test::Fail;
use text_parser::{Scope, TextFault};
use while_lang::{Outcome, Prog, Store, print_prog, read_block, run};

fn prog_of(alloc: Global, text: &str, scope: &Scope) -> Result<Prog, TextFault> {
    let found = cut(alloc, text)?;
    let (prog, _, _) = read_block(alloc, &found, 0, scope, &[])?;
    Ok(prog)
}

// Prints a copy of the program if the copy is the same.
fn prog_text(alloc: Global, prog: &Prog, scope: &Scope) -> Result<Vec<u8>, NoMemory> {
    let copy = prog.copy(alloc)?;
    if !copy.same(prog) {
        return Ok(Vec::new(alloc));
    }
    print_prog(alloc, &copy, scope)
}

fn text_in(alloc: Global, text: &str, scope: &Scope) -> Result<Vec<u8>, TextFault> {
    let prog = prog_of(alloc, text, scope)?;
    Ok(prog_text(alloc, &prog, scope)?)
}

fn text_read(alloc: Global, text: &str) -> Result<Vec<u8>, TextFault> {
    let scope = sample(alloc)?;
    text_in(alloc, text, &scope)
}

const BLOCKS: &[(&str, Result<&str, TextFault>)] = &[
    (
        "{ if b { abort; } else if c { p; } while !(x < y) { x := y + 1; } }",
        Ok("{ if b { abort; } else { if c { p; } else { } } while !(x < y) { x := (y + 1); } }"),
    ),
    ("{ skip; b; }", Err(TextFault::Sort(8))),
];

#[test]
fn programs_are_read_and_printed(rt: HostRuntime) {
    for (text, expected) in BLOCKS {
        assert!(rt; is_so(text_read(rt.alloc(), text), *expected), "of {text}");
    }
}

// Returns a store of two variables that are 0.
fn zeros(alloc: Global) -> Result<Store, NoMemory>
    ensures { IfOk result (λ s. (w : Width) → IsStore w s) }
{
    let mut values = Vec::new(alloc);
    values.push(0)?;
    values.push(0)?;
    Ok(Store { values })
}

// Returns how the program ends, and the first variable then. A program without runs gives `More`.
fn run_end(
    alloc: Global,
    prog: &Prog,
    width: Width,
    turns: u64,
) -> Result<(Outcome, u64), NoMemory> {
    let mut store = zeros(alloc)?;
    if !prog.concrete() {
        return Ok((Outcome::More, 0));
    }
    let outcome = run(prog, width, &mut store, turns);
    Ok((outcome, store.values.first().copied().unwrap_or(0)))
}

fn prog_in(alloc: Global, text: &str) -> Result<Prog, TextFault> {
    let scope = sample(alloc)?;
    prog_of(alloc, text, &scope)
}

fn text_end(
    alloc: Global,
    text: &str,
    width: Width,
    turns: u64,
) -> Result<(Outcome, u64), TextFault> {
    let prog = prog_in(alloc, text)?;
    Ok(run_end(alloc, &prog, width, turns)?)
}

const RUNS: &[(&str, Width, u64, (Outcome, u64))] = &[
    (
        "{ while x < 3 { x := x + 1; } x := x + 255; }",
        Width::W8,
        3,
        (Outcome::Done, 2),
    ),
    (
        "{ while x < 3 { x := x + 1; } }",
        Width::W64,
        2,
        (Outcome::More, 2),
    ),
    (
        "{ x := 8; assert x == 9; x := 1; }",
        Width::W64,
        5,
        (Outcome::Stuck, 8),
    ),
];

#[test]
fn programs_run(rt: HostRuntime) -> Result<(), Fail> {
    for (text, width, turns, expected) in RUNS {
        let end = text_end(rt.alloc(), text, *width, *turns)?;
        assert!(rt; end == *expected, "of {text}");
    }
    Ok(())
}
