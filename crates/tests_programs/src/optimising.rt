//! An optimised program of a text, with the steps that led to it.
ghost use Rattle.while_lang.specs.Ranges.{IsNumbered};

use kat_model::NoMemory;
use optimiser_steps::{Ended, LogLine, Optimised, optimise};
use problem_file::{File, read};
use std::alloc::Global;
use std::test::Fail;
use text_parser::{Scope, TextFault};
use while_lang::print_prog;

// Whether the log has no step, or only this one, at the first statement.
fn are_steps(log: &[LogLine], step: Option<u8>) -> bool {
    match (log, step) {
        ([], None) => true,
        ([line], Some(step)) => line.step == step && line.path.as_slice() == [0].as_slice(),
        _ => false,
    }
}

fn has_text(
    alloc: Global,
    optimised: &Optimised,
    scope: &Scope,
    expected: &str,
) -> Result<bool, NoMemory> {
    let text = print_prog(alloc, &optimised.prog, scope)?;
    Ok(text.as_slice() == expected.as_bytes())
}

// Whether the step or no step led to the program that is `expected`.
fn is_expected(
    alloc: Global,
    optimised: &Optimised,
    scope: &Scope,
    step: Option<u8>,
    expected: &str,
) -> Result<bool, NoMemory> {
    let is_done = optimised.ended == Ended::Done;
    let are_expected = are_steps(&optimised.log, step) && is_done == step.is_some();
    Ok(are_expected && has_text(alloc, optimised, scope, expected)?)
}

// Whether the program L of the file becomes `expected`, by the step or by none.
fn is_optimised_in(
    alloc: Global,
    file: &File,
    turns: u64,
    step: Option<u8>,
    expected: &str,
) -> Result<bool, NoMemory>
    requires { IsNumbered file.now }
{
    match file.prog("L") {
        None => Ok(false),
        Some(prog) => {
            let optimised = optimise(alloc, file, prog, turns)?;
            is_expected(alloc, &optimised, &file.scope, step, expected)
        }
    }
}

// The same for the file of a text.
fn is_optimised(
    alloc: Global,
    text: &str,
    turns: u64,
    step: Option<u8>,
    expected: &str,
) -> Result<bool, TextFault> {
    let file = read(alloc, text.as_bytes())?;
    Ok(is_optimised_in(alloc, &file, turns, step, expected)?)
}

const IF_AFTER_LOOP: &str =
    "test b; action p, q; prog L { while b { p; } if b { q; } } goal equal L, L;";

#[test]
fn a_branch_after_a_loop_goes(rt: HostRuntime) -> Result<(), Fail> {
    let made = "{ while b { p; } }";
    assert!(rt; is_optimised(rt.alloc(), IF_AFTER_LOOP, 1000, Some(10), made)?);
    let unchanged = "{ while b { p; } if b { q; } else { } }";
    assert!(rt; is_optimised(rt.alloc(), IF_AFTER_LOOP, 0, None, unchanged)?);
    Ok(())
}
