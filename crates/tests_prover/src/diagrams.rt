//! The parity of forty tests, which has a small diagram.
ghost use Rattle.std.specs.Prelude.{◌≡◌, ◌<◌, IfOk};
ghost use Rattle.test_diagrams.specs.Functions.{IsDiagramId};

use kat_model::{NoMemory, Test};
use std::alloc::Global;
use std::test::Fail;
use test_diagrams::{DiagramId, Diagrams};

// Returns the exclusive or of `parity` and the test with this number.
fn either_test(
    diagrams: &mut Diagrams,
    parity: DiagramId,
    test: usize,
) -> Result<DiagramId, NoMemory>
    requires parity { IsDiagramId diagrams.old parity }
    requires test { test < diagrams.old.tests }
    ensures parity { IfOk result (IsDiagramId diagrams.new) }
    ensures tests { diagrams.new.tests ≡ diagrams.old.tests }
{
    let one = diagrams.of_test(&Test::Prim(test))?;
    let not_one = diagrams.not(one)?;
    let even = diagrams.not(parity)?;
    let first = diagrams.and(parity, not_one)?;
    let second = diagrams.and(even, one)?;
    diagrams.or(first, second)
}

// Returns the diagram that is true if an odd number of the forty tests is.
fn parity_of_all(diagrams: &mut Diagrams) -> Result<DiagramId, NoMemory>
    requires { diagrams.old.tests ≡ 40 }
    ensures parity { IfOk result (IsDiagramId diagrams.new) }
    ensures tests { diagrams.new.tests ≡ 40 }
{
    let mut parity = diagrams.constant(false);
    for test in 0..40 {
        parity = either_test(diagrams, parity, test)?;
    }
    Ok(parity)
}

// Returns the first test of the parity, and the first test after that one is fixed.
fn first_tests(diagrams: &mut Diagrams) -> Result<(Option<usize>, Option<usize>), NoMemory>
    requires { diagrams.old.tests ≡ 40 }
{
    let parity = parity_of_all(diagrams)?;
    let first = diagrams.top(parity);
    let rest = diagrams.fix(parity, 0, true)?;
    Ok((first, diagrams.top(rest)))
}

fn first_tests_of_forty(alloc: Global) -> Result<(Option<usize>, Option<usize>), NoMemory> {
    let mut diagrams = Diagrams::new(alloc, 40)?;
    first_tests(&mut diagrams)
}

// Takes 2 to the power of 40 steps if results are not stored.
#[test]
fn the_parity_of_forty_tests_is_found(rt: HostRuntime) -> Result<(), Fail> {
    assert!(rt; first_tests_of_forty(rt.alloc())? == (Some(0), Some(1)));
    Ok(())
}
