//! Which problems have a bound on guarded pairs.
use gkat_front::pair_bound;
use kat_model::{Kat, NoMemory, Problem, Test};
use std::alloc::Global;
use std::test::Fail;

// `t0.a0 + c.a1`, where `c` is the complement of the test `other`.
fn choice(alloc: Global, other: usize) -> Result<Kat, NoMemory> {
    let first = Kat::new_seq(alloc, Kat::Test(Test::Prim(0)), Kat::Act(0))?;
    let fails = Test::new_not(alloc, Test::Prim(other))?;
    let second = Kat::new_seq(alloc, Kat::Test(fails), Kat::Act(1))?;
    Kat::new_sum(alloc, first, second)
}

// Whether a problem over two tests and two actions, with the action 0 on the right, has the bound `expected`.
fn is_bound(hyps: Vec<Kat>, left: Kat, expected: Option<u64>) -> bool {
    match Problem::new(2, 2, hyps, left, Kat::Act(0)) {
        Ok(problem) => pair_bound(&problem) == expected,
        Err(_) => false,
    }
}

fn choice_has_bound(alloc: Global, other: usize, expected: Option<u64>) -> Result<bool, NoMemory> {
    Ok(is_bound(Vec::new(alloc), choice(alloc, other)?, expected))
}

#[test]
fn a_choice_has_a_bound_if_one_test_decides(rt: HostRuntime) -> Result<(), Fail> {
    assert!(rt; choice_has_bound(rt.alloc(), 0, Some(12))?);
    assert!(rt; choice_has_bound(rt.alloc(), 1, None)?);
    Ok(())
}
