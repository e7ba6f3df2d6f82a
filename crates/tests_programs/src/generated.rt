//! Generated problems.
use gkat_front::{bench_problem, pair_bound};
use std::test::Fail;

// The left side has four actions, and the right side twelve: each loop is unrolled once, in blocks too.
#[test]
fn loops_are_unrolled(rt: HostRuntime) -> Result<(), Fail> {
    let problem = bench_problem(rt.alloc(), 1)?;
    assert_eq!(rt; problem.left().size(), 54);
    assert_eq!(rt; problem.right().size(), 149);
    assert_eq!(rt; pair_bound(&problem), Some(84));
    Ok(())
}
