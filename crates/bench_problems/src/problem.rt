//! The generated problems.
ghost use Rattle.std.specs.Prelude.{◌≡◌, ◌<◌, IfOk};
ghost use Rattle.bench_problems.specs.Generator.{right_program, bench_problem};

use crate::blocks::{join, one_stmt};
use crate::draws::Draws;
use crate::generator::draw_program;
use crate::unrolling::unroll;
use kat_model::{NoMemory, Problem};
use std::alloc::Global;
use while_lang::{Flow, Flows, encode};

// The number of tests, and the number of actions.
const COUNT: usize = 4;

// The maximum number of levels of a program.
const LEVELS: u32 = 4;

// Builds the program of the right side.
fn right_program(alloc: Global, k: u64, program: &Flows) -> Result<Flows, NoMemory>
    ensures { IfOk result (λ f. f ≡ right_program k program.now) }
{
    let unrolled = unroll(alloc, program)?;
    if k % 2 == 0 {
        return Ok(unrolled);
    }
    let last = one_stmt(alloc, Flow::Act(0))?;
    join(unrolled, last)
}

/// Builds generated problem k. It has four tests, four actions and no hypotheses. The left side is the term of a random
/// program of four levels, whose draws start from k. The right side is the term of the same program with each loop
/// unrolled once; for odd k the first action follows it. Fails only when out of memory.
pub fn bench_problem(alloc: Global, k: u64) -> Result<Problem, NoMemory>
    requires { k < 10000 }
    ensures { IfOk result (λ p. p ≡ bench_problem k) }
{
    let mut draws = Draws::new(k);
    let program = draw_program(alloc, LEVELS, &mut draws)?;
    let left = encode(alloc, &program)?;
    let unrolled = right_program(alloc, k, &program)?;
    let right = encode(alloc, &unrolled)?;
    match Problem::new(COUNT, COUNT, Vec::new(alloc), left, right) {
        Ok(problem) => Ok(problem),
        Err(_) => unreachable!(),
    }
}
