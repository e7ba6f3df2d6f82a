//! Programs with each loop unrolled once.
ghost use Rattle.std.specs.Prelude.{◌≡◌, IfOk};
ghost use Rattle.kat_model.specs.Trees.{test_tree};
ghost use Rattle.while_lang.specs.Flows.{branch, empty, loop_then};
ghost use Rattle.while_lang.specs.FlowViews.{flow_stmt};
ghost use Rattle.bench_problems.specs.Generator.{followed_by, unrolled};
ghost use Rattle.bench_problems.specs.Working.Unrolling.{unrolled_stmt};

use crate::blocks::{join, one_stmt, push_stmt};
use kat_model::{NoMemory, Test};
use std::alloc::Global;
use while_lang::{Flow, Flows};

// Builds the branch that runs the first turn of a loop, `turn`, and then the loop over `body`.
fn unrolled_loop(alloc: Global, test: &Test, turn: Flows, body: Flows) -> Result<Flow, NoMemory>
    ensures { IfOk result (λ s. flow_stmt s ≡ branch (test_tree test.now) (followed_by turn (loop_then (test_tree test.now) body empty)) empty) }
{
    let guard = test.copy(alloc)?;
    let turns = one_stmt(alloc, Flow::While(guard, body))?;
    let first = join(turn, turns)?;
    let guard = test.copy(alloc)?;
    let list = Vec::new(alloc);
    Ok(Flow::If(guard, first, Flows { list }))
}

#[cycle(unrolling)]
fn unroll_stmt(alloc: Global, stmt: &Flow) -> Result<Flow, NoMemory>
    ensures { IfOk result (λ s. flow_stmt s ≡ unrolled_stmt (flow_stmt stmt.now)) }
{
    match stmt {
        Flow::Skip => Ok(Flow::Skip),
        Flow::Abort => Ok(Flow::Abort),
        Flow::Assert(b) => Ok(Flow::Assert(b.copy(alloc)?)),
        Flow::Act(a) => Ok(Flow::Act(*a)),
        Flow::If(b, f, g) => {
            let test = b.copy(alloc)?;
            let first = unroll(alloc, f)?;
            let second = unroll(alloc, g)?;
            Ok(Flow::If(test, first, second))
        }
        Flow::While(b, f) => {
            let turn = unroll(alloc, f)?;
            let body = unroll(alloc, f)?;
            unrolled_loop(alloc, b, turn, body)
        }
    }
}

// Unrolls each loop once, also inside blocks.
#[cycle(unrolling)]
pub(crate) fn unroll(alloc: Global, flows: &Flows) -> Result<Flows, NoMemory>
    ensures { IfOk result (λ f. f ≡ unrolled flows.now) }
{
    let mut list = Vec::new(alloc);
    for stmt in &flows.list {
        push_stmt(&mut list, unroll_stmt(alloc, stmt)?)?;
    }
    Ok(Flows { list })
}
