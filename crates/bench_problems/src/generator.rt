//! Random programs.
ghost use Rattle.std.specs.Prelude.{◌≡◌, IfOk};
ghost use Rattle.bench_problems.specs.Generator.{drawn, drawn_action, drawn_by, drawn_program};

use crate::blocks::{join, one_stmt};
use crate::draws::Draws;
use kat_model::{NoMemory, Test};
use std::alloc::Global;
use while_lang::{Flow, Flows};

fn draw_action(alloc: Global, draws: &mut Draws) -> Result<Flows, NoMemory>
    ensures { IfOk result (λ f. drawn f draws.new.state ≡ drawn_action draws.old.state) }
{
    one_stmt(alloc, Flow::Act(draws.draw()))
}

// Draws a program and then another.
#[cycle(programs)]
fn draw_both(alloc: Global, levels: u32, draws: &mut Draws) -> Result<Flows, NoMemory>
    ensures { IfOk result (λ f. drawn f draws.new.state ≡ drawn_by (drawn_program levels) 1 draws.old.state) }
{
    let first = draw_program(alloc, levels, draws)?;
    let second = draw_program(alloc, levels, draws)?;
    join(first, second)
}

#[cycle(programs)]
fn draw_branch(alloc: Global, levels: u32, draws: &mut Draws) -> Result<Flows, NoMemory>
    ensures { IfOk result (λ f. drawn f draws.new.state ≡ drawn_by (drawn_program levels) 2 draws.old.state) }
{
    let test = Test::Prim(draws.draw());
    let first = draw_program(alloc, levels, draws)?;
    let second = draw_program(alloc, levels, draws)?;
    one_stmt(alloc, Flow::If(test, first, second))
}

#[cycle(programs)]
fn draw_loop(alloc: Global, levels: u32, draws: &mut Draws) -> Result<Flows, NoMemory>
    ensures { IfOk result (λ f. drawn f draws.new.state ≡ drawn_by (drawn_program levels) 3 draws.old.state) }
{
    let test = Test::Prim(draws.draw());
    let body = draw_program(alloc, levels, draws)?;
    one_stmt(alloc, Flow::While(test, body))
}

// Draws a program with at most `levels` levels.
#[cycle(programs)]
pub(crate) fn draw_program(alloc: Global, levels: u32, draws: &mut Draws) -> Result<Flows, NoMemory>
    ensures { IfOk result (λ f. drawn f draws.new.state ≡ drawn_program levels draws.old.state) }
{
    if levels == 0 {
        return draw_action(alloc, draws);
    }
    match draws.draw() {
        0 => draw_action(alloc, draws),
        1 => draw_both(alloc, levels - 1, draws),
        2 => draw_branch(alloc, levels - 1, draws),
        _ => draw_loop(alloc, levels - 1, draws),
    }
}
