//! The optimiser.
ghost use Rattle.std.specs.Prelude.{◌≡◌, ◌≤◌, ◌↔◌, length, IfOk};
ghost use Rattle.optimiser_steps.specs.Logs.{IsLog, IsFinished, HasStep};
ghost use Rattle.optimiser_steps.specs.Meanings.{HasProgInRange, KeepsInTables, KeepsFromStores};

use crate::paths::Found;
use crate::search::first_step_in;
use kat_model::NoMemory;
use std::alloc::Global;
use std::marker::Model;
use while_lang::{File, Prog};

/// A step of the optimiser.
#[derive(Drop)]
pub struct LogLine {
    /// The number of the step, 1 to 12.
    pub step: u8,
    /// The place of the step in the program before it: a position, and for each level down the number of a block (1 for
    /// the second block of an `if`, otherwise 0) and a position in it.
    pub path: Vec<usize>,
}

impl Model for LogLine {
    ghost use Rattle.std.specs.Coded.{codes};
    ghost use Rattle.optimiser_steps.specs.Logs.{LogLineParts};

    ghost Value = { LogLineParts };

    ghost coded = { Prim.hlevel codes };

    ghost view = { λ l. record { step = l.step; path = l.path.items } };
}

/// Why the optimiser ended.
#[derive(Clone, Copy)]
pub enum Ended {
    /// No further step is possible.
    Done,
    /// The permitted number of steps was reached, and a further step is possible.
    TurnLimit,
}

/// An optimised program, and the steps that led to it, in order.
#[derive(Drop)]
pub struct Optimised {
    pub prog: Prog,
    pub log: Vec<LogLine>,
    pub ended: Ended,
}

/// Applies the first step of a program repeatedly, at most `turns` times: the step with the least number at the first
/// position at which a step is possible. Conditions of steps are triples that the prover decides, with the tests,
/// actions, stated hypotheses, rounds and width of the file. Fails only when out of memory.
///
/// If the file has no variables, the result relates the same states as `prog` in each table that satisfies the stated
/// hypotheses. If the file has no tests, actions, terms and stated hypotheses, the result ends in the same stores as
/// `prog`, from each store. For other files only the log is guaranteed.
pub fn optimise(alloc: Global, file: &File, prog: &Prog, turns: u64) -> Result<Optimised, NoMemory>
    requires { HasProgInRange file.now prog.now }
    ensures log { IfOk result (λ o. IsLog file.now prog.now o.log.items o.prog) }
    ensures within { IfOk result (λ o. length o.log.items ≤ turns) }
    ensures done { IfOk result (λ o. (o.ended ≡ Ended.Done) ↔ IsFinished file.now o.prog) }
    ensures limit { IfOk result (λ o. (o.ended ≡ Ended.TurnLimit) ↔ ((length o.log.items ≡ turns) × HasStep file.now o.prog)) }
    ensures kept_in_tables { IfOk result (λ o. KeepsInTables file.now prog.now o.prog) }
    ensures kept_from_stores { IfOk result (λ o. KeepsFromStores file.now prog.now o.prog) }
{
    let mut current = prog.copy(alloc)?;
    let mut log = Vec::new(alloc);
    let mut left = turns;
    while let Some(found) = first_step_in(alloc, file, &current.list)? {
        if left == 0 {
            let ended = Ended::TurnLimit;
            return Ok(Optimised {
                prog: current,
                log,
                ended,
            });
        }
        left -= 1;
        let Found { step, path, list } = found;
        log.push(LogLine { step, path })?;
        current = Prog { list };
    }
    let ended = Ended::Done;
    Ok(Optimised {
        prog: current,
        log,
        ended,
    })
}
