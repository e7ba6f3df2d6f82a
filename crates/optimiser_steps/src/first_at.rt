//! The step at the head of a list.
ghost use Rattle.std.specs.Prelude.{◌∷◌, IfOk, map};
ghost use Rattle.kat_model.specs.Problems.{AreInRange};
ghost use Rattle.while_lang.specs.ProgramViews.{stmt_tree};
ghost use Rattle.optimiser_steps.specs.Statements.{IsStmtInRange, AreStmtsInRange};
ghost use Rattle.optimiser_steps.specs.Working.Found.{FindsLeast};

use crate::loop_steps::step_nested;
use crate::rewriting::Made;
use crate::sequence_steps::step_after;
use crate::statement_steps::step_alone;
use kat_model::NoMemory;
use std::alloc::Global;
use while_lang::{File, Stmt};

// Returns the least possible step at a statement followed by `rest`, if there is one.
fn step_of(alloc: Global, file: &File, stmt: &Stmt, rest: &[Stmt]) -> Result<Option<Made>, NoMemory>
    requires hyps { AreInRange file.now.tests file.now.actions file.now.hyps }
    requires stmt { IsStmtInRange file.now (stmt_tree stmt.now) }
    requires rest { AreStmtsInRange file.now (map stmt_tree rest.now) }
    ensures { IfOk result (FindsLeast file.now (stmt_tree stmt.now ∷ map stmt_tree rest.now) 1 13) }
{
    if let Some(made) = step_alone(alloc, file, stmt, rest)? {
        return Ok(Some(made));
    }
    if let Some(made) = step_after(alloc, file, stmt, rest)? {
        return Ok(Some(made));
    }
    step_nested(alloc, file, stmt, rest)
}

/// Returns the least possible step at the head of a list, if there is one.
pub(crate) fn step_here(alloc: Global, file: &File, list: &[Stmt]) -> Result<Option<Made>, NoMemory>
    requires hyps { AreInRange file.now.tests file.now.actions file.now.hyps }
    requires list { AreStmtsInRange file.now (map stmt_tree list.now) }
    ensures { IfOk result (FindsLeast file.now (map stmt_tree list.now) 1 13) }
{
    match list {
        [] => Ok(None),
        [stmt, rest @ ..] => step_of(alloc, file, stmt, rest),
    }
}
