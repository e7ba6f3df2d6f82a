//! The search for the first step.
ghost use Rattle.std.specs.Prelude.{◌≡◌, ◌+◌, ◌<◌, [], ◌∷◌, length, drop, IfOk, map};
ghost use Rattle.kat_model.specs.Problems.{AreInRange};
ghost use Rattle.while_lang.specs.ProgramViews.{stmt_tree};
ghost use Rattle.optimiser_steps.specs.Statements.{IsStmtInRange, AreStmtsInRange};
ghost use Rattle.optimiser_steps.specs.Paths.{NoStepBefore};
ghost use Rattle.optimiser_steps.specs.Working.Found.{FindsFirst, FindsFirstBefore};

use crate::first_at::step_here;
use crate::paths::{Found, found_here, found_in_body, found_in_first, found_in_second};
use kat_model::NoMemory;
use std::alloc::Global;
use while_lang::{File, Stmt};

// Returns the first step inside the statement at a position. Requires that no earlier step is possible.
#[cycle(search)]
fn step_inside(
    alloc: Global,
    file: &File,
    stmt: &Stmt,
    list: &[Stmt],
    position: usize,
) -> Result<Option<Found>, NoMemory>
    requires hyps { AreInRange file.now.tests file.now.actions file.now.hyps }
    requires range { IsStmtInRange file.now (stmt_tree stmt.now) }
    requires stmt { drop position (map stmt_tree list.now) ≡ stmt_tree stmt.now ∷ drop (position + 1) (map stmt_tree list.now) }
    requires position { position < length list.now }
    requires none { NoStepBefore file.now (position ∷ 0 ∷ []) (map stmt_tree list.now) }
    ensures { IfOk result (FindsFirstBefore file.now ((position + 1) ∷ []) (map stmt_tree list.now)) }
{
    match stmt {
        Stmt::If(b, p, q) => {
            if let Some(inner) = first_step_in(alloc, file, &p.list)? {
                let found = found_in_first(alloc, list, position, b, inner, q)?;
                return Ok(Some(found));
            }
            if let Some(inner) = first_step_in(alloc, file, &q.list)? {
                let found = found_in_second(alloc, list, position, b, p, inner)?;
                return Ok(Some(found));
            }
            Ok(None)
        }
        Stmt::While(b, p) => {
            if let Some(inner) = first_step_in(alloc, file, &p.list)? {
                let found = found_in_body(alloc, list, position, b, inner)?;
                return Ok(Some(found));
            }
            Ok(None)
        }
        Stmt::Skip | Stmt::Abort | Stmt::Assert(_) | Stmt::Act(_) | Stmt::Assign(_, _) => Ok(None),
    }
}

/// Returns the first step of a list, if there is one.
#[cycle(search)]
pub(crate) fn first_step_in(
    alloc: Global,
    file: &File,
    list: &[Stmt],
) -> Result<Option<Found>, NoMemory>
    requires hyps { AreInRange file.now.tests file.now.actions file.now.hyps }
    requires list { AreStmtsInRange file.now (map stmt_tree list.now) }
    ensures { IfOk result (FindsFirst file.now (map stmt_tree list.now)) }
{
    for i in 0..list.len() {
        if let Some(made) = step_here(alloc, file, &list[i..])? {
            return Ok(Some(found_here(alloc, &list[..i], &made)?));
        }
        if let Some(found) = step_inside(alloc, file, &list[i], list, i)? {
            return Ok(Some(found));
        }
    }
    Ok(None)
}
