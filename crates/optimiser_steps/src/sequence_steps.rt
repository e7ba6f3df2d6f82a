//! The steps S9 and S10, which depend on a statement and the one after it.
ghost use Rattle.std.specs.Prelude.{◌≡◌, ◌∷◌, ◌++◌, IfOk, map};
ghost use Rattle.kat_model.specs.Expressions.{cond_tree};
ghost use Rattle.kat_model.specs.Problems.{AreInRange};
ghost use Rattle.while_lang.specs.Ranges.{IsCondInRange};
ghost use Rattle.while_lang.specs.Programs.{branch, loop};
ghost use Rattle.while_lang.specs.ProgramViews.{stmt_tree};
ghost use Rattle.optimiser_steps.specs.Statements.{IsStmtInRange, AreStmtsInRange};
ghost use Rattle.optimiser_steps.specs.Working.Found.{FindsLeast};

use crate::copies::{list_of, push_copies};
use crate::rewriting::Made;
use crate::validity::{fails_after, holds_after};
use kat_model::{Cond, NoMemory};
use std::alloc::Global;
use while_lang::{File, Prog, Stmt, copy_stmt, push_stmt};

// Returns copies of `stmt`, of `taken` and of `later`.
fn list_after(
    alloc: Global,
    stmt: &Stmt,
    taken: &[Stmt],
    later: &[Stmt],
) -> Result<Vec<Stmt>, NoMemory>
    ensures { IfOk result (λ v. map stmt_tree v.items ≡ stmt_tree stmt.now ∷ map stmt_tree taken.now ++ map stmt_tree later.now) }
{
    let mut list = Vec::new(alloc);
    push_stmt(&mut list, copy_stmt(alloc, stmt)?)?;
    push_copies(alloc, &mut list, taken)?;
    push_copies(alloc, &mut list, later)?;
    Ok(list)
}

// Tries S9 and S10 at a statement that precedes an `if`.
fn if_after(
    alloc: Global,
    file: &File,
    stmt: &Stmt,
    cond: &Cond,
    first: &Prog,
    second: &Prog,
    later: &[Stmt],
) -> Result<Option<Made>, NoMemory>
    requires hyps { AreInRange file.now.tests file.now.actions file.now.hyps }
    requires stmt { IsStmtInRange file.now (stmt_tree stmt.now) }
    requires cond { IsCondInRange file.now.tests file.now.vars (cond_tree cond.now) }
    ensures { IfOk result (FindsLeast file.now (stmt_tree stmt.now ∷ branch (cond_tree cond.now) first.now second.now ∷ map stmt_tree later.now) 9 11) }
{
    if holds_after(alloc, file, stmt, cond)? {
        let list = list_after(alloc, stmt, &first.list, later)?;
        return Ok(Some(Made { step: 9, list }));
    }
    if fails_after(alloc, file, stmt, cond)? {
        let list = list_after(alloc, stmt, &second.list, later)?;
        return Ok(Some(Made { step: 10, list }));
    }
    Ok(None)
}

// Tries S10 at a statement that precedes a `while`.
fn while_after(
    alloc: Global,
    file: &File,
    stmt: &Stmt,
    cond: &Cond,
    body: &Prog,
    later: &[Stmt],
) -> Result<Option<Made>, NoMemory>
    requires hyps { AreInRange file.now.tests file.now.actions file.now.hyps }
    requires stmt { IsStmtInRange file.now (stmt_tree stmt.now) }
    requires cond { IsCondInRange file.now.tests file.now.vars (cond_tree cond.now) }
    ensures { IfOk result (FindsLeast file.now (stmt_tree stmt.now ∷ loop (cond_tree cond.now) body.now ∷ map stmt_tree later.now) 9 11) }
{
    if !fails_after(alloc, file, stmt, cond)? {
        return Ok(None);
    }
    let list = list_of(alloc, copy_stmt(alloc, stmt)?, later)?;
    Ok(Some(Made { step: 10, list }))
}

/// Returns the lesser possible step of S9 and S10 at a statement followed by `rest`, if there is one.
pub(crate) fn step_after(
    alloc: Global,
    file: &File,
    stmt: &Stmt,
    rest: &[Stmt],
) -> Result<Option<Made>, NoMemory>
    requires hyps { AreInRange file.now.tests file.now.actions file.now.hyps }
    requires stmt { IsStmtInRange file.now (stmt_tree stmt.now) }
    requires rest { AreStmtsInRange file.now (map stmt_tree rest.now) }
    ensures { IfOk result (FindsLeast file.now (stmt_tree stmt.now ∷ map stmt_tree rest.now) 9 11) }
{
    match rest {
        [] => Ok(None),
        [next, later @ ..] => match next {
            Stmt::If(c, p, q) => if_after(alloc, file, stmt, c, p, q, later),
            Stmt::While(c, p) => while_after(alloc, file, stmt, c, p, later),
            Stmt::Skip | Stmt::Abort | Stmt::Assert(_) | Stmt::Act(_) | Stmt::Assign(_, _) => {
                Ok(None)
            }
        },
    }
}
