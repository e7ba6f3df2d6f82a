//! The steps S1 to S8, which depend on one statement, or on an `abort` with statements after it.
ghost use Rattle.std.specs.Prelude.{◌≡◌, ◌∷◌, IfOk, map};
ghost use Rattle.kat_model.specs.Expressions.{cond_tree};
ghost use Rattle.kat_model.specs.Problems.{AreInRange};
ghost use Rattle.while_lang.specs.Files.{FileParts};
ghost use Rattle.while_lang.specs.Ranges.{IsCondInRange};
ghost use Rattle.while_lang.specs.Programs.{abort, assert, branch, loop, stmts_of};
ghost use Rattle.while_lang.specs.ProgramViews.{stmt_tree};
ghost use Rattle.optimiser_steps.specs.Statements.{IsStmtInRange};
ghost use Rattle.optimiser_steps.specs.Working.Found.{FindsLeast, FindsSharedEnd};

use crate::copies::{
    branch_of, copies_of, is_same_stmt, joined_list, list_of, list_of_two, prog_of,
};
use crate::rewriting::Made;
use crate::validity::{holds_always, holds_never};
use kat_model::{Cond, NoMemory};
use std::alloc::Global;
use while_lang::{File, Prog, Stmt, copy_stmt};

// Tries S2 at an `abort`.
fn abort_step(alloc: Global, rest: &[Stmt]) -> Result<Option<Made>, NoMemory>
    ensures { IfOk result (λ r. (f : FileParts) → FindsLeast f (abort ∷ map stmt_tree rest.now) 1 9 r) }
{
    match rest {
        [] => Ok(None),
        [_, later @ ..] => {
            let list = list_of(alloc, Stmt::Abort, later)?;
            Ok(Some(Made { step: 2, list }))
        }
    }
}

// Tries S3 at an `assert`.
fn assert_step(
    alloc: Global,
    file: &File,
    cond: &Cond,
    rest: &[Stmt],
) -> Result<Option<Made>, NoMemory>
    requires hyps { AreInRange file.now.tests file.now.actions file.now.hyps }
    requires cond { IsCondInRange file.now.tests file.now.vars (cond_tree cond.now) }
    ensures { IfOk result (FindsLeast file.now (assert (cond_tree cond.now) ∷ map stmt_tree rest.now) 1 9) }
{
    if !holds_always(alloc, file, cond)? {
        return Ok(None);
    }
    let list = copies_of(alloc, rest)?;
    Ok(Some(Made { step: 3, list }))
}

// The last statement that both blocks of an `if` share, and what precedes it in each.
#[derive(Drop)]
struct SharedEnd {
    first: Prog,
    second: Prog,
    last: Stmt,
}

// Returns copies of a statement and of what precedes it in each block.
fn copied_end(
    alloc: Global,
    front: &[Stmt],
    other_front: &[Stmt],
    last: &Stmt,
) -> Result<SharedEnd, NoMemory>
    ensures first { IfOk result (λ e. stmts_of e.first ≡ map stmt_tree front.now) }
    ensures second { IfOk result (λ e. stmts_of e.second ≡ map stmt_tree other_front.now) }
    ensures last { IfOk result (λ e. stmt_tree e.last ≡ stmt_tree last.now) }
{
    let first = prog_of(alloc, front)?;
    let second = prog_of(alloc, other_front)?;
    let last = copy_stmt(alloc, last)?;
    Ok(SharedEnd {
        first,
        second,
        last,
    })
}

fn shared_end(alloc: Global, first: &Prog, second: &Prog) -> Result<Option<SharedEnd>, NoMemory>
    ensures { IfOk result (FindsSharedEnd first.now second.now) }
{
    let Some((last, front)) = first.list.split_last() else {
        return Ok(None);
    };
    let Some((other, other_front)) = second.list.split_last() else {
        return Ok(None);
    };
    if !is_same_stmt(alloc, last, other)? {
        return Ok(None);
    }
    Ok(Some(copied_end(alloc, front, other_front, last)?))
}

// Tries S8 at an `if`.
fn shared_end_step(
    alloc: Global,
    cond: &Cond,
    first: &Prog,
    second: &Prog,
    rest: &[Stmt],
) -> Result<Option<Made>, NoMemory>
    ensures { IfOk result (λ r. (f : FileParts) → FindsLeast f (branch (cond_tree cond.now) first.now second.now ∷ map stmt_tree rest.now) 8 9 r) }
{
    match shared_end(alloc, first, second)? {
        None => Ok(None),
        Some(
            SharedEnd {
                first,
                second,
                last,
            },
        ) => {
            let stmt = branch_of(alloc, cond, first, second)?;
            let list = list_of_two(alloc, stmt, last, rest)?;
            Ok(Some(Made { step: 8, list }))
        }
    }
}

// Tries S4, S5, S7 and S8 at an `if`.
fn if_step(
    alloc: Global,
    file: &File,
    cond: &Cond,
    first: &Prog,
    second: &Prog,
    rest: &[Stmt],
) -> Result<Option<Made>, NoMemory>
    requires hyps { AreInRange file.now.tests file.now.actions file.now.hyps }
    requires cond { IsCondInRange file.now.tests file.now.vars (cond_tree cond.now) }
    ensures { IfOk result (FindsLeast file.now (branch (cond_tree cond.now) first.now second.now ∷ map stmt_tree rest.now) 1 9) }
{
    if holds_always(alloc, file, cond)? {
        let list = joined_list(alloc, &first.list, rest)?;
        return Ok(Some(Made { step: 4, list }));
    }
    if holds_never(alloc, file, cond)? {
        let list = joined_list(alloc, &second.list, rest)?;
        return Ok(Some(Made { step: 5, list }));
    }
    if first.same(second) {
        let list = joined_list(alloc, &first.list, rest)?;
        return Ok(Some(Made { step: 7, list }));
    }
    shared_end_step(alloc, cond, first, second, rest)
}

// Tries S6 at a `while`.
fn while_step(
    alloc: Global,
    file: &File,
    cond: &Cond,
    body: &Prog,
    rest: &[Stmt],
) -> Result<Option<Made>, NoMemory>
    requires hyps { AreInRange file.now.tests file.now.actions file.now.hyps }
    requires cond { IsCondInRange file.now.tests file.now.vars (cond_tree cond.now) }
    ensures { IfOk result (FindsLeast file.now (loop (cond_tree cond.now) body.now ∷ map stmt_tree rest.now) 1 9) }
{
    if !holds_never(alloc, file, cond)? {
        return Ok(None);
    }
    let list = copies_of(alloc, rest)?;
    Ok(Some(Made { step: 6, list }))
}

/// Returns the least possible step of S1 to S8 at a statement followed by `rest`, if there is one.
pub(crate) fn step_alone(
    alloc: Global,
    file: &File,
    stmt: &Stmt,
    rest: &[Stmt],
) -> Result<Option<Made>, NoMemory>
    requires hyps { AreInRange file.now.tests file.now.actions file.now.hyps }
    requires stmt { IsStmtInRange file.now (stmt_tree stmt.now) }
    ensures { IfOk result (FindsLeast file.now (stmt_tree stmt.now ∷ map stmt_tree rest.now) 1 9) }
{
    match stmt {
        Stmt::Skip => {
            let list = copies_of(alloc, rest)?;
            Ok(Some(Made { step: 1, list }))
        }
        Stmt::Abort => abort_step(alloc, rest),
        Stmt::Assert(b) => assert_step(alloc, file, b, rest),
        Stmt::Act(_) | Stmt::Assign(_, _) => Ok(None),
        Stmt::If(b, p, q) => if_step(alloc, file, b, p, q, rest),
        Stmt::While(b, p) => while_step(alloc, file, b, p, rest),
    }
}
