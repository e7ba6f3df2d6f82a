//! The steps S11 and S12, which depend on a loop whose body is one statement.
ghost use Rattle.std.specs.Prelude.{◌≡◌, ◌↔◌, ◌∷◌, IsTrue, IfOk, map};
ghost use Rattle.kat_model.specs.Expressions.{negation, cond_tree};
ghost use Rattle.kat_model.specs.Problems.{AreInRange};
ghost use Rattle.while_lang.specs.Files.{FileParts};
ghost use Rattle.while_lang.specs.Ranges.{IsCondInRange, IsProgInRange};
ghost use Rattle.while_lang.specs.Programs.{empty, branch_then, loop_then, branch, loop};
ghost use Rattle.while_lang.specs.ProgramViews.{stmt_tree};
ghost use Rattle.optimiser_steps.specs.Validity.{IsValid};
ghost use Rattle.optimiser_steps.specs.Statements.{single, IsStmtInRange};
ghost use Rattle.optimiser_steps.specs.Working.Found.{FindsLeast};

use crate::copies::{is_same_cond, list_of, single};
use crate::rewriting::Made;
use crate::validity::{keeps, keeps_opposite};
use kat_model::{Cond, NoMemory};
use std::alloc::Global;
use while_lang::{File, Prog, Stmt};

// Returns the program that consists of one loop.
fn loop_of(alloc: Global, cond: &Cond, body: &Prog) -> Result<Prog, NoMemory>
    ensures { IfOk result (λ p. p ≡ single (loop (cond_tree cond.now) body.now)) }
{
    let guard = cond.copy(alloc)?;
    single(alloc, Stmt::While(guard, body.copy(alloc)?))
}

// Returns the `if` of two loops for a loop with an `if` as its body.
fn unswitched_loop(
    alloc: Global,
    guard: &Cond,
    cond: &Cond,
    first: &Prog,
    second: &Prog,
) -> Result<Stmt, NoMemory>
    ensures { IfOk result (λ s. stmt_tree s ≡ branch (cond_tree cond.now) (single (loop (cond_tree guard.now) first.now)) (single (loop (cond_tree guard.now) second.now))) }
{
    let loops = loop_of(alloc, guard, first)?;
    let others = loop_of(alloc, guard, second)?;
    Ok(Stmt::If(cond.copy(alloc)?, loops, others))
}

// Returns the loop with this condition, followed by copies of `rest`.
fn list_of_loop(
    alloc: Global,
    guard: &Cond,
    body: &Prog,
    rest: &[Stmt],
) -> Result<Vec<Stmt>, NoMemory>
    ensures { IfOk result (λ v. map stmt_tree v.items ≡ loop (cond_tree guard.now) body.now ∷ map stmt_tree rest.now) }
{
    let copy = guard.copy(alloc)?;
    list_of(alloc, Stmt::While(copy, body.copy(alloc)?), rest)
}

// Tries S12 at a loop whose body is a loop.
fn loop_inside(
    alloc: Global,
    guard: &Cond,
    cond: &Cond,
    body: &Prog,
    rest: &[Stmt],
) -> Result<Option<Made>, NoMemory>
    ensures { IfOk result (λ r. (f : FileParts) → FindsLeast f (loop (cond_tree guard.now) (loop_then (cond_tree cond.now) body.now empty) ∷ map stmt_tree rest.now) 11 13 r) }
{
    if !is_same_cond(alloc, guard, cond)? {
        return Ok(None);
    }
    let list = list_of_loop(alloc, guard, body, rest)?;
    Ok(Some(Made { step: 12, list }))
}

// Whether `first` preserves the condition and `second` preserves its negation.
fn is_kept(
    alloc: Global,
    file: &File,
    cond: &Cond,
    first: &Prog,
    second: &Prog,
) -> Result<bool, NoMemory>
    requires hyps { AreInRange file.now.tests file.now.actions file.now.hyps }
    requires cond { IsCondInRange file.now.tests file.now.vars (cond_tree cond.now) }
    requires first { IsProgInRange file.now.tests file.now.actions file.now.vars first.now }
    requires second { IsProgInRange file.now.tests file.now.actions file.now.vars second.now }
    ensures { IfOk result (λ kept. IsTrue kept ↔ (IsValid file.now (cond_tree cond.now) first.now (cond_tree cond.now) × IsValid file.now (negation (cond_tree cond.now)) second.now (negation (cond_tree cond.now)))) }
{
    if !keeps(alloc, file, cond, first)? {
        return Ok(false);
    }
    keeps_opposite(alloc, file, cond, second)
}

// Tries S11 and S12 at a loop whose body is an `if`.
fn if_inside(
    alloc: Global,
    file: &File,
    guard: &Cond,
    cond: &Cond,
    first: &Prog,
    second: &Prog,
    rest: &[Stmt],
) -> Result<Option<Made>, NoMemory>
    requires hyps { AreInRange file.now.tests file.now.actions file.now.hyps }
    requires cond { IsCondInRange file.now.tests file.now.vars (cond_tree cond.now) }
    requires first { IsProgInRange file.now.tests file.now.actions file.now.vars first.now }
    requires second { IsProgInRange file.now.tests file.now.actions file.now.vars second.now }
    ensures { IfOk result (FindsLeast file.now (loop (cond_tree guard.now) (branch_then (cond_tree cond.now) first.now second.now empty) ∷ map stmt_tree rest.now) 11 13) }
{
    if is_kept(alloc, file, cond, first, second)? {
        let stmt = unswitched_loop(alloc, guard, cond, first, second)?;
        let list = list_of(alloc, stmt, rest)?;
        return Ok(Some(Made { step: 11, list }));
    }
    if is_same_cond(alloc, guard, cond)? {
        let list = list_of_loop(alloc, guard, first, rest)?;
        return Ok(Some(Made { step: 12, list }));
    }
    Ok(None)
}

// Tries S11 and S12 at a loop.
fn loop_step(
    alloc: Global,
    file: &File,
    guard: &Cond,
    body: &Prog,
    rest: &[Stmt],
) -> Result<Option<Made>, NoMemory>
    requires hyps { AreInRange file.now.tests file.now.actions file.now.hyps }
    requires body { IsProgInRange file.now.tests file.now.actions file.now.vars body.now }
    ensures { IfOk result (FindsLeast file.now (loop (cond_tree guard.now) body.now ∷ map stmt_tree rest.now) 11 13) }
{
    match body.list.as_slice() {
        [] => Ok(None),
        [inner] => match inner {
            Stmt::If(c, p, q) => if_inside(alloc, file, guard, c, p, q, rest),
            Stmt::While(c, p) => loop_inside(alloc, guard, c, p, rest),
            Stmt::Skip | Stmt::Abort | Stmt::Assert(_) | Stmt::Act(_) | Stmt::Assign(_, _) => {
                Ok(None)
            }
        },
        [_, _, ..] => Ok(None),
    }
}

/// Returns the lesser possible step of S11 and S12 at a statement followed by `rest`, if there is one.
pub(crate) fn step_nested(
    alloc: Global,
    file: &File,
    stmt: &Stmt,
    rest: &[Stmt],
) -> Result<Option<Made>, NoMemory>
    requires hyps { AreInRange file.now.tests file.now.actions file.now.hyps }
    requires stmt { IsStmtInRange file.now (stmt_tree stmt.now) }
    ensures { IfOk result (FindsLeast file.now (stmt_tree stmt.now ∷ map stmt_tree rest.now) 11 13) }
{
    match stmt {
        Stmt::While(b, p) => loop_step(alloc, file, b, p, rest),
        Stmt::Skip
        | Stmt::Abort
        | Stmt::Assert(_)
        | Stmt::Act(_)
        | Stmt::Assign(_, _)
        | Stmt::If(_, _, _) => Ok(None),
    }
}
