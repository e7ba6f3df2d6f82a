//! Copies of statements, and equality of statements and conditions.
ghost use Rattle.std.specs.Prelude.{◌≡◌, ◌↔◌, ◌∷◌, ◌++◌, IsTrue, IfOk, OnOk, map};
ghost use Rattle.kat_model.specs.Expressions.{cond_tree};
ghost use Rattle.while_lang.specs.Programs.{assert, branch, stmts_of};
ghost use Rattle.while_lang.specs.ProgramViews.{stmt_tree};
ghost use Rattle.optimiser_steps.specs.Statements.{single};

use kat_model::{Cond, NoMemory};
use std::alloc::Global;
use while_lang::{Prog, Stmt, copy_stmt, push_stmt};

/// Appends copies of `stmts` to `list`.
pub(crate) fn push_copies(
    alloc: Global,
    list: &mut Vec<Stmt>,
    stmts: &[Stmt],
) -> Result<(), NoMemory>
    ensures { OnOk result (map stmt_tree list.new.items ≡ map stmt_tree list.old.items ++ map stmt_tree stmts.now) }
{
    for stmt in stmts {
        push_stmt(list, copy_stmt(alloc, stmt)?)?;
    }
    Ok(())
}

/// Returns copies of the statements.
pub(crate) fn copies_of(alloc: Global, stmts: &[Stmt]) -> Result<Vec<Stmt>, NoMemory>
    ensures { IfOk result (λ v. map stmt_tree v.items ≡ map stmt_tree stmts.now) }
{
    let mut list = Vec::new(alloc);
    push_copies(alloc, &mut list, stmts)?;
    Ok(list)
}

/// Returns the program that consists of copies of the statements.
pub(crate) fn prog_of(alloc: Global, stmts: &[Stmt]) -> Result<Prog, NoMemory>
    ensures { IfOk result (λ p. stmts_of p ≡ map stmt_tree stmts.now) }
{
    Ok(Prog {
        list: copies_of(alloc, stmts)?,
    })
}

/// Returns `stmt`, followed by copies of `rest`.
pub(crate) fn list_of(alloc: Global, stmt: Stmt, rest: &[Stmt]) -> Result<Vec<Stmt>, NoMemory>
    ensures { IfOk result (λ v. map stmt_tree v.items ≡ stmt_tree stmt ∷ map stmt_tree rest.now) }
{
    let mut list = Vec::new(alloc);
    push_stmt(&mut list, stmt)?;
    push_copies(alloc, &mut list, rest)?;
    Ok(list)
}

/// Returns `first` and `second`, followed by copies of `rest`.
pub(crate) fn list_of_two(
    alloc: Global,
    first: Stmt,
    second: Stmt,
    rest: &[Stmt],
) -> Result<Vec<Stmt>, NoMemory>
    ensures { IfOk result (λ v. map stmt_tree v.items ≡ stmt_tree first ∷ stmt_tree second ∷ map stmt_tree rest.now) }
{
    let mut list = Vec::new(alloc);
    push_stmt(&mut list, first)?;
    push_stmt(&mut list, second)?;
    push_copies(alloc, &mut list, rest)?;
    Ok(list)
}

/// Returns an `if` over the two blocks, with a copy of the condition.
pub(crate) fn branch_of(
    alloc: Global,
    cond: &Cond,
    first: Prog,
    second: Prog,
) -> Result<Stmt, NoMemory>
    ensures { IfOk result (λ s. stmt_tree s ≡ branch (cond_tree cond.now) first second) }
{
    Ok(Stmt::If(cond.copy(alloc)?, first, second))
}

/// Returns copies of `first`, followed by copies of `rest`.
pub(crate) fn joined_list(
    alloc: Global,
    first: &[Stmt],
    rest: &[Stmt],
) -> Result<Vec<Stmt>, NoMemory>
    ensures { IfOk result (λ v. map stmt_tree v.items ≡ map stmt_tree first.now ++ map stmt_tree rest.now) }
{
    let mut list = copies_of(alloc, first)?;
    push_copies(alloc, &mut list, rest)?;
    Ok(list)
}

/// Returns the program that consists of this statement.
pub(crate) fn single(alloc: Global, stmt: Stmt) -> Result<Prog, NoMemory>
    ensures { IfOk result (λ p. p ≡ single (stmt_tree stmt)) }
{
    let mut list = Vec::new(alloc);
    push_stmt(&mut list, stmt)?;
    Ok(Prog { list })
}

/// Whether the two statements are the same tree.
pub(crate) fn is_same_stmt(alloc: Global, left: &Stmt, right: &Stmt) -> Result<bool, NoMemory>
    ensures { IfOk result (λ same. IsTrue same ↔ (stmt_tree left.now ≡ stmt_tree right.now)) }
{
    let first = single(alloc, copy_stmt(alloc, left)?)?;
    let second = single(alloc, copy_stmt(alloc, right)?)?;
    Ok(first.same(&second))
}

// Returns the program that asserts a copy of the condition.
fn assertion_of(alloc: Global, cond: &Cond) -> Result<Prog, NoMemory>
    ensures { IfOk result (λ p. p ≡ single (assert (cond_tree cond.now))) }
{
    single(alloc, Stmt::Assert(cond.copy(alloc)?))
}

/// Whether the two conditions are the same tree.
pub(crate) fn is_same_cond(alloc: Global, left: &Cond, right: &Cond) -> Result<bool, NoMemory>
    ensures { IfOk result (λ same. IsTrue same ↔ (cond_tree left.now ≡ cond_tree right.now)) }
{
    let first = assertion_of(alloc, left)?;
    let second = assertion_of(alloc, right)?;
    Ok(first.same(&second))
}
