//! A step found in a list, with its path.
ghost use Rattle.std.specs.Prelude.{◌≡◌, ◌+◌, ◌<◌, [], ◌∷◌, ◌++◌, length, take, drop, IfOk, map};
ghost use Rattle.kat_model.specs.Expressions.{cond_tree};
ghost use Rattle.while_lang.specs.Programs.{branch, loop};
ghost use Rattle.while_lang.specs.ProgramViews.{stmt_tree, list_tree};

use crate::copies::{branch_of, copies_of, joined_list, push_copies};
use crate::rewriting::Made;
use kat_model::{Cond, NoMemory};
use std::alloc::Global;
use while_lang::{Prog, Stmt, push_stmt};

/// The number of a step, its place, and the list after it.
#[derive(Drop)]
pub(crate) struct Found {
    pub step: u8,
    pub path: Vec<usize>,
    pub list: Vec<Stmt>,
}

/// Returns the step `made` at the position after `front`.
pub(crate) fn found_here(alloc: Global, front: &[Stmt], made: &Made) -> Result<Found, NoMemory>
    ensures step { IfOk result (λ m. m.step ≡ made.now.step) }
    ensures path { IfOk result (λ m. m.path.items ≡ length front.now ∷ []) }
    ensures list { IfOk result (λ m. map stmt_tree m.list.items ≡ map stmt_tree front.now ++ map stmt_tree made.now.list.items) }
{
    let mut path = Vec::new(alloc);
    path.push(front.len())?;
    let list = joined_list(alloc, front, &made.list)?;
    Ok(Found {
        step: made.step,
        path,
        list,
    })
}

// Returns the path to a place inside a block of the statement at a position.
fn path_inside(
    alloc: Global,
    position: usize,
    block: usize,
    path: &[usize],
) -> Result<Vec<usize>, NoMemory>
    ensures { IfOk result (λ v. v.items ≡ position ∷ block ∷ path.now) }
{
    let mut whole = Vec::new(alloc);
    whole.push(position)?;
    whole.push(block)?;
    whole.extend_from_slice(path)?;
    Ok(whole)
}

// Returns the list with the statement at a position replaced.
fn list_with(
    alloc: Global,
    list: &[Stmt],
    position: usize,
    stmt: Stmt,
) -> Result<Vec<Stmt>, NoMemory>
    requires { position < length list.now }
    ensures { IfOk result (λ v. map stmt_tree v.items ≡ take position (map stmt_tree list.now) ++ stmt_tree stmt ∷ drop (position + 1) (map stmt_tree list.now)) }
{
    let mut whole = copies_of(alloc, &list[..position])?;
    push_stmt(&mut whole, stmt)?;
    push_copies(alloc, &mut whole, &list[position + 1..])?;
    Ok(whole)
}

// Returns a step inside a block of the statement at `position`; the step replaces that statement by `stmt`.
fn found_inside(
    alloc: Global,
    list: &[Stmt],
    position: usize,
    block: usize,
    stmt: Stmt,
    step: u8,
    path: &[usize],
) -> Result<Found, NoMemory>
    requires { position < length list.now }
    ensures step { IfOk result (λ m. m.step ≡ step) }
    ensures path { IfOk result (λ m. m.path.items ≡ position ∷ block ∷ path.now) }
    ensures list { IfOk result (λ m. map stmt_tree m.list.items ≡ take position (map stmt_tree list.now) ++ stmt_tree stmt ∷ drop (position + 1) (map stmt_tree list.now)) }
{
    let path = path_inside(alloc, position, block, path)?;
    let list = list_with(alloc, list, position, stmt)?;
    Ok(Found { step, path, list })
}

// Returns an `if` over the first block, with copies of the condition and of the second.
fn with_first(alloc: Global, cond: &Cond, first: Prog, second: &Prog) -> Result<Stmt, NoMemory>
    ensures { IfOk result (λ s. stmt_tree s ≡ branch (cond_tree cond.now) first second.now) }
{
    let second = second.copy(alloc)?;
    branch_of(alloc, cond, first, second)
}

// Returns an `if` over the second block, with copies of the condition and of the first.
fn with_second(alloc: Global, cond: &Cond, first: &Prog, second: Prog) -> Result<Stmt, NoMemory>
    ensures { IfOk result (λ s. stmt_tree s ≡ branch (cond_tree cond.now) first.now second) }
{
    let first = first.copy(alloc)?;
    branch_of(alloc, cond, first, second)
}

/// Returns the step `inner` of the first block of the `if` at `position`, as a step of the list.
pub(crate) fn found_in_first(
    alloc: Global,
    list: &[Stmt],
    position: usize,
    cond: &Cond,
    inner: Found,
    second: &Prog,
) -> Result<Found, NoMemory>
    requires { position < length list.now }
    ensures step { IfOk result (λ m. m.step ≡ inner.step) }
    ensures path { IfOk result (λ m. m.path.items ≡ position ∷ 0 ∷ inner.path.items) }
    ensures list { IfOk result (λ m. map stmt_tree m.list.items ≡ take position (map stmt_tree list.now) ++ branch (cond_tree cond.now) (list_tree inner.list.items) second.now ∷ drop (position + 1) (map stmt_tree list.now)) }
{
    let Found {
        step,
        path,
        list: block,
    } = inner;
    let stmt = with_first(alloc, cond, Prog { list: block }, second)?;
    found_inside(alloc, list, position, 0, stmt, step, &path)
}

/// The same for the second block.
pub(crate) fn found_in_second(
    alloc: Global,
    list: &[Stmt],
    position: usize,
    cond: &Cond,
    first: &Prog,
    inner: Found,
) -> Result<Found, NoMemory>
    requires { position < length list.now }
    ensures step { IfOk result (λ m. m.step ≡ inner.step) }
    ensures path { IfOk result (λ m. m.path.items ≡ position ∷ 1 ∷ inner.path.items) }
    ensures list { IfOk result (λ m. map stmt_tree m.list.items ≡ take position (map stmt_tree list.now) ++ branch (cond_tree cond.now) first.now (list_tree inner.list.items) ∷ drop (position + 1) (map stmt_tree list.now)) }
{
    let Found {
        step,
        path,
        list: block,
    } = inner;
    let stmt = with_second(alloc, cond, first, Prog { list: block })?;
    found_inside(alloc, list, position, 1, stmt, step, &path)
}

/// The same for the block of the `while` at `position`.
pub(crate) fn found_in_body(
    alloc: Global,
    list: &[Stmt],
    position: usize,
    cond: &Cond,
    inner: Found,
) -> Result<Found, NoMemory>
    requires { position < length list.now }
    ensures step { IfOk result (λ m. m.step ≡ inner.step) }
    ensures path { IfOk result (λ m. m.path.items ≡ position ∷ 0 ∷ inner.path.items) }
    ensures list { IfOk result (λ m. map stmt_tree m.list.items ≡ take position (map stmt_tree list.now) ++ loop (cond_tree cond.now) (list_tree inner.list.items) ∷ drop (position + 1) (map stmt_tree list.now)) }
{
    let Found {
        step,
        path,
        list: block,
    } = inner;
    let stmt = Stmt::While(cond.copy(alloc)?, Prog { list: block });
    found_inside(alloc, list, position, 0, stmt, step, &path)
}
