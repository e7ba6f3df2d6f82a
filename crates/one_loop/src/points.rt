//! The points of a program, each as the block that a form runs there.
ghost use Rattle.std.specs.Prelude.{◌≡◌, ◌+◌, [], ◌∷◌, ◌++◌, map, IfOk, OnOk, vec_len};
ghost use Rattle.while_lang.specs.Programs.{empty};
ghost use Rattle.while_lang.specs.ProgramViews.{stmt_tree};
ghost use Rattle.one_loop.specs.Working.Machine.{points_of, start_of, stmt_points};
ghost use Rattle.one_loop.specs.Working.Blocks.{block_of};

use crate::blocks::{check_block, fork_block, jump, one_stmt, set_block};
use kat_model::NoMemory;
use std::alloc::Global;
use while_lang::{Prog, Stmt};

// Appends the block of a point, and returns the number of the point.
fn push_block(blocks: &mut Vec<Prog>, block: Prog) -> Result<u64, NoMemory>
    ensures number { IfOk result (λ k. k ≡ vec_len blocks.old + 1) }
    ensures blocks { OnOk result (blocks.new.items ≡ blocks.old.items ++ block ∷ []) }
{
    blocks.push(block)?;
    Ok(blocks.len() as u64)
}

// Appends a point whose block is not known yet, and returns its number.
fn push_place(alloc: Global, blocks: &mut Vec<Prog>) -> Result<u64, NoMemory>
    ensures number { IfOk result (λ k. k ≡ vec_len blocks.old + 1) }
    ensures blocks { OnOk result (blocks.new.items ≡ blocks.old.items ++ empty ∷ []) }
{
    let list = Vec::new(alloc);
    push_block(blocks, Prog { list })
}

// Appends the points of a statement, its own before those of its blocks, and returns the number of its own point. The
// body of a loop is followed by the loop.
#[cycle(points)]
fn add_stmt(
    alloc: Global,
    counter: usize,
    stmt: &Stmt,
    next: u64,
    blocks: &mut Vec<Prog>,
) -> Result<u64, NoMemory>
    ensures number { IfOk result (λ k. k ≡ vec_len blocks.old + 1) }
    ensures blocks { OnOk result (blocks.new.items ≡ blocks.old.items
        ++ map (block_of counter) (stmt_points (stmt_tree stmt.now) (vec_len blocks.old) next)) }
{
    match stmt {
        Stmt::Skip => push_block(blocks, one_stmt(alloc, jump(counter, next))?),
        Stmt::Abort | Stmt::Act(_) => push_block(blocks, one_stmt(alloc, Stmt::Abort)?),
        Stmt::Assert(b) => push_block(blocks, check_block(alloc, counter, b, next)?),
        Stmt::Assign(x, e) => push_block(blocks, set_block(alloc, counter, *x, e, next)?),
        Stmt::If(b, p, q) => {
            let own = blocks.len();
            let number = push_place(alloc, blocks)?;
            let met = add_points(alloc, counter, p, next, blocks)?;
            let unmet = add_points(alloc, counter, q, next, blocks)?;
            blocks[own] = fork_block(alloc, counter, b, met, unmet)?;
            Ok(number)
        }
        Stmt::While(b, p) => {
            let own = blocks.len();
            let number = push_place(alloc, blocks)?;
            let inside = add_points(alloc, counter, p, number, blocks)?;
            blocks[own] = fork_block(alloc, counter, b, inside, next)?;
            Ok(number)
        }
    }
}

// Appends the points of a program, its last statement first, and returns the number of the point at which it starts.
// Points are numbered from the last statement to the first, with 0 as the end, so that the next point is known before a
// statement is, and every number up to the greatest of the width serves. The point of a loop stays free until its block
// is done.
#[cycle(points)]
pub(crate) fn add_points(
    alloc: Global,
    counter: usize,
    prog: &Prog,
    next: u64,
    blocks: &mut Vec<Prog>,
) -> Result<u64, NoMemory>
    ensures start { IfOk result (λ k. k ≡ start_of prog.now (vec_len blocks.old) next) }
    ensures blocks { OnOk result (blocks.new.items ≡ blocks.old.items ++ map (block_of counter) (points_of prog.now (vec_len blocks.old) next)) }
{
    let mut follow = next;
    for i in (0..prog.list.len()).rev() {
        follow = add_stmt(alloc, counter, &prog.list[i], follow, blocks)?;
    }
    Ok(follow)
}
