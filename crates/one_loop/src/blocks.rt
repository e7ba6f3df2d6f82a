//! The statements that a form runs in a turn of its loop.
ghost use Rattle.std.specs.Prelude.{◌≡◌, IfOk};
ghost use Rattle.kat_model.specs.Expressions.{cond_tree, expr_tree, number};
ghost use Rattle.while_lang.specs.Programs.{empty, with_stmt, assign};
ghost use Rattle.while_lang.specs.ProgramViews.{stmt_tree};
ghost use Rattle.one_loop.specs.Working.Machine.{checks, chooses, sets};
ghost use Rattle.one_loop.specs.Working.Blocks.{block_of};

use kat_model::{Cond, Expr, NoMemory};
use std::alloc::Global;
use while_lang::{Prog, Stmt};

// Builds the statement that sets the counter to a point.
pub(crate) fn jump(counter: usize, point: u64) -> Stmt
    ensures { stmt_tree result ≡ assign counter (number point) }
{
    Stmt::Assign(counter, Expr::Num(point))
}

// Builds the program of one statement.
pub(crate) fn one_stmt(alloc: Global, stmt: Stmt) -> Result<Prog, NoMemory>
    ensures { IfOk result (λ p. p ≡ with_stmt (stmt_tree stmt) empty) }
{
    let mut list = Vec::new(alloc);
    list.push(stmt)?;
    Ok(Prog { list })
}

// Builds the program of two statements.
pub(crate) fn two_stmts(alloc: Global, first: Stmt, second: Stmt) -> Result<Prog, NoMemory>
    ensures { IfOk result (λ p. p ≡ with_stmt (stmt_tree first) (with_stmt (stmt_tree second) empty)) }
{
    let mut list = Vec::new(alloc);
    list.push(first)?;
    list.push(second)?;
    Ok(Prog { list })
}

// Builds the block of a check.
pub(crate) fn check_block(
    alloc: Global,
    counter: usize,
    cond: &Cond,
    next: u64,
) -> Result<Prog, NoMemory>
    ensures { IfOk result (λ p. p ≡ block_of counter (checks (cond_tree cond.now) next)) }
{
    let check = Stmt::Assert(cond.copy(alloc)?);
    two_stmts(alloc, check, jump(counter, next))
}

// Builds the block that sets a variable.
pub(crate) fn set_block(
    alloc: Global,
    counter: usize,
    var: usize,
    expr: &Expr,
    next: u64,
) -> Result<Prog, NoMemory>
    ensures { IfOk result (λ p. p ≡ block_of counter (sets var (expr_tree expr.now) next)) }
{
    let set = Stmt::Assign(var, expr.copy(alloc)?);
    two_stmts(alloc, set, jump(counter, next))
}

// Builds the block that continues at one of two points.
pub(crate) fn fork_block(
    alloc: Global,
    counter: usize,
    cond: &Cond,
    yes: u64,
    no: u64,
) -> Result<Prog, NoMemory>
    ensures { IfOk result (λ p. p ≡ block_of counter (chooses (cond_tree cond.now) yes no)) }
{
    let guard = cond.copy(alloc)?;
    let first = one_stmt(alloc, jump(counter, yes))?;
    let second = one_stmt(alloc, jump(counter, no))?;
    one_stmt(alloc, Stmt::If(guard, first, second))
}
