//! The number of statements of a program.
ghost use Rattle.std.specs.Prelude.{◌<◌, ◌^◌};
ghost use Rattle.std.specs.Option.{SomeIff};
ghost use Rattle.while_lang.specs.Programs.{statements, with_stmt, empty};
ghost use Rattle.while_lang.specs.ProgramViews.{stmt_tree};

use while_lang::{Prog, Stmt};

#[cycle(counts)]
fn stmt_count(stmt: &Stmt) -> Option<u64>
    ensures { SomeIff result (statements (with_stmt (stmt_tree stmt.now) empty) < 2 ^ 64) (statements (with_stmt (stmt_tree stmt.now) empty)) }
{
    match stmt {
        Stmt::Skip | Stmt::Abort | Stmt::Assert(_) | Stmt::Act(_) | Stmt::Assign(_, _) => Some(1),
        Stmt::If(_, p, q) => statement_count(p)?
            .checked_add(statement_count(q)?)?
            .checked_add(1),
        Stmt::While(_, p) => statement_count(p)?.checked_add(1),
    }
}

// Returns the number of statements, including those of blocks, or `None` if it exceeds `u64::MAX`. Tests for overflow
// and not for a limit: with width 64 a program of exactly 2^64 - 1 statements has a form, and a longer one does not.
#[cycle(counts)]
pub(crate) fn statement_count(prog: &Prog) -> Option<u64>
    ensures { SomeIff result (statements prog.now < 2 ^ 64) (statements prog.now) }
{
    let mut total: u64 = 0;
    for stmt in &prog.list {
        total = total.checked_add(stmt_count(stmt)?)?;
    }
    Some(total)
}
