//! The sizes of programs.
ghost use Rattle.std.specs.Prelude.{◌≡◌};
ghost use Rattle.kat_model.specs.Expressions.{expr_tree, cond_tree};
ghost use Rattle.kat_model.specs.Problems.{counted};
ghost use Rattle.text_parser.specs.Sizes.{expr_size, cond_size};
ghost use Rattle.while_lang.specs.Programs.{with_stmt, empty};
ghost use Rattle.while_lang.specs.ProgramViews.{stmt_tree};
ghost use Rattle.while_lang.specs.ProgramSizes.{prog_size};

use crate::prog::{Prog, Stmt};
use kat_model::{Cond, Expr};

fn expr_size(expr: &Expr) -> u64
    ensures { result ≡ counted (expr_size (expr_tree expr.now)) }
{
    match expr {
        Expr::Num(_) | Expr::Var(_) => 1,
        Expr::Add(e, f) | Expr::Sub(e, f) | Expr::Mul(e, f) => expr_size(e)
            .saturating_add(expr_size(f))
            .saturating_add(1),
    }
}

fn cond_size(cond: &Cond) -> u64
    ensures { result ≡ counted (cond_size (cond_tree cond.now)) }
{
    match cond {
        Cond::True | Cond::False | Cond::Test(_) => 1,
        Cond::Compare(_, e, f) => expr_size(e).saturating_add(expr_size(f)).saturating_add(1),
        Cond::Not(b) => cond_size(b).saturating_add(1),
        Cond::And(b, c) | Cond::Or(b, c) => cond_size(b)
            .saturating_add(cond_size(c))
            .saturating_add(1),
    }
}

#[cycle(sizes)]
fn stmt_size(stmt: &Stmt) -> u64
    ensures { result ≡ counted (prog_size (with_stmt (stmt_tree stmt.now) empty)) }
{
    match stmt {
        Stmt::Skip | Stmt::Abort | Stmt::Act(_) => 1,
        Stmt::Assert(b) => cond_size(b).saturating_add(1),
        Stmt::Assign(_, e) => expr_size(e).saturating_add(1),
        Stmt::If(b, p, q) => cond_size(b)
            .saturating_add(prog_size(p))
            .saturating_add(prog_size(q))
            .saturating_add(1),
        Stmt::While(b, p) => cond_size(b).saturating_add(prog_size(p)).saturating_add(1),
    }
}

/// Returns the number of nodes of a program, at most `u64::MAX`.
#[cycle(sizes)]
pub(crate) fn prog_size(prog: &Prog) -> u64
    ensures { result ≡ counted (prog_size prog.now) }
{
    let mut total: u64 = 0;
    for stmt in &prog.list {
        total = total.saturating_add(stmt_size(stmt));
    }
    total
}
