//! The numbers of which stores are made.
ghost use Rattle.std.specs.Prelude.{◌≡◌, ◌↔◌, ◌<◌, ◌++◌, ℕ, length, All, Contains, OnOk, IfOk};
ghost use Rattle.std.specs.List.Sorted.{IsStrictlyIncreasing};
ghost use Rattle.kat_model.specs.Expressions.{expr_tree, cond_tree};
ghost use Rattle.kat_model.specs.Stores.{modulus};
ghost use Rattle.while_lang.specs.Trees.{goal_tree, side_tree};
ghost use Rattle.while_lang.specs.Programs.{empty, with_stmt};
ghost use Rattle.while_lang.specs.ProgramViews.{stmt_tree};
ghost use Rattle.store_trials.specs.Numbers.{expr_numbers, cond_numbers, prog_numbers, side_numbers, goal_numbers, near, tried, AreTriedNumbers};

use kat_model::{Cond, Expr, NoMemory, Width};
use std::alloc::Global;
use while_lang::{Goal, Prog, Side, Stmt};

fn add_expr(expr: &Expr, out: &mut Vec<u64>) -> Result<(), NoMemory>
    ensures { OnOk result (out.new.items ≡ out.old.items ++ expr_numbers (expr_tree expr.now)) }
{
    match expr {
        Expr::Num(n) => Ok(out.push(*n)?),
        Expr::Var(_) => Ok(()),
        Expr::Add(e, f) | Expr::Sub(e, f) | Expr::Mul(e, f) => {
            add_expr(e, out)?;
            add_expr(f, out)
        }
    }
}

fn add_cond(cond: &Cond, out: &mut Vec<u64>) -> Result<(), NoMemory>
    ensures { OnOk result (out.new.items ≡ out.old.items ++ cond_numbers (cond_tree cond.now)) }
{
    match cond {
        Cond::True | Cond::False | Cond::Test(_) => Ok(()),
        Cond::Compare(_, e, f) => {
            add_expr(e, out)?;
            add_expr(f, out)
        }
        Cond::Not(b) => add_cond(b, out),
        Cond::And(b, c) | Cond::Or(b, c) => {
            add_cond(b, out)?;
            add_cond(c, out)
        }
    }
}

#[cycle(numbers)]
fn add_stmt(stmt: &Stmt, out: &mut Vec<u64>) -> Result<(), NoMemory>
    ensures { OnOk result (out.new.items ≡ out.old.items ++ prog_numbers (with_stmt (stmt_tree stmt.now) empty)) }
{
    match stmt {
        Stmt::Skip | Stmt::Abort | Stmt::Act(_) => Ok(()),
        Stmt::Assert(b) => add_cond(b, out),
        Stmt::Assign(_, e) => add_expr(e, out),
        Stmt::If(b, p, q) => {
            add_cond(b, out)?;
            add_prog(p, out)?;
            add_prog(q, out)
        }
        Stmt::While(b, p) => {
            add_cond(b, out)?;
            add_prog(p, out)
        }
    }
}

#[cycle(numbers)]
fn add_prog(prog: &Prog, out: &mut Vec<u64>) -> Result<(), NoMemory>
    ensures { OnOk result (out.new.items ≡ out.old.items ++ prog_numbers prog.now) }
{
    for stmt in &prog.list {
        add_stmt(stmt, out)?;
    }
    Ok(())
}

fn add_side(side: &Side, out: &mut Vec<u64>) -> Result<(), NoMemory>
    ensures { OnOk result (out.new.items ≡ out.old.items ++ side_numbers (side_tree side.now)) }
{
    match side {
        Side::Term(_) => Ok(()),
        Side::Prog(prog) => add_prog(prog, out),
    }
}

// Returns the numbers of a goal, in text order.
fn goal_numbers(alloc: Global, goal: &Goal) -> Result<Vec<u64>, NoMemory>
    ensures { IfOk result (λ v. v.items ≡ goal_numbers (goal_tree goal.now)) }
{
    let mut out = Vec::new(alloc);
    match goal {
        Goal::Equal(s, t) | Goal::Below(s, t) => {
            add_side(s, &mut out)?;
            add_side(t, &mut out)?;
        }
        Goal::Triple(b, s, c) => {
            add_cond(b, &mut out)?;
            add_side(s, &mut out)?;
            add_cond(c, &mut out)?;
        }
    }
    Ok(out)
}

// Appends a number of the width, the one after it and the one before it.
fn add_near(width: Width, number: u64, out: &mut Vec<u64>) -> Result<(), NoMemory>
    ensures { OnOk result (out.new.items ≡ out.old.items ++ near (modulus width) number) }
{
    out.push(width.residue(number))?;
    out.push(width.add(number, 1))?;
    Ok(out.push(width.add(number, width.greatest()))?)
}

// Returns 0, 1, 2, the greatest number of the width, and the numbers near those of the list.
fn tried(alloc: Global, width: Width, numbers: &[u64]) -> Result<Vec<u64>, NoMemory>
    ensures { IfOk result (λ v. v.items ≡ tried width numbers.now) }
{
    let mut out = vec![in alloc; 0, 1, 2, width.greatest()]?;
    for number in numbers {
        add_near(width, *number, &mut out)?;
    }
    Ok(out)
}

// Returns the numbers of the list, ascending.
fn ascending(mut numbers: Vec<u64>) -> Vec<u64>
    ensures ascending { IsStrictlyIncreasing result.items }
    ensures members { (n : ℕ) → Contains result.items n ↔ Contains numbers.items n }
{
    numbers.sort_unstable();
    numbers.dedup();
    numbers
}

/// Returns the numbers of which stores are made to try a goal: 0, 1, 2, the greatest number of the width, and each number
/// of the goal with the one before it and the one after it, ascending. Fails only when out of memory.
pub fn tried_numbers(alloc: Global, width: Width, goal: &Goal) -> Result<Vec<u64>, NoMemory>
    ensures numbers { IfOk result (λ v. AreTriedNumbers width (goal_tree goal.now) v.items) }
    ensures some { IfOk result (λ v. 0 < length v.items) }
    ensures within { IfOk result (λ v. All (λ n. n < modulus width) v.items) }
{
    let numbers = goal_numbers(alloc, goal)?;
    let near = tried(alloc, width, &numbers)?;
    Ok(ascending(near))
}
