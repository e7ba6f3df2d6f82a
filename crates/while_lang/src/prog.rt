//! While programs: copies, equality, and which programs have runs on stores.
ghost use Rattle.std.specs.Prelude.{◌≡◌, ◌↔◌, [], ◌∷◌, ◌++◌, IsTrue, IfOk, OnOk, map};
ghost use Rattle.kat_model.specs.Expressions.{cond_tree};
ghost use Rattle.while_lang.specs.Programs.{is_concrete_cond, is_concrete, with_stmt, empty};
ghost use Rattle.while_lang.specs.ProgramViews.{stmt_tree};

use crate::equality::{same_cond, same_expr};
use kat_model::{Cond, Expr, NoMemory, append};
use std::alloc::Global;
use std::marker::Model;

/// A list of statements, executed in order.
#[cycle(prog)]
#[derive(Drop)]
pub struct Prog {
    pub list: Vec<Stmt>,
}

/// A statement. Actions and variables are numbered from 0.
#[cycle(prog)]
pub enum Stmt {
    Skip,
    /// Stops every run.
    Abort,
    /// Stops the run if the condition fails.
    Assert(Cond),
    /// A named action.
    Act(usize),
    /// Sets the variable to the value of the expression.
    Assign(usize, Expr),
    /// Runs the first block if the condition holds, else the second.
    If(Cond, Prog, Prog),
    /// Repeats the block while the condition holds.
    While(Cond, Prog),
}

// Explicit, so that this crate proves it once: a derived drop is a part of the proof of each function that owns a
// statement, with a case for each form at each of its ends.
impl Drop for Stmt {
    #[cycle(prog)]
    fn drop(self) {
        match self {
            Stmt::Skip => {}
            Stmt::Abort => {}
            Stmt::Assert(_cond) => {}
            Stmt::Act(_action) => {}
            Stmt::Assign(_var, _expr) => {}
            Stmt::If(_cond, _first, _second) => {}
            Stmt::While(_cond, _body) => {}
        }
    }
}

impl Model for Prog {
    ghost use Rattle.while_lang.specs.Programs.{ProgTree, statements};
    ghost use Rattle.while_lang.specs.ProgramCodes.{coded_prog};

    ghost Value = { ProgTree };

    ghost coded = { coded_prog };

    ghost use Rattle.while_lang.specs.ProgramViews.{list_tree};

    ghost view = { λ p. list_tree p.list.items };

    ghost size = { statements };

    ghost use Rattle.std.proofs.Common.{arith};
    ghost use Rattle.while_lang.specs.ProgramFalls.{stmts_fall};

    ghost size_decreases = { λ a h. Prim.omega (arith, stmts_fall a.list.items) };
}

/// Appends a statement. Fails only when out of memory.
pub fn push_stmt(list: &mut Vec<Stmt>, stmt: Stmt) -> Result<(), NoMemory>
    ensures { OnOk result (map stmt_tree list.new.items ≡ map stmt_tree list.old.items ++ stmt_tree stmt ∷ []) }
{
    append(list, stmt)
}

/// Copies a statement. Fails only when out of memory.
#[cycle(copies)]
pub fn copy_stmt(alloc: Global, stmt: &Stmt) -> Result<Stmt, NoMemory>
    ensures { IfOk result (λ s. stmt_tree s ≡ stmt_tree stmt.now) }
{
    match stmt {
        Stmt::Skip => Ok(Stmt::Skip),
        Stmt::Abort => Ok(Stmt::Abort),
        Stmt::Assert(b) => Ok(Stmt::Assert(b.copy(alloc)?)),
        Stmt::Act(a) => Ok(Stmt::Act(*a)),
        Stmt::Assign(x, e) => Ok(Stmt::Assign(*x, e.copy(alloc)?)),
        Stmt::If(b, p, q) => {
            let cond = b.copy(alloc)?;
            let first = p.copy(alloc)?;
            let second = q.copy(alloc)?;
            Ok(Stmt::If(cond, first, second))
        }
        Stmt::While(b, p) => {
            let cond = b.copy(alloc)?;
            let body = p.copy(alloc)?;
            Ok(Stmt::While(cond, body))
        }
    }
}

#[cycle(equals)]
fn same_stmt(left: &Stmt, right: &Stmt) -> bool
    ensures { IsTrue result ↔ (stmt_tree left.now ≡ stmt_tree right.now) }
{
    match (left, right) {
        (Stmt::Skip, Stmt::Skip) | (Stmt::Abort, Stmt::Abort) => true,
        (Stmt::Assert(b), Stmt::Assert(c)) => same_cond(b, c),
        (Stmt::Act(a), Stmt::Act(b)) => a == b,
        (Stmt::Assign(x, e), Stmt::Assign(y, f)) => x == y && same_expr(e, f),
        (Stmt::If(b, p, q), Stmt::If(c, r, s)) => same_cond(b, c) && p.same(r) && q.same(s),
        (Stmt::While(b, p), Stmt::While(c, q)) => same_cond(b, c) && p.same(q),
        _ => false,
    }
}

fn is_concrete_cond(cond: &Cond) -> bool
    ensures { result ≡ is_concrete_cond (cond_tree cond.now) }
{
    match cond {
        Cond::True | Cond::False | Cond::Compare(_, _, _) => true,
        Cond::Test(_) => false,
        Cond::Not(b) => is_concrete_cond(b),
        Cond::And(b, c) | Cond::Or(b, c) => is_concrete_cond(b) && is_concrete_cond(c),
    }
}

#[cycle(concretes)]
fn is_concrete_stmt(stmt: &Stmt) -> bool
    ensures { result ≡ is_concrete (with_stmt (stmt_tree stmt.now) empty) }
{
    match stmt {
        Stmt::Skip | Stmt::Abort | Stmt::Assign(_, _) => true,
        Stmt::Assert(b) => is_concrete_cond(b),
        Stmt::Act(_) => false,
        Stmt::If(b, p, q) => is_concrete_cond(b) && p.concrete() && q.concrete(),
        Stmt::While(b, p) => is_concrete_cond(b) && p.concrete(),
    }
}

impl Prog {
    /// Copies a program. Fails only when out of memory.
    #[cycle(copies)]
    pub fn copy(&self, alloc: Global) -> Result<Prog, NoMemory>
        ensures { IfOk result (λ p. p ≡ self.now) }
    {
        let mut list = Vec::new(alloc);
        for stmt in &self.list {
            push_stmt(&mut list, copy_stmt(alloc, stmt)?)?;
        }
        Ok(Prog { list })
    }

    /// Whether both programs have the same tree. Takes no memory.
    #[cycle(equals)]
    pub fn same(&self, other: &Prog) -> bool
        ensures { IsTrue result ↔ (self.now ≡ other.now) }
    {
        if self.list.len() != other.list.len() {
            return false;
        }
        for i in 0..self.list.len() {
            if !same_stmt(&self.list[i], &other.list[i]) {
                return false;
            }
        }
        true
    }

    /// Whether the program has no named test and no named action, so that it has runs on stores. Takes no memory.
    #[cycle(concretes)]
    pub fn concrete(&self) -> bool
        ensures { result ≡ is_concrete self.now }
    {
        for stmt in &self.list {
            if !is_concrete_stmt(stmt) {
                return false;
            }
        }
        true
    }
}
