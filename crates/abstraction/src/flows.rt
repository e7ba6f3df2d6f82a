//! Programs as flows over the rows of tables.
ghost use Rattle.std.specs.Prelude.{◌≡◌, [], ◌∷◌, ◌++◌, map, IfOk, OnOk};
ghost use Rattle.kat_model.specs.Expressions.{expr_tree};
ghost use Rattle.kat_model.specs.Stores.{modulus};
ghost use Rattle.linear_forms.specs.Arithmetic.{normal_form};
ghost use Rattle.while_lang.specs.ProgramViews.{stmt_tree};
ghost use Rattle.while_lang.specs.FlowViews.{flow_stmt};
ghost use Rattle.abstraction.specs.Tests.{assignment_action, prog_flow};
ghost use Rattle.abstraction.specs.Working.StatementFlows.{stmt_flow};

use crate::assignments::assigned_form;
use crate::conditions::cond_test;
use crate::tables::Numbering;
use kat_model::{Expr, NoMemory};
use std::alloc::Global;
use while_lang::{Flow, Flows, Prog, Stmt};

// Appends a statement.
fn push_flow(list: &mut Vec<Flow>, flow: Flow) -> Result<(), NoMemory>
    ensures { OnOk result (map flow_stmt list.new.items ≡ map flow_stmt list.old.items ++ flow_stmt flow ∷ []) }
{
    Ok(list.push(flow)?)
}

// Returns the action of an assignment; an assignment that is not a row counts as action 0.
fn assignment_action<T: Numbering>(
    alloc: Global,
    tables: &T,
    var: usize,
    expr: &Expr,
) -> Result<usize, NoMemory>
    ensures { IfOk result (λ k. k ≡ assignment_action (T.tables tables.now) (record { var = var; form = normal_form (modulus (T.tables tables.now).width) (expr_tree expr.now) })) }
{
    let assigned = assigned_form(alloc, tables.width(), var, expr)?;
    Ok(tables.action_number(&assigned).unwrap_or(0))
}

#[cycle(flows)]
fn stmt_flow<T: Numbering>(alloc: Global, tables: &T, stmt: &Stmt) -> Result<Flow, NoMemory>
    ensures { IfOk result (λ s. flow_stmt s ≡ stmt_flow (T.tables tables.now) (stmt_tree stmt.now)) }
{
    match stmt {
        Stmt::Skip => Ok(Flow::Skip),
        Stmt::Abort => Ok(Flow::Abort),
        Stmt::Assert(b) => Ok(Flow::Assert(cond_test(alloc, tables, b)?)),
        Stmt::Act(a) => Ok(Flow::Act(*a)),
        Stmt::Assign(x, e) => Ok(Flow::Act(assignment_action(alloc, tables, *x, e)?)),
        Stmt::If(b, p, q) => {
            let test = cond_test(alloc, tables, b)?;
            let first = prog_flow(alloc, tables, p)?;
            let second = prog_flow(alloc, tables, q)?;
            Ok(Flow::If(test, first, second))
        }
        Stmt::While(b, p) => {
            let test = cond_test(alloc, tables, b)?;
            let body = prog_flow(alloc, tables, p)?;
            Ok(Flow::While(test, body))
        }
    }
}

/// Builds the flow of a program: its conditions as tests, and its assignments as actions. A comparison that is not a row
/// counts as false, and an assignment that is not a row as action 0. Fails only when out of memory.
#[cycle(flows)]
pub(crate) fn prog_flow<T: Numbering>(
    alloc: Global,
    tables: &T,
    prog: &Prog,
) -> Result<Flows, NoMemory>
    ensures { IfOk result (λ f. f ≡ prog_flow (T.tables tables.now) prog.now) }
{
    let mut list = Vec::new(alloc);
    for stmt in &prog.list {
        push_flow(&mut list, stmt_flow(alloc, tables, stmt)?)?;
    }
    Ok(Flows { list })
}
