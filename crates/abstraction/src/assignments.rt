//! The assignments of a goal in text order, as rows of a table.
ghost use Rattle.std.specs.Prelude.{◌≡◌, [], ◌∷◌, IfOk, OnOk};
ghost use Rattle.kat_model.specs.Expressions.{expr_tree};
ghost use Rattle.kat_model.specs.Stores.{modulus};
ghost use Rattle.linear_forms.specs.Arithmetic.{normal_form};
ghost use Rattle.while_lang.specs.Programs.{with_stmt, empty};
ghost use Rattle.while_lang.specs.ProgramViews.{stmt_tree};
ghost use Rattle.while_lang.specs.Trees.{side_tree, goal_tree};
ghost use Rattle.abstraction.specs.Comparisons.{prog_assignments, side_assignments, goal_assignments};
ghost use Rattle.abstraction.specs.Tables.{is_same_assignment};
ghost use Rattle.kat_model.specs.UniqueRows.{with_all_new_within};

use crate::tables::AssignedForm;
use kat_model::{Expr, NoMemory, Width, add_row};
use linear_forms::normal;
use std::alloc::Global;
use while_lang::{Goal, Prog, Side, Stmt};

/// Builds the assignment of the normal form of an expression.
pub(crate) fn assigned_form(
    alloc: Global,
    width: Width,
    var: usize,
    expr: &Expr,
) -> Result<AssignedForm, NoMemory>
    ensures { IfOk result (λ a. a ≡ record { var = var; form = normal_form (modulus width) (expr_tree expr.now) }) }
{
    let form = normal(alloc, width, expr)?;
    Ok(AssignedForm { var, form })
}

// Adds the assignment of an expression to a variable.
fn add_assignment(
    alloc: Global,
    width: Width,
    most: usize,
    var: usize,
    expr: &Expr,
    rows: &mut Vec<AssignedForm>,
) -> Result<(), NoMemory>
    ensures { OnOk result (rows.new.items ≡ with_all_new_within most is_same_assignment rows.old.items (record { var = var; form = normal_form (modulus width) (expr_tree expr.now) } ∷ [])) }
{
    let assigned = assigned_form(alloc, width, var, expr)?;
    add_row(rows, most, assigned)
}

#[cycle(assignments)]
fn add_stmt(
    alloc: Global,
    width: Width,
    most: usize,
    stmt: &Stmt,
    rows: &mut Vec<AssignedForm>,
) -> Result<(), NoMemory>
    ensures { OnOk result (rows.new.items ≡ with_all_new_within most is_same_assignment rows.old.items (prog_assignments (modulus width) (with_stmt (stmt_tree stmt.now) empty))) }
{
    match stmt {
        Stmt::Skip | Stmt::Abort | Stmt::Assert(_) | Stmt::Act(_) => Ok(()),
        Stmt::Assign(x, e) => {
            if rows.len() > most {
                return Ok(());
            }
            add_assignment(alloc, width, most, *x, e, rows)
        }
        Stmt::If(_, p, q) => {
            add_prog(alloc, width, most, p, rows)?;
            add_prog(alloc, width, most, q, rows)
        }
        Stmt::While(_, p) => add_prog(alloc, width, most, p, rows),
    }
}

#[cycle(assignments)]
fn add_prog(
    alloc: Global,
    width: Width,
    most: usize,
    prog: &Prog,
    rows: &mut Vec<AssignedForm>,
) -> Result<(), NoMemory>
    ensures { OnOk result (rows.new.items ≡ with_all_new_within most is_same_assignment rows.old.items (prog_assignments (modulus width) prog.now)) }
{
    for stmt in &prog.list {
        // A table past its limit accepts no more rows.
        if rows.len() > most {
            return Ok(());
        }
        add_stmt(alloc, width, most, stmt, rows)?;
    }
    Ok(())
}

fn add_side(
    alloc: Global,
    width: Width,
    most: usize,
    side: &Side,
    rows: &mut Vec<AssignedForm>,
) -> Result<(), NoMemory>
    ensures { OnOk result (rows.new.items ≡ with_all_new_within most is_same_assignment rows.old.items (side_assignments (modulus width) (side_tree side.now))) }
{
    match side {
        Side::Term(_) => Ok(()),
        Side::Prog(prog) => add_prog(alloc, width, most, prog, rows),
    }
}

fn add_goal(
    alloc: Global,
    width: Width,
    most: usize,
    goal: &Goal,
    rows: &mut Vec<AssignedForm>,
) -> Result<(), NoMemory>
    ensures { OnOk result (rows.new.items ≡ with_all_new_within most is_same_assignment rows.old.items (goal_assignments (modulus width) (goal_tree goal.now))) }
{
    match goal {
        Goal::Equal(left, right) | Goal::Below(left, right) => {
            add_side(alloc, width, most, left, rows)?;
            add_side(alloc, width, most, right, rows)
        }
        Goal::Triple(_, body, _) => add_side(alloc, width, most, body, rows),
    }
}

/// Returns the assignments of a goal, each once, in text order, with their expressions in normal form; stops at `most` + 1
/// of them. Fails only when out of memory.
pub(crate) fn first_assignments(
    alloc: Global,
    width: Width,
    most: usize,
    goal: &Goal,
) -> Result<Vec<AssignedForm>, NoMemory>
    ensures { IfOk result (λ v. v.items ≡ with_all_new_within most is_same_assignment [] (goal_assignments (modulus width) (goal_tree goal.now))) }
{
    let mut rows = Vec::new(alloc);
    add_goal(alloc, width, most, goal, &mut rows)?;
    Ok(rows)
}
