//! The comparisons of a goal in text order, as rows of a table.
ghost use Rattle.std.specs.Prelude.{◌≡◌, [], IfOk, OnOk};
ghost use Rattle.kat_model.specs.Expressions.{expr_tree, cond_tree};
ghost use Rattle.kat_model.specs.Stores.{modulus};
ghost use Rattle.linear_forms.specs.Comparisons.{comparison_form};
ghost use Rattle.while_lang.specs.Programs.{with_stmt, empty};
ghost use Rattle.while_lang.specs.ProgramViews.{stmt_tree};
ghost use Rattle.while_lang.specs.Trees.{side_tree, goal_tree};
ghost use Rattle.abstraction.specs.Comparisons.{atomics, cond_comparisons, prog_comparisons, side_comparisons, goal_comparisons};
ghost use Rattle.linear_forms.specs.Sameness.{is_same_comparison};
ghost use Rattle.kat_model.specs.UniqueRows.{with_all_new_within};

use kat_model::{Cond, Expr, NoMemory, Rel, Width, add_row};
use linear_forms::{Atomic, CondForm, normal_cond};
use std::alloc::Global;
use while_lang::{Goal, Prog, Side, Stmt};

// Adds the comparison of a condition form; a constant form has none.
fn add_atomic(cond: CondForm, most: usize, rows: &mut Vec<Atomic>) -> Result<(), NoMemory>
    ensures { OnOk result (rows.new.items ≡ with_all_new_within most is_same_comparison rows.old.items (atomics cond)) }
{
    match cond {
        CondForm::True | CondForm::False => Ok(()),
        CondForm::Pos(atomic) | CondForm::Neg(atomic) => add_row(rows, most, atomic),
    }
}

// Adds the comparison of two expressions, unless it is constant.
fn add_comparison(
    alloc: Global,
    width: Width,
    most: usize,
    rel: Rel,
    left: &Expr,
    right: &Expr,
    rows: &mut Vec<Atomic>,
) -> Result<(), NoMemory>
    ensures { OnOk result (rows.new.items ≡ with_all_new_within most is_same_comparison rows.old.items (atomics (comparison_form (modulus width) rel (expr_tree left.now) (expr_tree right.now)))) }
{
    let form = normal_cond(alloc, width, rel, left, right)?;
    add_atomic(form, most, rows)
}

fn add_cond(
    alloc: Global,
    width: Width,
    most: usize,
    cond: &Cond,
    rows: &mut Vec<Atomic>,
) -> Result<(), NoMemory>
    ensures { OnOk result (rows.new.items ≡ with_all_new_within most is_same_comparison rows.old.items (cond_comparisons (modulus width) (cond_tree cond.now))) }
{
    match cond {
        Cond::True | Cond::False | Cond::Test(_) => Ok(()),
        Cond::Compare(rel, e, f) => {
            if rows.len() > most {
                return Ok(());
            }
            add_comparison(alloc, width, most, *rel, e, f, rows)
        }
        Cond::Not(b) => add_cond(alloc, width, most, b, rows),
        Cond::And(b, c) | Cond::Or(b, c) => {
            add_cond(alloc, width, most, b, rows)?;
            add_cond(alloc, width, most, c, rows)
        }
    }
}

#[cycle(comparisons)]
fn add_stmt(
    alloc: Global,
    width: Width,
    most: usize,
    stmt: &Stmt,
    rows: &mut Vec<Atomic>,
) -> Result<(), NoMemory>
    ensures { OnOk result (rows.new.items ≡ with_all_new_within most is_same_comparison rows.old.items (prog_comparisons (modulus width) (with_stmt (stmt_tree stmt.now) empty))) }
{
    match stmt {
        Stmt::Skip | Stmt::Abort | Stmt::Act(_) | Stmt::Assign(_, _) => Ok(()),
        Stmt::Assert(b) => add_cond(alloc, width, most, b, rows),
        Stmt::If(b, p, q) => {
            add_cond(alloc, width, most, b, rows)?;
            add_prog(alloc, width, most, p, rows)?;
            add_prog(alloc, width, most, q, rows)
        }
        Stmt::While(b, p) => {
            add_cond(alloc, width, most, b, rows)?;
            add_prog(alloc, width, most, p, rows)
        }
    }
}

#[cycle(comparisons)]
fn add_prog(
    alloc: Global,
    width: Width,
    most: usize,
    prog: &Prog,
    rows: &mut Vec<Atomic>,
) -> Result<(), NoMemory>
    ensures { OnOk result (rows.new.items ≡ with_all_new_within most is_same_comparison rows.old.items (prog_comparisons (modulus width) prog.now)) }
{
    for stmt in &prog.list {
        // A table past its limit accepts no more rows.
        if rows.len() > most {
            return Ok(());
        }
        add_stmt(alloc, width, most, stmt, rows)?;
    }
    Ok(())
}

fn add_side(
    alloc: Global,
    width: Width,
    most: usize,
    side: &Side,
    rows: &mut Vec<Atomic>,
) -> Result<(), NoMemory>
    ensures { OnOk result (rows.new.items ≡ with_all_new_within most is_same_comparison rows.old.items (side_comparisons (modulus width) (side_tree side.now))) }
{
    match side {
        Side::Term(_) => Ok(()),
        Side::Prog(prog) => add_prog(alloc, width, most, prog, rows),
    }
}

fn add_goal(
    alloc: Global,
    width: Width,
    most: usize,
    goal: &Goal,
    rows: &mut Vec<Atomic>,
) -> Result<(), NoMemory>
    ensures { OnOk result (rows.new.items ≡ with_all_new_within most is_same_comparison rows.old.items (goal_comparisons (modulus width) (goal_tree goal.now))) }
{
    match goal {
        Goal::Equal(left, right) | Goal::Below(left, right) => {
            add_side(alloc, width, most, left, rows)?;
            add_side(alloc, width, most, right, rows)
        }
        Goal::Triple(pre, body, post) => {
            add_cond(alloc, width, most, pre, rows)?;
            add_side(alloc, width, most, body, rows)?;
            add_cond(alloc, width, most, post, rows)
        }
    }
}

/// Returns the comparisons of a goal, each once, in text order and in normal form, without constant ones; stops at `most`
/// + 1 of them. Fails only when out of memory.
pub(crate) fn first_comparisons(
    alloc: Global,
    width: Width,
    most: usize,
    goal: &Goal,
) -> Result<Vec<Atomic>, NoMemory>
    ensures { IfOk result (λ v. v.items ≡ with_all_new_within most is_same_comparison [] (goal_comparisons (modulus width) (goal_tree goal.now))) }
{
    let mut rows = Vec::new(alloc);
    add_goal(alloc, width, most, goal, &mut rows)?;
    Ok(rows)
}
