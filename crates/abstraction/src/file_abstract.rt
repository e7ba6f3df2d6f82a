//! The abstraction of a file.
ghost use Rattle.std.specs.Prelude.{◌≡◌, ◌++◌, [], ◌∷◌, map, length, IfOk, OnOk};
ghost use Rattle.std.specs.List.{range_with_len};
ghost use Rattle.kat_model.specs.Trees.{kat_tree};
ghost use Rattle.goal_forms.specs.Sides.{side_trees};
ghost use Rattle.while_lang.specs.Trees.{goal_tree};
ghost use Rattle.abstraction.specs.Comparisons.{Assignment};
ghost use Rattle.abstraction.specs.Facts.{Hypothesis};
ghost use Rattle.abstraction.specs.Laws.{DerivedHold, AgreesWhereSame};
ghost use Rattle.abstraction.specs.Abstracts.{with_goal, HasNumbersInRange, IsAbstraction};
ghost use Rattle.abstraction.specs.Working.FileTables.{parts_with, IsWithinLimits};

use crate::facts::RuledTerm;
use crate::fault::AbstractFault;
use crate::file_tables::file_tables;
use crate::goals::goal_sides;
use crate::hypotheses::hypotheses_of;
use crate::problem::Abstract;
use crate::rows::{ActionRow, TestRow};
use crate::rule::Rule;
use crate::tables::{AssignedForm, RowTables};
use goal_forms::Sides;
use kat_model::{Kat, NoMemory, Problem};
use linear_forms::Atomic;
use std::alloc::Global;
use while_lang::{File, Goal};

fn declared_tests(alloc: Global, count: usize) -> Result<Vec<TestRow>, NoMemory>
    ensures { IfOk result (λ v. v.items ≡ map TestRow.Named (range_with_len 0 count)) }
{
    let mut rows = Vec::new(alloc);
    for k in 0..count {
        rows.push(TestRow::Named(k))?;
    }
    Ok(rows)
}

fn declared_actions(alloc: Global, count: usize) -> Result<Vec<ActionRow>, NoMemory>
    ensures { IfOk result (λ v. v.items ≡ map ActionRow.Named (range_with_len 0 count)) }
{
    let mut rows = Vec::new(alloc);
    for k in 0..count {
        rows.push(ActionRow::Named(k))?;
    }
    Ok(rows)
}

// Returns the rows of all tests.
fn test_rows(
    alloc: Global,
    declared: usize,
    comparisons: Vec<Atomic>,
) -> Result<Vec<TestRow>, NoMemory>
    ensures { IfOk result (λ v. v.items ≡ map TestRow.Named (range_with_len 0 declared) ++ map TestRow.Compare comparisons.items) }
{
    let mut rows = declared_tests(alloc, declared)?;
    for atomic in comparisons {
        rows.push(TestRow::Compare(atomic))?;
    }
    Ok(rows)
}

// Returns the row of an action that is this assignment.
fn action_row(assigned: AssignedForm) -> ActionRow
    ensures { result ≡ ActionRow.Assign assigned.var assigned.form }
{
    let (var, form) = assigned.into_parts();
    ActionRow::Assign(var, form)
}

// Returns the rows of all actions.
fn action_rows(
    alloc: Global,
    declared: usize,
    assignments: Vec<AssignedForm>,
) -> Result<Vec<ActionRow>, NoMemory>
    ensures { IfOk result (λ v. v.items ≡ map ActionRow.Named (range_with_len 0 declared) ++ map (λ a. ActionRow.Assign a.var a.form) assignments.items) }
{
    let mut rows = declared_actions(alloc, declared)?;
    for assigned in assignments {
        rows.push(action_row(assigned))?;
    }
    Ok(rows)
}

// Appends a rule and a term.
fn push_parts(rules: &mut Vec<Rule>, terms: &mut Vec<Kat>, hyp: RuledTerm) -> Result<(), NoMemory>
    ensures rule { OnOk result (rules.new.items ≡ rules.old.items ++ hyp.rule ∷ []) }
    ensures term { OnOk result (map kat_tree terms.new.items ≡ map kat_tree terms.old.items ++ hyp.term ∷ []) }
{
    let (rule, term) = hyp.into_parts();
    rules.push(rule)?;
    Ok(terms.push(term)?)
}

// Splits hypotheses into their rules and their terms.
fn rules_and_terms(alloc: Global, hyps: Vec<RuledTerm>) -> Result<(Vec<Rule>, Vec<Kat>), NoMemory>
    ensures rules { IfOk result (λ both. both.0.items ≡ map (λ h. h.rule) hyps.items) }
    ensures terms { IfOk result (λ both. map kat_tree both.1.items ≡ map (λ h. h.term) hyps.items) }
{
    let mut rules = Vec::new(alloc);
    let mut terms = Vec::new(alloc);
    for hyp in hyps {
        push_parts(&mut rules, &mut terms, hyp)?;
    }
    Ok((rules, terms))
}

// Builds the abstraction of these parts, if they are within the limits of a problem.
fn abstract_with(
    alloc: Global,
    tables: RowTables,
    sides: Sides,
    hyps: Vec<RuledTerm>,
) -> Result<Abstract, AbstractFault>
    ensures { IsWithinLimits (parts_with tables (side_trees sides) hyps.items) result }
{
    let RowTables {
        tests,
        actions,
        comparisons,
        assignments,
        width,
    } = tables;
    let Sides { left, right } = sides;
    let test_count = tests + comparisons.len();
    let action_count = actions + assignments.len();
    let (rules, terms) = rules_and_terms(alloc, hyps)?;
    let tests = test_rows(alloc, tests, comparisons)?;
    let actions = action_rows(alloc, actions, assignments)?;
    match Problem::new(test_count, action_count, terms, left, right) {
        Ok(problem) => Ok(Abstract {
            problem,
            actions,
            tests,
            rules,
            width,
        }),
        Err(_) => Err(AbstractFault::ProblemTooLarge),
    }
}

// Builds the abstraction of a file with this goal.
fn make_abstract(alloc: Global, file: &File, goal: &Goal) -> Result<Abstract, AbstractFault>
    requires numbers { HasNumbersInRange (with_goal file.now (goal_tree goal.now)) }
    ensures { IsAbstraction (with_goal file.now (goal_tree goal.now)) result }
{
    let tables = file_tables(alloc, file, goal)?;
    let sides = goal_sides(alloc, &tables, goal)?;
    let hyps = hypotheses_of(alloc, &tables, &file.hyps)?;
    abstract_with(alloc, tables, sides, hyps)
}

/// Builds the abstraction of a file with another goal. Its tests are the declared ones, then the comparisons of the
/// goal, then those that rounds of substitution add; its actions are the declared ones, then the assignments of the
/// goal. Its hypotheses are the stated ones, then that a comparison holds after an assignment exactly when the
/// substituted one holds before it, then facts of arithmetic. Fails when out of memory; with `TooManyTests` exactly
/// when there are more than `MAX_TESTS` tests before the rounds; otherwise with `TooManyActions` exactly when there are
/// more than `MAX_ACTIONS` actions; and otherwise with `ProblemTooLarge` exactly when the problem has more than
/// `MAX_TERM_NODES` nodes. No derived hypothesis relates two stores of the file, and if both sides of the problem of a
/// concrete file are the same, its goal holds for all its stores.
pub fn abstracted_for(alloc: Global, file: &File, goal: &Goal) -> Result<Abstract, AbstractFault>
    requires numbers { HasNumbersInRange (with_goal file.now (goal_tree goal.now)) }
    ensures exact { IsAbstraction (with_goal file.now (goal_tree goal.now)) result }
    ensures derived { IfOk result (DerivedHold (with_goal file.now (goal_tree goal.now))) }
    ensures agrees { IfOk result (AgreesWhereSame (with_goal file.now (goal_tree goal.now))) }
{
    make_abstract(alloc, file, goal)
}

/// Builds the abstraction of a file with its own goal. The result and the faults are those of `abstracted_for`.
pub fn abstracted(alloc: Global, file: &File) -> Result<Abstract, AbstractFault>
    requires numbers { HasNumbersInRange file.now }
    ensures exact { IsAbstraction file.now result }
    ensures derived { IfOk result (DerivedHold file.now) }
    ensures agrees { IfOk result (AgreesWhereSame file.now) }
{
    abstracted_for(alloc, file, &file.goal)
}
