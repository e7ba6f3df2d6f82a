//! The tables of a file.
ghost use Rattle.std.specs.Prelude.{◌≡◌, ◌+◌, ◌-◌, ◌≤◌, length, [], IfOk, IfErr, Err};
ghost use Rattle.kat_model.specs.Stores.{modulus};
ghost use Rattle.kat_model.specs.declared.limits.TheConstants.{MAX_TESTS, MAX_ACTIONS};
ghost use Rattle.while_lang.specs.Trees.{goal_tree};
ghost use Rattle.abstraction.specs.Tables.{first_comparisons, file_assignments};
ghost use Rattle.abstraction.specs.Rounds.{tables_of};
ghost use Rattle.abstraction.specs.Abstracts.{with_goal};
ghost use Rattle.abstraction.specs.Working.FileTables.{IsTestTable, IsActionTable, IsTables};

use crate::assignments::first_assignments;
use crate::comparisons::first_comparisons;
use crate::fault::AbstractFault;
use crate::rounds::add_rounds;
use crate::tables::{AssignedForm, RowTables};
use kat_model::{MAX_ACTIONS, MAX_TESTS};
use linear_forms::Atomic;
use std::alloc::Global;
use while_lang::{File, Goal};

// Returns the comparisons of the goal, unless there are too many.
fn test_table(alloc: Global, file: &File, goal: &Goal) -> Result<Vec<Atomic>, AbstractFault>
    ensures { IsTestTable (with_goal file.now (goal_tree goal.now)) result }
{
    if file.tests > MAX_TESTS {
        return Err(AbstractFault::TooManyTests);
    }
    let most = MAX_TESTS - file.tests;
    let rows = first_comparisons(alloc, file.width, most, goal)?;
    if rows.len() > most {
        return Err(AbstractFault::TooManyTests);
    }
    Ok(rows)
}

// Returns the assignments of the goal, unless there are too many.
fn action_table(alloc: Global, file: &File, goal: &Goal) -> Result<Vec<AssignedForm>, AbstractFault>
    ensures { IsActionTable (with_goal file.now (goal_tree goal.now)) result }
{
    if file.actions > MAX_ACTIONS {
        return Err(AbstractFault::TooManyActions);
    }
    let most = MAX_ACTIONS - file.actions;
    let rows = first_assignments(alloc, file.width, most, goal)?;
    if rows.len() > most {
        return Err(AbstractFault::TooManyActions);
    }
    Ok(rows)
}

/// Builds the tables of a file with this goal. Traverses the goal twice, for comparisons and for assignments, each time
/// up to the limit: too many tests are reported before too many actions.
pub(crate) fn file_tables(
    alloc: Global,
    file: &File,
    goal: &Goal,
) -> Result<RowTables, AbstractFault>
    ensures { IsTables (with_goal file.now (goal_tree goal.now)) result }
{
    let mut comparisons = test_table(alloc, file, goal)?;
    let assignments = action_table(alloc, file, goal)?;
    let most = MAX_TESTS.saturating_sub(file.tests);
    add_rounds(
        alloc,
        file.width,
        most,
        file.rounds,
        &assignments,
        &mut comparisons,
    )?;
    Ok(RowTables {
        tests: file.tests,
        actions: file.actions,
        comparisons,
        assignments,
        width: file.width,
    })
}
