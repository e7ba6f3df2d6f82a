//! Conditions and programs, read with the rows of an abstraction.
ghost use Rattle.std.specs.Prelude.{◌≡◌, IfOk};
ghost use Rattle.std.specs.List.{position_from};
ghost use Rattle.kat_model.specs.Expressions.{cond_tree};
ghost use Rattle.kat_model.specs.Trees.{test_tree};
ghost use Rattle.linear_forms.specs.Sameness.{is_same_comparison};
ghost use Rattle.abstraction.specs.Tables.{is_same_assignment};
ghost use Rattle.abstraction.specs.Tests.{cond_test, prog_flow};
ghost use Rattle.abstraction.specs.ShownTables.{declared_tests, declared_actions, row_comparisons, row_assignments, shown_tables};

use crate::conditions::cond_test;
use crate::flows::prog_flow;
use crate::problem::Abstract;
use crate::rows::{ActionRow, TestRow};
use crate::tables::{AssignedForm, Numbering};
use kat_model::{Cond, NoMemory, TableRow, Test, Width};
use linear_forms::Atomic;
use std::alloc::Global;
use while_lang::{Flows, Prog};

fn declared_tests(rows: &[TestRow]) -> usize
    ensures { result ≡ declared_tests rows.now }
{
    let mut count = 0;
    for row in rows {
        if let TestRow::Named(_) = row {
            count += 1;
        }
    }
    count
}

fn declared_actions(rows: &[ActionRow]) -> usize
    ensures { result ≡ declared_actions rows.now }
{
    let mut count = 0;
    for row in rows {
        if let ActionRow::Named(_) = row {
            count += 1;
        }
    }
    count
}

// Returns the number of a comparison among the tests of these rows: the declared ones, then the comparisons.
fn comparison_number(rows: &[TestRow], atomic: &Atomic) -> Option<usize>
    ensures { result ≡ position_from (is_same_comparison atomic.now) (declared_tests rows.now) (row_comparisons rows.now) }
{
    let mut number = declared_tests(rows);
    for row in rows {
        if let TestRow::Compare(other) = row {
            if atomic.is_same(other) {
                return Some(number);
            }
            number += 1;
        }
    }
    None
}

// Returns the number of an assignment among the actions of these rows: the declared ones, then the assignments.
fn assignment_number(rows: &[ActionRow], assignment: &AssignedForm) -> Option<usize>
    ensures { result ≡ position_from (is_same_assignment assignment.now) (declared_actions rows.now) (row_assignments rows.now) }
{
    let mut number = declared_actions(rows);
    for row in rows {
        if let ActionRow::Assign(var, form) = row {
            if assignment.assigns(*var, form) {
                return Some(number);
            }
            number += 1;
        }
    }
    None
}

impl Numbering for Abstract {
    ghost use Rattle.abstraction.specs.ShownTables.{shown_tables};

    ghost tables = { shown_tables };

    fn width(&self) -> Width {
        self.width
    }

    fn test_number(&self, atomic: &Atomic) -> Option<usize> {
        comparison_number(&self.tests, atomic)
    }

    fn action_number(&self, assignment: &AssignedForm) -> Option<usize> {
        assignment_number(&self.actions, assignment)
    }
}

/// Builds the flow of a program with the rows of an abstraction: its conditions as tests, and its assignments as
/// actions. If the abstraction lacks a row, a comparison counts as false and an assignment as action 0. Makes no tables:
/// the rows are searched. Fails only when out of memory.
pub fn flow_of(alloc: Global, shown: &Abstract, prog: &Prog) -> Result<Flows, NoMemory>
    ensures { IfOk result (λ f. f ≡ prog_flow (shown_tables shown.now) prog.now) }
{
    prog_flow(alloc, shown, prog)
}

/// Builds the test of a condition with the rows of an abstraction; missing rows count as for `flow_of`. Fails only when
/// out of memory.
pub fn test_of(alloc: Global, shown: &Abstract, cond: &Cond) -> Result<Test, NoMemory>
    ensures { IfOk result (λ t. test_tree t ≡ cond_test (shown_tables shown.now) (cond_tree cond.now)) }
{
    cond_test(alloc, shown, cond)
}
