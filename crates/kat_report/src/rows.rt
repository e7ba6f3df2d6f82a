//! Comments with the meanings of tests and actions.
ghost use Rattle.std.specs.Prelude.{◌≡◌, ◌++◌, flat_map, OnOk};
ghost use Rattle.std.specs.List.{enumerate_from};
ghost use Rattle.text_print.specs.Printing.{name_of};
ghost use Rattle.kat_report.specs.Shows.{test_comment, action_comment};

use crate::forms::{put_comparison, put_form};
use abstraction::{ActionRow, TestRow};
use kat_model::NoMemory;
use problem_file::{put_action_name, put_test_name};
use std::alloc::Global;
use text_parser::{Meaning, Scope};
use text_print::{put, put_name};

fn put_test_comment(
    alloc: Global,
    out: &mut Vec<u8>,
    k: usize,
    row: &TestRow,
    scope: &Scope,
) -> Result<(), NoMemory>
    ensures { OnOk result (out.new.items ≡ out.old.items ++ test_comment (name_of scope.now) (k, row.now)) }
{
    put(out, b"# ")?;
    put_test_name(alloc, out, k)?;
    put(out, b" is ")?;
    match row {
        TestRow::Named(test) => put_name(out, scope, Meaning::Test(*test))?,
        TestRow::Compare(comparison) => put_comparison(alloc, out, comparison, scope)?,
    }
    put(out, b"\n")
}

/// Writes the meaning of each test, with the names of the scope.
pub(crate) fn put_test_comments(
    alloc: Global,
    out: &mut Vec<u8>,
    rows: &[TestRow],
    scope: &Scope,
) -> Result<(), NoMemory>
    ensures { OnOk result (out.new.items ≡ out.old.items ++ flat_map (test_comment (name_of scope.now)) (enumerate_from 0 rows.now)) }
{
    for (k, row) in rows.iter().enumerate() {
        put_test_comment(alloc, out, k, row, scope)?;
    }
    Ok(())
}

fn put_action_comment(
    alloc: Global,
    out: &mut Vec<u8>,
    k: usize,
    row: &ActionRow,
    scope: &Scope,
) -> Result<(), NoMemory>
    ensures { OnOk result (out.new.items ≡ out.old.items ++ action_comment (name_of scope.now) (k, row.now)) }
{
    put(out, b"# ")?;
    put_action_name(alloc, out, k)?;
    put(out, b" is ")?;
    match row {
        ActionRow::Named(action) => put_name(out, scope, Meaning::Action(*action))?,
        ActionRow::Assign(var, form) => {
            put_name(out, scope, Meaning::Var(*var))?;
            put(out, b" := ")?;
            put_form(alloc, out, form, scope)?;
        }
    }
    put(out, b"\n")
}

/// Writes the meaning of each action, with the names of the scope.
pub(crate) fn put_action_comments(
    alloc: Global,
    out: &mut Vec<u8>,
    rows: &[ActionRow],
    scope: &Scope,
) -> Result<(), NoMemory>
    ensures { OnOk result (out.new.items ≡ out.old.items ++ flat_map (action_comment (name_of scope.now)) (enumerate_from 0 rows.now)) }
{
    for (k, row) in rows.iter().enumerate() {
        put_action_comment(alloc, out, k, row, scope)?;
    }
    Ok(())
}
