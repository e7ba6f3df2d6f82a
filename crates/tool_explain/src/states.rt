//! A string in the words of the file: a line for each state and each action.
ghost use Rattle.std.specs.Prelude.{◌≡◌, ◌&&◌, ◌++◌, true, OnOk};
ghost use Rattle.kat_model.specs.Stores.{modulus};
ghost use Rattle.text_print.specs.Printing.{name_of};
ghost use Rattle.tool_explain.specs.Signed.{is_same};
ghost use Rattle.tool_explain.specs.Differences.{comma_text, literals_text, change_text, changes_text, state_line, action_line, moves_text, string_text};

use crate::signed::{put_action_at, put_literal};
use abstraction::{Abstract, TestRow};
use kat_model::{NoMemory, Width};
use std::alloc::Global;
use string_tables::{GString, Move};
use text_parser::Scope;
use text_print::{put, put_numbered};

fn put_comma(out: &mut Vec<u8>, first: bool) -> Result<(), NoMemory>
    ensures { OnOk result (out.new.items ≡ out.old.items ++ comma_text first) }
{
    if first {
        return put(out, b" ");
    }
    put(out, b", ")
}

// Writes the tests of an atom.
fn put_literals(
    alloc: Global,
    out: &mut Vec<u8>,
    width: Width,
    rows: &[TestRow],
    atom: &[bool],
    scope: &Scope,
) -> Result<(), NoMemory>
    ensures { OnOk result (out.new.items ≡ out.old.items ++ literals_text (modulus width) (name_of scope.now) true rows.now atom.now) }
{
    let mut first = true;
    for (row, value) in rows.iter().zip(atom) {
        put_comma(out, first)?;
        put_literal(alloc, out, width, *value, row, scope)?;
        first = false;
    }
    Ok(())
}

// Writes a test with its values before and after, if they differ.
fn put_change(
    alloc: Global,
    out: &mut Vec<u8>,
    width: Width,
    first: bool,
    before: bool,
    after: bool,
    row: &TestRow,
    scope: &Scope,
) -> Result<(), NoMemory>
    ensures { OnOk result (out.new.items ≡ out.old.items ++ change_text (modulus width) (name_of scope.now) first before after row.now) }
{
    if before == after {
        return Ok(());
    }
    put_comma(out, first)?;
    put_literal(alloc, out, width, after, row, scope)
}

// Whether no test was written so far, by the values of the last one before and after.
fn none_changed(first: bool, before: bool, after: bool) -> bool
    ensures { result ≡ (first && is_same before after) }
{
    first && before == after
}

// Writes the tests whose value has changed.
fn put_changes(
    alloc: Global,
    out: &mut Vec<u8>,
    width: Width,
    rows: &[TestRow],
    before: &[bool],
    atom: &[bool],
    scope: &Scope,
) -> Result<(), NoMemory>
    ensures { OnOk result (out.new.items ≡ out.old.items ++ changes_text (modulus width) (name_of scope.now) true rows.now before.now atom.now) }
{
    let count = rows.len().min(before.len()).min(atom.len());
    let mut first = true;
    for k in 0..count {
        put_change(
            alloc, out, width, first, before[k], atom[k], &rows[k], scope,
        )?;
        first = none_changed(first, before[k], atom[k]);
    }
    Ok(())
}

// Writes the line of the first state.
fn put_first(
    alloc: Global,
    out: &mut Vec<u8>,
    shown: &Abstract,
    atom: &[bool],
    scope: &Scope,
) -> Result<(), NoMemory>
    ensures { OnOk result (out.new.items ≡ out.old.items ++ state_line 0 (literals_text (modulus shown.now.width) (name_of scope.now) true shown.now.tests atom.now)) }
{
    put_numbered(alloc, out, "", 0)?;
    put(out, b":")?;
    put_literals(alloc, out, shown.width, &shown.tests, atom, scope)?;
    put(out, b"\n")
}

// Writes the line of a later state.
fn put_state(
    alloc: Global,
    out: &mut Vec<u8>,
    shown: &Abstract,
    state: usize,
    before: &[bool],
    atom: &[bool],
    scope: &Scope,
) -> Result<(), NoMemory>
    ensures { OnOk result (out.new.items ≡ out.old.items ++ state_line state (changes_text (modulus shown.now.width) (name_of scope.now) true shown.now.tests before.now atom.now)) }
{
    put_numbered(alloc, out, "", state)?;
    put(out, b":")?;
    put_changes(alloc, out, shown.width, &shown.tests, before, atom, scope)?;
    put(out, b"\n")
}

fn put_action_line(
    alloc: Global,
    out: &mut Vec<u8>,
    shown: &Abstract,
    action: usize,
    scope: &Scope,
) -> Result<(), NoMemory>
    ensures { OnOk result (out.new.items ≡ out.old.items ++ action_line (modulus shown.now.width) (name_of scope.now) shown.now.actions action) }
{
    put(out, b"  ")?;
    put_action_at(alloc, out, shown.width, shown.actions.get(action), scope)?;
    put(out, b"\n")
}

fn atom_of(step: &Move) -> &[bool]
    ensures { result.now ≡ step.now.atom }
{
    step.atom.as_slice()
}

// Writes a move, and the state after it with this number.
fn put_move(
    alloc: Global,
    out: &mut Vec<u8>,
    shown: &Abstract,
    state: usize,
    before: &[bool],
    step: &Move,
    scope: &Scope,
) -> Result<(), NoMemory>
    ensures { OnOk result (out.new.items ≡ out.old.items ++ (action_line (modulus shown.now.width) (name_of scope.now) shown.now.actions step.now.act
        ++ state_line state (changes_text (modulus shown.now.width) (name_of scope.now) true shown.now.tests before.now step.now.atom))) }
{
    put_action_line(alloc, out, shown, step.act, scope)?;
    put_state(alloc, out, shown, state, before, atom_of(step), scope)
}

// Writes the moves, each followed by its state.
fn put_moves(
    alloc: Global,
    out: &mut Vec<u8>,
    shown: &Abstract,
    first: &[bool],
    moves: &[Move],
    scope: &Scope,
) -> Result<(), NoMemory>
    ensures { OnOk result (out.new.items ≡ out.old.items ++ moves_text (modulus shown.now.width) (name_of scope.now) shown.now 0 first.now moves.now) }
{
    let mut before = first;
    for (k, step) in moves.iter().enumerate() {
        put_move(alloc, out, shown, k + 1, before, step, scope)?;
        before = atom_of(step);
    }
    Ok(())
}

/// Writes a string: at the first state all tests, at each later one those whose value has changed, and between two
/// states the action.
pub(crate) fn put_string(
    alloc: Global,
    out: &mut Vec<u8>,
    shown: &Abstract,
    string: &GString,
    scope: &Scope,
) -> Result<(), NoMemory>
    ensures { OnOk result (out.new.items ≡ out.old.items ++ string_text (modulus shown.now.width) (name_of scope.now) shown.now string.now) }
{
    let first = string.first.as_slice();
    put_first(alloc, out, shown, first, scope)?;
    put_moves(alloc, out, shown, first, string.rest.as_slice(), scope)
}
