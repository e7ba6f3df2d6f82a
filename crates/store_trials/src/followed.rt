//! The stores from which a string can be followed.
ghost use Rattle.std.specs.Prelude.{◌≡◌, Some, None, if◌then◌else◌, ◌≤◌, set, slice_get, length, IfOk};
ghost use Rattle.std.specs.Option.{option_map};
ghost use Rattle.kat_model.specs.Stores.{modulus};
ghost use Rattle.abstraction.specs.StoreFrames.{row_holds};
ghost use Rattle.store_trials.specs.Following.{is_value, has_values, store_after, moves_followed, is_followed, followers};

use crate::stores::copy;
use abstraction::{Abstract, ActionRow, TestRow};
use kat_model::{NoMemory, Width};
use linear_forms::{holds, value};
use std::alloc::Global;
use string_tables::{GString, Move};
use while_lang::Store;

fn row_holds(width: Width, row: &TestRow, store: &[u64]) -> bool
    ensures { result ≡ row_holds (modulus width) store.now row.now }
{
    match row {
        TestRow::Named(_) => false,
        TestRow::Compare(comparison) => holds(width, comparison, store),
    }
}

// Whether a test has this truth value in the store.
fn has_value(width: Width, row: &TestRow, store: &[u64], truth: bool) -> bool
    ensures { result ≡ is_value truth (row_holds (modulus width) store.now row.now) }
{
    row_holds(width, row, store) == truth
}

// Whether the tests have the values of the atom in the store.
fn has_values(width: Width, rows: &[TestRow], store: &[u64], atom: &[bool]) -> bool
    ensures { result ≡ has_values (modulus width) store.now rows.now atom.now }
{
    if rows.len() != atom.len() {
        return false;
    }
    for (row, truth) in rows.iter().zip(atom) {
        if !has_value(width, row, store, *truth) {
            return false;
        }
    }
    true
}

// Sets a variable. Does nothing if the store does not have it.
fn assign(store: &mut Store, var: usize, number: u64)
    ensures { store.new ≡ set store.old var number }
{
    if var < store.values.len() {
        store.values[var] = number;
    }
}

// Takes the store after an action. `false` if the action is no assignment.
fn act(width: Width, row: Option<&ActionRow>, store: &mut Store) -> bool
    ensures { (if result then Some store.new else None) ≡ store_after (modulus width) (option_map (λ r. r.now) row.entry) store.old }
{
    match row {
        Some(ActionRow::Assign(var, form)) => {
            let number = value(width, form, &store.values);
            assign(store, *var, number);
            true
        }
        Some(ActionRow::Named(_)) | None => false,
    }
}

// Takes the store after the action of a move. `false` if the action is no assignment.
fn take(shown: &Abstract, step: &Move, store: &mut Store) -> bool
    ensures { (if result then Some store.new else None) ≡ store_after (modulus shown.now.width) (slice_get shown.now.actions step.now.act) store.old }
{
    act(shown.width, shown.actions.get(step.act), store)
}

fn atom_of(step: &Move) -> &[bool]
    ensures { result.now ≡ step.now.atom }
{
    step.atom.as_slice()
}

// Whether the tests of the abstraction have the values of the atom in the store.
fn is_at(shown: &Abstract, store: &Store, atom: &[bool]) -> bool
    ensures { result ≡ has_values (modulus shown.now.width) store.now shown.now.tests atom.now }
{
    has_values(shown.width, &shown.tests, &store.values, atom)
}

// Whether the moves can be followed from the store, which changes.
fn moves_followed(shown: &Abstract, moves: &[Move], store: &mut Store) -> bool
    ensures { result ≡ moves_followed shown.now moves.now store.old }
{
    for step in moves {
        if !take(shown, step, store) {
            return false;
        }
        if !is_at(shown, store, atom_of(step)) {
            return false;
        }
    }
    true
}

// Whether the string can be followed from the store.
fn is_followed(
    alloc: Global,
    shown: &Abstract,
    string: &GString,
    store: &Store,
) -> Result<bool, NoMemory>
    ensures { IfOk result (λ followed. followed ≡ is_followed shown.now string.now store.now) }
{
    if !is_at(shown, store, string.first.as_slice()) {
        return Ok(false);
    }
    let mut last = copy(alloc, store)?;
    Ok(moves_followed(shown, string.rest.as_slice(), &mut last))
}

/// Returns the stores of the list from which the string can be followed: in each state that it leads through, the tests
/// have the values of its atoms, and its actions are assignments. Fails only when out of memory.
pub fn following(
    alloc: Global,
    shown: &Abstract,
    string: &GString,
    stores: &[Store],
) -> Result<Vec<Store>, NoMemory>
    ensures stores { IfOk result (λ v. v.items ≡ followers shown.now string.now stores.now) }
    ensures fewer { IfOk result (λ v. length v.items ≤ length stores.now) }
{
    let mut followers = Vec::new(alloc);
    for store in stores {
        if is_followed(alloc, shown, string, store)? {
            followers.push(copy(alloc, store)?)?;
        }
    }
    Ok(followers)
}
