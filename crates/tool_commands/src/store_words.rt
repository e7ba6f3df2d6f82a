//! The store that a word gives.
ghost use Rattle.std.specs.Prelude.{◌≡◌, ◌==◌, map, Some, None, if◌then◌else◌, unwrap_or, IfOk, IfSome};
ghost use Rattle.std.specs.Option.{option_map};
ghost use Rattle.std.specs.List.{slice_split};
ghost use Rattle.kat_model.specs.Stores.{IsStore};
ghost use Rattle.text_parser.specs.ScopeParts.{meaning};
ghost use Rattle.tool_commands.specs.StoreWords.{variable_meant, setting_of, with_setting, with_item, with_items, values_of, store_of};

use crate::numbers::number_within;
use kat_model::{NoMemory, Width};
use std::alloc::Global;
use text_parser::{Meaning, Scope};
use while_lang::{File, Store};

// Returns the variable with this name, if any.
fn variable_of(scope: &Scope, name: &str) -> Option<usize>
    ensures { result ≡ variable_meant (meaning scope.now name.now) }
{
    match scope.find(name) {
        Some(Meaning::Var(k)) => Some(k),
        _ => None,
    }
}

// Returns the variable and the number of an item.
fn setting_of(scope: &Scope, width: Width, item: &str) -> Option<(usize, u64)>
    ensures { result ≡ setting_of scope.now width item.now }
{
    let (name, number) = item.split_once('=')?;
    let var = variable_of(scope, name)?;
    let value = number_within(width, number)?;
    Some((var, value))
}

// Sets the value of a variable. `false` if the variable is undefined or has a value already.
fn set_value(values: &mut Vec<Option<u64>>, setting: (usize, u64)) -> bool
    ensures { (if result then Some values.new.items else None) ≡ with_setting values.old.items setting }
{
    let (var, value) = setting;
    match values.get(var) {
        Some(None) => {
            values[var] = Some(value);
            true
        }
        _ => false,
    }
}

// Sets the variable of an item. `false` if the item is invalid or its variable has a value already.
fn set_item(scope: &Scope, width: Width, item: &str, values: &mut Vec<Option<u64>>) -> bool
    ensures { (if result then Some values.new.items else None) ≡ with_item scope.now width values.old.items item.now }
{
    match setting_of(scope, width, item) {
        Some(setting) => set_value(values, setting),
        None => false,
    }
}

// Sets the variables of items in order. `false` at the first item that fails.
fn set_items(scope: &Scope, width: Width, items: &[&str], values: &mut Vec<Option<u64>>) -> bool
    ensures { (if result then Some values.new.items else None) ≡ with_items scope.now width values.old.items (map (λ i. i.now) items.now) }
{
    for item in items {
        if !set_item(scope, width, item, values) {
            return false;
        }
    }
    true
}

fn items_of<'a>(alloc: Global, word: &'a str) -> Result<Vec<&'a str>, NoMemory>
    ensures { IfOk result (λ v. map (λ i. i.now) v.items ≡ slice_split (λ b. b == 44) word.now) }
{
    Ok(word.split(',').collect(alloc)?)
}

// Returns the values that the word gives, if any.
fn values_of(alloc: Global, file: &File, word: &str) -> Result<Option<Vec<Option<u64>>>, NoMemory>
    ensures { IfOk result (λ vs. option_map (λ v. v.items) vs ≡ values_of file.now word.now) }
{
    let mut values = vec![in alloc; None; file.vars]?;
    if word == "zero" {
        return Ok(Some(values));
    }
    let items = items_of(alloc, word)?;
    if set_items(&file.scope, file.width, &items, &mut values) {
        Ok(Some(values))
    } else {
        Ok(None)
    }
}

// Returns the numbers of the variables, 0 for a variable without a value.
fn numbers_of(alloc: Global, values: &[Option<u64>]) -> Result<Vec<u64>, NoMemory>
    ensures { IfOk result (λ v. v.items ≡ map (λ v. unwrap_or v 0) values.now) }
{
    Ok(
        values
            .iter()
            .map(|value| value.unwrap_or(0))
            .collect(alloc)?,
    )
}

/// Returns the store of the file that the word gives: `zero`, or items `NAME=NUMBER` separated by commas; a variable
/// without an item is 0. `None` if and only if the word gives no store. Fails only when out of memory. An item is split at
/// its first `=`, so `zero=5` is an item. Numbers have 1 to 20 digits, leading zeros included, and no spaces are allowed.
pub fn store_of(alloc: Global, file: &File, word: &str) -> Result<Option<Store>, NoMemory>
    ensures value { IfOk result (λ s. s ≡ store_of file.now word.now) }
    ensures within { IfOk result (λ s. IfSome s (IsStore file.now.width)) }
{
    match values_of(alloc, file, word)? {
        Some(values) => Ok(Some(Store {
            values: numbers_of(alloc, &values)?,
        })),
        None => Ok(None),
    }
}
