//! The lines of `try`.
ghost use Rattle.std.specs.Prelude.{◌≡◌, ◌++◌, OnOk, IfOk};
ghost use Rattle.tool_try.specs.TryTexts.{comma_text, item_text, items_text, store_text, ends_text, trial_text, trial_status, not_concrete_line};

use kat_model::NoMemory;
use kat_report::outcome_line;
use std::alloc::Global;
use store_trials::{RunEnd, Trial};
use text_parser::{Meaning, Scope};
use text_print::{put_name, put_number};
use while_lang::Store;

// Writes a comma before all variables but the first.
fn put_comma(out: &mut Vec<u8>, var: usize) -> Result<(), NoMemory>
    ensures { OnOk result (out.new.items ≡ out.old.items ++ comma_text var) }
{
    if var == 0 {
        return Ok(());
    }
    Ok(out.push(b',')?)
}

// Writes the value of a variable.
fn put_item(
    alloc: Global,
    out: &mut Vec<u8>,
    scope: &Scope,
    var: usize,
    value: u64,
) -> Result<(), NoMemory>
    ensures { OnOk result (out.new.items ≡ out.old.items ++ item_text scope.now var value) }
{
    put_comma(out, var)?;
    put_name(out, scope, Meaning::Var(var))?;
    out.push(b'=')?;
    put_number(alloc, out, value)
}

// Writes the values of the variables.
fn put_items(
    alloc: Global,
    out: &mut Vec<u8>,
    scope: &Scope,
    values: &[u64],
) -> Result<(), NoMemory>
    ensures { OnOk result (out.new.items ≡ out.old.items ++ items_text scope.now 0 values.now) }
{
    for (k, value) in values.iter().enumerate() {
        put_item(alloc, out, scope, k, *value)?;
    }
    Ok(())
}

fn put_store(alloc: Global, out: &mut Vec<u8>, scope: &Scope, store: &Store) -> Result<(), NoMemory>
    ensures { OnOk result (out.new.items ≡ out.old.items ++ store_text scope.now store.now) }
{
    if store.values.is_empty() {
        out.extend_from_slice(b"zero")?;
        return Ok(());
    }
    put_items(alloc, out, scope, &store.values)
}

fn put_ends(
    alloc: Global,
    out: &mut Vec<u8>,
    scope: &Scope,
    ends: &[RunEnd],
) -> Result<(), NoMemory>
    ensures { OnOk result (out.new.items ≡ out.old.items ++ ends_text scope.now ends.now) }
{
    for end in ends {
        let line = outcome_line(alloc, scope, end.outcome, &end.store)?;
        out.extend_from_slice(&line)?;
    }
    Ok(())
}

/// Returns what trying the goal on so many stores shows: the store with the ends of its runs, or how many stores were
/// tried and how many runs were cut short. Fails only when out of memory.
pub(crate) fn trial_text(
    alloc: Global,
    scope: &Scope,
    stores: usize,
    trial: &Trial,
) -> Result<Vec<u8>, NoMemory>
    ensures { IfOk result (λ text. text.items ≡ trial_text scope.now stores trial.now) }
{
    let mut out = Vec::new(alloc);
    match trial {
        Trial::Fails(store, ends) => {
            put_store(alloc, &mut out, scope, store)?;
            out.push(b'\n')?;
            put_ends(alloc, &mut out, scope, ends.as_slice())?;
        }
        Trial::NoneFails(cut) => {
            out.extend_from_slice(b"stores tried ")?;
            put_number(alloc, &mut out, stores as u64)?;
            out.extend_from_slice(b", runs cut short ")?;
            put_number(alloc, &mut out, *cut)?;
            out.push(b'\n')?;
        }
    }
    Ok(out)
}

/// Returns the status of a trial.
pub(crate) fn trial_status(trial: &Trial) -> u8
    ensures { result ≡ trial_status trial.now }
{
    match trial {
        Trial::Fails(_, _) => 1,
        Trial::NoneFails(_) => 0,
    }
}

/// Returns the line for a file that is not concrete.
pub(crate) fn not_concrete_line() -> &'static [u8]
    ensures { result.now ≡ not_concrete_line }
{
    b"refused: NotConcrete\n"
}
