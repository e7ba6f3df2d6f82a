//! The line of the outcome of a run.
ghost use Rattle.std.specs.Prelude.{◌≡◌, ◌++◌, OnOk, IfOk, codes};
ghost use Rattle.std.specs.Fmt.{decimal};
ghost use Rattle.text_print.specs.Printing.{name_of};
ghost use Rattle.kat_report.specs.RunTexts.{values_text, outcome_line};

use kat_model::NoMemory;
use std::alloc::Global;
use text_parser::{Meaning, Scope};
use text_print::{name_of, put, put_number, put_word};
use while_lang::{Outcome, Store};

fn put_value(alloc: Global, out: &mut Vec<u8>, name: &str, value: u64) -> Result<(), NoMemory>
    ensures { OnOk result (out.new.items ≡ out.old.items ++ (codes " " ++ name.now ++ codes "=" ++ decimal value)) }
{
    put(out, b" ")?;
    put_word(out, name)?;
    put(out, b"=")?;
    put_number(alloc, out, value)
}

fn put_values(
    alloc: Global,
    out: &mut Vec<u8>,
    scope: &Scope,
    values: &[u64],
) -> Result<(), NoMemory>
    ensures { OnOk result (out.new.items ≡ out.old.items ++ values_text scope.now 0 values.now) }
{
    for (k, value) in values.iter().enumerate() {
        put_value(alloc, out, name_of(scope, Meaning::Var(k)), *value)?;
    }
    Ok(())
}

fn done_line(alloc: Global, scope: &Scope, store: &Store) -> Result<Vec<u8>, NoMemory>
    ensures { IfOk result (λ line. line.items ≡ outcome_line scope.now Outcome.Done store.now) }
{
    let mut line = b"done".to_vec(alloc)?;
    put_values(alloc, &mut line, scope, &store.values)?;
    line.push(b'\n')?;
    Ok(line)
}

/// Returns the line of an outcome: `done` with the name and the value of each variable, `stuck` or `more`. Fails only when
/// out of memory.
pub fn outcome_line(
    alloc: Global,
    scope: &Scope,
    outcome: Outcome,
    store: &Store,
) -> Result<Vec<u8>, NoMemory>
    ensures { IfOk result (λ line. line.items ≡ outcome_line scope.now outcome store.now) }
{
    match outcome {
        Outcome::Done => done_line(alloc, scope, store),
        Outcome::Stuck => Ok(b"stuck\n".to_vec(alloc)?),
        Outcome::More => Ok(b"more\n".to_vec(alloc)?),
    }
}
