//! Rounds: substituting assignments in comparisons gives further tests.
ghost use Rattle.std.specs.Prelude.{◌≡◌, [], ◌∷◌, ◌++◌, flat_map, IfOk, OnOk, if◌then◌else◌};
ghost use Rattle.kat_model.specs.Stores.{modulus};
ghost use Rattle.linear_forms.specs.Comparisons.{substituted};
ghost use Rattle.abstraction.specs.Comparisons.{atomics};
ghost use Rattle.abstraction.specs.Rounds.{is_appended, append_all, substitutions, rounds};

use crate::tables::AssignedForm;
use kat_model::{NoMemory, Width, has_row};
use linear_forms::{Atomic, CondForm, atomic_size, subst};
use std::alloc::Global;

// The maximum number of nodes of a comparison that a round appends.
const MAX_APPENDED_NODES: u64 = 1_000;

// Appends a comparison, unless it is in the table already, has too many nodes, or the table is full.
fn append_comparison(rows: &mut Vec<Atomic>, most: usize, atomic: Atomic) -> Result<(), NoMemory>
    ensures { OnOk result (rows.new.items ≡ (if is_appended most rows.old.items atomic then rows.old.items ++ atomic ∷ [] else rows.old.items)) }
{
    if has_row(rows, &atomic) || atomic_size(&atomic) > MAX_APPENDED_NODES || rows.len() >= most {
        return Ok(());
    }
    Ok(rows.push(atomic)?)
}

fn append_atomic(rows: &mut Vec<Atomic>, most: usize, cond: CondForm) -> Result<(), NoMemory>
    ensures { OnOk result (rows.new.items ≡ append_all most rows.old.items (atomics cond)) }
{
    match cond {
        CondForm::True | CondForm::False => Ok(()),
        CondForm::Pos(atomic) | CondForm::Neg(atomic) => append_comparison(rows, most, atomic),
    }
}

// Appends a comparison in which an assignment is substituted. The result of a substitution can be large, so it is
// dropped before the next one is built.
fn append_substituted(
    alloc: Global,
    width: Width,
    most: usize,
    assigned: &AssignedForm,
    atomic: &Atomic,
    rows: &mut Vec<Atomic>,
) -> Result<(), NoMemory>
    ensures { OnOk result (rows.new.items ≡ append_all most rows.old.items (atomics (substituted (modulus width) assigned.now.var assigned.now.form atomic.now))) }
{
    if rows.len() >= most {
        return Ok(());
    }
    let cond = subst(alloc, width, atomic, assigned.var, &assigned.form)?;
    append_atomic(rows, most, cond)
}

fn append_all_substituted(
    alloc: Global,
    width: Width,
    most: usize,
    assigned: &AssignedForm,
    fresh: &[Atomic],
    rows: &mut Vec<Atomic>,
) -> Result<(), NoMemory>
    ensures { OnOk result (rows.new.items ≡ append_all most rows.old.items (flat_map (λ phi. atomics (substituted (modulus width) assigned.now.var assigned.now.form phi)) fresh.now)) }
{
    for atomic in fresh {
        append_substituted(alloc, width, most, assigned, atomic, rows)?;
    }
    Ok(())
}

// Appends these comparisons with each assignment substituted.
fn append_substitutions(
    alloc: Global,
    width: Width,
    most: usize,
    assignments: &[AssignedForm],
    fresh: &[Atomic],
    rows: &mut Vec<Atomic>,
) -> Result<(), NoMemory>
    ensures { OnOk result (rows.new.items ≡ append_all most rows.old.items (substitutions (modulus width) assignments.now fresh.now)) }
{
    for assigned in assignments {
        append_all_substituted(alloc, width, most, assigned, fresh, rows)?;
    }
    Ok(())
}

fn copies(alloc: Global, atomics: &[Atomic]) -> Result<Vec<Atomic>, NoMemory>
    ensures { IfOk result (λ v. v.items ≡ atomics.now) }
{
    let mut list = Vec::new(alloc);
    for atomic in atomics {
        list.push(atomic.copy(alloc)?)?;
    }
    Ok(list)
}

/// Runs `count` rounds, each of which appends the comparisons of the table with each assignment substituted, unless they
/// are rows, have more than 1,000 nodes, or the table has `most` rows. Fails only when out of memory.
///
/// Substitutes only in comparisons that are new since the previous round, and stops when a round appends nothing: what was
/// tried once is a row, too large, or past the limit, and stays so. The definition has all rounds.
pub(crate) fn add_rounds(
    alloc: Global,
    width: Width,
    most: usize,
    count: u64,
    assignments: &[AssignedForm],
    rows: &mut Vec<Atomic>,
) -> Result<(), NoMemory>
    ensures { OnOk result (rows.new.items ≡ rounds count (modulus width) most assignments.now rows.old.items) }
{
    let mut done = 0;
    for round in 0..count {
        let len = rows.len();
        if done == len || len >= most {
            break;
        }
        let fresh = copies(alloc, &rows[done..])?;
        append_substitutions(alloc, width, most, assignments, &fresh, rows)?;
        done = len;
    }
    Ok(())
}
