//! The clauses at hand.
ghost use Rattle.std.specs.Prelude.{◌≡◌, ◌+◌, ◌==◌, ℕ, IfOk, OnOk, nat_eq, if◌then◌else◌};
ghost use Rattle.std.specs.HashMap.{get};
ghost use Rattle.std.specs.List.{list_any};
ghost use Rattle.lrat_checker.specs.Accepted.{Clauses, given, after_line, erased};
ghost use Rattle.lrat_checker.specs.Working.KnownClauses.{entry_at, Knows};

use crate::literal::Clause;
use crate::proof::Line;
use kat_model::NoMemory;
use std::alloc::Global;
use std::collections::HashMap;

/// What an id denotes, if a clause had it.
#[derive(Clone, Copy)]
pub(crate) enum Known<'a> {
    Deleted,
    Present(&'a Clause),
}

/// The clauses at hand by their ids, and the greatest id so far.
#[derive(Drop)]
pub(crate) struct KnownClauses<'a> {
    entries: HashMap<u64, Known<'a>>,
    greatest: u64,
}

// Deletes the clause with this id, if there is one.
fn delete(entries: &mut HashMap<u64, Known>, id: u64) -> Result<(), NoMemory>
    ensures { OnOk result ((n : ℕ) → entry_at entries.new n ≡ (if id == n then erased (entry_at entries.old n) else entry_at entries.old n)) }
{
    if entries.contains_key(&id) {
        entries.insert(id, Known::Deleted)?;
    }
    Ok(())
}

// Deletes the clauses with these ids.
fn delete_all(entries: &mut HashMap<u64, Known>, ids: &[u64]) -> Result<(), NoMemory>
    ensures { OnOk result ((n : ℕ) → entry_at entries.new n ≡ (if list_any (λ id. id == n) ids.now then erased (entry_at entries.old n) else entry_at entries.old n)) }
{
    for id in ids {
        delete(entries, *id)?;
    }
    Ok(())
}

impl<'a> KnownClauses<'a> {
    /// Returns these clauses with the ids 1, 2 and so on.
    pub fn of(alloc: Global, clauses: &'a [Clause]) -> Result<KnownClauses<'a>, NoMemory>
        ensures { IfOk result (λ known. Knows known (given clauses.now)) }
    {
        let mut entries = HashMap::new(alloc);
        let mut greatest = 0;
        for clause in clauses {
            greatest += 1;
            entries.insert(greatest, Known::Present(clause))?;
        }
        Ok(KnownClauses { entries, greatest })
    }

    /// Returns the greatest id so far.
    pub fn greatest(&self) -> u64
        ensures { result ≡ self.now.greatest }
    {
        self.greatest
    }

    /// Returns what an id denotes.
    pub fn entry(&self, id: u64) -> Option<Known<'a>>
        ensures { result ≡ get nat_eq self.now.entries id }
    {
        self.entries.get(&id).copied()
    }

    /// Adds or deletes what the line does.
    pub fn apply(&mut self, line: &'a Line) -> Result<(), NoMemory>
        ensures { OnOk result ((c : Clauses) → Knows self.old c → Knows self.new (after_line c line.now)) }
    {
        match line {
            Line::Addition { id, clause, .. } => {
                self.entries.insert(*id, Known::Present(clause))?;
                self.greatest = *id;
                Ok(())
            }
            Line::Deletion { ids } => delete_all(&mut self.entries, &ids.list),
        }
    }
}
