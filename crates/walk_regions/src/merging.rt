//! Merges the listed pairs with the same sets.
ghost use Rattle.std.specs.Prelude.{◌≡◌, ◌↔◌, ◌++◌, ◌∷◌, [], ℕ, List, Some, IfOk, OnOk, IsTrue};
ghost use Rattle.kat_model.specs.Members.{Has};
ghost use Rattle.term_nodes.specs.Growth.{Grows};
ghost use Rattle.test_diagrams.specs.Functions.{DiagramsParts, IsDiagramId, KeepsFunctions};
ghost use Rattle.walk_regions.specs.Entries.{EntryParts};
ghost use Rattle.walk_regions.specs.Working.StoredTests.{AreTestsFor};
ghost use Rattle.walk_regions.specs.Merging.{AreAtomsOf, IsMergedPair, IsEarlierAlike, HasEarlierAlike, AreMergedIds};

use crate::entry::Entry;
use crate::entry_list::EntryList;
use crate::listing::{alike_entries, has_sets};
use crate::test_table::TestTable;
use kat_model::{Items, NoMemory, append};
use std::alloc::Global;
use term_store::{Store, TermId, TestId};
use test_diagrams::{DiagramId, Diagrams};
use walk_pairs::StoredPair;

// Returns the atoms of the diagram `id`, together with those of `entry` if it has these sets.
fn with_atoms(
    diagrams: &mut Diagrams,
    id: DiagramId,
    entry: &Entry,
    left: &[TermId],
    right: &[TermId],
) -> Result<DiagramId, NoMemory>
    requires id { IsDiagramId diagrams.old id }
    requires test { IsDiagramId diagrams.old entry.now.test }
    ensures atoms { IfOk result (λ new. (c : DiagramsParts) (es : List EntryParts) → KeepsFunctions c diagrams.old → IsDiagramId c entry.now.test
        → AreAtomsOf c diagrams.old es left.now right.now id → AreAtomsOf c diagrams.new (es ++ entry.now ∷ []) left.now right.now new) }
    ensures kept { KeepsFunctions diagrams.old diagrams.new }
{
    let same = has_sets(entry, left, right);
    if same {
        return diagrams.or(id, entry.test);
    }
    Ok(id)
}

// Returns the atoms at which some entry has these sets.
fn atoms_of(
    diagrams: &mut Diagrams,
    entries: &[Entry],
    left: &[TermId],
    right: &[TermId],
) -> Result<DiagramId, NoMemory>
    requires tests { (e : EntryParts) → Has entries.now e → IsDiagramId diagrams.old e.test }
    ensures atoms { IfOk result (AreAtomsOf diagrams.old diagrams.new entries.now left.now right.now) }
    ensures kept { KeepsFunctions diagrams.old diagrams.new }
{
    let mut id = diagrams.constant(false);
    for entry in entries {
        id = with_atoms(diagrams, id, entry, left, right)?;
    }
    Ok(id)
}

// Returns the atoms at which some listed pair has these sets.
fn all_atoms_of(
    alloc: Global,
    diagrams: &mut Diagrams,
    entries: &EntryList,
    left: &[TermId],
    right: &[TermId],
) -> Result<DiagramId, NoMemory>
    requires tests { (e : EntryParts) → Has entries.now.items e → IsDiagramId diagrams.old e.test }
    ensures atoms { IfOk result (AreAtomsOf diagrams.old diagrams.new entries.now.items left.now right.now) }
    ensures kept { KeepsFunctions diagrams.old diagrams.new }
{
    let alike = alike_entries(alloc, entries, left, right)?;
    atoms_of(diagrams, &alike, left, right)
}

// Whether the entry at `place` is before the entry at `own` and has the sets of `entry`.
fn is_earlier(entries: &[Entry], place: usize, own: usize, entry: &Entry) -> bool
    ensures { IsTrue result ↔ IsEarlierAlike entries.now place own entry.now }
{
    if place >= own {
        return false;
    }
    match entries.get(place) {
        Some(other) => has_sets(other, entry.left.as_slice(), entry.right.as_slice()),
        None => false,
    }
}

// Whether an entry before the entry at `own` has the sets of `entry`.
fn has_earlier(entries: &EntryList, own: usize, entry: &Entry) -> bool
    ensures { IsTrue result ↔ HasEarlierAlike entries.now.items own entry.now }
{
    let all = entries.as_slice();
    let places = entries.places(entry.left.as_slice(), entry.right.as_slice());
    for place in places {
        if is_earlier(all, *place, own, entry) {
            return true;
        }
    }
    false
}

// Returns the pair of the sets of `entry`, at the atoms of the test.
fn stored_pair(alloc: Global, entry: &Entry, test: TestId) -> Result<StoredPair, NoMemory>
    ensures { IfOk result (λ p. (p.left ≡ entry.now.left) × (p.right ≡ entry.now.right) × (p.test ≡ Some test)) }
{
    let left = Vec::from_slice(alloc, entry.left.as_slice())?;
    let right = Vec::from_slice(alloc, entry.right.as_slice())?;
    Ok(StoredPair {
        left: Items::of(left),
        right: Items::of(right),
        test: Some(test),
    })
}

// Returns the pair of the sets of `entry`, at all atoms at which some entry has them.
fn merged_pair(
    alloc: Global,
    store: &mut Store,
    diagrams: &mut Diagrams,
    table: &mut TestTable,
    entries: &EntryList,
    entry: &Entry,
) -> Result<StoredPair, NoMemory>
    requires tests { (e : EntryParts) → Has entries.now.items e → IsDiagramId diagrams.old e.test }
    requires table { AreTestsFor store.old diagrams.old table.old.tests.entries }
    ensures left { IfOk result (λ p. p.left ≡ entry.now.left) }
    ensures right { IfOk result (λ p. p.right ≡ entry.now.right) }
    ensures pair { IfOk result (IsMergedPair store.new diagrams.old entries.now.items) }
    ensures table { OnOk result (AreTestsFor store.new diagrams.new table.new.tests.entries) }
    ensures grows { Grows store.old store.new }
    ensures kept { KeepsFunctions diagrams.old diagrams.new }
{
    let left = entry.left.as_slice();
    let right = entry.right.as_slice();
    let atoms = all_atoms_of(alloc, diagrams, entries, left, right)?;
    let test = table.test_of(store, diagrams, atoms)?;
    stored_pair(alloc, entry, test)
}

/// Returns the pairs of the entries, each once, at all atoms at which it was reached. Fails only when out of memory; on
/// failure, extra nodes and diagrams may remain.
pub fn merged_pairs(
    alloc: Global,
    store: &mut Store,
    diagrams: &mut Diagrams,
    entries: &EntryList,
) -> Result<Vec<StoredPair>, NoMemory>
    requires tests { (e : EntryParts) → Has entries.now.items e → IsDiagramId diagrams.old e.test }
    ensures merged { IfOk result (λ v. AreMergedIds store.new diagrams.old entries.now.items v.items) }
    ensures grows { Grows store.old store.new }
{
    let all = entries.as_slice();
    let mut table = TestTable::new(alloc);
    let mut pairs = Vec::new(alloc);
    for (place, entry) in all.iter().enumerate() {
        if !has_earlier(entries, place, entry) {
            let pair = merged_pair(alloc, store, diagrams, &mut table, entries, entry)?;
            append(&mut pairs, pair)?;
        }
    }
    Ok(pairs)
}
