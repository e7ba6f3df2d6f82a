//! The pairs that a walk listed.
ghost use Rattle.std.specs.Prelude.{◌≡◌, ◌↔◌, ◌++◌, ◌∷◌, [], ℕ, List, IfOk, OnOk, IsTrue};
ghost use Rattle.kat_model.specs.Members.{Has};
ghost use Rattle.test_diagrams.specs.Functions.{value_of, IsDiagramId, IsAtomOf, KeepsFunctions};
ghost use Rattle.walk_regions.specs.Entries.{EntryParts};
ghost use Rattle.walk_regions.specs.Filing.{AreAlike, AddsAlike};
ghost use Rattle.walk_regions.specs.Reaching.{AreMarks, IsPartOf, IsReachedAt, IsOpenPart};
ghost use Rattle.walk_regions.specs.Listings.{IsWithoutPair, IsFreshPart, IsWith, AreLevelAtoms, IsLevelAtom, IsPlaceWith};

use crate::entry::Entry;
use crate::entry_list::EntryList;
use crate::reaching::{mark_all, reached_at, saturate};
use kat_model::{NoMemory, append};
use std::alloc::Global;
use term_store::TermId;
use test_diagrams::{DiagramId, Diagrams};
use walk_pairs::and_not;

/// The pairs that a walk has listed, the id of the universal term if the store has it, and the number of ids in the
/// store; the ids of the pairs are below it.
pub struct Listing {
    pub entries: EntryList,
    pub universal: Option<TermId>,
    pub count: usize,
}

// Explicit, so that it is proved once and not at each end of each function that owns one.
impl Drop for Listing {
    fn drop(self) {
        let Listing {
            entries: _entries,
            universal: _,
            count: _,
        } = self;
    }
}

/// Terms that the two next sets surely contain, and those that each may contain in addition to the terms of the other.
#[derive(Clone, Copy)]
pub struct TargetSets<'a> {
    pub left: &'a [TermId],
    pub right: &'a [TermId],
    pub open_left: &'a [TermId],
    pub open_right: &'a [TermId],
}

// Whether `ids` and `others` have equally many elements and the same last one.
fn end_alike(ids: &[TermId], others: &[TermId]) -> bool
    ensures { ids.now ≡ others.now → IsTrue result }
{
    let count = ids.len();
    if count != others.len() {
        return false;
    }
    if count == 0 {
        return true;
    }
    let last = count - 1;
    ids[last] == others[last]
}

// Whether `ids` equals `others`. Compares the last elements first, because sets that are listed one after the other
// often have a common prefix.
fn are_same(ids: &[TermId], others: &[TermId]) -> bool
    ensures { IsTrue result ↔ (ids.now ≡ others.now) }
{
    if !end_alike(ids, others) {
        return false;
    }
    ids == others
}

/// Whether `entry` has the sets `left` and `right`.
pub(crate) fn has_sets(entry: &Entry, left: &[TermId], right: &[TermId]) -> bool
    ensures { IsTrue result ↔ ((entry.now.left ≡ left.now) × (entry.now.right ≡ right.now)) }
{
    let own_left = entry.left.as_slice();
    let own_right = entry.right.as_slice();
    let same_left = are_same(own_left, left);
    let same_right = are_same(own_right, right);
    same_left && same_right
}

// Appends a copy of the pair at `place` to the list, if it has these sets.
fn add_alike(
    alloc: Global,
    list: &mut Vec<Entry>,
    entries: &[Entry],
    place: usize,
    left: &[TermId],
    right: &[TermId],
) -> Result<(), NoMemory>
    ensures { OnOk result (AddsAlike entries.now place left.now right.now list.old.items list.new.items) }
{
    let Some(entry) = entries.get(place) else {
        return Ok(());
    };
    let same = has_sets(entry, left, right);
    if !same {
        return Ok(());
    }
    let copy = entry.copy(alloc)?;
    append(list, copy)?;
    Ok(())
}

/// Returns copies of the pairs that have these sets.
pub(crate) fn alike_entries(
    alloc: Global,
    entries: &EntryList,
    left: &[TermId],
    right: &[TermId],
) -> Result<Vec<Entry>, NoMemory>
    ensures { IfOk result (λ v. AreAlike entries.now.items left.now right.now v.items) }
{
    let all = entries.as_slice();
    let places = entries.places(left, right);
    let mut alike = Vec::new(alloc);
    for place in places {
        add_alike(alloc, &mut alike, all, *place, left, right)?;
    }
    Ok(alike)
}

// Returns the atoms of the diagram `id`, without those of `entry` if it has these sets.
fn without_pair(
    diagrams: &mut Diagrams,
    id: DiagramId,
    entry: &Entry,
    left: &[TermId],
    right: &[TermId],
) -> Result<DiagramId, NoMemory>
    requires id { IsDiagramId diagrams.old id }
    requires test { IsDiagramId diagrams.old entry.now.test }
    ensures without { IfOk result (IsWithoutPair diagrams.old diagrams.new entry.now left.now right.now id) }
    ensures kept { OnOk result (KeepsFunctions diagrams.old diagrams.new) }
{
    let same = has_sets(entry, left, right);
    if same {
        return and_not(diagrams, id, entry.test);
    }
    Ok(id)
}

// Returns the atoms of `within` at which no entry has these sets.
fn fresh_part(
    diagrams: &mut Diagrams,
    entries: &[Entry],
    left: &[TermId],
    right: &[TermId],
    within: DiagramId,
) -> Result<DiagramId, NoMemory>
    requires tests { (e : EntryParts) → Has entries.now e → IsDiagramId diagrams.old e.test }
    requires within { IsDiagramId diagrams.old within }
    ensures part { IfOk result (IsFreshPart diagrams.new entries.now left.now right.now within) }
    ensures kept { OnOk result (KeepsFunctions diagrams.old diagrams.new) }
{
    let mut id = within;
    for entry in entries {
        id = without_pair(diagrams, id, entry, left, right)?;
    }
    Ok(id)
}

/// Returns the atoms of `within` at which no listed pair has these sets. Fails only when out of memory; on failure, extra
/// diagrams may remain.
pub fn unlisted_part(
    alloc: Global,
    diagrams: &mut Diagrams,
    entries: &EntryList,
    left: &[TermId],
    right: &[TermId],
    within: DiagramId,
) -> Result<DiagramId, NoMemory>
    requires tests { (e : EntryParts) → Has entries.now.items e → IsDiagramId diagrams.old e.test }
    requires within { IsDiagramId diagrams.old within }
    ensures part { IfOk result (IsFreshPart diagrams.new entries.now.items left.now right.now within) }
    ensures kept { OnOk result (KeepsFunctions diagrams.old diagrams.new) }
{
    let alike = alike_entries(alloc, entries, left, right)?;
    fresh_part(diagrams, &alike, left, right, within)
}

// Whether `entry` has the sets and the level of `pair`.
fn is_with(entry: &Entry, pair: &Entry) -> bool
    ensures { IsTrue result ↔ IsWith entry.now pair.now }
{
    let same_level = entry.level == pair.level;
    same_level && has_sets(entry, pair.left.as_slice(), pair.right.as_slice())
}

// Returns the atoms of the diagram `id`, together with those of `entry` if it has the sets and the level of `pair`.
fn with_entry(
    diagrams: &mut Diagrams,
    id: DiagramId,
    entry: &Entry,
    pair: &Entry,
) -> Result<DiagramId, NoMemory>
    requires id { IsDiagramId diagrams.old id }
    requires test { IsDiagramId diagrams.old entry.now.test }
    ensures atoms { IfOk result (λ new. (es : List EntryParts) → ((e : EntryParts) → Has es e → IsDiagramId diagrams.old e.test)
        → AreLevelAtoms diagrams.old es pair.now id → AreLevelAtoms diagrams.new (es ++ entry.now ∷ []) pair.now new) }
    ensures kept { KeepsFunctions diagrams.old diagrams.new }
{
    let same = is_with(entry, pair);
    if same {
        return diagrams.or(id, entry.test);
    }
    Ok(id)
}

// Returns the atoms at which some entry has the sets and the level of `pair`.
fn level_atoms(
    diagrams: &mut Diagrams,
    entries: &[Entry],
    pair: &Entry,
) -> Result<DiagramId, NoMemory>
    requires tests { (e : EntryParts) → Has entries.now e → IsDiagramId diagrams.old e.test }
    ensures atoms { IfOk result (AreLevelAtoms diagrams.new entries.now pair.now) }
    ensures kept { KeepsFunctions diagrams.old diagrams.new }
{
    let mut id = diagrams.constant(false);
    for entry in entries {
        id = with_entry(diagrams, id, entry, pair)?;
    }
    Ok(id)
}

/// Returns the atoms at which some listed pair has the sets and the level of `pair`. Fails only when out of memory; on
/// failure, extra diagrams may remain.
pub fn listed_atoms(
    alloc: Global,
    diagrams: &mut Diagrams,
    entries: &EntryList,
    pair: &Entry,
) -> Result<DiagramId, NoMemory>
    requires tests { (e : EntryParts) → Has entries.now.items e → IsDiagramId diagrams.old e.test }
    ensures atoms { IfOk result (AreLevelAtoms diagrams.new entries.now.items pair.now) }
    ensures kept { KeepsFunctions diagrams.old diagrams.new }
{
    let alike = alike_entries(alloc, entries, pair.left.as_slice(), pair.right.as_slice())?;
    level_atoms(diagrams, &alike, pair)
}

// Whether `entry` has the sets and the level of `pair`, and was reached at `atom`.
fn is_reached_with(diagrams: &Diagrams, entry: &Entry, pair: &Entry, atom: &[bool]) -> bool
    requires test { IsDiagramId diagrams.now entry.now.test }
    requires atom { IsAtomOf diagrams.now atom.now }
    ensures { IsTrue result ↔ (IsWith entry.now pair.now × IsTrue (value_of diagrams.now entry.now.test atom.now)) }
{
    let same = is_with(entry, pair);
    same && diagrams.value_at(entry.test, atom)
}

// Whether the entry at `place` has the sets and the level of `pair`, and was reached at `atom`.
fn is_place_with(
    diagrams: &Diagrams,
    entries: &[Entry],
    place: usize,
    pair: &Entry,
    atom: &[bool],
) -> bool
    requires tests { (e : EntryParts) → Has entries.now e → IsDiagramId diagrams.now e.test }
    requires atom { IsAtomOf diagrams.now atom.now }
    ensures { IsTrue result ↔ IsPlaceWith diagrams.now entries.now pair.now atom.now place }
{
    match entries.get(place) {
        Some(entry) => is_reached_with(diagrams, entry, pair, atom),
        None => false,
    }
}

/// Returns the place of a listed pair that has the sets and the level of `pair` and was reached at `atom`. The contract
/// requires that one exists.
pub fn place_with(diagrams: &Diagrams, entries: &EntryList, pair: &Entry, atom: &[bool]) -> usize
    requires tests { (e : EntryParts) → Has entries.now.items e → IsDiagramId diagrams.now e.test }
    requires atom { IsAtomOf diagrams.now atom.now }
    requires listed { IsLevelAtom diagrams.now entries.now.items pair.now atom.now }
    ensures { IsPlaceWith diagrams.now entries.now.items pair.now atom.now result }
{
    let all = entries.as_slice();
    let places = entries.places(pair.left.as_slice(), pair.right.as_slice());
    for place in places {
        if is_place_with(diagrams, all, *place, pair, atom) {
            return *place;
        }
    }
    0
}

impl Listing {
    // Whether the term is in the set or in a pair.
    fn is_known(&self, set: &[TermId], term: TermId) -> bool {
        self.entries.has_member(term) || set.contains(&term)
    }

    // Whether all of the terms are in the set or in pairs.
    fn are_known(&self, set: &[TermId], terms: &[TermId]) -> bool {
        for term in terms {
            if !self.is_known(set, *term) {
                return false;
            }
        }
        true
    }

    // Whether the closure of `set` under the pairs may contain the targets or the universal term.
    fn may_reach(&self, set: &[TermId], targets: &[TermId]) -> bool {
        let Some(term) = self.universal else {
            return self.are_known(set, targets);
        };
        self.is_known(set, term) || self.are_known(set, targets)
    }

    // Whether the pairs may join the sides at some atom. Affects only speed: where they cannot, no term is marked.
    fn may_join(&self, sides: &TargetSets<'_>) -> bool {
        self.may_reach(sides.right, sides.open_left) && self.may_reach(sides.left, sides.open_right)
    }

    // Returns atoms of `within` at which the closure of `set` under the pairs contains the targets or the universal
    // term, with the marks of the terms.
    fn reached_with(
        &self,
        diagrams: &mut Diagrams,
        marks: &mut [DiagramId],
        set: &[TermId],
        targets: &[TermId],
        within: DiagramId,
    ) -> Result<DiagramId, NoMemory>
        requires tests { (e : EntryParts) → Has self.now.entries.items e → IsDiagramId diagrams.old e.test }
        requires marks { (id : ℕ) → Has marks.old id → IsDiagramId diagrams.old id }
        requires within { IsDiagramId diagrams.old within }
        ensures part { IfOk result (IsPartOf diagrams.new within) }
        ensures reached { IfOk result (λ id. AreMarks diagrams.old self.now.entries.items set.now marks.old → IsReachedAt diagrams.new self.now.entries.items self.now.universal set.now targets.now id) }
        ensures kept { KeepsFunctions diagrams.old diagrams.new }
    {
        mark_all(diagrams, marks, set, within)?;
        saturate(diagrams, marks, self.entries.as_slice())?;
        reached_at(diagrams, marks, self.universal, targets, within)
    }

    // Returns atoms of `within` at which the closure of `set` under the pairs contains the targets or the universal
    // term.
    fn reached(
        &self,
        alloc: Global,
        diagrams: &mut Diagrams,
        set: &[TermId],
        targets: &[TermId],
        within: DiagramId,
    ) -> Result<DiagramId, NoMemory>
        requires tests { (e : EntryParts) → Has self.now.entries.items e → IsDiagramId diagrams.old e.test }
        requires within { IsDiagramId diagrams.old within }
        ensures part { IfOk result (IsPartOf diagrams.new within) }
        ensures reached { IfOk result (IsReachedAt diagrams.new self.now.entries.items self.now.universal set.now targets.now) }
        ensures kept { KeepsFunctions diagrams.old diagrams.new }
    {
        let never = diagrams.constant(false);
        if within == never {
            return Ok(never);
        }
        if targets.is_empty() {
            return Ok(within);
        }
        let mut marks = vec![in alloc; never; self.count]?;
        self.reached_with(diagrams, marks.as_mut_slice(), set, targets, within)
    }

    /// Returns the atoms of `within` at which the closure of one side's sure terms under the pairs lacks open terms of
    /// the other side. Fails only when out of memory; on failure, extra diagrams may remain.
    pub fn open_part(
        &self,
        alloc: Global,
        diagrams: &mut Diagrams,
        sides: &TargetSets<'_>,
        within: DiagramId,
    ) -> Result<DiagramId, NoMemory>
        requires tests { (e : EntryParts) → Has self.now.entries.items e → IsDiagramId diagrams.old e.test }
        requires within { IsDiagramId diagrams.old within }
        ensures part { IfOk result (IsOpenPart diagrams.new self.now.entries.items self.now.universal sides.now.left.now sides.now.right.now sides.now.open_left.now sides.now.open_right.now within) }
        ensures kept { KeepsFunctions diagrams.old diagrams.new }
    {
        if !self.may_join(sides) {
            return Ok(within);
        }
        let left = self.reached(alloc, diagrams, sides.right, sides.open_left, within)?;
        let both = self.reached(alloc, diagrams, sides.left, sides.open_right, left)?;
        and_not(diagrams, within, both)
    }
}
