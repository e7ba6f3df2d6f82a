//! Saturation of a set of terms by pairs under tests, at all atoms at once (congruence closure: Bonchi and Pous 2013).
//! The mark of a term is the diagram of the atoms at which the term is known to be in the closure.
ghost use Rattle.std.specs.Prelude.{◌≡◌, ℕ, List, [], ◌∷◌, Some, slice_get, IfOk, OnOk, IsTrue};
ghost use Rattle.kat_model.specs.Members.{Has};
ghost use Rattle.test_diagrams.specs.Functions.{IsDiagramId, KeepsFunctions};
ghost use Rattle.walk_regions.specs.Entries.{EntryParts};
ghost use Rattle.walk_regions.specs.Reaching.{Brings, AreMarks, IsPartOf, IsReachedAt};

use crate::entry::Entry;
use kat_model::NoMemory;
use term_store::TermId;
use test_diagrams::{DiagramId, Diagrams};

// Adds the atoms of `test` to the mark of `term`, if it has a mark. Returns whether the mark grew.
fn mark(
    diagrams: &mut Diagrams,
    marks: &mut [DiagramId],
    term: TermId,
    test: DiagramId,
) -> Result<bool, NoMemory>
    requires marks { (id : ℕ) → Has marks.old id → IsDiagramId diagrams.old id }
    requires test { IsDiagramId diagrams.old test }
    ensures marks { OnOk result ((es : List EntryParts) (set : List ℕ) → AreMarks diagrams.old es set marks.old → Brings diagrams.old es set test (term ∷ []) → AreMarks diagrams.new es set marks.new) }
    ensures ids { OnOk result ((id : ℕ) → Has marks.new id → IsDiagramId diagrams.new id) }
    ensures kept { KeepsFunctions diagrams.old diagrams.new }
{
    let number = term.number();
    if number >= marks.len() {
        return Ok(false);
    }
    let old = marks[number];
    let new = diagrams.or(old, test)?;
    marks[number] = new;
    Ok(new != old)
}

/// Adds the atoms of `test` to the mark of each of the terms that has one. Returns whether a mark grew.
pub(crate) fn mark_all(
    diagrams: &mut Diagrams,
    marks: &mut [DiagramId],
    terms: &[TermId],
    test: DiagramId,
) -> Result<bool, NoMemory>
    requires marks { (id : ℕ) → Has marks.old id → IsDiagramId diagrams.old id }
    requires test { IsDiagramId diagrams.old test }
    ensures marks { OnOk result ((es : List EntryParts) (set : List ℕ) → AreMarks diagrams.old es set marks.old → Brings diagrams.old es set test terms.now → AreMarks diagrams.new es set marks.new) }
    ensures ids { OnOk result ((id : ℕ) → Has marks.new id → IsDiagramId diagrams.new id) }
    ensures kept { KeepsFunctions diagrams.old diagrams.new }
{
    let mut grew = false;
    if test == diagrams.constant(false) {
        return Ok(grew);
    }
    for term in terms {
        if mark(diagrams, marks, *term, test)? {
            grew = true;
        }
    }
    Ok(grew)
}

// Whether the term has the mark `never`.
fn is_unmarked(marks: &[DiagramId], term: TermId, never: DiagramId) -> bool {
    match marks.get(term.number()) {
        Some(mark) => *mark == never,
        None => false,
    }
}

// Whether some term is marked at no atom. Affects only speed. Checks the last terms first, because sets that are listed
// one after the other often have a common prefix.
fn has_unmarked(marks: &[DiagramId], terms: &[TermId], never: DiagramId) -> bool {
    for term in terms.iter().rev() {
        if is_unmarked(marks, *term, never) {
            return true;
        }
    }
    false
}

// Returns the atoms of `within` at which all of the terms are marked. A set with a term that is marked at no atom is
// reached at none, which is checked before any diagram is made. With this check, and with none at an empty test,
// joining on `frameless` at 46 takes 40 % of the instructions.
fn marked_at(
    diagrams: &mut Diagrams,
    marks: &[DiagramId],
    terms: &[TermId],
    within: DiagramId,
) -> Result<DiagramId, NoMemory>
    requires marks { (id : ℕ) → Has marks.now id → IsDiagramId diagrams.old id }
    requires within { IsDiagramId diagrams.old within }
    ensures part { IfOk result (IsPartOf diagrams.new within) }
    ensures brings { IfOk result (λ id. (es : List EntryParts) (set : List ℕ) → AreMarks diagrams.old es set marks.now → Brings diagrams.new es set id terms.now) }
    ensures kept { KeepsFunctions diagrams.old diagrams.new }
{
    let never = diagrams.constant(false);
    if within == never || has_unmarked(marks, terms, never) {
        return Ok(never);
    }
    let mut id = within;
    for term in terms {
        let Some(mark) = marks.get(term.number()) else {
            return Ok(diagrams.constant(false));
        };
        id = diagrams.and(id, *mark)?;
    }
    Ok(id)
}

// Marks each side of the pair at the atoms of its test at which the other side is marked. Returns whether a mark grew.
fn add_pair(
    diagrams: &mut Diagrams,
    marks: &mut [DiagramId],
    entry: &Entry,
) -> Result<bool, NoMemory>
    requires marks { (id : ℕ) → Has marks.old id → IsDiagramId diagrams.old id }
    requires test { IsDiagramId diagrams.old entry.now.test }
    ensures marks { OnOk result ((es : List EntryParts) (set : List ℕ) → AreMarks diagrams.old es set marks.old → Has es entry.now → AreMarks diagrams.new es set marks.new) }
    ensures ids { OnOk result ((id : ℕ) → Has marks.new id → IsDiagramId diagrams.new id) }
    ensures kept { KeepsFunctions diagrams.old diagrams.new }
{
    let left = entry.left.as_slice();
    let right = entry.right.as_slice();
    let with_left = marked_at(diagrams, marks, left, entry.test)?;
    let grew_right = mark_all(diagrams, marks, right, with_left)?;
    let with_right = marked_at(diagrams, marks, right, entry.test)?;
    let grew_left = mark_all(diagrams, marks, left, with_right)?;
    Ok(grew_left | grew_right)
}

// Applies each pair once. Returns whether a mark grew.
fn add_pairs(
    diagrams: &mut Diagrams,
    marks: &mut [DiagramId],
    entries: &[Entry],
) -> Result<bool, NoMemory>
    requires marks { (id : ℕ) → Has marks.old id → IsDiagramId diagrams.old id }
    requires tests { (e : EntryParts) → Has entries.now e → IsDiagramId diagrams.old e.test }
    ensures marks { OnOk result ((set : List ℕ) → AreMarks diagrams.old entries.now set marks.old → AreMarks diagrams.new entries.now set marks.new) }
    ensures ids { OnOk result ((id : ℕ) → Has marks.new id → IsDiagramId diagrams.new id) }
    ensures kept { KeepsFunctions diagrams.old diagrams.new }
{
    let mut grew = false;
    for entry in entries {
        if add_pair(diagrams, marks, entry)? {
            grew = true;
        }
    }
    Ok(grew)
}

/// Applies all pairs in rounds, until no mark grows or there were as many rounds as pairs.
pub(crate) fn saturate(
    diagrams: &mut Diagrams,
    marks: &mut [DiagramId],
    entries: &[Entry],
) -> Result<(), NoMemory>
    requires marks { (id : ℕ) → Has marks.old id → IsDiagramId diagrams.old id }
    requires tests { (e : EntryParts) → Has entries.now e → IsDiagramId diagrams.old e.test }
    ensures marks { OnOk result ((set : List ℕ) → AreMarks diagrams.old entries.now set marks.old → AreMarks diagrams.new entries.now set marks.new) }
    ensures ids { OnOk result ((id : ℕ) → Has marks.new id → IsDiagramId diagrams.new id) }
    ensures kept { KeepsFunctions diagrams.old diagrams.new }
{
    for _ in 0..entries.len() {
        if !add_pairs(diagrams, marks, entries)? {
            break;
        }
    }
    Ok(())
}

/// Returns the atoms of `within` at which all of the terms are marked, or the universal term is.
pub(crate) fn reached_at(
    diagrams: &mut Diagrams,
    marks: &[DiagramId],
    universal: Option<TermId>,
    terms: &[TermId],
    within: DiagramId,
) -> Result<DiagramId, NoMemory>
    requires marks { (id : ℕ) → Has marks.now id → IsDiagramId diagrams.old id }
    requires within { IsDiagramId diagrams.old within }
    ensures part { IfOk result (IsPartOf diagrams.new within) }
    ensures reached { IfOk result (λ id. (es : List EntryParts) (set : List ℕ) → AreMarks diagrams.old es set marks.now → IsReachedAt diagrams.new es universal set terms.now id) }
    ensures kept { KeepsFunctions diagrams.old diagrams.new }
{
    let all = marked_at(diagrams, marks, terms, within)?;
    let Some(term) = universal else {
        return Ok(all);
    };
    let every = marked_at(diagrams, marks, &[term], within)?;
    diagrams.or(all, every)
}
