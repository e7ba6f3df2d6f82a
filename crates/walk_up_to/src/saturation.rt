//! Saturation of a set of terms by pairs of sets (congruence closure: Bonchi and Pous 2013). Rounds visit only the sets
//! of listed pairs that are empty or indexed under a term of the set, because no other set lies within it.
ghost use Rattle.std.specs.Prelude.{◌≡◌, ◌≤◌, ◌<◌, ℕ, [], Some, false, not, length, slice_get, slice_index_or, IfOk, OnOk};
ghost use Rattle.std.specs.Option.{option_map_or};
ghost use Rattle.kat_model.specs.Members.{Has};
ghost use Rattle.walk_up_to.specs.declared.pair.PairSide.{PairSide as PairSide'};
ghost use Rattle.walk_up_to.specs.Marks.{are_reached, rounds_marked, AreClosed, IsClosedAt, IsMade, IsMore};

use crate::listed::ListedPairs;
use crate::mark_set::{MarkSet, add_across, either, holds_all};
use crate::pair::PairSide;
use kat_model::NoMemory;
use term_store::TermId;
use walk_pairs::Side;

// Whether there is a universal term and it is marked.
fn is_universal(marked: &MarkSet, universal: Option<TermId>) -> bool
    ensures { result ≡ option_map_or (λ u. slice_index_or marked.now.marks u false) universal false }
{
    match universal {
        Some(term) => marked.has(term),
        None => false,
    }
}

// Whether the universal term is marked, or all targets are.
fn is_reached(marked: &MarkSet, universal: Option<TermId>, targets: &[TermId]) -> bool
    ensures { result ≡ are_reached universal targets.now marked.now.marks }
{
    is_universal(marked, universal) || holds_all(marked, targets)
}

// Whether there is a witness and the set lacks it.
fn lacks(marked: &MarkSet, witness: Option<TermId>) -> bool
    ensures { result ≡ option_map_or (λ w. not (slice_index_or marked.now.marks w false)) witness false }
{
    match witness {
        Some(term) => !marked.has(term),
        None => false,
    }
}

// Adds the other set of the pair if the set contains this one. Returns whether a term is new.
fn add_at(marked: &mut MarkSet, listed: &ListedPairs, pair_side: PairSide) -> Result<bool, NoMemory>
    ensures made { OnOk result (IsMade listed.now.pairs marked.old.marks marked.new.marks) }
    ensures closed { IfOk result (λ b. b ≡ false → IsClosedAt listed.now.pairs marked.new.marks pair_side) }
    ensures more { IfOk result (IsMore marked.old marked.new) }
{
    if lacks(marked, pair_side.witness) {
        return Ok(false);
    }
    let Some(pair) = listed.pairs().get(pair_side.place) else {
        return Ok(false);
    };
    let is_new = add_across(marked, pair, pair_side.side)?;
    Ok(is_new)
}

// Adds the other set of each pair of which the set contains the given one, until the universal term or all targets are
// reached. Returns whether a term is new.
fn add_sides(
    marked: &mut MarkSet,
    listed: &ListedPairs,
    pair_sides: &[PairSide],
    targets: &[TermId],
) -> Result<bool, NoMemory>
    ensures made { OnOk result (IsMade listed.now.pairs marked.old.marks marked.new.marks) }
    ensures closed { IfOk result (λ b. b ≡ false → (s : PairSide') → Has pair_sides.now s → IsClosedAt listed.now.pairs marked.new.marks s) }
    ensures more { IfOk result (IsMore marked.old marked.new) }
{
    let mut grew = false;
    for pair_side in pair_sides {
        let is_new = add_at(marked, listed, *pair_side)?;
        grew = either(grew, is_new);
        if is_new && is_reached(marked, listed.universal(), targets) {
            return Ok(grew);
        }
    }
    Ok(grew)
}

// Calls `add_sides` with the sets that are indexed under the term. Returns whether a term is new.
fn add_under(
    marked: &mut MarkSet,
    listed: &ListedPairs,
    term: TermId,
    targets: &[TermId],
) -> Result<bool, NoMemory>
    ensures made { OnOk result (IsMade listed.now.pairs marked.old.marks marked.new.marks) }
    ensures closed { IfOk result (λ b. b ≡ false → (s : PairSide') → Has (slice_index_or listed.now.index.under term []) s → IsClosedAt listed.now.pairs marked.new.marks s) }
    ensures more { IfOk result (IsMore marked.old marked.new) }
{
    match listed.index().under(term) {
        Some(pair_sides) => add_sides(marked, listed, pair_sides.as_slice(), targets),
        None => Ok(false),
    }
}

// Calls `add_under` for the first `count` marked terms. Returns whether a term is new.
fn add_under_first(
    marked: &mut MarkSet,
    listed: &ListedPairs,
    count: usize,
    targets: &[TermId],
) -> Result<bool, NoMemory>
    requires { count ≤ length marked.old.terms }
    ensures made { OnOk result (IsMade listed.now.pairs marked.old.marks marked.new.marks) }
    ensures closed { IfOk result (λ b. b ≡ false → (i : ℕ) → i < count → (t : ℕ) → slice_get marked.old.terms i ≡ Some t → (s : PairSide') → Has (slice_index_or listed.now.index.under t []) s → IsClosedAt listed.now.pairs marked.new.marks s) }
    ensures more { IfOk result (IsMore marked.old marked.new) }
{
    let mut grew = false;
    for index in 0..count {
        let term = marked.terms()[index];
        let is_new = add_under(marked, listed, term, targets)?;
        grew = either(grew, is_new);
    }
    Ok(grew)
}

// Returns the other set of the pair, without a witness.
fn across(pair_side: PairSide) -> PairSide {
    let side = match pair_side.side {
        Side::Left => Side::Right,
        Side::Right => Side::Left,
    };
    PairSide {
        place: pair_side.place,
        side,
        witness: None,
    }
}

// Adds each of the given sets if the set contains the other set of its pair.
fn add_back(
    marked: &mut MarkSet,
    listed: &ListedPairs,
    pair_sides: &[PairSide],
) -> Result<(), NoMemory>
    ensures { OnOk result (IsMade listed.now.pairs marked.old.marks marked.new.marks) }
{
    for pair_side in pair_sides {
        add_at(marked, listed, across(*pair_side))?;
    }
    Ok(())
}

// Calls `add_back` with the sets that are indexed under the term.
fn add_back_under(marked: &mut MarkSet, listed: &ListedPairs, term: TermId) -> Result<(), NoMemory>
    ensures { OnOk result (IsMade listed.now.pairs marked.old.marks marked.new.marks) }
{
    match listed.index().under(term) {
        Some(pair_sides) => add_back(marked, listed, pair_sides.as_slice()),
        None => Ok(()),
    }
}

// Calls `add_back_under` for each of the terms.
fn add_back_under_all(
    marked: &mut MarkSet,
    listed: &ListedPairs,
    terms: &[TermId],
) -> Result<(), NoMemory>
    ensures { OnOk result (IsMade listed.now.pairs marked.old.marks marked.new.marks) }
{
    for term in terms {
        add_back_under(marked, listed, *term)?;
    }
    Ok(())
}

// Returns the number of sets that are indexed under the terms. Affects only speed.
fn load(listed: &ListedPairs, terms: &[TermId]) -> usize {
    let mut load: usize = 0;
    for term in terms {
        load = load.saturating_add(listed.index().load(*term));
    }
    load
}

// If fewer sets are indexed under the targets than under the marked terms, tries those first, from their other sides:
// one of them often reaches all targets. If all sets have one term, as on nested loops, thousands of pairs share a term
// on one side.
fn look_back(marked: &mut MarkSet, listed: &ListedPairs, targets: &[TermId]) -> Result<(), NoMemory>
    ensures { OnOk result (IsMade listed.now.pairs marked.old.marks marked.new.marks) }
{
    if load(listed, targets) < load(listed, marked.terms()) {
        add_back_under_all(marked, listed, targets)?;
    }
    Ok(())
}

// Adds the other set of each pair of which the set may contain one, until the universal term or all targets are
// reached. Returns whether a term is new; if not, the set is closed.
fn add_all(marked: &mut MarkSet, listed: &ListedPairs, targets: &[TermId]) -> Result<bool, NoMemory>
    ensures made { OnOk result (IsMade listed.now.pairs marked.old.marks marked.new.marks) }
    ensures closed { IfOk result (λ b. b ≡ false → AreClosed listed.now.pairs marked.new.marks) }
    ensures more { IfOk result (IsMore marked.old marked.new) }
{
    let from_apart = add_sides(marked, listed, listed.index().apart().as_slice(), targets)?;
    let count = marked.terms().len();
    let from_terms = add_under_first(marked, listed, count, targets)?;
    Ok(either(from_apart, from_terms))
}

// Calls `add_all`, and counts the sets that are indexed under the marked terms as its cost.
fn round(marked: &mut MarkSet, listed: &ListedPairs, targets: &[TermId]) -> Result<bool, NoMemory>
    ensures made { OnOk result (IsMade listed.now.pairs marked.old.marks marked.new.marks) }
    ensures closed { IfOk result (λ b. b ≡ false → AreClosed listed.now.pairs marked.new.marks) }
    ensures more { IfOk result (IsMore marked.old marked.new) }
{
    let cost = load(listed, marked.terms());
    marked.spend(cost);
    add_all(marked, listed, targets)
}

// Whether there is a universal term and it is a member of a pair.
fn has_universal(listed: &ListedPairs, universal: Option<TermId>) -> bool
    ensures { result ≡ option_map_or (λ u. slice_index_or listed.now.members u false) universal false }
{
    match universal {
        Some(term) => listed.has_member(term),
        None => false,
    }
}

// Whether each target is marked or a member of a pair.
fn may_hold_all(listed: &ListedPairs, marked: &MarkSet, targets: &[TermId]) -> bool
    ensures { result ≡ false → (t : ℕ) × Has targets.now t × (slice_index_or marked.now.marks t false ≡ false) × (slice_index_or listed.now.members t false ≡ false) }
{
    for target in targets {
        if !marked.has(*target) {
            if !listed.has_member(*target) {
                return false;
            }
        }
    }
    true
}

// Whether rounds may reach the universal term or all targets.
fn may_reach(listed: &ListedPairs, marked: &MarkSet, targets: &[TermId]) -> bool
    ensures { result ≡ false → are_reached listed.now.universal targets.now (rounds_marked (length listed.now.pairs) listed.now.pairs marked.now.marks) ≡ are_reached listed.now.universal targets.now marked.now.marks }
{
    has_universal(listed, listed.universal()) || may_hold_all(listed, marked, targets)
}

// Performs rounds until the universal term or all targets are reached, or no term is new.
fn saturate(marked: &mut MarkSet, listed: &ListedPairs, targets: &[TermId]) -> Result<(), NoMemory>
    ensures { OnOk result (are_reached listed.now.universal targets.now marked.new.marks ≡ are_reached listed.now.universal targets.now (rounds_marked (length listed.now.pairs) listed.now.pairs marked.old.marks)) }
{
    look_back(marked, listed, targets)?;
    while !is_reached(marked, listed.universal(), targets) {
        let grew = round(marked, listed, targets)?;
        if !grew {
            return Ok(());
        }
    }
    Ok(())
}

/// Whether the closure of the marked terms under the listed pairs contains all targets or the universal term. Stops as
/// soon as the answer is known. The contract speaks of rounds over all pairs: a round for each pair ends in marks to
/// which no pair adds (`MarkEnds`), and such marks, in whatever order pairs made them, are those of rounds
/// (`Closures`).
pub(crate) fn reaches(
    marked: &mut MarkSet,
    listed: &ListedPairs,
    targets: &[TermId],
) -> Result<bool, NoMemory>
    ensures { IfOk result (λ b. b ≡ are_reached listed.now.universal targets.now (rounds_marked (length listed.now.pairs) listed.now.pairs marked.old.marks)) }
{
    if may_reach(listed, marked, targets) {
        saturate(marked, listed, targets)?;
    }
    Ok(is_reached(marked, listed.universal(), targets))
}
