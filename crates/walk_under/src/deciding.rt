//! Decides a problem by walks under tests that count more and more of its short hypotheses.
ghost use Rattle.std.specs.Prelude.{◌≡◌, ◌↔◌, ◌<◌, ℕ, List, [], true, false, length, slice_index_or, IfOk, OnOk, MatchOption, IsTrue, IsFalse};
ghost use Rattle.kat_model.specs.Members.{Has};
ghost use Rattle.kat_model.specs.Trees.{Term};
ghost use Rattle.kat_model.specs.Problems.{IsProblem};
ghost use Rattle.kat_model.specs.Relations.{Same};
ghost use Rattle.kat_model.specs.Closed.{closed};
ghost use Rattle.kat_model.specs.Degrees.{long_hyps, with_hyps};
ghost use Rattle.string_tables.specs.Tables.{Refutes};
ghost use Rattle.certificate.specs.Decisions.{IsShortest, node_terms};
ghost use Rattle.term_nodes.specs.NodeLists.{NodeParts, AreNodes};
ghost use Rattle.term_nodes.specs.NodeTrees.{tree_at, HasTree};
ghost use Rattle.term_nodes.specs.Growth.{Grows};
ghost use Rattle.test_diagrams.specs.Functions.{IsDiagramId, KeepsFunctions};
ghost use Rattle.walk_pairs.specs.ClosedTerms.{AreIdsOf};
ghost use Rattle.walk_under.specs.Decisions.{IsDecisionUnder};
ghost use Rattle.walk_under.specs.Counting.{uncounted, AreShortHyps, StillCount};
ghost use Rattle.walk_under.specs.Working.Counting.{IsCountedList, IsFoundUnder, HasEnded, IsOutcome, MayBegin, IsTurnEnd};
ghost use Rattle.walk_under.specs.Working.Walking.{walk_context, AreClosedIds, IsUnderWay, IsDifference};

use crate::counting::{
    ShortHyp, broken_by, count_all, count_next, counted_ids, first_counts, has_some, limit_of,
    short_hyps,
};
use crate::smoothing::smoothed;
use crate::walk::{FoundDifference, FoundString, RunEnd, TestedWorklist};
use certificate::{Evidence, Style};
use goal_forms::{eliminate, is_short, long_problem};
use kat_model::{NoMemory, Problem};
use std::alloc::Global;
use string_tables::{GString, refutes};
use term_store::Store;
use test_diagrams::{DiagramId, Diagrams};
use walk_pairs::{ClosedIds, cert_of, closed_ids};

/// How one walk of a problem ends.
#[derive(Drop)]
pub(crate) enum TurnEnd {
    /// The walk found no difference.
    Alike,
    /// The string refutes the problem.
    Refuted(GString),
    /// The next walk counts more hypotheses.
    Again,
}

/// How the walks of a problem end.
#[derive(Drop)]
pub(crate) enum Outcome {
    /// A walk found no difference.
    Alike(TestedWorklist),
    /// The string refutes the problem.
    Refuted(GString),
}

// Whether some hypothesis of the problem is long.
fn has_long(problem: &Problem) -> bool
    ensures { result ≡ false → long_hyps problem.now ≡ [] }
{
    for hyp in problem.hyps() {
        let short = is_short(hyp);
        if !short {
            return true;
        }
    }
    false
}

// Returns the ids of the sides of the problem, which are the closed sides if no hypothesis is long. Nothing is copied.
fn own_sides(store: &mut Store, problem: &Problem) -> Result<ClosedIds, NoMemory>
    ensures ids { IfOk result (AreIdsOf store.new (closed (with_hyps problem.now []))) }
    ensures kept { Grows store.old store.new }
{
    let left = store.of_tree(problem.left())?;
    let right = store.of_tree(problem.right())?;
    Ok(ClosedIds {
        left,
        right,
        universal: None,
    })
}

// Returns the ids of the closed sides of the problem with only its long hypotheses.
fn side_ids(alloc: Global, store: &mut Store, problem: &Problem) -> Result<ClosedIds, NoMemory>
    ensures ids { IfOk result (AreIdsOf store.new (closed (with_hyps problem.now (long_hyps problem.now)))) }
    ensures kept { Grows store.old store.new }
{
    let any_long = has_long(problem);
    if !any_long {
        return own_sides(store, problem);
    }
    let long = long_problem(alloc, problem)?;
    let closed = eliminate(alloc, &long)?;
    closed_ids(store, &closed)
}

// Whether the string has as many moves as the other.
fn has_as_many(string: &GString, other: &GString) -> bool
    ensures { IsTrue result → length string.now.rest ≡ length other.now.rest }
{
    let count = string.rest.as_slice().len();
    let expected = other.rest.as_slice().len();
    count == expected
}

// Whether the string refutes the problem and has as many moves as the other.
fn is_answer(
    alloc: Global,
    problem: &Problem,
    string: &GString,
    other: &GString,
) -> Result<bool, NoMemory>
    ensures count { IfOk result (λ shown. IsTrue shown → length string.now.rest ≡ length other.now.rest) }
    ensures refutes { IfOk result (λ shown. IsTrue shown → Refutes problem.now string.now) }
{
    let alike = has_as_many(string, other);
    if !alike {
        return Ok(false);
    }
    refutes(alloc, problem, string)
}

// A string, and the places of hypotheses that it breaks and that do not count.
#[derive(Clone, Copy)]
struct BrokenString<'a> {
    string: &'a GString,
    broken: &'a [usize],
}

// Judges a string that was made of `found`, which breaks hypotheses. Returns whether it refutes the problem; otherwise
// makes more hypotheses count.
fn judge_smoothed(
    alloc: Global,
    problem: &Problem,
    hyps: &[ShortHyp],
    counts: &mut [bool],
    found: &BrokenString<'_>,
    made: &BrokenString<'_>,
) -> Result<bool, NoMemory>
    requires flags { length counts.old ≡ length hyps.now }
    requires hyps { (store : NodeParts) × AreShortHyps problem.now store hyps.now }
    requires found { IsFoundUnder problem.now hyps.now counts.old found.now.string.now }
    requires some { 0 < length found.now.broken.now }
    requires broken { (i : ℕ) → Has found.now.broken.now i → (i < length counts.old) × (slice_index_or counts.old i true ≡ false) }
    requires rest { (i : ℕ) → Has made.now.broken.now i → (i < length counts.old) × (slice_index_or counts.old i true ≡ false) }
    ensures shown { IfOk result (λ shown. IsTrue shown → IsShortest problem.now made.now.string.now) }
    ensures fewer { IfOk result (λ shown. IsFalse shown → uncounted counts.new < uncounted counts.old) }
    ensures counting { StillCount counts.old counts.new }
    ensures flags { length counts.new ≡ length counts.old }
{
    let rest = made.broken;
    let breaks = has_some(rest);
    if breaks {
        count_next(alloc, hyps, counts, rest)?;
        return Ok(false);
    }
    let shown = is_answer(alloc, problem, made.string, found.string)?;
    if shown {
        return Ok(true);
    }
    count_next(alloc, hyps, counts, found.broken)?;
    Ok(false)
}

// Finds the hypotheses that the string breaks and that do not count, and judges it.
fn judge_string(
    alloc: Global,
    problem: &Problem,
    hyps: &[ShortHyp],
    counts: &mut [bool],
    found: &BrokenString<'_>,
    string: &GString,
) -> Result<bool, NoMemory>
    requires flags { length counts.old ≡ length hyps.now }
    requires hyps { (store : NodeParts) × AreShortHyps problem.now store hyps.now }
    requires found { IsFoundUnder problem.now hyps.now counts.old found.now.string.now }
    requires some { 0 < length found.now.broken.now }
    requires broken { (i : ℕ) → Has found.now.broken.now i → (i < length counts.old) × (slice_index_or counts.old i true ≡ false) }
    ensures shown { IfOk result (λ shown. IsTrue shown → IsShortest problem.now string.now) }
    ensures fewer { IfOk result (λ shown. IsFalse shown → uncounted counts.new < uncounted counts.old) }
    ensures counting { StillCount counts.old counts.new }
    ensures flags { length counts.new ≡ length counts.old }
{
    let rest = broken_by(alloc, hyps, counts, string)?;
    let made = BrokenString {
        string,
        broken: rest.as_slice(),
    };
    judge_smoothed(alloc, problem, hyps, counts, found, &made)
}

// Judges a string that breaks hypotheses which do not count. Returns a string of as many moves that refutes the problem,
// if one along the same regions is found; otherwise makes more hypotheses count. The walk is given up then: its later
// differences are no answers, since the pair of the first may also be reached along allowed moves.
fn judge(
    alloc: Global,
    problem: &Problem,
    diagrams: &Diagrams,
    hyps: &[ShortHyp],
    counts: &mut [bool],
    found: &FoundString,
    last: DiagramId,
    broken: &[usize],
) -> Result<Option<GString>, NoMemory>
    requires flags { length counts.old ≡ length hyps.now }
    requires hyps { (store : NodeParts) × AreShortHyps problem.now store hyps.now }
    requires found { IsFoundUnder problem.now hyps.now counts.old found.now.string }
    requires regions { (id : ℕ) → Has found.now.regions.items id → IsDiagramId diagrams.now id }
    requires last { IsDiagramId diagrams.now last }
    requires some { 0 < length broken.now }
    requires broken { (i : ℕ) → Has broken.now i → (i < length counts.old) × (slice_index_or counts.old i true ≡ false) }
    ensures answer { IfOk result (λ answer. MatchOption answer (uncounted counts.new < uncounted counts.old) (IsShortest problem.now)) }
    ensures counting { StillCount counts.old counts.new }
    ensures flags { length counts.new ≡ length counts.old }
{
    let string = smoothed(alloc, diagrams, hyps, counts, found, last)?;
    let whole = BrokenString {
        string: &found.string,
        broken,
    };
    let shown = judge_string(alloc, problem, hyps, counts, &whole, &string)?;
    if shown {
        return Ok(Some(string));
    }
    Ok(None)
}

// Returns a string that refutes the problem and has the fewest moves if the difference leads to one; otherwise makes
// more hypotheses count.
fn string_of(
    alloc: Global,
    problem: &Problem,
    walk: &mut TestedWorklist,
    hyps: &[ShortHyp],
    counts: &mut [bool],
    found: FoundDifference,
) -> Result<Option<GString>, NoMemory>
    requires flags { length counts.old ≡ length hyps.now }
    requires region { IsDiagramId walk.old.diagrams found.region }
    requires found { (store : NodeParts) × (counted : List Term) × IsCountedList problem.now hyps.now counts.old counted
        × IsUnderWay (walk_context counted (with_hyps problem.now (long_hyps problem.now)) store) walk.old found.place
        × IsDifference (walk_context counted (with_hyps problem.now (long_hyps problem.now)) store) walk.old found.place found.atom.items }
    requires hyps { (store : NodeParts) × AreShortHyps problem.now store hyps.now }
    ensures answer { IfOk result (λ answer. MatchOption answer (uncounted counts.new < uncounted counts.old) (IsShortest problem.now)) }
    ensures counting { StillCount counts.old counts.new }
    ensures flags { length counts.new ≡ length counts.old }
    ensures derivatives { OnOk result (walk.new.derivatives ≡ walk.old.derivatives) }
    ensures kept { OnOk result (KeepsFunctions walk.old.diagrams walk.new.diagrams) }
{
    let string = walk.string_to(alloc, found.place, found.atom)?;
    let broken = broken_by(alloc, hyps, counts, &string.string)?;
    let places = broken.as_slice();
    let breaks = has_some(places);
    if !breaks {
        return Ok(Some(string.into_string()));
    }
    let diagrams = walk.diagrams();
    judge(
        alloc,
        problem,
        diagrams,
        hyps,
        counts,
        &string,
        found.region,
        places,
    )
}

// Begins a walk that counts these hypotheses.
fn begin_counted(
    alloc: Global,
    store: &mut Store,
    problem: &Problem,
    walk: &mut TestedWorklist,
    sides: &ClosedIds,
    hyps: &[ShortHyp],
    counts: &[bool],
) -> Result<(), NoMemory>
    requires flags { length counts.now ≡ length hyps.now }
    requires hyps { AreShortHyps problem.now store.old hyps.now }
    requires sides { AreClosedIds (with_hyps problem.now (long_hyps problem.now)) store.old sides.now }
    requires walk { MayBegin problem.now store.old walk.old }
    ensures begun { OnOk result ((counted : List Term) × IsCountedList problem.now hyps.now counts.now counted
        × IsUnderWay (walk_context counted (with_hyps problem.now (long_hyps problem.now)) store.new) walk.new 0) }
    ensures kept { Grows store.old store.new }
{
    let ids = counted_ids(alloc, hyps, counts)?;
    walk.begin(alloc, store, problem.actions(), &ids, sides)
}

// Runs a walk that counts these hypotheses. If it gives no answer, makes more hypotheses count.
fn turn(
    alloc: Global,
    store: &mut Store,
    problem: &Problem,
    walk: &mut TestedWorklist,
    sides: &ClosedIds,
    hyps: &[ShortHyp],
    counts: &mut [bool],
) -> Result<TurnEnd, NoMemory>
    requires flags { length counts.old ≡ length hyps.now }
    requires hyps { AreShortHyps problem.now store.old hyps.now }
    requires sides { AreClosedIds (with_hyps problem.now (long_hyps problem.now)) store.old sides.now }
    requires walk { MayBegin problem.now store.old walk.old }
    ensures end { IfOk result (IsTurnEnd problem.now store.new walk.new counts.old counts.new) }
    ensures counting { StillCount counts.old counts.new }
    ensures flags { length counts.new ≡ length counts.old }
    ensures kept { Grows store.old store.new }
{
    begin_counted(alloc, store, problem, walk, sides, hyps, counts)?;
    let actions = problem.actions();
    let limit = limit_of(counts);
    let end = walk.run(alloc, store, actions, limit)?;
    match end {
        RunEnd::Ended => Ok(TurnEnd::Alike),
        RunEnd::Full => {
            count_all(counts);
            Ok(TurnEnd::Again)
        }
        RunEnd::Found(found) => {
            let answer = string_of(alloc, problem, walk, hyps, counts, found)?;
            match answer {
                Some(string) => Ok(TurnEnd::Refuted(string)),
                None => Ok(TurnEnd::Again),
            }
        }
    }
}

// Runs walks that count more and more short hypotheses, until one finds no difference or finds a string that refutes
// the problem, which is returned. Each walk has the diagrams and the derivatives of those before it.
fn string_found(
    alloc: Global,
    store: &mut Store,
    problem: &Problem,
    walk: &mut TestedWorklist,
    sides: &ClosedIds,
    hyps: &[ShortHyp],
    counts: &mut [bool],
) -> Result<Option<GString>, NoMemory>
    requires within { IsProblem problem.now }
    requires flags { length counts.old ≡ length hyps.now }
    requires hyps { AreShortHyps problem.now store.old hyps.now }
    requires sides { AreClosedIds (with_hyps problem.now (long_hyps problem.now)) store.old sides.now }
    requires walk { MayBegin problem.now store.old walk.old }
    ensures answer { IfOk result (λ answer. MatchOption answer (HasEnded problem.now store.new walk.new) (IsShortest problem.now)) }
    ensures kept { Grows store.old store.new }
{
    'walks: loop {
        match turn(alloc, store, problem, walk, sides, hyps, counts)? {
            TurnEnd::Alike => return Ok(None),
            TurnEnd::Refuted(string) => return Ok(Some(string)),
            TurnEnd::Again => {}
        }
    }
}

// Returns the string that the walks of the problem find, if they find one. Otherwise the last walk has ended.
fn string_of_walks(
    alloc: Global,
    store: &mut Store,
    problem: &Problem,
    walk: &mut TestedWorklist,
    sides: &ClosedIds,
) -> Result<Option<GString>, NoMemory>
    requires within { IsProblem problem.now }
    requires sides { AreClosedIds (with_hyps problem.now (long_hyps problem.now)) store.old sides.now }
    requires walk { (s : NodeParts) → MayBegin problem.now s walk.old }
    ensures answer { IfOk result (λ answer. MatchOption answer (HasEnded problem.now store.new walk.new) (IsShortest problem.now)) }
    ensures kept { Grows store.old store.new }
{
    let shorts = short_hyps(alloc, store, problem)?;
    let hyps = shorts.as_slice();
    let mut flags = first_counts(alloc, hyps)?;
    let counts = flags.as_mut_slice();
    string_found(alloc, store, problem, walk, sides, hyps, counts)
}

// Returns how the walks of the problem end.
fn outcome_of(alloc: Global, store: &mut Store, problem: &Problem) -> Result<Outcome, NoMemory>
    ensures within { IfOk result (λ outcome. IsProblem problem.now) }
    ensures outcome { IfOk result (IsOutcome problem.now store.new) }
    ensures kept { Grows store.old store.new }
{
    let tests = problem.tests();
    let sides = side_ids(alloc, store, problem)?;
    // The proof needs the invariants of the store.
    let _ = store.count();
    let mut walk = TestedWorklist::new(alloc, tests)?;
    let found = string_of_walks(alloc, store, problem, &mut walk, &sides)?;
    match found {
        Some(string) => Ok(Outcome::Refuted(string)),
        None => Ok(Outcome::Alike(walk)),
    }
}

// Returns the certificate of a walk that found no difference.
fn evidence_of(
    alloc: Global,
    store: &mut Store,
    problem: &Problem,
    walk: &mut TestedWorklist,
) -> Result<Evidence, NoMemory>
    requires within { IsProblem problem.now }
    requires ended { HasEnded problem.now store.old walk.old }
    ensures decision { IfOk result (IsDecisionUnder problem.now) }
    ensures nodes { IfOk result (λ e. (t : Term) → Has (node_terms e) t → HasTree store.new t) }
    ensures kept { Grows store.old store.new }
{
    let pairs = walk.merge(alloc, store)?;
    // The proof needs the invariants of the store.
    let _ = store.count();
    let cert = cert_of(alloc, store, Style::Under, &pairs)?;
    Ok(Evidence::Equal(cert))
}

/// Decides whether both sides of `problem` denote the same relation in each table that satisfies the hypotheses.
/// Returns evidence: a certificate of pairs under tests, or a string that refutes the problem and has the fewest moves.
/// Short hypotheses are not eliminated, and only those count that strings show to matter. On success the store has ids
/// of the terms of a certificate's nodes. All older ids keep their trees. Fails only when out of memory; on failure,
/// extra nodes may remain.
pub fn decide_under(
    alloc: Global,
    store: &mut Store,
    problem: &Problem,
) -> Result<Evidence, NoMemory>
    ensures decision { IfOk result (IsDecisionUnder problem.now) }
    ensures nodes { IfOk result (λ e. (t : Term) → Has (node_terms e) t → HasTree store.new t) }
    ensures kept { Grows store.old store.new }
{
    let outcome = outcome_of(alloc, store, problem)?;
    match outcome {
        Outcome::Alike(mut walk) => evidence_of(alloc, store, problem, &mut walk),
        Outcome::Refuted(string) => Ok(Evidence::Different(string)),
    }
}

/// Returns whether both sides of `problem` denote the same relation in each table that satisfies the hypotheses, by the
/// walks of `decide_under`, but without a certificate. All older ids keep their trees. Fails only when out of memory; on
/// failure, extra nodes may remain.
pub fn is_same_under(alloc: Global, store: &mut Store, problem: &Problem) -> Result<bool, NoMemory>
    ensures same { IfOk result (λ same. IsTrue same ↔ Same problem.now) }
    ensures kept { Grows store.old store.new }
{
    let outcome = outcome_of(alloc, store, problem)?;
    match outcome {
        Outcome::Alike(_) => Ok(true),
        Outcome::Refuted(_) => Ok(false),
    }
}
