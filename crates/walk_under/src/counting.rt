//! The short hypotheses of a problem, and those that count in a walk. A walk that counts few of them is quick. A string
//! that it finds shows others to count: those that the string breaks (refinement by counterexamples: Clarke and others
//! 2000).
ghost use Rattle.std.specs.Prelude.{◌≡◌, ◌⊎◌, ◌↔◌, ◌<◌, ◌≤◌, ◌∷◌, ℕ, true, false, [], length, slice_index_or, IfOk, OnOk, IfSome, IsTrue};
ghost use Rattle.kat_model.specs.Members.{Has};
ghost use Rattle.kat_model.specs.Trees.{kat_tree};
ghost use Rattle.kat_model.specs.Steps.{out};
ghost use Rattle.kat_model.specs.Strings.{accepts};
ghost use Rattle.term_nodes.specs.NodeLists.{IsTerm};
ghost use Rattle.term_nodes.specs.NodeTrees.{tree_at};
ghost use Rattle.term_nodes.specs.Growth.{Grows};
ghost use Rattle.goal_forms.specs.Broken.{IsBrokenBy};
ghost use Rattle.walk_under.specs.Counting.{uncounted, AreShortHyps, AreCounted, AreBroken, StillCount, CountsSome};

use goal_forms::{accepts_atom, accepts_move, is_short};
use kat_model::{Kat, MAX_TESTS, NoMemory, Problem, Test};
use std::alloc::Global;
use string_tables::{GString, Move};
use term_store::{Store, TermId};

// The maximal number of pairs of a walk that does not count all short hypotheses.
const PAIR_LIMIT: usize = 2_000;

/// A short hypothesis, its id, and the tests and actions that occur in it.
pub(crate) struct ShortHyp {
    pub hyp: Kat,
    pub term: TermId,
    pub tests: Vec<bool>,
    pub acts: Vec<bool>,
}

// Explicit, so that it is proved once and not at each end of each function that owns one.
impl Drop for ShortHyp {
    fn drop(self) {
        let ShortHyp {
            hyp: _hyp,
            term: _,
            tests: _tests,
            acts: _acts,
        } = self;
    }
}

// Sets the flag of each test that occurs in the test.
fn mark_parts(test: &Test, marks: &mut [bool]) {
    match test {
        Test::False | Test::True => {}
        Test::Prim(k) => mark(marks, *k),
        Test::Not(b) => mark_parts(b, marks),
        Test::And(b, c) | Test::Or(b, c) => {
            mark_parts(b, marks);
            mark_parts(c, marks);
        }
    }
}

// Sets the flag at this place, if there is one.
fn mark(marks: &mut [bool], place: usize) {
    if place < marks.len() {
        marks[place] = true;
    }
}

// Sets the flags of the tests and of the actions that occur in the term.
fn mark_all(term: &Kat, tests: &mut [bool], acts: &mut [bool]) {
    match term {
        Kat::Zero | Kat::One => {}
        Kat::Test(b) => mark_parts(b, tests),
        Kat::Act(a) => mark(acts, *a),
        Kat::Sum(e, f) | Kat::Seq(e, f) => {
            mark_all(e, tests, acts);
            mark_all(f, tests, acts);
        }
        Kat::Star(e) => mark_all(e, tests, acts),
    }
}

// Returns the hypothesis with its id.
fn short_hyp(
    alloc: Global,
    store: &mut Store,
    problem: &Problem,
    hyp: &Kat,
) -> Result<ShortHyp, NoMemory>
    ensures tree { IfOk result (λ h. kat_tree h.hyp ≡ kat_tree hyp.now) }
    ensures id { IfOk result (λ h. IsTerm store.new h.term) }
    ensures term { IfOk result (λ h. tree_at store.new h.term ≡ kat_tree hyp.now) }
    ensures kept { Grows store.old store.new }
{
    let term = store.of_tree(hyp)?;
    let copy = hyp.copy(alloc)?;
    let mut tests = vec![in alloc; false; problem.tests()]?;
    let mut acts = vec![in alloc; false; problem.actions()]?;
    mark_all(hyp, &mut tests, &mut acts);
    Ok(ShortHyp {
        hyp: copy,
        term,
        tests,
        acts,
    })
}

/// Returns the short hypotheses of the problem, in their order.
pub(crate) fn short_hyps(
    alloc: Global,
    store: &mut Store,
    problem: &Problem,
) -> Result<Vec<ShortHyp>, NoMemory>
    ensures hyps { IfOk result (λ v. AreShortHyps problem.now store.new v.items) }
    ensures kept { Grows store.old store.new }
{
    // The proof needs the limits of the problem.
    let _tests = problem.tests();
    let mut shorts = Vec::new(alloc);
    for hyp in problem.hyps() {
        if is_short(hyp) {
            shorts.push(short_hyp(alloc, store, problem, hyp)?)?;
        }
    }
    Ok(shorts)
}

/// Returns for each hypothesis whether it counts in the first walk: if no test occurs in it.
pub(crate) fn first_counts(alloc: Global, hyps: &[ShortHyp]) -> Result<Vec<bool>, NoMemory>
    ensures { IfOk result (λ v. length v.items ≡ length hyps.now) }
{
    let mut counts = Vec::new(alloc);
    for hyp in hyps {
        counts.push(count_of(&hyp.tests) == 0)?;
    }
    Ok(counts)
}

/// Returns the ids of the hypotheses that count.
pub(crate) fn counted_ids(
    alloc: Global,
    hyps: &[ShortHyp],
    counts: &[bool],
) -> Result<Vec<TermId>, NoMemory>
    requires { length counts.now ≡ length hyps.now }
    ensures { IfOk result (λ v. AreCounted hyps.now counts.now v.items) }
{
    let mut ids = Vec::new(alloc);
    for (place, hyp) in hyps.iter().enumerate() {
        let counted = counts[place];
        if counted {
            ids.push(hyp.term)?;
        }
    }
    Ok(ids)
}

/// Returns the maximal number of pairs of a walk, if there is one: if some hypothesis does not count.
pub(crate) fn limit_of(counts: &[bool]) -> Option<usize>
    ensures { IfSome result (λ n. 0 < uncounted counts.now) }
{
    for counted in counts {
        if !*counted {
            return Some(PAIR_LIMIT);
        }
    }
    None
}

// Returns the atom after the move.
fn atom_after(m: &Move) -> &[bool]
    ensures { result.now ≡ m.now.atom }
{
    m.atom.as_slice()
}

// Whether the hypothesis accepts the move.
fn breaks_on(hyp: &Kat, from: &[bool], m: &Move) -> bool
    ensures { result ≡ accepts (kat_tree hyp.now) from.now (m.now ∷ []) }
{
    accepts_move(hyp, from, m.act, m.atom.as_slice())
}

// Whether the hypothesis accepts the move from the atom, or the atom after it.
fn is_broken_on(hyp: &Kat, from: &[bool], m: &Move) -> bool
    ensures { IsTrue result ↔ (IsTrue (accepts (kat_tree hyp.now) from.now (m.now ∷ [])) ⊎ IsTrue (out (kat_tree hyp.now) m.now.atom)) }
{
    let breaks = breaks_on(hyp, from, m);
    if breaks {
        return true;
    }
    accepts_atom(hyp, atom_after(m))
}

// Whether the string breaks the hypothesis: whether the hypothesis accepts one of its atoms or moves.
fn is_broken_by(hyp: &Kat, string: &GString) -> bool
    ensures { IsTrue result ↔ IsBrokenBy (kat_tree hyp.now) string.now.first string.now.rest }
{
    let mut from = string.first.as_slice();
    let starts = accepts_atom(hyp, from);
    if starts {
        return true;
    }
    for m in string.rest.as_slice() {
        let breaks = is_broken_on(hyp, from, m);
        if breaks {
            return true;
        }
        from = atom_after(m);
    }
    false
}

// Whether the hypothesis does not count and the string breaks it.
fn is_broken(hyp: &ShortHyp, counted: bool, string: &GString) -> bool
    ensures { IsTrue result ↔ ((counted ≡ false) × IsBrokenBy (kat_tree hyp.now.hyp) string.now.first string.now.rest) }
{
    if counted {
        return false;
    }
    is_broken_by(&hyp.hyp, string)
}

/// Returns the places of the hypotheses that do not count and that the string breaks.
pub(crate) fn broken_by(
    alloc: Global,
    hyps: &[ShortHyp],
    counts: &[bool],
    string: &GString,
) -> Result<Vec<usize>, NoMemory>
    requires { length counts.now ≡ length hyps.now }
    ensures { IfOk result (λ v. AreBroken hyps.now counts.now string.now v.items) }
{
    let mut broken = Vec::new(alloc);
    for (place, hyp) in hyps.iter().enumerate() {
        let counted = counts[place];
        if is_broken(hyp, counted, string) {
            broken.push(place)?;
        }
    }
    Ok(broken)
}

/// Whether there is a place.
pub(crate) fn has_some(places: &[usize]) -> bool
    ensures { IsTrue result ↔ 0 < length places.now }
{
    places.len() > 0
}

/// Makes all hypotheses count.
pub(crate) fn count_all(counts: &mut [bool])
    requires { 0 < uncounted counts.old }
    ensures fewer { uncounted counts.new < uncounted counts.old }
    ensures kept { StillCount counts.old counts.new }
    ensures all { (i : ℕ) → i < length counts.old → slice_index_or counts.new i false ≡ true }
    ensures flags { length counts.new ≡ length counts.old }
{
    for place in 0..counts.len() {
        counts[place] = true;
    }
}

// Returns the number of flags that are set.
fn count_of(flags: &[bool]) -> usize {
    let mut count: usize = 0;
    for flag in flags {
        if *flag {
            count = count.saturating_add(1);
        }
    }
    count
}

// Whether the flag at this place is set.
fn is_set(flags: &[bool], place: usize) -> bool {
    match flags.get(place) {
        Some(flag) => *flag,
        None => false,
    }
}

/// Sets the flags of the tests that occur in the hypothesis.
pub(crate) fn mark_tests(hyp: &ShortHyp, flags: &mut [bool]) {
    for (test, occurs) in hyp.tests.iter().enumerate() {
        if *occurs {
            mark(flags, test);
        }
    }
}

// Returns the tests that occur in hypotheses that count.
fn known_tests(alloc: Global, hyps: &[ShortHyp], counts: &[bool]) -> Result<Vec<bool>, NoMemory> {
    let mut known = vec![in alloc; false; MAX_TESTS]?;
    for (place, hyp) in hyps.iter().enumerate() {
        if is_set(counts, place) {
            mark_tests(hyp, &mut known);
        }
    }
    Ok(known)
}

// Returns the number of tests of the hypothesis at this place that are not known, and the number of its tests.
fn cost_of(hyps: &[ShortHyp], known: &[bool], place: usize) -> (usize, usize) {
    let Some(hyp) = hyps.get(place) else {
        return (0, 0);
    };
    let mut fresh: usize = 0;
    for (test, occurs) in hyp.tests.iter().enumerate() {
        if *occurs && !is_set(known, test) {
            fresh = fresh.saturating_add(1);
        }
    }
    (fresh, count_of(&hyp.tests))
}

// Returns the place whose hypothesis costs less, or the first.
fn cheaper(hyps: &[ShortHyp], known: &[bool], first: usize, second: usize) -> usize
    ensures { (result ≡ first) ⊎ (result ≡ second) }
{
    let cost = cost_of(hyps, known, first);
    let other = cost_of(hyps, known, second);
    if other < cost {
        return second;
    }
    first
}

// Returns the place of a broken hypothesis to count: the one with the fewest tests that are not known, then with the
// fewest tests, then the first. No clause depends on the choice. With single hypotheses in place of those with the same
// tests, `keep` at 46 took 1,127 walks in place of 47.
fn next_place(hyps: &[ShortHyp], known: &[bool], broken: &[usize]) -> usize
    requires { 0 < length broken.now }
    ensures { Has broken.now result }
{
    let mut chosen = broken[0];
    for place in broken {
        chosen = cheaper(hyps, known, chosen, *place);
    }
    chosen
}

// Makes the hypothesis at the place count if `same` is set.
fn count_if(counts: &mut [bool], place: usize, same: bool)
    requires { place < length counts.old }
    ensures fewer { uncounted counts.new ≤ uncounted counts.old }
    ensures kept { StillCount counts.old counts.new }
    ensures flags { length counts.new ≡ length counts.old }
{
    if !same {
        return;
    }
    counts[place] = true;
}

// Makes the hypothesis at the place count, and all hypotheses in which the same tests occur.
fn count_like(hyps: &[ShortHyp], counts: &mut [bool], place: usize)
    requires flags { length counts.old ≡ length hyps.now }
    requires place { place < length counts.old }
    requires uncounted { slice_index_or counts.old place true ≡ false }
    ensures fewer { uncounted counts.new < uncounted counts.old }
    ensures kept { StillCount counts.old counts.new }
    ensures place { slice_index_or counts.new place false ≡ true }
    ensures flags { length counts.new ≡ length counts.old }
{
    counts[place] = true;
    let tests = hyps[place].tests.as_slice();
    for (other, hyp) in hyps.iter().enumerate() {
        let same = hyp.tests.as_slice() == tests;
        count_if(counts, other, same);
    }
}

/// Makes at least one of the broken hypotheses count. What counted still counts.
pub(crate) fn count_next(
    alloc: Global,
    hyps: &[ShortHyp],
    counts: &mut [bool],
    broken: &[usize],
) -> Result<(), NoMemory>
    requires flags { length counts.old ≡ length hyps.now }
    requires some { 0 < length broken.now }
    requires broken { (i : ℕ) → Has broken.now i → (i < length counts.old) × (slice_index_or counts.old i true ≡ false) }
    ensures fewer { OnOk result (uncounted counts.new < uncounted counts.old) }
    ensures kept { StillCount counts.old counts.new }
    ensures some { OnOk result (CountsSome broken.now counts.new) }
    ensures flags { length counts.new ≡ length counts.old }
{
    let known = known_tests(alloc, hyps, counts)?;
    let place = next_place(hyps, &known, broken);
    count_like(hyps, counts, place);
    Ok(())
}
