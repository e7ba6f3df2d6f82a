//! Chooses other atoms for a string that breaks hypotheses which do not count, so that it breaks fewer. No clause
//! depends on the choice: the caller checks whether the string that is returned refutes the problem.
ghost use Rattle.std.specs.Prelude.{◌≡◌, ◌⊎◌, ℕ};
ghost use Rattle.kat_model.specs.Members.{Has};
ghost use Rattle.test_diagrams.specs.Functions.{IsDiagramId};

use crate::counting::{ShortHyp, mark_tests};
use crate::walk::FoundString;
use goal_forms::{accepts_atom, accepts_move};
use kat_model::{Items, MAX_TESTS, NoMemory, append};
use std::alloc::Global;
use string_tables::{GString, Move};
use test_diagrams::{DiagramId, Diagrams};

// A place of a string: the region in which its atom must stay, the atom before it and the action that leads to it, and
// the move that follows.
#[derive(Clone, Copy)]
struct Site<'a> {
    region: DiagramId,
    before: Option<&'a [bool]>,
    act: usize,
    after: Option<&'a Move>,
}

// Whether there is a flag at the place and it is set.
fn is_flagged(flags: &[bool], place: usize) -> bool {
    match flags.get(place) {
        Some(flag) => *flag,
        None => false,
    }
}

// Whether the action occurs in the hypothesis.
fn has_act(hyp: &ShortHyp, act: usize) -> bool {
    is_flagged(&hyp.acts, act)
}

// Whether the hypothesis accepts the atom, or the move to it.
fn is_broken_at(hyp: &ShortHyp, site: &Site<'_>, atom: &[bool]) -> bool {
    if accepts_atom(&hyp.hyp, atom) {
        return true;
    }
    match site.before {
        Some(before) => has_act(hyp, site.act) && accepts_move(&hyp.hyp, before, site.act, atom),
        None => false,
    }
}

// Whether the hypothesis accepts the move from the atom.
fn is_broken_after(hyp: &ShortHyp, site: &Site<'_>, atom: &[bool]) -> bool {
    match site.after {
        Some(m) => has_act(hyp, m.act) && accepts_move(&hyp.hyp, atom, m.act, m.atom.as_slice()),
        None => false,
    }
}

// Whether the hypothesis can accept the atom of the site or a move beside it: it has no action, or one of theirs.
fn is_near(hyp: &ShortHyp, site: &Site<'_>) -> bool {
    let has_no_act = !hyp.acts.contains(&true);
    if has_no_act || (site.before.is_some() && has_act(hyp, site.act)) {
        return true;
    }
    match site.after {
        Some(m) => has_act(hyp, m.act),
        None => false,
    }
}

// Returns the places of the hypotheses that can accept the atom of the site or a move beside it.
fn near_places(alloc: Global, hyps: &[ShortHyp], site: &Site<'_>) -> Result<Vec<usize>, NoMemory> {
    let mut places = Vec::new(alloc);
    for (place, hyp) in hyps.iter().enumerate() {
        if is_near(hyp, site) {
            places.push(place)?;
        }
    }
    Ok(places)
}

// Whether the test occurs in the hypothesis.
fn has_test(hyp: &ShortHyp, test: usize) -> bool {
    is_flagged(&hyp.tests, test)
}

// Whether the test occurs in the hypothesis at the place, which counts and is broken at the atom or on a move beside it.
fn blocks(
    hyps: &[ShortHyp],
    counts: &[bool],
    place: usize,
    test: usize,
    site: &Site<'_>,
    atom: &[bool],
) -> bool {
    let Some(hyp) = hyps.get(place) else {
        return false;
    };
    if !has_test(hyp, test) || !is_flagged(counts, place) {
        return false;
    }
    is_broken_at(hyp, site, atom) || is_broken_after(hyp, site, atom)
}

// Whether the atom is in the region, and the hypotheses that count and in which the test occurs allow it and the moves
// beside it.
fn is_possible(
    diagrams: &Diagrams,
    hyps: &[ShortHyp],
    counts: &[bool],
    near: &[usize],
    test: usize,
    site: &Site<'_>,
    atom: &[bool],
) -> bool
    requires { IsDiagramId diagrams.now site.now.region }
{
    if atom.len() != diagrams.tests() || !diagrams.value_at(site.region, atom) {
        return false;
    }
    for place in near {
        if blocks(hyps, counts, *place, test, site, atom) {
            return false;
        }
    }
    true
}

// Returns the number of hypotheses in which the test occurs and that are broken at the atom or on the move to it.
fn broken_count(
    hyps: &[ShortHyp],
    near: &[usize],
    test: usize,
    site: &Site<'_>,
    atom: &[bool],
) -> usize {
    let mut count: usize = 0;
    for place in near {
        if let Some(hyp) = hyps.get(*place) {
            if has_test(hyp, test) && is_broken_at(hyp, site, atom) {
                count = count.saturating_add(1);
            }
        }
    }
    count
}

// Returns for each test whether it occurs in a hypothesis that is broken at the atom or on the move to it.
fn broken_tests(
    alloc: Global,
    hyps: &[ShortHyp],
    near: &[usize],
    site: &Site<'_>,
    atom: &[bool],
) -> Result<Vec<bool>, NoMemory> {
    let mut flags = vec![in alloc; false; MAX_TESTS]?;
    for place in near {
        if let Some(hyp) = hyps.get(*place) {
            if is_broken_at(hyp, site, atom) {
                mark_tests(hyp, &mut flags);
            }
        }
    }
    Ok(flags)
}

// Changes single tests of the atom wherever the atom stays possible and fewer hypotheses are broken: only those in which
// the test occurs can change. `tests` are those that occur in broken hypotheses. Returns whether a test was changed.
fn change_tests(
    diagrams: &Diagrams,
    hyps: &[ShortHyp],
    counts: &[bool],
    near: &[usize],
    tests: &[bool],
    site: &Site<'_>,
    atom: &mut [bool],
) -> bool
    requires { IsDiagramId diagrams.now site.now.region }
{
    let mut changed = false;
    for test in 0..atom.len() {
        if is_flagged(tests, test) {
            let before = broken_count(hyps, near, test, site, atom);
            atom[test] = !atom[test];
            let after = broken_count(hyps, near, test, site, atom);
            if after < before && is_possible(diagrams, hyps, counts, near, test, site, atom) {
                changed = true;
            } else {
                atom[test] = !atom[test];
            }
        }
    }
    changed
}

// Returns an atom for the site that breaks no more hypotheses than `atom`.
fn better_atom(
    alloc: Global,
    diagrams: &Diagrams,
    hyps: &[ShortHyp],
    counts: &[bool],
    site: &Site<'_>,
    atom: &[bool],
) -> Result<Vec<bool>, NoMemory>
    requires { IsDiagramId diagrams.now site.now.region }
{
    let near = near_places(alloc, hyps, site)?;
    let mut best = Vec::from_slice(alloc, atom)?;
    for _ in 0..atom.len() {
        let tests = broken_tests(alloc, hyps, &near, site, &best)?;
        if !change_tests(diagrams, hyps, counts, &near, &tests, site, &mut best) {
            return Ok(best);
        }
    }
    Ok(best)
}

// Returns the region of the atom at this place of a string of `moves` moves. The regions of a string begin with that of
// its last move.
fn region_at(regions: &[DiagramId], last: DiagramId, moves: usize, place: usize) -> DiagramId
    ensures { (result ≡ last) ⊎ Has regions.now result }
{
    if place >= moves {
        return last;
    }
    let index = moves - place - 1;
    if index < regions.len() {
        return regions[index];
    }
    last
}

// Returns the last atom of a string that begins with `first` and continues with the moves.
fn last_atom<'a>(first: &'a [bool], moves: &'a [Move]) -> &'a [bool] {
    match moves.last() {
        Some(m) => m.atom.as_slice(),
        None => first,
    }
}

/// Returns a string along the regions of `found`, with the same actions, that breaks fewer hypotheses. At the end it
/// stays among the atoms of `last`.
pub(crate) fn smoothed(
    alloc: Global,
    diagrams: &Diagrams,
    hyps: &[ShortHyp],
    counts: &[bool],
    found: &FoundString,
    last: DiagramId,
) -> Result<GString, NoMemory>
    requires regions { (id : ℕ) → Has found.now.regions.items id → IsDiagramId diagrams.now id }
    requires last { IsDiagramId diagrams.now last }
{
    let rest = found.string.rest.as_slice();
    let regions = found.regions.as_slice();
    let first_region = region_at(regions, last, rest.len(), 0);
    let site = Site {
        region: first_region,
        before: None,
        act: 0,
        after: rest.first(),
    };
    let start = found.string.first.as_slice();
    let first = better_atom(alloc, diagrams, hyps, counts, &site, start)?;
    let mut moves = Vec::new(alloc);
    for (place, m) in rest.iter().enumerate() {
        let region = region_at(regions, last, rest.len(), place + 1);
        let site = Site {
            region,
            before: Some(last_atom(&first, &moves)),
            act: m.act,
            after: rest.get(place + 1),
        };
        let next = better_atom(alloc, diagrams, hyps, counts, &site, m.atom.as_slice())?;
        let atom = Items::of(next);
        append(&mut moves, Move { act: m.act, atom })?;
    }
    Ok(GString {
        first: Items::of(first),
        rest: Items::of(moves),
    })
}
