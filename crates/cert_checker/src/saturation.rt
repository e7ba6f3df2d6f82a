//! Saturation of a set of terms by pairs (congruence closure: Bonchi and Pous 2013). Visits only the pairs that the
//! index lists under reached or wanted terms, and the pairs with an empty set.
ghost use Rattle.std.specs.Prelude.{◌≡◌, ◌↔◌, ◌⊎◌, ℕ, [], IsTrue, IfOk, OnOk};
ghost use Rattle.kat_model.specs.Members.{Has, IsSubset};
ghost use Rattle.cert_checker.specs.Indices.{places_at, places_under};
ghost use Rattle.cert_checker.specs.Working.Reaching.{AreReached};
ghost use Rattle.cert_checker.specs.Working.Matching.{does_count};
ghost use Rattle.cert_checker.specs.Working.Rounds.{AreAdded, IsBrought, GoesOn, AreTendedAt, counting_in, IsIndexed};

use crate::known::{TestCase, Truth, test_value};
use crate::question::{ActionPass, Question};
use certificate::Pair;
use indexmap::IndexSet;
use kat_model::NoMemory;
use std::alloc::Global;

/// The listed pairs of a pass that count: by what is known of tests at the end of a move, their test is true or, if
/// `also_open`, may be true.
#[derive(Drop)]
pub(crate) struct Counted<'a> {
    pub alloc: Global,
    pub action_pass: &'a ActionPass<'a>,
    pub known: &'a [Truth],
    pub also_open: bool,
}

impl<'a> Counted<'a> {
    ghost use Rattle.std.specs.Prelude.{◌≡◌};

    /// Returns the pairs of the question that count in the case.
    pub(crate) fn of(question: &'a Question<'a>, case: &'a TestCase, also_open: bool) -> Counted<'a>
        ensures action_pass { result.action_pass.now ≡ question.now.action_pass }
        ensures known { result.known.now ≡ case.now.end.items }
        ensures also_open { result.also_open ≡ also_open }
    {
        Counted {
            alloc: question.tables.alloc(),
            action_pass: question.action_pass,
            known: &case.end,
            also_open,
        }
    }
}

/// Whether the pair counts.
pub(crate) fn counts(counted: &Counted, pair: &Pair) -> bool
    ensures { result ≡ does_count counted.now.also_open counted.now.known.now pair.now }
{
    match test_value(counted.known, pair.test) {
        Truth::Known(value) => value,
        Truth::Undecided(_) => counted.also_open,
    }
}

// The terms that are reached so far.
type Reached = IndexSet<usize>;

fn has_all(reached: &Reached, set: &[usize]) -> bool
    ensures { IsTrue result ↔ IsSubset set.now reached.now.keys }
{
    set.iter().all(|term| reached.contains(term))
}

fn add_all(reached: &mut Reached, set: &[usize]) -> Result<(), NoMemory>
    ensures { OnOk result (AreAdded set.now reached.old.keys reached.new.keys) }
{
    for term in set {
        reached.insert(*term)?;
    }
    Ok(())
}

// Adds the second set if all of the first is reached.
fn bring(reached: &mut Reached, set: &[usize], other: &[usize]) -> Result<(), NoMemory>
    ensures { OnOk result (IsBrought set.now other.now reached.old.keys reached.new.keys) }
{
    if !has_all(reached, set) {
        return Ok(());
    }
    add_all(reached, other)
}

// Visits the pairs under the term, or those with an empty set. If a pair counts and all of one of its sets is reached,
// adds the other set.
fn add_pairs(reached: &mut Reached, counted: &Counted, last: Option<usize>) -> Result<(), NoMemory>
    ensures goes_on { OnOk result (GoesOn (counting_in counted.now) reached.old.keys reached.new.keys) }
    ensures tended { OnOk result (AreTendedAt counted.now.action_pass.now.pairs counted.now.also_open counted.now.known.now reached.old.keys reached.new.keys (places_at counted.now.action_pass.now.index last)) }
{
    let action_pass = counted.action_pass;
    for place in action_pass.index.places(last) {
        if let Some(pair) = action_pass.pairs.get(*place) {
            if counts(counted, pair) {
                bring(reached, pair.left.as_slice(), pair.right.as_slice())?;
                bring(reached, pair.right.as_slice(), pair.left.as_slice())?;
            }
        }
    }
    Ok(())
}

// Visits the pairs under these terms.
fn add_under(reached: &mut Reached, counted: &Counted, terms: &[usize]) -> Result<(), NoMemory>
    ensures { OnOk result (GoesOn (counting_in counted.now) reached.old.keys reached.new.keys) }
{
    for term in terms {
        add_pairs(reached, counted, Some(*term))?;
    }
    Ok(())
}

// Visits the pairs under each reached term, including terms that are added on the way, until all wanted terms are
// reached.
fn add_round(reached: &mut Reached, counted: &Counted, expected: &[usize]) -> Result<(), NoMemory>
    ensures goes_on { OnOk result (GoesOn (counting_in counted.now) reached.old.keys reached.new.keys) }
    ensures tended { OnOk result (IsSubset expected.now reached.new.keys ⊎ ((term : ℕ) → Has reached.new.keys term → AreTendedAt counted.now.action_pass.now.pairs counted.now.also_open counted.now.known.now reached.old.keys reached.new.keys (places_under counted.now.action_pass.now.index term))) }
{
    let mut place = 0;
    while place < reached.len() {
        if has_all(reached, expected) {
            return Ok(());
        }
        let term = *reached.get_index(place).unwrap();
        add_pairs(reached, counted, Some(term))?;
        place += 1;
    }
    Ok(())
}

// Adds the terms `from`, and terms that they make reachable, until all wanted terms are reached or no more terms are.
// Returns whether all wanted terms are reached.
fn saturate(
    reached: &mut Reached,
    counted: &Counted,
    from: &[usize],
    expected: &[usize],
) -> Result<bool, NoMemory>
    requires empty { reached.old.keys ≡ [] }
    requires indexed { IsIndexed counted.now }
    ensures { IfOk result (λ b. IsTrue b ↔ AreReached (counting_in counted.now) from.now expected.now) }
{
    add_all(reached, from)?;
    add_under(reached, counted, expected)?;
    while !has_all(reached, expected) {
        let count = reached.len();
        add_pairs(reached, counted, None)?;
        add_round(reached, counted, expected)?;
        if reached.len() == count {
            return Ok(false);
        }
    }
    Ok(true)
}

/// Whether the pairs that count make each wanted term reachable from `from`. Visits the pairs under the wanted terms
/// first, because usually one of those suffices. Rounds take only pairs that the index has under reached terms, and
/// stop when the answer is known; contracts speak of rounds over all pairs.
pub(crate) fn reaches(
    counted: &Counted,
    from: &[usize],
    expected: &[usize],
) -> Result<bool, NoMemory>
    requires { IsIndexed counted.now }
    ensures { IfOk result (λ b. IsTrue b ↔ AreReached (counting_in counted.now) from.now expected.now) }
{
    if expected.is_empty() {
        return Ok(true);
    }
    let mut reached = IndexSet::new(counted.alloc);
    saturate(&mut reached, counted, from, expected)
}
