//! The nodes of the terms and tests of pairs with all their parts, in order of ids. Parts precede wholes in this order.
ghost use Rattle.std.specs.Prelude.{◌≡◌, ◌<◌, ℕ, List, length, IfOk, OnOk};
ghost use Rattle.std.specs.Option.{option_to_list};
ghost use Rattle.kat_model.specs.Members.{Has, IsSubset, SameMembers};
ghost use Rattle.term_nodes.specs.Nodes.{term_parts, tests_of_term, test_parts};
ghost use Rattle.walk_pairs.specs.Needed.{AreParts, members_of, tests_of_pairs, AddsAll, NamesTests, NamesAllTests};
ghost use Rattle.term_nodes.specs.declared.TestNode.{TestNode};
ghost use Rattle.term_nodes.specs.declared.TermNode.{TermNode};

use crate::pair::StoredPair;
use indexmap::IndexSet;
use kat_model::NoMemory;
use std::alloc::Global;
use std::collections::BTreeSet;
use term_store::{Shape, Store, TermId, TestId, TestShape};

/// Ids of terms, numbered from 0 in ascending order.
pub(crate) type Terms = IndexSet<TermId>;

/// Ids of tests, numbered from 0 in ascending order.
pub(crate) type Tests = IndexSet<TestId>;

/// Adds the terms to the set.
pub(crate) fn add_all(set: &mut BTreeSet<TermId>, terms: &[TermId]) -> Result<(), NoMemory>
    ensures added { OnOk result (AddsAll set.old.keys set.new.keys terms.now) }
    ensures kept { IsSubset set.old.keys set.new.keys }
{
    for term in terms {
        set.insert(*term)?;
    }
    Ok(())
}

// Returns the terms of the pairs.
fn members(alloc: Global, pairs: &[StoredPair]) -> Result<BTreeSet<TermId>, NoMemory>
    ensures { IfOk result (λ s. SameMembers s.keys (members_of pairs.now)) }
{
    let mut set = BTreeSet::new(alloc);
    for pair in pairs {
        add_all(&mut set, pair.left.as_slice())?;
        add_all(&mut set, pair.right.as_slice())?;
    }
    Ok(set)
}

// Adds the terms that the node names.
fn add_parts(set: &mut BTreeSet<TermId>, shape: Shape) -> Result<(), NoMemory>
    ensures { OnOk result (AddsAll set.old.keys set.new.keys (term_parts shape)) }
{
    match shape {
        Shape::Zero | Shape::One | Shape::Test(_) | Shape::Act(_) => Ok(()),
        Shape::Sum(e, f) | Shape::Seq(e, f) => {
            set.insert(e)?;
            set.insert(f)?;
            Ok(())
        }
        Shape::Star(e) => {
            set.insert(e)?;
            Ok(())
        }
    }
}

// Returns the terms of the set with all their parts. Parts have smaller ids, so taking the greatest id first visits
// each once.
fn with_parts(
    alloc: Global,
    store: &Store,
    mut pending: BTreeSet<TermId>,
) -> Result<BTreeSet<TermId>, NoMemory>
    requires { (i : ℕ) → Has pending.keys i → i < length store.now.terms }
    ensures { IfOk result (λ s. AreParts (TermNode ℕ ℕ) store.now.terms term_parts pending.keys s.keys) }
{
    let mut all = BTreeSet::new(alloc);
    while let Some(term) = pending.pop_last() {
        add_parts(&mut pending, store.shape(term))?;
        all.insert(term)?;
    }
    Ok(all)
}

// Numbers the terms of the set in order.
fn terms_in_order(alloc: Global, all: &BTreeSet<TermId>) -> Result<Terms, NoMemory>
    ensures { IfOk result (λ s. s.keys ≡ all.now.keys) }
{
    let mut terms = IndexSet::new(alloc);
    for term in all.iter() {
        terms.insert(*term)?;
    }
    Ok(terms)
}

/// Returns the terms of the pairs with all their parts.
pub(crate) fn needed_terms(
    alloc: Global,
    store: &Store,
    pairs: &[StoredPair],
) -> Result<Terms, NoMemory>
    requires { (i : ℕ) → Has (members_of pairs.now) i → i < length store.now.terms }
    ensures { IfOk result (λ s. AreParts (TermNode ℕ ℕ) store.now.terms term_parts (members_of pairs.now) s.keys) }
{
    let members = members(alloc, pairs)?;
    let all = with_parts(alloc, store, members)?;
    terms_in_order(alloc, &all)
}

// Adds the tests that the node names.
fn add_tests(set: &mut BTreeSet<TestId>, shape: Shape) -> Result<(), NoMemory>
    ensures { OnOk result (AddsAll set.old.keys set.new.keys (tests_of_term shape)) }
{
    match shape {
        Shape::Zero | Shape::One | Shape::Act(_) | Shape::Sum(_, _) | Shape::Seq(_, _) => Ok(()),
        Shape::Test(b) => {
            set.insert(b)?;
            Ok(())
        }
        Shape::Star(_) => Ok(()),
    }
}

// Returns the tests that the terms name.
fn tests_of(alloc: Global, store: &Store, terms: &Terms) -> Result<BTreeSet<TestId>, NoMemory>
    requires { (i : ℕ) → Has terms.now.keys i → i < length store.now.terms }
    ensures { IfOk result (λ s. NamesTests store.now terms.now.keys s.keys) }
{
    let mut set = BTreeSet::new(alloc);
    let ids = terms.as_slice();
    for term in ids {
        add_tests(&mut set, store.shape(*term))?;
    }
    Ok(set)
}

// Adds the test of the pair, if it has one.
fn add_pair_test(set: &mut BTreeSet<TestId>, pair: &StoredPair) -> Result<(), NoMemory>
    ensures { OnOk result (AddsAll set.old.keys set.new.keys (option_to_list pair.now.test)) }
{
    match pair.test {
        Some(test) => {
            set.insert(test)?;
            Ok(())
        }
        None => Ok(()),
    }
}

// Adds the tests of the pairs.
fn add_pair_tests(set: &mut BTreeSet<TestId>, pairs: &[StoredPair]) -> Result<(), NoMemory>
    ensures { OnOk result (AddsAll set.old.keys set.new.keys (tests_of_pairs pairs.now)) }
{
    for pair in pairs {
        add_pair_test(set, pair)?;
    }
    Ok(())
}

// Adds the tests that the node names.
fn add_test_parts(set: &mut BTreeSet<TestId>, shape: TestShape) -> Result<(), NoMemory>
    ensures { OnOk result (AddsAll set.old.keys set.new.keys (test_parts shape)) }
{
    match shape {
        TestShape::False | TestShape::True | TestShape::Prim(_) => Ok(()),
        TestShape::Not(b) => {
            set.insert(b)?;
            Ok(())
        }
        TestShape::And(b, c) | TestShape::Or(b, c) => {
            set.insert(b)?;
            set.insert(c)?;
            Ok(())
        }
    }
}

// Returns the tests of the set with all their parts.
fn with_test_parts(
    alloc: Global,
    store: &Store,
    mut pending: BTreeSet<TestId>,
) -> Result<BTreeSet<TestId>, NoMemory>
    requires { (i : ℕ) → Has pending.keys i → i < length store.now.tests }
    ensures { IfOk result (λ s. AreParts (TestNode ℕ) store.now.tests test_parts pending.keys s.keys) }
{
    let mut all = BTreeSet::new(alloc);
    while let Some(test) = pending.pop_last() {
        add_test_parts(&mut pending, store.test_shape(test))?;
        all.insert(test)?;
    }
    Ok(all)
}

// Numbers the tests of the set in order.
fn tests_in_order(alloc: Global, all: &BTreeSet<TestId>) -> Result<Tests, NoMemory>
    ensures { IfOk result (λ s. s.keys ≡ all.now.keys) }
{
    let mut tests = IndexSet::new(alloc);
    for test in all.iter() {
        tests.insert(*test)?;
    }
    Ok(tests)
}

/// Returns the tests that the terms and the pairs name, with all their parts.
pub(crate) fn needed_tests(
    alloc: Global,
    store: &Store,
    terms: &Terms,
    pairs: &[StoredPair],
) -> Result<Tests, NoMemory>
    requires terms { (i : ℕ) → Has terms.now.keys i → i < length store.now.terms }
    requires tests { (i : ℕ) → Has (tests_of_pairs pairs.now) i → i < length store.now.tests }
    ensures { IfOk result (λ s. (named : List ℕ) × NamesAllTests store.now terms.now.keys pairs.now named × AreParts (TestNode ℕ) store.now.tests test_parts named s.keys) }
{
    // The proof needs the rules of the store.
    let _ = store.count();
    let mut named = tests_of(alloc, store, terms)?;
    add_pair_tests(&mut named, pairs)?;
    let all = with_test_parts(alloc, store, named)?;
    tests_in_order(alloc, &all)
}
