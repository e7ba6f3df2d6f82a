//! Building the certificate of listed pairs.
ghost use Rattle.std.specs.Prelude.{◌≡◌, ◌<◌, ℕ, List, Some, IfOk, length, map, slice_get};
ghost use Rattle.kat_model.specs.Members.{Has, IsSubset};
ghost use Rattle.std.specs.Option.{option_map};
ghost use Rattle.walk_pairs.specs.StoredPairs.{AreStoredPairs};
ghost use Rattle.term_nodes.specs.Nodes.{term_parts, tests_of_term, test_parts};
ghost use Rattle.walk_pairs.specs.Needed.{AreParts, members_of, tests_of_pairs, NamesAllTests};
ghost use Rattle.walk_pairs.specs.Numbering.{test_node_of, term_node_of, number_of, numbers_of, number_pair_of, test_nodes_of, term_nodes_of, IsCertOf};
ghost use Rattle.term_nodes.specs.declared.TestNode.{TestNode};
ghost use Rattle.term_nodes.specs.declared.TermNode.{TermNode};

use crate::needed::{Terms, Tests, needed_terms, needed_tests};
use crate::pair::StoredPair;
use certificate::{Cert, Pair, Style, TermNode, TestNode};
use kat_model::{Items, NoMemory, append};
use std::alloc::Global;
use term_store::{Shape, Store, TermId, TestId, TestShape};

// Returns the number of a test of `tests`.
fn test_number(tests: &Tests, test: TestId) -> usize
    requires { Has tests.now.keys test }
    ensures { result ≡ number_of tests.now.keys test }
{
    tests.get_index_of(&test).unwrap()
}

// Returns the number of a term of `terms`.
fn term_number(terms: &Terms, term: TermId) -> usize
    requires { Has terms.now.keys term }
    ensures { result ≡ number_of terms.now.keys term }
{
    terms.get_index_of(&term).unwrap()
}

// Returns the certificate node for a test node of the store.
fn test_node(tests: &Tests, shape: TestShape) -> TestNode
    requires { IsSubset (test_parts shape) tests.now.keys }
    ensures { result ≡ test_node_of tests.now.keys shape }
{
    match shape {
        TestShape::False => TestNode::False,
        TestShape::True => TestNode::True,
        TestShape::Prim(k) => TestNode::Prim(k),
        TestShape::Not(b) => TestNode::Not(test_number(tests, b)),
        TestShape::And(b, c) => TestNode::And(test_number(tests, b), test_number(tests, c)),
        TestShape::Or(b, c) => TestNode::Or(test_number(tests, b), test_number(tests, c)),
    }
}

// Returns the certificate node for a term node of the store.
fn term_node(tests: &Tests, terms: &Terms, shape: Shape) -> TermNode
    requires tests { IsSubset (tests_of_term shape) tests.now.keys }
    requires terms { IsSubset (term_parts shape) terms.now.keys }
    ensures { result ≡ term_node_of tests.now.keys terms.now.keys shape }
{
    match shape {
        Shape::Zero => TermNode::Zero,
        Shape::One => TermNode::One,
        Shape::Test(b) => TermNode::Test(test_number(tests, b)),
        Shape::Act(a) => TermNode::Act(a),
        Shape::Sum(e, f) => TermNode::Sum(term_number(terms, e), term_number(terms, f)),
        Shape::Seq(e, f) => TermNode::Seq(term_number(terms, e), term_number(terms, f)),
        Shape::Star(e) => TermNode::Star(term_number(terms, e)),
    }
}

fn test_nodes(alloc: Global, store: &Store, tests: &Tests) -> Result<Vec<TestNode>, NoMemory>
    requires there { (i : ℕ) → Has tests.now.keys i → i < length store.now.tests }
    requires parts { (i : ℕ) (shape : TestNode ℕ) → Has tests.now.keys i → slice_get store.now.tests i ≡ Some shape → IsSubset (test_parts shape) tests.now.keys }
    ensures { IfOk result (λ v. v.items ≡ test_nodes_of store.now tests.now.keys tests.now.keys) }
{
    let mut nodes = Vec::new(alloc);
    let ids = tests.as_slice();
    for test in ids {
        append(&mut nodes, test_node(tests, store.test_shape(*test)))?;
    }
    Ok(nodes)
}

fn term_nodes(
    alloc: Global,
    store: &Store,
    tests: &Tests,
    terms: &Terms,
) -> Result<Vec<TermNode>, NoMemory>
    requires there { (i : ℕ) → Has terms.now.keys i → i < length store.now.terms }
    requires tests { (i : ℕ) (shape : TermNode ℕ ℕ) → Has terms.now.keys i → slice_get store.now.terms i ≡ Some shape → IsSubset (tests_of_term shape) tests.now.keys }
    requires parts { (i : ℕ) (shape : TermNode ℕ ℕ) → Has terms.now.keys i → slice_get store.now.terms i ≡ Some shape → IsSubset (term_parts shape) terms.now.keys }
    ensures { IfOk result (λ v. v.items ≡ term_nodes_of store.now tests.now.keys terms.now.keys terms.now.keys) }
{
    let mut nodes = Vec::new(alloc);
    let ids = terms.as_slice();
    for term in ids {
        append(&mut nodes, term_node(tests, terms, store.shape(*term)))?;
    }
    Ok(nodes)
}

// Returns the numbers of the terms of a set; they ascend if the ids do.
fn numbers(alloc: Global, terms: &Terms, set: &[TermId]) -> Result<Items<usize>, NoMemory>
    requires { IsSubset set.now terms.now.keys }
    ensures { IfOk result (λ ns. ns ≡ numbers_of terms.now.keys set.now) }
{
    let mut list = Vec::new(alloc);
    for term in set {
        list.push(term_number(terms, *term))?;
    }
    Ok(Items::of(list))
}

// Returns the number of the test of a pair, if it has one.
fn pair_test_number(tests: &Tests, test: Option<TestId>) -> Option<usize>
    requires { (k : ℕ) → test ≡ Some k → Has tests.now.keys k }
    ensures { result ≡ option_map (number_of tests.now.keys) test }
{
    match test {
        Some(test) => Some(test_number(tests, test)),
        None => None,
    }
}

fn number_pairs(
    alloc: Global,
    tests: &Tests,
    terms: &Terms,
    pairs: &[StoredPair],
) -> Result<Vec<Pair>, NoMemory>
    requires tests { IsSubset (tests_of_pairs pairs.now) tests.now.keys }
    requires terms { IsSubset (members_of pairs.now) terms.now.keys }
    ensures { IfOk result (λ v. v.items ≡ map (number_pair_of tests.now.keys terms.now.keys) pairs.now) }
{
    let mut list = Vec::new(alloc);
    for pair in pairs {
        let left = numbers(alloc, terms, pair.left.as_slice())?;
        let right = numbers(alloc, terms, pair.right.as_slice())?;
        let test = pair_test_number(tests, pair.test);
        append(&mut list, Pair { left, right, test })?;
    }
    Ok(list)
}

// Builds the certificate of the pairs over their terms and tests.
fn cert_over(
    alloc: Global,
    store: &Store,
    style: Style,
    pairs: &[StoredPair],
    terms: &Terms,
    tests: &Tests,
) -> Result<Cert, NoMemory>
    requires stored { (n : ℕ) × AreStoredPairs store.now style n pairs.now }
    requires terms { AreParts (TermNode ℕ ℕ) store.now.terms term_parts (members_of pairs.now) terms.now.keys }
    requires tests { (named : List ℕ) × NamesAllTests store.now terms.now.keys pairs.now named × AreParts (TestNode ℕ) store.now.tests test_parts named tests.now.keys }
    ensures { IfOk result (IsCertOf store.now style pairs.now) }
{
    // The proof needs the rules of the store.
    let _ = store.count();
    let test_nodes = test_nodes(alloc, store, tests)?;
    let term_nodes = term_nodes(alloc, store, tests, terms)?;
    let pairs = number_pairs(alloc, tests, terms, pairs)?;
    Ok(Cert::of_parts(style, test_nodes, term_nodes, pairs))
}

// Builds the certificate of the pairs over their terms.
fn cert_over_terms(
    alloc: Global,
    store: &Store,
    style: Style,
    pairs: &[StoredPair],
    terms: &Terms,
) -> Result<Cert, NoMemory>
    requires stored { (n : ℕ) × AreStoredPairs store.now style n pairs.now }
    requires terms { AreParts (TermNode ℕ ℕ) store.now.terms term_parts (members_of pairs.now) terms.now.keys }
    ensures { IfOk result (IsCertOf store.now style pairs.now) }
{
    let tests = needed_tests(alloc, store, terms, pairs)?;
    cert_over(alloc, store, style, pairs, terms, &tests)
}

/// Builds the certificate of the pairs in this style, with only the nodes that they need. Nodes are in the order of
/// their ids in the store, so each follows its parts. Fails only when out of memory.
pub fn cert_of(
    alloc: Global,
    store: &Store,
    style: Style,
    pairs: &[StoredPair],
) -> Result<Cert, NoMemory>
    requires { (n : ℕ) × AreStoredPairs store.now style n pairs.now }
    ensures { IfOk result (IsCertOf store.now style pairs.now) }
{
    let terms = needed_terms(alloc, store, pairs)?;
    cert_over_terms(alloc, store, style, pairs, &terms)
}
