//! The tests that the answer to a question depends on. No other tests are evaluated.
ghost use Rattle.std.specs.Prelude.{◌≡◌, ◌↔◌, ◌⊎◌, IfOk, OnOk, Some, ℕ};
ghost use Rattle.kat_model.specs.Members.{Has, IsSubset};
ghost use Rattle.term_nodes.specs.Nodes.{test_parts};
ghost use Rattle.certificate.specs.PairParts.{PairParts};
ghost use Rattle.cert_checker.specs.NodeTables.{IsTest};
ghost use Rattle.cert_checker.specs.Cases.{AreQueried};

use crate::tables::Tables;
use certificate::{Pair, TestNode};
use kat_model::NoMemory;
use std::collections::BTreeSet;

// Adds the tests that the node names.
fn add_parts(tests: &mut BTreeSet<usize>, node: TestNode) -> Result<(), NoMemory>
    ensures { OnOk result ((k : ℕ) → Has tests.new.keys k ↔ (Has tests.old.keys k ⊎ Has (test_parts node) k)) }
{
    match node {
        TestNode::False | TestNode::True | TestNode::Prim(_) => {}
        TestNode::Not(x) => {
            tests.insert(x)?;
        }
        TestNode::And(x, y) | TestNode::Or(x, y) => {
            tests.insert(x)?;
            tests.insert(y)?;
        }
    }
    Ok(())
}

/// Returns the given tests and, before each, the tests that are its parts.
pub(crate) fn with_parts(
    tables: &Tables,
    mut tests: BTreeSet<usize>,
) -> Result<Vec<usize>, NoMemory>
    requires { (k : ℕ) → Has tests.keys k → IsTest tables.now k }
    ensures queried { IfOk result (λ v. AreQueried tables.now v.items) }
    ensures kept { IfOk result (λ v. IsSubset tests.keys v.items) }
{
    let mut queried = Vec::new(tables.alloc());
    while let Some(test) = tests.pop_last() {
        queried.push(test)?;
        add_parts(&mut tests, tables.test_node(test))?;
    }
    queried.reverse();
    Ok(queried)
}

/// Adds the test, if there is one.
pub(crate) fn add_test(tests: &mut BTreeSet<usize>, test: Option<usize>) -> Result<(), NoMemory>
    ensures { OnOk result ((k : ℕ) → Has tests.new.keys k ↔ (Has tests.old.keys k ⊎ (test ≡ Some k))) }
{
    match test {
        Some(test) => {
            tests.insert(test)?;
            Ok(())
        }
        None => Ok(()),
    }
}

/// Adds the tests of the pairs.
pub(crate) fn add_tests_of(tests: &mut BTreeSet<usize>, pairs: &[Pair]) -> Result<(), NoMemory>
    ensures { OnOk result ((k : ℕ) → Has tests.new.keys k ↔ (Has tests.old.keys k ⊎ ((r : PairParts) × Has pairs.now r × (r.test ≡ Some k)))) }
{
    for pair in pairs {
        add_test(tests, pair.test)?;
    }
    Ok(())
}

// Adds the tests that forbidden pairs name at the beginning of a move.
fn add_begins(tests: &mut BTreeSet<usize>, forbidden: &[(usize, usize)]) -> Result<(), NoMemory>
    ensures { OnOk result ((k : ℕ) → Has tests.new.keys k ↔ (Has tests.old.keys k ⊎ ((f : ℕ × ℕ) × Has forbidden.now f × (f.0 ≡ k)))) }
{
    for pair in forbidden {
        tests.insert(pair.0)?;
    }
    Ok(())
}

// Adds the tests that forbidden pairs name at the end of a move.
fn add_ends(tests: &mut BTreeSet<usize>, forbidden: &[(usize, usize)]) -> Result<(), NoMemory>
    ensures { OnOk result ((k : ℕ) → Has tests.new.keys k ↔ (Has tests.old.keys k ⊎ ((f : ℕ × ℕ) × Has forbidden.now f × (f.1 ≡ k)))) }
{
    for pair in forbidden {
        tests.insert(pair.1)?;
    }
    Ok(())
}

/// Returns the tests that forbidden pairs name at the beginning of a move, with their parts.
pub(crate) fn begin_tests(
    tables: &Tables,
    forbidden: &[(usize, usize)],
) -> Result<Vec<usize>, NoMemory>
    requires { (f : ℕ × ℕ) → Has forbidden.now f → IsTest tables.now f.0 }
    ensures queried { IfOk result (λ v. AreQueried tables.now v.items) }
    ensures named { IfOk result (λ v. (f : ℕ × ℕ) → Has forbidden.now f → Has v.items f.0) }
{
    let mut tests = BTreeSet::new(tables.alloc());
    add_begins(&mut tests, forbidden)?;
    with_parts(tables, tests)
}

/// Returns the tests that forbidden pairs and listed pairs name at the end of a move, with their parts.
pub(crate) fn end_tests(
    tables: &Tables,
    forbidden: &[(usize, usize)],
    pairs: &[Pair],
) -> Result<Vec<usize>, NoMemory>
    requires moves { (f : ℕ × ℕ) → Has forbidden.now f → IsTest tables.now f.1 }
    requires pairs { (r : PairParts) (k : ℕ) → Has pairs.now r → r.test ≡ Some k → IsTest tables.now k }
    ensures queried { IfOk result (λ v. AreQueried tables.now v.items) }
    ensures by_moves { IfOk result (λ v. (f : ℕ × ℕ) → Has forbidden.now f → Has v.items f.1) }
    ensures by_pairs { IfOk result (λ v. (r : PairParts) (k : ℕ) → Has pairs.now r → r.test ≡ Some k → Has v.items k) }
{
    let mut tests = BTreeSet::new(tables.alloc());
    add_ends(&mut tests, forbidden)?;
    add_tests_of(&mut tests, pairs)?;
    with_parts(tables, tests)
}
