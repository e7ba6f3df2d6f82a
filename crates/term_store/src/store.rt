//! The term store.
ghost use Rattle.std.specs.Prelude.{◌≡◌, ◌≢◌, [], length, Contains, IfOk, IsOk, OnErr, slice_get};
ghost use Rattle.kat_model.specs.Trees.{one, test_tree, kat_tree};
ghost use Rattle.kat_model.specs.Steps.{dot};
ghost use Rattle.term_nodes.specs.declared.TermNode.TheVariants.{Seq};
ghost use Rattle.term_nodes.specs.NodeTrees.{test_tree_at, tree_at, test_tree_in, tree_in, HasTestTree, HasTree};
ghost use Rattle.term_nodes.specs.TreeParts.{HasTestParts, HasParts};
ghost use Rattle.term_nodes.specs.Growth.{Grows, AddsTest, AddsTerm};

use crate::nodes::{Shape, TermId, TestId, TestShape};
use indexmap::IndexSet;
use kat_model::{Kat, NoMemory, Test};
use std::alloc::Global;
use std::marker::Model;

/// The nodes of tests and terms. Each names only earlier nodes, and none occurs twice.
pub struct Store {
    tests: IndexSet<TestShape>,
    terms: IndexSet<Shape>,
}

// Explicit, so that it is proved once and not at each end of each function that owns one.
impl Drop for Store {
    fn drop(self) {
        let Store {
            tests: _tests,
            terms: _terms,
        } = self;
    }
}

impl Model for Store {
    ghost use Rattle.term_nodes.specs.NodeLists.{NodeParts, AreNodes};

    ghost Value = { NodeParts };

    ghost view = { λ s. record { tests = s.tests.keys; terms = s.terms.keys } };

    ghost invariant = { λ s. AreNodes (record { tests = s.tests.keys; terms = s.terms.keys }) };
}

impl Store {
    ghost use Rattle.term_nodes.specs.Nodes.{IsTestOver, IsOver};
    ghost use Rattle.term_nodes.specs.NodeLists.{IsTest, IsTerm, AreNodes};

    /// Creates a store without nodes. Allocates nothing.
    pub fn new(alloc: Global) -> Store
        ensures tests { result.tests ≡ [] }
        ensures terms { result.terms ≡ [] }
        ensures store { AreNodes result }
    {
        Store {
            tests: IndexSet::new(alloc),
            terms: IndexSet::new(alloc),
        }
    }

    /// Returns the id of the test node, adding the node if the store lacks it. Fails only when out of memory.
    pub fn intern_test(&mut self, shape: TestShape) -> Result<TestId, NoMemory>
        requires { IsTestOver (length self.old.tests) shape }
        ensures id { IfOk result (λ id. slice_get self.new.tests id ≡ Some shape) }
        ensures tree { IfOk result (λ id. test_tree_at self.new id ≡ test_tree_in self.old shape) }
        ensures is_id { IfOk result (IsTest self.new) }

        // Never fails and changes nothing if the node exists.
        ensures found { Contains self.old.tests shape → IsOk result × (self.new ≡ self.old) }
        ensures refused { OnErr result (self.new ≡ self.old) }

        ensures added { AddsTest self.old self.new shape }
        ensures grows { Grows self.old self.new }
        ensures store { AreNodes self.new }
    {
        match self.tests.insert_full(shape) {
            Ok((index, _)) => Ok(TestId { index }),
            Err(_) => Err(NoMemory),
        }
    }

    /// Returns the id of the term node, adding the node if the store lacks it. Fails only when out of memory.
    pub fn intern(&mut self, shape: Shape) -> Result<TermId, NoMemory>
        requires { IsOver (length self.old.tests) (length self.old.terms) shape }
        ensures id { IfOk result (λ id. slice_get self.new.terms id ≡ Some shape) }
        ensures tree { IfOk result (λ id. tree_at self.new id ≡ tree_in self.old shape) }
        ensures is_id { IfOk result (IsTerm self.new) }

        // Never fails and changes nothing if the node exists.
        ensures found { Contains self.old.terms shape → IsOk result × (self.new ≡ self.old) }
        ensures refused { OnErr result (self.new ≡ self.old) }

        ensures added { AddsTerm self.old self.new shape }
        ensures grows { Grows self.old self.new }
        ensures store { AreNodes self.new }
    {
        match self.terms.insert_full(shape) {
            Ok((index, _)) => Ok(TermId { index }),
            Err(_) => Err(NoMemory),
        }
    }

    /// Returns the node of a test.
    pub fn test_shape(&self, id: TestId) -> TestShape
        requires { IsTest self.now id }
        ensures value { slice_get self.now.tests id ≡ Some result }
        ensures tree { test_tree_at self.now id ≡ test_tree_in self.now result }
        ensures parts { IsTestOver id result }
        ensures store { AreNodes self.now }
    {
        *self.tests.get_index(id.index).unwrap()
    }

    /// Returns the node of a term.
    pub fn shape(&self, id: TermId) -> Shape
        requires { IsTerm self.now id }
        ensures value { slice_get self.now.terms id ≡ Some result }
        ensures tree { tree_at self.now id ≡ tree_in self.now result }
        ensures parts { IsOver (length self.now.tests) id result }
        ensures store { AreNodes self.now }
    {
        *self.terms.get_index(id.index).unwrap()
    }

    /// Returns the number of term nodes; test nodes are not counted.
    pub fn count(&self) -> usize
        ensures value { result ≡ length self.now.terms }
        ensures store { AreNodes self.now }
    {
        self.terms.len()
    }

    /// Returns an id of `first` followed by `second`, whose tree is `dot` of their trees. Fails only when out of
    /// memory.
    pub fn dot(&mut self, first: TermId, second: TermId) -> Result<TermId, NoMemory>
        requires first_id { IsTerm self.old first }
        requires second_id { IsTerm self.old second }
        // Returns `second` and changes nothing if the first tree is `one`; otherwise returns the node of the product.
        ensures of_one { tree_at self.old first ≡ one → (result ≡ Ok second) × (self.new ≡ self.old) }
        ensures of_other { tree_at self.old first ≢ one →
            IfOk result (λ id. slice_get self.new.terms id ≡ Some (Seq first second)) }

        ensures tree { IfOk result (λ id.
            tree_at self.new id ≡ dot (tree_at self.old first) (tree_at self.old second)) }
        ensures is_id { IfOk result (IsTerm self.new) }

        // Never fails and changes nothing if the node of the product exists.
        ensures found { Contains self.old.terms (Seq first second) →
            IsOk result × (self.new ≡ self.old) }
        ensures refused { OnErr result (self.new ≡ self.old) }

        ensures added { AddsTerm self.old self.new (Seq first second) }
        ensures grows { Grows self.old self.new }
        ensures store { AreNodes self.new }
    {
        match self.shape(first) {
            Shape::One => Ok(second),
            _ => self.intern(Shape::Seq(first, second)),
        }
    }

    // Returns an id whose tree is this test. On failure, extra nodes may remain.
    #[cycle(of_test)]
    fn of_test(&mut self, test: &Test) -> Result<TestId, NoMemory>
        ensures tree { IfOk result (λ id. test_tree_at self.new id ≡ test_tree test.now) }
        ensures is_id { IfOk result (IsTest self.new) }
        ensures found { HasTestTree self.old (test_tree test.now) →
            IsOk result × (self.new ≡ self.old) }
        ensures grows { Grows self.old self.new }
        ensures store { AreNodes self.new }
    {
        let shape = self.shape_of_test(test)?;
        self.intern_test(shape)
    }

    // Returns the node of this test, over ids of its parts.
    #[cycle(of_test)]
    fn shape_of_test(&mut self, test: &Test) -> Result<TestShape, NoMemory>
        ensures tree { IfOk result (λ shape. test_tree_in self.new shape ≡ test_tree test.now) }
        ensures parts { IfOk result (IsTestOver (length self.new.tests)) }
        ensures found { HasTestParts self.old (test_tree test.now) →
            IsOk result × (self.new ≡ self.old) }
        ensures grows { Grows self.old self.new }
        ensures was_store { AreNodes self.old }
        ensures store { AreNodes self.new }
    {
        // The proof needs the type's invariant.
        let _ = &self.tests;
        match test {
            Test::False => Ok(TestShape::False),
            Test::True => Ok(TestShape::True),
            Test::Prim(k) => Ok(TestShape::Prim(*k)),
            Test::Not(b) => Ok(TestShape::Not(self.of_test(b)?)),
            Test::And(b, c) => {
                let (first, second) = self.two_tests(b, c)?;
                Ok(TestShape::And(first, second))
            }
            Test::Or(b, c) => {
                let (first, second) = self.two_tests(b, c)?;
                Ok(TestShape::Or(first, second))
            }
        }
    }

    // Returns ids whose trees are these tests. On failure, extra nodes may remain.
    #[cycle(of_test)]
    fn two_tests(&mut self, left: &Test, right: &Test) -> Result<(TestId, TestId), NoMemory>
        ensures trees { IfOk result (λ ids.
            (test_tree_at self.new ids.0 ≡ test_tree left.now) × (test_tree_at self.new ids.1 ≡ test_tree right.now)) }
        ensures are_ids { IfOk result (λ ids. IsTest self.new ids.0 × IsTest self.new ids.1) }
        ensures found { HasTestTree self.old (test_tree left.now) × HasTestTree self.old (test_tree right.now) →
            IsOk result × (self.new ≡ self.old) }
        ensures grows { Grows self.old self.new }
        ensures store { AreNodes self.new }
    {
        let first = self.of_test(left)?;
        let second = self.of_test(right)?;
        Ok((first, second))
    }

    /// Returns an id whose tree is this term. Fails only when out of memory; extra nodes may remain then.
    #[cycle(of_tree)]
    pub fn of_tree(&mut self, term: &Kat) -> Result<TermId, NoMemory>
        ensures tree { IfOk result (λ id. tree_at self.new id ≡ kat_tree term.now) }
        ensures is_id { IfOk result (IsTerm self.new) }

        // Never fails and changes nothing if some id has the tree already.
        ensures found { HasTree self.old (kat_tree term.now) →
            IsOk result × (self.new ≡ self.old) }

        ensures grows { Grows self.old self.new }
        ensures store { AreNodes self.new }
    {
        let shape = self.shape_of_tree(term)?;
        self.intern(shape)
    }

    // Returns the node of this term, over ids of its parts.
    #[cycle(of_tree)]
    fn shape_of_tree(&mut self, term: &Kat) -> Result<Shape, NoMemory>
        ensures tree { IfOk result (λ shape. tree_in self.new shape ≡ kat_tree term.now) }
        ensures parts { IfOk result (IsOver (length self.new.tests) (length self.new.terms)) }
        ensures found { HasParts self.old (kat_tree term.now) →
            IsOk result × (self.new ≡ self.old) }
        ensures grows { Grows self.old self.new }
        ensures was_store { AreNodes self.old }
        ensures store { AreNodes self.new }
    {
        // The proof needs the type's invariant.
        let _ = &self.terms;
        match term {
            Kat::Zero => Ok(Shape::Zero),
            Kat::One => Ok(Shape::One),
            Kat::Test(b) => Ok(Shape::Test(self.of_test(b)?)),
            Kat::Act(a) => Ok(Shape::Act(*a)),
            Kat::Sum(e, f) => {
                let (first, second) = self.two_trees(e, f)?;
                Ok(Shape::Sum(first, second))
            }
            Kat::Seq(e, f) => {
                let (first, second) = self.two_trees(e, f)?;
                Ok(Shape::Seq(first, second))
            }
            Kat::Star(e) => Ok(Shape::Star(self.of_tree(e)?)),
        }
    }

    // Returns ids whose trees are these terms. On failure, extra nodes may remain.
    #[cycle(of_tree)]
    fn two_trees(&mut self, left: &Kat, right: &Kat) -> Result<(TermId, TermId), NoMemory>
        ensures trees { IfOk result (λ ids.
            (tree_at self.new ids.0 ≡ kat_tree left.now) × (tree_at self.new ids.1 ≡ kat_tree right.now)) }
        ensures are_ids { IfOk result (λ ids. IsTerm self.new ids.0 × IsTerm self.new ids.1) }
        ensures found { HasTree self.old (kat_tree left.now) × HasTree self.old (kat_tree right.now) →
            IsOk result × (self.new ≡ self.old) }
        ensures grows { Grows self.old self.new }
        ensures store { AreNodes self.new }
    {
        let first = self.of_tree(left)?;
        let second = self.of_tree(right)?;
        Ok((first, second))
    }
}
