//! The tables of the checker.
ghost use Rattle.std.specs.Prelude.{◌≡◌, ◌&&◌, ◌||◌, IfOk, slice_get, length};
ghost use Rattle.kat_model.specs.Steps.{dot};
ghost use Rattle.cert_checker.specs.Working.Constants.{is_constant, negates};

use certificate::{Cert, TermNode, TestNode};
use indexmap::IndexSet;
use kat_model::{Kat, NoMemory, Test};
use std::alloc::Global;
use std::marker::Model;

/// Distinct nodes: those of a certificate with their numbers, followed by the guards of steps and the terms that steps
/// lead to. Equal terms have one number.
pub(crate) struct Tables {
    alloc: Global,
    width: usize,
    tests: IndexSet<TestNode>,
    terms: IndexSet<TermNode>,
}

// Explicit, so that it is proved once and not at each end of each function that owns one.
impl Drop for Tables {
    fn drop(self) {
        let Tables {
            alloc: _,
            width: _,
            tests: _tests,
            terms: _terms,
        } = self;
    }
}

// Whether the node is the test that is always `on`.
fn is_constant(node: TestNode, on: bool) -> bool
    ensures { result ≡ is_constant on node }
{
    match node {
        TestNode::False => !on,
        TestNode::True => on,
        _ => false,
    }
}

// Whether the node is the negation of the test.
fn negates(node: TestNode, test: usize) -> bool
    ensures { result ≡ negates test node }
{
    match node {
        TestNode::Not(part) => part == test,
        _ => false,
    }
}

impl Model for Tables {
    ghost use Rattle.cert_checker.specs.NodeTables.{TableParts, AreTables};

    ghost Value = { TableParts };

    ghost view = { λ t. record { width = t.width; tests = t.tests.keys; terms = t.terms.keys } };

    ghost invariant = { λ t. AreTables (record { width = t.width; tests = t.tests.keys; terms = t.terms.keys }) };
}

impl Tables {
    ghost use Rattle.cert_checker.specs.NodeTables.{AreTables, TablesGrow, TestsGrow, AddsTest, AddsTerm, IsTest, IsTerm, HasValues, MayBeTest, MayBeTerm, ArePrimsBelow, nodes_in, tables_of, test_at, term_at, holds_at};
    ghost use Rattle.kat_model.specs.Trees.{test_tree, kat_tree};
    ghost use Rattle.kat_model.specs.Problems.{IsTestInRange, HasTestsBelow};
    ghost use Rattle.term_nodes.specs.Nodes.{IsOver};
    ghost use Rattle.term_nodes.specs.NodeTrees.{test_tree_in, tree_in};

    /// Builds tables with only the nodes of the certificate. Its primitive tests must be below `width`.
    pub fn of(alloc: Global, cert: &Cert, width: usize) -> Result<Tables, NoMemory>
        requires { ArePrimsBelow width cert.now.test_nodes }
        ensures nodes { IfOk result (λ t. t ≡ tables_of width cert.now) }
        ensures tables { IfOk result AreTables }
    {
        let mut tables = Tables {
            alloc,
            width,
            tests: IndexSet::new(alloc),
            terms: IndexSet::new(alloc),
        };
        for node in cert.test_nodes() {
            tables.test(*node)?;
        }
        for node in cert.term_nodes() {
            tables.term(*node)?;
        }
        Ok(tables)
    }

    /// Returns the number of a test node, and adds the node if it is new.
    pub fn test(&mut self, node: TestNode) -> Result<usize, NoMemory>
        requires { MayBeTest self.old node }
        ensures node { IfOk result (λ k. slice_get self.new.tests k ≡ Some node) }
        ensures tree { IfOk result (λ k. test_at self.new k ≡ test_tree_in (nodes_in self.old) node) }
        ensures is_test { IfOk result (IsTest self.new) }
        ensures added { AddsTest self.old self.new node }
        ensures grows { TestsGrow self.old self.new }
    {
        let (number, _) = self.tests.insert_full(node)?;
        Ok(number)
    }

    /// Returns the number of a term node, and adds the node if it is new.
    pub fn term(&mut self, node: TermNode) -> Result<usize, NoMemory>
        requires { MayBeTerm self.old node }
        ensures node { IfOk result (λ k. slice_get self.new.terms k ≡ Some node) }
        ensures tree { IfOk result (λ k. term_at self.new k ≡ tree_in (nodes_in self.old) node) }
        ensures is_term { IfOk result (IsTerm self.new) }
        ensures added { AddsTerm self.old self.new node }
        ensures grows { TablesGrow self.old self.new }
    {
        let (number, _) = self.terms.insert_full(node)?;
        Ok(number)
    }

    /// Returns the allocator of the tables.
    pub fn alloc(&self) -> Global {
        self.alloc
    }

    /// Returns the number of primitive tests.
    pub fn width(&self) -> usize
        ensures { result ≡ self.now.width }
    {
        self.width
    }

    /// Returns the number of tests.
    pub fn test_count(&self) -> usize
        ensures value { result ≡ length self.now.tests }
        ensures tables { AreTables self.now }
    {
        self.tests.len()
    }

    /// Returns the number of terms.
    pub fn term_count(&self) -> usize
        ensures value { result ≡ length self.now.terms }
        ensures tables { AreTables self.now }
    {
        self.terms.len()
    }

    /// Returns the node of a test.
    pub fn test_node(&self, number: usize) -> TestNode
        requires { IsTest self.now number }
        ensures node { slice_get self.now.tests number ≡ Some result }
        ensures tree { test_at self.now number ≡ test_tree_in (nodes_in self.now) result }
        ensures tables { AreTables self.now }
    {
        *self.tests.get_index(number).unwrap()
    }

    /// Returns the node of a term.
    pub fn term_node(&self, number: usize) -> TermNode
        requires { IsTerm self.now number }
        ensures node { slice_get self.now.terms number ≡ Some result }
        ensures tree { term_at self.now number ≡ tree_in (nodes_in self.now) result }
        ensures parts { IsOver (length self.now.tests) number result }
        ensures tables { AreTables self.now }
    {
        *self.terms.get_index(number).unwrap()
    }

    // Returns the number of the test, and adds the nodes that are new.
    fn number_of_test(&mut self, test: &Test) -> Result<usize, NoMemory>
        requires { IsTestInRange self.old.width (test_tree test.now) }
        ensures tree { IfOk result (λ k. IsTest self.new k × (test_at self.new k ≡ test_tree test.now)) }
        ensures grows { TablesGrow self.old self.new }
    {
        let node = match test {
            Test::False => TestNode::False,
            Test::True => TestNode::True,
            Test::Prim(k) => TestNode::Prim(*k),
            Test::Not(b) => TestNode::Not(self.number_of_test(b)?),
            Test::And(b, c) => TestNode::And(self.number_of_test(b)?, self.number_of_test(c)?),
            Test::Or(b, c) => TestNode::Or(self.number_of_test(b)?, self.number_of_test(c)?),
        };
        self.test(node)
    }

    /// Returns the number of the term, and adds the nodes that are new.
    pub fn number_of(&mut self, term: &Kat) -> Result<usize, NoMemory>
        requires { HasTestsBelow self.old.width (kat_tree term.now) }
        ensures is_term { IfOk result (IsTerm self.new) }
        ensures tree { IfOk result (λ k. term_at self.new k ≡ kat_tree term.now) }
        ensures grows { TablesGrow self.old self.new }
    {
        let node = match term {
            Kat::Zero => TermNode::Zero,
            Kat::One => TermNode::One,
            Kat::Test(b) => TermNode::Test(self.number_of_test(b)?),
            Kat::Act(a) => TermNode::Act(*a),
            Kat::Sum(e, f) => TermNode::Sum(self.number_of(e)?, self.number_of(f)?),
            Kat::Seq(e, f) => TermNode::Seq(self.number_of(e)?, self.number_of(f)?),
            Kat::Star(e) => TermNode::Star(self.number_of(e)?),
        };
        self.term(node)
    }

    /// Returns the test that is always true or, if `on` is false, the test that is always false.
    pub fn constant(&mut self, on: bool) -> Result<usize, NoMemory>
        ensures values { IfOk result (HasValues self.new (λ _. on)) }
        ensures grows { TestsGrow self.old self.new }
    {
        let node = if on { TestNode::True } else { TestNode::False };
        self.test(node)
    }

    /// Returns a test that is true if and only if both tests are. For a test and its negation, returns the test that is
    /// always false, since three-valued truth does not see that `b + !b` is true; without this rule each `if` before
    /// and after a loop would double the cases.
    pub fn both(&mut self, x: usize, y: usize) -> Result<usize, NoMemory>
        requires first { IsTest self.old x }
        requires second { IsTest self.old y }
        ensures values { IfOk result (HasValues self.new (λ atom. holds_at self.old x atom && holds_at self.old y atom)) }
        ensures grows { TestsGrow self.old self.new }
    {
        let (first, second) = (self.test_node(x), self.test_node(y));
        if x == y || is_constant(first, false) || is_constant(second, true) {
            return Ok(x);
        }
        if is_constant(first, true) || is_constant(second, false) {
            return Ok(y);
        }
        if negates(first, y) || negates(second, x) {
            return self.constant(false);
        }
        self.test(TestNode::And(x, y))
    }

    /// Returns a test that is true if and only if at least one of the tests is. For a test and its negation, returns
    /// the test that is always true, since three-valued truth does not see that `b + !b` is true; without this rule
    /// each `if` before and after a loop would double the cases.
    pub fn either(&mut self, x: usize, y: usize) -> Result<usize, NoMemory>
        requires first { IsTest self.old x }
        requires second { IsTest self.old y }
        ensures values { IfOk result (HasValues self.new (λ atom. holds_at self.old x atom || holds_at self.old y atom)) }
        ensures grows { TestsGrow self.old self.new }
    {
        let (first, second) = (self.test_node(x), self.test_node(y));
        if x == y || is_constant(first, true) || is_constant(second, false) {
            return Ok(x);
        }
        if is_constant(first, false) || is_constant(second, true) {
            return Ok(y);
        }
        if negates(first, y) || negates(second, x) {
            return self.constant(true);
        }
        self.test(TestNode::Or(x, y))
    }

    /// Returns the product of the terms, or `second` if `first` is `One`.
    pub fn dot(&mut self, first: usize, second: usize) -> Result<usize, NoMemory>
        requires first { IsTerm self.old first }
        requires second { IsTerm self.old second }
        ensures tree { IfOk result (λ k. term_at self.new k ≡ dot (term_at self.old first) (term_at self.old second)) }
        ensures is_term { IfOk result (IsTerm self.new) }
        ensures grows { TablesGrow self.old self.new }
    {
        match self.term_node(first) {
            TermNode::One => Ok(second),
            _ => self.term(TermNode::Seq(first, second)),
        }
    }
}
