//! A collection of diagrams, in which each function of the tests has one id.
ghost use Rattle.std.specs.Prelude.{◌≡◌, ◌≢◌, ◌<◌, ◌≤◌, ◌&&◌, ◌||◌, ◌↔◌, not, Some, slice_get, slice_set, IfOk, IfSome, IfNone, IsNone};
ghost use Rattle.kat_model.specs.Trees.{test_tree};
ghost use Rattle.kat_model.specs.Steps.{truth};
ghost use Rattle.kat_model.specs.Problems.{IsTestInRange};
ghost use Rattle.test_diagrams.specs.Working.Absorption.{IsAbsorbed};

use indexmap::{IndexMap, IndexSet};
use kat_model::{NoMemory, Test};
use std::alloc::Global;
use std::marker::Model;

/// The number of a diagram in its collection.
#[derive(Clone, Copy, PartialEq, Eq, Hash)]
pub struct DiagramId {
    index: usize,
}

impl Model for DiagramId {
    ghost use Rattle.std.specs.Prelude.{ℕ};

    ghost Value = { ℕ };

    ghost view = { λ id. id.index };

    ghost inverse = { λ n. record { index = n } };
}

// The ids of the two constants in every collection.
const NEVER: DiagramId = DiagramId { index: 0 };

const ALWAYS: DiagramId = DiagramId { index: 1 };

// A constant, or a choice by a test: `low` if the test is false, `high` if it is true.
#[derive(Clone, Copy, PartialEq, Eq, Hash)]
enum Node {
    Constant(bool),
    Branch {
        test: usize,
        low: DiagramId,
        high: DiagramId,
    },
}

// An operation and its operands. `Fix` sets a test to a value.
#[derive(Clone, Copy, PartialEq, Eq, Hash)]
enum Operation {
    And(DiagramId, DiagramId),
    Or(DiagramId, DiagramId),
    Not(DiagramId),
    Fix(DiagramId, usize, bool),
}

/// Boolean functions of tests as decision diagrams. Tests are numbered from 0, and test 0 is at the top.
///
/// Each function has one id. Results of operations are stored and never dropped.
pub struct Diagrams {
    tests: usize,
    nodes: IndexSet<Node>,
    results: IndexMap<Operation, DiagramId>,
}

// Explicit, so that it is proved once and not at each end of each function that owns one.
impl Drop for Diagrams {
    fn drop(self) {
        let Diagrams {
            tests: _,
            nodes: _nodes,
            results: _results,
        } = self;
    }
}

impl Model for Diagrams {
    ghost use Rattle.test_diagrams.specs.Functions.{DiagramsParts};
    ghost use Rattle.test_diagrams.specs.Operations.{IsSound};

    ghost Value = { DiagramsParts };

    ghost view = { λ d. record { tests = d.tests; nodes = d.nodes.keys } };

    ghost invariant = { λ d.
        IsSound (record { tests = d.tests; nodes = d.nodes.keys }) d.results.entries };
}

impl Diagrams {
    ghost use Rattle.test_diagrams.specs.Functions.{value_of, IsDiagramId, IsAtomOf, IsDiagramOf, IsConstant, IsLeastTest, KeepsFunctions};
    ghost use Rattle.test_diagrams.specs.Reduced.{level_of, IsReduced};
    ghost use Rattle.test_diagrams.specs.Operations.{HasOperands, function_of, IsResult};
    ghost use Rattle.test_diagrams.specs.Working.Operations.{choice_of, top_of, IsOpen, IsPart, IsCofactor};

    /// Creates a collection for functions of `tests` tests, with the two constants.
    pub fn new(alloc: Global, tests: usize) -> Result<Diagrams, NoMemory>
        ensures tests { IfOk result (λ d. d.tests ≡ tests) }
        ensures reduced { IfOk result IsReduced }
    {
        let mut nodes = IndexSet::new(alloc);
        nodes.insert(Node::Constant(false))?;
        nodes.insert(Node::Constant(true))?;
        Ok(Diagrams {
            tests,
            nodes,
            results: IndexMap::new(alloc),
        })
    }

    /// Returns the number of tests.
    pub fn tests(&self) -> usize
        ensures tests { result ≡ self.now.tests }
        ensures reduced { IsReduced self.now }
    {
        self.tests
    }

    /// Returns the diagram of the constant function.
    pub fn constant(&self, value: bool) -> DiagramId
        ensures function { IsDiagramOf self.now result (λ atom. value) }
        ensures reduced { IsReduced self.now }
    {
        // The proof needs the type's invariant: the collection has both constants.
        let _ = &self.nodes;
        if value { ALWAYS } else { NEVER }
    }

    /// Returns the diagram of the test. On failure, extra diagrams may remain.
    pub fn of_test(&mut self, test: &Test) -> Result<DiagramId, NoMemory>
        requires in_range { IsTestInRange self.old.tests (test_tree test.now) }
        ensures function { IfOk result (λ id. IsDiagramOf self.new id (truth (test_tree test.now))) }
        ensures kept { KeepsFunctions self.old self.new }
        ensures reduced { IsReduced self.new }
    {
        match test {
            Test::False => Ok(self.constant(false)),
            Test::True => Ok(self.constant(true)),
            Test::Prim(k) => {
                let low = self.constant(false);
                let high = self.constant(true);
                self.branch(*k, low, high)
            }
            Test::Not(b) => {
                let inner = self.of_test(b)?;
                self.not(inner)
            }
            Test::And(b, c) => {
                let left = self.of_test(b)?;
                let right = self.of_test(c)?;
                self.and(left, right)
            }
            Test::Or(b, c) => {
                let left = self.of_test(b)?;
                let right = self.of_test(c)?;
                self.or(left, right)
            }
        }
    }

    /// Returns the diagram of the conjunction of `a` and `b`. On failure, extra diagrams may remain.
    pub fn and(&mut self, a: DiagramId, b: DiagramId) -> Result<DiagramId, NoMemory>
        requires left { IsDiagramId self.old a }
        requires right { IsDiagramId self.old b }
        ensures function { IfOk result (λ id. IsDiagramOf self.new id (λ atom.
            value_of self.old a atom && value_of self.old b atom)) }
        ensures kept { KeepsFunctions self.old self.new }
        ensures reduced { IsReduced self.new }
    {
        self.apply(Operation::And(a, b))
    }

    /// Returns the diagram of the disjunction of `a` and `b`. On failure, extra diagrams may remain.
    pub fn or(&mut self, a: DiagramId, b: DiagramId) -> Result<DiagramId, NoMemory>
        requires left { IsDiagramId self.old a }
        requires right { IsDiagramId self.old b }
        ensures function { IfOk result (λ id. IsDiagramOf self.new id (λ atom.
            value_of self.old a atom || value_of self.old b atom)) }
        ensures kept { KeepsFunctions self.old self.new }
        ensures reduced { IsReduced self.new }
    {
        self.apply(Operation::Or(a, b))
    }

    /// Returns the diagram of the negation of `a`. On failure, extra diagrams may remain.
    pub fn not(&mut self, a: DiagramId) -> Result<DiagramId, NoMemory>
        requires { IsDiagramId self.old a }
        ensures function { IfOk result (λ id. IsDiagramOf self.new id (λ atom.
            not (value_of self.old a atom))) }
        ensures kept { KeepsFunctions self.old self.new }
        ensures reduced { IsReduced self.new }
    {
        self.apply(Operation::Not(a))
    }

    /// Returns the diagram of `a` with the test fixed to the value. On failure, extra diagrams may remain.
    pub fn fix(&mut self, a: DiagramId, test: usize, value: bool) -> Result<DiagramId, NoMemory>
        requires id { IsDiagramId self.old a }
        requires in_range { test < self.old.tests }
        ensures function { IfOk result (λ id. IsDiagramOf self.new id (λ atom.
            value_of self.old a (slice_set atom test value))) }
        ensures kept { KeepsFunctions self.old self.new }
        ensures reduced { IsReduced self.new }
    {
        self.apply(Operation::Fix(a, test, value))
    }

    /// Returns the least test on which the function depends, or `None` for a constant function.
    pub fn top(&self, a: DiagramId) -> Option<usize>
        requires { IsDiagramId self.now a }
        ensures least { IfSome result (IsLeastTest self.now a) }
        ensures constant { IsNone result ↔ IsConstant self.now a }
        ensures reduced { IsReduced self.now }
    {
        match self.node(a) {
            Node::Constant(_) => None,
            Node::Branch { test, .. } => Some(test),
        }
    }

    /// Returns the value of the function at the atom.
    pub fn value_at(&self, a: DiagramId, atom: &[bool]) -> bool
        requires id { IsDiagramId self.now a }
        requires atom { IsAtomOf self.now atom.now }
        ensures value { result ≡ value_of self.now a atom.now }
        ensures reduced { IsReduced self.now }
    {
        match self.node(a) {
            Node::Constant(value) => value,
            Node::Branch { test, low, high } => {
                if atom[test] {
                    self.value_at(high, atom)
                } else {
                    self.value_at(low, atom)
                }
            }
        }
    }

    // Returns the node of the diagram.
    fn node(&self, id: DiagramId) -> Node
        requires { IsDiagramId self.now id }
        ensures node { slice_get self.now.nodes id ≡ Some result }
        ensures reduced { IsReduced self.now }
    {
        *self.nodes.get_index(id.index).unwrap()
    }

    // Returns the test at the top of the diagram, or the number of tests for a constant.
    fn level(&self, id: DiagramId) -> usize
        requires { IsDiagramId self.now id }
        ensures level { result ≡ level_of self.now id }
        ensures reduced { IsReduced self.now }
    {
        match self.node(id) {
            Node::Constant(_) => self.tests,
            Node::Branch { test, .. } => test,
        }
    }

    // Returns the diagram of the choice between two diagrams by a test above both.
    fn branch(
        &mut self,
        test: usize,
        low: DiagramId,
        high: DiagramId,
    ) -> Result<DiagramId, NoMemory>
        requires test { test < self.old.tests }
        requires low { IsDiagramId self.old low }
        requires low_below { test < level_of self.old low }
        requires high { IsDiagramId self.old high }
        requires high_below { test < level_of self.old high }
        ensures function { IfOk result (λ id.
            IsDiagramOf self.new id (choice_of self.old test low high)) }
        ensures kept { KeepsFunctions self.old self.new }
        ensures reduced { IsReduced self.new }
    {
        // The proof needs the type's invariant in both cases.
        let _ = &self.nodes;
        if low == high {
            return Ok(low);
        }
        let (index, _) = self.nodes.insert_full(Node::Branch { test, low, high })?;
        Ok(DiagramId { index })
    }

    // Returns the cofactor of the diagram for the value of the test, which is at its top or above it.
    fn part(&self, id: DiagramId, test: usize, value: bool) -> DiagramId
        requires id { IsDiagramId self.now id }
        requires test { test < self.now.tests }
        requires above { test ≤ level_of self.now id }
        ensures part { IsPart self.now id test value result }
        ensures reduced { IsReduced self.now }
    {
        match self.node(id) {
            Node::Branch {
                test: own,
                low,
                high,
            } if own == test => if value { high } else { low },
            _ => id,
        }
    }

    // Returns the result of the operation. Unless it is known already, it is the choice between the results for both
    // values of the top test (Shannon's expansion). Since results are stored, an operation on two diagrams takes at
    // most one step for each pair of their nodes. The depth of recursion is at most the number of tests.
    fn apply(&mut self, operation: Operation) -> Result<DiagramId, NoMemory>
        requires operands { HasOperands self.old operation }
        ensures function { IfOk result (λ id.
            IsDiagramOf self.new id (function_of self.old operation)) }
        ensures kept { KeepsFunctions self.old self.new }
        ensures reduced { IsReduced self.new }
    {
        if let Some(id) = self.trivial_result(&operation) {
            return Ok(id);
        }
        if let Some(id) = self.find_result(&operation) {
            return Ok(id);
        }
        let test = self.top_test(&operation);
        let low_part = self.cofactor(&operation, test, false);
        let high_part = self.cofactor(&operation, test, true);
        let low = self.apply(low_part)?;
        let high = self.apply(high_part)?;
        let id = self.branch(test, low, high)?;
        self.note(operation, id)?;
        Ok(id)
    }

    // Returns the result if it needs no recursion.
    fn trivial_result(&self, operation: &Operation) -> Option<DiagramId>
        requires operands { HasOperands self.now operation.now }
        ensures result { IfSome result (IsResult self.now operation.now) }
        ensures open { IfNone result (IsOpen self.now operation.now) }
        ensures reduced { IsReduced self.now }
    {
        // The proof needs the type's invariant in each case.
        let _ = &self.nodes;
        match *operation {
            Operation::And(a, b) => absorbing_operand(a, b, NEVER, ALWAYS),
            Operation::Or(a, b) => absorbing_operand(a, b, ALWAYS, NEVER),
            Operation::Not(a) => {
                if a == NEVER {
                    return Some(ALWAYS);
                }
                if a == ALWAYS {
                    return Some(NEVER);
                }
                None
            }
            Operation::Fix(a, test, value) => {
                if test <= self.level(a) {
                    return Some(self.part(a, test, value));
                }
                None
            }
        }
    }

    // Returns the result if it was computed before.
    fn find_result(&self, operation: &Operation) -> Option<DiagramId>
        ensures result { IfSome result (IsResult self.now operation.now) }
        ensures reduced { IsReduced self.now }
    {
        self.results.get(operation).copied()
    }

    // Stores the result of an operation.
    fn note(&mut self, operation: Operation, id: DiagramId) -> Result<(), NoMemory>
        requires { IsResult self.old operation id }
        ensures { self.new ≡ self.old }
    {
        self.results.insert(operation, id)?;
        Ok(())
    }

    // Returns the test at the top of the operands.
    fn top_test(&self, operation: &Operation) -> usize
        requires operands { HasOperands self.now operation.now }
        ensures top { result ≡ top_of self.now operation.now }
        ensures reduced { IsReduced self.now }
    {
        match *operation {
            Operation::And(a, b) | Operation::Or(a, b) => self.level(a).min(self.level(b)),
            Operation::Not(a) | Operation::Fix(a, _, _) => self.level(a),
        }
    }

    // Returns the cofactor of the operation for the value of its top test.
    fn cofactor(&self, operation: &Operation, test: usize, value: bool) -> Operation
        requires operands { HasOperands self.now operation.now }
        requires open { IsOpen self.now operation.now }
        requires top { test ≡ top_of self.now operation.now }
        ensures { IsCofactor self.now operation.now test value result }
    {
        match *operation {
            Operation::And(a, b) => {
                Operation::And(self.part(a, test, value), self.part(b, test, value))
            }
            Operation::Or(a, b) => {
                Operation::Or(self.part(a, test, value), self.part(b, test, value))
            }
            Operation::Not(a) => Operation::Not(self.part(a, test, value)),
            Operation::Fix(a, fixed, constant) => {
                Operation::Fix(self.part(a, test, value), fixed, constant)
            }
        }
    }
}

// Returns the operand that is already the result of an operation with these absorbing and neutral values, if one is.
fn absorbing_operand(
    a: DiagramId,
    b: DiagramId,
    absorbing: DiagramId,
    neutral: DiagramId,
) -> Option<DiagramId>
    ensures one { IfSome result (IsAbsorbed a b absorbing neutral) }
    ensures none { IfNone result ((a ≢ absorbing) × (a ≢ neutral)) }
{
    if a == absorbing || b == neutral || a == b {
        return Some(a);
    }
    if a == neutral || b == absorbing {
        return Some(b);
    }
    None
}
