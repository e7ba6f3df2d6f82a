//! A collection of diagrams over two copies of the tests.
ghost use Rattle.std.specs.Prelude.{◌≡◌, ◌+◌, ◌*◌, ◌<◌, ◌^◌, ◌&&◌, ◌||◌, ◌↔◌, not, true, false, IfOk, IsTrue, if◌then◌else◌, slice_set, slice_index_or};
ghost use Rattle.kat_model.specs.Trees.{test_tree};
ghost use Rattle.kat_model.specs.Steps.{truth};
ghost use Rattle.kat_model.specs.Problems.{IsTestInRange};
ghost use Rattle.outline_rules.specs.Interleaved.{atom_at_moment, copy_number, with_value};

use crate::moments::Moment;
use kat_model::{NoMemory, Test};
use std::alloc::Global;
use std::marker::Model;
use test_diagrams::{DiagramId, Diagrams, equal_ids_are_equal_functions};

/// Boolean functions of two atoms, one before a step and one after it, as diagrams over twice as many tests: test `k`
/// before the step is test `2k` of the diagrams, and after it test `2k + 1`. So a relation that does not change a test
/// has three nodes for it.
#[derive(Drop)]
pub struct StepDiagrams {
    tests: usize,
    diagrams: Diagrams,
}

impl Model for StepDiagrams {
    ghost use Rattle.outline_rules.specs.StepFunctions.{StepDiagramsParts, AreStepDiagrams};

    ghost Value = { StepDiagramsParts };

    ghost view = { λ d. record { tests = d.tests; diagrams = d.diagrams } };

    ghost invariant = { λ d. AreStepDiagrams (record { tests = d.tests; diagrams = d.diagrams }) };
}

// Returns the number of the copy of a test in the diagrams.
fn copy_of(test: usize, moment: Moment) -> usize
    requires { test + test + 1 < 2 ^ 64 }
    ensures { result ≡ copy_number test moment }
{
    match moment {
        Moment::Before => test + test,
        Moment::After => test + test + 1,
    }
}

impl StepDiagrams {
    ghost use Rattle.outline_rules.specs.StepFunctions.{step_value, IsStepId, IsStepDiagram, KeepsSteps, AreStepDiagrams, choice_by, Entails, IsImage};
    ghost use Rattle.outline_rules.specs.Working.Quantified.{some_first};

    /// Returns a collection for functions of two atoms over `tests` tests, with the two constants. Fails only when out
    /// of memory.
    pub fn new(alloc: Global, tests: usize) -> Result<StepDiagrams, NoMemory>
        requires { tests < 2 ^ 63 }
        ensures tests { IfOk result (λ d. d.tests ≡ tests) }
        ensures sound { IfOk result AreStepDiagrams }
    {
        let diagrams = Diagrams::new(alloc, tests + tests)?;
        Ok(StepDiagrams { tests, diagrams })
    }

    /// Returns the number of tests of each atom.
    pub fn tests(&self) -> usize
        ensures tests { result ≡ self.now.tests }
        ensures sound { AreStepDiagrams self.now }
    {
        self.tests
    }

    /// Returns the diagram of a constant.
    pub fn constant(&self, value: bool) -> DiagramId
        ensures function { IsStepDiagram self.now result (λ before after. value) }
        ensures sound { AreStepDiagrams self.now }
    {
        self.diagrams.constant(value)
    }

    /// Returns the diagram of a test at a moment. On failure, extra diagrams may remain.
    pub fn of_test(&mut self, test: &Test, moment: Moment) -> Result<DiagramId, NoMemory>
        requires in_range { IsTestInRange self.old.tests (test_tree test.now) }
        ensures function { IfOk result (λ id. IsStepDiagram self.new id
            (λ before after. truth (test_tree test.now) (atom_at_moment moment before after))) }
        ensures kept { KeepsSteps self.old self.new }
        ensures sound { AreStepDiagrams self.new }
    {
        match test {
            Test::False => Ok(self.constant(false)),
            Test::True => Ok(self.constant(true)),
            Test::Prim(k) => self.of_prim(*k, moment),
            Test::Not(b) => {
                let inner = self.of_test(b, moment)?;
                self.not(inner)
            }
            Test::And(b, c) => {
                let left = self.of_test(b, moment)?;
                let right = self.of_test(c, moment)?;
                self.and(left, right)
            }
            Test::Or(b, c) => {
                let left = self.of_test(b, moment)?;
                let right = self.of_test(c, moment)?;
                self.or(left, right)
            }
        }
    }

    // Returns the diagram of a primitive test at a moment.
    fn of_prim(&mut self, test: usize, moment: Moment) -> Result<DiagramId, NoMemory>
        requires in_range { test < self.old.tests }
        ensures function { IfOk result (λ id. IsStepDiagram self.new id
            (λ before after. slice_index_or (atom_at_moment moment before after) test false)) }
        ensures kept { KeepsSteps self.old self.new }
        ensures sound { AreStepDiagrams self.new }
    {
        self.diagrams.of_test(&Test::Prim(copy_of(test, moment)))
    }

    /// Returns the diagram of the conjunction. On failure, extra diagrams may remain.
    pub fn and(&mut self, a: DiagramId, b: DiagramId) -> Result<DiagramId, NoMemory>
        requires left { IsStepId self.old a }
        requires right { IsStepId self.old b }
        ensures function { IfOk result (λ id. IsStepDiagram self.new id
            (λ before after. step_value self.old a before after && step_value self.old b before after)) }
        ensures kept { KeepsSteps self.old self.new }
        ensures sound { AreStepDiagrams self.new }
    {
        self.diagrams.and(a, b)
    }

    /// Returns the diagram of the disjunction. On failure, extra diagrams may remain.
    pub fn or(&mut self, a: DiagramId, b: DiagramId) -> Result<DiagramId, NoMemory>
        requires left { IsStepId self.old a }
        requires right { IsStepId self.old b }
        ensures function { IfOk result (λ id. IsStepDiagram self.new id
            (λ before after. step_value self.old a before after || step_value self.old b before after)) }
        ensures kept { KeepsSteps self.old self.new }
        ensures sound { AreStepDiagrams self.new }
    {
        self.diagrams.or(a, b)
    }

    /// Returns the diagram of the complement. On failure, extra diagrams may remain.
    pub fn not(&mut self, a: DiagramId) -> Result<DiagramId, NoMemory>
        requires { IsStepId self.old a }
        ensures function { IfOk result (λ id. IsStepDiagram self.new id
            (λ before after. not (step_value self.old a before after))) }
        ensures kept { KeepsSteps self.old self.new }
        ensures sound { AreStepDiagrams self.new }
    {
        self.diagrams.not(a)
    }

    /// Returns the choice by a test at a moment: `high` if it is true there, else `low`. On failure, extra diagrams may
    /// remain.
    pub fn choice(
        &mut self,
        test: usize,
        moment: Moment,
        low: DiagramId,
        high: DiagramId,
    ) -> Result<DiagramId, NoMemory>
        requires in_range { test < self.old.tests }
        requires low { IsStepId self.old low }
        requires high { IsStepId self.old high }
        ensures function { IfOk result (λ id. IsStepDiagram self.new id
            (choice_by moment test (step_value self.old low) (step_value self.old high))) }
        ensures kept { KeepsSteps self.old self.new }
        ensures sound { AreStepDiagrams self.new }
    {
        let holds = self.of_prim(test, moment)?;
        let fails = self.not(holds)?;
        let where_false = self.and(fails, low)?;
        let where_true = self.and(holds, high)?;
        self.or(where_false, where_true)
    }

    /// Whether the second function is true whenever the first is. On failure, extra diagrams may remain.
    pub fn entails(&mut self, a: DiagramId, b: DiagramId) -> Result<bool, NoMemory>
        requires first { IsStepId self.old a }
        requires second { IsStepId self.old b }
        ensures entails { IfOk result (λ r. IsTrue r ↔ Entails self.old a b) }
        ensures kept { KeepsSteps self.old self.new }
        ensures sound { AreStepDiagrams self.new }
    {
        let outside = self.not(b)?;
        let broken = self.and(a, outside)?;
        equal_ids_are_equal_functions();
        Ok(broken == self.constant(false))
    }

    /// Returns the diagram with a test at a moment set to a value. On failure, extra diagrams may remain.
    pub fn fix(
        &mut self,
        a: DiagramId,
        test: usize,
        moment: Moment,
        value: bool,
    ) -> Result<DiagramId, NoMemory>
        requires id { IsStepId self.old a }
        requires in_range { test < self.old.tests }
        ensures function { IfOk result (λ id. IsStepDiagram self.new id
            (with_value moment test value (step_value self.old a))) }
        ensures kept { KeepsSteps self.old self.new }
        ensures sound { AreStepDiagrams self.new }
    {
        self.diagrams.fix(a, copy_of(test, moment), value)
    }

    /// Returns the image of a relation between the atoms before a step and those after it (the strongest
    /// postcondition): the diagram that is true exactly when the atom before the step is one that the relation reaches.
    /// On failure, extra diagrams may remain.
    pub fn image(&mut self, relation: DiagramId) -> Result<DiagramId, NoMemory>
        requires { IsStepId self.old relation }
        ensures image { IfOk result (λ id. IsImage self.old relation self.new id) }
        ensures kept { KeepsSteps self.old self.new }
        ensures sound { AreStepDiagrams self.new }
    {
        let ends = self.from_some(relation)?;
        self.moved_before(ends)
    }

    // Returns the diagram that is true when the relation holds for some atom before the step.
    fn from_some(&mut self, relation: DiagramId) -> Result<DiagramId, NoMemory>
        requires { IsStepId self.old relation }
        ensures function { IfOk result (λ id. IsStepDiagram self.new id
            (λ before after. some_first self.old.tests (λ from. step_value self.old relation from after) before)) }
        ensures kept { KeepsSteps self.old self.new }
        ensures sound { AreStepDiagrams self.new }
    {
        let mut set = relation;
        for test in 0..self.tests {
            set = self.for_some_value(set, test)?;
        }
        Ok(set)
    }

    // Returns the diagram that is true when `a` is true for some value of the test before the step.
    fn for_some_value(&mut self, a: DiagramId, test: usize) -> Result<DiagramId, NoMemory>
        requires id { IsStepId self.old a }
        requires in_range { test < self.old.tests }
        ensures function { IfOk result (λ id. IsStepDiagram self.new id (λ before after.
            step_value self.old a (slice_set before test false) after
            || step_value self.old a (slice_set before test true) after)) }
        ensures kept { KeepsSteps self.old self.new }
        ensures sound { AreStepDiagrams self.new }
    {
        let low = self.fix(a, test, Moment::Before, false)?;
        let high = self.fix(a, test, Moment::Before, true)?;
        self.or(low, high)
    }

    // Returns the diagram of `set` at the atom before the step in place of the atom after it.
    fn moved_before(&mut self, set: DiagramId) -> Result<DiagramId, NoMemory>
        requires { IsStepId self.old set }
        ensures function { IfOk result (λ id. IsStepDiagram self.new id
            (λ before after. step_value self.old set before before)) }
        ensures kept { KeepsSteps self.old self.new }
        ensures sound { AreStepDiagrams self.new }
    {
        let mut moved = set;
        for test in 0..self.tests {
            moved = self.test_moved_before(moved, test)?;
        }
        Ok(moved)
    }

    // Returns the diagram in which the test before the step replaces the test after it.
    fn test_moved_before(&mut self, a: DiagramId, test: usize) -> Result<DiagramId, NoMemory>
        requires id { IsStepId self.old a }
        requires in_range { test < self.old.tests }
        ensures function { IfOk result (λ id. IsStepDiagram self.new id (λ before after.
            step_value self.old a before (slice_set after test (slice_index_or before test false)))) }
        ensures kept { KeepsSteps self.old self.new }
        ensures sound { AreStepDiagrams self.new }
    {
        let low = self.fix(a, test, Moment::After, false)?;
        let high = self.fix(a, test, Moment::After, true)?;
        self.choice(test, Moment::Before, low, high)
    }
}
