//! Computes tests of a store that represent diagrams.
ghost use Rattle.std.specs.Prelude.{◌≡◌, ◌<◌, ◌≤◌, ◌&&◌, ◌||◌, not, true, false, if◌then◌else◌, slice_index_or, [], ℕ, Bool, IfOk, OnOk, IfSome, IsTrue};
ghost use Rattle.kat_model.specs.Steps.{Atom};
ghost use Rattle.term_nodes.specs.NodeLists.{NodeParts, IsTest};
ghost use Rattle.term_nodes.specs.Growth.{Grows};
ghost use Rattle.test_diagrams.specs.Functions.{DiagramsParts, value_of, IsDiagramId, KeepsFunctions};
ghost use Rattle.walk_regions.specs.Working.StoredTests.{IsTestFor, IsConstantTest, IsFree, AreTestsFor};

use indexmap::IndexMap;
use kat_model::NoMemory;
use std::alloc::Global;
use term_store::{Store, TestId, TestShape};
use test_diagrams::{DiagramId, Diagrams};

// Returns the value of the test if its node is a constant.
fn constant_of(store: &Store, test: TestId) -> Option<bool>
    requires { IsTest store.now test }
    ensures { IfSome result (IsConstantTest store.now test) }
{
    match store.test_shape(test) {
        TestShape::True => Some(true),
        TestShape::False => Some(false),
        TestShape::Prim(_) | TestShape::Not(_) | TestShape::And(_, _) | TestShape::Or(_, _) => None,
    }
}

// Whether the node of the test is the constant true.
fn is_always(store: &Store, test: TestId) -> bool
    requires { IsTest store.now test }
    ensures { IsTrue result → IsConstantTest store.now test true }
{
    match store.test_shape(test) {
        TestShape::True => true,
        TestShape::False
        | TestShape::Prim(_)
        | TestShape::Not(_)
        | TestShape::And(_, _)
        | TestShape::Or(_, _) => false,
    }
}

// Returns the test that has this value at all atoms.
fn constant(store: &mut Store, value: bool) -> Result<TestId, NoMemory>
    ensures test { IfOk result (λ id. (n : ℕ) → IsTestFor store.new n id (λ atom. value)) }
    ensures grows { Grows store.old store.new }
{
    if value {
        return store.intern_test(TestShape::True);
    }
    store.intern_test(TestShape::False)
}

// Returns the primitive test with this number.
fn primitive(store: &mut Store, test: usize) -> Result<TestId, NoMemory>
    ensures test { IfOk result (λ id. (n : ℕ) → test < n → IsTestFor store.new n id (λ atom. slice_index_or atom test false)) }
    ensures is_id { IfOk result (IsTest store.new) }
    ensures grows { Grows store.old store.new }
{
    store.intern_test(TestShape::Prim(test))
}

// Returns the negation of the test.
fn negation(store: &mut Store, a: TestId) -> Result<TestId, NoMemory>
    requires { IsTest store.old a }
    ensures test { IfOk result (λ id. (n : ℕ) (f : Atom → Bool) → IsTestFor store.old n a f → IsTestFor store.new n id (λ atom. not (f atom))) }
    ensures is_id { IfOk result (IsTest store.new) }
    ensures grows { Grows store.old store.new }
{
    store.intern_test(TestShape::Not(a))
}

// Returns the conjunction of both tests.
fn both(store: &mut Store, a: TestId, b: TestId) -> Result<TestId, NoMemory>
    requires first { IsTest store.old a }
    requires second { IsTest store.old b }
    ensures test { IfOk result (λ id. (n : ℕ) (f g : Atom → Bool) → IsTestFor store.old n a f → IsTestFor store.old n b g → IsTestFor store.new n id (λ atom. f atom && g atom)) }
    ensures is_id { IfOk result (IsTest store.new) }
    ensures grows { Grows store.old store.new }
{
    if let Some(value) = constant_of(store, a) {
        if value {
            return Ok(b);
        }
        return Ok(a);
    }
    if let Some(value) = constant_of(store, b) {
        if value {
            return Ok(a);
        }
        return Ok(b);
    }
    store.intern_test(TestShape::And(a, b))
}

// Returns the disjunction of both tests.
fn either(store: &mut Store, a: TestId, b: TestId) -> Result<TestId, NoMemory>
    requires first { IsTest store.old a }
    requires second { IsTest store.old b }
    ensures test { IfOk result (λ id. (n : ℕ) (f g : Atom → Bool) → IsTestFor store.old n a f → IsTestFor store.old n b g → IsTestFor store.new n id (λ atom. f atom || g atom)) }
    ensures is_id { IfOk result (IsTest store.new) }
    ensures grows { Grows store.old store.new }
{
    if let Some(value) = constant_of(store, a) {
        if value {
            return Ok(a);
        }
        return Ok(b);
    }
    if let Some(value) = constant_of(store, b) {
        if value {
            return Ok(b);
        }
        return Ok(a);
    }
    store.intern_test(TestShape::Or(a, b))
}

// Returns the test that is `low` if the primitive test is false and `high` if it is true.
fn choice(store: &mut Store, test: usize, low: TestId, high: TestId) -> Result<TestId, NoMemory>
    requires low { IsTest store.old low }
    requires high { IsTest store.old high }
    ensures test { IfOk result (λ id. (n : ℕ) (f g : Atom → Bool) → test < n → IsTestFor store.old n low f → IsTestFor store.old n high g
        → IsTestFor store.new n id (λ atom. if slice_index_or atom test false then g atom else f atom)) }
    ensures grows { Grows store.old store.new }
{
    let is = primitive(store, test)?;
    let is_not = negation(store, is)?;
    let always_high = is_always(store, high);
    if always_high {
        return either(store, is, low);
    }
    let always_low = is_always(store, low);
    if always_low {
        return either(store, is_not, high);
    }
    let on_high = both(store, is, high)?;
    let on_low = both(store, is_not, low)?;
    either(store, on_high, on_low)
}

/// A table of diagrams and the tests of a store that represent them.
pub(crate) struct TestTable {
    tests: IndexMap<DiagramId, TestId>,
}

// Explicit, so that it is proved once and not at each end of each function that owns one.
impl Drop for TestTable {
    fn drop(self) {
        let TestTable { tests: _tests } = self;
    }
}

impl TestTable {
    /// Returns an empty table. It allocates no memory.
    pub(crate) fn new(alloc: Global) -> TestTable
        ensures { result.tests.entries ≡ [] }
    {
        TestTable {
            tests: IndexMap::new(alloc),
        }
    }

    // Returns the test in the table, if there is one.
    fn find(&self, id: DiagramId) -> Option<TestId>
        ensures { IfSome result (λ test. (store : NodeParts) (d : DiagramsParts) → AreTestsFor store d self.now.tests.entries → IsTestFor store d.tests test (value_of d id)) }
    {
        self.tests.get(&id).copied()
    }

    // Stores a test in the table.
    fn note(&mut self, id: DiagramId, test: TestId) -> Result<(), NoMemory>
        ensures { (store : NodeParts) (d : DiagramsParts) → AreTestsFor store d self.old.tests.entries → IsDiagramId d id → IsTestFor store d.tests test (value_of d id) → AreTestsFor store d self.new.tests.entries }
    {
        self.tests.insert(id, test)?;
        Ok(())
    }

    // Returns the test for the diagram `id`, which must not depend on the tests below `from`.
    fn test_from(
        &mut self,
        store: &mut Store,
        diagrams: &mut Diagrams,
        id: DiagramId,
        from: usize,
    ) -> Result<TestId, NoMemory>
        requires id { IsDiagramId diagrams.old id }
        requires free { IsFree diagrams.old id from }
        requires table { AreTestsFor store.old diagrams.old self.old.tests.entries }
        ensures test { IfOk result (λ test. IsTestFor store.new diagrams.new.tests test (value_of diagrams.new id)) }
        ensures table { OnOk result (AreTestsFor store.new diagrams.new self.new.tests.entries) }
        ensures grows { Grows store.old store.new }
        ensures kept { KeepsFunctions diagrams.old diagrams.new }
    {
        // The proof needs the bound on the number of tests.
        let _count = diagrams.tests();
        let Some(test) = diagrams.top(id) else {
            let value = id == diagrams.constant(true);
            return constant(store, value);
        };
        if let Some(found) = self.find(id) {
            return Ok(found);
        }
        let low = diagrams.fix(id, test, false)?;
        let high = diagrams.fix(id, test, true)?;
        let on_low = self.test_from(store, diagrams, low, test + 1)?;
        let on_high = self.test_from(store, diagrams, high, test + 1)?;
        let chosen = choice(store, test, on_low, on_high)?;
        self.note(id, chosen)?;
        Ok(chosen)
    }
}

impl TestTable {
    /// Returns the test for the diagram `id`. Fails only when out of memory; on failure, extra nodes and diagrams may
    /// remain.
    pub(crate) fn test_of(
        &mut self,
        store: &mut Store,
        diagrams: &mut Diagrams,
        id: DiagramId,
    ) -> Result<TestId, NoMemory>
        requires id { IsDiagramId diagrams.old id }
        requires table { AreTestsFor store.old diagrams.old self.old.tests.entries }
        ensures test { IfOk result (λ test. IsTestFor store.new diagrams.new.tests test (value_of diagrams.new id)) }
        ensures table { OnOk result (AreTestsFor store.new diagrams.new self.new.tests.entries) }
        ensures grows { Grows store.old store.new }
        ensures kept { KeepsFunctions diagrams.old diagrams.new }
    {
        self.test_from(store, diagrams, id, 0)
    }
}
