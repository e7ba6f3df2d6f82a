//! What is known of tests when some primitive tests of two atoms are decided (three-valued logic, Kleene 1938). The
//! primitive tests of both atoms have numbers in one list: first those of the first atom, then those of the second.
ghost use Rattle.std.specs.Prelude.{◌≡◌, ◌<◌, ◌≤◌, ◌+◌, ℕ, length, slice_set, IfOk, OnOk};
ghost use Rattle.kat_model.specs.Members.{Has};
ghost use Rattle.term_nodes.specs.Nodes.{IsTestOver};
ghost use Rattle.cert_checker.specs.NodeTables.{IsWithin};
ghost use Rattle.cert_checker.specs.Cases.{known_of, known_test, known_not, known_and, known_node, falsely, truly, undecided, AreQueried, AreKnown};

use crate::question::Question;
use crate::tables::Tables;
use certificate::TestNode;
use kat_model::NoMemory;
use std::alloc::Global;

/// What is known of a truth value.
#[derive(Clone, Copy)]
pub(crate) enum Truth {
    /// It has this value for all values of the open tests.
    Known(bool),
    /// It may depend on this test, which is not decided.
    Undecided(usize),
}

/// Which primitive tests of two atoms are decided, and what is known of tests, by their numbers: at the first atom,
/// where a move begins, and at the second, where it ends. It is correct for the tests in the lists of the question.
pub(crate) struct TestCase {
    pub decided: Vec<Option<bool>>,
    pub begin: Vec<Truth>,
    pub end: Vec<Truth>,
}

// Explicit, so that it is proved once and not at each end of each function that owns one.
impl Drop for TestCase {
    fn drop(self) {
        let TestCase {
            decided: _decided,
            begin: _begin,
            end: _end,
        } = self;
    }
}

/// Returns what is known of the test.
pub(crate) fn value_of(known: &[Truth], test: usize) -> Truth
    ensures { result ≡ known_of known.now test }
{
    match known.get(test) {
        Some(value) => *value,
        None => Truth::Known(false),
    }
}

/// Returns what is known of the test of a pair. Without a test the value is true.
pub(crate) fn test_value(known: &[Truth], test: Option<usize>) -> Truth
    ensures { result ≡ known_test known.now test }
{
    match test {
        Some(test) => value_of(known, test),
        None => Truth::Known(true),
    }
}

/// Whether the value is known to be true.
pub(crate) fn is_true(known: Truth) -> bool
    ensures { result ≡ truly known }
{
    matches!(known, Truth::Known(true))
}

/// Whether the value is known to be false.
pub(crate) fn is_false(known: Truth) -> bool
    ensures { result ≡ falsely known }
{
    matches!(known, Truth::Known(false))
}

fn negation(x: Truth) -> Truth
    ensures { result ≡ known_not x }
{
    match x {
        Truth::Known(value) => Truth::Known(!value),
        Truth::Undecided(test) => Truth::Undecided(test),
    }
}

/// Returns what is known of a conjunction, given what is known of its parts.
pub(crate) fn conjunction(x: Truth, y: Truth) -> Truth
    ensures { result ≡ known_and x y }
{
    match (x, y) {
        (Truth::Known(false), _) | (_, Truth::Known(false)) => Truth::Known(false),
        (Truth::Known(true), other) | (other, Truth::Known(true)) => other,
        (Truth::Undecided(test), Truth::Undecided(_)) => Truth::Undecided(test),
    }
}

// Returns what is known of a node, given what is known of the nodes that it names. The numbers of primitive tests begin
// at `first`.
fn known_in(node: TestNode, known: &[Truth], decided: &[Option<bool>], first: usize) -> Truth
    requires parts { IsTestOver (length known.now) node }
    requires within { IsWithin (length decided.now) node }
    requires narrow { first ≤ length decided.now }
    ensures { result ≡ known_node first decided.now known.now node }
{
    match node {
        TestNode::False => Truth::Known(false),
        TestNode::True => Truth::Known(true),
        TestNode::Prim(k) => match decided[k] {
            Some(value) => Truth::Known(value),
            None => Truth::Undecided(first + k),
        },
        TestNode::Not(x) => negation(known[x]),
        TestNode::And(x, y) => conjunction(known[x], known[y]),
        TestNode::Or(x, y) => negation(conjunction(negation(known[x]), negation(known[y]))),
    }
}

// Computes what is known of these tests at an atom. The list must contain their parts. The numbers of the primitive
// tests begin at `first`.
fn evaluate(
    known: &mut [Truth],
    tables: &Tables,
    queried: &[usize],
    decided: &[Option<bool>],
    first: usize,
)
    requires room { length tables.now.tests ≤ length known.old }
    requires queried { AreQueried tables.now queried.now }
    requires decided { length decided.now ≡ tables.now.width }
    requires narrow { first ≤ tables.now.width }
    ensures known { AreKnown first tables.now decided.now queried.now known.new }
    ensures others { (k : ℕ) → (Has queried.now k → ⊥) → known_of known.new k ≡ known_of known.old k }
    ensures room { length known.new ≡ length known.old }
{
    for test in queried {
        known[*test] = known_in(tables.test_node(*test), known, decided, first);
    }
}

impl TestCase {
    ghost use Rattle.kat_model.specs.declared.limits.TheConstants.{MAX_TESTS};
    ghost use Rattle.cert_checker.specs.Questions.{IsPosed, IsTestCase};

    /// Creates a case in which no test is decided.
    pub fn new(alloc: Global, width: usize) -> Result<TestCase, NoMemory>
        requires { width ≤ MAX_TESTS }
        ensures { IfOk result (λ c. c.decided.items ≡ undecided (width + width)) }
    {
        Ok(TestCase {
            decided: vec![in alloc; None; width + width]?,
            begin: Vec::new(alloc),
            end: Vec::new(alloc),
        })
    }

    /// Decides the test or, without a value, leaves it open.
    pub fn decide(&mut self, test: usize, value: Option<bool>)
        requires { test < length self.old.decided.items }
        ensures { self.new.decided.items ≡ slice_set self.old.decided.items test value }
    {
        self.decided[test] = value;
    }

    /// Computes what is known of the tests that the question names, after making room for all tests.
    pub fn evaluate(&mut self, question: &Question) -> Result<(), NoMemory>
        requires question { IsPosed question.now }
        requires decided { length self.old.decided.items ≡ question.now.tables.width + question.now.tables.width }
        ensures known { OnOk result (IsTestCase question.now.tables question.now question.now.queried self.new.decided.items self.new) }
        ensures decided { self.new.decided ≡ self.old.decided }
    {
        let (tables, pass) = (question.tables, question.action_pass);
        self.begin.resize(tables.test_count(), Truth::Known(false))?;
        self.end.resize(tables.test_count(), Truth::Known(false))?;
        let (first, second) = self.decided.split_at(tables.width());
        evaluate(&mut self.begin, tables, &question.queried, first, 0);
        evaluate(&mut self.begin, tables, &pass.begin, first, 0);
        evaluate(&mut self.end, tables, &pass.end, second, tables.width());
        Ok(())
    }
}
