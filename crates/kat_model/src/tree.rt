//! Tests and terms.
ghost use Rattle.std.specs.Prelude.{◌≡◌, ◌<◌, length, IfOk, Ok};
ghost use Rattle.kat_model.specs.Trees.{complement, meet, join, sum, product, star, test_tree, kat_tree, test_size, term_size, term_height, acts, is_test as is_test'};
ghost use Rattle.kat_model.specs.Steps.{truth};
ghost use Rattle.kat_model.specs.Problems.{counted, IsTestInRange};

use std::alloc::{AllocError, AllocFailed, Global};

/// Out of memory.
#[derive(Clone, Copy, Debug, PartialEq, Eq)]
pub struct NoMemory;

impl From<AllocError> for NoMemory {
    fn from(_: AllocError) -> Self {
        NoMemory
    }
}

impl<T: Drop> From<AllocFailed<T>> for NoMemory {
    fn from(_: AllocFailed<T>) -> Self {
        NoMemory
    }
}

// Moves both values to boxes. If there is no memory for the second box, the first is dropped.
pub(crate) fn boxed_pair<T: Drop>(
    alloc: Global,
    left: T,
    right: T,
) -> Result<(Box<T>, Box<T>), NoMemory>
    ensures { IfOk result (λ both. (both.0.value ≡ left) × (both.1.value ≡ right)) }
{
    let left = Box::new(alloc, left)?;
    let right = Box::new(alloc, right)?;
    Ok((left, right))
}

// Moves both values to boxes, if there was memory for both.
pub(crate) fn boxed_results<T: Drop>(
    alloc: Global,
    left: Result<T, NoMemory>,
    right: Result<T, NoMemory>,
) -> Result<(Box<T>, Box<T>), NoMemory>
    ensures { IfOk result (λ both. (left ≡ Ok both.0.value) × (right ≡ Ok both.1.value)) }
{
    boxed_pair(alloc, left?, right?)
}

/// A test: an element of a Boolean algebra over primitive tests, numbered from 0 (Kozen, *Kleene algebra with tests*,
/// 1997).
pub enum Test {
    False,
    True,
    Prim(usize),
    Not(Box<Test>),
    And(Box<Test>, Box<Test>),
    Or(Box<Test>, Box<Test>),
}

// Explicit, so that this crate proves it once: a derived drop is a part of the proof of each function that owns a
// test, with a case for each form at each of its ends.
impl Drop for Test {
    fn drop(self) {
        match self {
            Test::False => {}
            Test::True => {}
            Test::Prim(_number) => {}
            Test::Not(_inner) => {}
            Test::And(_left, _right) => {}
            Test::Or(_left, _right) => {}
        }
    }
}

/// A term of Kleene algebra with tests over primitive actions, numbered from 0 (Kozen 1997).
pub enum Kat {
    Zero,
    One,
    Test(Test),
    Act(usize),
    Sum(Box<Kat>, Box<Kat>),
    Seq(Box<Kat>, Box<Kat>),
    Star(Box<Kat>),
}

// Explicit, as for tests.
impl Drop for Kat {
    fn drop(self) {
        match self {
            Kat::Zero => {}
            Kat::One => {}
            Kat::Test(_test) => {}
            Kat::Act(_action) => {}
            Kat::Sum(_left, _right) => {}
            Kat::Seq(_first, _second) => {}
            Kat::Star(_inner) => {}
        }
    }
}

impl Test {
    /// Returns `Not` over a test. Fails only when out of memory; the part is dropped then.
    pub fn new_not(alloc: Global, inner: Test) -> Result<Self, NoMemory>
        ensures { IfOk result (λ b. test_tree b ≡ complement (test_tree inner)) }
    {
        Ok(Test::Not(Box::new(alloc, inner)?))
    }

    /// Returns `And` over two tests. Fails only when out of memory; the parts are dropped then.
    pub fn new_and(alloc: Global, left: Test, right: Test) -> Result<Self, NoMemory>
        ensures { IfOk result (λ b. test_tree b ≡ meet (test_tree left) (test_tree right)) }
    {
        let (left, right) = boxed_pair(alloc, left, right)?;
        Ok(Test::And(left, right))
    }

    /// Returns `Or` over two tests. Fails only when out of memory; the parts are dropped then.
    pub fn new_or(alloc: Global, left: Test, right: Test) -> Result<Self, NoMemory>
        ensures { IfOk result (λ b. test_tree b ≡ join (test_tree left) (test_tree right)) }
    {
        let (left, right) = boxed_pair(alloc, left, right)?;
        Ok(Test::Or(left, right))
    }

    /// Returns a copy of the tree. Fails only when out of memory.
    pub fn copy(&self, alloc: Global) -> Result<Test, NoMemory>
        ensures { IfOk result (λ b. test_tree b ≡ test_tree self.now) }
    {
        match self {
            Test::False => Ok(Test::False),
            Test::True => Ok(Test::True),
            Test::Prim(k) => Ok(Test::Prim(*k)),
            Test::Not(b) => Test::new_not(alloc, b.copy(alloc)?),
            Test::And(b, c) => {
                let (left, right) = boxed_results(alloc, b.copy(alloc), c.copy(alloc))?;
                Ok(Test::And(left, right))
            }
            Test::Or(b, c) => {
                let (left, right) = boxed_results(alloc, b.copy(alloc), c.copy(alloc))?;
                Ok(Test::Or(left, right))
            }
        }
    }

    /// Returns whether `atom` satisfies the test.
    pub fn truth_at(&self, atom: &[bool]) -> bool
        requires { IsTestInRange (length atom.now) (test_tree self.now) }
        ensures { result ≡ truth (test_tree self.now) atom.now }
    {
        match self {
            Test::False => false,
            Test::True => true,
            Test::Prim(k) => atom[*k],
            Test::Not(b) => !b.truth_at(atom),
            Test::And(b, c) => b.truth_at(atom) && c.truth_at(atom),
            Test::Or(b, c) => b.truth_at(atom) || c.truth_at(atom),
        }
    }

    /// Returns the number of nodes, saturated at `u64::MAX`.
    pub fn size(&self) -> u64
        ensures { result ≡ counted (test_size (test_tree self.now)) }
    {
        match self {
            Test::False | Test::True | Test::Prim(_) => 1,
            Test::Not(b) => b.size().saturating_add(1),
            Test::And(b, c) | Test::Or(b, c) => b.size().saturating_add(c.size()).saturating_add(1),
        }
    }
}

impl Kat {
    /// Returns `Sum` over two terms. Fails only when out of memory; the parts are dropped then.
    pub fn new_sum(alloc: Global, left: Kat, right: Kat) -> Result<Self, NoMemory>
        ensures { IfOk result (λ e. kat_tree e ≡ sum (kat_tree left) (kat_tree right)) }
    {
        let (left, right) = boxed_pair(alloc, left, right)?;
        Ok(Kat::Sum(left, right))
    }

    /// Returns `Seq` over two terms. Fails only when out of memory; the parts are dropped then.
    pub fn new_seq(alloc: Global, first: Kat, second: Kat) -> Result<Self, NoMemory>
        ensures { IfOk result (λ e. kat_tree e ≡ product (kat_tree first) (kat_tree second)) }
    {
        let (first, second) = boxed_pair(alloc, first, second)?;
        Ok(Kat::Seq(first, second))
    }

    /// Returns `Star` over a term. Fails only when out of memory; the part is dropped then.
    pub fn new_star(alloc: Global, inner: Kat) -> Result<Self, NoMemory>
        ensures { IfOk result (λ e. kat_tree e ≡ star (kat_tree inner)) }
    {
        Ok(Kat::Star(Box::new(alloc, inner)?))
    }

    /// Returns whether the term is a test: it has neither an action nor a star.
    pub fn is_test(&self) -> bool
        ensures { result ≡ is_test' (kat_tree self.now) }
    {
        match self {
            Kat::Zero | Kat::One | Kat::Test(_) => true,
            Kat::Act(_) | Kat::Star(_) => false,
            Kat::Sum(e, f) | Kat::Seq(e, f) => e.is_test() && f.is_test(),
        }
    }

    /// Returns a copy of the tree. Fails only when out of memory.
    pub fn copy(&self, alloc: Global) -> Result<Kat, NoMemory>
        ensures { IfOk result (λ e. kat_tree e ≡ kat_tree self.now) }
    {
        match self {
            Kat::Zero => Ok(Kat::Zero),
            Kat::One => Ok(Kat::One),
            Kat::Test(b) => Ok(Kat::Test(b.copy(alloc)?)),
            Kat::Act(a) => Ok(Kat::Act(*a)),
            Kat::Sum(e, f) => {
                let (left, right) = boxed_results(alloc, e.copy(alloc), f.copy(alloc))?;
                Ok(Kat::Sum(left, right))
            }
            Kat::Seq(e, f) => {
                let (first, second) = boxed_results(alloc, e.copy(alloc), f.copy(alloc))?;
                Ok(Kat::Seq(first, second))
            }
            Kat::Star(e) => Kat::new_star(alloc, e.copy(alloc)?),
        }
    }

    /// Returns the number of nodes, including those of tests, saturated at `u64::MAX`.
    pub fn size(&self) -> u64
        ensures { result ≡ counted (term_size (kat_tree self.now)) }
    {
        match self {
            Kat::Zero | Kat::One | Kat::Act(_) => 1,
            Kat::Test(b) => b.size().saturating_add(1),
            Kat::Sum(e, f) | Kat::Seq(e, f) => e.size().saturating_add(f.size()).saturating_add(1),
            Kat::Star(e) => e.size().saturating_add(1),
        }
    }

    /// Returns the number of nodes on the longest path, saturated at `usize::MAX`. A test counts as one node.
    pub fn height(&self) -> usize
        ensures { result ≡ counted (term_height (kat_tree self.now)) }
    {
        match self {
            Kat::Zero | Kat::One | Kat::Act(_) | Kat::Test(_) => 1,
            Kat::Sum(e, f) | Kat::Seq(e, f) => e.height().max(f.height()).saturating_add(1),
            Kat::Star(e) => e.height().saturating_add(1),
        }
    }

    /// Returns the number of occurrences of actions, saturated at `u64::MAX`.
    pub fn acts(&self) -> u64
        ensures { result ≡ counted (acts (kat_tree self.now)) }
    {
        match self {
            Kat::Zero | Kat::One | Kat::Test(_) => 0,
            Kat::Act(_) => 1,
            Kat::Sum(e, f) | Kat::Seq(e, f) => e.acts().saturating_add(f.acts()),
            Kat::Star(e) => e.acts(),
        }
    }
}
