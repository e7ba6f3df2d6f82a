//! Expressions over the variables of a store, and conditions on them.
ghost use Rattle.std.specs.Prelude.{◌≡◌, IfOk};
ghost use Rattle.kat_model.specs.Trees.{test_tree};
ghost use Rattle.kat_model.specs.Expressions.{plus, minus, times, compared, negation, both, either, expr_tree, cond_tree, has_comparison, test_without_comparisons};

use crate::tree::{NoMemory, Test, boxed_pair, boxed_results};
use std::alloc::Global;

/// The number of bits of the numbers of a store.
#[derive(Clone, Copy, PartialEq, Eq)]
pub enum Width {
    W8,
    W16,
    W32,
    W64,
}

/// An expression, whose value is a number modulo 2 to the width. Variables are numbered from 0.
pub enum Expr {
    Num(u64),
    Var(usize),
    Add(Box<Expr>, Box<Expr>),
    Sub(Box<Expr>, Box<Expr>),
    Mul(Box<Expr>, Box<Expr>),
}

// Explicit, as for tests.
impl Drop for Expr {
    fn drop(self) {
        match self {
            Expr::Num(_value) => {}
            Expr::Var(_number) => {}
            Expr::Add(_left, _right) => {}
            Expr::Sub(_left, _right) => {}
            Expr::Mul(_left, _right) => {}
        }
    }
}

/// How two numbers are compared: equal, not equal, less, at most, greater, at least.
#[derive(Clone, Copy, PartialEq, Eq)]
pub enum Rel {
    Eq,
    Ne,
    Lt,
    Le,
    Gt,
    Ge,
}

/// A condition of a program: a Boolean combination of named tests, numbered from 0, and of comparisons of values as
/// unsigned numbers.
pub enum Cond {
    True,
    False,
    Test(usize),
    Compare(Rel, Expr, Expr),
    Not(Box<Cond>),
    And(Box<Cond>, Box<Cond>),
    Or(Box<Cond>, Box<Cond>),
}

// Explicit, as for tests.
impl Drop for Cond {
    fn drop(self) {
        match self {
            Cond::True => {}
            Cond::False => {}
            Cond::Test(_number) => {}
            Cond::Compare(_, _left, _right) => {}
            Cond::Not(_inner) => {}
            Cond::And(_left, _right) => {}
            Cond::Or(_left, _right) => {}
        }
    }
}

impl Expr {
    /// Returns `Add` over two expressions. Fails only when out of memory; the parts are dropped then.
    pub fn new_add(alloc: Global, left: Expr, right: Expr) -> Result<Self, NoMemory>
        ensures { IfOk result (λ e. expr_tree e ≡ plus (expr_tree left) (expr_tree right)) }
    {
        let (left, right) = boxed_pair(alloc, left, right)?;
        Ok(Expr::Add(left, right))
    }

    /// Returns `Sub` over two expressions. Fails only when out of memory; the parts are dropped then.
    pub fn new_sub(alloc: Global, left: Expr, right: Expr) -> Result<Self, NoMemory>
        ensures { IfOk result (λ e. expr_tree e ≡ minus (expr_tree left) (expr_tree right)) }
    {
        let (left, right) = boxed_pair(alloc, left, right)?;
        Ok(Expr::Sub(left, right))
    }

    /// Returns `Mul` over two expressions. Fails only when out of memory; the parts are dropped then.
    pub fn new_mul(alloc: Global, left: Expr, right: Expr) -> Result<Self, NoMemory>
        ensures { IfOk result (λ e. expr_tree e ≡ times (expr_tree left) (expr_tree right)) }
    {
        let (left, right) = boxed_pair(alloc, left, right)?;
        Ok(Expr::Mul(left, right))
    }

    /// Returns a copy of the tree. Fails only when out of memory.
    pub fn copy(&self, alloc: Global) -> Result<Expr, NoMemory>
        ensures { IfOk result (λ e. expr_tree e ≡ expr_tree self.now) }
    {
        match self {
            Expr::Num(n) => Ok(Expr::Num(*n)),
            Expr::Var(k) => Ok(Expr::Var(*k)),
            Expr::Add(e, f) => {
                let (left, right) = boxed_results(alloc, e.copy(alloc), f.copy(alloc))?;
                Ok(Expr::Add(left, right))
            }
            Expr::Sub(e, f) => {
                let (left, right) = boxed_results(alloc, e.copy(alloc), f.copy(alloc))?;
                Ok(Expr::Sub(left, right))
            }
            Expr::Mul(e, f) => {
                let (left, right) = boxed_results(alloc, e.copy(alloc), f.copy(alloc))?;
                Ok(Expr::Mul(left, right))
            }
        }
    }
}

impl Cond {
    /// Returns `Not` over a condition. Fails only when out of memory; the part is dropped then.
    pub fn new_not(alloc: Global, inner: Cond) -> Result<Self, NoMemory>
        ensures { IfOk result (λ b. cond_tree b ≡ negation (cond_tree inner)) }
    {
        Ok(Cond::Not(Box::new(alloc, inner)?))
    }

    /// Returns `And` over two conditions. Fails only when out of memory; the parts are dropped then.
    pub fn new_and(alloc: Global, left: Cond, right: Cond) -> Result<Self, NoMemory>
        ensures { IfOk result (λ b. cond_tree b ≡ both (cond_tree left) (cond_tree right)) }
    {
        let (left, right) = boxed_pair(alloc, left, right)?;
        Ok(Cond::And(left, right))
    }

    /// Returns `Or` over two conditions. Fails only when out of memory; the parts are dropped then.
    pub fn new_or(alloc: Global, left: Cond, right: Cond) -> Result<Self, NoMemory>
        ensures { IfOk result (λ b. cond_tree b ≡ either (cond_tree left) (cond_tree right)) }
    {
        let (left, right) = boxed_pair(alloc, left, right)?;
        Ok(Cond::Or(left, right))
    }

    /// Returns whether a comparison occurs in the condition.
    pub fn has_comparison(&self) -> bool
        ensures { result ≡ has_comparison (cond_tree self.now) }
    {
        match self {
            Cond::True | Cond::False | Cond::Test(_) => false,
            Cond::Compare(_, _, _) => true,
            Cond::Not(b) => b.has_comparison(),
            Cond::And(b, c) | Cond::Or(b, c) => b.has_comparison() || c.has_comparison(),
        }
    }

    /// Returns a copy of the tree. Fails only when out of memory.
    pub fn copy(&self, alloc: Global) -> Result<Cond, NoMemory>
        ensures { IfOk result (λ b. cond_tree b ≡ cond_tree self.now) }
    {
        match self {
            Cond::True => Ok(Cond::True),
            Cond::False => Ok(Cond::False),
            Cond::Test(k) => Ok(Cond::Test(*k)),
            Cond::Compare(rel, e, f) => Cond::compare_copies(alloc, *rel, e, f),
            Cond::Not(b) => Cond::new_not(alloc, b.copy(alloc)?),
            Cond::And(b, c) => {
                let (left, right) = boxed_results(alloc, b.copy(alloc), c.copy(alloc))?;
                Ok(Cond::And(left, right))
            }
            Cond::Or(b, c) => {
                let (left, right) = boxed_results(alloc, b.copy(alloc), c.copy(alloc))?;
                Ok(Cond::Or(left, right))
            }
        }
    }

    // Returns the comparison of copies of both expressions.
    fn compare_copies(alloc: Global, rel: Rel, left: &Expr, right: &Expr) -> Result<Cond, NoMemory>
        ensures { IfOk result (λ b. cond_tree b ≡ compared rel (expr_tree left.now) (expr_tree right.now)) }
    {
        let left = left.copy(alloc)?;
        let right = right.copy(alloc)?;
        Ok(Cond::Compare(rel, left, right))
    }
}

/// Returns the test of a condition without comparisons; a comparison counts as false. Fails only when out of memory;
/// the condition is dropped then.
pub fn test_without_comparisons(alloc: Global, cond: Cond) -> Result<Test, NoMemory>
    ensures { IfOk result (λ t. test_tree t ≡ test_without_comparisons (cond_tree cond)) }
{
    test_of(alloc, &cond)
}

// Returns that test of a condition, which is not consumed.
fn test_of(alloc: Global, cond: &Cond) -> Result<Test, NoMemory>
    ensures { IfOk result (λ t. test_tree t ≡ test_without_comparisons (cond_tree cond.now)) }
{
    match cond {
        Cond::True => Ok(Test::True),
        Cond::False | Cond::Compare(_, _, _) => Ok(Test::False),
        Cond::Test(k) => Ok(Test::Prim(*k)),
        Cond::Not(b) => Test::new_not(alloc, test_of(alloc, b)?),
        Cond::And(b, c) => {
            let (left, right) = boxed_results(alloc, test_of(alloc, b), test_of(alloc, c))?;
            Ok(Test::And(left, right))
        }
        Cond::Or(b, c) => {
            let (left, right) = boxed_results(alloc, test_of(alloc, b), test_of(alloc, c))?;
            Ok(Test::Or(left, right))
        }
    }
}
