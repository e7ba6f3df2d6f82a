//! Terms and tests as numbered nodes, each after its parts.
//!
//! The store of a prover, a certificate and the tables of its checker are lists of nodes. The crate has the definitions
//! and lemmas that these share, and the check that the numbers of a set ascend.
#![tactic(auto)]

mod sets;

pub use sets::is_ascending;
use std::alloc::AllocError;

/// A test node, over the numbers `T` of its parts.
#[derive(PartialEq, Eq, PartialOrd, Ord, Hash)]
pub enum TestNode<T> {
    False,
    True,
    Prim(usize),
    Not(T),
    And(T, T),
    Or(T, T),
}

impl<T: Copy> Copy for TestNode<T> {}

// By hand, since a derived clone of a generic type has a case for each variant.
impl<T: Copy> Clone for TestNode<T> {
    fn clone(&self) -> Result<Self, AllocError> {
        Ok(*self)
    }
}

/// A term node, over the numbers `T` of tests and `E` of terms.
#[derive(PartialEq, Eq, PartialOrd, Ord, Hash)]
pub enum TermNode<T, E> {
    Zero,
    One,
    Test(T),
    Act(usize),
    Sum(E, E),
    Seq(E, E),
    Star(E),
}

impl<T: Copy, E: Copy> Copy for TermNode<T, E> {}

// By hand, as above.
impl<T: Copy, E: Copy> Clone for TermNode<T, E> {
    fn clone(&self) -> Result<Self, AllocError> {
        Ok(*self)
    }
}
