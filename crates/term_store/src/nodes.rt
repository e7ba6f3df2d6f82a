//! The ids of a store, and the nodes that name them.
ghost use Rattle.std.specs.Prelude.{◌≡◌};

use std::marker::Model;
use term_nodes::{TermNode, TestNode};

/// The number of a test in its store.
#[derive(Clone, Copy, PartialEq, Eq, PartialOrd, Ord, Hash)]
pub struct TestId {
    pub(crate) index: usize,
}

impl Model for TestId {
    ghost use Rattle.std.specs.Prelude.{ℕ};

    ghost Value = { ℕ };

    ghost view = { λ a. a.index };

    ghost inverse = { λ n. record { index = n } };
}

/// The number of a term in its store.
#[derive(Clone, Copy, PartialEq, Eq, PartialOrd, Ord, Hash)]
pub struct TermId {
    pub(crate) index: usize,
}

impl Model for TermId {
    ghost use Rattle.std.specs.Prelude.{ℕ};

    ghost Value = { ℕ };

    ghost view = { λ a. a.index };

    ghost inverse = { λ n. record { index = n } };
}

impl TermId {
    /// Returns the number of the id. A store numbers its nodes from 0 in the order in which they were added.
    pub fn number(self) -> usize
        ensures { result ≡ self }
    {
        self.index
    }
}

/// A node of a test, over the ids of its parts.
pub type TestShape = TestNode<TestId>;

/// A node of a term, over the ids of its parts.
pub type Shape = TermNode<TestId, TermId>;
