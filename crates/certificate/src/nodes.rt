//! Nodes of tests and terms, and pairs of sets of terms.
use kat_model::Items;
use std::marker::Model;

/// How the listed pairs determine the successors of a pair.
#[derive(Clone, Copy)]
pub enum Style {
    /// Each successor is a listed pair (bisimulation; Hopcroft and Karp 1971).
    Plain,
    /// The listed pairs make the two sets of each successor congruent (up to congruence; Bonchi and Pous 2013).
    UpTo,
    /// As `UpTo`, from the atoms that satisfy the pair's test, along the moves that the hypotheses on single atoms and
    /// moves allow. Only the pairs whose tests are true at the end of a move count.
    Under,
}

/// A node of a test. The numbers of `Not`, `And` and `Or` are numbers of earlier test nodes, from 0.
pub type TestNode = term_nodes::TestNode<usize>;

/// A node of a term. The number of `Test` is the number of a test node; the numbers of `Sum`, `Seq` and `Star` are
/// numbers of earlier term nodes, from 0.
pub type TermNode = term_nodes::TermNode<usize, usize>;

/// Two sets of terms, by the numbers of their nodes.
pub struct Pair {
    pub left: Items<usize>,
    pub right: Items<usize>,
    /// A test node, only in the style `Under`: both sets must accept alike at the atoms that satisfy it.
    pub test: Option<usize>,
}

// Explicit, so that it is proved once and not at each end of each function that owns one.
impl Drop for Pair {
    fn drop(self) {
        let Pair {
            left: _left,
            right: _right,
            test: _,
        } = self;
    }
}

impl Model for Pair {
    ghost use Rattle.certificate.specs.PairParts.{PairParts};

    ghost Value = { PairParts };

    ghost view = { λ p. record { left = p.left; right = p.right; test = p.test } };
}
