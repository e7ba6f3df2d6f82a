//! Pairs of sets of terms as ids of a store.
use kat_model::Items;
use std::marker::Model;
use term_store::{TermId, TestId};

/// A pair of sets of terms, each as ids in ascending order, and the test at whose atoms the pair must hold. A pair
/// without a test must hold at all atoms.
pub struct StoredPair {
    pub left: Items<TermId>,
    pub right: Items<TermId>,
    pub test: Option<TestId>,
}

// Explicit, so that it is proved once and not at each end of each function that owns one.
impl Drop for StoredPair {
    fn drop(self) {
        let StoredPair {
            left: _left,
            right: _right,
            test: _,
        } = self;
    }
}

impl Model for StoredPair {
    ghost use Rattle.certificate.specs.PairParts.{PairParts};

    ghost Value = { PairParts };

    ghost view = { λ p. record { left = p.left; right = p.right; test = p.test } };
}
