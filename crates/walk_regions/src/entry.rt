//! Pairs of sets of terms with the atoms at which the walk reached them.
ghost use Rattle.std.specs.Prelude.{◌≡◌, IfOk};

use kat_model::{Items, NoMemory};
use std::alloc::Global;
use std::marker::Model;
use term_store::TermId;
use test_diagrams::DiagramId;

/// A step from a listed pair: the place of the pair, the action, and the atoms from which the action leads to the sets.
#[derive(Clone, Copy)]
pub struct StepOrigin {
    pub place: usize,
    pub act: usize,
    pub region: DiagramId,
}

/// A pair of sets of terms, the atoms at which it was reached, the number of moves that lead to it, and the last step
/// to it. The ids of each set are in ascending order. The first pair of a walk has no origin.
pub struct Entry {
    pub left: Items<TermId>,
    pub right: Items<TermId>,
    pub test: DiagramId,
    pub level: usize,
    pub origin: Option<StepOrigin>,
}

// Explicit, so that it is proved once and not at each end of each function that owns one.
impl Drop for Entry {
    fn drop(self) {
        let Entry {
            left: _left,
            right: _right,
            test: _,
            level: _,
            origin: _,
        } = self;
    }
}

impl Model for Entry {
    ghost use Rattle.walk_regions.specs.Entries.{EntryParts};

    ghost Value = { EntryParts };

    ghost view = { λ e. record { left = e.left; right = e.right; test = e.test; level = e.level; origin = e.origin } };
}

impl Entry {
    /// Returns a copy.
    pub(crate) fn copy(&self, alloc: Global) -> Result<Entry, NoMemory>
        ensures { IfOk result (λ e. e ≡ self.now) }
    {
        let left = Vec::from_slice(alloc, self.left.as_slice())?;
        let right = Vec::from_slice(alloc, self.right.as_slice())?;
        Ok(Entry {
            left: Items::of(left),
            right: Items::of(right),
            test: self.test,
            level: self.level,
            origin: self.origin,
        })
    }
}
