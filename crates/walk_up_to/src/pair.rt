//! Pairs of sets of terms, and how the walk reached them.
ghost use Rattle.std.specs.Prelude.{◌≡◌, map, IfOk};
ghost use Rattle.walk_up_to.specs.Listings.{untested_of};

use kat_model::{Items, NoMemory, append};
use std::alloc::Global;
use std::marker::Model;
use term_store::TermId;
use walk_pairs::{Side, StoredPair};

/// A step from a listed pair: the place of the pair, and the atom and the action of the step.
#[derive(Drop)]
pub(crate) struct StepOrigin {
    pub place: usize,
    pub atom: Items<bool>,
    pub act: usize,
}

impl Model for StepOrigin {
    ghost use Rattle.walk_up_to.specs.Walks.{StepOrigin as StepOrigin'};

    ghost Value = { StepOrigin' };

    ghost view = { λ o. record { place = o.place; atom = o.atom; act = o.act } };
}

/// A pair of sets of terms, and the step that led to it. The ids of each set are in ascending order. The first pair of
/// a walk has no origin.
pub(crate) struct ListedPair {
    pub left: Items<TermId>,
    pub right: Items<TermId>,
    pub origin: Option<StepOrigin>,
}

// Explicit, so that it is proved once and not at each end of each function that owns a pair.
impl Drop for ListedPair {
    fn drop(self) {
        let ListedPair {
            left: _left,
            right: _right,
            origin: _origin,
        } = self;
    }
}

impl Model for ListedPair {
    ghost use Rattle.walk_up_to.specs.Listings.{IdEntry};

    ghost Value = { IdEntry };

    ghost view = { λ p. record { left = p.left; right = p.right; origin = p.origin } };
}

impl ListedPair {
    ghost use Rattle.walk_up_to.specs.Listings.{set_on as set_on', set_across as set_across'};

    /// Returns the set on this side.
    pub(crate) fn set_on(&self, side: Side) -> &[TermId]
        ensures { result.now ≡ set_on' side self.now }
    {
        match side {
            Side::Left => self.left.as_slice(),
            Side::Right => self.right.as_slice(),
        }
    }

    /// Returns the set on the other side.
    pub(crate) fn set_across(&self, side: Side) -> &[TermId]
        ensures { result.now ≡ set_across' side self.now }
    {
        match side {
            Side::Left => self.right.as_slice(),
            Side::Right => self.left.as_slice(),
        }
    }
}

/// One set of a listed pair, by the place of the pair, with one of its members as an optional witness. A set of terms
/// without the witness does not contain the set.
#[derive(Clone, Copy)]
pub(crate) struct PairSide {
    pub place: usize,
    pub side: Side,
    pub witness: Option<TermId>,
}

// Copies the ids into a new list.
fn copy_ids(alloc: Global, ids: &[TermId]) -> Result<Items<TermId>, NoMemory>
    ensures { IfOk result (λ set. set ≡ ids.now) }
{
    Ok(Items::of(Vec::from_slice(alloc, ids)?))
}

// Returns the pair as a pair of a certificate, without a test.
fn stored_pair_of(alloc: Global, pair: &ListedPair) -> Result<StoredPair, NoMemory>
    ensures { IfOk result (λ stored. stored ≡ untested_of pair.now) }
{
    let left = copy_ids(alloc, pair.left.as_slice())?;
    let right = copy_ids(alloc, pair.right.as_slice())?;
    Ok(StoredPair {
        left,
        right,
        test: None,
    })
}

/// Returns the listed pairs as pairs of a certificate, without tests.
pub(crate) fn stored_pairs_of(
    alloc: Global,
    pairs: &[ListedPair],
) -> Result<Vec<StoredPair>, NoMemory>
    ensures { IfOk result (λ v. v.items ≡ map untested_of pairs.now) }
{
    let mut list = Vec::new(alloc);
    for pair in pairs {
        append(&mut list, stored_pair_of(alloc, pair)?)?;
    }
    Ok(list)
}
