//! An index of the listed pairs: each of their sets is listed under its last member. So the nonempty subsets of a set
//! of terms are listed under its members.
ghost use Rattle.std.specs.Prelude.{◌≡◌, ℕ, IfOk, OnOk, map};
ghost use Rattle.kat_model.specs.Members.{Has};
ghost use Rattle.cert_checker.specs.Indices.{listed_under, places_at, places_by, KeepsPlaces, AreIndexed};

use certificate::Pair;
use kat_model::NoMemory;
use std::alloc::Global;
use std::collections::BTreeMap;
use std::marker::Model;

/// Places of pairs: those of pairs with an empty set, and for each term those of pairs with a set whose last member is
/// the term.
pub(crate) struct PairIndex {
    apart: Vec<usize>,
    under: BTreeMap<usize, Vec<usize>>,
}

// Explicit, so that it is proved once and not at each end of each function that owns one.
impl Drop for PairIndex {
    fn drop(self) {
        let PairIndex {
            apart: _apart,
            under: _under,
        } = self;
    }
}

impl Model for PairIndex {
    ghost use Rattle.std.specs.Prelude.{map};
    ghost use Rattle.cert_checker.specs.Indices.{IndexParts};

    ghost Value = { IndexParts };

    ghost view = { λ x. record { apart = x.apart.items; under = map (λ e. (e.0, e.1.items)) x.under.entries } };
}

// Adds the place under the term.
fn add_under(
    under: &mut BTreeMap<usize, Vec<usize>>,
    alloc: Global,
    term: usize,
    place: usize,
) -> Result<(), NoMemory>
    ensures added { OnOk result (Has (listed_under (map (λ e. (e.0, e.1.items)) under.new.entries) term) place) }
    ensures kept { OnOk result ((k j : ℕ) → Has (listed_under (map (λ e. (e.0, e.1.items)) under.old.entries) k) j → Has (listed_under (map (λ e. (e.0, e.1.items)) under.new.entries) k) j) }
{
    let mut places = match under.remove(&term) {
        Some(places) => places,
        None => Vec::new(alloc),
    };
    places.push(place)?;
    under.insert(term, places)?;
    Ok(())
}

impl PairIndex {
    // Adds the place of a pair that has this set.
    fn add(&mut self, alloc: Global, set: &[usize], place: usize) -> Result<(), NoMemory>
        ensures added { OnOk result (Has (places_by self.new set.now) place) }
        ensures kept { OnOk result (KeepsPlaces self.old self.new) }
    {
        match set.last() {
            None => self.apart.push(place)?,
            Some(term) => add_under(&mut self.under, alloc, *term, place)?,
        }
        Ok(())
    }

    /// Builds the index of these pairs.
    pub fn of(alloc: Global, pairs: &[Pair]) -> Result<PairIndex, NoMemory>
        ensures { IfOk result (λ x. AreIndexed x pairs.now) }
    {
        let mut index = PairIndex {
            apart: Vec::new(alloc),
            under: BTreeMap::new(alloc),
        };
        for (place, pair) in pairs.iter().enumerate() {
            index.add(alloc, pair.left.as_slice(), place)?;
            index.add(alloc, pair.right.as_slice(), place)?;
        }
        Ok(index)
    }

    /// Returns the places of pairs under the term or, without a term, of pairs with an empty set.
    pub fn places(&self, last: Option<usize>) -> &[usize]
        ensures { result.now ≡ places_at self.now last }
    {
        let Some(term) = last else {
            return &self.apart;
        };
        match self.under.get(&term) {
            Some(places) => places,
            None => &[],
        }
    }
}
