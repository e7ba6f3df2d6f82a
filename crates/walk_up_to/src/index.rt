//! An index of listed pairs. Each nonempty set is indexed under one of its members, so the sets within a set of terms
//! are empty or indexed under those terms.
ghost use Rattle.std.specs.Prelude.{◌≡◌, ◌⊎◌, ◌<◌, ◌∷◌, [], ℕ, length, slice_index_or, MatchOption, OnOk};
ghost use Rattle.kat_model.specs.Members.{Has};
ghost use Rattle.walk_up_to.specs.declared.pair.PairSide.{PairSide as PairSide'};
ghost use Rattle.walk_pairs.specs.declared.items.Side.TheVariants.{Left as OnLeft, Right as OnRight};
ghost use Rattle.walk_up_to.specs.Indices.{IsListedUnder, KeepsPlaces, KeepsLists, pair_side_at};

use crate::pair::{ListedPair, PairSide};
use kat_model::NoMemory;
use std::alloc::Global;
use std::marker::Model;
use term_store::TermId;
use walk_pairs::Side;

/// A list of sets of listed pairs.
#[derive(Drop)]
pub(crate) struct Places {
    places: Vec<PairSide>,
}

impl Model for Places {
    ghost use Rattle.std.specs.Prelude.{List};
    ghost use Rattle.walk_up_to.specs.declared.pair.PairSide.{PairSide as PairSideParts};

    ghost Value = { List PairSideParts };

    ghost view = { λ p. p.places.items };
}

impl Places {
    fn new(alloc: Global) -> Places
        ensures { result ≡ [] }
    {
        Places {
            places: Vec::new(alloc),
        }
    }

    fn add(&mut self, place: usize, side: Side, witness: Option<TermId>) -> Result<(), NoMemory>
        ensures added { OnOk result (Has self.new (pair_side_at place side witness)) }
        ensures kept { (s : PairSide') → Has self.old s → Has self.new s }
    {
        self.places.push(PairSide {
            place,
            side,
            witness,
        })?;
        Ok(())
    }

    /// Returns the sets.
    pub(crate) fn as_slice(&self) -> &[PairSide]
        ensures { result.now ≡ self.now }
    {
        &self.places
    }
}

/// For each term the sets that are indexed under it, and separately the empty sets.
#[derive(Drop)]
pub(crate) struct PairIndex {
    apart: Places,
    under: Vec<Places>,
}

impl Model for PairIndex {
    ghost use Rattle.walk_up_to.specs.Indices.{IndexParts};

    ghost Value = { IndexParts };

    ghost view = { λ x. record { apart = x.apart; under = x.under.items } };
}

// Extends the lists so that there is one at `number`.
fn widen(alloc: Global, lists: &mut Vec<Places>, number: usize) -> Result<(), NoMemory>
    ensures room { OnOk result (number < length lists.new.items) }
    ensures kept { KeepsLists lists.old.items lists.new.items }
{
    while lists.len() <= number {
        lists.push(Places::new(alloc))?;
    }
    Ok(())
}

// Appends the set to the list at `number`.
fn add_under(lists: &mut [Places], number: usize, pair_side: PairSide) -> Result<(), NoMemory>
    requires { number < length lists.old }
    ensures added { OnOk result (Has (slice_index_or lists.new number []) pair_side) }
    ensures kept { KeepsLists lists.old lists.new }
{
    let list = &mut lists[number];
    list.add(pair_side.place, pair_side.side, pair_side.witness)
}

// Returns the number of queries whose set had the term.
fn uses_of(uses: &[usize], term: TermId) -> usize {
    match uses.get(term.number()) {
        Some(count) => *count,
        None => 0,
    }
}

impl PairIndex {
    /// Returns an empty index. It allocates no memory.
    pub(crate) fn new(alloc: Global) -> PairIndex
        ensures { result ≡ record { apart = []; under = [] } }
    {
        PairIndex {
            apart: Places::new(alloc),
            under: Vec::new(alloc),
        }
    }

    /// Returns the empty sets.
    pub(crate) fn apart(&self) -> &Places
        ensures { result.now ≡ self.now.apart }
    {
        &self.apart
    }

    /// Returns the sets that are indexed under the term, if it has a list.
    pub(crate) fn under(&self, term: TermId) -> Option<&Places>
        ensures { MatchOption result (slice_index_or self.now.under term [] ≡ []) (λ p. p.now ≡ slice_index_or self.now.under term []) }
    {
        self.under.get(term.number())
    }

    /// Returns the number of sets that are indexed under the term. Affects only speed.
    pub(crate) fn load(&self, term: TermId) -> usize {
        match self.under(term) {
            Some(places) => places.as_slice().len(),
            None => 0,
        }
    }

    // Whether `term` was in fewer queries than `other`, or in equally many and fewer sets are indexed under it.
    fn is_lighter(&self, uses: &[usize], term: TermId, other: TermId) -> bool {
        let own = uses_of(uses, term);
        let others = uses_of(uses, other);
        own < others || (own == others && self.load(term) < self.load(other))
    }

    // Returns the member of the set that was in the fewest queries, so that few queries visit the set.
    fn lightest(&self, uses: &[usize], set: &[TermId]) -> Option<TermId>
        ensures { MatchOption result (set.now ≡ []) (Has set.now) }
    {
        let mut lightest = *set.last()?;
        for term in set {
            if self.is_lighter(uses, *term, lightest) {
                lightest = *term;
            }
        }
        Some(lightest)
    }

    // Whether `term` is a better witness than `witness`: it is not `own`, and `witness` is `own` or heavier.
    fn is_better(&self, uses: &[usize], term: TermId, own: TermId, witness: TermId) -> bool {
        term != own && (witness == own || self.is_lighter(uses, term, witness))
    }

    // Returns the member other than `own` that was in the fewest queries, or `own` if the set has no other member.
    fn witness(&self, uses: &[usize], set: &[TermId], own: TermId) -> TermId
        requires { Has set.now own }
        ensures { Has set.now result }
    {
        let mut witness = own;
        for term in set {
            if self.is_better(uses, *term, own, witness) {
                witness = *term;
            }
        }
        witness
    }

    // Adds the set of the pair at `place` under one of its members, or to the empty sets. Any member is correct,
    // because all are marked before the set brings the other. The member that was in the fewest queries is chosen,
    // because each query visits all sets under its terms; the next member by that order is the witness, which is
    // checked first.
    fn add_under_member(
        &mut self,
        alloc: Global,
        uses: &[usize],
        set: &[TermId],
        place: usize,
        side: Side,
    ) -> Result<(), NoMemory>
        ensures added { OnOk result (IsListedUnder self.new set.now place side) }
        ensures kept { KeepsPlaces self.old self.new }
    {
        let Some(term) = self.lightest(uses, set) else {
            return self.apart.add(place, side, None);
        };
        let other = self.witness(uses, set, term);
        let witness = Some(other);
        let number = term.number();
        widen(alloc, &mut self.under, number)?;
        add_under(
            &mut self.under,
            number,
            PairSide {
                place,
                side,
                witness,
            },
        )
    }

    /// Adds both sets of the pair at `place`. `uses` has the number of queries of each term and affects only speed.
    pub(crate) fn add(
        &mut self,
        alloc: Global,
        uses: &[usize],
        pair: &ListedPair,
        place: usize,
    ) -> Result<(), NoMemory>
        ensures left { OnOk result (IsListedUnder self.new pair.now.left place OnLeft) }
        ensures right { OnOk result (IsListedUnder self.new pair.now.right place OnRight) }
        ensures kept { KeepsPlaces self.old self.new }
    {
        self.add_under_member(alloc, uses, pair.left.as_slice(), place, Side::Left)?;
        self.add_under_member(alloc, uses, pair.right.as_slice(), place, Side::Right)
    }
}
