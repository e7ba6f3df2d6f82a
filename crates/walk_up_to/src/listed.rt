//! The pairs that a walk has listed. Congruence is by these pairs.
ghost use Rattle.std.specs.Prelude.{◌≡◌, ◌<◌, ◌++◌, ◌∷◌, [], true, false, length, slice_index_or, OnOk, OnErr};
ghost use Rattle.walk_pairs.specs.declared.items.Side.TheVariants.{Left as OnLeft, Right as OnRight};
ghost use Rattle.walk_up_to.specs.Indices.{IsListedUnder, KeepsPlaces};
ghost use Rattle.walk_up_to.specs.Marks.{AllMarked, Stays};

use crate::index::PairIndex;
use crate::pair::ListedPair;
use kat_model::NoMemory;
use std::alloc::Global;
use std::marker::Model;
use term_store::TermId;

/// The listed pairs in order, a mark for each term in them, their index, the universal term, if there is one, and the
/// limit on the number of pairs, if there is one. All ids are below the count.
pub(crate) struct ListedPairs {
    pairs: Vec<ListedPair>,
    members: Vec<bool>,
    index: PairIndex,
    universal: Option<TermId>,
    count: usize,
    limit: Option<usize>,
}

// Explicit, so that it is proved once and not at each end of each function that owns listed pairs.
impl Drop for ListedPairs {
    fn drop(self) {
        let ListedPairs {
            pairs: _pairs,
            members: _members,
            index: _index,
            universal: _,
            count: _,
            limit: _,
        } = self;
    }
}

impl Model for ListedPairs {
    ghost use Rattle.walk_up_to.specs.Indices.{AreIndexed};
    ghost use Rattle.walk_up_to.specs.Marks.{ListedPairsParts, AreMembers};

    ghost Value = { ListedPairsParts };

    ghost view = { λ r. record { pairs = r.pairs.items; members = r.members.items; index = r.index; universal = r.universal; count = r.count; limit = r.limit } };

    ghost invariant = { λ r. AreMembers (record { pairs = r.pairs.items; members = r.members.items; index = r.index; universal = r.universal; count = r.count; limit = r.limit }) × AreIndexed r.index r.pairs.items };
}

// Extends the marks so that there is one at `number`. Existing marks remain.
fn widen(marks: &mut Vec<bool>, number: usize) -> Result<(), NoMemory>
    ensures room { OnOk result (number < length marks.new.items) }
    ensures kept { Stays marks.old.items marks.new.items }
{
    while marks.len() <= number {
        marks.push(false)?;
    }
    Ok(())
}

// Marks the term. Existing marks remain.
fn note(marks: &mut Vec<bool>, term: TermId) -> Result<(), NoMemory>
    ensures noted { OnOk result (slice_index_or marks.new.items term false ≡ true) }
    ensures kept { Stays marks.old.items marks.new.items }
{
    let number = term.number();
    widen(marks, number)?;
    marks[number] = true;
    Ok(())
}

// Marks the terms. Existing marks remain.
fn note_all(marks: &mut Vec<bool>, terms: &[TermId]) -> Result<(), NoMemory>
    ensures noted { OnOk result (AllMarked marks.new.items terms.now) }
    ensures kept { Stays marks.old.items marks.new.items }
{
    for term in terms {
        note(marks, *term)?;
    }
    Ok(())
}

// Marks the members of the pair at `place`, and indexes its sets. Existing marks and sets remain.
fn note_pair(
    alloc: Global,
    uses: &[usize],
    members: &mut Vec<bool>,
    index: &mut PairIndex,
    pair: &ListedPair,
    place: usize,
) -> Result<(), NoMemory>
    ensures noted { OnOk result (AllMarked members.new.items pair.now.left × AllMarked members.new.items pair.now.right) }
    ensures left { OnOk result (IsListedUnder index.new pair.now.left place OnLeft) }
    ensures right { OnOk result (IsListedUnder index.new pair.now.right place OnRight) }
    ensures marks { Stays members.old.items members.new.items }
    ensures places { KeepsPlaces index.old index.new }
{
    note_all(members, pair.left.as_slice())?;
    note_all(members, pair.right.as_slice())?;
    index.add(alloc, uses, pair, place)
}

impl ListedPairs {
    ghost use Rattle.walk_up_to.specs.Indices.{AreIndexed};
    ghost use Rattle.walk_up_to.specs.Marks.{AreMembers, is_full as is_full'};

    /// Returns the empty list. It allocates no memory.
    pub fn new(
        alloc: Global,
        universal: Option<TermId>,
        count: usize,
        limit: Option<usize>,
    ) -> ListedPairs
        ensures { result ≡ record { pairs = []; members = []; index = record { apart = []; under = [] }; universal = universal; count = count; limit = limit } }
    {
        ListedPairs {
            pairs: Vec::new(alloc),
            members: Vec::new(alloc),
            index: PairIndex::new(alloc),
            universal,
            count,
            limit,
        }
    }

    /// Returns the listed pairs.
    pub fn pairs(&self) -> &[ListedPair]
        ensures value { result.now ≡ self.now.pairs }
        ensures members { AreMembers self.now }
        ensures index { AreIndexed self.now.index self.now.pairs }
    {
        &self.pairs
    }

    /// Returns the index of the pairs.
    pub(crate) fn index(&self) -> &PairIndex
        ensures value { result.now ≡ self.now.index }
        ensures indexed { AreIndexed self.now.index self.now.pairs }
    {
        &self.index
    }

    /// Returns the universal term, if there is one.
    pub fn universal(&self) -> Option<TermId>
        ensures value { result ≡ self.now.universal }
        ensures members { AreMembers self.now }
    {
        self.universal
    }

    /// Returns the number of ids.
    pub(crate) fn count(&self) -> usize
        ensures { result ≡ self.now.count }
    {
        self.count
    }

    /// Returns the limit on the number of pairs, if there is one.
    pub fn limit(&self) -> Option<usize>
        ensures { result ≡ self.now.limit }
    {
        self.limit
    }

    /// Whether no further pair may be listed.
    pub fn is_full(&self) -> bool
        ensures { result ≡ is_full' self.now }
    {
        match self.limit {
            Some(limit) => limit <= self.pairs.len(),
            None => false,
        }
    }

    /// Sets the number of ids to `count`.
    pub fn widen(&mut self, count: usize)
        ensures { self.new ≡ record self.old { count = count } }
    {
        self.count = count;
    }

    /// Whether the term is a member of a listed pair.
    pub(crate) fn has_member(&self, term: TermId) -> bool
        ensures value { result ≡ slice_index_or self.now.members term false }
        ensures members { AreMembers self.now }
    {
        match self.members.get(term.number()) {
            Some(mark) => *mark,
            None => false,
        }
    }

    /// Lists a pair. `uses` has the number of queries of each term and affects only speed.
    pub fn list(&mut self, alloc: Global, uses: &[usize], pair: ListedPair) -> Result<(), NoMemory>
        ensures pairs { OnOk result (self.new.pairs ≡ self.old.pairs ++ pair ∷ []) }
        ensures same { OnErr result (self.new.pairs ≡ self.old.pairs) }
        ensures universal { self.new.universal ≡ self.old.universal }
        ensures count { self.new.count ≡ self.old.count }
        ensures limit { self.new.limit ≡ self.old.limit }
        ensures members { AreMembers self.new }
    {
        let place = self.pairs.len();
        note_pair(
            alloc,
            uses,
            &mut self.members,
            &mut self.index,
            &pair,
            place,
        )?;
        self.pairs.push(pair)?;
        Ok(())
    }
}
