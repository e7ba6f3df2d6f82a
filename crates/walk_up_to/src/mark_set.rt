//! A set of terms: a mark for each id of a store, and the marked terms in the order in which they were marked. One set
//! is reused for all queries, because allocating the marks for each query would cost more than most queries.
ghost use Rattle.std.specs.Prelude.{◌≡◌, ◌||◌, [], ℕ, false, true, Err, length, replicate, slice_index_or, slice_set, IfOk, IsSome, OnOk};
ghost use Rattle.walk_up_to.specs.declared.stop.EarlyStop.TheVariants.{PairLimit, CostLimit};
ghost use Rattle.walk_up_to.specs.Marks.{are_marked, with_marks, without_marks, with_side_marked, AreAmong, IsMore};

use crate::pair::ListedPair;
use crate::stop::EarlyStop;
use kat_model::NoMemory;
use std::alloc::Global;
use std::marker::Model;
use term_store::TermId;
use walk_pairs::Side;

// The maximal cost of a walk whose number of pairs is limited. Long before a walk lists many pairs, the guards of a
// single step can make very many cases (`moves`), and with a thousand pairs each case visits some thousand sets
// (`corners`).
const COST_LIMIT: usize = 2_000_000;

// The cost of a case that is split. A set that is visited costs 1.
const CASE_COST: usize = 50;

/// The marks, the marked terms, for each id the number of queries whose set had its term, as far as counted, and the
/// cost of the walk so far.
pub(crate) struct MarkSet {
    marks: Vec<bool>,
    terms: Vec<TermId>,
    uses: Vec<usize>,
    cost: usize,
}

// Explicit, so that it is proved once and not at each end of each function that owns a set.
impl Drop for MarkSet {
    fn drop(self) {
        let MarkSet {
            marks: _marks,
            terms: _terms,
            uses: _uses,
            cost: _,
        } = self;
    }
}

impl Model for MarkSet {
    ghost use Rattle.walk_up_to.specs.Marks.{MarkSetParts, AreAmong};

    ghost Value = { MarkSetParts };

    ghost view = { λ m. record { marks = m.marks.items; terms = m.terms.items } };

    ghost invariant = { λ m. AreAmong m.marks.items m.terms.items };
}

// Removes the mark of the term.
fn unmark(marks: &mut [bool], term: TermId)
    ensures { marks.new ≡ slice_set marks.old term false }
{
    let number = term.number();
    if number < marks.len() {
        marks[number] = false;
    }
}

// Removes the marks of the terms.
fn unmark_all(marks: &mut [bool], terms: &[TermId])
    ensures { marks.new ≡ without_marks marks.old terms.now }
{
    for term in terms {
        unmark(marks, *term);
    }
}

// Sets the number of marks to `count`. Adds no marked term.
fn set_count(marks: &mut Vec<bool>, count: usize) -> Result<(), NoMemory>
    ensures count { OnOk result (length marks.new.items ≡ count) }
    ensures marks { (j : ℕ) → slice_index_or marks.new.items j false ≡ true → slice_index_or marks.old.items j false ≡ true }
{
    marks.truncate(count);
    while marks.len() < count {
        marks.push(false)?;
    }
    Ok(())
}

// Increments the count of each of the terms.
fn count_all(counts: &mut [usize], terms: &[TermId]) {
    for term in terms {
        let number = term.number();
        if number < counts.len() {
            counts[number] = counts[number].saturating_add(1);
        }
    }
}

impl MarkSet {
    /// Returns the empty set over no ids. It allocates no memory.
    pub fn new(alloc: Global) -> MarkSet
        ensures { result ≡ record { marks = []; terms = [] } }
    {
        MarkSet {
            marks: Vec::new(alloc),
            terms: Vec::new(alloc),
            uses: Vec::new(alloc),
            cost: 0,
        }
    }

    /// Adds to the cost of the walk. Affects only when a limited walk stops.
    pub(crate) fn spend(&mut self, cost: usize)
        ensures { self.new ≡ self.old }
    {
        self.cost = self.cost.saturating_add(cost);
    }

    /// Counts a case that is split. With a limit on the number of pairs, fails with `EarlyStop::CostLimit` if the walk
    /// has cost as much as a limited walk may cost.
    pub fn count_case(&mut self, limit: Option<usize>) -> Result<(), EarlyStop>
        ensures same { self.new ≡ self.old }
        ensures limited { result ≡ Err CostLimit → IsSome limit }
        ensures pairs { result ≡ Err PairLimit → ⊥ }
    {
        if limit.is_some() && self.cost >= COST_LIMIT {
            return Err(EarlyStop::CostLimit);
        }
        self.spend(CASE_COST);
        Ok(())
    }

    /// Removes all marks, and sets the number of marks to `count`. One set of marks serves all queries: to make and
    /// drop a mark for each id of the store took two thirds of the time on `nest` at 10.
    pub(crate) fn reset(&mut self, count: usize) -> Result<(), NoMemory>
        ensures { OnOk result (self.new ≡ record { marks = replicate count false; terms = [] }) }
    {
        unmark_all(&mut self.marks, &self.terms);
        self.terms.clear();
        set_count(&mut self.marks, count)
    }

    /// Counts a query for each of the marked terms. Affects only speed.
    pub(crate) fn count_uses(&mut self) -> Result<(), NoMemory>
        ensures { self.new ≡ self.old }
    {
        if self.uses.len() < self.marks.len() {
            self.uses.resize(self.marks.len(), 0)?;
        }
        count_all(&mut self.uses, &self.terms);
        Ok(())
    }

    /// Returns for each id the number of queries whose set had its term, as far as counted. Affects only speed.
    pub fn uses(&self) -> &[usize] {
        &self.uses
    }

    /// Returns the marked terms.
    pub(crate) fn terms(&self) -> &[TermId]
        ensures value { result.now ≡ self.now.terms }
        ensures among { AreAmong self.now.marks self.now.terms }
    {
        &self.terms
    }

    /// Whether the term is marked.
    pub(crate) fn has(&self, term: TermId) -> bool
        ensures { result ≡ slice_index_or self.now.marks term false }
    {
        match self.marks.get(term.number()) {
            Some(mark) => *mark,
            None => false,
        }
    }

    /// Marks the term, if it has a mark. Returns whether it is new.
    pub(crate) fn mark(&mut self, term: TermId) -> Result<bool, NoMemory>
        ensures marks { OnOk result (self.new.marks ≡ slice_set self.old.marks term true) }
        ensures more { IfOk result (IsMore self.old self.new) }
    {
        let number = term.number();
        if number < self.marks.len() && !self.marks[number] {
            self.terms.push(term)?;
            self.marks[number] = true;
            return Ok(true);
        }
        Ok(false)
    }
}

/// Whether `first` or `second` is true.
pub(crate) fn either(first: bool, second: bool) -> bool
    ensures { result ≡ (first || second) }
{
    first || second
}

/// Whether each of the terms is marked. Checks the last terms first, because sets that are listed one after the other
/// often have a common prefix: tests are decided in order. From the first term on, `frames` at 46 took longer with the
/// index than by rounds over all pairs; from the last a third of it.
pub(crate) fn holds_all(marked: &MarkSet, terms: &[TermId]) -> bool
    ensures { result ≡ are_marked marked.now.marks terms.now }
{
    let count = terms.len();
    for index in 0..count {
        let term = terms[count - 1 - index];
        if !marked.has(term) {
            return false;
        }
    }
    true
}

/// Marks the terms. Returns whether one is new.
pub(crate) fn mark_all(marked: &mut MarkSet, terms: &[TermId]) -> Result<bool, NoMemory>
    ensures marks { OnOk result (marked.new.marks ≡ with_marks marked.old.marks terms.now) }
    ensures more { IfOk result (IsMore marked.old marked.new) }
{
    let mut grew = false;
    for term in terms {
        let is_new = marked.mark(*term)?;
        grew = either(grew, is_new);
    }
    Ok(grew)
}

/// Adds the other side of the pair if the set contains all of this side. Returns whether a term is new.
pub(crate) fn add_across(
    marked: &mut MarkSet,
    pair: &ListedPair,
    side: Side,
) -> Result<bool, NoMemory>
    ensures marks { OnOk result (marked.new.marks ≡ with_side_marked side marked.old.marks pair.now) }
    ensures more { IfOk result (IsMore marked.old marked.new) }
{
    if holds_all(marked, pair.set_on(side)) {
        return mark_all(marked, pair.set_across(side));
    }
    Ok(false)
}
