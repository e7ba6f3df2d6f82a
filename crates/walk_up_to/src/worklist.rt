//! The walk over the listed pairs, in order.
ghost use Rattle.std.specs.Prelude.{◌≡◌, ◌≢◌, ◌<◌, ◌+◌, ◌∷◌, [], ℕ, length, IfOk, OnOk, MatchOption, Some, None, Err, IsSome, slice_get};
ghost use Rattle.kat_model.specs.Problems.{ProblemParts, IsProblem};
ghost use Rattle.kat_model.specs.Closed.{closed};
ghost use Rattle.std.specs.Option.{option_map};
ghost use Rattle.term_nodes.specs.NodeLists.{NodeParts, IsTerm, AreNodes};
ghost use Rattle.term_nodes.specs.NodeTrees.{tree_at};
ghost use Rattle.term_nodes.specs.Growth.{Grows};
ghost use Rattle.test_diagrams.specs.Functions.{value_of, IsDiagramId, IsAtomOf, KeepsFunctions};
ghost use Rattle.walk_up_to.specs.Listings.{IdEntry};
ghost use Rattle.walk_up_to.specs.Decisions.{IsWithinLimit};
ghost use Rattle.walk_up_to.specs.Working.IdWalks.{IsPastLimit};
ghost use Rattle.walk_up_to.specs.declared.stop.EarlyStop.TheVariants.{PairLimit, CostLimit};
ghost use Rattle.walk_up_to.specs.Working.Walking.{IsUnderWay, AreStepsAt, HasStepIds, IsExpanded, IsDifference};

use crate::branching::{StepSource, visit_all};
use crate::listed::ListedPairs;
use crate::mark_set::MarkSet;
use crate::pair::ListedPair;
use crate::stop::EarlyStop;
use kat_model::{Items, NoMemory, Problem};
use partial_derivs::Derivatives;
use std::alloc::Global;
use term_store::{Store, TermId};
use test_diagrams::Diagrams;
use walk_pairs::{BothSteps, Difference, actions_in_order, differing_atom, items_of};

/// The state of a walk: the listed pairs, and the derivatives of terms with their diagrams.
pub(crate) struct Worklist {
    listed: ListedPairs,
    diagrams: Diagrams,
    derivatives: Derivatives,
}

// Explicit, so that it is proved once and not at each end of each function that owns a walk.
impl Drop for Worklist {
    fn drop(self) {
        let Worklist {
            listed: _listed,
            diagrams: _diagrams,
            derivatives: _derivatives,
        } = self;
    }
}

// Returns the set of one term.
fn single(alloc: Global, term: TermId) -> Result<Items<TermId>, NoMemory>
    ensures { IfOk result (λ set. set ≡ term ∷ []) }
{
    Ok(Items::of(vec![in alloc; term]?))
}

// Returns the pair of two terms.
fn first_pair(alloc: Global, left: TermId, right: TermId) -> Result<ListedPair, NoMemory>
    ensures { IfOk result (λ pair. pair ≡ record { left = left ∷ []; right = right ∷ []; origin = None }) }
{
    let left = single(alloc, left)?;
    let right = single(alloc, right)?;
    Ok(ListedPair {
        left,
        right,
        origin: None,
    })
}

// Returns an atom at which exactly one of the two steps accepts, if there is one.
fn atom_apart(
    alloc: Global,
    diagrams: &mut Diagrams,
    steps: &BothSteps,
) -> Result<Option<Vec<bool>>, NoMemory>
    requires left { IsDiagramId diagrams.old steps.now.left.accepts }
    requires right { IsDiagramId diagrams.old steps.now.right.accepts }
    ensures found { IfOk result (λ found. MatchOption found (steps.now.left.accepts ≡ steps.now.right.accepts) (λ atom. IsAtomOf diagrams.old atom.items
        × (value_of diagrams.old steps.now.left.accepts atom.items ≢ value_of diagrams.old steps.now.right.accepts atom.items))) }
    ensures kept { KeepsFunctions diagrams.old diagrams.new }
{
    let left = steps.left.accepts;
    let right = steps.right.accepts;
    if left == right {
        return Ok(None);
    }
    let atom = differing_atom(alloc, diagrams, left, right)?;
    Ok(Some(atom))
}

impl Worklist {
    /// Returns a walk that has listed the pair of two terms. With a limit, it lists at most `limit` pairs.
    pub(crate) fn new(
        alloc: Global,
        tests: usize,
        left: TermId,
        right: TermId,
        universal: Option<TermId>,
        count: usize,
        limit: Option<usize>,
    ) -> Result<Worklist, NoMemory>
        requires { IsWithinLimit limit 1 }
        ensures limit { IfOk result (λ w. w.listed.limit ≡ limit) }
        ensures under_way { IfOk result (λ w. (q : ProblemParts) (store : NodeParts) → IsProblem q → AreNodes store → tests ≡ q.tests → count ≡ length store.terms
            → IsTerm store left → tree_at store left ≡ (closed q).left
            → IsTerm store right → tree_at store right ≡ (closed q).right
            → ((u : ℕ) → universal ≡ Some u → IsTerm store u)
            → option_map (tree_at store) universal ≡ (closed q).universal
            → IsUnderWay q store w 0) }
    {
        let pair = first_pair(alloc, left, right)?;
        let mut listed = ListedPairs::new(alloc, universal, count, limit);
        listed.list(alloc, &[], pair)?;
        Ok(Worklist {
            listed,
            diagrams: Diagrams::new(alloc, tests)?,
            derivatives: Derivatives::new(alloc),
        })
    }

    /// Returns the listed pairs.
    pub(crate) fn pairs(&self) -> &[ListedPair]
        ensures { result.now ≡ self.now.listed.pairs }
    {
        self.listed.pairs()
    }

    // Returns the steps of both sets of the pair at `place`.
    fn steps_at(
        &mut self,
        alloc: Global,
        store: &mut Store,
        place: usize,
    ) -> Result<BothSteps, NoMemory>
        requires under_way { (q : ProblemParts) × IsUnderWay q store.old self.old place }
        requires place { place < length self.old.listed.pairs }
        ensures steps { IfOk result (λ steps. (q : ProblemParts) (e : IdEntry) → IsUnderWay q store.old self.old place
            → slice_get self.old.listed.pairs place ≡ Some e → IsUnderWay q store.new self.new place × AreStepsAt store.new self.new e steps × HasStepIds self.new steps) }
        ensures pairs { self.new.listed.pairs ≡ self.old.listed.pairs }
        ensures limit { self.new.listed.limit ≡ self.old.listed.limit }
        ensures kept { Grows store.old store.new }
    {
        let pair = &self.listed.pairs()[place];
        let left = self
            .derivatives
            .step(alloc, store, &mut self.diagrams, pair.left.as_slice())?;
        let right = self
            .derivatives
            .step(alloc, store, &mut self.diagrams, pair.right.as_slice())?;
        self.listed.widen(store.count());
        Ok(BothSteps { left, right })
    }

    // Lists pairs until, at each atom and for each action, the sets to which a step of the pair at `place` leads are
    // congruent.
    fn expand(
        &mut self,
        alloc: Global,
        marked: &mut MarkSet,
        place: usize,
        actions: usize,
        steps: &BothSteps,
    ) -> Result<(), EarlyStop>
        requires ids { HasStepIds self.old steps.now }
        ensures expanded { OnOk result ((q : ProblemParts) (store : NodeParts) → actions ≡ q.actions → IsExpanded q store self.old self.new place steps.now) }
        ensures tests { self.new.diagrams.tests ≡ self.old.diagrams.tests }
        ensures full { result ≡ Err PairLimit → (q : ProblemParts) (store : NodeParts) (e : IdEntry) → actions ≡ q.actions → IsUnderWay q store self.old place
            → slice_get self.old.listed.pairs place ≡ Some e → AreStepsAt store self.old e steps.now → IsPastLimit q self.old.listed.limit }
        ensures limited { result ≡ Err CostLimit → IsSome self.old.listed.limit }
        ensures limit { self.new.listed.limit ≡ self.old.listed.limit }
    {
        let left = &steps.left.moves;
        let right = &steps.right.moves;
        for act in &actions_in_order(alloc, left, right, actions)? {
            let items = items_of(alloc, &self.diagrams, left, right, *act)?;
            let source = StepSource { place, act: *act };
            visit_all(
                alloc,
                marked,
                &mut self.listed,
                &mut self.diagrams,
                &source,
                items,
            )?;
        }
        Ok(())
    }

    // Processes the pair at `place`. Returns an atom that exactly one of its sets accepts, if there is one.
    fn take(
        &mut self,
        alloc: Global,
        store: &mut Store,
        marked: &mut MarkSet,
        actions: usize,
        place: usize,
    ) -> Result<Option<Vec<bool>>, EarlyStop>
        requires under_way { (q : ProblemParts) × IsUnderWay q store.old self.old place }
        requires place { place < length self.old.listed.pairs }
        ensures taken { IfOk result (λ found. (q : ProblemParts) → actions ≡ q.actions → IsUnderWay q store.old self.old place →
            MatchOption found (IsUnderWay q store.new self.new (place + 1))
            (λ atom. IsUnderWay q store.new self.new place × IsDifference q store.new self.new place atom.items)) }
        ensures full { result ≡ Err PairLimit → (q : ProblemParts) → actions ≡ q.actions → IsUnderWay q store.old self.old place → IsPastLimit q self.old.listed.limit }
        ensures limited { result ≡ Err CostLimit → IsSome self.old.listed.limit }
        ensures limit { self.new.listed.limit ≡ self.old.listed.limit }
        ensures kept { Grows store.old store.new }
    {
        let steps = self.steps_at(alloc, store, place)?;
        if let Some(atom) = atom_apart(alloc, &mut self.diagrams, &steps)? {
            return Ok(Some(atom));
        }
        self.expand(alloc, marked, place, actions, &steps)?;
        Ok(None)
    }

    /// Processes the listed pairs in order, including those that are listed meanwhile. Returns the first difference, or
    /// `None` if the pairs are a bisimulation up to congruence. Stops with `EarlyStop::PairLimit` if it needs more pairs
    /// than may be listed, and with `EarlyStop::CostLimit` if it costs more than a limited walk may cost.
    pub(crate) fn run(
        &mut self,
        alloc: Global,
        store: &mut Store,
        problem: &Problem,
    ) -> Result<Option<Difference>, EarlyStop>
        requires { IsUnderWay problem.now store.old self.old 0 }
        ensures answer { IfOk result (λ found.
            MatchOption found (IsUnderWay problem.now store.new self.new (length self.new.listed.pairs))
            (λ d. IsUnderWay problem.now store.new self.new d.place × IsDifference problem.now store.new self.new d.place d.atom.items)) }
        ensures full { result ≡ Err PairLimit → IsPastLimit problem.now self.old.listed.limit }
        ensures limited { result ≡ Err CostLimit → IsSome self.old.listed.limit }
        ensures limit { self.new.listed.limit ≡ self.old.listed.limit }
        ensures kept { Grows store.old store.new }
    {
        let mut place = 0;
        let mut marked = MarkSet::new(alloc);
        while place < self.listed.pairs().len() {
            if let Some(atom) = self.take(alloc, store, &mut marked, problem.actions(), place)? {
                return Ok(Some(Difference { place, atom }));
            }
            place += 1;
        }
        Ok(None)
    }
}
