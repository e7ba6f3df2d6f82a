//! The walk over pairs under tests.
ghost use Rattle.std.specs.Prelude.{◌≡◌, ◌<◌, ◌+◌, ◌^◌, ◌∷◌, [], ℕ, List, map, length, slice_get, All, Some, MatchOption, IfOk, IfSome, IsSome, OnOk, IsTrue};
ghost use Rattle.kat_model.specs.Trees.{Term};
ghost use Rattle.kat_model.specs.Members.{Has};
ghost use Rattle.kat_model.specs.Problems.{ProblemParts};
ghost use Rattle.kat_model.specs.Degrees.{with_hyps, AreSplit};
ghost use Rattle.certificate.specs.Decisions.{IsShortest};
ghost use Rattle.term_nodes.specs.NodeLists.{NodeParts};
ghost use Rattle.term_nodes.specs.NodeTrees.{tree_at};
ghost use Rattle.term_nodes.specs.Growth.{Grows};
ghost use Rattle.partial_derivs.specs.Moves.{IsTermOf};
ghost use Rattle.partial_derivs.specs.Tables.{AreRight};
ghost use Rattle.test_diagrams.specs.Functions.{value_of, IsDiagramId, IsAtomOf, KeepsFunctions};
ghost use Rattle.walk_regions.specs.Entries.{EntryParts};
ghost use Rattle.walk_regions.specs.Listings.{IsLevelAtom, IsPlaceWith};
ghost use Rattle.walk_under.specs.Working.IdEntries.{IsNextPart};
ghost use Rattle.walk_regions.specs.Merging.{AreMergedIds};
ghost use Rattle.walk_under.specs.Working.Walking.{WalkContext, walk_context, first_ids, new_ids, AreClosedIds, IsUnderWay, IsAtSource, IsOpenAt, IsVisited, AreNextItems, IsTaking, IsTakenPair, HasStepped, IsDifference, Distinguish, AcceptAlike, IsRunEnd};
ghost use Rattle.walk_under.specs.declared.walk.RunEnd.TheVariants.{Full};

use kat_model::{Items, NoMemory, append};
use partial_derivs::Derivatives;
use std::alloc::Global;
use std::mem;
use string_tables::{GString, Move};
use term_store::{Store, TermId};
use test_diagrams::{DiagramId, Diagrams};
use walk_pairs::{
    BothSteps, ClosedIds, Item, StoredPair, actions_in_order, difference, differing_atom, items_of,
};
use walk_regions::{
    AllowedMoves, Entry, EntryList, Listing, Part, StepOrigin, TargetSets, differing_part,
    listed_atoms, merged_pairs, parts_of, place_with, unlisted_part,
};

/// The state of a walk: the listed pairs, the allowed moves, and the derivatives of terms with their diagrams.
pub(crate) struct TestedWorklist {
    listing: Listing,
    moves: AllowedMoves,
    diagrams: Diagrams,
    derivatives: Derivatives,
}

// Explicit, so that it is proved once and not at each end of each function that owns one.
impl Drop for TestedWorklist {
    fn drop(self) {
        let TestedWorklist {
            listing: _listing,
            moves: _moves,
            diagrams: _diagrams,
            derivatives: _derivatives,
        } = self;
    }
}

/// A step by the action `act` from the atoms `test` of the listed pair at `place`, to which `level` moves lead.
#[derive(Clone, Copy)]
pub(crate) struct StepSource {
    pub place: usize,
    pub level: usize,
    pub test: DiagramId,
    pub act: usize,
}

/// The listed pair that is processed: its place, the number of moves that lead to it, and the atoms at which that
/// number of moves reached its sets.
#[derive(Clone, Copy)]
pub(crate) struct TakenPair {
    pub place: usize,
    pub level: usize,
    pub test: DiagramId,
}

/// An atom at which exactly one set of a pair accepts, and the diagram of such atoms.
#[derive(Drop)]
pub(crate) struct Distinction {
    pub atom: Vec<bool>,
    pub region: DiagramId,
}

/// The listed pair at `place` whose sets do not accept alike: an atom at which exactly one of them accepts, and the
/// diagram of such atoms.
#[derive(Drop)]
pub(crate) struct FoundDifference {
    pub place: usize,
    pub atom: Vec<bool>,
    pub region: DiagramId,
}

/// How a run of a walk ends.
#[derive(Drop)]
pub(crate) enum RunEnd {
    /// The pairs are a bisimulation under tests.
    Ended,
    /// The sets of a pair do not accept alike.
    Found(FoundDifference),
    /// The walk has more pairs than it may have.
    Full,
}

/// The string of the steps that lead to a pair, and for each step the atoms from which it leads to its pair, those of
/// the last step first.
pub(crate) struct FoundString {
    pub string: GString,
    pub regions: Vec<DiagramId>,
}

// Explicit, so that it is proved once and not at each end of each function that owns one.
impl Drop for FoundString {
    fn drop(self) {
        let FoundString {
            string: _string,
            regions: _regions,
        } = self;
    }
}

impl FoundString {
    /// Returns the string.
    pub(crate) fn into_string(self) -> GString
        ensures { result ≡ self.string }
    {
        let FoundString {
            string,
            regions: _regions,
        } = self;
        string
    }
}

// Whether a walk with this number of pairs has more than it may have.
fn is_full(limit: Option<usize>, count: usize) -> bool
    ensures { IsTrue result → IsSome limit }
{
    match limit {
        Some(most) => count > most,
        None => false,
    }
}

// Returns the pair of the closed sides, at the atoms of `test`.
fn first_entry(alloc: Global, sides: &ClosedIds, test: DiagramId) -> Result<Entry, NoMemory>
    ensures { IfOk result (λ e. e ≡ first_ids sides.now test) }
{
    let left = vec![in alloc; sides.left]?;
    let right = vec![in alloc; sides.right]?;
    Ok(Entry {
        left: Items::of(left),
        right: Items::of(right),
        test,
        level: 0,
        origin: None,
    })
}

// Returns a list of only the pair of the closed sides, at the atoms of `test`.
fn first_list(alloc: Global, sides: &ClosedIds, test: DiagramId) -> Result<EntryList, NoMemory>
    ensures { IfOk result (λ l. l.items ≡ first_ids sides.now test ∷ []) }
{
    let entry = first_entry(alloc, sides, test)?;
    let mut entries = EntryList::new(alloc);
    entries.push(alloc, entry)?;
    Ok(entries)
}

// Returns the pair of the part, at the atoms of `test`.
fn entry_of(
    alloc: Global,
    source: &StepSource,
    part: &Part,
    test: DiagramId,
) -> Result<Entry, NoMemory>
    requires { source.now.level + 1 < 2 ^ 64 }
    ensures { IfOk result (λ e. e ≡ new_ids source.now part.now test) }
{
    let origin = StepOrigin {
        place: source.place,
        act: source.act,
        region: part.region,
    };
    let left = Vec::from_slice(alloc, &part.left)?;
    let right = Vec::from_slice(alloc, &part.right)?;
    Ok(Entry {
        left: Items::of(left),
        right: Items::of(right),
        test,
        level: source.level + 1,
        origin: Some(origin),
    })
}

// Returns an atom of `test` at which exactly one of the two steps accepts, if there is one.
fn distinction_at(
    alloc: Global,
    diagrams: &mut Diagrams,
    test: DiagramId,
    steps: &BothSteps,
) -> Result<Option<Distinction>, NoMemory>
    requires test { IsDiagramId diagrams.old test }
    requires left { IsDiagramId diagrams.old steps.now.left.accepts }
    requires right { IsDiagramId diagrams.old steps.now.right.accepts }
    ensures found { IfOk result (λ found. MatchOption found (AcceptAlike diagrams.old test steps.now) (λ f. Distinguish diagrams.old test steps.now f.atom.items)) }
    ensures region { IfOk result (λ found. IfSome found (λ f. IsDiagramId diagrams.new f.region)) }
    ensures kept { OnOk result (KeepsFunctions diagrams.old diagrams.new) }
{
    let left = diagrams.and(test, steps.left.accepts)?;
    let right = diagrams.and(test, steps.right.accepts)?;
    if left == right {
        return Ok(None);
    }
    let atom = differing_atom(alloc, diagrams, left, right)?;
    let region = difference(diagrams, steps.left.accepts, steps.right.accepts)?;
    Ok(Some(Distinction { atom, region }))
}

impl TestedWorklist {
    /// Returns a walk that has not begun: it has no pairs, and its moves are those of no action.
    pub(crate) fn new(alloc: Global, tests: usize) -> Result<TestedWorklist, NoMemory>
        ensures tests { IfOk result (λ w. w.diagrams.tests ≡ tests) }
        ensures right { IfOk result (λ w. (store : NodeParts) → AreRight store w.diagrams w.derivatives) }
    {
        let diagrams = Diagrams::new(alloc, tests)?;
        let derivatives = Derivatives::new(alloc);
        let moves = AllowedMoves::of_no_action(alloc, &diagrams);
        let listing = Listing {
            entries: EntryList::new(alloc),
            universal: None,
            count: 0,
        };
        Ok(TestedWorklist {
            listing,
            moves,
            diagrams,
            derivatives,
        })
    }

    /// Begins a walk that has listed only the pair of the closed sides, at all atoms that the short hypotheses `shorts`
    /// allow. The diagrams and the derivatives of earlier walks stay, since they depend on no hypothesis. Fails only when
    /// out of memory; on failure, extra nodes may remain.
    pub(crate) fn begin(
        &mut self,
        alloc: Global,
        store: &mut Store,
        actions: usize,
        shorts: &[TermId],
        sides: &ClosedIds,
    ) -> Result<(), NoMemory>
        requires terms { All (IsTermOf store.old self.old.diagrams.tests) shorts.now }
        requires right { AreRight store.old self.old.diagrams self.old.derivatives }
        ensures under_way { OnOk result ((q : ProblemParts) → self.old.diagrams.tests ≡ q.tests → actions ≡ q.actions → AreClosedIds q store.old sides.now
            → IsUnderWay (walk_context (map (tree_at store.old) shorts.now) q store.new) self.new 0) }
        ensures kept { Grows store.old store.new }
    {
        let moves = AllowedMoves::of_hyps(
            alloc,
            store,
            &mut self.diagrams,
            &mut self.derivatives,
            shorts,
            actions,
        )?;
        let entries = first_list(alloc, sides, moves.allowed)?;
        self.listing = Listing {
            entries,
            universal: sides.universal,
            count: store.count(),
        };
        self.moves = moves;
        Ok(())
    }

    // Returns the atoms to which the step leads from the part and at which the listed pairs do not join its sets.
    fn open_atoms(
        &mut self,
        alloc: Global,
        source: &StepSource,
        part: &Part,
    ) -> Result<DiagramId, NoMemory>
        requires { (s : WalkContext) × (from : EntryParts) × IsAtSource s self.old source.now from × IsNextPart s.store self.old.diagrams from source.now.test source.now.act part.now }
        ensures { IfOk result (λ id. (s : WalkContext) (from : EntryParts) → IsAtSource s self.old source.now from
            → IsNextPart s.store self.old.diagrams from source.now.test source.now.act part.now → IsOpenAt s self.old self.new source.now from part.now id) }
    {
        let image = self
            .moves
            .image(&mut self.diagrams, part.region, source.act)?;
        let entries = &self.listing.entries;
        let fresh = unlisted_part(
            alloc,
            &mut self.diagrams,
            entries,
            &part.left,
            &part.right,
            image,
        )?;
        let sides = TargetSets {
            left: &part.left,
            right: &part.right,
            open_left: &part.left,
            open_right: &part.right,
        };
        self.listing
            .open_part(alloc, &mut self.diagrams, &sides, fresh)
    }

    // Lists the pair of the part, at the atoms to which the step leads from it and at which the listed pairs do not
    // join its sets.
    fn visit_part(
        &mut self,
        alloc: Global,
        source: &StepSource,
        part: &Part,
    ) -> Result<(), NoMemory>
        requires level { source.now.level + 1 < 2 ^ 64 }
        requires represents { (s : WalkContext) × (from : EntryParts) × IsAtSource s self.old source.now from × IsNextPart s.store self.old.diagrams from source.now.test source.now.act part.now }
        ensures { OnOk result ((s : WalkContext) (from : EntryParts) → IsAtSource s self.old source.now from
            → IsNextPart s.store self.old.diagrams from source.now.test source.now.act part.now → IsVisited s self.old self.new source.now from (λ atom. IsTrue (value_of self.old.diagrams part.now.region atom))) }
    {
        let test = self.open_atoms(alloc, source, part)?;
        if test == self.diagrams.constant(false) {
            return Ok(());
        }
        let entry = entry_of(alloc, source, part, test)?;
        self.listing.entries.push(alloc, entry)?;
        Ok(())
    }

    // Lists pairs until, after the allowed moves of the step, the next sets are joined.
    fn visit(&mut self, alloc: Global, source: &StepSource, items: &[Item]) -> Result<(), NoMemory>
        requires level { source.now.level + 1 < 2 ^ 64 }
        requires represents { (s : WalkContext) × (from : EntryParts) × IsAtSource s self.old source.now from × AreNextItems s self.old source.now from items.now }
        ensures { OnOk result ((s : WalkContext) (from : EntryParts) → IsAtSource s self.old source.now from
            → AreNextItems s self.old source.now from items.now → IsVisited s self.old self.new source.now from (λ atom. IsTrue (value_of self.old.diagrams source.now.test atom))) }
    {
        let region = differing_part(&mut self.diagrams, items, source.test)?;
        if region == self.diagrams.constant(false) {
            return Ok(());
        }
        let parts = parts_of(alloc, &mut self.diagrams, items, region)?;
        for part in &parts {
            self.visit_part(alloc, source, part)?;
        }
        Ok(())
    }

    // Returns the pair at `place`, with all atoms at which the same number of moves reached its sets. Single entries
    // pass on their own parts, and their number doubles with each test that two actions leave unchanged. One entry for
    // each pair and level would need an origin for each step that added atoms.
    fn taken_pair_at(&mut self, alloc: Global, place: usize) -> Result<TakenPair, NoMemory>
        requires place { place < length self.old.listing.entries.items }
        requires tests { (e : EntryParts) → Has self.old.listing.entries.items e → IsDiagramId self.old.diagrams e.test }
        ensures place { IfOk result (λ t. t.place ≡ place) }
        ensures taken_pair { IfOk result (λ t. (e : EntryParts) → slice_get self.old.listing.entries.items place ≡ Some e → IsTakenPair self.new t e) }
        ensures listing { self.new.listing ≡ self.old.listing }
        ensures moves { self.new.moves ≡ self.old.moves }
        ensures derivatives { self.new.derivatives ≡ self.old.derivatives }
        ensures kept { OnOk result (KeepsFunctions self.old.diagrams self.new.diagrams) }
    {
        let entries = &self.listing.entries;
        let entry = entries.at(place);
        let test = listed_atoms(alloc, &mut self.diagrams, entries, entry)?;
        Ok(TakenPair {
            place,
            level: entry.level,
            test,
        })
    }

    // Returns the steps of both sets of the pair at `place`.
    fn steps_at(
        &mut self,
        alloc: Global,
        store: &mut Store,
        place: usize,
    ) -> Result<BothSteps, NoMemory>
        requires under_way { (shorts : List Term) × (q : ProblemParts) × IsUnderWay (walk_context shorts q store.old) self.old place }
        requires place { place < length self.old.listing.entries.items }
        ensures steps { IfOk result (λ steps. (shorts : List Term) (q : ProblemParts) (e : EntryParts) → IsUnderWay (walk_context shorts q store.old) self.old place
            → slice_get self.old.listing.entries.items place ≡ Some e → IsTaking (walk_context shorts q store.new) self.new place e steps) }
        ensures entries { self.new.listing.entries.items ≡ self.old.listing.entries.items }
        ensures kept { Grows store.old store.new }
    {
        let entry = self.listing.entries.at(place);
        let left = self
            .derivatives
            .step(alloc, store, &mut self.diagrams, entry.left.as_slice())?;
        let right = self
            .derivatives
            .step(alloc, store, &mut self.diagrams, entry.right.as_slice())?;
        self.listing.count = store.count();
        Ok(BothSteps { left, right })
    }

    // Returns the atoms at which the pair at `place` was reached.
    fn test_at(&self, place: usize) -> DiagramId
        requires { place < length self.now.listing.entries.items }
        ensures { (e : EntryParts) → slice_get self.now.listing.entries.items place ≡ Some e → result ≡ e.test }
    {
        let entry = self.listing.entries.at(place);
        entry.test
    }

    // Lists pairs until, after the allowed moves by each action from the atoms of the pair, its next sets are joined.
    fn expand(
        &mut self,
        alloc: Global,
        taken_pair: &TakenPair,
        actions: usize,
        steps: &BothSteps,
    ) -> Result<(), NoMemory>
        requires level { taken_pair.now.level + 1 < 2 ^ 64 }
        requires taking { (s : WalkContext) × (from : EntryParts) × IsTaking s self.old taken_pair.now.place from steps.now × IsTakenPair self.old taken_pair.now from × (actions ≡ s.problem.actions) }
        ensures { OnOk result ((s : WalkContext) (from : EntryParts) → IsTaking s self.old taken_pair.now.place from steps.now → IsTakenPair self.old taken_pair.now from → actions ≡ s.problem.actions
            → (acts : List ℕ) × ((a : ℕ) → a < actions → Has acts a) × HasStepped s self.old self.new taken_pair.now from acts) }
    {
        let left = &steps.left.moves;
        let right = &steps.right.moves;
        for act in &actions_in_order(alloc, left, right, actions)? {
            let items = items_of(alloc, &self.diagrams, left, right, *act)?;
            let source = StepSource {
                place: taken_pair.place,
                level: taken_pair.level,
                test: taken_pair.test,
                act: *act,
            };
            self.visit(alloc, &source, &items)?;
        }
        Ok(())
    }

    // Processes the pair at `place`, whose sets have these steps. Returns an atom of its test that exactly one of its
    // sets accepts, if there is one.
    fn take_steps(
        &mut self,
        alloc: Global,
        actions: usize,
        place: usize,
        steps: &BothSteps,
    ) -> Result<Option<Distinction>, NoMemory>
        requires taking { (s : WalkContext) × (from : EntryParts) × IsTaking s self.old place from steps.now × (actions ≡ s.problem.actions) }
        requires place { place < length self.old.listing.entries.items }
        requires small { place + 1 < 2 ^ 64 }
        ensures taken { IfOk result (λ found. (s : WalkContext) (from : EntryParts) → IsTaking s self.old place from steps.now → actions ≡ s.problem.actions →
            MatchOption found (IsUnderWay s self.new (place + 1)) (λ f. IsUnderWay s self.new place × IsDifference s self.new place f.atom.items)) }
        ensures region { IfOk result (λ found. IfSome found (λ f. IsDiagramId self.new.diagrams f.region)) }
    {
        let test = self.test_at(place);
        if let Some(found) = distinction_at(alloc, &mut self.diagrams, test, steps)? {
            return Ok(Some(found));
        }
        let taken_pair = self.taken_pair_at(alloc, place)?;
        self.expand(alloc, &taken_pair, actions, steps)?;
        Ok(None)
    }

    // Processes the pair at `place`. Returns an atom of its test that exactly one of its sets accepts, if there is one.
    fn take(
        &mut self,
        alloc: Global,
        store: &mut Store,
        actions: usize,
        place: usize,
    ) -> Result<Option<Distinction>, NoMemory>
        requires under_way { (shorts : List Term) × (q : ProblemParts) × IsUnderWay (walk_context shorts q store.old) self.old place × (actions ≡ q.actions) }
        requires place { place < length self.old.listing.entries.items }
        requires small { place + 1 < 2 ^ 64 }
        ensures taken { IfOk result (λ found. (shorts : List Term) (q : ProblemParts) → actions ≡ q.actions → IsUnderWay (walk_context shorts q store.old) self.old place →
            MatchOption found (IsUnderWay (walk_context shorts q store.new) self.new (place + 1))
            (λ f. IsUnderWay (walk_context shorts q store.new) self.new place × IsDifference (walk_context shorts q store.new) self.new place f.atom.items)) }
        ensures region { IfOk result (λ found. IfSome found (λ f. IsDiagramId self.new.diagrams f.region)) }
        ensures kept { Grows store.old store.new }
    {
        let steps = self.steps_at(alloc, store, place)?;
        self.take_steps(alloc, actions, place, &steps)
    }

    /// Processes the listed pairs in order, including those that are listed meanwhile, until the sets of one do not
    /// accept alike. With a limit, stops if there are more pairs than `limit`.
    pub(crate) fn run(
        &mut self,
        alloc: Global,
        store: &mut Store,
        actions: usize,
        limit: Option<usize>,
    ) -> Result<RunEnd, NoMemory>
        requires { (shorts : List Term) × (q : ProblemParts) × IsUnderWay (walk_context shorts q store.old) self.old 0 × (actions ≡ q.actions) }
        ensures answer { IfOk result (λ end. (shorts : List Term) (q : ProblemParts) → actions ≡ q.actions → IsUnderWay (walk_context shorts q store.old) self.old 0
            → IsRunEnd (walk_context shorts q store.new) self.new end) }
        ensures limited { IfOk result (λ end. end ≡ Full → IsSome limit) }
        ensures kept { Grows store.old store.new }
    {
        let mut place = 0;
        while place < self.listing.entries.len() {
            if is_full(limit, self.listing.entries.len()) {
                return Ok(RunEnd::Full);
            }
            if let Some(found) = self.take(alloc, store, actions, place)? {
                return Ok(RunEnd::Found(FoundDifference {
                    place,
                    atom: found.atom,
                    region: found.region,
                }));
            }
            place += 1;
        }
        Ok(RunEnd::Ended)
    }

    // Returns the step that led to the pair at `place`, unless it is the first.
    fn origin_at(&self, place: usize) -> Option<StepOrigin>
        requires { place < length self.now.listing.entries.items }
        ensures { (e : EntryParts) → slice_get self.now.listing.entries.items place ≡ Some e → result ≡ e.origin }
    {
        let entry = self.listing.entries.at(place);
        entry.origin
    }

    // Returns the place of a pair that has the sets and the level of the pair at `place` and was reached at `atom`. The
    // contract requires that one exists.
    fn place_at(&self, place: usize, atom: &[bool]) -> usize
        requires place { place < length self.now.listing.entries.items }
        requires tests { (e : EntryParts) → Has self.now.listing.entries.items e → IsDiagramId self.now.diagrams e.test }
        requires atom { IsAtomOf self.now.diagrams atom.now }
        requires listed { (e : EntryParts) → slice_get self.now.listing.entries.items place ≡ Some e → IsLevelAtom self.now.diagrams self.now.listing.entries.items e atom.now }
        ensures { (e : EntryParts) → slice_get self.now.listing.entries.items place ≡ Some e → IsPlaceWith self.now.diagrams self.now.listing.entries.items e atom.now result }
    {
        let pair = self.listing.entries.at(place);
        place_with(&self.diagrams, &self.listing.entries, pair, atom)
    }

    /// Returns the string of the steps that lead to the pair at `place`. The string ends with `last`, an atom that
    /// exactly one set of the pair accepts.
    pub(crate) fn string_to(
        &mut self,
        alloc: Global,
        place: usize,
        last: Vec<bool>,
    ) -> Result<FoundString, NoMemory>
        requires { (s : WalkContext) × IsUnderWay s self.old place × IsDifference s self.old place last.items }
        ensures shortest { IfOk result (λ f. (whole : ProblemParts) (shorts longs : List Term) (store : NodeParts) → AreSplit whole.hyps shorts longs
            → IsUnderWay (walk_context shorts (with_hyps whole longs) store) self.old place → IsDifference (walk_context shorts (with_hyps whole longs) store) self.old place last.items → IsShortest whole f.string) }
        ensures regions { IfOk result (λ f. (id : ℕ) → Has f.regions.items id → IsDiagramId self.new.diagrams id) }
        ensures derivatives { OnOk result (self.new.derivatives ≡ self.old.derivatives) }
        ensures kept { OnOk result (KeepsFunctions self.old.diagrams self.new.diagrams) }
    {
        let mut place = place;
        let mut first = last;
        let mut moves = Vec::new(alloc);
        let mut regions = Vec::new(alloc);
        while let Some(origin) = self.origin_at(place) {
            let after = first.as_slice();
            let before = self.moves.source(
                alloc,
                &mut self.diagrams,
                origin.region,
                origin.act,
                after,
            )?;
            let atom = Items::of(mem::replace(&mut first, before));
            let act = origin.act;
            append(&mut moves, Move { act, atom })?;
            place = self.place_at(origin.place, first.as_slice());
            regions.push(origin.region)?;
        }
        moves.reverse();
        let string = GString {
            first: Items::of(first),
            rest: Items::of(moves),
        };
        Ok(FoundString { string, regions })
    }

    /// Returns the diagrams of the walk.
    pub(crate) fn diagrams(&self) -> &Diagrams
        ensures { result.now ≡ self.now.diagrams }
    {
        &self.diagrams
    }

    /// Returns the listed pairs, each once, at all atoms at which it was reached. Fails only when out of memory; on
    /// failure, extra nodes may remain.
    pub(crate) fn merge(
        &mut self,
        alloc: Global,
        store: &mut Store,
    ) -> Result<Vec<StoredPair>, NoMemory>
        requires { (s : WalkContext) × IsUnderWay s self.old (length self.old.listing.entries.items) }
        ensures merged { IfOk result (λ v. AreMergedIds store.new self.old.diagrams self.old.listing.entries.items v.items) }
        ensures kept { Grows store.old store.new }
    {
        merged_pairs(alloc, store, &mut self.diagrams, &self.listing.entries)
    }
}
