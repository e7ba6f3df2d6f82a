//! Moves collected so that all moves by one action to one term share one guard.
ghost use Rattle.std.specs.Prelude.{◌≡◌, [], ◌∷◌, ◌||◌, IfOk, OnOk};
ghost use Rattle.std.specs.List.{IsDistinct};
ghost use Rattle.std.specs.Map.{lookup, keys_of};
ghost use Rattle.term_nodes.specs.Growth.{Grows};
ghost use Rattle.test_diagrams.specs.Functions.{value_of, IsDiagramId, IsDiagramOf, KeepsFunctions};
ghost use Rattle.partial_derivs.specs.Moves.{IsTermOf, AreGuards, AreTargets, AreMerged};
ghost use Rattle.partial_derivs.specs.Working.Gathered.{moves_of, guard_at, same_target, AddsMove, AddsUnder, AddsFollowed, Follows};

use crate::moves::Guarded;
use indexmap::IndexMap;
use kat_model::NoMemory;
use std::alloc::Global;
use term_store::{Store, TermId};
use test_diagrams::{DiagramId, Diagrams};

/// The action and the target term of a move.
#[derive(Clone, Copy, PartialEq, Eq, Hash)]
pub(crate) struct Target {
    act: usize,
    to: TermId,
}

/// The guard of each target.
pub(crate) struct Gathered {
    guards: IndexMap<Target, DiagramId>,
}

// Explicit, so that it is proved once and not at each end of each function that owns one.
impl Drop for Gathered {
    fn drop(self) {
        let Gathered { guards: _guards } = self;
    }
}

impl Gathered {
    /// Creates a collection without moves. Allocates nothing.
    pub(crate) fn new(alloc: Global) -> Gathered
        ensures { result.guards.entries ≡ [] }
    {
        Gathered {
            guards: IndexMap::new(alloc),
        }
    }

    // Returns the disjunction of `guard` and the present guard of the target, if it has one.
    fn guard_with(
        &self,
        diagrams: &mut Diagrams,
        target: &Target,
        guard: DiagramId,
    ) -> Result<DiagramId, NoMemory>
        requires guards { AreGuards diagrams.old (moves_of self.now.guards.entries) }
        requires guard { IsDiagramId diagrams.old guard }
        ensures function { IfOk result (λ id. IsDiagramOf diagrams.new id (λ atom.
            guard_at diagrams.old (lookup (same_target target.now) self.now.guards.entries) atom || value_of diagrams.old guard atom)) }
        ensures kept { KeepsFunctions diagrams.old diagrams.new }
    {
        match self.guards.get(target) {
            Some(old) => diagrams.or(*old, guard),
            None => Ok(guard),
        }
    }

    // Adds a move, unless its guard is always false. No clause requires the omission; without it each product has all
    // moves of its second factor, most of which are never taken.
    fn add(
        &mut self,
        diagrams: &mut Diagrams,
        act: usize,
        to: TermId,
        guard: DiagramId,
    ) -> Result<(), NoMemory>
        requires guards { AreGuards diagrams.old (moves_of self.old.guards.entries) }
        requires guard { IsDiagramId diagrams.old guard }
        ensures added { OnOk result (AddsMove diagrams.old diagrams.new
            (moves_of self.old.guards.entries) (moves_of self.new.guards.entries) (record { guard = guard; act = act; to = to })) }
        ensures kept { KeepsFunctions diagrams.old diagrams.new }
    {
        if guard == diagrams.constant(false) {
            return Ok(());
        }
        let target = Target { act, to };
        let joined = self.guard_with(diagrams, &target, guard)?;
        self.guards.insert(target, joined)?;
        Ok(())
    }

    // Adds a move, restricted to the atoms at which `guard` is true.
    fn add_guarded(
        &mut self,
        diagrams: &mut Diagrams,
        guarded: &Guarded,
        guard: DiagramId,
    ) -> Result<(), NoMemory>
        requires guards { AreGuards diagrams.old (moves_of self.old.guards.entries) }
        requires guarded { IsDiagramId diagrams.old guarded.now.guard }
        requires guard { IsDiagramId diagrams.old guard }
        ensures added { OnOk result (AddsUnder diagrams.old diagrams.new
            (moves_of self.old.guards.entries) (moves_of self.new.guards.entries) (guarded.now ∷ []) guard) }
        ensures kept { KeepsFunctions diagrams.old diagrams.new }
    {
        let both = diagrams.and(guarded.guard, guard)?;
        self.add(diagrams, guarded.act, guarded.to, both)
    }

    /// Adds moves, restricted to the atoms at which `guard` is true.
    pub(crate) fn add_under(
        &mut self,
        diagrams: &mut Diagrams,
        moves: &[Guarded],
        guard: DiagramId,
    ) -> Result<(), NoMemory>
        requires guards { AreGuards diagrams.old (moves_of self.old.guards.entries) }
        requires moves { AreGuards diagrams.old moves.now }
        requires guard { IsDiagramId diagrams.old guard }
        ensures added { OnOk result (AddsUnder diagrams.old diagrams.new
            (moves_of self.old.guards.entries) (moves_of self.new.guards.entries) moves.now guard) }
        ensures kept { KeepsFunctions diagrams.old diagrams.new }
    {
        for guarded in moves {
            self.add_guarded(diagrams, guarded, guard)?;
        }
        Ok(())
    }

    // Adds a move followed by the term.
    fn add_followed(
        &mut self,
        store: &mut Store,
        diagrams: &mut Diagrams,
        guarded: &Guarded,
        tail: TermId,
    ) -> Result<(), NoMemory>
        requires guards { AreGuards diagrams.old (moves_of self.old.guards.entries) }
        requires targets { AreTargets store.old diagrams.old.tests (moves_of self.old.guards.entries) }
        requires guarded { IsDiagramId diagrams.old guarded.now.guard }
        requires to { IsTermOf store.old diagrams.old.tests guarded.now.to }
        requires tail { IsTermOf store.old diagrams.old.tests tail }
        ensures added { OnOk result (AddsFollowed store.old store.new diagrams.old diagrams.new
            (moves_of self.old.guards.entries) (moves_of self.new.guards.entries) guarded.now tail) }
        ensures trees { Grows store.old store.new }
        ensures kept { KeepsFunctions diagrams.old diagrams.new }
    {
        let to = store.dot(guarded.to, tail)?;
        self.add(diagrams, guarded.act, to, guarded.guard)
    }

    /// Returns the moves, each followed by the term.
    pub(crate) fn with_tail(
        alloc: Global,
        store: &mut Store,
        diagrams: &mut Diagrams,
        moves: &[Guarded],
        tail: TermId,
    ) -> Result<Gathered, NoMemory>
        requires guards { AreGuards diagrams.old moves.now }
        requires targets { AreTargets store.old diagrams.old.tests moves.now }
        requires tail { IsTermOf store.old diagrams.old.tests tail }
        ensures follows { IfOk result (λ g. Follows store.old store.new diagrams.old diagrams.new
            (moves_of g.guards.entries) moves.now tail) }
        ensures trees { Grows store.old store.new }
        ensures kept { KeepsFunctions diagrams.old diagrams.new }
    {
        let mut gathered = Gathered::new(alloc);
        for guarded in moves {
            gathered.add_followed(store, diagrams, guarded, tail)?;
        }
        Ok(gathered)
    }

    // Returns the moves as a list, with distinct targets.
    fn move_list(&self, alloc: Global) -> Result<Vec<Guarded>, NoMemory>
        ensures items { IfOk result (λ v. v.items ≡ moves_of self.now.guards.entries) }
        ensures distinct { IsDistinct same_target (keys_of self.now.guards.entries) }
    {
        let moves = self
            .guards
            .iter()
            .map(|(target, guard)| Guarded {
                guard: *guard,
                act: target.act,
                to: target.to,
            })
            .collect(alloc)?;
        Ok(moves)
    }

    /// Returns the moves as a list.
    pub(crate) fn moves(&self, alloc: Global) -> Result<Vec<Guarded>, NoMemory>
        ensures items { IfOk result (λ v. v.items ≡ moves_of self.now.guards.entries) }
        ensures merged { IfOk result (λ v. AreMerged v.items) }
    {
        let moves = self.move_list(alloc)?;
        Ok(moves)
    }
}
