//! The atoms and moves that are allowed if short hypotheses are zero.
ghost use Rattle.std.specs.Prelude.{◌≡◌, ◌<◌, ℕ, List, [], All, map, IfOk, OnOk};
ghost use Rattle.kat_model.specs.Trees.{Term};
ghost use Rattle.kat_model.specs.AllowedMoves.{IsAllowedAtom};
ghost use Rattle.term_nodes.specs.NodeTrees.{tree_at};
ghost use Rattle.test_diagrams.specs.Functions.{IsDiagramId, IsAtomOf, KeepsFunctions};
ghost use Rattle.partial_derivs.specs.Moves.{IsTermOf, Keeps};
ghost use Rattle.partial_derivs.specs.Tables.{AreRight};
ghost use Rattle.walk_regions.specs.Allowance.{action_count, IsAllowance, IsWithin, IsAllowedImage, HasAllowedSource, IsAllowedSource};

use crate::bars::Bars;
use crate::querying::bars_of;
use kat_model::{NoMemory, append};
use partial_derivs::Derivatives;
use std::alloc::Global;
use term_store::{Store, TermId};
use test_diagrams::{DiagramId, Diagrams};
use walk_pairs::true_atom;

/// The diagram of the allowed atoms, and for each action the bars that block moves.
pub struct AllowedMoves {
    pub allowed: DiagramId,
    actions: Vec<Bars>,
}

// Explicit, so that it is proved once and not at each end of each function that owns one.
impl Drop for AllowedMoves {
    fn drop(self) {
        let AllowedMoves {
            allowed: _,
            actions: _actions,
        } = self;
    }
}

impl AllowedMoves {
    /// Returns the moves of no action. All atoms are allowed. Allocates nothing.
    pub fn of_no_action(alloc: Global, diagrams: &Diagrams) -> AllowedMoves
        ensures { IsAllowance diagrams.now [] 0 result }
    {
        AllowedMoves {
            allowed: diagrams.constant(true),
            actions: Vec::new(alloc),
        }
    }

    /// Returns what the short hypotheses `shorts` allow. Fails only when out of memory; on failure, extra nodes,
    /// diagrams and derivatives may remain.
    pub fn of_hyps(
        alloc: Global,
        store: &mut Store,
        diagrams: &mut Diagrams,
        derivatives: &mut Derivatives,
        shorts: &[TermId],
        actions: usize,
    ) -> Result<AllowedMoves, NoMemory>
        requires terms { All (IsTermOf store.old diagrams.old.tests) shorts.now }
        requires right { AreRight store.old diagrams.old derivatives.old }
        ensures allowance { IfOk result (IsAllowance diagrams.new (map (tree_at store.old) shorts.now) actions) }
        ensures right { AreRight store.new diagrams.new derivatives.new }
        ensures kept { Keeps store.old store.new diagrams.old diagrams.new }
    {
        let steps = derivatives.step(alloc, store, diagrams, shorts)?;
        let allowed = diagrams.not(steps.accepts)?;
        let mut list = Vec::new(alloc);
        for act in 0..actions {
            let bars = bars_of(alloc, store, diagrams, derivatives, &steps.moves, act)?;
            append(&mut list, bars)?;
        }
        Ok(AllowedMoves {
            allowed,
            actions: list,
        })
    }

    /// Returns the atoms to which an allowed move by `act` leads from an atom of `region`. Fails only when out of memory;
    /// on failure, extra diagrams may remain.
    pub fn image(
        &mut self,
        diagrams: &mut Diagrams,
        region: DiagramId,
        act: usize,
    ) -> Result<DiagramId, NoMemory>
        requires moves { (shorts : List Term) × IsAllowance diagrams.old shorts (action_count self.old) self.old }
        requires region { IsDiagramId diagrams.old region }
        requires act { act < action_count self.old }
        ensures image { IfOk result (λ id. (shorts : List Term) (actions : ℕ) → IsAllowance diagrams.old shorts actions self.old
            → IsWithin diagrams.old region self.old.allowed → IsAllowedImage diagrams.new shorts region act id) }
        ensures moves { OnOk result ((shorts : List Term) (actions : ℕ) → IsAllowance diagrams.old shorts actions self.old → IsAllowance diagrams.new shorts actions self.new) }
        ensures allowed { self.new.allowed ≡ self.old.allowed }
        ensures kept { KeepsFunctions diagrams.old diagrams.new }
    {
        let led_to = self.actions[act].image(diagrams, region)?;
        diagrams.and(led_to, self.allowed)
    }

    /// Returns an atom of `region` from which an allowed move by `act` leads to `after`. The contract requires that one
    /// exists. The atom has the values of `after` where possible: a move rarely changes many tests, so fewer hypotheses
    /// that do not count are broken. Fails only when out of memory; on failure, extra diagrams may remain.
    pub fn source(
        &self,
        alloc: Global,
        diagrams: &mut Diagrams,
        region: DiagramId,
        act: usize,
        after: &[bool],
    ) -> Result<Vec<bool>, NoMemory>
        requires moves { (shorts : List Term) × IsAllowance diagrams.old shorts (action_count self.now) self.now
            × HasAllowedSource diagrams.old shorts region act after.now }
        requires region { IsDiagramId diagrams.old region }
        requires act { act < action_count self.now }
        requires after { IsAtomOf diagrams.old after.now }
        ensures source { IfOk result (λ v. (shorts : List Term) (actions : ℕ) → IsAllowance diagrams.old shorts actions self.now → IsAllowedAtom shorts after.now
            → IsWithin diagrams.old region self.now.allowed → IsAllowedSource diagrams.old shorts region act after.now v.items) }
        ensures kept { KeepsFunctions diagrams.old diagrams.new }
    {
        let sources = self.actions[act].sources(diagrams, region, after)?;
        true_atom(alloc, diagrams, sources, after)
    }
}
