//! Moves under guards.
ghost use Rattle.std.specs.Prelude.{◌≡◌, IfOk};

use kat_model::NoMemory;
use std::alloc::Global;
use term_store::TermId;
use test_diagrams::DiagramId;

/// A move: at each atom at which the guard is true, the action can lead to the term.
#[derive(Clone, Copy, PartialEq, Eq)]
pub struct Guarded {
    /// The atoms at which the move applies, as a diagram.
    pub guard: DiagramId,
    /// The action, numbered from 0.
    pub act: usize,
    /// The remaining term, an id of the store.
    pub to: TermId,
}

/// A symbolic derivative: the accepted atoms as a diagram, and the moves.
#[derive(Drop)]
pub struct Steps {
    /// The accepted atoms.
    pub accepts: DiagramId,
    /// The moves, at most one for each action and target.
    pub moves: Vec<Guarded>,
}

impl Steps {
    // Returns a copy.
    pub(crate) fn copy(&self, alloc: Global) -> Result<Steps, NoMemory>
        ensures accepts { IfOk result (λ s. s.accepts ≡ self.now.accepts) }
        ensures moves { IfOk result (λ s. s.moves.items ≡ self.now.moves.items) }
    {
        let moves = self.moves.iter().copied().collect(alloc)?;
        Ok(Steps {
            accepts: self.accepts,
            moves,
        })
    }
}
