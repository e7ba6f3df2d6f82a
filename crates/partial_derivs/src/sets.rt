//! Steps of a set of terms from those of its members.
ghost use Rattle.std.specs.Prelude.{[], ℕ, Bool, false, List, IfOk, OnOk};
ghost use Rattle.kat_model.specs.Trees.{Term, sum};
ghost use Rattle.kat_model.specs.Steps.{Atom};
ghost use Rattle.term_nodes.specs.NodeLists.{NodeParts};
ghost use Rattle.test_diagrams.specs.Functions.{DiagramsParts, KeepsFunctions};
ghost use Rattle.partial_derivs.specs.Moves.{IsStepsBy, IsDerivativeOf, HasIds};
ghost use Rattle.partial_derivs.specs.Working.Unions.{IsUnionBy, IsUnionOfIds, AddsSteps};

use crate::gathered::Gathered;
use crate::moves::Steps;
use kat_model::NoMemory;
use std::alloc::Global;
use test_diagrams::{DiagramId, Diagrams};

/// The atoms that the terms so far accept, and their moves.
pub(crate) struct Union {
    accepts: DiagramId,
    gathered: Gathered,
}

// Explicit, so that it is proved once and not at each end of each function that owns one.
impl Drop for Union {
    fn drop(self) {
        let Union {
            accepts: _,
            gathered: _gathered,
        } = self;
    }
}

impl Union {
    /// Creates the steps of the empty set. Allocates nothing.
    pub(crate) fn new(alloc: Global, diagrams: &Diagrams) -> Union
        ensures ids { IsUnionOfIds diagrams.now result }
        ensures none { (store : NodeParts) → IsUnionBy store diagrams.now (λ atom. false) (λ atom a. []) result }
    {
        Union {
            accepts: diagrams.constant(false),
            gathered: Gathered::new(alloc),
        }
    }

    /// Adds the steps of a term.
    pub(crate) fn add(&mut self, diagrams: &mut Diagrams, steps: &Steps) -> Result<(), NoMemory>
        requires ids { IsUnionOfIds diagrams.old self.old }
        requires steps { HasIds diagrams.old steps.now }
        ensures ids { OnOk result (IsUnionOfIds diagrams.new self.new) }
        ensures added { OnOk result (AddsSteps diagrams.old diagrams.new self.old self.new steps.now) }
        ensures kept { KeepsFunctions diagrams.old diagrams.new }
    {
        let always = diagrams.constant(true);
        self.gathered.add_under(diagrams, &steps.moves, always)?;
        self.accepts = diagrams.or(self.accepts, steps.accepts)?;
        Ok(())
    }

    /// Returns the steps of the terms so far.
    pub(crate) fn steps(&self, alloc: Global) -> Result<Steps, NoMemory>
        ensures { IfOk result (λ s. (store : NodeParts) (d : DiagramsParts) (accepted : Atom → Bool) (left : Atom → ℕ → List Term)
            → IsUnionBy store d accepted left self.now → IsStepsBy store d accepted left s) }
    {
        let moves = self.gathered.moves(alloc)?;
        Ok(Steps {
            accepts: self.accepts,
            moves,
        })
    }
}

/// Returns the steps of a sum.
pub(crate) fn sum_steps(
    alloc: Global,
    diagrams: &mut Diagrams,
    first: &Steps,
    second: &Steps,
) -> Result<Steps, NoMemory>
    requires first { HasIds diagrams.old first.now }
    requires second { HasIds diagrams.old second.now }
    ensures sum { IfOk result (λ s. (store : NodeParts) (e f : Term)
        → IsDerivativeOf store diagrams.old e first.now → IsDerivativeOf store diagrams.old f second.now
        → IsDerivativeOf store diagrams.new (sum e f) s) }
    ensures kept { KeepsFunctions diagrams.old diagrams.new }
{
    let mut whole = Union::new(alloc, diagrams);
    whole.add(diagrams, first)?;
    whole.add(diagrams, second)?;
    whole.steps(alloc)
}
