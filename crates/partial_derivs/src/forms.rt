//! The derivative of a term from the derivatives of its parts.
ghost use Rattle.std.specs.Prelude.{◌≡◌, [], IfOk, Bool, ℕ};
ghost use Rattle.kat_model.specs.Trees.{Term, test as test_term, act, product, star};
ghost use Rattle.kat_model.specs.Steps.{truth};
ghost use Rattle.kat_model.specs.Problems.{IsTestInRange};
ghost use Rattle.term_nodes.specs.NodeLists.{NodeParts, IsTest};
ghost use Rattle.term_nodes.specs.NodeTrees.{test_tree_at, tree_at};
ghost use Rattle.term_nodes.specs.Growth.{Grows};
ghost use Rattle.test_diagrams.specs.Functions.{IsDiagramOf, KeepsFunctions};
ghost use Rattle.partial_derivs.specs.Moves.{IsTermOf, AreTargets, HasIds, IsStepsBy, IsDerivativeOf, Keeps};

use crate::gathered::Gathered;
use crate::moves::{Guarded, Steps};
use kat_model::{NoMemory, Test};
use std::alloc::Global;
use term_store::{Shape, Store, TermId, TestId, TestShape};
use test_diagrams::{DiagramId, Diagrams};

// Returns the diagram of a test of the store.
fn diagram_of(store: &Store, diagrams: &mut Diagrams, test: TestId) -> Result<DiagramId, NoMemory>
    requires id { IsTest store.now test }
    requires in_range { IsTestInRange diagrams.old.tests (test_tree_at store.now test) }
    ensures function { IfOk result (λ id. IsDiagramOf diagrams.new id (truth (test_tree_at store.now test))) }
    ensures kept { KeepsFunctions diagrams.old diagrams.new }
{
    match store.test_shape(test) {
        TestShape::False => Ok(diagrams.constant(false)),
        TestShape::True => Ok(diagrams.constant(true)),
        TestShape::Prim(k) => diagrams.of_test(&Test::Prim(k)),
        TestShape::Not(b) => {
            let inner = diagram_of(store, diagrams, b)?;
            diagrams.not(inner)
        }
        TestShape::And(b, c) => {
            let left = diagram_of(store, diagrams, b)?;
            let right = diagram_of(store, diagrams, c)?;
            diagrams.and(left, right)
        }
        TestShape::Or(b, c) => {
            let left = diagram_of(store, diagrams, b)?;
            let right = diagram_of(store, diagrams, c)?;
            diagrams.or(left, right)
        }
    }
}

/// Returns steps that accept all atoms or none and have no moves: the derivative of one or zero. Allocates nothing.
pub(crate) fn constant_steps(alloc: Global, diagrams: &Diagrams, value: bool) -> Steps
    ensures { (store : NodeParts) → IsStepsBy store diagrams.now (λ atom. value) (λ atom a. []) result }
{
    Steps {
        accepts: diagrams.constant(value),
        moves: Vec::new(alloc),
    }
}

/// Returns the steps of a test.
pub(crate) fn test_steps(
    alloc: Global,
    store: &Store,
    diagrams: &mut Diagrams,
    test: TestId,
) -> Result<Steps, NoMemory>
    requires id { IsTest store.now test }
    requires in_range { IsTestInRange diagrams.old.tests (test_tree_at store.now test) }
    ensures steps { IfOk result (IsDerivativeOf store.now diagrams.new (test_term (test_tree_at store.now test))) }
    ensures kept { KeepsFunctions diagrams.old diagrams.new }
{
    let accepts = diagram_of(store, diagrams, test)?;
    Ok(Steps {
        accepts,
        moves: Vec::new(alloc),
    })
}

/// Returns the steps of an action.
pub(crate) fn action_steps(
    alloc: Global,
    store: &mut Store,
    diagrams: &Diagrams,
    action: usize,
) -> Result<Steps, NoMemory>
    ensures steps { IfOk result (IsDerivativeOf store.new diagrams.now (act action)) }
    ensures kept { Grows store.old store.new }
{
    let to = store.intern(Shape::One)?;
    let guard = diagrams.constant(true);
    let accepts = diagrams.constant(false);
    let mut moves = Vec::new(alloc);
    moves.push(Guarded {
        guard,
        act: action,
        to,
    })?;
    Ok(Steps { accepts, moves })
}

/// Returns the steps of a product with the second term `tail`: the moves of the first term, each followed by the
/// second, and the moves of the second where the first accepts.
pub(crate) fn product_steps(
    alloc: Global,
    store: &mut Store,
    diagrams: &mut Diagrams,
    first: &Steps,
    second: &Steps,
    tail: TermId,
) -> Result<Steps, NoMemory>
    requires first { HasIds diagrams.old first.now }
    requires targets { AreTargets store.old diagrams.old.tests first.now.moves.items }
    requires second { HasIds diagrams.old second.now }
    requires tail { IsTermOf store.old diagrams.old.tests tail }
    ensures steps { IfOk result (λ s. (e : Term) → IsDerivativeOf store.old diagrams.old e first.now
        → IsDerivativeOf store.old diagrams.old (tree_at store.old tail) second.now
        → IsDerivativeOf store.new diagrams.new (product e (tree_at store.old tail)) s) }
    ensures kept { Keeps store.old store.new diagrams.old diagrams.new }
{
    let mut gathered = Gathered::with_tail(alloc, store, diagrams, &first.moves, tail)?;
    gathered.add_under(diagrams, &second.moves, first.accepts)?;
    let accepts = diagrams.and(first.accepts, second.accepts)?;
    let moves = gathered.moves(alloc)?;
    Ok(Steps { accepts, moves })
}

/// Returns the steps of a star: the moves of the inner term, each followed by the star, whose id is given.
pub(crate) fn star_steps(
    alloc: Global,
    store: &mut Store,
    diagrams: &mut Diagrams,
    inner: &Steps,
    own: TermId,
) -> Result<Steps, NoMemory>
    requires inner { HasIds diagrams.old inner.now }
    requires targets { AreTargets store.old diagrams.old.tests inner.now.moves.items }
    requires own { IsTermOf store.old diagrams.old.tests own }
    ensures steps { IfOk result (λ s. (e : Term) → IsDerivativeOf store.old diagrams.old e inner.now
        → tree_at store.old own ≡ star e → IsDerivativeOf store.new diagrams.new (star e) s) }
    ensures kept { Keeps store.old store.new diagrams.old diagrams.new }
{
    let gathered = Gathered::with_tail(alloc, store, diagrams, &inner.moves, own)?;
    let moves = gathered.moves(alloc)?;
    Ok(Steps {
        accepts: diagrams.constant(true),
        moves,
    })
}
