//! The bars of an action, from the moves of the short hypotheses.
ghost use Rattle.std.specs.Prelude.{◌≡◌, ◌==◌, ◌<◌, ◌∷◌, [], ℕ, List, filter, length, IfOk, OnOk};
ghost use Rattle.kat_model.specs.Members.{Has, SameMembers};
ghost use Rattle.kat_model.specs.Steps.{set_out};
ghost use Rattle.term_nodes.specs.NodeTrees.{tree_at};
ghost use Rattle.test_diagrams.specs.Functions.{IsDiagramId, IsDiagramOf, KeepsFunctions};
ghost use Rattle.partial_derivs.specs.Moves.{IsTermOf, AreGuards, AreTargets, Keeps};
ghost use Rattle.partial_derivs.specs.Tables.{AreRight};
ghost use Rattle.partial_derivs.specs.declared.moves.Guarded.{Guarded as Guarded'};
ghost use Rattle.walk_regions.specs.Bars.{AreSoundBars};
ghost use Rattle.walk_regions.specs.Working.Querying.{IsUnaskedTest, Poses, AreFreshTests, IsBarOf, AreBarsOf};

use crate::bars::{Bar, Bars, depends_on};
use kat_model::{NoMemory, append};
use partial_derivs::{Derivatives, Guarded};
use std::alloc::Global;
use term_store::{Store, TermId};
use test_diagrams::{DiagramId, Diagrams};

// Returns whether the diagram `id` is the first to depend on `test`. If it is, sets the flag of `test` in `queried`.
fn queries_first(
    diagrams: &mut Diagrams,
    id: DiagramId,
    queried: &mut [bool],
    test: usize,
) -> Result<bool, NoMemory>
    requires id { IsDiagramId diagrams.old id }
    requires test { test < length queried.old }
    requires tests { length queried.old ≡ diagrams.old.tests }
    ensures queries { IfOk result (Poses diagrams.new id queried.old queried.new test) }
    ensures kept { KeepsFunctions diagrams.old diagrams.new }
{
    if queried[test] {
        return Ok(false);
    }
    let queries = depends_on(diagrams, id, test)?;
    if queries {
        queried[test] = true;
    }
    Ok(queries)
}

// Returns the tests that the diagram `id` is the first to depend on, and sets their flags in `queried`.
fn fresh_tests(
    alloc: Global,
    diagrams: &mut Diagrams,
    id: DiagramId,
    queried: &mut [bool],
) -> Result<Vec<usize>, NoMemory>
    requires id { IsDiagramId diagrams.old id }
    requires tests { length queried.old ≡ diagrams.old.tests }
    ensures fresh { IfOk result (λ v. AreFreshTests diagrams.new id queried.old queried.new (length queried.old) v.items) }
    ensures kept { KeepsFunctions diagrams.old diagrams.new }
{
    let mut fresh = Vec::new(alloc);
    for test in 0..queried.len() {
        if queries_first(diagrams, id, queried, test)? {
            fresh.push(test)?;
        }
    }
    Ok(fresh)
}

// Returns the atoms that the term accepts.
fn accepted_by(
    alloc: Global,
    store: &mut Store,
    diagrams: &mut Diagrams,
    derivatives: &mut Derivatives,
    term: TermId,
) -> Result<DiagramId, NoMemory>
    requires term { IsTermOf store.old diagrams.old.tests term }
    requires right { AreRight store.old diagrams.old derivatives.old }
    ensures accepted { IfOk result (λ id. IsDiagramOf diagrams.new id (set_out (tree_at store.old term ∷ []))) }
    ensures right { AreRight store.new diagrams.new derivatives.new }
    ensures kept { Keeps store.old store.new diagrams.old diagrams.new }
{
    let terms = [term];
    let steps = derivatives.step(alloc, store, diagrams, &terms)?;
    Ok(steps.accepts)
}

// Returns the bar of a move of a short hypothesis: the atoms from which the move starts, and the atoms that its target
// accepts, to which no move may lead.
fn bar_of(
    alloc: Global,
    store: &mut Store,
    diagrams: &mut Diagrams,
    derivatives: &mut Derivatives,
    guarded: &Guarded,
    queried: &mut [bool],
) -> Result<Bar, NoMemory>
    requires guard { IsDiagramId diagrams.old guarded.now.guard }
    requires to { IsTermOf store.old diagrams.old.tests guarded.now.to }
    requires right { AreRight store.old diagrams.old derivatives.old }
    requires tests { length queried.old ≡ diagrams.old.tests }
    ensures bar { IfOk result (IsBarOf store.new diagrams.new guarded.now) }
    ensures fresh { IfOk result (λ b. AreFreshTests diagrams.new b.from queried.old queried.new (length queried.old) b.fresh.items) }
    ensures right { AreRight store.new diagrams.new derivatives.new }
    ensures kept { Keeps store.old store.new diagrams.old diagrams.new }
{
    let to = accepted_by(alloc, store, diagrams, derivatives, guarded.to)?;
    let fresh = fresh_tests(alloc, diagrams, guarded.guard, queried)?;
    Ok(Bar {
        from: guarded.guard,
        to,
        fresh,
    })
}

// Returns the tests without a flag in `queried`.
fn unasked_tests(alloc: Global, queried: &[bool]) -> Result<Vec<usize>, NoMemory>
    ensures { IfOk result (λ v. (t : ℕ) → Has v.items t → IsUnaskedTest queried.now t) }
{
    let mut unasked = Vec::new(alloc);
    for (test, was_queried) in queried.iter().enumerate() {
        if !*was_queried {
            unasked.push(test)?;
        }
    }
    Ok(unasked)
}

// Returns the moves by `act`.
fn moves_by(alloc: Global, moves: &[Guarded], act: usize) -> Result<Vec<Guarded>, NoMemory>
    ensures { IfOk result (λ v. v.items ≡ filter (λ m. m.act == act) moves.now) }
{
    let mut own = Vec::new(alloc);
    for guarded in moves {
        if guarded.act == act {
            append(&mut own, *guarded)?;
        }
    }
    Ok(own)
}

// Returns the bars of the moves, in their order, and sets the flags of the tests on which one depends in `queried`.
fn collected_bars(
    alloc: Global,
    store: &mut Store,
    diagrams: &mut Diagrams,
    derivatives: &mut Derivatives,
    moves: &[Guarded],
    queried: &mut [bool],
) -> Result<Bars, NoMemory>
    requires guards { AreGuards diagrams.old moves.now }
    requires targets { AreTargets store.old diagrams.old.tests moves.now }
    requires right { AreRight store.old diagrams.old derivatives.old }
    requires tests { length queried.old ≡ diagrams.old.tests }
    ensures bars { IfOk result (λ b. (all : List Guarded') (act : ℕ) → SameMembers moves.now (filter (λ m. m.act == act) all) → AreBarsOf store.new diagrams.new all act b.bars.items) }
    ensures sound { IfOk result (AreSoundBars diagrams.new) }
    ensures right { AreRight store.new diagrams.new derivatives.new }
    ensures kept { Keeps store.old store.new diagrams.old diagrams.new }
{
    let mut bars = Vec::new(alloc);
    for guarded in moves {
        let bar = bar_of(alloc, store, diagrams, derivatives, guarded, queried)?;
        append(&mut bars, bar)?;
    }
    let unasked = unasked_tests(alloc, queried)?;
    Ok(Bars::new(alloc, bars, unasked))
}

/// Returns the bars of `act`, one for each move of the short hypotheses by it. Fails only when out of memory; on
/// failure, extra nodes, diagrams and derivatives may remain.
pub(crate) fn bars_of(
    alloc: Global,
    store: &mut Store,
    diagrams: &mut Diagrams,
    derivatives: &mut Derivatives,
    moves: &[Guarded],
    act: usize,
) -> Result<Bars, NoMemory>
    requires guards { AreGuards diagrams.old moves.now }
    requires targets { AreTargets store.old diagrams.old.tests moves.now }
    requires right { AreRight store.old diagrams.old derivatives.old }
    ensures bars { IfOk result (λ b. AreBarsOf store.new diagrams.new moves.now act b.bars.items) }
    ensures sound { IfOk result (AreSoundBars diagrams.new) }
    ensures right { AreRight store.new diagrams.new derivatives.new }
    ensures kept { Keeps store.old store.new diagrams.old diagrams.new }
{
    let mut own = moves_by(alloc, moves, act)?;
    // `image_under` processes the last bar first. Hypotheses are mostly in the order of the tests on which they depend,
    // so the last bars now depend on the topmost tests of diagrams. In the other order each split of a region descended
    // through all earlier tests: the images on `frameless` at 46 took four times as many instructions.
    own.reverse();
    let mut queried = vec![in alloc; false; diagrams.tests()]?;
    collected_bars(
        alloc,
        store,
        diagrams,
        derivatives,
        &own,
        queried.as_mut_slice(),
    )
}
