//! Steps of a set of terms, computed by hand.
ghost use Rattle.std.specs.Prelude.{◌≡◌, All, IfOk};
ghost use Rattle.partial_derivs.specs.Moves.{IsTermOf};

use kat_model::NoMemory;
use partial_derivs::{Guarded, Steps, step};
use std::alloc::Global;
use std::test::Fail;
use term_store::{Shape, Store, TermId, TestShape};
use test_diagrams::Diagrams;

// Returns an action with a test before it, and the action without it.
fn guarded_and_free(store: &mut Store) -> Result<[TermId; 2], NoMemory>
    ensures { IfOk result (All (IsTermOf store.new 1)) }
{
    let first = store.intern_test(TestShape::Prim(0))?;
    let test = store.intern(Shape::Test(first))?;
    let action = store.intern(Shape::Act(0))?;
    let guarded = store.intern(Shape::Seq(test, action))?;
    Ok([guarded, action])
}

// Whether there is exactly one move, by action 0 to `to` at each atom, and no atom is accepted.
fn has_one_move(diagrams: &Diagrams, steps: &Steps, to: TermId) -> bool {
    let guard = diagrams.constant(true);
    let only = [Guarded { guard, act: 0, to }];
    steps.accepts == diagrams.constant(false) && steps.moves.as_slice() == only.as_slice()
}

fn moves_are_joined(
    alloc: Global,
    store: &mut Store,
    diagrams: &mut Diagrams,
) -> Result<bool, NoMemory>
    requires { diagrams.old.tests ≡ 1 }
{
    let to = store.intern(Shape::One)?;
    let terms = guarded_and_free(store)?;
    let steps = step(alloc, store, diagrams, &terms)?;
    Ok(has_one_move(diagrams, &steps, to))
}

// Runs the check in a new store.
fn moves_are_joined_in(alloc: Global, diagrams: &mut Diagrams) -> Result<bool, NoMemory>
    requires { diagrams.old.tests ≡ 1 }
{
    let mut store = Store::new(alloc);
    moves_are_joined(alloc, &mut store, diagrams)
}

fn are_joined(alloc: Global) -> Result<bool, NoMemory> {
    let mut diagrams = Diagrams::new(alloc, 1)?;
    moves_are_joined_in(alloc, &mut diagrams)
}

#[test]
fn moves_to_one_term_are_joined(rt: HostRuntime) -> Result<(), Fail> {
    assert!(rt; are_joined(rt.alloc())?);
    Ok(())
}
