//! Ids and nodes of a store, counted by hand.
ghost use Rattle.term_nodes.specs.NodeLists.{IsTerm};

use kat_model::{Kat, NoMemory};
use std::alloc::Global;
use std::test::Fail;
use term_store::{Shape, Store, TermId, TestShape};

// Whether an action that is interned twice in an empty store has one id and one node.
fn actions_are_one(store: &mut Store) -> Result<bool, NoMemory> {
    let first = store.intern(Shape::Act(0))?;
    let second = store.intern(Shape::Act(0))?;
    Ok(first == second && store.count() == 1)
}

fn sequence_of(store: &mut Store, e: TermId, f: TermId) -> Result<TermId, NoMemory>
    requires first { IsTerm store.old e }
    requires second { IsTerm store.old f }
{
    store.intern(Shape::Seq(e, f))
}

fn sequence(store: &mut Store, first: usize, second: usize) -> Result<TermId, NoMemory> {
    let e = store.intern(Shape::Act(first))?;
    let f = store.intern(Shape::Act(second))?;
    sequence_of(store, e, f)
}

// Whether the sequences of two actions in both orders have different ids, the older one smaller, and the store has four
// nodes, two of them the actions.
fn orders_are_two(store: &mut Store) -> Result<bool, NoMemory> {
    let forth = sequence(store, 0, 1)?;
    let back = sequence(store, 1, 0)?;
    Ok(forth < back && store.count() == 4)
}

// Whether the product of 1 and an action is the action.
fn one_is_left_out(store: &mut Store) -> Result<bool, NoMemory> {
    let one = store.intern(Shape::One)?;
    let f = store.intern(Shape::Act(1))?;
    Ok(store.dot(one, f)? == f)
}

fn product(store: &mut Store, first: usize, second: usize) -> Result<TermId, NoMemory> {
    let e = store.intern(Shape::Act(first))?;
    let f = store.intern(Shape::Act(second))?;
    store.dot(e, f)
}

// Whether the product of two actions is their sequence.
fn products_are_sequences(store: &mut Store) -> Result<bool, NoMemory> {
    Ok(product(store, 0, 1)? == sequence(store, 0, 1)?)
}

// Whether a test that is interned in a store with five terms is the sixth, and its node is returned.
fn test_is_sixth(store: &mut Store) -> Result<bool, NoMemory> {
    let prim = store.intern_test(TestShape::Prim(0))?;
    let test = store.intern(Shape::Test(prim))?;
    Ok(store.shape(test) == Shape::Test(prim) && store.count() == 6)
}

fn nodes_are_one(store: &mut Store) -> Result<bool, NoMemory> {
    Ok(
        actions_are_one(store)?
            && orders_are_two(store)?
            && one_is_left_out(store)?
            && products_are_sequences(store)?
            && test_is_sixth(store)?,
    )
}

fn nodes_are_one_in(alloc: Global) -> Result<bool, NoMemory> {
    let mut store = Store::new(alloc);
    nodes_are_one(&mut store)
}

#[test]
fn equal_nodes_have_one_id(rt: HostRuntime) -> Result<(), Fail> {
    assert!(rt; nodes_are_one_in(rt.alloc())?);
    Ok(())
}

fn id_of(store: &mut Store, tree: &Kat) -> Result<TermId, NoMemory> {
    store.of_tree(tree)
}

// Whether a tree of three nodes that is interned twice in an empty store has one id.
fn tree_is_one(store: &mut Store, tree: &Kat) -> Result<bool, NoMemory> {
    let first = id_of(store, tree)?;
    let second = id_of(store, tree)?;
    Ok(first == second && store.count() == 3)
}

fn sum_is_one(alloc: Global, store: &mut Store) -> Result<bool, NoMemory> {
    let sum = Kat::new_sum(alloc, Kat::Act(0), Kat::Act(1))?;
    tree_is_one(store, &sum)
}

fn sum_is_one_in(alloc: Global) -> Result<bool, NoMemory> {
    let mut store = Store::new(alloc);
    sum_is_one(alloc, &mut store)
}

#[test]
fn equal_trees_have_one_id(rt: HostRuntime) -> Result<(), Fail> {
    assert!(rt; sum_is_one_in(rt.alloc())?);
    Ok(())
}
