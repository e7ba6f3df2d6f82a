//! The possible results of a step of a pair by one action: the targets on both sides, with their guards.
ghost use Rattle.std.specs.Prelude.{◌≡◌, IfOk, OnOk};
ghost use Rattle.std.specs.Ordering.{nat_cmp};
ghost use Rattle.std.specs.BTreeMap.{IsOrdered};
ghost use Rattle.partial_derivs.specs.Moves.{AreGuards, AreMerged};
ghost use Rattle.test_diagrams.specs.Reduced.{IsReduced};
ghost use Rattle.walk_pairs.specs.Items.{guard_of, guard_beyond, with_guard as with_guard', opposite_of, item_in, AddsMoves, AddsTargets, AreKeyed, items_in, AreItemsOf, AreLedTo};
ghost use Rattle.walk_pairs.specs.Items.{AreEnds};

use kat_model::{NoMemory, append};
use partial_derivs::Guarded;
use std::alloc::Global;
use std::collections::BTreeMap;
use term_store::TermId;
use test_diagrams::{DiagramId, Diagrams};

/// A target term, and the atoms at which the step leads to it on the left and on the right.
#[derive(Clone, Copy)]
pub struct Item {
    pub target: TermId,
    pub left: DiagramId,
    pub right: DiagramId,
}

/// One side of a pair.
#[derive(Clone, Copy)]
pub enum Side {
    Left,
    Right,
}

/// The diagrams of the two constants.
#[derive(Clone, Copy)]
pub struct Ends {
    pub never: DiagramId,
    pub always: DiagramId,
}

/// Returns the diagrams of the two constants.
pub fn ends_of(diagrams: &Diagrams) -> Ends
    ensures ends { AreEnds diagrams.now result }
    ensures reduced { IsReduced diagrams.now }
{
    Ends {
        never: diagrams.constant(false),
        always: diagrams.constant(true),
    }
}

/// Returns the guard of the item on this side.
pub fn guard_on(item: &Item, side: Side) -> DiagramId
    ensures { result ≡ guard_of side item.now }
{
    match side {
        Side::Left => item.left,
        Side::Right => item.right,
    }
}

/// Returns the guard of the item on the opposite side.
pub fn guard_across(item: &Item, side: Side) -> DiagramId
    ensures { result ≡ guard_beyond side item.now }
{
    match side {
        Side::Left => item.right,
        Side::Right => item.left,
    }
}

// Items by their targets.
type ByTarget = BTreeMap<TermId, Item>;

// Returns the item of the target, or one with the guards `never` if the table has none.
fn item_at(items: &ByTarget, target: TermId, never: DiagramId) -> Item
    ensures { result ≡ item_in never items.now.entries target }
{
    match items.get(&target) {
        Some(item) => *item,
        None => Item {
            target,
            left: never,
            right: never,
        },
    }
}

// Returns the item with another guard on this side.
fn with_guard(item: Item, side: Side, guard: DiagramId) -> Item
    ensures { result ≡ with_guard' side item guard }
{
    match side {
        Side::Left => Item {
            left: guard,
            ..item
        },
        Side::Right => Item {
            right: guard,
            ..item
        },
    }
}

// Adds the moves by the action to this side.
fn add_moves(
    items: &mut ByTarget,
    moves: &[Guarded],
    act: usize,
    never: DiagramId,
    side: Side,
) -> Result<(), NoMemory>
    requires keyed { AreKeyed items.old.entries }
    ensures added { OnOk result (AddsMoves never side (opposite_of side) items.old.entries items.new.entries moves.now act) }
    ensures targets { OnOk result (AddsTargets items.old.entries items.new.entries moves.now) }
    ensures keyed { OnOk result (AreKeyed items.new.entries) }
{
    for guarded in moves {
        if guarded.act == act {
            let item = item_at(items, guarded.to, never);
            items.insert(guarded.to, with_guard(item, side, guarded.guard))?;
        }
    }
    Ok(())
}

// Returns the items in ascending order of their targets.
fn item_list(alloc: Global, items: &ByTarget) -> Result<Vec<Item>, NoMemory>
    ensures items { IfOk result (λ v. v.items ≡ items_in items.now.entries) }
    ensures ordered { IsOrdered nat_cmp items.now }
{
    let mut list = Vec::new(alloc);
    for (_, item) in items.iter() {
        append(&mut list, *item)?;
    }
    Ok(list)
}

/// Returns the items of the action, in ascending order of their targets.
pub fn items_of(
    alloc: Global,
    diagrams: &Diagrams,
    left: &[Guarded],
    right: &[Guarded],
    act: usize,
) -> Result<Vec<Item>, NoMemory>
    requires left { AreGuards diagrams.now left.now }
    requires right { AreGuards diagrams.now right.now }
    requires left_merged { AreMerged left.now }
    requires right_merged { AreMerged right.now }
    ensures items { IfOk result (λ v. AreItemsOf diagrams.now left.now right.now act v.items) }
    ensures targets { IfOk result (λ v. AreLedTo left.now right.now v.items) }
{
    let never = diagrams.constant(false);
    let mut items = BTreeMap::new(alloc);
    add_moves(&mut items, left, act, never, Side::Left)?;
    add_moves(&mut items, right, act, never, Side::Right)?;
    item_list(alloc, &items)
}
