//! Checks whether the sets that a step leads to are congruent by what the decided tests determine.
ghost use Rattle.std.specs.Prelude.{◌≡◌, ◌&&◌, IfOk, OnOk};
ghost use Rattle.walk_pairs.specs.Items.{targets_under, is_open as is_open', open_targets as open_targets'};
ghost use Rattle.walk_up_to.specs.Covers.{covers_on, covers};
ghost use Rattle.walk_up_to.specs.Marks.{with_marks};

use crate::listed::ListedPairs;
use crate::mark_set::MarkSet;
use crate::saturation::reaches;
use kat_model::NoMemory;
use std::alloc::Global;
use term_store::TermId;
use walk_pairs::{Ends, Item, Side, guard_across, guard_on};

/// Returns the targets that are surely in the side's set, in ascending order.
pub(crate) fn sure_targets(
    alloc: Global,
    ends: &Ends,
    items: &[Item],
    side: Side,
) -> Result<Vec<TermId>, NoMemory>
    ensures { IfOk result (λ v. v.items ≡ targets_under ends.now.always side items.now) }
{
    let mut targets = Vec::with_capacity(alloc, items.len())?;
    for item in items {
        if guard_on(item, side) == ends.always {
            targets.push(item.target)?;
        }
    }
    Ok(targets)
}

// Whether the target may be in the side's set at an atom at which it is not in the other set.
fn is_open(ends: &Ends, item: &Item, side: Side) -> bool
    ensures { result ≡ is_open' ends.now.never ends.now.always side item.now }
{
    item.left != item.right
        && guard_on(item, side) != ends.never
        && guard_across(item, side) != ends.always
}

// Returns the targets that may be in the side's set at an atom at which they are not in the other set.
fn open_targets(
    alloc: Global,
    ends: &Ends,
    items: &[Item],
    side: Side,
) -> Result<Vec<TermId>, NoMemory>
    ensures { IfOk result (λ v. v.items ≡ open_targets' ends.now.never ends.now.always side items.now) }
{
    let mut targets = Vec::new(alloc);
    for item in items {
        if is_open(ends, item, side) {
            targets.push(item.target)?;
        }
    }
    Ok(targets)
}

// Marks the targets that are surely in the side's set.
fn mark_sure(marked: &mut MarkSet, ends: &Ends, items: &[Item], side: Side) -> Result<(), NoMemory>
    ensures { OnOk result (marked.new.marks ≡ with_marks marked.old.marks (targets_under ends.now.always side items.now)) }
{
    for item in items {
        if guard_on(item, side) == ends.always {
            marked.mark(item.target)?;
        }
    }
    Ok(())
}

// Whether the other side's sure targets reach all targets that may be only in this side's set.
fn is_covered_on(
    alloc: Global,
    marked: &mut MarkSet,
    listed: &ListedPairs,
    ends: &Ends,
    items: &[Item],
    side: Side,
    other: Side,
) -> Result<bool, NoMemory>
    ensures { IfOk result (λ b. b ≡ covers_on listed.now ends.now items.now side other) }
{
    let open = open_targets(alloc, ends, items, side)?;
    if open.is_empty() {
        return Ok(true);
    }
    marked.reset(listed.count())?;
    mark_sure(marked, ends, items, other)?;
    marked.count_uses()?;
    reaches(marked, listed, &open)
}

/// Whether the sure targets of each side reach all targets that may be only on the other side. If so, the sets are
/// congruent at each atom with the decided tests. At a leaf, at which all relevant tests are decided, this is whether
/// the sets are congruent. The universal term on one side suffices for that side: if each side reaches its targets or
/// the universal term, the saturated sets are equal or both have it.
pub(crate) fn is_covered(
    alloc: Global,
    marked: &mut MarkSet,
    listed: &ListedPairs,
    ends: &Ends,
    items: &[Item],
) -> Result<bool, NoMemory>
    ensures { IfOk result (λ b. b ≡ covers listed.now ends.now items.now) }
{
    if !is_covered_on(alloc, marked, listed, ends, items, Side::Left, Side::Right)? {
        return Ok(false);
    }
    is_covered_on(alloc, marked, listed, ends, items, Side::Right, Side::Left)
}
