//! Cases: some tests are decided, and the guards do not depend on them.
ghost use Rattle.std.specs.Prelude.{◌≡◌, ◌<◌, Some, IfOk, slice_set};
ghost use Rattle.test_diagrams.specs.Functions.{IsDiagramId, KeepsFunctions, IsDiagramOf, value_of};
ghost use Rattle.walk_pairs.specs.Items.{AreItems};
ghost use Rattle.walk_pairs.specs.Items.{AreEnds};
ghost use Rattle.walk_up_to.specs.Cases.{IsOpen, least_of, AreItemsWith, IsCase};

use kat_model::{NoMemory, append};
use std::alloc::Global;
use test_diagrams::{DiagramId, Diagrams};
use walk_pairs::{Ends, Item};

/// A case: the decided tests, and the items that remain.
pub(crate) struct Case {
    pub decided: Vec<Option<bool>>,
    pub items: Vec<Item>,
}

// Explicit, so that it is proved once and not at each end of each function that owns a case.
impl Drop for Case {
    fn drop(self) {
        let Case {
            decided: _decided,
            items: _items,
        } = self;
    }
}

// Returns the decided tests with an additional one.
fn with_decision(
    alloc: Global,
    decided: &[Option<bool>],
    test: usize,
    value: bool,
) -> Result<Vec<Option<bool>>, NoMemory>
    requires { IsOpen decided.now test }
    ensures { IfOk result (λ v. v.items ≡ slice_set decided.now test (Some value)) }
{
    let mut list = decided.to_vec(alloc)?;
    list[test] = Some(value);
    Ok(list)
}

// Returns the right guard with the test set. `left` is the left guard with the test set.
fn right_fixed(
    diagrams: &mut Diagrams,
    item: &Item,
    left: DiagramId,
    test: usize,
    value: bool,
) -> Result<DiagramId, NoMemory>
    requires right { IsDiagramId diagrams.old item.now.right }
    requires in_range { test < diagrams.old.tests }
    requires left { IsDiagramOf diagrams.old left (λ atom. value_of diagrams.old item.now.left (slice_set atom test value)) }
    ensures function { IfOk result (λ id. IsDiagramOf diagrams.new id (λ atom. value_of diagrams.old item.now.right (slice_set atom test value))) }
    ensures kept { KeepsFunctions diagrams.old diagrams.new }
{
    if item.left == item.right {
        return Ok(left);
    }
    diagrams.fix(item.right, test, value)
}

// Returns the items with the test set to the value, without those that are never reached then.
fn items_with(
    alloc: Global,
    diagrams: &mut Diagrams,
    ends: &Ends,
    items: &[Item],
    test: usize,
    value: bool,
) -> Result<Vec<Item>, NoMemory>
    requires ends { AreEnds diagrams.old ends.now }
    requires items { AreItems diagrams.old items.now }
    requires in_range { test < diagrams.old.tests }
    ensures items { IfOk result (λ v. AreItemsWith diagrams.old diagrams.new items.now test value v.items) }
    ensures kept { KeepsFunctions diagrams.old diagrams.new }
{
    let mut list = Vec::with_capacity(alloc, items.len())?;
    for item in items {
        let left = diagrams.fix(item.left, test, value)?;
        let right = right_fixed(diagrams, item, left, test, value)?;
        if left != ends.never || right != ends.never {
            let target = item.target;
            let fixed = Item {
                target,
                left,
                right,
            };
            append(&mut list, fixed)?;
        }
    }
    Ok(list)
}

/// Returns the case with an additional test decided.
pub(crate) fn case_with(
    alloc: Global,
    diagrams: &mut Diagrams,
    ends: &Ends,
    case: &Case,
    test: usize,
    value: bool,
) -> Result<Case, NoMemory>
    requires ends { AreEnds diagrams.old ends.now }
    requires case { IsCase diagrams.old case.now.decided.items case.now.items.items }
    requires open { IsOpen case.now.decided.items test }
    ensures case { IfOk result (λ c. IsCase diagrams.new c.decided.items c.items.items) }
    ensures decided { IfOk result (λ c. c.decided.items ≡ slice_set case.now.decided.items test (Some value)) }
    ensures items { IfOk result (λ c. AreItemsWith diagrams.old diagrams.new case.now.items.items test value c.items.items) }
    ensures kept { KeepsFunctions diagrams.old diagrams.new }
{
    let decided = with_decision(alloc, &case.decided, test, value)?;
    let items = items_with(alloc, diagrams, ends, &case.items, test, value)?;
    Ok(Case { decided, items })
}

/// Returns the least atom with the values of the decided tests.
pub(crate) fn least_atom(alloc: Global, decided: &[Option<bool>]) -> Result<Vec<bool>, NoMemory>
    ensures { IfOk result (λ v. v.items ≡ least_of decided.now) }
{
    let mut atom = Vec::new(alloc);
    for value in decided {
        atom.push(value.unwrap_or(false))?;
    }
    Ok(atom)
}

// The numbers of sure and of possible targets on both sides together, compared in this order.
#[derive(Clone, Copy)]
struct Weight {
    sure: usize,
    possible: usize,
}

impl Weight {
    // Returns the weight with a target of this guard added.
    fn with_guard(self, ends: &Ends, guard: DiagramId) -> Weight {
        if guard == ends.never {
            return self;
        }
        let sure = if guard == ends.always { 1 } else { 0 };
        Weight {
            sure: self.sure.saturating_add(sure),
            possible: self.possible.saturating_add(1),
        }
    }

    // Whether the weight is smaller than `other`.
    fn is_below(self, other: Weight) -> bool {
        self.sure < other.sure || (self.sure == other.sure && self.possible < other.possible)
    }
}

fn weight_of(ends: &Ends, items: &[Item]) -> Weight {
    let mut weight = Weight {
        sure: 0,
        possible: 0,
    };
    for item in items {
        weight = weight
            .with_guard(ends, item.left)
            .with_guard(ends, item.right);
    }
    weight
}

/// Whether `high` has smaller sets than `low`. If so, it comes first: its pairs can make larger sets congruent.
pub(crate) fn is_lighter(ends: &Ends, low: &Case, high: &Case) -> bool {
    weight_of(ends, &high.items).is_below(weight_of(ends, &low.items))
}
