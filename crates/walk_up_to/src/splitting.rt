//! Selects the test to decide next.
ghost use Rattle.std.specs.Prelude.{MatchOption, IfSome};
ghost use Rattle.test_diagrams.specs.Functions.{IsDiagramId};
ghost use Rattle.walk_pairs.specs.Items.{AreItems};
ghost use Rattle.walk_up_to.specs.Cases.{HasNextTest, IsNextTest, AreConstant, IsConstantItem};

use term_store::TermId;
use test_diagrams::Diagrams;
use walk_pairs::Item;

// Returns a test on which a guard of the item depends: the least of the left guard, or else the least of the right one.
fn test_of(diagrams: &Diagrams, item: &Item) -> Option<usize>
    requires left { IsDiagramId diagrams.now item.now.left }
    requires right { IsDiagramId diagrams.now item.now.right }
    ensures { MatchOption result (IsConstantItem diagrams.now item.now) (HasNextTest diagrams.now item.now) }
{
    match diagrams.top(item.left) {
        Some(test) => Some(test),
        None => diagrams.top(item.right),
    }
}

// Returns a test on which a guard of the universal term depends, if there is one.
fn universal_test(universal: Option<TermId>, diagrams: &Diagrams, items: &[Item]) -> Option<usize>
    requires { AreItems diagrams.now items.now }
    ensures { IfSome result (IsNextTest diagrams.now items.now) }
{
    let term = universal?;
    for item in items {
        if item.target == term {
            return test_of(diagrams, item);
        }
    }
    None
}

// Returns a test on which a guard depends of an item with different guards on the two sides.
fn difference_test(diagrams: &Diagrams, items: &[Item]) -> Option<usize>
    requires { AreItems diagrams.now items.now }
    ensures { IfSome result (IsNextTest diagrams.now items.now) }
{
    for item in items {
        if item.left != item.right {
            if let Some(test) = test_of(diagrams, item) {
                return Some(test);
            }
        }
    }
    None
}

// Returns a test on which some guard depends, if there is one.
fn any_test(diagrams: &Diagrams, items: &[Item]) -> Option<usize>
    requires { AreItems diagrams.now items.now }
    ensures { MatchOption result (AreConstant diagrams.now items.now) (IsNextTest diagrams.now items.now) }
{
    for item in items {
        if let Some(test) = test_of(diagrams, item) {
            return Some(test);
        }
    }
    None
}

/// Returns the test to decide next, if some guard depends on one: first a test of the guards of the universal term,
/// then a test of guards in which the sides differ, then any test. Any choice is correct; this order keeps the number
/// of cases small.
pub(crate) fn next_test(
    universal: Option<TermId>,
    diagrams: &Diagrams,
    items: &[Item],
) -> Option<usize>
    requires { AreItems diagrams.now items.now }
    ensures { MatchOption result (AreConstant diagrams.now items.now) (IsNextTest diagrams.now items.now) }
{
    if let Some(test) = universal_test(universal, diagrams, items) {
        return Some(test);
    }
    if let Some(test) = difference_test(diagrams, items) {
        return Some(test);
    }
    any_test(diagrams, items)
}
