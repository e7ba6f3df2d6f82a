//! Lists the pairs of sets that a step of a listed pair by one action leads to, unless they are congruent already.
ghost use Rattle.std.specs.Prelude.{◌≡◌, ◌++◌, ◌∷◌, [], Some, None, Err, length, replicate, IsSome, OnOk};
ghost use Rattle.test_diagrams.specs.Functions.{KeepsFunctions};
ghost use Rattle.walk_pairs.specs.Items.{AreItems, targets_under};
ghost use Rattle.walk_up_to.specs.Cases.{IsCase, IsOpen, AreConstant, least_of, open_count};
ghost use Rattle.walk_up_to.specs.Working.IdWalks.{Visits, VisitsInTurn, PassesLimit, PassesInTurn};
ghost use Rattle.walk_up_to.specs.declared.stop.EarlyStop.TheVariants.{PairLimit, CostLimit};
ghost use Rattle.walk_pairs.specs.declared.items.Side.TheVariants.{Left as OnLeft, Right as OnRight};

use crate::cases::{Case, case_with, is_lighter, least_atom};
use crate::cover::{is_covered, sure_targets};
use crate::listed::ListedPairs;
use crate::mark_set::MarkSet;
use crate::pair::{ListedPair, StepOrigin};
use crate::splitting::next_test;
use crate::stop::EarlyStop;
use kat_model::{Items, NoMemory};
use std::alloc::Global;
use test_diagrams::Diagrams;
use walk_pairs::{Ends, Item, Side, ends_of};

/// The steps from the listed pair at `place` by the action `act`.
#[derive(Clone, Copy)]
pub(crate) struct StepSource {
    pub place: usize,
    pub act: usize,
}

// The number of targets that are surely on the left and on the right, and the number of items on which the sides
// differ. If a split leaves these numbers unchanged, `visit` does not repeat the check for a cover.
#[derive(Clone, Copy)]
struct DecidedCounts {
    left: usize,
    right: usize,
    open: usize,
}

// Returns the count, incremented if the item counts.
fn count_if(count: usize, counts: bool) -> usize {
    if counts {
        count.saturating_add(1)
    } else {
        count
    }
}

fn counts_of(ends: &Ends, items: &[Item]) -> DecidedCounts {
    let mut counts = DecidedCounts {
        left: 0,
        right: 0,
        open: 0,
    };
    for item in items {
        counts = DecidedCounts {
            left: count_if(counts.left, item.left == ends.always),
            right: count_if(counts.right, item.right == ends.always),
            open: count_if(counts.open, item.left != item.right),
        };
    }
    counts
}

// Whether there is no case before, or its numbers differ.
fn have_changed(before: Option<DecidedCounts>, counts: DecidedCounts) -> bool {
    match before {
        Some(before) => {
            before.left != counts.left || before.right != counts.right || before.open != counts.open
        }
        None => true,
    }
}

// Lists the pair of a case in which no guard depends on a test.
fn list_case(
    alloc: Global,
    marked: &MarkSet,
    listed: &mut ListedPairs,
    ends: &Ends,
    source: &StepSource,
    case: &Case,
) -> Result<(), NoMemory>
    ensures pairs { OnOk result (listed.new.pairs ≡ listed.old.pairs ++ record {
      left = targets_under ends.now.always OnLeft case.now.items.items;
      right = targets_under ends.now.always OnRight case.now.items.items;
      origin = Some (record { place = source.now.place; atom = least_of case.now.decided.items; act = source.now.act });
    } ∷ []) }
    ensures universal { listed.new.universal ≡ listed.old.universal }
    ensures count { listed.new.count ≡ listed.old.count }
    ensures limit { listed.new.limit ≡ listed.old.limit }
{
    let left = sure_targets(alloc, ends, &case.items, Side::Left)?;
    let right = sure_targets(alloc, ends, &case.items, Side::Right)?;
    let atom = least_atom(alloc, &case.decided)?;
    let origin = StepOrigin {
        place: source.place,
        atom: Items::of(atom),
        act: source.act,
    };
    listed.list(
        alloc,
        marked.uses(),
        ListedPair {
            left: Items::of(left),
            right: Items::of(right),
            origin: Some(origin),
        },
    )
}

// Lists the pair of a case in which no guard depends on a test, unless its sets are congruent. Fails with
// `EarlyStop::PairLimit` if the pair must be listed and the limit is reached.
fn visit_leaf(
    alloc: Global,
    marked: &mut MarkSet,
    listed: &mut ListedPairs,
    diagrams: &Diagrams,
    source: &StepSource,
    case: &Case,
) -> Result<(), EarlyStop>
    requires case { IsCase diagrams.now case.now.decided.items case.now.items.items }
    requires constant { AreConstant diagrams.now case.now.items.items }
    ensures visited { OnOk result (Visits diagrams.now source.now case.now.decided.items case.now.items.items listed.old listed.new) }
    ensures full { result ≡ Err PairLimit → PassesLimit diagrams.now source.now case.now.decided.items case.now.items.items listed.old }
    ensures limited { result ≡ Err CostLimit → IsSome listed.old.limit }
    ensures limit { listed.new.limit ≡ listed.old.limit }
{
    let ends = ends_of(diagrams);
    if is_covered(alloc, marked, listed, &ends, &case.items)? {
        return Ok(());
    }
    if listed.is_full() {
        return Err(EarlyStop::PairLimit);
    }
    list_case(alloc, marked, listed, &ends, source, case)?;
    Ok(())
}

// Lists pairs until the sets of the step are congruent at each atom of the case. A listed pair can cover later cases.
// Checks for a cover if the case knows more than the case before, also while an open item waits for a test. On
// `frames`, `nest` and `ring` the latter always fails (two thirds of all checks on `frames` at 8), but without it open
// items that earlier pairs give, each under its own test, would make a case for each subset of these tests.
#[cycle(visit)]
fn visit(
    alloc: Global,
    marked: &mut MarkSet,
    listed: &mut ListedPairs,
    diagrams: &mut Diagrams,
    source: &StepSource,
    case: &Case,
    before: Option<DecidedCounts>,
) -> Result<(), EarlyStop>
    requires case { IsCase diagrams.old case.now.decided.items case.now.items.items }
    ensures visited { OnOk result (Visits diagrams.old source.now case.now.decided.items case.now.items.items listed.old listed.new) }
    ensures full { result ≡ Err PairLimit → PassesLimit diagrams.old source.now case.now.decided.items case.now.items.items listed.old }
    ensures limited { result ≡ Err CostLimit → IsSome listed.old.limit }
    ensures limit { listed.new.limit ≡ listed.old.limit }
    ensures kept { KeepsFunctions diagrams.old diagrams.new }
{
    let Some(test) = next_test(listed.universal(), diagrams, &case.items) else {
        return visit_leaf(alloc, marked, listed, diagrams, source, case);
    };
    marked.count_case(listed.limit())?;
    let ends = ends_of(diagrams);
    let counts = counts_of(&ends, &case.items);
    if have_changed(before, counts) {
        if is_covered(alloc, marked, listed, &ends, &case.items)? {
            return Ok(());
        }
    }
    visit_split(alloc, marked, listed, diagrams, source, case, test, counts)
}

// Visits both parts of a case that is split by a test.
#[cycle(visit)]
fn visit_split(
    alloc: Global,
    marked: &mut MarkSet,
    listed: &mut ListedPairs,
    diagrams: &mut Diagrams,
    source: &StepSource,
    case: &Case,
    test: usize,
    counts: DecidedCounts,
) -> Result<(), EarlyStop>
    requires case { IsCase diagrams.old case.now.decided.items case.now.items.items }
    requires open { IsOpen case.now.decided.items test }
    ensures visited { OnOk result (Visits diagrams.old source.now case.now.decided.items case.now.items.items listed.old listed.new) }
    ensures full { result ≡ Err PairLimit → PassesLimit diagrams.old source.now case.now.decided.items case.now.items.items listed.old }
    ensures limited { result ≡ Err CostLimit → IsSome listed.old.limit }
    ensures limit { listed.new.limit ≡ listed.old.limit }
    ensures kept { KeepsFunctions diagrams.old diagrams.new }
{
    let ends = ends_of(diagrams);
    let low = case_with(alloc, diagrams, &ends, case, test, false)?;
    let high = case_with(alloc, diagrams, &ends, case, test, true)?;
    if is_lighter(&ends, &low, &high) {
        return visit_both(alloc, marked, listed, diagrams, source, &high, &low, counts);
    }
    visit_both(alloc, marked, listed, diagrams, source, &low, &high, counts)
}

// Visits two cases, one after the other. They have equally many undecided tests.
#[cycle(visit)]
fn visit_both(
    alloc: Global,
    marked: &mut MarkSet,
    listed: &mut ListedPairs,
    diagrams: &mut Diagrams,
    source: &StepSource,
    first: &Case,
    second: &Case,
    counts: DecidedCounts,
) -> Result<(), EarlyStop>
    requires first { IsCase diagrams.old first.now.decided.items first.now.items.items }
    requires second { IsCase diagrams.old second.now.decided.items second.now.items.items }
    requires open { open_count second.now.decided.items ≡ open_count first.now.decided.items }
    ensures visited { OnOk result (VisitsInTurn diagrams.old source.now first.now.decided.items first.now.items.items second.now.decided.items second.now.items.items listed.old listed.new) }
    ensures full { result ≡ Err PairLimit → PassesInTurn diagrams.old source.now first.now.decided.items first.now.items.items second.now.decided.items second.now.items.items listed.old }
    ensures limited { result ≡ Err CostLimit → IsSome listed.old.limit }
    ensures limit { listed.new.limit ≡ listed.old.limit }
    ensures kept { KeepsFunctions diagrams.old diagrams.new }
{
    visit(alloc, marked, listed, diagrams, source, first, Some(counts))?;
    visit(
        alloc,
        marked,
        listed,
        diagrams,
        source,
        second,
        Some(counts),
    )
}

/// Lists pairs until, at each atom, the sets to which the step leads are congruent under the listed pairs. Each pair
/// that is listed consists of two such sets, and is not congruent under the pairs before it. Stops with
/// `EarlyStop::PairLimit` if it needs more pairs than may be listed, and with `EarlyStop::CostLimit` if it costs more
/// than a limited walk may cost.
pub(crate) fn visit_all(
    alloc: Global,
    marked: &mut MarkSet,
    listed: &mut ListedPairs,
    diagrams: &mut Diagrams,
    source: &StepSource,
    items: Vec<Item>,
) -> Result<(), EarlyStop>
    requires items { AreItems diagrams.old items.items }
    ensures visited { OnOk result (Visits diagrams.old source.now (replicate diagrams.old.tests None) items.items listed.old listed.new) }
    ensures full { result ≡ Err PairLimit → PassesLimit diagrams.old source.now (replicate diagrams.old.tests None) items.items listed.old }
    ensures limited { result ≡ Err CostLimit → IsSome listed.old.limit }
    ensures limit { listed.new.limit ≡ listed.old.limit }
    ensures kept { KeepsFunctions diagrams.old diagrams.new }
{
    let decided = vec![in alloc; None; diagrams.tests()]?;
    let case = Case { decided, items };
    visit(alloc, marked, listed, diagrams, source, &case, None)
}
