//! All facts between tests: F2, F3, F6 and F10 between comparisons, and F9 between intervals.
ghost use Rattle.std.specs.Prelude.{◌≡◌, ◌+◌, ◌^◌, ◌<◌, ◌∷◌, IfOk, length, option_map};
ghost use Rattle.flow_forms.specs.Comparisons.{comparison_tree, literal_tree};
ghost use Rattle.flow_problem.specs.FlowFacts.{facts_between};
ghost use Rattle.flow_abstraction.specs.IntervalViews.{interval_tree};
ghost use Rattle.flow_abstraction.specs.FactLists.{converse, equalities};
ghost use Rattle.flow_abstraction.specs.Working.Adding.{Adds, all_tests};
ghost use Rattle.flow_abstraction.specs.Working.Facts.{test_of, order_fact_at, order_facts, third_ways_at, three_ways_at, all_three_ways, next_condition, IsNext, next_at, all_next, next_facts, first_facts_at, all_first_facts, all_facts_from, intervals_of_tests, facts_with_intervals};
ghost use Rattle.flow_edges.specs.Working.Views.{Makes, MakesList};

use crate::completion::{Pending, add_completed};
use crate::hypothesis::{FlowHypothesis, FlowRule, push_hypothesis};
use crate::interval::interval_facts::{IntervalCount, add_interval_facts};
use crate::interval::{Interval, interval_of};
use crate::sameness::{is_comparison, is_one_form, is_same_width};
use crate::terms::never_both;
use flow_forms::{FlowComparison, FlowForm, FlowLiteral, compared, sum};
use kat_model::{MAX_HYPS, NoMemory, Rel, Width, append};
use std::alloc::Global;

/// A kind of fact between comparisons.
#[derive(Clone, Copy)]
pub(crate) enum FactKind {
    Order,
    Equality,
    ThreeWays,
    NextNumber,
}

// A test with its number.
#[derive(Clone, Copy)]
struct NumberedTest<'a> {
    number: usize,
    test: &'a FlowComparison,
}

// Whether two tests are `f < g` and `g < f`, the first of them before the second.
fn is_converse(first: &NumberedTest<'_>, number: usize, second: &FlowComparison) -> bool
    ensures { result ≡ converse (test_of first.now) (number, comparison_tree second.now) }
{
    match (first.test, second) {
        (FlowComparison::Less(v, d, e), FlowComparison::Less(w, f, g)) => {
            first.number < number && is_same_width(*v, *w) && is_one_form(d, g) && is_one_form(e, f)
        }
        _ => false,
    }
}

// F2 of two tests.
fn add_order_fact(
    alloc: Global,
    first: &NumberedTest<'_>,
    number: usize,
    second: &FlowComparison,
    list: &mut Vec<FlowHypothesis>,
) -> Result<(), NoMemory>
    ensures { Adds result list.old list.new (order_fact_at first.now number second.now) }
{
    if !is_converse(first, number, second) {
        return Ok(());
    }
    let i = first.number;
    let term = never_both(alloc, i, number)?;
    push_hypothesis(list, FlowRule::Order(i, number), term)
}

// F2 of a test and each of some others, which are numbered from `number`.
#[cycle(add_order_facts)]
fn add_order_facts(
    alloc: Global,
    first: &NumberedTest<'_>,
    number: usize,
    tests: &[FlowComparison],
    list: &mut Vec<FlowHypothesis>,
) -> Result<(), NoMemory>
    requires { number + length tests.now < 2 ^ 64 }
    ensures { Adds result list.old list.new (order_facts first.now number tests.now) }
{
    match tests {
        [] => Ok(()),
        [second, rest @ ..] => add_order_facts_from(alloc, first, number, second, rest, list),
    }
}

#[cycle(add_order_facts)]
fn add_order_facts_from(
    alloc: Global,
    first: &NumberedTest<'_>,
    number: usize,
    second: &FlowComparison,
    rest: &[FlowComparison],
    list: &mut Vec<FlowHypothesis>,
) -> Result<(), NoMemory>
    requires { number + length rest.now + 1 < 2 ^ 64 }
    ensures { Adds result list.old list.new (order_facts first.now number (second.now ∷ rest.now)) }
{
    add_order_fact(alloc, first, number, second, list)?;
    add_order_facts(alloc, first, number + 1, rest, list)
}

// F3 of a test and each test.
fn add_equalities(
    alloc: Global,
    tests: &[FlowComparison],
    first: &NumberedTest<'_>,
    list: &mut Vec<FlowHypothesis>,
) -> Result<(), NoMemory>
    ensures { Adds result list.old list.new (equalities (all_tests tests.now) (test_of first.now)) }
{
    let _known = tests.len();
    let i = first.number;
    match first.test {
        FlowComparison::Less(w, f, g) => {
            let equal = compared(alloc, *w, Rel::Eq, f.copy(alloc)?, g.copy(alloc)?)?;
            add_completed(alloc, Pending::Equality(i), &equal, 0, tests, list)
        }
        _ => Ok(()),
    }
}

// F6 of tests i and j, which are turned, and each test.
fn add_third_ways(
    alloc: Global,
    tests: &[FlowComparison],
    i: usize,
    j: usize,
    second: &FlowComparison,
    list: &mut Vec<FlowHypothesis>,
) -> Result<(), NoMemory>
    ensures { Adds result list.old list.new (third_ways_at tests.now i j second.now) }
{
    let _known = tests.len();
    match second {
        FlowComparison::Less(w, f, g) => {
            let equal = compared(alloc, *w, Rel::Eq, f.copy(alloc)?, g.copy(alloc)?)?;
            add_completed(alloc, Pending::ThreeWays(i, j), &equal, 0, tests, list)
        }
        _ => Ok(()),
    }
}

fn add_three_ways_of(
    alloc: Global,
    tests: &[FlowComparison],
    first: &NumberedTest<'_>,
    number: usize,
    second: &FlowComparison,
    list: &mut Vec<FlowHypothesis>,
) -> Result<(), NoMemory>
    ensures { Adds result list.old list.new (three_ways_at tests.now first.now number second.now) }
{
    if !is_converse(first, number, second) {
        return Ok(());
    }
    add_third_ways(alloc, tests, first.number, number, second, list)
}

// F6 of a test, each of some others, which are numbered from `number`, and each test.
#[cycle(add_three_ways)]
fn add_three_ways(
    alloc: Global,
    tests: &[FlowComparison],
    first: &NumberedTest<'_>,
    number: usize,
    others: &[FlowComparison],
    list: &mut Vec<FlowHypothesis>,
) -> Result<(), NoMemory>
    requires { number + length others.now < 2 ^ 64 }
    ensures { Adds result list.old list.new (all_three_ways tests.now first.now number others.now) }
{
    match others {
        [] => Ok(()),
        [second, rest @ ..] => add_three_ways_from(alloc, tests, first, number, second, rest, list),
    }
}

#[cycle(add_three_ways)]
fn add_three_ways_from(
    alloc: Global,
    tests: &[FlowComparison],
    first: &NumberedTest<'_>,
    number: usize,
    second: &FlowComparison,
    rest: &[FlowComparison],
    list: &mut Vec<FlowHypothesis>,
) -> Result<(), NoMemory>
    requires { number + length rest.now + 1 < 2 ^ 64 }
    ensures { Adds result list.old list.new (all_three_ways tests.now first.now number (second.now ∷ rest.now)) }
{
    add_three_ways_of(alloc, tests, first, number, second, list)?;
    add_three_ways(alloc, tests, first, number + 1, rest, list)
}

// The conditions `f + 1 < g` and `f + 1 == g` of a test `f < g`, with its number.
struct NextNumber {
    number: usize,
    less: FlowLiteral,
    equal: FlowLiteral,
}

// Explicit, so that it is proved once and not at each end of each function that owns both conditions.
impl Drop for NextNumber {
    fn drop(self) {
        let NextNumber {
            number: _,
            less: _less,
            equal: _equal,
        } = self;
    }
}

// F10 of a test and a second one, and each test.
fn add_next_numbers_at(
    alloc: Global,
    tests: &[FlowComparison],
    next: &NextNumber,
    number: usize,
    second: &FlowComparison,
    list: &mut Vec<FlowHypothesis>,
) -> Result<(), NoMemory>
    ensures { Adds result list.old list.new (next_at tests.now next.now number second.now) }
{
    let _known = tests.len();
    if !is_comparison(&next.less, second) {
        return Ok(());
    }
    let pending = Pending::NextNumber(next.number, number);
    add_completed(alloc, pending, &next.equal, 0, tests, list)
}

// F10 of a test, each of some others, which are numbered from `number`, and each test.
#[cycle(add_next_numbers)]
fn add_next_numbers(
    alloc: Global,
    tests: &[FlowComparison],
    next: &NextNumber,
    number: usize,
    others: &[FlowComparison],
    list: &mut Vec<FlowHypothesis>,
) -> Result<(), NoMemory>
    requires { number + length others.now < 2 ^ 64 }
    ensures { Adds result list.old list.new (all_next tests.now next.now number others.now) }
{
    match others {
        [] => Ok(()),
        [second, rest @ ..] => add_next_numbers_from(
            alloc, tests, next, number, second, rest, list,
        ),
    }
}

#[cycle(add_next_numbers)]
fn add_next_numbers_from(
    alloc: Global,
    tests: &[FlowComparison],
    next: &NextNumber,
    number: usize,
    second: &FlowComparison,
    rest: &[FlowComparison],
    list: &mut Vec<FlowHypothesis>,
) -> Result<(), NoMemory>
    requires { number + length rest.now + 1 < 2 ^ 64 }
    ensures { Adds result list.old list.new (all_next tests.now next.now number (second.now ∷ rest.now)) }
{
    add_next_numbers_at(alloc, tests, next, number, second, list)?;
    add_next_numbers(alloc, tests, next, number + 1, rest, list)
}

// Compares `f + 1` with `g`.
fn next_literal(
    alloc: Global,
    width: Width,
    rel: Rel,
    left: &FlowForm,
    right: &FlowForm,
) -> Result<FlowLiteral, NoMemory>
    ensures { Makes literal_tree result (next_condition width rel left.now right.now) }
{
    let next = sum(alloc, width, left.copy(alloc)?, FlowForm::Constant(1))?;
    let right = right.copy(alloc)?;
    compared(alloc, width, rel, next, right)
}

// Returns the conditions `f + 1 < g` and `f + 1 == g` of a test `f < g`.
fn next_number(
    alloc: Global,
    number: usize,
    width: Width,
    left: &FlowForm,
    right: &FlowForm,
) -> Result<NextNumber, NoMemory>
    ensures { IfOk result (IsNext number width left.now right.now) }
{
    let less = next_literal(alloc, width, Rel::Lt, left, right)?;
    let equal = next_literal(alloc, width, Rel::Eq, left, right)?;
    Ok(NextNumber {
        number,
        less,
        equal,
    })
}

// F10 of a test and each two tests.
fn add_next_numbers_of(
    alloc: Global,
    tests: &[FlowComparison],
    first: &NumberedTest<'_>,
    list: &mut Vec<FlowHypothesis>,
) -> Result<(), NoMemory>
    ensures { Adds result list.old list.new (next_facts tests.now first.now) }
{
    let _known = tests.len();
    match first.test {
        FlowComparison::Less(w, f, g) => {
            let next = next_number(alloc, first.number, *w, f, g)?;
            add_next_numbers(alloc, tests, &next, 0, tests, list)
        }
        _ => Ok(()),
    }
}

// Appends the facts of a first test, unless there are too many hypotheses already.
#[tactic(auto, using(crate::proofs::CappedHypotheses::past_limit))]
fn add_first_facts(
    alloc: Global,
    kind: FactKind,
    tests: &[FlowComparison],
    first: &NumberedTest<'_>,
    list: &mut Vec<FlowHypothesis>,
) -> Result<(), NoMemory>
    ensures { Adds result list.old list.new (first_facts_at kind tests.now first.now) }
{
    if list.len() > MAX_HYPS {
        return Ok(());
    }
    let _known = tests.len();
    match kind {
        FactKind::Order => add_order_facts(alloc, first, 0, tests, list),
        FactKind::Equality => add_equalities(alloc, tests, first, list),
        FactKind::ThreeWays => add_three_ways(alloc, tests, first, 0, tests, list),
        FactKind::NextNumber => add_next_numbers_of(alloc, tests, first, list),
    }
}

// Appends the facts of each of some first tests, which are numbered from `number`.
#[cycle(add_facts)]
fn add_facts(
    alloc: Global,
    kind: FactKind,
    tests: &[FlowComparison],
    number: usize,
    firsts: &[FlowComparison],
    list: &mut Vec<FlowHypothesis>,
) -> Result<(), NoMemory>
    requires { number + length firsts.now < 2 ^ 64 }
    ensures { Adds result list.old list.new (all_first_facts kind tests.now number firsts.now) }
{
    match firsts {
        [] => Ok(()),
        [test, rest @ ..] => {
            let first = NumberedTest { number, test };
            add_facts_from(alloc, kind, tests, &first, rest, list)
        }
    }
}

#[cycle(add_facts)]
fn add_facts_from(
    alloc: Global,
    kind: FactKind,
    tests: &[FlowComparison],
    first: &NumberedTest<'_>,
    rest: &[FlowComparison],
    list: &mut Vec<FlowHypothesis>,
) -> Result<(), NoMemory>
    requires { first.now.number + length rest.now + 1 < 2 ^ 64 }
    ensures { Adds result list.old list.new (all_facts_from kind tests.now first.now rest.now) }
{
    add_first_facts(alloc, kind, tests, first, list)?;
    add_facts(alloc, kind, tests, first.number + 1, rest, list)
}

fn intervals_of(alloc: Global, tests: &[FlowComparison]) -> Result<Vec<Option<Interval>>, NoMemory>
    ensures { MakesList (option_map interval_tree) result (intervals_of_tests tests.now) }
{
    let mut list = Vec::new(alloc);
    for test in tests {
        append(&mut list, interval_of(alloc, test)?)?;
    }
    Ok(list)
}

// Appends all facts between tests, whose intervals are given.
#[tactic(auto, using(crate::proofs::CappedHypotheses::capped_six))]
fn add_all_facts(
    alloc: Global,
    tests: &[FlowComparison],
    intervals: &[Option<Interval>],
    list: &mut Vec<FlowHypothesis>,
) -> Result<(), NoMemory>
    ensures { Adds result list.old list.new (facts_with_intervals tests.now intervals.now) }
{
    let _known = tests.len();
    add_facts(alloc, FactKind::Order, tests, 0, tests, list)?;
    add_facts(alloc, FactKind::Equality, tests, 0, tests, list)?;
    add_facts(alloc, FactKind::ThreeWays, tests, 0, tests, list)?;
    add_interval_facts(alloc, IntervalCount::Two, intervals, list)?;
    add_interval_facts(alloc, IntervalCount::Three, intervals, list)?;
    add_facts(alloc, FactKind::NextNumber, tests, 0, tests, list)
}

/// Appends all facts between tests, in their order, until there are more than `MAX_HYPS` hypotheses. Fails only when out
/// of memory.
#[tactic(auto, using(crate::proofs::FactsByList::by_list))]
pub(crate) fn add_facts_between(
    alloc: Global,
    tests: &[FlowComparison],
    list: &mut Vec<FlowHypothesis>,
) -> Result<(), NoMemory>
    ensures { Adds result list.old list.new (facts_between (all_tests tests.now)) }
{
    let intervals = intervals_of(alloc, tests)?;
    add_all_facts(alloc, tests, &intervals, list)
}
