//! F9: intervals of one form that have no number in common.
ghost use Rattle.std.specs.Prelude.{◌≡◌, ◌+◌, ◌^◌, ◌<◌, ◌∷◌, ◌&&◌, length};
ghost use Rattle.flow_abstraction.specs.Working.Adding.{Adds};
ghost use Rattle.flow_abstraction.specs.Working.IntervalFacts.{signed_test, fact_of_two, fact_of_three, facts_of_two, signed_facts, facts_of_three, is_further_than, third_facts, all_thirds, facts_of_pair, second_facts, all_seconds, first_interval_facts, all_firsts, facts_between_intervals};

use crate::hypothesis::{FlowHypothesis, FlowRule, push_hypothesis};
use crate::interval::arcs::{Arc, is_least, literal_span, two_have_common};
use crate::interval::{Interval, is_same_interval_form};
use crate::terms::{both, literal_test, none_of_three};
use kat_model::{MAX_HYPS, NoMemory, Width};
use std::alloc::Global;

/// How many tests a fact is about.
#[derive(Clone, Copy)]
pub(crate) enum IntervalCount {
    Two,
    Three,
}

// A test, or its opposite, with the arc of the test.
#[derive(Clone, Copy)]
struct Literal {
    number: usize,
    arc: Arc,
    holds: bool,
}

// The interval of a test.
#[derive(Clone, Copy)]
struct NumberedInterval<'a> {
    number: usize,
    interval: &'a Interval,
}

fn signed(test: &NumberedInterval<'_>, holds: bool) -> Literal
    ensures { result ≡ signed_test test.now holds }
{
    Literal {
        number: test.number,
        arc: test.interval.arc,
        holds,
    }
}

// Appends the fact of two tests or their opposites, if no number satisfies both.
#[tactic(auto, using(crate::proofs::ArcFacts::two_meet, crate::proofs::ArcFacts::two_apart))]
fn add_two_arc_fact(
    alloc: Global,
    width: Width,
    first: Literal,
    second: Literal,
    list: &mut Vec<FlowHypothesis>,
) -> Result<(), NoMemory>
    ensures { Adds result list.old list.new (fact_of_two width first second) }
{
    let a = literal_span(width, first.arc, first.holds);
    let b = literal_span(width, second.arc, second.holds);
    if two_have_common(width, &a, &b) {
        return Ok(());
    }
    let left = literal_test(alloc, first.number, first.holds)?;
    let right = literal_test(alloc, second.number, second.holds)?;
    let term = both(alloc, left, right)?;
    push_hypothesis(
        list,
        FlowRule::TwoIntervals(first.number, second.number),
        term,
    )
}

// Appends the fact of three tests or their opposites, if no number satisfies all, but some number each two of them.
#[tactic(auto, using(crate::proofs::ArcFacts::three_meet, crate::proofs::ArcFacts::three_apart))]
fn add_three_arc_fact(
    alloc: Global,
    width: Width,
    first: Literal,
    second: Literal,
    third: Literal,
    list: &mut Vec<FlowHypothesis>,
) -> Result<(), NoMemory>
    ensures { Adds result list.old list.new (fact_of_three width first second third) }
{
    let a = literal_span(width, first.arc, first.holds);
    let b = literal_span(width, second.arc, second.holds);
    let c = literal_span(width, third.arc, third.holds);
    if !is_least(width, &a, &b, &c) {
        return Ok(());
    }
    let left = literal_test(alloc, first.number, first.holds)?;
    let middle = literal_test(alloc, second.number, second.holds)?;
    let right = literal_test(alloc, third.number, third.holds)?;
    let term = none_of_three(alloc, left, middle, right)?;
    let rule = FlowRule::ThreeIntervals(first.number, second.number, third.number);
    push_hypothesis(list, rule, term)
}

// Appends the facts of two tests and their opposites.
fn add_two_arc_facts(
    alloc: Global,
    width: Width,
    i: &NumberedInterval<'_>,
    j: &NumberedInterval<'_>,
    list: &mut Vec<FlowHypothesis>,
) -> Result<(), NoMemory>
    ensures { Adds result list.old list.new (facts_of_two width i.now j.now) }
{
    add_two_arc_fact(alloc, width, signed(i, true), signed(j, true), list)?;
    add_two_arc_fact(alloc, width, signed(i, true), signed(j, false), list)?;
    add_two_arc_fact(alloc, width, signed(i, false), signed(j, true), list)?;
    add_two_arc_fact(alloc, width, signed(i, false), signed(j, false), list)
}

// Appends the facts of a test or its opposite, and two tests and their opposites.
fn add_signed_arc_facts(
    alloc: Global,
    width: Width,
    first: Literal,
    j: &NumberedInterval<'_>,
    k: &NumberedInterval<'_>,
    list: &mut Vec<FlowHypothesis>,
) -> Result<(), NoMemory>
    ensures { Adds result list.old list.new (signed_facts width first j.now k.now) }
{
    add_three_arc_fact(alloc, width, first, signed(j, true), signed(k, true), list)?;
    add_three_arc_fact(alloc, width, first, signed(j, true), signed(k, false), list)?;
    add_three_arc_fact(alloc, width, first, signed(j, false), signed(k, true), list)?;
    add_three_arc_fact(
        alloc,
        width,
        first,
        signed(j, false),
        signed(k, false),
        list,
    )
}

// Appends the facts of three tests and their opposites.
fn add_three_arc_facts(
    alloc: Global,
    width: Width,
    i: &NumberedInterval<'_>,
    j: &NumberedInterval<'_>,
    k: &NumberedInterval<'_>,
    list: &mut Vec<FlowHypothesis>,
) -> Result<(), NoMemory>
    ensures { Adds result list.old list.new (facts_of_three width i.now j.now k.now) }
{
    add_signed_arc_facts(alloc, width, signed(i, true), j, k, list)?;
    add_signed_arc_facts(alloc, width, signed(i, false), j, k, list)
}

// Whether a test is after another one, and its interval is of the form of the first one.
fn is_further(before: usize, first: &Interval, number: usize, interval: &Interval) -> bool
    ensures { result ≡ is_further_than before first.now number interval.now }
{
    before < number && is_same_interval_form(first, interval)
}

fn add_third(
    alloc: Global,
    i: &NumberedInterval<'_>,
    j: &NumberedInterval<'_>,
    number: usize,
    third: &Option<Interval>,
    list: &mut Vec<FlowHypothesis>,
) -> Result<(), NoMemory>
    ensures { Adds result list.old list.new (third_facts i.now j.now number third.now) }
{
    let Some(interval) = third else {
        return Ok(());
    };
    if !is_further(j.number, i.interval, number, interval) {
        return Ok(());
    }
    let k = NumberedInterval { number, interval };
    add_three_arc_facts(alloc, i.interval.width, i, j, &k, list)
}

// Appends the facts of two tests and each of some others, which are numbered from `number`.
#[cycle(add_thirds)]
fn add_thirds(
    alloc: Global,
    i: &NumberedInterval<'_>,
    j: &NumberedInterval<'_>,
    number: usize,
    intervals: &[Option<Interval>],
    list: &mut Vec<FlowHypothesis>,
) -> Result<(), NoMemory>
    requires { number + length intervals.now < 2 ^ 64 }
    ensures { Adds result list.old list.new (all_thirds i.now j.now number intervals.now) }
{
    match intervals {
        [] => Ok(()),
        [third, rest @ ..] => add_thirds_from(alloc, i, j, number, third, rest, list),
    }
}

#[cycle(add_thirds)]
fn add_thirds_from(
    alloc: Global,
    i: &NumberedInterval<'_>,
    j: &NumberedInterval<'_>,
    number: usize,
    third: &Option<Interval>,
    rest: &[Option<Interval>],
    list: &mut Vec<FlowHypothesis>,
) -> Result<(), NoMemory>
    requires { number + length rest.now + 1 < 2 ^ 64 }
    ensures { Adds result list.old list.new (all_thirds i.now j.now number (third.now ∷ rest.now)) }
{
    add_third(alloc, i, j, number, third, list)?;
    add_thirds(alloc, i, j, number + 1, rest, list)
}

// What facts are made of: the intervals of all tests, and how many tests a fact is about.
#[derive(Clone, Copy)]
struct Setting<'a> {
    alloc: Global,
    count: IntervalCount,
    intervals: &'a [Option<Interval>],
}

// Appends the facts of two tests whose intervals are of one form.
fn add_of_two(
    setting: &Setting<'_>,
    i: &NumberedInterval<'_>,
    j: &NumberedInterval<'_>,
    list: &mut Vec<FlowHypothesis>,
) -> Result<(), NoMemory>
    ensures { Adds result list.old list.new (facts_of_pair setting.now i.now j.now) }
{
    let alloc = setting.alloc;
    let intervals = setting.intervals;
    let _known = intervals.len();
    match setting.count {
        IntervalCount::Two => add_two_arc_facts(alloc, i.interval.width, i, j, list),
        IntervalCount::Three => add_thirds(alloc, i, j, 0, intervals, list),
    }
}

fn add_second(
    setting: &Setting<'_>,
    i: &NumberedInterval<'_>,
    number: usize,
    second: &Option<Interval>,
    list: &mut Vec<FlowHypothesis>,
) -> Result<(), NoMemory>
    ensures { Adds result list.old list.new (second_facts setting.now i.now number second.now) }
{
    let Some(interval) = second else {
        return Ok(());
    };
    if !is_further(i.number, i.interval, number, interval) {
        return Ok(());
    }
    let j = NumberedInterval { number, interval };
    add_of_two(setting, i, &j, list)
}

// Appends the facts of a test and each of some others, which are numbered from `number`.
#[cycle(add_seconds)]
fn add_seconds(
    setting: &Setting<'_>,
    i: &NumberedInterval<'_>,
    number: usize,
    intervals: &[Option<Interval>],
    list: &mut Vec<FlowHypothesis>,
) -> Result<(), NoMemory>
    requires { number + length intervals.now < 2 ^ 64 }
    ensures { Adds result list.old list.new (all_seconds setting.now i.now number intervals.now) }
{
    match intervals {
        [] => Ok(()),
        [second, rest @ ..] => add_seconds_from(setting, i, number, second, rest, list),
    }
}

#[cycle(add_seconds)]
fn add_seconds_from(
    setting: &Setting<'_>,
    i: &NumberedInterval<'_>,
    number: usize,
    second: &Option<Interval>,
    rest: &[Option<Interval>],
    list: &mut Vec<FlowHypothesis>,
) -> Result<(), NoMemory>
    requires { number + length rest.now + 1 < 2 ^ 64 }
    ensures { Adds result list.old list.new (all_seconds setting.now i.now number (second.now ∷ rest.now)) }
{
    add_second(setting, i, number, second, list)?;
    add_seconds(setting, i, number + 1, rest, list)
}

// Appends the facts of a test and each test, unless there are too many hypotheses already.
#[tactic(auto, using(crate::proofs::CappedHypotheses::past_limit))]
fn add_first(
    setting: &Setting<'_>,
    number: usize,
    first: &Option<Interval>,
    list: &mut Vec<FlowHypothesis>,
) -> Result<(), NoMemory>
    ensures { Adds result list.old list.new (first_interval_facts setting.now number first.now) }
{
    if list.len() > MAX_HYPS {
        return Ok(());
    }
    let Some(interval) = first else {
        return Ok(());
    };
    let intervals = setting.intervals;
    let _known = intervals.len();
    let i = NumberedInterval { number, interval };
    add_seconds(setting, &i, 0, intervals, list)
}

// Appends the facts of each of some tests, which are numbered from `number`, and each test.
#[cycle(add_firsts)]
fn add_firsts(
    setting: &Setting<'_>,
    number: usize,
    intervals: &[Option<Interval>],
    list: &mut Vec<FlowHypothesis>,
) -> Result<(), NoMemory>
    requires { number + length intervals.now < 2 ^ 64 }
    ensures { Adds result list.old list.new (all_firsts setting.now number intervals.now) }
{
    match intervals {
        [] => Ok(()),
        [first, rest @ ..] => add_firsts_from(setting, number, first, rest, list),
    }
}

#[cycle(add_firsts)]
fn add_firsts_from(
    setting: &Setting<'_>,
    number: usize,
    first: &Option<Interval>,
    rest: &[Option<Interval>],
    list: &mut Vec<FlowHypothesis>,
) -> Result<(), NoMemory>
    requires { number + length rest.now + 1 < 2 ^ 64 }
    ensures { Adds result list.old list.new (all_firsts setting.now number (first.now ∷ rest.now)) }
{
    add_first(setting, number, first, list)?;
    add_firsts(setting, number + 1, rest, list)
}

/// Appends the facts between the intervals of tests.
pub(crate) fn add_interval_facts(
    alloc: Global,
    count: IntervalCount,
    intervals: &[Option<Interval>],
    list: &mut Vec<FlowHypothesis>,
) -> Result<(), NoMemory>
    ensures { Adds result list.old list.new (facts_between_intervals count intervals.now) }
{
    let _known = intervals.len();
    let setting = Setting {
        alloc,
        count,
        intervals,
    };
    add_firsts(&setting, 0, intervals, list)
}
