//! Facts of arithmetic about some comparisons together, each as a term that relates no stores.
ghost use Rattle.std.specs.Prelude.{◌≡◌, [], ◌∷◌, ◌++◌, ◌&&◌, ◌||◌, nat_lt, Option, IfOk, OnOk};
ghost use Rattle.kat_model.specs.Stores.{modulus};
ghost use Rattle.kat_model.specs.Trees.{prim, complement, test, product, kat_tree};
ghost use Rattle.linear_forms.specs.Arithmetic.{form_sum, form_difference};
ghost use Rattle.linear_forms.specs.Comparisons.{canonical};
ghost use Rattle.linear_forms.specs.Sameness.{is_same_form};
ghost use Rattle.abstraction.specs.Facts.{excludes, implies, one_holds, is_nonzero, are_less, apart_fact, order_fact, equality_fact, bound_fact, decided_by, constant_fact, three_way_fact};
ghost use Rattle.abstraction.specs.Working.ConstantForms.{constant_value};
ghost use Rattle.abstraction.specs.Working.PairTests.{are_opposite, are_strict_and_equal};

use crate::rule::Rule;
use kat_model::{Kat, NoMemory, Test, Width};
use linear_forms::{Atomic, Form, canon, minus, plus, same_form};
use std::alloc::Global;
use std::marker::Model;

/// A term that is stated or derived to be 0, and the reason.
pub(crate) struct RuledTerm {
    pub rule: Rule,
    pub term: Kat,
}

// Explicit, so that it is proved once and not at each end of each function that owns one.
impl Drop for RuledTerm {
    fn drop(self) {
        let RuledTerm {
            rule: _,
            term: _term,
        } = self;
    }
}

impl Model for RuledTerm {
    ghost use Rattle.std.specs.Coded.{codes};
    ghost use Rattle.kat_model.specs.Codes.{coded_term};
    ghost use Rattle.kat_model.specs.Trees.{kat_tree};
    ghost use Rattle.abstraction.specs.Facts.{Hypothesis};

    ghost Value = { Hypothesis };

    ghost coded = { Prim.hlevel (codes, coded_term) };

    ghost view = { λ h. record { rule = h.rule; term = kat_tree h.term } };
}

impl RuledTerm {
    ghost use Rattle.std.specs.Prelude.{◌≡◌};
    ghost use Rattle.kat_model.specs.Trees.{kat_tree};

    /// Returns the reason and the term.
    pub fn into_parts(self) -> (Rule, Kat)
        ensures rule { result.0 ≡ self.rule }
        ensures term { kat_tree result.1 ≡ self.term }
    {
        let RuledTerm { rule, term } = self;
        (rule, term)
    }
}

/// A comparison with its number among the tests.
#[derive(Drop)]
pub(crate) struct NumberedTest<'a> {
    pub(crate) number: usize,
    pub(crate) atomic: &'a Atomic,
}

impl<'a> Model for NumberedTest<'a> {
    ghost use Rattle.std.specs.Coded.{codes};
    ghost use Rattle.linear_forms.specs.Codes.{coded_form};
    ghost use Rattle.abstraction.specs.Facts.{TestRowOf};

    ghost Value = { TestRowOf };

    ghost coded = { Prim.hlevel (codes, coded_form) };

    ghost view = { λ t. (t.number, t.atomic.now) };
}

/// Appends a hypothesis.
pub(crate) fn push_hyp(hyps: &mut Vec<RuledTerm>, rule: Rule, term: Kat) -> Result<(), NoMemory>
    ensures { OnOk result (hyps.new.items ≡ hyps.old.items ++ record { rule = rule; term = kat_tree term } ∷ []) }
{
    Ok(hyps.push(RuledTerm { rule, term })?)
}

fn opposite(alloc: Global, k: usize) -> Result<Kat, NoMemory>
    ensures { IfOk result (λ e. kat_tree e ≡ test (complement (prim k))) }
{
    Ok(Kat::Test(Test::new_not(alloc, Test::Prim(k))?))
}

fn excludes(alloc: Global, i: usize, j: usize) -> Result<Kat, NoMemory>
    ensures { IfOk result (λ e. kat_tree e ≡ excludes i j) }
{
    Kat::new_seq(alloc, Kat::Test(Test::Prim(i)), Kat::Test(Test::Prim(j)))
}

fn implies(alloc: Global, i: usize, j: usize) -> Result<Kat, NoMemory>
    ensures { IfOk result (λ e. kat_tree e ≡ implies i j) }
{
    let fails = opposite(alloc, j)?;
    Kat::new_seq(alloc, Kat::Test(Test::Prim(i)), fails)
}

fn neither(alloc: Global, i: usize, j: usize) -> Result<Kat, NoMemory>
    ensures { IfOk result (λ e. kat_tree e ≡ product (test (complement (prim i))) (test (complement (prim j)))) }
{
    let first = opposite(alloc, i)?;
    let second = opposite(alloc, j)?;
    Kat::new_seq(alloc, first, second)
}

fn one_holds(alloc: Global, i: usize, j: usize, k: usize) -> Result<Kat, NoMemory>
    ensures { IfOk result (λ e. kat_tree e ≡ one_holds i j k) }
{
    let first = opposite(alloc, i)?;
    let others = neither(alloc, j, k)?;
    Kat::new_seq(alloc, first, others)
}

// Returns the number of a constant form.
fn constant_value(form: &Form) -> Option<u64>
    ensures { result ≡ constant_value form.now }
{
    if form.terms.is_empty() {
        return Some(form.constant);
    }
    None
}

fn is_nonzero(form: &Form) -> bool
    ensures { result ≡ is_nonzero form.now }
{
    match constant_value(form) {
        Some(c) => c != 0,
        None => false,
    }
}

fn are_less(left: &Form, right: &Form) -> bool
    ensures { result ≡ are_less left.now right.now }
{
    match (constant_value(left), constant_value(right)) {
        (Some(c), Some(d)) => c < d,
        _ => false,
    }
}

fn is_same_form(left: &Form, right: &Form) -> bool
    ensures { result ≡ is_same_form left.now right.now }
{
    same_form(left, right)
}

// Whether the difference or the sum of two forms is a constant other than 0.
fn are_apart(alloc: Global, width: Width, left: &Form, right: &Form) -> Result<bool, NoMemory>
    ensures { IfOk result (λ b. b ≡ (is_nonzero (form_difference (modulus width) left.now right.now) || is_nonzero (form_sum (modulus width) left.now right.now))) }
{
    let difference = minus(alloc, width, left, right)?;
    if is_nonzero(&difference) {
        return Ok(true);
    }
    let total = plus(alloc, width, left, right)?;
    Ok(is_nonzero(&total))
}

// Whether `zero` is the canonical form of the difference of `left` and `right`, so that it is 0 exactly when they are
// equal.
fn is_difference(
    alloc: Global,
    width: Width,
    zero: &Form,
    left: &Form,
    right: &Form,
) -> Result<bool, NoMemory>
    ensures { IfOk result (λ b. b ≡ is_same_form zero.now (canonical (modulus width) (form_difference (modulus width) left.now right.now))) }
{
    let difference = minus(alloc, width, left, right)?;
    let canonical = canon(alloc, width, &difference)?;
    Ok(is_same_form(zero, &canonical))
}

// Appends that tests i and j exclude one another.
fn add_exclusion(
    alloc: Global,
    rule: Rule,
    i: usize,
    j: usize,
    hyps: &mut Vec<RuledTerm>,
) -> Result<(), NoMemory>
    ensures { OnOk result (hyps.new.items ≡ hyps.old.items ++ record { rule = rule; term = excludes i j } ∷ []) }
{
    push_hyp(hyps, rule, excludes(alloc, i, j)?)
}

// Appends that test i implies test j.
fn add_implication(
    alloc: Global,
    rule: Rule,
    i: usize,
    j: usize,
    hyps: &mut Vec<RuledTerm>,
) -> Result<(), NoMemory>
    ensures { OnOk result (hyps.new.items ≡ hyps.old.items ++ record { rule = rule; term = implies i j } ∷ []) }
{
    push_hyp(hyps, rule, implies(alloc, i, j)?)
}

// Whether test i comes before test j, and their forms are not both 0.
fn is_apart_fact(
    alloc: Global,
    width: Width,
    i: usize,
    j: usize,
    left: &Form,
    right: &Form,
) -> Result<bool, NoMemory>
    ensures { IfOk result (λ b. b ≡ (nat_lt i j && (is_nonzero (form_difference (modulus width) left.now right.now) || is_nonzero (form_sum (modulus width) left.now right.now)))) }
{
    if i >= j {
        return Ok(false);
    }
    are_apart(alloc, width, left, right)
}

/// F1: two forms are not both 0.
pub(crate) fn add_apart_fact(
    alloc: Global,
    width: Width,
    first: &NumberedTest<'_>,
    second: &NumberedTest<'_>,
    hyps: &mut Vec<RuledTerm>,
) -> Result<(), NoMemory>
    ensures { OnOk result (hyps.new.items ≡ hyps.old.items ++ apart_fact (modulus width) first.now second.now) }
{
    let (Atomic::Zero(f), Atomic::Zero(g)) = (first.atomic, second.atomic) else {
        return Ok(());
    };
    let i = first.number;
    let j = second.number;
    if !is_apart_fact(alloc, width, i, j, f, g)? {
        return Ok(());
    }
    add_exclusion(alloc, Rule::F1(i, j), i, j, hyps)
}

// Whether the first comparison comes before the second, and they are `f < g` and `g < f`.
fn are_opposite(first: &NumberedTest<'_>, second: &NumberedTest<'_>) -> bool
    ensures { result ≡ are_opposite first.now second.now }
{
    match (first.atomic, second.atomic) {
        (Atomic::Less(f, g), Atomic::Less(d, e)) => {
            first.number < second.number && is_same_form(f, e) && is_same_form(g, d)
        }
        _ => false,
    }
}

// Whether the comparisons are `f < g` and `f == g`.
fn are_strict_and_equal(
    alloc: Global,
    width: Width,
    first: &NumberedTest<'_>,
    second: &NumberedTest<'_>,
) -> Result<bool, NoMemory>
    ensures { IfOk result (λ b. b ≡ are_strict_and_equal (modulus width) first.now second.now) }
{
    match (first.atomic, second.atomic) {
        (Atomic::Less(f, g), Atomic::Zero(z)) => is_difference(alloc, width, z, f, g),
        _ => Ok(false),
    }
}

/// F2: `f < g` and `g < f` exclude one another.
#[tactic(auto, using(crate::proofs::SharedTests::order_by_test))]
pub(crate) fn add_order_fact(
    alloc: Global,
    first: &NumberedTest<'_>,
    second: &NumberedTest<'_>,
    hyps: &mut Vec<RuledTerm>,
) -> Result<(), NoMemory>
    ensures { OnOk result (hyps.new.items ≡ hyps.old.items ++ order_fact first.now second.now) }
{
    if !are_opposite(first, second) {
        return Ok(());
    }
    let i = first.number;
    let j = second.number;
    add_exclusion(alloc, Rule::F2(i, j), i, j, hyps)
}

/// F3: `f < g` and `f == g` exclude one another.
#[tactic(auto, using(crate::proofs::SharedTests::equality_by_test))]
pub(crate) fn add_equality_fact(
    alloc: Global,
    width: Width,
    first: &NumberedTest<'_>,
    second: &NumberedTest<'_>,
    hyps: &mut Vec<RuledTerm>,
) -> Result<(), NoMemory>
    ensures { OnOk result (hyps.new.items ≡ hyps.old.items ++ equality_fact (modulus width) first.now second.now) }
{
    if !are_strict_and_equal(alloc, width, first, second)? {
        return Ok(());
    }
    let i = first.number;
    let j = second.number;
    add_exclusion(alloc, Rule::F3(i, j), i, j, hyps)
}

/// F4: `f < c` implies `f < d` if c is less than d.
pub(crate) fn add_bound_fact(
    alloc: Global,
    first: &NumberedTest<'_>,
    second: &NumberedTest<'_>,
    hyps: &mut Vec<RuledTerm>,
) -> Result<(), NoMemory>
    ensures { OnOk result (hyps.new.items ≡ hyps.old.items ++ bound_fact first.now second.now) }
{
    let (Atomic::Less(f, c), Atomic::Less(g, d)) = (first.atomic, second.atomic) else {
        return Ok(());
    };
    let i = first.number;
    let j = second.number;
    if !is_same_form(f, g) || !are_less(c, d) {
        return Ok(());
    }
    add_implication(alloc, Rule::F4(i, j), i, j, hyps)
}

// Appends that test i implies or excludes test j, which compares `form` with `bound` where test i holds, if both forms
// are constants.
fn add_decided(
    alloc: Global,
    i: usize,
    j: usize,
    form: &Form,
    bound: &Form,
    hyps: &mut Vec<RuledTerm>,
) -> Result<(), NoMemory>
    ensures { OnOk result (hyps.new.items ≡ hyps.old.items ++ decided_by i j form.now bound.now) }
{
    match (constant_value(form), constant_value(bound)) {
        (Some(c), Some(d)) => {
            if c < d {
                add_implication(alloc, Rule::F5(i, j), i, j, hyps)
            } else {
                add_exclusion(alloc, Rule::F5(i, j), i, j, hyps)
            }
        }
        _ => Ok(()),
    }
}

/// F5: a test that makes a form a constant decides whether the form is below another constant.
pub(crate) fn add_constant_fact(
    alloc: Global,
    width: Width,
    first: &NumberedTest<'_>,
    second: &NumberedTest<'_>,
    hyps: &mut Vec<RuledTerm>,
) -> Result<(), NoMemory>
    ensures { OnOk result (hyps.new.items ≡ hyps.old.items ++ constant_fact (modulus width) first.now second.now) }
{
    let (Atomic::Zero(z), Atomic::Less(f, d)) = (first.atomic, second.atomic) else {
        return Ok(());
    };
    let i = first.number;
    let j = second.number;
    let difference = minus(alloc, width, f, z)?;
    add_decided(alloc, i, j, &difference, d, hyps)?;
    let total = plus(alloc, width, f, z)?;
    add_decided(alloc, i, j, &total, d, hyps)
}

// Appends that one of tests i, j and k holds.
fn add_choice(
    alloc: Global,
    i: usize,
    j: usize,
    k: usize,
    hyps: &mut Vec<RuledTerm>,
) -> Result<(), NoMemory>
    ensures { OnOk result (hyps.new.items ≡ hyps.old.items ++ record { rule = Rule.F6 i j k; term = one_holds i j k } ∷ []) }
{
    push_hyp(hyps, Rule::F6(i, j, k), one_holds(alloc, i, j, k)?)
}

/// F6: one of `f < g`, `g < f` and `f == g` holds.
#[tactic(auto, using(crate::proofs::SharedTests::three_way_by_tests))]
pub(crate) fn add_three_way_fact(
    alloc: Global,
    width: Width,
    first: &NumberedTest<'_>,
    second: &NumberedTest<'_>,
    third: &NumberedTest<'_>,
    hyps: &mut Vec<RuledTerm>,
) -> Result<(), NoMemory>
    ensures { OnOk result (hyps.new.items ≡ hyps.old.items ++ three_way_fact (modulus width) first.now second.now third.now) }
{
    if !are_opposite(first, second) {
        return Ok(());
    }
    if !are_strict_and_equal(alloc, width, first, third)? {
        return Ok(());
    }
    add_choice(alloc, first.number, second.number, third.number, hyps)
}
