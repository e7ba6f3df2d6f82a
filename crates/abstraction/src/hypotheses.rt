//! The hypotheses of an abstraction: the stated ones, those from assignments and comparisons, and facts of arithmetic.
ghost use Rattle.std.specs.Prelude.{◌≡◌, [], ◌∷◌, ◌++◌, flat_map, map, Option, option_map, IfOk, OnOk};
ghost use Rattle.kat_model.specs.Stores.{modulus};
ghost use Rattle.kat_model.specs.Trees.{kat_tree, test_tree, prim, complement, test, act, product};
ghost use Rattle.linear_forms.specs.Comparisons.{substituted};
ghost use Rattle.abstraction.specs.Tests.{form_test};
ghost use Rattle.abstraction.specs.Facts.{three_way_fact};
ghost use Rattle.abstraction.specs.Derived.{stated_from, keeps_before, assignment_facts, test_rows, action_rows, of_pairs, derived, hypotheses};
ghost use Rattle.abstraction.specs.Working.PairFacts.{pair_fact, facts_of};

use crate::conditions::form_test;
use crate::facts::{
    NumberedTest, RuledTerm, add_apart_fact, add_bound_fact, add_constant_fact, add_equality_fact,
    add_order_fact, add_three_way_fact, push_hyp,
};
use crate::rule::Rule;
use crate::tables::{AssignedForm, RowTables};
use kat_model::{Kat, NoMemory, Test, Width};
use linear_forms::{CondForm, subst};
use std::alloc::Global;
use std::marker::Model;

// An assignment with its number among the actions.
#[derive(Drop)]
struct NumberedAssignment<'a> {
    number: usize,
    assigned: &'a AssignedForm,
}

impl<'a> Model for NumberedAssignment<'a> {
    ghost use Rattle.std.specs.Coded.{codes};
    ghost use Rattle.linear_forms.specs.Codes.{coded_form};
    ghost use Rattle.abstraction.specs.Derived.{ActionRowOf};

    ghost Value = { ActionRowOf };

    ghost coded = { Prim.hlevel (codes, coded_form) };

    ghost view = { λ a. (a.number, a.assigned.now) };
}

// A kind of fact about two comparisons.
#[derive(Clone, Copy)]
enum PairFact {
    Apart,
    Order,
    Equality,
    Bound,
    Constant,
}

// Returns the stated terms as hypotheses.
fn stated_hyps(alloc: Global, terms: &[Kat]) -> Result<Vec<RuledTerm>, NoMemory>
    ensures { IfOk result (λ v. v.items ≡ stated_from 0 (map kat_tree terms.now)) }
{
    let mut hyps = Vec::new(alloc);
    for (k, term) in terms.iter().enumerate() {
        push_hyp(&mut hyps, Rule::Stated(k), term.copy(alloc)?)?;
    }
    Ok(hyps)
}

// Builds the term of the runs of action i that begin in one test and end in another.
fn runs_between(alloc: Global, start: Test, i: usize, end: Test) -> Result<Kat, NoMemory>
    ensures { IfOk result (λ e. kat_tree e ≡ product (test (test_tree start)) (product (act i) (test (test_tree end)))) }
{
    let run = Kat::new_seq(alloc, Kat::Act(i), Kat::Test(end))?;
    Kat::new_seq(alloc, Kat::Test(start), run)
}

// Builds the term of the runs of action i from psi that end outside test j.
fn leaving(alloc: Global, i: usize, j: usize, psi: &Test) -> Result<Kat, NoMemory>
    ensures { IfOk result (λ e. kat_tree e ≡ product (test (test_tree psi.now)) (product (act i) (test (complement (prim j))))) }
{
    let holds = psi.copy(alloc)?;
    let outside = Test::new_not(alloc, Test::Prim(j))?;
    runs_between(alloc, holds, i, outside)
}

// Builds the term of the runs of action i from the complement of psi that end in test j.
fn entering(alloc: Global, i: usize, j: usize, psi: Test) -> Result<Kat, NoMemory>
    ensures { IfOk result (λ e. kat_tree e ≡ product (test (complement (test_tree psi))) (product (act i) (test (prim j)))) }
{
    let fails = Test::new_not(alloc, psi)?;
    runs_between(alloc, fails, i, Test::Prim(j))
}

// Appends that no run of action i from psi ends outside test j, and that no run from the complement of psi ends in it.
fn add_kept(
    alloc: Global,
    i: usize,
    j: usize,
    psi: Test,
    hyps: &mut Vec<RuledTerm>,
) -> Result<(), NoMemory>
    ensures { OnOk result (hyps.new.items ≡ hyps.old.items ++ keeps_before i j (Some (test_tree psi))) }
{
    let rule = Rule::Assign(i, j);
    push_hyp(hyps, rule, leaving(alloc, i, j, &psi)?)?;
    push_hyp(hyps, rule, entering(alloc, i, j, psi)?)
}

// Appends the hypotheses from action i and test j, which holds after the action exactly when `before` holds before it.
fn add_kept_if_test(
    alloc: Global,
    tables: &RowTables,
    i: usize,
    j: usize,
    before: &CondForm,
    hyps: &mut Vec<RuledTerm>,
) -> Result<(), NoMemory>
    ensures { OnOk result (hyps.new.items ≡ hyps.old.items ++ keeps_before i j (form_test tables.now before.now)) }
{
    match form_test(alloc, tables, before)? {
        Some(psi) => add_kept(alloc, i, j, psi, hyps),
        None => Ok(()),
    }
}

// Appends the hypotheses from an assignment and a comparison.
fn add_assignment_facts(
    alloc: Global,
    tables: &RowTables,
    action: &NumberedAssignment<'_>,
    row: &NumberedTest<'_>,
    hyps: &mut Vec<RuledTerm>,
) -> Result<(), NoMemory>
    ensures { OnOk result (hyps.new.items ≡ hyps.old.items ++ assignment_facts tables.now action.now row.now) }
{
    let assigned = action.assigned;
    let before = subst(
        alloc,
        tables.width,
        row.atomic,
        assigned.var,
        &assigned.form,
    )?;
    add_kept_if_test(alloc, tables, action.number, row.number, &before, hyps)
}

fn add_facts_of_assignment(
    alloc: Global,
    tables: &RowTables,
    action: &NumberedAssignment<'_>,
    rows: &[NumberedTest<'_>],
    hyps: &mut Vec<RuledTerm>,
) -> Result<(), NoMemory>
    ensures { OnOk result (hyps.new.items ≡ hyps.old.items ++ flat_map (assignment_facts tables.now action.now) rows.now) }
{
    for row in rows {
        add_assignment_facts(alloc, tables, action, row, hyps)?;
    }
    Ok(())
}

fn add_facts_of_assignments(
    alloc: Global,
    tables: &RowTables,
    actions: &[NumberedAssignment<'_>],
    rows: &[NumberedTest<'_>],
    hyps: &mut Vec<RuledTerm>,
) -> Result<(), NoMemory>
    ensures { OnOk result (hyps.new.items ≡ hyps.old.items ++ of_pairs (assignment_facts tables.now) actions.now rows.now) }
{
    for action in actions {
        add_facts_of_assignment(alloc, tables, action, rows, hyps)?;
    }
    Ok(())
}

fn add_pair_fact(
    alloc: Global,
    width: Width,
    fact: PairFact,
    first: &NumberedTest<'_>,
    second: &NumberedTest<'_>,
    hyps: &mut Vec<RuledTerm>,
) -> Result<(), NoMemory>
    ensures { OnOk result (hyps.new.items ≡ hyps.old.items ++ pair_fact fact (modulus width) first.now second.now) }
{
    match fact {
        PairFact::Apart => add_apart_fact(alloc, width, first, second, hyps),
        PairFact::Order => add_order_fact(alloc, first, second, hyps),
        PairFact::Equality => add_equality_fact(alloc, width, first, second, hyps),
        PairFact::Bound => add_bound_fact(alloc, first, second, hyps),
        PairFact::Constant => add_constant_fact(alloc, width, first, second, hyps),
    }
}

fn add_pair_facts_of(
    alloc: Global,
    width: Width,
    fact: PairFact,
    first: &NumberedTest<'_>,
    rows: &[NumberedTest<'_>],
    hyps: &mut Vec<RuledTerm>,
) -> Result<(), NoMemory>
    ensures { OnOk result (hyps.new.items ≡ hyps.old.items ++ flat_map (pair_fact fact (modulus width) first.now) rows.now) }
{
    for second in rows {
        add_pair_fact(alloc, width, fact, first, second, hyps)?;
    }
    Ok(())
}

// Appends one kind of fact for each two comparisons.
fn add_pair_facts(
    alloc: Global,
    width: Width,
    fact: PairFact,
    rows: &[NumberedTest<'_>],
    hyps: &mut Vec<RuledTerm>,
) -> Result<(), NoMemory>
    ensures { OnOk result (hyps.new.items ≡ hyps.old.items ++ of_pairs (pair_fact fact (modulus width)) rows.now rows.now) }
{
    for first in rows {
        add_pair_facts_of(alloc, width, fact, first, rows, hyps)?;
    }
    Ok(())
}

fn add_three_way_facts_of_pair(
    alloc: Global,
    width: Width,
    first: &NumberedTest<'_>,
    second: &NumberedTest<'_>,
    rows: &[NumberedTest<'_>],
    hyps: &mut Vec<RuledTerm>,
) -> Result<(), NoMemory>
    ensures { OnOk result (hyps.new.items ≡ hyps.old.items ++ flat_map (three_way_fact (modulus width) first.now second.now) rows.now) }
{
    for third in rows {
        add_three_way_fact(alloc, width, first, second, third, hyps)?;
    }
    Ok(())
}

fn add_three_way_facts_of(
    alloc: Global,
    width: Width,
    first: &NumberedTest<'_>,
    rows: &[NumberedTest<'_>],
    hyps: &mut Vec<RuledTerm>,
) -> Result<(), NoMemory>
    ensures { OnOk result (hyps.new.items ≡ hyps.old.items ++ of_pairs (three_way_fact (modulus width) first.now) rows.now rows.now) }
{
    for second in rows {
        add_three_way_facts_of_pair(alloc, width, first, second, rows, hyps)?;
    }
    Ok(())
}

fn add_three_way_facts(
    alloc: Global,
    width: Width,
    rows: &[NumberedTest<'_>],
    hyps: &mut Vec<RuledTerm>,
) -> Result<(), NoMemory>
    ensures { OnOk result (hyps.new.items ≡ hyps.old.items ++ flat_map (λ a. of_pairs (three_way_fact (modulus width) a) rows.now rows.now) rows.now) }
{
    for first in rows {
        add_three_way_facts_of(alloc, width, first, rows, hyps)?;
    }
    Ok(())
}

fn numbered_tests(alloc: Global, tables: &RowTables) -> Result<Vec<NumberedTest<'_>>, NoMemory>
    ensures { IfOk result (λ v. v.items ≡ test_rows tables.now) }
{
    let mut rows = Vec::new(alloc);
    for (k, atomic) in tables.comparisons.iter().enumerate() {
        let number = tables.tests + k;
        rows.push(NumberedTest { number, atomic })?;
    }
    Ok(rows)
}

fn numbered_assignments(
    alloc: Global,
    tables: &RowTables,
) -> Result<Vec<NumberedAssignment<'_>>, NoMemory>
    ensures { IfOk result (λ v. v.items ≡ action_rows tables.now) }
{
    let mut rows = Vec::new(alloc);
    for (k, assigned) in tables.assignments.iter().enumerate() {
        let number = tables.actions + k;
        rows.push(NumberedAssignment { number, assigned })?;
    }
    Ok(rows)
}

// Appends the hypotheses that follow from these assignments and comparisons.
fn add_facts(
    alloc: Global,
    tables: &RowTables,
    actions: &[NumberedAssignment<'_>],
    rows: &[NumberedTest<'_>],
    hyps: &mut Vec<RuledTerm>,
) -> Result<(), NoMemory>
    ensures { OnOk result (hyps.new.items ≡ hyps.old.items ++ facts_of tables.now actions.now rows.now) }
{
    let width = tables.width;
    add_facts_of_assignments(alloc, tables, actions, rows, hyps)?;
    add_pair_facts(alloc, width, PairFact::Apart, rows, hyps)?;
    add_pair_facts(alloc, width, PairFact::Order, rows, hyps)?;
    add_pair_facts(alloc, width, PairFact::Equality, rows, hyps)?;
    add_pair_facts(alloc, width, PairFact::Bound, rows, hyps)?;
    add_pair_facts(alloc, width, PairFact::Constant, rows, hyps)?;
    add_three_way_facts(alloc, width, rows, hyps)
}

// Appends the hypotheses that hold in every store of the width.
fn add_derived(alloc: Global, tables: &RowTables, hyps: &mut Vec<RuledTerm>) -> Result<(), NoMemory>
    ensures { OnOk result (hyps.new.items ≡ hyps.old.items ++ derived tables.now) }
{
    let actions = numbered_assignments(alloc, tables)?;
    let rows = numbered_tests(alloc, tables)?;
    add_facts(alloc, tables, &actions, &rows, hyps)
}

/// Returns all hypotheses of the problem of a file with these tables: the stated terms; for each assignment and each
/// comparison, that the comparison holds after the assignment exactly when the substituted one holds before it, if the
/// substituted one is constant or in the table; then the facts of arithmetic F1 to F6 (`Rule`) about the comparisons.
/// Fails only when out of memory.
pub(crate) fn hypotheses_of(
    alloc: Global,
    tables: &RowTables,
    terms: &[Kat],
) -> Result<Vec<RuledTerm>, NoMemory>
    ensures { IfOk result (λ v. v.items ≡ hypotheses tables.now (map kat_tree terms.now)) }
{
    let mut hyps = stated_hyps(alloc, terms)?;
    add_derived(alloc, tables, &mut hyps)?;
    Ok(hyps)
}
